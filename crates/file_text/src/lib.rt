// What the programs write for a whole log file, as text in a lent buffer: the listing of each chunk, and the answers of mode F.
// The buffer and how full it is stay two parameters: the public calls of these crates take them so, and the contracts read both.
// The two loops over a file's chunks are by hand: what is said of a chunk by its offset is in the invariant, and a `for` over `step_by` has
// the offsets only as a list. They are two, since one would take what is put as a closure and what that says as a predicate.
#![tactic(auto)]

mod file_answers;
mod file_listing;
mod parts;

pub use file_answers::answers;
pub use file_listing::listing;
