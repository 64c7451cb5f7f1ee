// The answers of the modes H, E, R, W and P as text in a lent buffer: a chunk header, its events checksum, one record, a whole walk, and
// one step of it.
// The buffer and how full it is stay two parameters: the public calls of these crates take them so, and the contracts read both.
#![tactic(auto)]

mod chunk_header;
mod events_checksum;
mod item;
mod judgement;
mod one_record;
mod one_step;
mod whole_walk;

pub use chunk_header::header;
pub use events_checksum::events;
pub use judgement::judged;
pub use one_record::record;
pub use one_step::{STATE, step};
pub use whole_walk::walk;
