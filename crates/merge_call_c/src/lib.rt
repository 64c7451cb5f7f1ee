// The C call of the merge: it exports the function of the crate merge_call that has its name, and promises what that promises. It is the archive
// libmerge_call.a (command/archive makes it); the C header is include/doortumble.h.
#![tactic(auto)]

ghost use Rattle.merge_call.specs.Calls.{rule_in, MergePacked};

// The merged rows into lent words: rule one where `newest` is 0, else rule two.
#[unsafe(no_mangle)]
pub extern "C" fn doortumble_merge(
    primary: &[u64],
    other: &[u64],
    newest: u32,
    res: &mut [u64],
) -> u64
    ensures { MergePacked primary.now other.now (rule_in newest) res.old res.new result }
{
    merge_call::doortumble_merge(primary, other, newest, res)
}
