// The merge of two lists of writes, as a library. The crate merge_call_c exports the call to C; the C header is include/doortumble.h, and the
// call has an archive of its own, which links beside the reader's.
#![tactic(auto)]

ghost use Rattle.std.specs.Prelude.{◌≡◌};
ghost use Rattle.merge_call.specs.Calls.{rule_in, MergePacked};

use merge::Rule;

// The merged rows into lent words: rule one where `newest` is 0, else rule two.
pub fn doortumble_merge(primary: &[u64], other: &[u64], newest: u32, res: &mut [u64]) -> u64
    ensures { MergePacked primary.now other.now (rule_in newest) res.old res.new result }
{
    doortumble::packed(merge::merge(primary, other, rule(newest), res))
}

fn rule(newest: u32) -> Rule
    ensures { result ≡ rule_in newest }
{
    if newest == 0 {
        return Rule::Primary;
    }
    Rule::Newest
}
