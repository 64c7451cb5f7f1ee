// The merge of two lists of writes, one a controller: for each tag that occurs one write, by a rule that the engineers choose. Document 02,
// P13.
//
// A write is three words: tag number, FILETIME and value. Every call takes every list: one that is too long is refused 27, a result that is
// too short 28, and then the result stays as it was.
#![tactic(auto)]

mod rows;

ghost use Rattle.cursor.specs.Answers.{count_answer};
ghost use Rattle.std.specs.Prelude.{◌≡◌};
ghost use Rattle.merge.specs.Select.{Merges};
ghost use Rattle.merge.specs.Rows.{wins_by};

use cursor::{Counted, Refusal};

// Which write of a tag wins where both lists have it. (A name and no closure: the definitions name the two rules.)
#[derive(Clone, Copy)]
pub enum Rule {
    // Rule one: the primary's newest.
    Primary,
    // Rule two: the newest of both, the primary's at equal times.
    Newest,
}

// The most writes of a list.
pub const MOST_WRITES: usize = 4096;

// Document 02's numbers of the merge's refusals: a list too long, and a result too short.
pub const LONG_LIST: u8 = 27;

pub const SHORT_RESULT: u8 = 28;

// The merged rows into lent words, three words a row, in rising tags. The words past the last row stay.
pub fn merge(primary: &[u64], other: &[u64], rule: Rule, res: &mut [u64]) -> Counted
    ensures { Merges primary.now other.now rule res.old res.new (count_answer result) }
{
    if MOST_WRITES < primary.len() / 3 {
        return Err(Refusal {
            number: LONG_LIST,
            place: 0,
        });
    }
    if MOST_WRITES < other.len() / 3 {
        return Err(Refusal {
            number: LONG_LIST,
            place: 1,
        });
    }
    rows::selected(primary, other, wins(rule), res)
}

fn wins(rule: Rule) -> rows::Wins
    ensures { result ≡ wins_by rule }
{
    match rule {
        Rule::Primary => rows::Wins::First,
        Rule::Newest => rows::Wins::Newer,
    }
}
