// Moving the kept sheets: from one word a token to two, and back. Document 02, P3.
//
// A given sheet must be the stream's own. It is held to the stream's words by the loop that notes them (crates/sheet).
#![tactic(auto)]

ghost use Rattle.std.specs.Prelude.{◌≡◌, ◌≤◌, length};
ghost use Rattle.cursor.specs.Answer.{gives};
ghost use Rattle.cursor.specs.Answers.{count_answer};
ghost use Rattle.cursor.specs.Lent.{laid, lent_answer, lent_left};
ghost use Rattle.tokens.specs.Walk.{walk_of};
ghost use Rattle.sheet.specs.Sheet.{words_of};
ghost use Rattle.sheet.specs.Kept.{old_words_of, kept_answer, kept_words};
ghost use Rattle.kept.specs.Narrow.{old_of};

use cursor::{Counted, Refusal};
use sheet::Form;
use tokens::Flags;

// The sheet of a stream from its old one: the same tokens, two words each. A refusal writes nothing, and the words past the last token's stay.
pub fn widen(
    s: &[u8],
    start: u32,
    length: u32,
    flags: Flags,
    old: &[u64],
    sheet: &mut [u64],
) -> Counted
    ensures result_value { count_answer result ≡ kept_answer old_words_of words_of (walk_of s.now start length flags) old.now sheet.old }
    ensures sheet_after { sheet.new ≡ kept_words old_words_of words_of (walk_of s.now start length flags) old.now sheet.old }
{
    sheet::fill_beside(s, start, length, flags, old, Form::Old, sheet)
}

// The old sheet of a stream from its new one.
pub fn narrow(
    s: &[u8],
    start: u32,
    length: u32,
    flags: Flags,
    sheet: &[u64],
    old: &mut [u64],
) -> Counted
    ensures result_value { count_answer result ≡ kept_answer words_of old_words_of (walk_of s.now start length flags) sheet.now old.old }
    ensures after { old.new ≡ kept_words words_of old_words_of (walk_of s.now start length flags) sheet.now old.old }
{
    sheet::count_beside(s, start, length, flags, sheet, Form::New)?;
    narrowed(sheet, old)
}

// The old words of a sheet that is accepted, where they have room: no token has to be read again for them.
fn narrowed(sheet: &[u64], old: &mut [u64]) -> Counted
    ensures result_value { count_answer result ≡ lent_answer (gives (old_of sheet.now)) old.old }
    ensures after { old.new ≡ lent_left (gives (old_of sheet.now)) old.old }
{
    let tokens = sheet.len() / 2;
    if old.len() < tokens {
        return cursor::refuse(Refusal::NO_ROOM, tokens);
    }
    lay_old(sheet, old);
    Ok(tokens)
}

fn lay_old(sheet: &[u64], old: &mut [u64])
    requires { length (old_of sheet.now) ≤ length old.old }
    ensures { old.new ≡ laid (old_of sheet.now) old.old }
{
    for i in 0..sheet.len() / 2 {
        old[i] = sheet::without_bit(sheet[2 * i]);
    }
}
