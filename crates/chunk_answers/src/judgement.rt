// Whether a checksum is right, as a line.
ghost use Rattle.std.specs.Prelude.{◌++◌};
ghost use Rattle.cursor.specs.Answer.{pick};
ghost use Rattle.record.specs.Answers.{checksum_answer};
ghost use Rattle.print.specs.Text.{ascii, Puts};
ghost use Rattle.chunk_answers.specs.Judgement.{judged_line};

use cursor::Refusal;

// A word with yes or no, or the refusal.
pub fn judged(out: &mut [u8], at: usize, word: &[u8], right: Result<bool, Refusal>) -> usize
    ensures { Puts (judged_line word.now (checksum_answer right)) out.old at out.new result }
{
    match right {
        Ok(b) => {
            let end = print::text(out, at, word);
            yes_or_no(out, end, b)
        }
        Err(r) => print::refused(out, at, r),
    }
}

fn yes_or_no(out: &mut [u8], at: usize, yes: bool) -> usize
    ensures { Puts (pick yes (ascii " yes\n") (ascii " no\n")) out.old at out.new result }
{
    if yes {
        return print::text(out, at, b" yes\n");
    }
    print::text(out, at, b" no\n")
}
