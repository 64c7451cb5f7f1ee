// What the library's sheet answers on lent words, and what it leaves there.
ghost use Rattle.std.specs.Prelude.{◌≡◌, take, drop};
ghost use Rattle.cursor.specs.Answers.{count_answer};
ghost use Rattle.print.specs.Text.{Puts};
ghost use Rattle.stream_answers.specs.Modes.{asked_walk, count_text, answer_text, words_text, sheet_text, stream_of, room_in};

use crate::{Asked, ROOM};
use cursor::Counted;

// The words that are lent are the first of those that are there, or all of them.
pub(crate) fn sheet_of(
    out: &mut [u8],
    at: usize,
    bytes: &[u8],
    asked: Asked,
    words: &mut [u64],
) -> usize
    ensures { Puts (sheet_text (asked_walk (stream_of bytes.now) asked) (take (room_in bytes.now) words.old)) out.old at out.new result }
{
    let room = (cursor::u32_at(bytes, 0) as usize).min(words.len());
    sheet_in(out, at, behind(bytes, ROOM), asked, &mut words[..room])
}

fn sheet_in(out: &mut [u8], at: usize, s: &[u8], asked: Asked, words: &mut [u64]) -> usize
    ensures { Puts (sheet_text (asked_walk s.now asked) words.old) out.old at out.new result }
{
    let r = sheet::fill(s, asked.start, asked.length, asked.flags, words);
    let end = counted(out, at, r);
    sheet_line(out, end, words)
}

// How many tokens there are, or the refusal.
fn counted(out: &mut [u8], at: usize, c: Counted) -> usize
    ensures { Puts (count_text (count_answer c)) out.old at out.new result }
{
    match c {
        Ok(n) => print::line(out, at, b"count", &[n as u64]),
        Err(r) => print::refused(out, at, r),
    }
}

// What stands behind the front of a case's data: the stream.
pub(crate) fn behind(bytes: &[u8], front: usize) -> &[u8]
    ensures { result.now ≡ drop front bytes.now }
{
    let from = front.min(bytes.len());
    &bytes[from..]
}

// The answer's word.
pub(crate) fn said(out: &mut [u8], at: usize, word: u64) -> usize
    ensures { Puts (answer_text word) out.old at out.new result }
{
    let a = print::text(out, at, b"answer ");
    let b = print::hex_word(out, a, word);
    print::byte(out, b, b'\n')
}

pub(crate) fn sheet_line(out: &mut [u8], at: usize, words: &[u64]) -> usize
    ensures { Puts (words_text words.now) out.old at out.new result }
{
    let a = print::text(out, at, b"words");
    let b = print::hex_words(out, a, words);
    print::byte(out, b, b'\n')
}
