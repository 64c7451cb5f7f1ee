// The answers of the batch's modes that read a token stream: the walk (T), the single instance (S), the owner table (O), the sheet by itself
// (C), sheet and owner table by one C call (B) and the moves of a kept sheet (K). Each function puts its lines into a lent buffer, behind what
// is there.
// The buffer and how full it is stay two parameters: the public calls of these crates take them so, and the contracts read both.
#![tactic(auto)]

mod call;
mod content;
mod field;
mod joined;
mod keeping;
mod token;

ghost use Rattle.std.specs.Prelude.{◌≡◌, ◌+◌, ◌-◌, ◌*◌, ◌^◌};
ghost use Rattle.cursor.specs.Reads.{number_of};
ghost use Rattle.tokens.specs.Single.{single_answer, ends_answer};
ghost use Rattle.print.specs.Text.{ascii, Puts, PutsSome, line_of};
ghost use Rattle.stream_answers.specs.Walk.{walk_text};
ghost use Rattle.stream_answers.specs.Modes.{asked_walk, single_text, ends_text, single_lines, OwnersSaid, sheet_text, lent_words, stream_of};
ghost use Rattle.stream_answers.specs.Body.{lent_both, body_stream, BodyCalled, BodiesCalled};
ghost use Rattle.stream_answers.specs.Kept.{given_words, kept_stream, kept_text};

use cursor::Counted;
use tokens::Flags;

// What of a stream is asked for, and how it is read.
#[derive(Clone, Copy)]
pub struct Asked {
    pub start: u32,
    pub length: u32,
    pub flags: Flags,
}

// Mode C's data begins with how many words are lent, in so many bytes.
pub const ROOM: usize = 4;

// Mode B's begins with how many are lent for the sheet and for the table.
pub const ROOMS: usize = 8;

// Mode K's begins with how many words are lent and how many are given.
pub const KEPT: usize = 8;

// The most words that are lent, and the words of a sheet that is always long enough.
const MOST: usize = 65536;

const SHEET: usize = 131072;

// Mode T: the tokens, one a line, then how many they are, or the refusal that ends them.
pub fn walk(out: &mut [u8], at: usize, s: &[u8], asked: Asked) -> usize
    ensures { Puts (walk_text s.now asked.start asked.length asked.flags) out.old at out.new result }
{
    match tokens::window_of(s, asked.start, asked.length) {
        Ok((from, end)) => token::lines(out, at, s, from, end, asked.flags),
        Err(r) => print::refused(out, at, r),
    }
}

// Mode S: whether a stream is a single instance, and whether it ends after what was consumed.
pub fn single(out: &mut [u8], at: usize, s: &[u8], consumed: usize) -> usize
    ensures { Puts (single_lines s.now consumed) out.old at out.new result }
{
    let a = start_line(out, at, tokens::single_instance_offset(s));
    ends_line(out, a, tokens::ends_stream(s, consumed))
}

fn start_line(out: &mut [u8], at: usize, found: Option<usize>) -> usize
    ensures { Puts (single_text (single_answer found)) out.old at out.new result }
{
    match found {
        Some(n) => print::line(out, at, b"single", &[n as u64]),
        None => print::text(out, at, b"single none\n"),
    }
}

fn ends_line(out: &mut [u8], at: usize, e: Option<bool>) -> usize
    ensures { Puts (ends_text (ends_answer e)) out.old at out.new result }
{
    match e {
        Some(true) => print::text(out, at, b"ends yes\n"),
        Some(false) => print::text(out, at, b"ends no\n"),
        None => print::text(out, at, b"ends none\n"),
    }
}

// Mode O: the owner table of a stream, or why it is no body.
pub fn owners(out: &mut [u8], at: usize, s: &[u8], asked: Asked) -> usize
    ensures { PutsSome (OwnersSaid (asked_walk s.now asked)) out.old at out.new result }
{
    let mut sheet = [0u64; SHEET];
    let mut table = [0u32; MOST];
    match body::fill(
        s,
        asked.start,
        asked.length,
        asked.flags,
        &mut sheet,
        &mut table,
    ) {
        Ok(n) => owner_line(out, at, &table[..n]),
        Err(r) => print::refused(out, at, r),
    }
}

fn owner_line(out: &mut [u8], at: usize, words: &[u32]) -> usize
    ensures { Puts (line_of (ascii "owners") words.now) out.old at out.new result }
{
    let a = print::text(out, at, b"owners");
    let b = print::halves(out, a, words);
    print::byte(out, b, b'\n')
}

// Mode C: what the library's sheet answers on lent words, and what it leaves there. Each word is first set to all ones.
pub fn sheet_alone(out: &mut [u8], at: usize, bytes: &[u8], asked: Asked) -> usize
    ensures { Puts (sheet_text (asked_walk (stream_of bytes.now) asked) (lent_words bytes.now (2 ^ 64 - 1))) out.old at out.new result }
{
    let mut words = [0xFFFF_FFFF_FFFF_FFFFu64; MOST];
    call::sheet_of(out, at, bytes, asked, &mut words)
}

// Mode B: what the C call for sheet and owner table answers on lent words of both kinds, and what it leaves there.
pub fn body_call(out: &mut [u8], at: usize, bytes: &[u8], asked: Asked) -> usize
    ensures { PutsSome (BodyCalled (asked_walk (body_stream bytes.now) asked) (lent_both bytes.now)) out.old at out.new result }
{
    let mut sheet = [0xFFFF_FFFF_FFFF_FFFFu64; MOST];
    let mut table = [0xFFFF_FFFFu32; MOST];
    joined::body_of(out, at, bytes, asked, &mut sheet, &mut table)
}

// Mode N: the same for the call that goes into the bodies in values.
pub fn bodies_call(out: &mut [u8], at: usize, bytes: &[u8], asked: Asked) -> usize
    ensures { PutsSome (BodiesCalled (body_stream bytes.now) asked (lent_both bytes.now)) out.old at out.new result }
{
    let mut sheet = [0xFFFF_FFFF_FFFF_FFFFu64; MOST];
    let mut table = [0xFFFF_FFFFu32; MOST];
    joined::bodies_of(out, at, bytes, asked, &mut sheet, &mut table)
}

// Mode K: what the calls on a kept sheet answer on lent words, and what they leave there.
pub fn kept_call(out: &mut [u8], at: usize, bytes: &[u8], asked: Asked, narrow: bool) -> usize
    ensures { Puts (kept_text narrow (asked_walk (kept_stream bytes.now) asked) (given_words bytes.now) (lent_words bytes.now (2 ^ 64 - 1))) out.old at out.new result }
{
    keeping::called(out, at, bytes, asked, narrow)
}

// How much data a case of mode K has before its stream, as its front says.
pub fn kept_front(bytes: &[u8]) -> usize
    ensures { result ≡ 8 + 8 * number_of bytes.now 4 4 }
{
    KEPT + 8 * (cursor::u32_at(bytes, 4) as usize)
}
