// What the two calls on a kept sheet answer, and what they leave in the lent words.
ghost use Rattle.std.specs.Prelude.{◌≡◌, ◌+◌, ◌-◌, ◌*◌, ◌^◌, ◌≤◌, length, take};
ghost use Rattle.doortumble.specs.Calls.{packed_of};
ghost use Rattle.print.specs.Text.{Puts};
ghost use Rattle.stream_answers.specs.Modes.{asked_walk, room_in, lent_words};
ghost use Rattle.stream_answers.specs.Kept.{given_count, stored_words, given_words, kept_stream, move_answer, move_words, kept_text, most_given};

use crate::{Asked, KEPT, call};

// The most words that are given: a case's data holds no more.
const MOST_GIVEN: usize = 41471;

// The words that are given lie in words of the call's own.
pub(crate) fn called(out: &mut [u8], at: usize, bytes: &[u8], asked: Asked, narrow: bool) -> usize
    ensures { Puts (kept_text narrow (asked_walk (kept_stream bytes.now) asked) (given_words bytes.now) (lent_words bytes.now (2 ^ 64 - 1))) out.old at out.new result }
{
    let mut given = [0u64; MOST_GIVEN];
    let m = given_count(bytes);
    loaded(out, at, bytes, asked, narrow, &mut given[..m])
}

fn loaded(
    out: &mut [u8],
    at: usize,
    bytes: &[u8],
    asked: Asked,
    narrow: bool,
    given: &mut [u64],
) -> usize
    requires { length given.old ≤ most_given }
    ensures { Puts (kept_text narrow (asked_walk (kept_stream bytes.now) asked) (stored_words (length given.old) bytes.now 8) (lent_words bytes.now (2 ^ 64 - 1))) out.old at out.new result }
{
    load(bytes, given);
    lent(out, at, bytes, asked, narrow, given)
}

// The words stand behind the front, eight bytes each.
fn load(bytes: &[u8], words: &mut [u64])
    requires { length words.old ≤ most_given }
    ensures { words.new ≡ stored_words (length words.old) bytes.now 8 }
{
    for i in 0..words.len() {
        words[i] = cursor::u64_at(bytes, KEPT + 8 * i);
    }
}

fn lent(out: &mut [u8], at: usize, bytes: &[u8], asked: Asked, narrow: bool, given: &[u64]) -> usize
    ensures { Puts (kept_text narrow (asked_walk (kept_stream bytes.now) asked) given.now (lent_words bytes.now (2 ^ 64 - 1))) out.old at out.new result }
{
    let mut words = [0xFFFF_FFFF_FFFF_FFFFu64; 65536];
    in_room(out, at, bytes, asked, narrow, given, &mut words)
}

// The words that are lent are the first of those that are there, or all of them.
fn in_room(
    out: &mut [u8],
    at: usize,
    bytes: &[u8],
    asked: Asked,
    narrow: bool,
    given: &[u64],
    words: &mut [u64],
) -> usize
    ensures { Puts (kept_text narrow (asked_walk (kept_stream bytes.now) asked) given.now (take (room_in bytes.now) words.old)) out.old at out.new result }
{
    let room = (cursor::u32_at(bytes, 0) as usize).min(words.len());
    kept_in(
        out,
        at,
        stream_of(bytes),
        asked,
        narrow,
        given,
        &mut words[..room],
    )
}

fn kept_in(
    out: &mut [u8],
    at: usize,
    s: &[u8],
    asked: Asked,
    narrow: bool,
    given: &[u64],
    words: &mut [u64],
) -> usize
    ensures { Puts (kept_text narrow (asked_walk s.now asked) given.now words.old) out.old at out.new result }
{
    let r = moved(s, asked, narrow, given, words);
    let end = call::said(out, at, r);
    call::sheet_line(out, end, words)
}

// A case's flag says which of the two calls runs: an `if` is plainer here than a closure that is passed down.
fn moved(s: &[u8], asked: Asked, narrow: bool, given: &[u64], words: &mut [u64]) -> u64
    ensures value { result ≡ packed_of (move_answer narrow (asked_walk s.now asked) given.now words.old) }
    ensures words_after { words.new ≡ move_words narrow (asked_walk s.now asked) given.now words.old }
{
    let f = asked.flags;
    let d = f.dependencies as u32;
    let i = f.inline as u32;
    if narrow {
        return doortumble::doortumble_narrow(s, asked.start, asked.length, d, i, given, words);
    }
    doortumble::doortumble_widen(s, asked.start, asked.length, d, i, given, words)
}

// How many words are given.
fn given_count(bytes: &[u8]) -> usize
    ensures { (result ≡ given_count bytes.now) × (result ≤ most_given) }
{
    (cursor::u32_at(bytes, 4) as usize).min(MOST_GIVEN)
}

// The stream stands behind them.
fn stream_of(bytes: &[u8]) -> &[u8]
    ensures { result.now ≡ kept_stream bytes.now }
{
    call::behind(bytes, KEPT + 8 * given_count(bytes))
}
