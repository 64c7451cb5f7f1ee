// A position in a lent slice of bytes, and the reads at it. The Rust: utils/byte_cursor.rs and utils/bytes.rs.
//
// A cursor goes in by value, with the slice lent beside it. Each read answers a `Result`: what was read and the next cursor,
// or a refusal with document 01's number and place. Every call takes every position and every slice.
// Slice and cursor stay two parameters: an answer holds no part of a lent slice, only where the part starts and how long it is.
#![tactic(auto)]

mod number;
mod raw;

ghost use Rattle.std.specs.Prelude.{◌≡◌, get_or, Err};
ghost use Rattle.cursor.specs.Answer.{gives, pick};
ghost use Rattle.cursor.specs.Answers.{refusal_of, moved_answer, count_answer, read_answer};
ghost use Rattle.cursor.specs.Lent.{lent_answer, lent_left};
ghost use Rattle.cursor.specs.Reads.{set_to, number_of, starts_with, number_at, read_of, take_at, part_of, sid_at, array_at};
ghost use Rattle.cursor.specs.Text.{units_of, well_formed, counted_at, prefixed_at, zero_ended_at};

use number::Number;

// Why a call refuses: document 01's number and place. One struct for all crates. (A number and no enum: the word of a C call, a listing's row
// and the texts take every number, those of document 02 and of docs/EVENT.md too.)
#[derive(Clone, Copy)]
pub struct Refusal {
    pub number: u8,
    pub place: usize,
}

impl Refusal {
    pub const WRONG_LENGTH: u8 = 1;

    pub const PAST_END: u8 = 2;

    pub const TOO_FEW_BYTES: u8 = 3;

    pub const WRONG_MAGIC: u8 = 4;

    pub const SMALL_RECORD: u8 = 5;

    pub const LATE_FILETIME: u8 = 6;

    pub const UNKNOWN_TYPE: u8 = 7;

    pub const TYPE_NOT_READ: u8 = 8;

    pub const UNKNOWN_TOKEN: u8 = 9;

    pub const UNEVEN_ARRAY: u8 = 10;

    pub const NAME_NOT_ENDED: u8 = 11;

    pub const NAME_HASH: u8 = 12;

    pub const NO_BODY: u8 = 13;

    pub const TOO_DEEP: u8 = 14;

    pub const UNFINISHED: u8 = 15;

    pub const NO_ROOM: u8 = 16;

    pub const SIZE_COPY: u8 = 17;

    pub const WRONG_FILE: u8 = 18;

    pub const WRONG_SHEET: u8 = 19;

    pub const DISAGREE: u8 = 20;
}

// What a call that counts answers: how many tokens or answers there are, or why it refuses.
pub type Counted = Result<usize, Refusal>;

// What a read answers: what was read and the next cursor, or why it refuses.
pub type Read<T> = Result<(T, Cursor), Refusal>;

// A position in a slice.
#[derive(Clone, Copy)]
pub struct Cursor {
    pub at: usize,
}

// A part of a slice, by where it starts and how long it is.
#[derive(Clone, Copy)]
pub struct Part {
    pub start: usize,
    pub len: usize,
}

// What of a text is shown: its bytes before its first zero unit, and whether these are well-formed UTF-16.
#[derive(Clone, Copy)]
pub struct View {
    pub part: Part,
    pub sound: bool,
}

// A refusal as an answer, of whatever else would be answered.
pub fn refuse<T>(number: u8, place: usize) -> Result<T, Refusal>
    ensures { result ≡ Err (refusal_of number place) }
{
    Err(Refusal { number, place })
}

// The number of `w` bytes at a position, w being 1, 2, 4 or 8. Bytes past the end count as zeros, so that a caller who knows that
// they are there has no refusal to answer.
pub fn u8_at(s: &[u8], at: usize) -> u8
    ensures { result ≡ number_of s.now at 1 }
{
    number::number_at::<u8>(s, at)
}

pub fn u16_at(s: &[u8], at: usize) -> u16
    ensures { result ≡ number_of s.now at 2 }
{
    number::number_at::<u16>(s, at)
}

pub fn u32_at(s: &[u8], at: usize) -> u32
    ensures { result ≡ number_of s.now at 4 }
{
    number::number_at::<u32>(s, at)
}

pub fn u64_at(s: &[u8], at: usize) -> u64
    ensures { result ≡ number_of s.now at 8 }
{
    number::number_at::<u64>(s, at)
}

// Whether the bytes of `magic` stand at the beginning of t.
#[tactic(auto, using(crate::proofs::Magic::prefix))]
pub fn begins(t: &[u8], magic: &[u8]) -> bool
    ensures { result ≡ starts_with t.now magic.now }
{
    t.starts_with(magic)
}

// A yes or no as a word.
pub fn bit(b: bool) -> u64
    ensures { result ≡ pick b 1 0 }
{
    u64::from(b)
}

// Words into lent ones, where these have room. (By a loop: std's copy is a call of the C library's memcpy, which an archive would then need from
// outside.)
pub fn lay(words: &[u64], lent: &mut [u64]) -> Counted
    ensures result_value { count_answer result ≡ lent_answer (gives words.now) lent.old }
    ensures lent_after { lent.new ≡ lent_left (gives words.now) lent.old }
{
    if lent.len() < words.len() {
        return refuse(Refusal::NO_ROOM, words.len());
    }
    for i in 0..words.len() {
        lent[i] = words[i];
    }
    Ok(words.len())
}

// The unit n of a run of units, or 0 past its end.
#[tactic(auto, using(crate::proofs::Units::unit_is, crate::proofs::Units::no_unit))]
pub fn unit_at(units: &[u8], n: usize) -> u16
    ensures { result ≡ get_or (units_of units.now) n 0 }
{
    if n < units.len() / 2 {
        u16::at(units, 2 * n)
    } else {
        0
    }
}

// Whether a run of units is well-formed UTF-16: each high surrogate followed by a low one, no low one alone. It goes over all units
// without a branch, so that the compiler takes many at once, and leaves it out where nobody asks for the answer.
#[tactic(auto, using(crate::proofs::Formed::formed_more, crate::proofs::Formed::formed_end, crate::proofs::Units::units_length))]
pub fn well_formed(units: &[u8]) -> bool
    ensures { result ≡ well_formed (units_of units.now) }
{
    let mut sound = true;
    let mut high = false;
    for n in 0..units.len() / 2 {
        let u = unit_at(units, n);
        sound &= raw::may_follow(high, raw::is_low(u));
        high = raw::is_high(u);
    }
    sound & !high
}

impl Part {
    // The part itself, of the caller's slice; nothing where it does not lie within.
    pub fn of(self, s: &[u8]) -> &[u8]
        ensures { result.now ≡ part_of s.now self }
    {
        let start = self.start;
        let len = self.len;
        if raw::stands(s, start, len) {
            &s[start..start + len]
        } else {
            &s[..0]
        }
    }
}

impl Cursor {
    // A cursor at a position. The end itself is allowed.
    pub fn with_pos(s: &[u8], pos: usize) -> Result<Cursor, Refusal>
        ensures { moved_answer result ≡ set_to s.now pos }
    {
        if s.len() < pos {
            return refuse(Refusal::PAST_END, pos);
        }
        Ok(Cursor { at: pos })
    }

    // The cursor set to another position, which is all that counts.
    pub fn set_pos(self, s: &[u8], pos: usize) -> Result<Cursor, Refusal>
        ensures { moved_answer result ≡ set_to s.now pos }
    {
        Cursor::with_pos(s, pos)
    }

    pub fn take_bytes(self, s: &[u8], len: usize) -> Read<Part>
        ensures { read_answer result ≡ take_at s.now self.at len }
    {
        let at = self.at;
        if raw::stands(s, at, len) {
            Ok((
                Part {
                    start: at,
                    len: len,
                },
                Cursor { at: at + len },
            ))
        } else {
            refuse(Refusal::TOO_FEW_BYTES, at)
        }
    }

    // A read of a number, whatever its width. The four public reads below have the Rust's names and are this one.
    fn number<N: Number>(self, s: &[u8]) -> Read<N>
        ensures { read_answer result ≡ read_of s.now self.at N.WIDTH (N.of (number_of s.now self.at N.WIDTH)) }
    {
        let at = self.at;
        if raw::stands(s, at, N::WIDTH) {
            Ok((N::at(s, at), Cursor { at: at + N::WIDTH }))
        } else {
            refuse(Refusal::TOO_FEW_BYTES, at)
        }
    }

    pub fn u8(self, s: &[u8]) -> Read<u8>
        ensures { read_answer result ≡ number_at s.now self.at 1 }
    {
        self.number::<u8>(s)
    }

    pub fn u16(self, s: &[u8]) -> Read<u16>
        ensures { read_answer result ≡ number_at s.now self.at 2 }
    {
        self.number::<u16>(s)
    }

    pub fn u32(self, s: &[u8]) -> Read<u32>
        ensures { read_answer result ≡ number_at s.now self.at 4 }
    {
        self.number::<u32>(s)
    }

    pub fn u64(self, s: &[u8]) -> Read<u64>
        ensures { read_answer result ≡ number_at s.now self.at 8 }
    {
        self.number::<u64>(s)
    }

    // A SID: 8 bytes, of which byte 1 says how many groups of 4 bytes follow.
    pub fn read_sid(self, s: &[u8]) -> Read<Part>
        ensures { read_answer result ≡ sid_at s.now self.at }
    {
        let at = self.at;
        if raw::stands(s, at, 8) {
            let groups = s[at + 1] as usize;
            self.take_bytes(s, 8 + 4 * groups)
        } else {
            refuse(Refusal::TOO_FEW_BYTES, at)
        }
    }

    // An array of elements of `width` bytes, `size` bytes in all.
    #[tactic(auto, unfolding(crate::specs::Reads::array_at))]
    pub fn read_array(self, s: &[u8], width: usize, size: usize) -> Read<Part>
        ensures { read_answer result ≡ array_at s.now self.at width size }
    {
        let at = self.at;
        if size == 0 {
            return self.take_bytes(s, 0);
        }
        if width == 0 {
            return refuse(Refusal::TOO_FEW_BYTES, at);
        }
        if size % width != 0 {
            return refuse(Refusal::UNEVEN_ARRAY, at);
        }
        self.take_bytes(s, size)
    }

    // Counted units: n units of UTF-16 in one read, and their view.
    pub fn utf16_by_char_count(self, s: &[u8], n: usize) -> Read<View>
        ensures { read_answer result ≡ counted_at s.now self.at n }
    {
        let at = self.at;
        if s.len() / 2 < n {
            return refuse(Refusal::TOO_FEW_BYTES, at);
        }
        let bytes = 2 * n;
        if raw::stands(s, at, bytes) {
            Ok((raw::view(&s[at..at + bytes], at), Cursor { at: at + bytes }))
        } else {
            refuse(Refusal::TOO_FEW_BYTES, at)
        }
    }

    // A u16 count, the counted units, and a zero unit after them where the text is terminated. (That unit's value is not looked at.)
    pub fn len_prefixed_utf16_string(self, s: &[u8], terminated: bool) -> Read<View>
        ensures { read_answer result ≡ prefixed_at s.now self.at terminated }
    {
        let (n, next) = self.u16(s)?;
        let (v, end) = next.utf16_by_char_count(s, n as usize)?;
        if !terminated {
            return Ok((v, end));
        }
        let (_, after) = end.u16(s)?;
        Ok((v, after))
    }

    // Units up to a zero unit, which is read too. Each unit is a read of its own.
    pub fn null_terminated_utf16_string(self, s: &[u8]) -> Read<View>
        ensures { read_answer result ≡ zero_ended_at s.now self.at }
    {
        let at = self.at;
        if s.len() < at {
            return refuse(Refusal::TOO_FEW_BYTES, at);
        }
        let t = &s[at..];
        let v = raw::view(t, at);
        let shown = v.part.len;
        if shown + 2 <= t.len() {
            Ok((v, Cursor { at: at + shown + 2 }))
        } else {
            refuse(Refusal::TOO_FEW_BYTES, at + shown)
        }
    }
}
