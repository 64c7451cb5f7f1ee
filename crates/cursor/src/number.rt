// Numbers of one, two, four and eight bytes, the first byte the lowest.
ghost use Rattle.std.specs.Prelude.{◌≡◌, ℕ, ◌+◌, ◌<◌, ◌≤◌, length, get_or};
ghost use Rattle.std.proofs.Common.{rules};
ghost use Rattle.cursor.specs.Reads.{number_of};

use crate::raw;

// What a read has to know of a number: how many bytes it has, which number they are, and how they are read where they are there.
pub(crate) trait Number: Drop {
    ghost WIDTH: { ℕ };

    ghost of: { ℕ → Self };

    const WIDTH: usize;

    fn at(s: &[u8], at: usize) -> Self
        requires { at + WIDTH ≤ length s.now }
        ensures { result ≡ of (number_of s.now at WIDTH) };

    // None is wider than the bytes of `filled`.
    ghost fits: { WIDTH ≤ 8 };
}

impl Number for u8 {
    ghost WIDTH = { 1 };

    ghost of = { λ n. n };

    const WIDTH: usize = 1;

    ghost fits = { Prim.search rules };

    #[tactic(auto, using(crate::proofs::Numbers::number_one))]
    fn at(s: &[u8], at: usize) -> u8 {
        s[at]
    }
}

impl Number for u16 {
    ghost WIDTH = { 2 };

    ghost of = { λ n. n };

    const WIDTH: usize = 2;

    ghost fits = { Prim.search rules };

    fn at(s: &[u8], at: usize) -> u16 {
        u16::from_le_bytes([s[at], s[at + 1]])
    }
}

impl Number for u32 {
    ghost WIDTH = { 4 };

    ghost of = { λ n. n };

    const WIDTH: usize = 4;

    ghost fits = { Prim.search rules };

    fn at(s: &[u8], at: usize) -> u32 {
        u32::from_le_bytes([s[at], s[at + 1], s[at + 2], s[at + 3]])
    }
}

impl Number for u64 {
    ghost WIDTH = { 8 };

    ghost of = { λ n. n };

    const WIDTH: usize = 8;

    ghost fits = { Prim.search rules };

    fn at(s: &[u8], at: usize) -> u64 {
        u64::from_le_bytes([
            s[at],
            s[at + 1],
            s[at + 2],
            s[at + 3],
            s[at + 4],
            s[at + 5],
            s[at + 6],
            s[at + 7],
        ])
    }
}

// The number at a position, of which any bytes may be missing. These count as zeros.
pub(crate) fn number_at<N: Number>(s: &[u8], at: usize) -> N
    ensures { result ≡ N.of (number_of s.now at N.WIDTH) }
{
    if raw::stands(s, at, N::WIDTH) {
        return N::at(s, at);
    }
    N::at(&filled(s, at), 0)
}

// The bytes from a position on, which are fewer than eight, and zeros behind them. (Byte by byte: a copy of so many bytes would need memcpy from
// outside. A function of its own: with its eight tests in every read of a number, what reads one is too long to be compiled into its callers.)
#[inline(never)]
fn filled(s: &[u8], at: usize) -> [u8; 8]
    requires { length s.now < at + 8 }
    ensures { (w : ℕ) → number_of result 0 w ≡ number_of s.now at w }
{
    if s.len() <= at {
        return [0u8; 8];
    }
    let rest = &s[at..];
    [
        byte(rest, 0),
        byte(rest, 1),
        byte(rest, 2),
        byte(rest, 3),
        byte(rest, 4),
        byte(rest, 5),
        byte(rest, 6),
        byte(rest, 7),
    ]
}

// A byte, or zero where there is none.
fn byte(s: &[u8], at: usize) -> u8
    ensures { result ≡ get_or s.now at 0 }
{
    if at < s.len() { s[at] } else { 0 }
}
