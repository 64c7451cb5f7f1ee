// A value's content: a letter, and the number or the bytes.
ghost use Rattle.std.specs.Prelude.{◌∷◌, [], ◌++◌, ◌+◌, ◌%◌, ◌^◌, ◌<◌};
ghost use Rattle.value.specs.Scalar.{decoding_answer};
ghost use Rattle.print.specs.Text.{ascii, Puts, hex_of, hex_half, hex_word, decimal_of};
ghost use Rattle.stream_answers.specs.Content.{content_text, text_text, number_text, scalar_text, signed_text};

use cursor::View;
use value::{Content, Decoded, Scalar, Value};

pub(crate) fn content(out: &mut [u8], at: usize, v: Value, s: &[u8]) -> usize
    ensures { Puts (content_text s.now v) out.old at out.new result }
{
    let c = v.content;
    match c {
        Content::Nothing => print::byte(out, at, b'n'),
        Content::Text(t) => text(out, at, t, s),
        Content::Number(p) => number(out, at, value::decode(v.code, p.of(s))),
        Content::Bytes(p) => bytes(out, at, b'b', p.of(s)),
    }
}

// The letter says whether a text is sound.
fn text(out: &mut [u8], at: usize, v: View, s: &[u8]) -> usize
    ensures { Puts (text_text s.now v) out.old at out.new result }
{
    let p = v.part;
    if v.sound {
        return bytes(out, at, b't', p.of(s));
    }
    bytes(out, at, b'x', p.of(s))
}

fn bytes(out: &mut [u8], at: usize, letter: u8, part: &[u8]) -> usize
    ensures { Puts ((letter ∷ []) ++ hex_of part.now) out.old at out.new result }
{
    let after = print::byte(out, at, letter);
    print::hex(out, after, part)
}

fn number(out: &mut [u8], at: usize, d: Option<Decoded>) -> usize
    ensures { Puts (number_text (decoding_answer d)) out.old at out.new result }
{
    match d {
        Some(x) => {
            let v = x.value;
            scalar(out, at, x.bits, v)
        }
        None => at,
    }
}

fn scalar(out: &mut [u8], at: usize, bits: u64, x: Scalar) -> usize
    ensures { Puts (scalar_text bits x) out.old at out.new result }
{
    match x {
        Scalar::Signed(z) => signed(out, at, z),
        Scalar::Unsigned(n) => unsigned(out, at, n),
        Scalar::Single(_) => single(out, at, bits),
        Scalar::Double(_) => double(out, at, bits),
    }
}

fn unsigned(out: &mut [u8], at: usize, n: u64) -> usize
    ensures { Puts (ascii "u" ++ decimal_of n) out.old at out.new result }
{
    let after = print::byte(out, at, b'u');
    print::decimal(out, after, n)
}

fn signed(out: &mut [u8], at: usize, z: i64) -> usize
    ensures { Puts (ascii "i" ++ signed_text z) out.old at out.new result }
{
    let after = print::byte(out, at, b'i');
    if z < 0 {
        return minus(out, after, (-1 - z) as u64);
    }
    print::decimal(out, after, z as u64)
}

// A number below zero: n is one less than it is away from zero.
fn minus(out: &mut [u8], at: usize, n: u64) -> usize
    requires { n < 2 ^ 63 }
    ensures { Puts (ascii "-" ++ decimal_of (n + 1)) out.old at out.new result }
{
    let after = print::byte(out, at, b'-');
    print::decimal(out, after, n + 1)
}

// A real's stored bits, most significant digit first: 8 digits, or 16.
fn single(out: &mut [u8], at: usize, bits: u64) -> usize
    ensures { Puts (ascii "f" ++ hex_half (bits % 2 ^ 32)) out.old at out.new result }
{
    let after = print::byte(out, at, b'f');
    print::hex_half(out, after, (bits % 0x1_0000_0000) as u32)
}

fn double(out: &mut [u8], at: usize, bits: u64) -> usize
    ensures { Puts (ascii "f" ++ hex_word bits) out.old at out.new result }
{
    let after = print::byte(out, at, b'f');
    print::hex_word(out, after, bits)
}
