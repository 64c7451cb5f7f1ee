// Decoded scalars: the stored bits of a number as a signed or an unsigned number, or as a real.
ghost use Rattle.std.specs.Prelude.{◌≡◌, ◌≤◌};
ghost use Rattle.std.specs.Float.Ieee.{of_bits};
ghost use Rattle.std.specs.Float.{binary32, binary64};
ghost use Rattle.value.specs.Scalar.{decoding_answer, bits_of, signed_of, decoded, unsigned_of, real_of};

use crate::{Decoded, Kind, Scalar};

fn decoded(bits: u64, value: Scalar) -> Option<Decoded>
    ensures { decoding_answer result ≡ decoded bits value }
{
    Some(Decoded { bits, value })
}

// `last` is the last number of the width.
pub(crate) fn signed(bits: u64, last: u64) -> Option<Decoded>
    requires { bits ≤ last }
    ensures { decoding_answer result ≡ decoded bits (Scalar.Signed (signed_of last bits)) }
{
    decoded(bits, Scalar::Signed(signed_of(bits, last)))
}

fn signed_of(bits: u64, last: u64) -> i64
    requires { bits ≤ last }
    ensures { result ≡ signed_of last bits }
{
    if bits <= last / 2 {
        bits as i64
    } else {
        -1 - (last - bits) as i64
    }
}

pub(crate) fn unsigned(code: u8, bytes: &[u8]) -> Option<Decoded>
    ensures { decoding_answer result ≡ unsigned_of code (bits_of code bytes.now) }
{
    match code {
        Kind::UINT8 => whole(u64::from(cursor::u8_at(bytes, 0))),
        Kind::UINT16 => whole(u64::from(cursor::u16_at(bytes, 0))),
        Kind::UINT32 | Kind::BOOL | Kind::HEX_INT32 => whole(u64::from(cursor::u32_at(bytes, 0))),
        Kind::UINT64 | Kind::FILETIME | Kind::HEX_INT64 => whole(cursor::u64_at(bytes, 0)),
        Kind::SIZE_T => whole(cursor::u64_at(bytes, 0)),
        _ => real(code, bytes),
    }
}

fn whole(bits: u64) -> Option<Decoded>
    ensures { decoding_answer result ≡ decoded bits (Scalar.Unsigned bits) }
{
    decoded(bits, Scalar::Unsigned(bits))
}

fn real(code: u8, bytes: &[u8]) -> Option<Decoded>
    ensures { decoding_answer result ≡ real_of code (bits_of code bytes.now) }
{
    match code {
        Kind::REAL32 => {
            let bits = cursor::u32_at(bytes, 0);
            decoded(u64::from(bits), Scalar::Single(f32_of(bits)))
        }
        Kind::REAL64 => {
            let bits = cursor::u64_at(bytes, 0);
            decoded(bits, Scalar::Double(f64_of(bits)))
        }
        _ => None,
    }
}

// A NaN's bits are no float's that the machine makes, so they are told apart first. (Two functions: a trait over the two types would need
// both bodies and their contracts as well, and has the same two calls.)
fn f32_of(bits: u32) -> f32
    ensures { result ≡ of_bits binary32 bits }
{
    if 0x7F80_0000 < bits % 0x8000_0000 {
        0.0 / 0.0
    } else {
        f32::from_bits(bits)
    }
}

fn f64_of(bits: u64) -> f64
    ensures { result ≡ of_bits binary64 bits }
{
    if 0x7FF0_0000_0000_0000 < bits % 0x8000_0000_0000_0000 {
        0.0 / 0.0
    } else {
        f64::from_bits(bits)
    }
}
