// The fields of a token's line that hold values: type, size, start, next and content, with colons between them; and an instance.
ghost use Rattle.print.specs.Text.{Puts};
ghost use Rattle.stream_answers.specs.Content.{type_text, places_text, sized_text, sizeless_text, bytes_field};
ghost use Rattle.stream_answers.specs.Token.{values_from, instance_text};

use crate::content;
use tokens::{Instance, Values};
use value::Value;

// A field's type, in two hexadecimal digits.
fn code(out: &mut [u8], at: usize, c: u8) -> usize
    ensures { Puts (type_text c) out.old at out.new result }
{
    let a = print::byte(out, at, b' ');
    let b = print::hex_byte(out, a, c);
    print::byte(out, b, b':')
}

// Where a value starts, where it ends, and its content.
fn placed(out: &mut [u8], at: usize, v: Value, next: usize, s: &[u8]) -> usize
    ensures { Puts (places_text s.now v next) out.old at out.new result }
{
    let a = print::byte(out, at, b':');
    let b = print::decimal(out, a, v.start as u64);
    let c = print::byte(out, b, b':');
    let d = print::decimal(out, c, next as u64);
    let e = print::byte(out, d, b':');
    content::content(out, e, v, s)
}

// A value with its size, and one without.
fn sized(out: &mut [u8], at: usize, v: Value, size: u16, next: usize, s: &[u8]) -> usize
    ensures { Puts (sized_text s.now v size next) out.old at out.new result }
{
    let a = code(out, at, v.code);
    let b = print::decimal(out, a, size as u64);
    placed(out, b, v, next, s)
}

pub(crate) fn sizeless(out: &mut [u8], at: usize, v: Value, next: usize, s: &[u8]) -> usize
    ensures { Puts (sizeless_text s.now v next) out.old at out.new result }
{
    let a = code(out, at, v.code);
    let b = print::byte(out, a, b'-');
    placed(out, b, v, next, s)
}

// Bytes, as a field of their own.
pub(crate) fn bytes(out: &mut [u8], at: usize, part: &[u8]) -> usize
    ensures { Puts (bytes_field part.now) out.old at out.new result }
{
    let after = print::byte(out, at, b' ');
    print::hex(out, after, part)
}

pub(crate) fn instance(out: &mut [u8], at: usize, i: Instance, s: &[u8]) -> usize
    ensures { Puts (instance_text s.now i) out.old at out.new result }
{
    let a = print::number(out, at, i.id as u64);
    let b = print::number(out, a, i.offset as u64);
    let g = i.guid;
    let c = bytes(out, b, g.of(s));
    let d = print::number(out, c, i.count as u64);
    values(out, d, Values::of(i), s)
}

// The values that are left, one after the other. A loop by hand: each read says where the next value is.
fn values(out: &mut [u8], at: usize, first: Values, s: &[u8]) -> usize
    ensures { Puts (values_from first.left s.now first) out.old at out.new result }
{
    let mut filled = at;
    let mut v = first;
    loop {
        match v.next(s) {
            Ok(Some((x, size, next))) => {
                filled = sized(out, filled, x, size, next.at, s);
                v = next;
            }
            Ok(None) => return filled,
            Err(_) => return filled,
        }
    }
}
