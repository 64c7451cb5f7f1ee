// What a value holds, by its type. `rest` is the part of the stream from the value to the stream's end, which starts at `start` in the
// stream: each read is a read of the cursor at the beginning of `rest`, and what was read is moved by `start`. It is moved as soon as it is
// read: a caller who asks for the end alone then pays for nothing else.
ghost use Rattle.std.specs.Prelude.{◌≡◌, ◌+◌, ◌^◌, ◌<◌, length};
ghost use Rattle.cursor.specs.Answer.{◌then◌};
ghost use Rattle.cursor.specs.Answers.{read_answer};
ghost use Rattle.cursor.specs.Reads.{part_moved};
ghost use Rattle.value.specs.Value.{as_bytes, as_number, as_text, moved, tells_length, told_in, takes_size, size_t_in, not_read, sized_in};
ghost use Rattle.value.specs.Pieces.{fixed_in, by_size_in, Movable};

use crate::{Content, Kind};
use cursor::{Cursor, Part, Read, Refusal, View};

const BEGINNING: Cursor = Cursor { at: 0 };

// Whether a type tells how many bytes it reads, whatever a size says.
pub(crate) fn tells(code: u8) -> bool
    ensures { result ≡ tells_length code }
{
    0 < Kind::width(code) || code == Kind::NULL || code == Kind::SID
}

// What such a type reads.
pub(crate) fn told(rest: &[u8], start: usize, code: u8) -> Read<Content>
    requires { start + length rest.now < 2 ^ 64 }
    ensures { read_answer result ≡ moved start (told_in rest.now code) }
{
    let width = Kind::width(code);
    if 0 < width {
        return fixed(rest, start, width);
    }
    if code == Kind::SID {
        return bytes(BEGINNING.read_sid(rest), start);
    }
    Ok((Content::Nothing, Cursor { at: start }))
}

// What a type reads with a size.
pub(crate) fn sized(rest: &[u8], start: usize, code: u8, size: usize) -> Read<Content>
    requires { start + length rest.now < 2 ^ 64 }
    ensures { read_answer result ≡ moved start (sized_in rest.now code size) }
{
    if tells(code) {
        return told(rest, start, code);
    }
    if code == Kind::STRING {
        return text(BEGINNING.utf16_by_char_count(rest, size / 2), start);
    }
    by_size(rest, start, code, size)
}

// The refusal of a type that is not read: 8 if it is known, else 7.
pub(crate) fn not_read(code: u8) -> u8
    ensures { result ≡ not_read code }
{
    if Kind::known(code) {
        Refusal::TYPE_NOT_READ
    } else {
        Refusal::UNKNOWN_TYPE
    }
}

// What was read is moved here, and so is a refusal. A function for each kind of content, and no closure that makes it: a content that is moved
// after it was made went through memory with the unused bytes beside `sound`, and an event of many values took twice as long.
fn bytes(got: Read<Part>, start: usize) -> Read<Content>
    requires { Movable start (read_answer got then as_bytes) }
    ensures { read_answer result ≡ moved start (read_answer got then as_bytes) }
{
    match got {
        Ok((p, next)) => Ok((
            Content::Bytes(part_moved(p, start)),
            Cursor {
                at: start + next.at,
            },
        )),
        Err(r) => cursor::refuse(r.number, start + r.place),
    }
}

fn number(got: Read<Part>, start: usize) -> Read<Content>
    requires { Movable start (read_answer got then as_number) }
    ensures { read_answer result ≡ moved start (read_answer got then as_number) }
{
    match got {
        Ok((p, next)) => Ok((
            Content::Number(part_moved(p, start)),
            Cursor {
                at: start + next.at,
            },
        )),
        Err(r) => cursor::refuse(r.number, start + r.place),
    }
}

fn text(got: Read<View>, start: usize) -> Read<Content>
    requires { Movable start (read_answer got then as_text) }
    ensures { read_answer result ≡ moved start (read_answer got then as_text) }
{
    match got {
        Ok((v, next)) => Ok((
            Content::Text(View {
                part: part_moved(v.part, start),
                sound: v.sound,
            }),
            Cursor {
                at: start + next.at,
            },
        )),
        Err(r) => cursor::refuse(r.number, start + r.place),
    }
}

fn part_moved(p: Part, by: usize) -> Part
    requires { by + p.start < 2 ^ 64 }
    ensures { result ≡ part_moved by p }
{
    Part {
        start: by + p.start,
        len: p.len,
    }
}

// A width of 16 bytes is no number's.
fn fixed(rest: &[u8], start: usize, width: usize) -> Read<Content>
    requires { start + length rest.now < 2 ^ 64 }
    ensures { read_answer result ≡ moved start (fixed_in rest.now width) }
{
    let got = BEGINNING.take_bytes(rest, width);
    if width == 16 {
        bytes(got, start)
    } else {
        number(got, start)
    }
}

fn by_size(rest: &[u8], start: usize, code: u8, size: usize) -> Read<Content>
    requires { start + length rest.now < 2 ^ 64 }
    ensures { read_answer result ≡ moved start (by_size_in rest.now code size) }
{
    if takes_size(code) {
        return bytes(BEGINNING.take_bytes(rest, size), start);
    }
    if code == Kind::SIZE_T {
        return size_t(rest, start, size);
    }
    let width = Kind::element_width(code);
    if 0 < width {
        return bytes(BEGINNING.read_array(rest, width, size), start);
    }
    cursor::refuse(not_read(code), start)
}

fn size_t(rest: &[u8], start: usize, size: usize) -> Read<Content>
    requires { start + length rest.now < 2 ^ 64 }
    ensures { read_answer result ≡ moved start (size_t_in rest.now size) }
{
    if size == 4 || size == 8 {
        number(BEGINNING.take_bytes(rest, size), start)
    } else {
        cursor::refuse(Refusal::TYPE_NOT_READ, start)
    }
}

// (The arrays of strings are neighbours, and so in two arms: see `Kind::width`.)
fn takes_size(code: u8) -> bool
    ensures { result ≡ takes_size code }
{
    match code {
        Kind::ANSI_STRING | Kind::BINARY | Kind::BIN_XML | Kind::STRING_ARRAY => true,
        Kind::ANSI_STRING_ARRAY => true,
        _ => false,
    }
}
