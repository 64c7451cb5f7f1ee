// Values: the type set, the reads with and without a size, and what a number decodes to. The Rust: binxml/value_variant.rs and the loop
// over values of binxml/tokens.rs; where the Rust differs from document 01's rules, the rules decide.
#![tactic(auto)]

mod contents;
mod scalars;

ghost use Rattle.std.specs.Prelude.{◌≡◌, ◌≤◌, length};
ghost use Rattle.cursor.specs.Answers.{read_answer};
ghost use Rattle.value.specs.Kinds.{codes, known_code, width_of, element_width_of};
ghost use Rattle.value.specs.Scalar.{decoding_answer, decoded_of};
ghost use Rattle.value.specs.Value.{sized_at, unsized_at};
ghost use Rattle.value.specs.Pieces.{passed_to, content_after_type};

use cursor::{Cursor, Part, Read, Refusal, View};

// By how much an array's code is above its element's.
const ARRAY_OF: u8 = Kind::STRING_ARRAY - Kind::STRING;

// The type set: the codes by their names in MS-EVEN6. (They are numbers and no enum: the functions here take every number, and the set has
// an answer for each.)
#[derive(Clone, Copy)]
pub struct Kind;

impl Kind {
    pub const NULL: u8 = 0x00;

    pub const STRING: u8 = 0x01;

    pub const ANSI_STRING: u8 = 0x02;

    pub const INT8: u8 = 0x03;

    pub const UINT8: u8 = 0x04;

    pub const INT16: u8 = 0x05;

    pub const UINT16: u8 = 0x06;

    pub const INT32: u8 = 0x07;

    pub const UINT32: u8 = 0x08;

    pub const INT64: u8 = 0x09;

    pub const UINT64: u8 = 0x0A;

    pub const REAL32: u8 = 0x0B;

    pub const REAL64: u8 = 0x0C;

    pub const BOOL: u8 = 0x0D;

    pub const BINARY: u8 = 0x0E;

    pub const GUID: u8 = 0x0F;

    pub const SIZE_T: u8 = 0x10;

    pub const FILETIME: u8 = 0x11;

    pub const SYSTEMTIME: u8 = 0x12;

    pub const SID: u8 = 0x13;

    pub const HEX_INT32: u8 = 0x14;

    pub const HEX_INT64: u8 = 0x15;

    pub const EVT_HANDLE: u8 = 0x20;

    pub const BIN_XML: u8 = 0x21;

    pub const EVT_XML: u8 = 0x23;

    pub const STRING_ARRAY: u8 = 0x81;

    pub const ANSI_STRING_ARRAY: u8 = 0x82;

    pub const INT8_ARRAY: u8 = 0x83;

    pub const UINT8_ARRAY: u8 = 0x84;

    pub const INT16_ARRAY: u8 = 0x85;

    pub const UINT16_ARRAY: u8 = 0x86;

    pub const INT32_ARRAY: u8 = 0x87;

    pub const UINT32_ARRAY: u8 = 0x88;

    pub const INT64_ARRAY: u8 = 0x89;

    pub const UINT64_ARRAY: u8 = 0x8A;

    pub const REAL32_ARRAY: u8 = 0x8B;

    pub const REAL64_ARRAY: u8 = 0x8C;

    pub const BOOL_ARRAY: u8 = 0x8D;

    pub const GUID_ARRAY: u8 = 0x8F;

    pub const SIZE_T_ARRAY: u8 = 0x90;

    pub const FILETIME_ARRAY: u8 = 0x91;

    pub const SYSTEMTIME_ARRAY: u8 = 0x92;

    pub const SID_ARRAY: u8 = 0x93;

    pub const HEX_INT32_ARRAY: u8 = 0x94;

    pub const HEX_INT64_ARRAY: u8 = 0x95;

    // The whole type set, in the order of the codes.
    pub fn all() -> [u8; 45]
        ensures { result ≡ codes }
    {
        [
            Kind::NULL,
            Kind::STRING,
            Kind::ANSI_STRING,
            Kind::INT8,
            Kind::UINT8,
            Kind::INT16,
            Kind::UINT16,
            Kind::INT32,
            Kind::UINT32,
            Kind::INT64,
            Kind::UINT64,
            Kind::REAL32,
            Kind::REAL64,
            Kind::BOOL,
            Kind::BINARY,
            Kind::GUID,
            Kind::SIZE_T,
            Kind::FILETIME,
            Kind::SYSTEMTIME,
            Kind::SID,
            Kind::HEX_INT32,
            Kind::HEX_INT64,
            Kind::EVT_HANDLE,
            Kind::BIN_XML,
            Kind::EVT_XML,
            Kind::STRING_ARRAY,
            Kind::ANSI_STRING_ARRAY,
            Kind::INT8_ARRAY,
            Kind::UINT8_ARRAY,
            Kind::INT16_ARRAY,
            Kind::UINT16_ARRAY,
            Kind::INT32_ARRAY,
            Kind::UINT32_ARRAY,
            Kind::INT64_ARRAY,
            Kind::UINT64_ARRAY,
            Kind::REAL32_ARRAY,
            Kind::REAL64_ARRAY,
            Kind::BOOL_ARRAY,
            Kind::GUID_ARRAY,
            Kind::SIZE_T_ARRAY,
            Kind::FILETIME_ARRAY,
            Kind::SYSTEMTIME_ARRAY,
            Kind::SID_ARRAY,
            Kind::HEX_INT32_ARRAY,
            Kind::HEX_INT64_ARRAY,
        ]
    }

    // Whether the type set has the code.
    pub fn known(code: u8) -> bool
        ensures { result ≡ known_code code }
    {
        match code {
            Kind::NULL..=Kind::HEX_INT64
            | Kind::EVT_HANDLE
            | Kind::BIN_XML
            | Kind::EVT_XML
            | Kind::STRING_ARRAY..=Kind::BOOL_ARRAY
            | Kind::GUID_ARRAY..=Kind::HEX_INT64_ARRAY => true,
            _ => false,
        }
    }

    // How many bytes a value of the code has, whatever its size says; 0 for a code without a width.
    // (Two neighbours in one arm would be tested as a range; without them the match compiles to one look into a table.)
    pub fn width(code: u8) -> usize
        ensures { result ≡ width_of code }
    {
        match code {
            Kind::INT8 => 1,
            Kind::UINT8 => 1,
            Kind::INT16 => 2,
            Kind::UINT16 => 2,
            Kind::INT32 | Kind::REAL32 | Kind::BOOL | Kind::HEX_INT32 => 4,
            Kind::UINT32 => 4,
            Kind::INT64 | Kind::REAL64 | Kind::FILETIME | Kind::HEX_INT64 => 8,
            Kind::UINT64 => 8,
            Kind::GUID | Kind::SYSTEMTIME => 16,
            _ => 0,
        }
    }

    // The width of an array's elements; 0 for a code that is no array, or one of elements without a width.
    pub fn element_width(code: u8) -> usize
        ensures { result ≡ element_width_of code }
    {
        if code < ARRAY_OF {
            0
        } else {
            Kind::width(code - ARRAY_OF)
        }
    }
}

// What a value holds; the places are places of the stream.
#[derive(Clone, Copy)]
pub enum Content {
    // Of type 00.
    Nothing,
    // What of a string is shown.
    Text(View),
    // The stored bytes of what `decode` turns into a scalar.
    Number(Part),
    Bytes(Part),
}

// A value: its type, where it starts in the stream, and what it holds.
#[derive(Clone, Copy)]
pub struct Value {
    pub code: u8,
    pub start: usize,
    pub content: Content,
}

#[derive(Clone, Copy)]
pub enum Scalar {
    Signed(i64),
    Unsigned(u64),
    Single(f32),
    Double(f64),
}

// A decoded number: its stored bits, and its value. The bits stand beside it, since a NaN has none of its own.
#[derive(Clone, Copy)]
pub struct Decoded {
    pub bits: u64,
    pub value: Scalar,
}

// Reads a value with a descriptor's size. `rest` is the part of the stream from the cursor to the stream's end, and `start` is where it
// starts in the stream. The two tests are for a `start` that no stream has: the part's length and the size, added to it, do not fit.
#[tactic(auto, unfolding(crate::specs::Value::sized_at))]
pub fn read_sized(rest: &[u8], start: usize, code: u8, size: u16) -> Read<Value>
    ensures { read_answer result ≡ sized_at rest.now start code size }
{
    let size = usize::from(size);
    let room = usize::MAX - start;
    if room < rest.len() || room - rest.len() < size {
        return cursor::refuse(Refusal::PAST_END, start);
    }
    // No `?` here: it hands the content on through memory, with the unused bytes in it, and each value would wait for them.
    match contents::sized(rest, start, code, size) {
        Ok((content, next)) => skip(
            Value {
                code,
                start,
                content,
            },
            next,
            start + rest.len(),
            start + size,
        ),
        Err(r) => Err(r),
    }
}

// Reads a value without a size at the cursor: its type, and what that reads.
#[tactic(auto, unfolding(crate::specs::Value::unsized_at))]
pub fn read_unsized(c: Cursor, s: &[u8]) -> Read<Value>
    ensures { read_answer result ≡ unsized_at s.now c.at }
{
    let (code, at) = c.u8(s)?;
    let (content, next) = after_type(code, at, s)?;
    Ok((
        Value {
            code,
            start: at.at,
            content,
        },
        next,
    ))
}

// The number that the stored bytes of a type are. Bytes that are not there count as zeros, so that a SIZE_T of 4 bytes is read like
// one of 8.
pub fn decode(code: u8, bytes: &[u8]) -> Option<Decoded>
    ensures { decoding_answer result ≡ decoded_of code bytes.now }
{
    match code {
        Kind::INT8 => scalars::signed(u64::from(cursor::u8_at(bytes, 0)), 0xFF),
        Kind::INT16 => scalars::signed(u64::from(cursor::u16_at(bytes, 0)), 0xFFFF),
        Kind::INT32 => scalars::signed(u64::from(cursor::u32_at(bytes, 0)), 0xFFFF_FFFF),
        Kind::INT64 => scalars::signed(cursor::u64_at(bytes, 0), u64::MAX),
        _ => scalars::unsigned(code, bytes),
    }
}

// After a short read the position is set to the target; after a read past it the position stays.
fn skip(v: Value, next: Cursor, end: usize, target: usize) -> Read<Value>
    ensures { read_answer result ≡ passed_to end target v next.at }
{
    if target <= next.at {
        return Ok((v, next));
    }
    if end < target {
        return cursor::refuse(Refusal::PAST_END, target);
    }
    Ok((v, Cursor { at: target }))
}

// What the type reads without a size.
fn after_type(code: u8, c: Cursor, s: &[u8]) -> Read<Content>
    requires { c.at ≤ length s.now }
    ensures { read_answer result ≡ content_after_type s.now code c.at }
{
    if contents::tells(code) {
        return contents::told(&s[c.at..], c.at, code);
    }
    if code == Kind::STRING {
        let (v, next) = c.len_prefixed_utf16_string(s, false)?;
        return Ok((Content::Text(v), next));
    }
    cursor::refuse(contents::not_read(code), c.at)
}
