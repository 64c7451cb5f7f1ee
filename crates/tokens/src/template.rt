// Template instances: numbers, the definition where it stands in place, the descriptors, and the values.
ghost use Rattle.std.specs.Prelude.{◌≡◌, ◌+◌, ◌*◌, ◌≤◌, length};
ghost use Rattle.cursor.specs.Answers.{moved_answer, read_answer};
ghost use Rattle.tokens.specs.Instance.{definition_at, descriptor_at, table_at, instance_head_at, values_at, instance_at, value_step};

use crate::plain::{Gist, made, type_at};
use crate::{Held, Instance, Token};
use cursor::{Cursor, Part, Read, Refusal};
use value::Value;

pub(crate) fn read(c: Cursor, s: &[u8]) -> Read<Gist>
    ensures { read_answer result ≡ instance_at s.now c.at }
{
    let (i, next) = head(c, s)?;
    let end = values(i.table, i.count, next, s)?;
    Ok((made(Token::INSTANCE, 0, false, Held::Instance(i)), end))
}

// An instance's numbers, its definition where it stands in place, and the whole table.
pub(crate) fn head(c: Cursor, s: &[u8]) -> Read<Instance>
    ensures { read_answer result ≡ instance_head_at s.now c.at }
{
    let (_, c) = c.u8(s)?;
    let (id, c) = c.u32(s)?;
    let (offset, c) = c.u32(s)?;
    let (guid, c) = definition(offset, c, s)?;
    let (count, c) = c.u32(s)?;
    let end = table(count, c, s)?;
    Ok((
        Instance {
            id,
            offset,
            guid,
            table: c.at,
            count,
            values: end.at,
        },
        end,
    ))
}

// The definition stands in place, or elsewhere.
fn definition(offset: u32, c: Cursor, s: &[u8]) -> Read<Part>
    ensures { read_answer result ≡ definition_at s.now offset c.at }
{
    if c.at != offset as usize {
        return Ok((Part { start: 0, len: 0 }, c));
    }
    let (_, c) = c.u32(s)?;
    let (guid, c) = c.take_bytes(s, 16)?;
    let (n, c) = c.u32(s)?;
    let next = c.set_pos(s, c.at + n as usize)?;
    Ok((guid, next))
}

fn table(count: u32, c: Cursor, s: &[u8]) -> Result<Cursor, Refusal>
    ensures { moved_answer result ≡ table_at s.now c.at count }
{
    let mut at = c;
    for _ in 0..count {
        at = descriptor(at, s)?;
    }
    Ok(at)
}

// A descriptor: size, type, a byte.
fn descriptor(c: Cursor, s: &[u8]) -> Result<Cursor, Refusal>
    ensures { moved_answer result ≡ descriptor_at s.now c.at }
{
    let (_, c) = c.u16(s)?;
    let (_, c) = type_at(c, s)?;
    let (_, c) = c.u8(s)?;
    Ok(c)
}

// The descriptors stand in the stream.
fn values(first: usize, count: u32, c: Cursor, s: &[u8]) -> Result<Cursor, Refusal>
    requires { (first + 4 * count ≤ length s.now) × (c.at ≤ length s.now) }
    ensures { moved_answer result ≡ values_at s.now first c.at count }
{
    let mut next = c;
    for i in 0..count as usize {
        let (_, after) = value_in(first + 4 * i, next.at, s)?;
        next = after;
    }
    Ok(next)
}

// The value at a position by the descriptor at another. Of an instance that was read both stand in the stream; the tests are for made-up
// places.
pub(crate) fn value_in(table: usize, at: usize, s: &[u8]) -> Read<Value>
    ensures { read_answer result ≡ value_step s.now table at }
{
    if s.len() < 4 || s.len() - 4 < table {
        return cursor::refuse(Refusal::TOO_FEW_BYTES, table);
    }
    if s.len() < at {
        return cursor::refuse(Refusal::PAST_END, at);
    }
    value::read_sized(
        &s[at..],
        at,
        cursor::u8_at(s, table + 2),
        cursor::u16_at(s, table),
    )
}
