// Inline names: hash, count, units, zero unit. Each unit is a read of its own.
ghost use Rattle.std.specs.Prelude.{◌≡◌, ◌+◌, ◌*◌, ◌≤◌, length};
ghost use Rattle.cursor.specs.Answers.{read_answer};
ghost use Rattle.cursor.specs.Reads.{bytes_of};
ghost use Rattle.cursor.specs.Text.{units_of};
ghost use Rattle.name.specs.Name.{inline_name_at};
ghost use Rattle.name.specs.Pieces.{after_count, after_units, judged};

use crate::{Name, name_hash, named, soundness_of};
use cursor::{Cursor, Read, Refusal, refuse};

pub(crate) fn read_inline_name(c: Cursor, s: &[u8]) -> Read<Name>
    ensures { read_answer result ≡ inline_name_at s.now c.at }
{
    let (hash, next) = c.u16(s)?;
    let (n, next) = next.u16(s)?;
    after_count(c.at, hash, n, next, s)
}

// All units are there, or one is cut.
#[tactic(auto, using(crate::proofs::Each::all_there, crate::proofs::Each::one_cut, crate::proofs::Each::past_end))]
fn after_count(start: usize, hash: u16, n: u16, c: Cursor, s: &[u8]) -> Read<Name>
    ensures { read_answer result ≡ after_count s.now start hash n c.at }
{
    let at = c.at;
    let count = n as usize;
    if s.len() < at {
        return refuse(Refusal::TOO_FEW_BYTES, at);
    }
    let there = (s.len() - at) / 2;
    if there < count {
        return refuse(Refusal::TOO_FEW_BYTES, at + 2 * there);
    }
    after_units(start, at, count, hash, s)
}

// The zero unit after units that are there. These are judged here and not before: with two more calls before this one the compiler kept more
// than it had registers for in the loop over the tokens.
fn after_units(start: usize, at: usize, count: usize, hash: u16, s: &[u8]) -> Read<Name>
    requires { at + 2 * count ≤ length s.now }
    ensures { read_answer result ≡ after_units s.now start at count hash (units_of (bytes_of s.now at (2 * count))) (at + 2 * count) }
{
    let end = at + 2 * count;
    let after = Cursor { at: end };
    let (last, next) = after.u16(s)?;
    let units = &s[at..end];
    let name = named(start, at, count, soundness_of(units));
    judge(name, hash, last, name_hash(units), next)
}

fn judge(name: Name, stored: u16, last: u16, hash: u16, next: Cursor) -> Read<Name>
    ensures { read_answer result ≡ judged name stored last hash next.at }
{
    if last != 0 {
        return refuse(Refusal::NAME_NOT_ENDED, name.offset);
    }
    if stored != hash {
        return refuse(Refusal::NAME_HASH, name.offset);
    }
    Ok((name, next))
}
