// The name at an offset: where its units stand, how many they are, whether they are sound, and whether the stored hash is theirs.
ghost use Rattle.std.specs.Prelude.{◌≡◌};
ghost use Rattle.cursor.specs.Text.{units_of};
ghost use Rattle.name.specs.Lookup.{looked_answer, looked_up, looked_at, found_of, standing_at, inline_found};

use crate::{Name, Soundness, inline, name_hash};
use cursor::{Cursor, Refusal, refuse};

#[derive(Clone, Copy)]
pub struct Found {
    pub units: usize,
    pub count: usize,
    pub sound: bool,
    pub hashed: bool,
}

pub(crate) fn look_up(s: &[u8], offset: u32, inline: bool) -> Result<Found, Refusal>
    ensures { looked_answer result ≡ looked_up s.now offset inline }
{
    if 0x1_0000 < s.len() {
        return refuse(Refusal::WRONG_LENGTH, 0);
    }
    let c = Cursor::with_pos(s, offset as usize)?;
    if inline {
        let (n, _) = inline::read_inline_name(c, s)?;
        return Ok(of_name(n));
    }
    standing(c, s)
}

// An inline name that was read has its hash.
fn of_name(n: Name) -> Found
    ensures { result ≡ inline_found n }
{
    Found {
        units: n.units,
        count: n.count,
        sound: n.soundness == Soundness::Sound,
        hashed: true,
    }
}

// The first number is not looked at. The count is doubled in a number that holds it.
fn standing(c: Cursor, s: &[u8]) -> Result<Found, Refusal>
    ensures { looked_answer result ≡ looked_at (standing_at s.now c.at) }
{
    let (_, next) = c.u32(s)?;
    let (hash, next) = next.u16(s)?;
    let (n, next) = next.u16(s)?;
    let (p, _) = next.take_bytes(s, 2 * (n as usize))?;
    Ok(judged(hash, p.start, n, p.of(s)))
}

// What is said of the units that stand there.
fn judged(hash: u16, start: usize, n: u16, units: &[u8]) -> Found
    ensures { result ≡ found_of hash start n (units_of units.now) }
{
    Found {
        units: start,
        count: n as usize,
        sound: cursor::well_formed(units),
        hashed: hash == name_hash(units),
    }
}
