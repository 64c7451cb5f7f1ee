// Offset names: a u32 that says where the name stands. A name that stands right behind it is skipped.
ghost use Rattle.std.specs.Prelude.{◌≡◌};
ghost use Rattle.cursor.specs.Answers.{read_answer};
ghost use Rattle.name.specs.Name.{offset_name_at};
ghost use Rattle.name.specs.Pieces.{in_place_at};

use crate::{Name, Soundness, named};
use cursor::{Cursor, Read};

pub(crate) fn read_offset_name_ref(c: Cursor, s: &[u8]) -> Read<Name>
    ensures { read_answer result ≡ offset_name_at s.now c.at }
{
    let (offset, here) = c.u32(s)?;
    if here.at == offset as usize {
        name_in_place(here, s)
    } else {
        Ok((named(offset as usize, 0, 0, Soundness::NotJudged), here))
    }
}

// The link before a name, a u32 and a u16: where the next name stands, and a hash. Neither is looked at. The count is doubled in a number that
// holds it.
fn name_in_place(here: Cursor, s: &[u8]) -> Read<Name>
    ensures { read_answer result ≡ in_place_at s.now here.at }
{
    let (_, second) = here.u32(s)?;
    let (_, third) = second.u16(s)?;
    let (n, units) = third.u16(s)?;
    let name = named(here.at, units.at, n as usize, Soundness::NotJudged);
    let next = here.set_pos(s, here.at + 10 + 2 * (n as usize))?;
    Ok((name, next))
}
