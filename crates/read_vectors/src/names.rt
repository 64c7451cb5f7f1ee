// Names of both kinds, and the hash.
use crate::say;
use cursor::Cursor;
use std::io;

pub(crate) fn run(rt: &impl Print) -> io::Result<()> {
    // offset names: elsewhere; in place with 0, 1 and 2 units, whole and cut; in place with the count at its largest
    offsets(rt, b"\x00\x02\x00\x00\xFF")?;
    offsets(
        rt,
        b"\x04\x00\x00\x00\x01\x02\x03\x04\x05\x06\x00\x00\x00\x00",
    )?;
    offsets(
        rt,
        b"\x04\x00\x00\x00\x01\x02\x03\x04\x05\x06\x01\x00A\0\0\0",
    )?;
    offsets(
        rt,
        b"\x04\x00\x00\x00\x01\x02\x03\x04\x05\x06\x02\x00A\0B\0\0\0",
    )?;
    offsets(
        rt,
        b"\x04\x00\x00\x00\x01\x02\x03\x04\x05\x06\xFF\xFFA\0B\0\0\0",
    )?;
    // read at 2, so that it stands in place at 6
    name_at(
        rt,
        b"\xFF\xFF\x06\x00\x00\x00\x01\x02\x03\x04\x05\x06\x00\x00\x00\x00",
        2,
        false,
    )?;
    // inline names: "AB" (1041), whole and cut; no units; the hash wrong; the zero unit wrong; both wrong
    inlines(rt, b"\x41\x10\x02\x00A\0B\0\0\0\xFF")?;
    inlines(rt, b"\x00\x00\x00\x00\0\0")?;
    inlines(rt, b"\x41\x00\x01\x00A\0\0\0")?;
    inlines(rt, b"\x40\x10\x02\x00A\0B\0\0\0")?;
    inlines(rt, b"\x41\x10\x02\x00A\0B\0\x01\0")?;
    inlines(rt, b"\x40\x10\x02\x00A\0B\0\0\x01")?;
    inlines(rt, b"\x41\x10\xFF\xFFA\0B\0\0\0")?;
    name_at(
        rt,
        b"\x41\x10\x02\x00A\0B\0\0\0",
        0xFFFF_FFFF_FFFF_FFFF,
        true,
    )?;
    name_at(rt, b"\x04\x00\x00\x00", 0xFFFF_FFFF_FFFF_FFFF, false)?;
    // the hash of no units, "A", "AB", "Event" and largest units; an odd byte at the end does not count
    hash(rt, b"")?;
    hash(rt, b"A\0")?;
    hash(rt, b"A\0B\0")?;
    hash(rt, b"A\0B\0C")?;
    hash(rt, b"E\0v\0e\0n\0t\0")?;
    hash(rt, b"\xFF\xFF\xFF\xFF\xFF\xFF\xFF\xFF\xFF\xFF\xFF\xFF")
}

fn offsets(rt: &impl Print, whole: &[u8]) -> io::Result<()> {
    for n in 0..=whole.len().min(18) {
        name_at(rt, &whole[..n], 0, false)?;
    }
    Ok(())
}

fn inlines(rt: &impl Print, whole: &[u8]) -> io::Result<()> {
    for n in 0..=whole.len().min(11) {
        name_at(rt, &whole[..n], 0, true)?;
    }
    Ok(())
}

// The name's offset and the next position; in a line of their own, where its units stand and how many they are.
fn name_at(rt: &impl Print, s: &[u8], at: usize, inline: bool) -> io::Result<()> {
    let c = Cursor { at };
    say::call(rt, b"name", s.len(), at, inline as usize)?;
    match name::read_name_ref(c, s, inline) {
        Ok((n, next)) => {
            say::value(rt, n.offset as u64, next.at)?;
            say::call(rt, b"units", s.len(), at, inline as usize)?;
            say::value(rt, n.units as u64, n.count)
        }
        Err(r) => say::refused(rt, r),
    }
}

fn hash(rt: &impl Print, units: &[u8]) -> io::Result<()> {
    say::call(rt, b"hash", units.len(), 0, 0)?;
    say::number(rt, name::name_hash(units) as usize)?;
    say::end(rt)
}
