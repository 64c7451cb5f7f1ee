// Taking bytes, SIDs and sized arrays.
use crate::say;
use cursor::Cursor;
use std::io;

pub(crate) fn run(rt: &impl Print) -> io::Result<()> {
    places(rt, b"\x01\x02\x03\x04")?;
    sids(rt)?;
    sizes(
        rt,
        b"\x01\x02\x03\x04\x05\x06\x07\x08\x09\x0A\x0B\x0C\x0D\x0E\x0F\x10\x11",
    )
}

fn places(rt: &impl Print, s: &[u8]) -> io::Result<()> {
    for at in 0..6usize {
        counts(rt, s, at)?;
    }
    counts(rt, s, 0xFFFF_FFFF_FFFF_FFFF)
}

fn counts(rt: &impl Print, s: &[u8], at: usize) -> io::Result<()> {
    for n in 0..6usize {
        take(rt, s, at, n)?;
    }
    take(rt, s, at, 0xFFFF_FFFF_FFFF_FFFF)
}

fn take(rt: &impl Print, s: &[u8], at: usize, n: usize) -> io::Result<()> {
    let c = Cursor { at };
    say::call(rt, b"take", s.len(), at, n)?;
    say::taken(rt, c.take_bytes(s, n), s)
}

// SIDs of no group, of one, of four and of 255, each cut to every length; read at 1.
fn sids(rt: &impl Print) -> io::Result<()> {
    sid_cut(rt, b"\xFF\x01\x00\x02\x03\x04\x05\x06\x07\x08\x09")?;
    sid_cut(
        rt,
        b"\xFF\x01\x01\x02\x03\x04\x05\x06\x07\x08\x09\x0A\x0B\x0C\x0D",
    )?;
    sid_cut(
        rt,
        b"\xFF\x01\x04\x02\x03\x04\x05\x06\x07\x08\x09\x0A\x0B\x0C\x0D\x0E\x0F\x10\x11\x12\x13\x14\x15\x16\x17\x18",
    )?;
    sid_cut(
        rt,
        b"\xFF\x01\xFF\x02\x03\x04\x05\x06\x07\x08\x09\x0A\x0B\x0C\x0D",
    )
}

fn sid_cut(rt: &impl Print, whole: &[u8]) -> io::Result<()> {
    for n in 0..=whole.len().min(26) {
        sid(rt, &whole[..n])?;
    }
    Ok(())
}

fn sid(rt: &impl Print, s: &[u8]) -> io::Result<()> {
    let c = Cursor { at: 1 };
    say::call(rt, b"sid", s.len(), 1, 0)?;
    say::taken(rt, c.read_sid(s), s)
}

fn sizes(rt: &impl Print, s: &[u8]) -> io::Result<()> {
    for size in 0..18usize {
        widths(rt, s, size)?;
    }
    widths(rt, s, 0xFFFF_FFFF_FFFF_FFFF)
}

fn widths(rt: &impl Print, s: &[u8], size: usize) -> io::Result<()> {
    array(rt, s, 0, size)?;
    array(rt, s, 1, size)?;
    array(rt, s, 2, size)?;
    array(rt, s, 4, size)?;
    array(rt, s, 8, size)?;
    array(rt, s, 16, size)
}

fn array(rt: &impl Print, s: &[u8], width: usize, size: usize) -> io::Result<()> {
    let c = Cursor { at: 1 };
    say::call(rt, b"array", s.len(), width, size)?;
    say::taken(rt, c.read_array(s, width, size), s)
}
