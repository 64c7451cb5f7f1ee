// Counted units, with and without a count in front, and units up to a zero unit.
use crate::say;
use cursor::{Counted, Cursor};
use std::io;

pub(crate) fn run(rt: &impl Print) -> io::Result<()> {
    // "AB", a zero unit, "C" and an odd byte, cut to each length
    lengths(rt, b"A\0B\0\0\0C\0\x03")?;
    // a unit of which one byte is zero is no zero unit
    cut(rt, b"\x00\x41\x42\x00\x00\x43\x00\x00\x44\x00")?;
    // a count in front: of 0, 1, 2 and 3 units, and of more than there are
    prefixed_cut(rt, b"\x00\x00A\0B\0")?;
    prefixed_cut(rt, b"\x01\x00A\0B\0")?;
    prefixed_cut(rt, b"\x02\x00A\0B\0\0\0")?;
    prefixed_cut(rt, b"\x03\x00A\0\0\0B\0\0\0")?;
    prefixed_cut(rt, b"\xFF\xFFA\0\0\0B\0\0\0")
}

fn lengths(rt: &impl Print, whole: &[u8]) -> io::Result<()> {
    for n in 0..=whole.len().min(9) {
        cut(rt, &whole[..n])?;
    }
    Ok(())
}

fn cut(rt: &impl Print, s: &[u8]) -> io::Result<()> {
    for at in 0..11usize {
        zero_ended(rt, s, at)?;
        counts(rt, s, at)?;
    }
    zero_ended(rt, s, 0xFFFF_FFFF_FFFF_FFFF)?;
    counts(rt, s, 0xFFFF_FFFF_FFFF_FFFF)
}

fn counts(rt: &impl Print, s: &[u8], at: usize) -> io::Result<()> {
    counted(rt, s, at, 0)?;
    counted(rt, s, at, 1)?;
    counted(rt, s, at, 2)?;
    counted(rt, s, at, 4)?;
    counted(rt, s, at, 0x7FFF_FFFF_FFFF_FFFF)?;
    counted(rt, s, at, 0x8000_0000_0000_0000)?;
    counted(rt, s, at, 0xFFFF_FFFF_FFFF_FFFF)
}

fn counted(rt: &impl Print, s: &[u8], at: usize, n: usize) -> io::Result<()> {
    let c = Cursor { at };
    say::call(rt, b"counted", s.len(), at, n)?;
    say::text(rt, c.utf16_by_char_count(s, n), s)
}

fn zero_ended(rt: &impl Print, s: &[u8], at: usize) -> io::Result<()> {
    let c = Cursor { at };
    say::call(rt, b"zero_ended", s.len(), at, 0)?;
    say::text(rt, c.null_terminated_utf16_string(s), s)
}

fn prefixed_cut(rt: &impl Print, whole: &[u8]) -> io::Result<()> {
    for n in 0..=whole.len().min(10) {
        prefixed(rt, &whole[..n], false)?;
        prefixed(rt, &whole[..n], true)?;
    }
    Ok(())
}

fn prefixed(rt: &impl Print, s: &[u8], terminated: bool) -> io::Result<()> {
    let c = Cursor { at: 0 };
    say::call(rt, b"prefixed", s.len(), 0, terminated as usize)?;
    say::text(rt, c.len_prefixed_utf16_string(s, terminated), s)
}
