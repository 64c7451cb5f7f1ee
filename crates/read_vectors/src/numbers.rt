// Number reads and positions: every slice of up to nine bytes, every position up to one past what any read could want, and the
// largest position.
use crate::say;
use cursor::{Cursor, Read, Refusal};
use std::io;

pub(crate) fn run(rt: &impl Print) -> io::Result<()> {
    lengths(rt, b"\x11\x22\x33\x44\x55\x66\x77\x88\x99")
}

fn lengths(rt: &impl Print, whole: &[u8]) -> io::Result<()> {
    for n in 0..=whole.len().min(9) {
        positions(rt, &whole[..n])?;
    }
    Ok(())
}

fn positions(rt: &impl Print, s: &[u8]) -> io::Result<()> {
    for at in 0..11usize {
        at_position(rt, s, at)?;
    }
    at_position(rt, s, 0xFFFF_FFFF_FFFF_FFFF)
}

fn at_position(rt: &impl Print, s: &[u8], at: usize) -> io::Result<()> {
    let c = Cursor { at };
    read(rt, b"u8", s, at, c.u8(s))?;
    read(rt, b"u16", s, at, c.u16(s))?;
    read(rt, b"u32", s, at, c.u32(s))?;
    read(rt, b"u64", s, at, c.u64(s))?;
    say::call(rt, b"numbers", s.len(), at, 0)?;
    say::number(rt, cursor::u8_at(s, at) as usize)?;
    say::number(rt, cursor::u16_at(s, at) as usize)?;
    say::number(rt, cursor::u32_at(s, at) as usize)?;
    say::number(rt, cursor::u64_at(s, at) as usize)?;
    say::end(rt)?;
    say::call(rt, b"with_pos", s.len(), at, 0)?;
    moved(rt, Cursor::with_pos(s, at))?;
    let c = Cursor { at: 0 };
    say::call(rt, b"set_pos", s.len(), at, 0)?;
    moved(rt, c.set_pos(s, at))
}

// The line of one read, whatever the number's width.
fn read<N: Into<u64> + Drop>(
    rt: &impl Print,
    name: &[u8],
    s: &[u8],
    at: usize,
    got: Read<N>,
) -> io::Result<()> {
    say::call(rt, name, s.len(), at, 0)?;
    match got {
        Ok((v, next)) => say::value(rt, v.into(), next.at),
        Err(r) => say::refused(rt, r),
    }
}

fn moved(rt: &impl Print, m: Result<Cursor, Refusal>) -> io::Result<()> {
    match m {
        Ok(c) => {
            say::number(rt, c.at)?;
            say::end(rt)
        }
        Err(r) => say::refused(rt, r),
    }
}
