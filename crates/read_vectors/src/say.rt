// What the lines are made of.
use cursor::{Part, Read, Refusal, View};
use std::io;

// The call and what it was given: the slice's length, the position, and one number more.
pub(crate) fn call(
    rt: &impl Print,
    name: &[u8],
    len: usize,
    at: usize,
    more: usize,
) -> io::Result<()> {
    rt.write_all(name)?;
    number(rt, len)?;
    number(rt, at)?;
    number(rt, more)?;
    rt.write_all(b":")
}

pub(crate) fn number(rt: &impl Print, n: usize) -> io::Result<()> {
    print!(rt; " {n}")
}

pub(crate) fn end(rt: &impl Print) -> io::Result<()> {
    rt.write_all(b"\n")
}

// What was read, and the next position.
pub(crate) fn value(rt: &impl Print, v: u64, next: usize) -> io::Result<()> {
    print!(rt; " {v}")?;
    number(rt, next)?;
    end(rt)
}

pub(crate) fn refused(rt: &impl Print, r: Refusal) -> io::Result<()> {
    print!(rt; " refused {}", r.number)?;
    number(rt, r.place)?;
    end(rt)
}

// The bytes of a part, each in decimal.
fn bytes(rt: &impl Print, part: &[u8]) -> io::Result<()> {
    rt.write_all(b" [")?;
    for b in part {
        number(rt, *b as usize)?;
    }
    rt.write_all(b" ]")
}

pub(crate) fn taken(rt: &impl Print, t: Read<Part>, s: &[u8]) -> io::Result<()> {
    match t {
        Ok((p, next)) => {
            bytes(rt, p.of(s))?;
            number(rt, next.at)?;
            end(rt)
        }
        Err(r) => refused(rt, r),
    }
}

pub(crate) fn text(rt: &impl Print, t: Read<View>, s: &[u8]) -> io::Result<()> {
    taken(rt, t.map(|(v, next)| (v.part, next)), s)
}
