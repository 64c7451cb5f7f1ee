// Runs test vectors through the two calls of `crc32`, and writes a line for each: its name, and the CRC as eight hexadecimal digits.
#![tactic(auto)]

use std::io;

// A line's end: the CRC, always with eight digits.
fn close(rt: &impl Print, crc: u32) -> io::Result<()> {
    println!(rt; " {crc:08x}")
}

// The line of a vector that has a name.
fn named(rt: &impl Print, name: &[u8], crc: u32) -> io::Result<()> {
    rt.write_all(name)?;
    close(rt, crc)
}

// The line of a vector that has a name and a number.
fn numbered(rt: &impl Print, name: &[u8], n: usize, crc: u32) -> io::Result<()> {
    rt.write_all(name)?;
    print!(rt; " {n}")?;
    close(rt, crc)
}

// Fills a: the first byte, and then each the one before it and `step` more, modulo 256.
fn fill(a: &mut [u8], first: u8, step: u8) {
    let mut x = first;
    for b in a {
        *b = x;
        x = x.wrapping_add(step);
    }
}

// The beginnings of s, of each length.
fn lengths(rt: &impl Print, s: &[u8]) -> io::Result<()> {
    for n in 0..=s.len() {
        numbered(rt, b"length", n, crc32::crc32(&s[..n]))?;
    }
    Ok(())
}

// s cut in two at each place: the CRC of the first part, gone on over the second.
fn cuts(rt: &impl Print, s: &[u8]) -> io::Result<()> {
    for k in 0..=s.len() {
        let first = crc32::crc32(&s[..k]);
        numbered(rt, b"cut", k, crc32::crc32_on(first, &s[k..]))?;
    }
    Ok(())
}

// `check` is the text that every description of a CRC gives the answer for; `on` goes on from a number that no part has led to.
fn main(rt: HostRuntime) -> io::Result<()> {
    named(&rt, b"empty", crc32::crc32(b""))?;
    named(&rt, b"check", crc32::crc32(b"123456789"))?;
    named(&rt, b"zeros", crc32::crc32(&[0u8; 32]))?;
    named(&rt, b"ones", crc32::crc32(&[255u8; 32]))?;
    let mut up = [0u8; 32];
    fill(&mut up, 0, 1);
    named(&rt, b"rising", crc32::crc32(&up))?;
    let mut long = [0u8; 504];
    fill(&mut long, 3, 7);
    named(&rt, b"sevens", crc32::crc32(&long))?;
    lengths(&rt, &up)?;
    cuts(&rt, b"123456789")?;
    named(&rt, b"on", crc32::crc32_on(0xFFFF_FFFF, b"\0"))
}
