// Lists chunks that are made here, whole and damaged, and one that was cut from a log file (data/real, whose zeros at the end are left
// out). A title stands before each listing.
#![tactic(auto)]

mod make;

use cursor::Part;
use make::{fill, header, put, put16, put32, put64, record, records, size_of};
use std::rt::Files;
use std::{fs, io};

fn main(rt: HostRuntime) -> io::Result<()> {
    let mut space = [0u8; 65537];
    let buf: &mut [u8] = &mut space;
    no_chunks(&rt, buf)?;
    real(&rt, buf)?;
    whole(&rt, buf)?;
    sizes(&rt, buf)?;
    magics(&rt, buf)?;
    copies(&rt, buf)?;
    times(&rt, buf)?;
    other_ids(&rt, buf)?;
    early_last_id(&rt, buf)?;
    ids_below(&rt, buf)?;
    free_before(&rt, buf)?;
    free_at_end(&rt, buf)?;
    stale(&rt, buf)?;
    last_offset(&rt, buf)?;
    ends_with_chunk(&rt, buf)?;
    cut_header(&rt, buf)?;
    silence(&rt, buf)?;
    nothing(&rt, buf)
}

// The title, and the listing of the first n bytes.
fn show(rt: &impl Print, title: &[u8], buf: &[u8], n: usize) -> io::Result<()> {
    rt.write_all(b"# ")?;
    rt.write_all(title)?;
    rt.write_all(b"\n")?;
    let mut out = [0u8; 262144];
    let p = Part { start: 0, len: n };
    let end = listing_text::put(&mut out, 0, p.of(buf));
    let filled = Part { start: 0, len: end };
    rt.write_all(filled.of(&out))
}

fn listed(rt: &impl Print, title: &[u8], buf: &[u8]) -> io::Result<()> {
    show(rt, title, buf, 65536)
}

// Three records of 64 bytes at 512, 576 and 640, IDs 1 to 3, free space at 704.
fn three(buf: &mut [u8]) {
    fill(buf, 0);
    header(buf, 1, 3, 640, 704);
    records(buf, 512, 64, 3, 1);
}

fn no_chunks(rt: &impl Print, buf: &mut [u8]) -> io::Result<()> {
    three(buf);
    show(rt, b"no bytes", buf, 0)?;
    show(rt, b"65,535 bytes", buf, 65535)?;
    show(rt, b"65,537 bytes", buf, 65537)?;
    put(buf, 6, 0x4B);
    listed(rt, b"wrong chunk magic", buf)
}

fn real(rt: &(impl Files + Print + Eprint), buf: &mut [u8]) -> io::Result<()> {
    fill(buf, 0);
    let mut file = match fs::open(rt, "real") {
        Ok(file) => file,
        Err(e) => return eprintln!(rt; "real: {e}"),
    };
    input::read_full(&mut file, buf)?;
    listed(rt, b"cut from a log file", buf)
}

fn whole(rt: &impl Print, buf: &mut [u8]) -> io::Result<()> {
    three(buf);
    listed(rt, b"three records", buf)?;
    fill(buf, 0);
    header(buf, 1, 2322, 65500, 65528);
    records(buf, 512, 28, 2322, 1);
    listed(rt, b"2,322 records of 28 bytes", buf)
}

// The second record's size.
fn size_case(rt: &impl Print, buf: &mut [u8], title: &[u8], size: u32) -> io::Result<()> {
    three(buf);
    size_of(buf, 576, size);
    listed(rt, title, buf)
}

fn sizes(rt: &impl Print, buf: &mut [u8]) -> io::Result<()> {
    size_case(rt, buf, b"size 0", 0)?;
    size_case(rt, buf, b"size 20", 20)?;
    size_case(rt, buf, b"size 27", 27)?;
    size_case(rt, buf, b"size 28", 28)?;
    size_case(rt, buf, b"size 63", 63)?;
    size_case(rt, buf, b"size 65", 65)?;
    size_case(rt, buf, b"size FFFFFFFF", 0xFFFF_FFFF)
}

fn magics(rt: &impl Print, buf: &mut [u8]) -> io::Result<()> {
    three(buf);
    put(buf, 512, 0);
    listed(rt, b"first magic wrong", buf)?;
    three(buf);
    put(buf, 577, 0x2B);
    listed(rt, b"second magic wrong", buf)?;
    three(buf);
    put(buf, 643, 1);
    listed(rt, b"last magic wrong", buf)
}

fn copies(rt: &impl Print, buf: &mut [u8]) -> io::Result<()> {
    three(buf);
    put16(buf, 636, 65);
    listed(
        rt,
        b"second copy wrong: a plain read does not look at it",
        buf,
    )?;
    three(buf);
    put(buf, 576, 0);
    put16(buf, 700, 65);
    listed(
        rt,
        b"second magic and third copy wrong: nothing to resume at",
        buf,
    )
}

fn times(rt: &impl Print, buf: &mut [u8]) -> io::Result<()> {
    three(buf);
    put64(buf, 592, 2650466808009999999);
    listed(rt, b"FILETIME at its limit", buf)?;
    three(buf);
    put64(buf, 592, 2650466808010000000);
    listed(rt, b"FILETIME above its limit", buf)
}

fn other_ids(rt: &impl Print, buf: &mut [u8]) -> io::Result<()> {
    three(buf);
    put(buf, 512, 0);
    put64(buf, 584, 4);
    listed(
        rt,
        b"first magic wrong, second ID out of range: resumes at the third",
        buf,
    )
}

fn early_last_id(rt: &impl Print, buf: &mut [u8]) -> io::Result<()> {
    three(buf);
    put64(buf, 520, 3);
    listed(rt, b"the last ID first: the walk ends", buf)
}

fn ids_below(rt: &impl Print, buf: &mut [u8]) -> io::Result<()> {
    three(buf);
    header(buf, 5, 9, 640, 704);
    put(buf, 512, 0);
    listed(rt, b"all IDs below the range, first magic wrong", buf)
}

fn free_before(rt: &impl Print, buf: &mut [u8]) -> io::Result<()> {
    three(buf);
    put32(buf, 48, 0);
    listed(rt, b"free space offset 0", buf)?;
    three(buf);
    put32(buf, 48, 600);
    listed(rt, b"free space offset within the second record", buf)
}

fn free_at_end(rt: &impl Print, buf: &mut [u8]) -> io::Result<()> {
    three(buf);
    put32(buf, 48, 65536);
    put64(buf, 32, 9);
    listed(
        rt,
        b"free space offset at the end: zeros after the last record",
        buf,
    )?;
    three(buf);
    put32(buf, 48, 0xFFFF_FFFF);
    put64(buf, 32, 9);
    listed(rt, b"free space offset past the chunk", buf)
}

fn stale(rt: &impl Print, buf: &mut [u8]) -> io::Result<()> {
    three(buf);
    record(buf, 1000, 40, 77);
    record(buf, 1040, 41, 78);
    listed(rt, b"stale records behind the free space", buf)
}

fn last_offset(rt: &impl Print, buf: &mut [u8]) -> io::Result<()> {
    three(buf);
    put32(buf, 44, 576);
    put(buf, 512, 0);
    listed(
        rt,
        b"first magic wrong, last record's offset at the second",
        buf,
    )?;
    three(buf);
    put32(buf, 44, 512);
    put(buf, 512, 0);
    listed(
        rt,
        b"first magic wrong, last record's offset at the first: nothing to resume at",
        buf,
    )
}

fn ends_with_chunk(rt: &impl Print, buf: &mut [u8]) -> io::Result<()> {
    fill(buf, 0);
    header(buf, 1, 2, 65508, 65536);
    record(buf, 512, 64996, 1);
    record(buf, 65508, 28, 2);
    listed(rt, b"a record that ends with the chunk", buf)?;
    put32(buf, 65512, 29);
    listed(rt, b"the same, one byte longer", buf)
}

fn cut_header(rt: &impl Print, buf: &mut [u8]) -> io::Result<()> {
    fill(buf, 0);
    header(buf, 1, 2, 65520, 65536);
    record(buf, 512, 65008, 1);
    listed(rt, b"a header that the chunk's end cuts", buf)
}

fn silence(rt: &impl Print, buf: &mut [u8]) -> io::Result<()> {
    fill(buf, 0);
    header(buf, 1, 3, 900, 1000);
    record(buf, 512, 64, 1);
    listed(
        rt,
        b"zeros where a record should be, and no live record after",
        buf,
    )?;
    record(buf, 900, 64, 3);
    listed(
        rt,
        b"zeros where a record should be, and a live record after",
        buf,
    )
}

fn nothing(rt: &impl Print, buf: &mut [u8]) -> io::Result<()> {
    fill(buf, 0);
    header(buf, 1, 3, 65536, 65536);
    listed(rt, b"no magic: zeros", buf)?;
    fill(buf, 0x2A);
    header(buf, 1, 3, 65536, 65536);
    listed(rt, b"no magic: stars", buf)
}
