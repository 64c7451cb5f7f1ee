// Reads one chunk on standard input and prints its listing, recovery on. One byte more than a chunk is read, so that a longer input is
// told from a chunk.
#![tactic(auto)]

use cursor::Part;
use std::io;

fn main(rt: HostRuntime) -> io::Result<()> {
    let mut buffer = [0u8; 65537];
    let n = input::read_full(&mut rt.stdin(), &mut buffer)?;
    let mut out = [0u8; 262144];
    let end = listing_text::put(&mut out, 0, &buffer[..n]);
    let filled = Part { start: 0, len: end };
    rt.write_all(filled.of(&out))
}
