// Reads the programs' input.
#![tactic(auto)]

ghost use Rattle.std.specs.Prelude.{IfOk, ◌<◌, ◌≤◌, length, take};
ghost use Rattle.std.specs.Io.KnownBytes.{Consumes, IsAtEnd};

use std::io::{Read, Result};

// Reads until the buffer is full or the input ends: how many bytes stand at the buffer's front then. Where there is no room left, no read
// is made.
pub fn read_full<R: Read>(reader: &mut R, buf: &mut [u8]) -> Result<usize>
    ensures bound { IfOk result (λ n. n ≤ length buf.new) }
    ensures bytes { IfOk result (λ n. Consumes (R.remaining reader.old) (R.remaining reader.new) (take n buf.new)) }
    ensures end { IfOk result (λ n. n < length buf.new → IsAtEnd (R.remaining reader.new)) }
{
    let mut done = 0;
    // A loop by hand: the position moves by what was read.
    while done < buf.len() {
        let n = reader.read(&mut buf[done..])?;
        if n == 0 {
            break;
        }
        done += n;
    }
    Ok(done)
}
