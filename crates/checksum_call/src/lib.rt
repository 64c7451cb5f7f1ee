// The header checksum of a chunk, as a library. The crate checksum_call_c exports the call to C, for the benchmark (compare/bench).
#![tactic(auto)]

ghost use Rattle.std.specs.Prelude.{◌≡◌};
ghost use Rattle.record.specs.Chunk.{checksum_at};
ghost use Rattle.checksum_call.specs.Said.{said_of};

// 1 where the stored checksum is right, 0 where it is not, 2 where this is no chunk.
pub fn doortumble_bench_checksum(chunk: &[u8]) -> u32
    ensures { result ≡ said_of (checksum_at chunk.now) }
{
    match record::check_header(chunk) {
        Ok(right) => u32::from(right),
        Err(_) => 2,
    }
}
