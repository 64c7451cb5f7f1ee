// The benchmark's C call of the header checksum: it exports the function of the crate checksum_call that has its name, and promises what that
// promises. It is the archive libchecksum_call.a (command/archive makes it), which only compare/bench links.
#![tactic(auto)]

ghost use Rattle.std.specs.Prelude.{◌≡◌};
ghost use Rattle.record.specs.Chunk.{checksum_at};
ghost use Rattle.checksum_call.specs.Said.{said_of};

// 1 where the stored checksum is right, 0 where it is not, 2 where this is no chunk.
#[unsafe(no_mangle)]
pub extern "C" fn doortumble_bench_checksum(chunk: &[u8]) -> u32
    ensures { result ≡ said_of (checksum_at chunk.now) }
{
    checksum_call::doortumble_bench_checksum(chunk)
}
