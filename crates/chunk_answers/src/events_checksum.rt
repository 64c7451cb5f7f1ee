// Mode E: the events checksum of a chunk.
ghost use Rattle.record.specs.Chunk.{events_checksum_at};
ghost use Rattle.print.specs.Text.{Puts};
ghost use Rattle.chunk_answers.specs.Events.{events_line};

use crate::judged;

pub fn events(out: &mut [u8], at: usize, chunk: &[u8]) -> usize
    ensures { Puts (events_line (events_checksum_at chunk.now)) out.old at out.new result }
{
    judged(out, at, b"events", record::check_events(chunk))
}
