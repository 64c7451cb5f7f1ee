// Mode R: one record, and the resync offset after it.
ghost use Rattle.record.specs.Record.{record_at};
ghost use Rattle.print.specs.Text.{Puts, PutsSome};
ghost use Rattle.chunk_answers.specs.Record.{record_line, found_line, RecordText};

use crate::item;

pub fn record(out: &mut [u8], at: usize, chunk: &[u8], start: usize, strict: bool) -> usize
    ensures { PutsSome (RecordText chunk.now start strict) out.old at out.new result }
{
    let end = read(out, at, chunk, start, strict);
    match chunk::resync_after(chunk, start) {
        Ok(found) => resync(out, end, found),
        Err(_) => end,
    }
}

fn read(out: &mut [u8], at: usize, chunk: &[u8], start: usize, strict: bool) -> usize
    ensures { Puts (record_line chunk.now (record_at chunk.now start strict)) out.old at out.new result }
{
    match record::read_record(chunk, start, strict) {
        Ok(r) => {
            let numbers = item::numbers(r, chunk);
            print::line(out, at, b"record", &numbers[1..])
        }
        Err(r) => print::refused(out, at, r),
    }
}

fn resync(out: &mut [u8], at: usize, found: Option<usize>) -> usize
    ensures { Puts (found_line found) out.old at out.new result }
{
    match found {
        Some(q) => {
            let numbers = [q as u64];
            print::line(out, at, b"resync", &numbers)
        }
        None => print::text(out, at, b"resync none\n"),
    }
}
