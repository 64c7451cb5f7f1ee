// An answer of the walk as a line, and the numbers of a record.
ghost use Rattle.std.specs.Prelude.{◌≡◌};
ghost use Rattle.print.specs.Text.{Puts};
ghost use Rattle.chunk.specs.Listing.{row_words};
ghost use Rattle.chunk_answers.specs.Item.{record_numbers};
ghost use Rattle.chunk_answers.specs.Lines.{row_record, row_line};

use chunk::Row;
use record::Record;

// Where a record's payload starts.
const PAYLOAD: usize = 24;

// The line of an answer, by its row: its item is a number there, as the C interface lays rows.
pub fn line(out: &mut [u8], at: usize, row: Row, chunk: &[u8]) -> usize
    ensures { Puts (row_line chunk.now (row_words row)) out.old at out.new result }
{
    if row.item == 1 {
        return print::line(out, at, b"live", &numbers(record_of(row), chunk));
    }
    if row.item == 2 {
        return print::line(out, at, b"carved", &numbers(record_of(row), chunk));
    }
    if row.item == 3 {
        let list = [row.size, row.place];
        return print::line(out, at, b"refused", &list);
    }
    print::text(out, at, b"done\n")
}

fn record_of(row: Row) -> Record
    ensures { result ≡ row_record (row_words row) }
{
    Record {
        offset: row.place as usize,
        size: row.size as usize,
        id: row.id,
        time: row.time,
    }
}

// What a line says of a record: offset, size, ID, FILETIME, the payload's start and length. Any record is printed, so the sum is one that
// may wrap.
pub fn numbers(r: Record, chunk: &[u8]) -> [u64; 6]
    ensures { result ≡ record_numbers chunk.now r }
{
    let start = std::num::wrapping_add_usize(r.offset, PAYLOAD);
    let payload = r.payload(chunk);
    [
        r.offset as u64,
        r.size as u64,
        r.id,
        r.time,
        start as u64,
        payload.len() as u64,
    ]
}
