// Mode H: a chunk header.
ghost use Rattle.record.specs.Chunk.{checksum_at};
ghost use Rattle.print.specs.Text.{ascii, Puts, line_of};
ghost use Rattle.chunk_answers.specs.Header.{field_numbers, checksum_line, table_lines, header_text};

use crate::judged;
use record::{Fields, Header};

pub fn header(out: &mut [u8], at: usize, chunk: &[u8]) -> usize
    ensures { Puts (header_text chunk.now) out.old at out.new result }
{
    let head = record::read_header(chunk);
    let read = head.fields;
    match read {
        Ok(f) => {
            let a = fields(out, at, f);
            let b = checksum(out, a, chunk);
            tables(out, b, head)
        }
        Err(r) => print::refused(out, at, r),
    }
}

fn fields(out: &mut [u8], at: usize, f: Fields) -> usize
    ensures { Puts (line_of (ascii "header") (field_numbers f)) out.old at out.new result }
{
    let records = f.numbers;
    let ids = f.ids;
    let numbers = [
        records.first,
        records.last,
        ids.first,
        ids.last,
        f.size as u64,
        f.last as u64,
        f.free as u64,
        f.events as u64,
        f.flags as u64,
        f.checksum as u64,
    ];
    print::line(out, at, b"header", &numbers)
}

fn checksum(out: &mut [u8], at: usize, chunk: &[u8]) -> usize
    ensures { Puts (checksum_line (checksum_at chunk.now)) out.old at out.new result }
{
    judged(out, at, b"checksum", record::check_header(chunk))
}

fn tables(out: &mut [u8], at: usize, head: Header) -> usize
    ensures { Puts (table_lines head.strings head.templates) out.old at out.new result }
{
    let strings = head.strings;
    let templates = head.templates;
    let end = table(out, at, b"strings", &strings);
    table(out, end, b"templates", &templates)
}

// A word and the offsets of a table.
fn table(out: &mut [u8], at: usize, word: &[u8], offsets: &[u32]) -> usize
    ensures { Puts (line_of word.now offsets.now) out.old at out.new result }
{
    let a = print::text(out, at, word);
    let b = print::halves(out, a, offsets);
    print::byte(out, b, b'\n')
}
