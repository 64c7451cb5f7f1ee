// The C calls as a library: sheet and owner table of a stream's body, the moves of a kept sheet, and the listing and the header of a chunk and
// of a whole log file. The crate doortumble_c exports them to C; the C header is include/doortumble.h.
//
// Each takes bytes, numbers and lent words, and answers one packed word. No call keeps anything between calls.
#![tactic(auto)]

ghost use Rattle.std.specs.Prelude.{◌≡◌};
ghost use Rattle.cursor.specs.Answers.{count_answer};
ghost use Rattle.cursor.specs.Lent.{lent_answer, lent_left};
ghost use Rattle.record.specs.Chunk.{header_words};
ghost use Rattle.log_file.specs.Header.{file_words};
ghost use Rattle.tokens.specs.Walk.{walk_of};
ghost use Rattle.sheet.specs.Sheet.{words_of};
ghost use Rattle.sheet.specs.Kept.{old_words_of, kept_answer, kept_words};
ghost use Rattle.body.specs.Verdict.{both};
ghost use Rattle.doortumble.specs.Calls.{flag_of, flags_of, packed_of, BodyPacked, ListPacked, ListFilePacked};

use cursor::Counted;
use tokens::Flags;

// The sheet and the owner table of a stream that is an event body: two words a token, and one.
pub fn doortumble_body(
    stream: &[u8],
    start: u32,
    length: u32,
    dependencies: u32,
    inline: u32,
    sheet: &mut [u64],
    table: &mut [u32],
) -> u64
    ensures { BodyPacked (walk_of stream.now start length (flags_of dependencies inline)) (both sheet.old table.old) (both sheet.new table.new) result }
{
    packed(body::fill(
        stream,
        start,
        length,
        flags(dependencies, inline),
        sheet,
        table,
    ))
}

// The sheet of a stream from its old one, which has one word a token.
pub fn doortumble_widen(
    stream: &[u8],
    start: u32,
    length: u32,
    dependencies: u32,
    inline: u32,
    old: &[u64],
    sheet: &mut [u64],
) -> u64
    ensures value { result ≡ packed_of (kept_answer old_words_of words_of (walk_of stream.now start length (flags_of dependencies inline)) old.now sheet.old) }
    ensures sheet_after { sheet.new ≡ kept_words old_words_of words_of (walk_of stream.now start length (flags_of dependencies inline)) old.now sheet.old }
{
    let f = flags(dependencies, inline);
    packed(kept::widen(stream, start, length, f, old, sheet))
}

// The old sheet of a stream from its new one.
pub fn doortumble_narrow(
    stream: &[u8],
    start: u32,
    length: u32,
    dependencies: u32,
    inline: u32,
    sheet: &[u64],
    old: &mut [u64],
) -> u64
    ensures value { result ≡ packed_of (kept_answer words_of old_words_of (walk_of stream.now start length (flags_of dependencies inline)) sheet.now old.old) }
    ensures after { old.new ≡ kept_words words_of old_words_of (walk_of stream.now start length (flags_of dependencies inline)) sheet.now old.old }
{
    let by = flags(dependencies, inline);
    packed(kept::narrow(stream, start, length, by, sheet, old))
}

// The whole walk of a chunk, five words an answer.
pub fn doortumble_list(chunk: &[u8], recovery: u32, rows: &mut [u64]) -> u64
    ensures { ListPacked chunk.now (flag_of recovery) rows.old rows.new result }
{
    packed(chunk::list(chunk, recovery != 0, rows))
}

// The listing of a whole log file, six words a row.
pub fn doortumble_list_file(file: &[u8], recovery: u32, rows: &mut [u64]) -> u64
    ensures { ListFilePacked file.now (flag_of recovery) rows.old rows.new result }
{
    packed(log_file::list_file(file, recovery != 0, rows))
}

// The header of a chunk and whether its checksums are right, twelve words.
pub fn doortumble_chunk_header(chunk: &[u8], words: &mut [u64]) -> u64
    ensures value { result ≡ packed_of (lent_answer (header_words chunk.now) words.old) }
    ensures words_after { words.new ≡ lent_left (header_words chunk.now) words.old }
{
    packed(record::lay_header(chunk, words))
}

// The header of a log file and whether its checksum is right, eleven words.
pub fn doortumble_file_header(file: &[u8], words: &mut [u64]) -> u64
    ensures value { result ≡ packed_of (lent_answer (file_words file.now) words.old) }
    ensures words_after { words.new ≡ lent_left (file_words file.now) words.old }
{
    packed(log_file::lay_file_header(file, words))
}

// The flags of a call: 0 or not 0.
pub fn flags(dependencies: u32, inline: u32) -> Flags
    ensures { result ≡ flags_of dependencies inline }
{
    Flags {
        dependencies: dependencies != 0,
        inline: inline != 0,
    }
}

// The answer word: each field in its own bits.
pub fn packed(c: Counted) -> u64
    ensures { result ≡ packed_of (count_answer c) }
{
    match c {
        Ok(n) => (n % 0x100_0000_0000) as u64,
        Err(r) => {
            0x8000_0000_0000_0000
                + (r.number % 0x80) as u64 * 0x100_0000_0000_0000
                + (r.place % 0x100_0000_0000) as u64
        }
    }
}
