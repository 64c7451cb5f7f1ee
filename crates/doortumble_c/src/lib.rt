// The C calls of the reader: each exports the function of the crate doortumble that has its name, and promises what that promises. They are the
// archive libdoortumble.a (command/archive makes it); the C header is include/doortumble.h.
#![tactic(auto)]

ghost use Rattle.std.specs.Prelude.{◌≡◌};
ghost use Rattle.cursor.specs.Lent.{lent_answer, lent_left};
ghost use Rattle.record.specs.Chunk.{header_words};
ghost use Rattle.log_file.specs.Header.{file_words};
ghost use Rattle.tokens.specs.Walk.{walk_of};
ghost use Rattle.sheet.specs.Sheet.{words_of};
ghost use Rattle.sheet.specs.Kept.{old_words_of, kept_answer, kept_words};
ghost use Rattle.body.specs.Verdict.{both};
ghost use Rattle.doortumble.specs.Calls.{flag_of, flags_of, packed_of, BodyPacked, ListPacked, ListFilePacked};

// The sheet and the owner table of a stream that is an event body: two words a token, and one.
#[unsafe(no_mangle)]
pub extern "C" fn doortumble_body(
    stream: &[u8],
    start: u32,
    length: u32,
    dependencies: u32,
    inline: u32,
    sheet: &mut [u64],
    table: &mut [u32],
) -> u64
    ensures { BodyPacked (walk_of stream.now start length (flags_of dependencies inline)) (both sheet.old table.old) (both sheet.new table.new) result }
{
    doortumble::doortumble_body(stream, start, length, dependencies, inline, sheet, table)
}

// The sheet of a stream from its old one, which has one word a token.
#[unsafe(no_mangle)]
pub extern "C" fn doortumble_widen(
    stream: &[u8],
    start: u32,
    length: u32,
    dependencies: u32,
    inline: u32,
    old: &[u64],
    sheet: &mut [u64],
) -> u64
    ensures value { result ≡ packed_of (kept_answer old_words_of words_of (walk_of stream.now start length (flags_of dependencies inline)) old.now sheet.old) }
    ensures sheet_after { sheet.new ≡ kept_words old_words_of words_of (walk_of stream.now start length (flags_of dependencies inline)) old.now sheet.old }
{
    doortumble::doortumble_widen(stream, start, length, dependencies, inline, old, sheet)
}

// The old sheet of a stream from its new one.
#[unsafe(no_mangle)]
pub extern "C" fn doortumble_narrow(
    stream: &[u8],
    start: u32,
    length: u32,
    dependencies: u32,
    inline: u32,
    sheet: &[u64],
    old: &mut [u64],
) -> u64
    ensures value { result ≡ packed_of (kept_answer words_of old_words_of (walk_of stream.now start length (flags_of dependencies inline)) sheet.now old.old) }
    ensures after { old.new ≡ kept_words words_of old_words_of (walk_of stream.now start length (flags_of dependencies inline)) sheet.now old.old }
{
    doortumble::doortumble_narrow(stream, start, length, dependencies, inline, sheet, old)
}

// The whole walk of a chunk, five words an answer.
#[unsafe(no_mangle)]
pub extern "C" fn doortumble_list(chunk: &[u8], recovery: u32, rows: &mut [u64]) -> u64
    ensures { ListPacked chunk.now (flag_of recovery) rows.old rows.new result }
{
    doortumble::doortumble_list(chunk, recovery, rows)
}

// The listing of a whole log file, six words a row.
#[unsafe(no_mangle)]
pub extern "C" fn doortumble_list_file(file: &[u8], recovery: u32, rows: &mut [u64]) -> u64
    ensures { ListFilePacked file.now (flag_of recovery) rows.old rows.new result }
{
    doortumble::doortumble_list_file(file, recovery, rows)
}

// The header of a chunk and whether its checksums are right, twelve words.
#[unsafe(no_mangle)]
pub extern "C" fn doortumble_chunk_header(chunk: &[u8], words: &mut [u64]) -> u64
    ensures value { result ≡ packed_of (lent_answer (header_words chunk.now) words.old) }
    ensures words_after { words.new ≡ lent_left (header_words chunk.now) words.old }
{
    doortumble::doortumble_chunk_header(chunk, words)
}

// The header of a log file and whether its checksum is right, eleven words.
#[unsafe(no_mangle)]
pub extern "C" fn doortumble_file_header(file: &[u8], words: &mut [u64]) -> u64
    ensures value { result ≡ packed_of (lent_answer (file_words file.now) words.old) }
    ensures words_after { words.new ≡ lent_left (file_words file.now) words.old }
{
    doortumble::doortumble_file_header(file, words)
}
