// The sheet of a stream by itself, as a library. The crate sheet_call_c exports the call to C, for the benchmark (compare/bench).
#![tactic(auto)]

ghost use Rattle.std.specs.Prelude.{◌≡◌};
ghost use Rattle.tokens.specs.Walk.{walk_of};
ghost use Rattle.sheet.specs.Sheet.{sheet_answer, sheet_words};
ghost use Rattle.doortumble.specs.Calls.{flags_of};
ghost use Rattle.sheet_call.specs.Told.{told_of};

// How many tokens the stream has, with their words in the sheet, or all ones where it is refused.
pub fn doortumble_bench_sheet(
    stream: &[u8],
    start: u32,
    length: u32,
    dependencies: u32,
    inline: u32,
    sheet: &mut [u64],
) -> u64
    ensures value { result ≡ told_of (sheet_answer (walk_of stream.now start length (flags_of dependencies inline)) sheet.old) }
    ensures sheet_after { sheet.new ≡ sheet_words (walk_of stream.now start length (flags_of dependencies inline)) sheet.old }
{
    let by = doortumble::flags(dependencies, inline);
    match sheet::fill(stream, start, length, by, sheet) {
        Ok(n) => n as u64,
        Err(_) => u64::MAX,
    }
}
