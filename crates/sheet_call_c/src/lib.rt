// The benchmark's C call of the sheet: it exports the function of the crate sheet_call that has its name, and promises what that promises. It is
// the archive libsheet_call.a (command/archive makes it), which only compare/bench links.
#![tactic(auto)]

ghost use Rattle.std.specs.Prelude.{◌≡◌};
ghost use Rattle.tokens.specs.Walk.{walk_of};
ghost use Rattle.sheet.specs.Sheet.{sheet_answer, sheet_words};
ghost use Rattle.doortumble.specs.Calls.{flags_of};
ghost use Rattle.sheet_call.specs.Told.{told_of};

// How many tokens the stream has, with their words in the sheet, or all ones where it is refused.
#[unsafe(no_mangle)]
pub extern "C" fn doortumble_bench_sheet(
    stream: &[u8],
    start: u32,
    length: u32,
    dependencies: u32,
    inline: u32,
    sheet: &mut [u64],
) -> u64
    ensures value { result ≡ told_of (sheet_answer (walk_of stream.now start length (flags_of dependencies inline)) sheet.old) }
    ensures sheet_after { sheet.new ≡ sheet_words (walk_of stream.now start length (flags_of dependencies inline)) sheet.old }
{
    sheet_call::doortumble_bench_sheet(stream, start, length, dependencies, inline, sheet)
}
