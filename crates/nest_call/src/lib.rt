// Sheet and owner table of a stream's body and of the bodies in its values, as a library. The crate nest_call_c exports the call to C; the C
// header is include/doortumble.h, and the call has an archive of its own, which links beside the reader's.
//
// (In one archive with the reader's calls the token table would have two callers, and a function that has two is not compiled into them: a
// walk would take twice its time.)
#![tactic(auto)]

ghost use Rattle.std.specs.Prelude.{◌≡◌};
ghost use Rattle.body.specs.Verdict.{both};
ghost use Rattle.doortumble.specs.Calls.{flags_of};
ghost use Rattle.nest_call.specs.Calls.{BodiesPacked};

// The tokens of each body in a value stand right after their instance, eight levels down.
pub fn doortumble_bodies(
    stream: &[u8],
    start: u32,
    length: u32,
    dependencies: u32,
    inline: u32,
    sheet: &mut [u64],
    table: &mut [u32],
) -> u64
    ensures { BodiesPacked stream.now start length (flags_of dependencies inline) (both sheet.old table.old) (both sheet.new table.new) result }
{
    let by = doortumble::flags(dependencies, inline);
    doortumble::packed(nest::fill(stream, start, length, by, sheet, table))
}
