// The C call of the bodies inside values: it exports the function of the crate nest_call that has its name, and promises what that promises. It
// is the archive libnest_call.a (command/archive makes it); the C header is include/doortumble.h.
#![tactic(auto)]

ghost use Rattle.body.specs.Verdict.{both};
ghost use Rattle.doortumble.specs.Calls.{flags_of};
ghost use Rattle.nest_call.specs.Calls.{BodiesPacked};

// The tokens of each body in a value stand right after their instance, eight levels down.
#[unsafe(no_mangle)]
pub extern "C" fn doortumble_bodies(
    stream: &[u8],
    start: u32,
    length: u32,
    dependencies: u32,
    inline: u32,
    sheet: &mut [u64],
    table: &mut [u32],
) -> u64
    ensures { BodiesPacked stream.now start length (flags_of dependencies inline) (both sheet.old table.old) (both sheet.new table.new) result }
{
    nest_call::doortumble_bodies(stream, start, length, dependencies, inline, sheet, table)
}
