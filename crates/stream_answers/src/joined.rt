// What the C calls for sheet and owner table answer on lent words, and what they leave there. Each call has its own two functions: one for
// both would take the call as a closure and its contract as a predicate, which is no plainer.
ghost use Rattle.std.specs.Prelude.{take};
ghost use Rattle.body.specs.Verdict.{both};
ghost use Rattle.print.specs.Text.{Puts, PutsSome};
ghost use Rattle.stream_answers.specs.Modes.{asked_walk, room_in};
ghost use Rattle.stream_answers.specs.Body.{table_room_in, body_stream, both_text, BodyCalled, BodiesCalled};

use crate::{Asked, ROOMS, call};

// The words that are lent are the first of those that are there, or all of them.
pub(crate) fn body_of(
    out: &mut [u8],
    at: usize,
    bytes: &[u8],
    asked: Asked,
    sheet: &mut [u64],
    table: &mut [u32],
) -> usize
    ensures { PutsSome (BodyCalled (asked_walk (body_stream bytes.now) asked) (both (take (room_in bytes.now) sheet.old) (take (table_room_in bytes.now) table.old))) out.old at out.new result }
{
    let n = (cursor::u32_at(bytes, 0) as usize).min(sheet.len());
    let m = (cursor::u32_at(bytes, 4) as usize).min(table.len());
    body_in(
        out,
        at,
        call::behind(bytes, ROOMS),
        asked,
        &mut sheet[..n],
        &mut table[..m],
    )
}

fn body_in(
    out: &mut [u8],
    at: usize,
    s: &[u8],
    asked: Asked,
    sheet: &mut [u64],
    table: &mut [u32],
) -> usize
    ensures { PutsSome (BodyCalled (asked_walk s.now asked) (both sheet.old table.old)) out.old at out.new result }
{
    let f = asked.flags;
    let r = doortumble::doortumble_body(
        s,
        asked.start,
        asked.length,
        f.dependencies as u32,
        f.inline as u32,
        sheet,
        table,
    );
    let end = call::said(out, at, r);
    both_lines(out, end, sheet, table)
}

// The same for the call that goes into the bodies in values.
pub(crate) fn bodies_of(
    out: &mut [u8],
    at: usize,
    bytes: &[u8],
    asked: Asked,
    sheet: &mut [u64],
    table: &mut [u32],
) -> usize
    ensures { PutsSome (BodiesCalled (body_stream bytes.now) asked (both (take (room_in bytes.now) sheet.old) (take (table_room_in bytes.now) table.old))) out.old at out.new result }
{
    let n = (cursor::u32_at(bytes, 0) as usize).min(sheet.len());
    let m = (cursor::u32_at(bytes, 4) as usize).min(table.len());
    bodies_in(
        out,
        at,
        call::behind(bytes, ROOMS),
        asked,
        &mut sheet[..n],
        &mut table[..m],
    )
}

fn bodies_in(
    out: &mut [u8],
    at: usize,
    s: &[u8],
    asked: Asked,
    sheet: &mut [u64],
    table: &mut [u32],
) -> usize
    ensures { PutsSome (BodiesCalled s.now asked (both sheet.old table.old)) out.old at out.new result }
{
    let f = asked.flags;
    let r = nest_call::doortumble_bodies(
        s,
        asked.start,
        asked.length,
        f.dependencies as u32,
        f.inline as u32,
        sheet,
        table,
    );
    let end = call::said(out, at, r);
    both_lines(out, end, sheet, table)
}

fn both_lines(out: &mut [u8], at: usize, sheet: &[u64], table: &[u32]) -> usize
    ensures { Puts (both_text (both sheet.now table.now)) out.old at out.new result }
{
    let a = print::text(out, at, b"sheet");
    let b = print::hex_words(out, a, sheet);
    let c = print::text(out, b, b"\ntable");
    let d = print::hex_halves(out, c, table);
    print::byte(out, d, b'\n')
}
