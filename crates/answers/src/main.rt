// Answers a batch of cases (docs/ANSWERS.md): cases come on standard input, their answers go to standard output. What is answered stands in
// `chunk_answers`, `file_text`, `stream_answers`, `merge_answers` and `event_answers`; this program reads the cases and finds the mode. No rule of
// the format stands here.
#![tactic(auto)]

use cursor::Part;
use std::io;
use std::io::Read;
use std::ops::ControlFlow;
use stream_answers::Asked;
use tokens::Flags;

// The head of a case: mode, flags, start, length, and how much data follows.
const HEAD: usize = 14;

// The most data of a case.
const MOST_DATA: usize = 331776;

// The output's buffer, and how full it is when it is written out. The longest answers have some 1,114,000 bytes (the 65,536 words of a
// sheet in mode C) and 1,034,000 (five chunks in mode F, each with at most 2,322 records of 72 bytes and 2,323 refusals of 17), so that
// each finds room.
const OUTPUT: usize = 2097152;

const FULL: usize = 524288;

// A case, without its data.
#[derive(Clone, Copy)]
struct Case {
    mode: u8,
    flags: u8,
    start: u32,
    length: u32,
    data: usize,
}

// How full the output is after a turn, and whether the run is over.
type Turn = ControlFlow<usize, usize>;

fn main(rt: HostRuntime) -> io::Result<()> {
    let mut bytes = [0u8; MOST_DATA];
    let mut out = [0u8; OUTPUT];
    run(&rt, &mut rt.stdin(), &mut out, &mut bytes)
}

// All cases. Nothing says that the input ends, so the turns are counted up to a number that no input reaches.
fn run(
    rt: &impl Print,
    reader: &mut impl Read,
    out: &mut [u8],
    bytes: &mut [u8],
) -> io::Result<()> {
    let mut at: usize = 0;
    for _ in 0..u64::MAX {
        match one_case(rt, reader, out, at, bytes)? {
            ControlFlow::Continue(next) => at = next,
            ControlFlow::Break(end) => return write(rt, out, end),
        }
    }
    write(rt, out, at)
}

// Writes out what the buffer holds.
fn write(rt: &impl Print, out: &[u8], at: usize) -> io::Result<()> {
    let filled = Part { start: 0, len: at };
    rt.write_all(filled.of(out))
}

// One case: its head is read here.
fn one_case(
    rt: &impl Print,
    reader: &mut impl Read,
    out: &mut [u8],
    at: usize,
    bytes: &mut [u8],
) -> io::Result<Turn> {
    let mut head = [0u8; HEAD];
    let n = input::read_full(reader, &mut head)?;
    if n == 0 {
        return Ok(ControlFlow::Break(at));
    }
    if n < HEAD {
        return Ok(bad(out, at));
    }
    answered(rt, reader, out, at, case_of(&head), bytes)
}

fn case_of(head: &[u8]) -> Case {
    Case {
        mode: cursor::u8_at(head, 0),
        flags: cursor::u8_at(head, 1),
        start: cursor::u32_at(head, 2),
        length: cursor::u32_at(head, 6),
        data: cursor::u32_at(head, 10) as usize,
    }
}

// Its data, and its answer.
fn answered(
    rt: &impl Print,
    reader: &mut impl Read,
    out: &mut [u8],
    at: usize,
    case: Case,
    bytes: &mut [u8],
) -> io::Result<Turn> {
    let n = case.data;
    if n < least_data(case.mode) {
        return Ok(bad(out, at));
    }
    if is_read(reader, n, bytes)? {
        let part = Part { start: 0, len: n };
        if n < front(case.mode, part.of(bytes)) {
            return Ok(bad(out, at));
        }
        let end = answer(out, at, case, part.of(bytes));
        let after = print::text(out, end, b".\n");
        return kept(rt, out, after);
    }
    Ok(bad(out, at))
}

// A buffer that is full may have lost something, and ends the run; one that is a quarter full is written out.
fn kept(rt: &impl Print, out: &mut [u8], at: usize) -> io::Result<Turn> {
    if out.len() <= at {
        return Ok(bad(out, 0));
    }
    if FULL <= at {
        write(rt, out, at)?;
        return Ok(ControlFlow::Continue(0));
    }
    Ok(ControlFlow::Continue(at))
}

// Whether there is room for n bytes, and the input has them.
fn is_read(reader: &mut impl Read, n: usize, bytes: &mut [u8]) -> io::Result<bool> {
    if bytes.len() < n {
        return Ok(false);
    }
    let got = input::read_full(reader, &mut bytes[..n])?;
    Ok(got == n)
}

fn bad(out: &mut [u8], at: usize) -> Turn {
    ControlFlow::Break(print::text(out, at, b"bad case\n"))
}

// (A mode is a byte of the case, so it is matched and no closure.) The least data that a mode needs; of a mode that there is not, more than a case may have.
fn least_data(mode: u8) -> usize {
    match mode {
        b'H' | b'D' | b'R' | b'W' | b'F' | b'T' | b'S' | b'O' => 0,
        b'P' => chunk_answers::STATE,
        b'C' => stream_answers::ROOM,
        b'B' | b'N' => stream_answers::ROOMS,
        b'K' => stream_answers::KEPT,
        b'M' => merge_answers::FRONT,
        b'E' | b'J' => event_answers::ROOM,
        _ => MOST_DATA + 1,
    }
}

// What stands before the stream, or all that there is, where the data itself says how much that is.
fn front(mode: u8, bytes: &[u8]) -> usize {
    match mode {
        b'K' => stream_answers::kept_front(bytes),
        b'M' => merge_answers::front(bytes),
        _ => 0,
    }
}

// The answer lines of a case.
fn answer(out: &mut [u8], at: usize, case: Case, bytes: &[u8]) -> usize {
    let mode = case.mode;
    let first = case.flags % 2 == 1;
    match mode {
        b'H' => chunk_answers::header(out, at, bytes),
        b'D' => chunk_answers::events(out, at, bytes),
        b'R' => chunk_answers::record(out, at, bytes, case.start as usize, first),
        b'W' => chunk_answers::walk(out, at, bytes, first),
        b'P' => chunk_answers::step(out, at, bytes),
        b'F' => file_text::answers(out, at, bytes, first),
        b'S' => stream_answers::single(out, at, bytes, case.start as usize),
        b'M' => merge_answers::merged(out, at, bytes, first),
        _ => on_stream(out, at, case, bytes),
    }
}

// The modes that ask for a part of a stream. Of mode K, flag 4 asks for the old sheet, else the new one is made.
fn on_stream(out: &mut [u8], at: usize, case: Case, bytes: &[u8]) -> usize {
    let mode = case.mode;
    let asked = asked_of(case);
    match mode {
        b'T' => stream_answers::walk(out, at, bytes, asked),
        b'O' => stream_answers::owners(out, at, bytes, asked),
        b'B' => stream_answers::body_call(out, at, bytes, asked),
        b'N' => stream_answers::bodies_call(out, at, bytes, asked),
        b'K' => stream_answers::kept_call(out, at, bytes, asked, case.flags / 4 % 2 == 1),
        b'E' => event_answers::event_rows(out, at, bytes, case.start, case.length, is_inline(case)),
        b'J' => event_answers::looked_up(out, at, bytes, case.start, is_inline(case)),
        _ => stream_answers::sheet_alone(out, at, bytes, asked),
    }
}

// How a stream is read: flag 1, dependencies carried; flag 2, names inline.
fn asked_of(case: Case) -> Asked {
    Asked {
        start: case.start,
        length: case.length,
        flags: Flags {
            dependencies: case.flags % 2 == 1,
            inline: is_inline(case),
        },
    }
}

fn is_inline(case: Case) -> bool {
    case.flags / 2 % 2 == 1
}
