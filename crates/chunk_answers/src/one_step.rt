// Mode P: one step of the walk from any state.
ghost use Rattle.std.specs.Prelude.{◌≡◌};
ghost use Rattle.print.specs.Text.{Puts, PutsSome};
ghost use Rattle.chunk_answers.specs.Step.{place_of, state_at, state_line, StepText};

use crate::item;
use chunk::Walk;
use cursor::u64_at;

// The bytes of a state: five numbers before the chunk.
pub const STATE: usize = 40;

// Nothing is put where the bytes are too few for a state.
pub fn step(out: &mut [u8], at: usize, bytes: &[u8]) -> usize
    ensures { PutsSome (StepText bytes.now) out.old at out.new result }
{
    if bytes.len() < STATE {
        return at;
    }
    let chunk = &bytes[STATE..];
    let stepped = state_of(bytes).step(chunk);
    let item = stepped.item;
    let after = stepped.state;
    let end = item::line(out, at, item.row(), chunk);
    state(out, end, after)
}

fn state_of(bytes: &[u8]) -> Walk
    ensures { result ≡ state_at bytes.now }
{
    Walk {
        place: place_of(u64_at(bytes, 0), u64_at(bytes, 8)),
        from: u64_at(bytes, 16) as usize,
        to: u64_at(bytes, 24) as usize,
        recover: u64_at(bytes, 32) != 0,
    }
}

fn place_of(stands: u64, position: u64) -> Option<usize>
    ensures { result ≡ place_of stands position }
{
    if stands == 0 {
        None
    } else {
        Some(position as usize)
    }
}

// The line of the state that came back. A walk that is over has no position: 0 stands for it.
fn state(out: &mut [u8], at: usize, w: Walk) -> usize
    ensures { Puts (state_line w) out.old at out.new result }
{
    let numbers = [
        u64::from(w.place.is_some()),
        w.place.unwrap_or(0) as u64,
        w.from as u64,
        w.to as u64,
        u64::from(w.recover),
    ];
    print::line(out, at, b"state", &numbers)
}
