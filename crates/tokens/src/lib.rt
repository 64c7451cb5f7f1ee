// The token walk of a stream: one step, where a walk reads, the values of an instance, and the single instance. The Rust: binxml/tokens.rs.
//
// A step goes from a position to the next token and hands out where the walk reads on. Every call takes every stream and every number.
#![tactic(auto)]

mod plain;
mod template;
mod walking;

ghost use Rattle.std.specs.Prelude.{◌≡◌};
ghost use Rattle.cursor.specs.Answers.{read_answer};
ghost use Rattle.tokens.specs.Single.{single_answer, single_of, ends_answer, ends_of};
ghost use Rattle.tokens.specs.Instance.{values_of, next_answer, next_of};
ghost use Rattle.tokens.specs.Sight.{sight_answer, instance_there, sight_at};
ghost use Rattle.tokens.specs.Walk.{step_answer, step_at, window_answer, window_of};

use cursor::{Cursor, Part, Read, Refusal, View};
use name::Name;
use value::Value;
use walking::Turned;

// How a stream is read: whether open tokens carry dependencies, and whether names stand inline.
#[derive(Clone, Copy)]
pub struct Flags {
    pub dependencies: bool,
    pub inline: bool,
}

// An instance: its numbers, where its GUID stands (no bytes where there is none), where its descriptors start and how many they are,
// and where its values start.
#[derive(Clone, Copy)]
pub struct Instance {
    pub id: u32,
    pub offset: u32,
    pub guid: Part,
    pub table: usize,
    pub count: u32,
    pub values: usize,
}

// What a token holds, by its kind.
#[derive(Clone, Copy)]
pub enum Held {
    Nothing,
    Name(Name),
    Text(View),
    Value(Value),
    Instance(Instance),
}

// A token: the offset of its byte, how far it is from there to where the walk reads on, its kind (1 to 13, as in the sheet), its number
// (dependency, char, substitution, else 0), its flag (dependency present, or optional), whether it announces attributes (an open byte 41),
// its name's offset (0 where it has no name), and what it holds. (The place comes first, where the other answers of a step have a position
// too: with a smaller field there each answer was taken apart into bytes and put together again.)
#[derive(Clone, Copy)]
pub struct Token {
    pub place: usize,
    pub len: usize,
    pub kind: u8,
    pub number: u16,
    pub flag: bool,
    pub announced: bool,
    pub name: usize,
    pub held: Held,
}

// What one turn of a walk sees where the values of an instance are left to the caller: an instance's head, with its whole table, or what any
// turn meets.
#[derive(Clone, Copy)]
pub enum Sight {
    Token(Token),
    Instance(Instance),
    Header,
    Over,
}

// Where a walk over an instance's values stands: the next descriptor, how many are left, and the next value.
#[derive(Clone, Copy)]
pub struct Values {
    pub table: usize,
    pub left: u32,
    pub at: usize,
}

// (The kinds are numbers and no enum: what packs and shows a kind in `sheet` takes every number, and says so of each.)
impl Token {
    pub const INSTANCE: u8 = 1;

    pub const OPEN: u8 = 2;

    pub const CLOSE_START: u8 = 3;

    pub const CLOSE_EMPTY: u8 = 4;

    pub const CLOSE_ELEMENT: u8 = 5;

    pub const VALUE: u8 = 6;

    pub const ATTRIBUTE: u8 = 7;

    pub const ENTITY_REF: u8 = 8;

    pub const PI_TARGET: u8 = 9;

    pub const PI_DATA: u8 = 10;

    pub const CDATA: u8 = 11;

    pub const CHAR_REF: u8 = 12;

    pub const SUBSTITUTION: u8 = 13;
}

// Where the instance of a single instance's stream starts, after its token byte.
#[tactic(auto, unfolding(crate::specs::Single::single_of))]
pub fn single_instance_offset(s: &[u8]) -> Option<usize>
    ensures { single_answer result ≡ single_of s.now }
{
    let first = cursor::u8_at(s, 0);
    if first == 0x0C {
        return Some(1);
    }
    if s.len() < 6 || first != 0x0F || cursor::u8_at(s, 4) != 0x0C {
        return None;
    }
    Some(5)
}

// Whether a single instance's stream ends after the bytes that were read; of more bytes than it has nothing is said.
#[tactic(auto, unfolding(crate::specs::Single::ends_of))]
pub fn ends_stream(s: &[u8], consumed: usize) -> Option<bool>
    ensures { ends_answer result ≡ ends_of s.now consumed }
{
    if s.len() < consumed {
        return None;
    }
    Some(s.len() == consumed || cursor::u8_at(s, consumed) == 0)
}

// One step: the next token from a position on, none at the walk's end, and where the walk reads on. `end` is start plus length.
// (A loop by hand: where it goes on is what was read. It has one turn in it, so that a turn is compiled into it once.)
pub fn step(s: &[u8], at: usize, end: usize, flags: Flags) -> Read<Option<Token>>
    ensures { step_answer result ≡ step_at s.now end flags at }
{
    let mut here = at;
    loop {
        let (met, next) = walking::turn(s, here, end, flags)?;
        match met {
            Turned::Token(t) => return Ok((Some(t), next)),
            Turned::Header => here = next.at,
            Turned::Over => return Ok((None, next)),
        }
    }
}

// One turn of the walk, in which an instance's head and whole table are read and none of its values.
pub fn look(s: &[u8], at: usize, end: usize, flags: Flags) -> Read<Sight>
    ensures { sight_answer result ≡ sight_at s.now end flags at }
{
    if instance_there(s, at, end) {
        let (i, next) = template::head(Cursor { at: at + 1 }, s)?;
        return Ok((Sight::Instance(i), next));
    }
    let (met, next) = walking::turn(s, at, end, flags)?;
    match met {
        Turned::Token(t) => Ok((Sight::Token(t), next)),
        Turned::Header => Ok((Sight::Header, next)),
        Turned::Over => Ok((Sight::Over, next)),
    }
}

fn instance_there(s: &[u8], at: usize, end: usize) -> bool
    ensures { result ≡ instance_there s.now end at }
{
    at < end && cursor::u8_at(s, at) == 0x0C
}

// Where a walk reads, its first position and the first at which no token begins: the tests that come before it. A sum of two u32 does not wrap.
pub fn window_of(s: &[u8], start: u32, length: u32) -> Result<(usize, usize), Refusal>
    ensures { window_answer result ≡ window_of s.now start length }
{
    if 0x1_0000 < s.len() {
        return cursor::refuse(Refusal::WRONG_LENGTH, 0);
    }
    let from = start as usize;
    if s.len() < from {
        return cursor::refuse(Refusal::PAST_END, from);
    }
    Ok((from, from + length as usize))
}

impl Values {
    // The walk over the values of an instance, from its first.
    pub fn of(i: Instance) -> Values
        ensures { result ≡ values_of i }
    {
        Values {
            table: i.table,
            left: i.count,
            at: i.values,
        }
    }

    // The next value, its descriptor's size, and where the walk over the values goes on.
    pub fn next(self, s: &[u8]) -> Result<Option<(Value, u16, Values)>, Refusal>
        ensures { next_answer result ≡ next_of s.now self }
    {
        if self.left == 0 {
            return Ok(None);
        }
        let (v, next) = template::value_in(self.table, self.at, s)?;
        let rest = Values {
            table: self.table + 4,
            left: self.left - 1,
            at: next.at,
        };
        Ok(Some((v, cursor::u16_at(s, self.table), rest)))
    }
}
