// One turn of the walk: a token, a fragment header, the end, or a refusal.
ghost use Rattle.std.specs.Prelude.{◌≡◌, ◌≤◌};
ghost use Rattle.cursor.specs.Answers.{moved_answer, read_answer};
ghost use Rattle.tokens.specs.Table.{gist_at};
ghost use Rattle.tokens.specs.Walk.{turn_at, token_of, header_at};
ghost use Rattle.tokens.specs.Pieces.{nameless_at, turn_answer};

use crate::plain::Gist;
use crate::{Flags, Token, plain, template};
use cursor::{Cursor, Read, Refusal};

// What one turn meets.
#[derive(Clone, Copy)]
pub enum Turned {
    Token(Token),
    Header,
    Over,
}

#[tactic(auto, unfolding(crate::specs::Walk::turn_at))]
pub(crate) fn turn(s: &[u8], at: usize, end: usize, flags: Flags) -> Read<Turned>
    ensures { turn_answer result ≡ turn_at s.now end flags at }
{
    let c = Cursor { at };
    if end <= at {
        return Ok((Turned::Over, c));
    }
    let (b, c) = c.u8(s)?;
    match b {
        0x00 => Ok((Turned::Over, c)),
        0x0F => Ok((Turned::Header, header(c, s)?)),
        _ => {
            let (g, next) = gist_at(b, c, s, flags)?;
            Ok((Turned::Token(token_of(at, g, next.at)), next))
        }
    }
}

// The token table: the tokens with a name, and the others.
fn gist_at(b: u8, c: Cursor, s: &[u8], flags: Flags) -> Read<Gist>
    ensures { read_answer result ≡ gist_at s.now flags b c.at }
{
    match plain::front_of(b, c, s, flags)? {
        Some((l, next)) => plain::named(l, next, s, flags.inline),
        None => nameless(b, c, s),
    }
}

#[tactic(auto, unfolding(crate::specs::Pieces::nameless_at))]
fn nameless(b: u8, c: Cursor, s: &[u8]) -> Read<Gist>
    ensures { read_answer result ≡ nameless_at s.now b c.at }
{
    match b {
        0x0C => template::read(c, s),
        _ => plain::closes(b, c, s),
    }
}

fn token_of(place: usize, g: Gist, next: usize) -> Token
    requires { place ≤ next }
    ensures { result ≡ token_of place g next }
{
    Token {
        kind: g.kind,
        place,
        len: next - place,
        number: g.number,
        flag: g.flag,
        announced: g.announced,
        name: g.name,
        held: g.held,
    }
}

// A fragment header's three bytes: major version, minor version, flags.
fn header(c: Cursor, s: &[u8]) -> Result<Cursor, Refusal>
    ensures { moved_answer result ≡ header_at s.now c.at }
{
    let (_, c) = c.u8(s)?;
    let (_, c) = c.u8(s)?;
    let (_, c) = c.u8(s)?;
    Ok(c)
}
