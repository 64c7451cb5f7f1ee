// All tokens but the instance: what each holds after its byte. Every function here takes the cursor after what was read before.
ghost use Rattle.std.specs.Prelude.{◌≡◌};
ghost use Rattle.cursor.specs.Answers.{read_answer};
ghost use Rattle.tokens.specs.Token.{gist, bare_at, char_ref_at, type_at, substitution_at, open_at, text_token_at, value_token_at};
ghost use Rattle.tokens.specs.Table.{gist_at};
ghost use Rattle.tokens.specs.Pieces.{lead, open_lead, named_of, named_after_lead, front_to, LeadsTo, nameless_at, table_from02, table_from05, table_from0_d, dependency_at, numbers_at, list_size_at};

use crate::{Flags, Held, Token};
use cursor::{Cursor, Read, Refusal};
use name::Name;
use value::Kind;

// What a token is, but for where it stands. (Its fields are not a `Lead` and two more: a `Token` has the same ones, in the order that was
// measured, and each would be taken out of the lead by name.)
#[derive(Clone, Copy)]
pub struct Gist {
    pub kind: u8,
    pub number: u16,
    pub flag: bool,
    pub announced: bool,
    pub name: usize,
    pub held: Held,
}

// What is known of a token before its name: all but the name. (What is the same for every token of a byte is then a constant in the code.)
#[derive(Clone, Copy)]
pub struct Lead {
    pub kind: u8,
    pub number: u16,
    pub flag: bool,
    pub announced: bool,
}

// What stands before the name of a token that has one. Every name is then read in one place, so that its read is compiled into the step.
pub(crate) fn front_of(
    b: u8,
    c: Cursor,
    s: &[u8],
    flags: Flags,
) -> Result<Option<(Lead, Cursor)>, Refusal>
    ensures { front_to s.now flags.inline (nameless_at s.now b c.at) result ≡ gist_at s.now flags b c.at }
{
    match b {
        0x01 => opened(c, s, flags, false),
        0x41 => opened(c, s, flags, true),
        0x06 | 0x46 => Ok(Some((lead_of(Token::ATTRIBUTE, 0, false, false), c))),
        0x09 | 0x49 => Ok(Some((lead_of(Token::ENTITY_REF, 0, false, false), c))),
        0x0A => Ok(Some((lead_of(Token::PI_TARGET, 0, false, false), c))),
        _ => Ok(None),
    }
}

// The token table without the names, from 02 on: the close tokens, and what comes after them.
pub(crate) fn closes(b: u8, c: Cursor, s: &[u8]) -> Read<Gist>
    ensures { read_answer result ≡ table_from02 s.now b c.at }
{
    match b {
        0x02 => bare(Token::CLOSE_START, c),
        0x03 => bare(Token::CLOSE_EMPTY, c),
        0x04 => bare(Token::CLOSE_ELEMENT, c),
        _ => contents(b, c, s),
    }
}

fn contents(b: u8, c: Cursor, s: &[u8]) -> Read<Gist>
    ensures { read_answer result ≡ table_from05 s.now b c.at }
{
    match b {
        0x05 | 0x45 => held_value(c, s),
        0x07 | 0x47 => text(Token::CDATA, c, s),
        0x08 | 0x48 => char_ref(c, s),
        0x0B => text(Token::PI_DATA, c, s),
        _ => substitutions(b, c, s),
    }
}

fn substitutions(b: u8, c: Cursor, s: &[u8]) -> Read<Gist>
    ensures { read_answer result ≡ table_from0_d s.now b c.at }
{
    match b {
        0x0D => substitution(c, s, false),
        0x0E => substitution(c, s, true),
        _ => cursor::refuse(Refusal::UNKNOWN_TOKEN, c.at),
    }
}

// A token without a name.
pub(crate) fn made(kind: u8, number: u16, flag: bool, held: Held) -> Gist
    ensures { result ≡ gist kind number flag held }
{
    Gist {
        kind,
        number,
        flag,
        announced: false,
        name: 0,
        held,
    }
}

// A token that is its byte.
fn bare(kind: u8, c: Cursor) -> Read<Gist>
    ensures { read_answer result ≡ bare_at kind c.at }
{
    Ok((made(kind, 0, false, Held::Nothing), c))
}

fn text(kind: u8, c: Cursor, s: &[u8]) -> Read<Gist>
    ensures { read_answer result ≡ text_token_at s.now kind c.at }
{
    let (v, next) = c.len_prefixed_utf16_string(s, false)?;
    Ok((made(kind, 0, false, Held::Text(v)), next))
}

fn char_ref(c: Cursor, s: &[u8]) -> Read<Gist>
    ensures { read_answer result ≡ char_ref_at s.now c.at }
{
    let (n, next) = c.u16(s)?;
    Ok((made(Token::CHAR_REF, n, false, Held::Nothing), next))
}

fn held_value(c: Cursor, s: &[u8]) -> Read<Gist>
    ensures { read_answer result ≡ value_token_at s.now c.at }
{
    let (v, next) = value::read_unsized(c, s)?;
    Ok((made(Token::VALUE, 0, false, Held::Value(v)), next))
}

// A type code, which must be known.
pub(crate) fn type_at(c: Cursor, s: &[u8]) -> Read<u8>
    ensures { read_answer result ≡ type_at s.now c.at }
{
    let (code, next) = c.u8(s)?;
    if Kind::known(code) {
        Ok((code, next))
    } else {
        cursor::refuse(Refusal::UNKNOWN_TYPE, next.at)
    }
}

fn substitution(c: Cursor, s: &[u8], optional: bool) -> Read<Gist>
    ensures { read_answer result ≡ substitution_at s.now optional c.at }
{
    let (n, next) = c.u16(s)?;
    let (_, end) = type_at(next, s)?;
    Ok((made(Token::SUBSTITUTION, n, optional, Held::Nothing), end))
}

fn lead_of(kind: u8, number: u16, flag: bool, announced: bool) -> Lead
    ensures { result ≡ lead kind number flag announced }
{
    Lead {
        kind,
        number,
        flag,
        announced,
    }
}

// 0xFFFF is none, and 0 is one.
fn open_lead(d: u16, announced: bool) -> Lead
    ensures { result ≡ open_lead d announced }
{
    if d == 0xFFFF {
        lead_of(Token::OPEN, 0, false, announced)
    } else {
        lead_of(Token::OPEN, d, true, announced)
    }
}

// An open token before its name; its byte announces attributes (41) or not (01).
fn opened(
    c: Cursor,
    s: &[u8],
    flags: Flags,
    announced: bool,
) -> Result<Option<(Lead, Cursor)>, Refusal>
    ensures { LeadsTo s.now flags.inline result (open_at s.now flags announced c.at) }
{
    let (d, next) = numbers(c, s, flags.dependencies)?;
    Ok(Some((open_lead(d, announced), next)))
}

// An open token's numbers before its name: the dependency, which is handed on, and a u32.
fn numbers(c: Cursor, s: &[u8], carried: bool) -> Read<u16>
    ensures { read_answer result ≡ numbers_at s.now carried c.at }
{
    let (d, next) = dependency(c, s, carried)?;
    let (_, end) = next.u32(s)?;
    Ok((d, end))
}

// Where no dependencies are carried there is none.
fn dependency(c: Cursor, s: &[u8], carried: bool) -> Read<u16>
    ensures { read_answer result ≡ dependency_at s.now carried c.at }
{
    if carried { c.u16(s) } else { Ok((0xFFFF, c)) }
}

// The name of a token that has one, and what comes after it.
pub(crate) fn named(l: Lead, c: Cursor, s: &[u8], inline: bool) -> Read<Gist>
    ensures { read_answer result ≡ named_after_lead s.now inline l c.at }
{
    let (n, next) = name::read_name_ref(c, s, inline)?;
    let (_, end) = list_size(next, s, l.announced)?;
    Ok((named_of(l, n), end))
}

// The size of the list of attributes, where they are announced.
fn list_size(c: Cursor, s: &[u8], announced: bool) -> Read<u32>
    ensures { read_answer result ≡ list_size_at s.now announced c.at }
{
    if announced { c.u32(s) } else { Ok((0, c)) }
}

// A token with a name.
fn named_of(l: Lead, n: Name) -> Gist
    ensures { result ≡ named_of l n }
{
    Gist {
        kind: l.kind,
        number: l.number,
        flag: l.flag,
        announced: l.announced,
        name: n.offset,
        held: Held::Name(n),
    }
}
