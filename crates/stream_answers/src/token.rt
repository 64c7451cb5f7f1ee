// The tokens of a walk, one a line, and the walk's last line.
ghost use Rattle.std.specs.Prelude.{◌++◌, ◌+◌, ◌<◌, ◌^◌};
ghost use Rattle.tokens.specs.Walk.{walk_at, counted_of};
ghost use Rattle.sheet.specs.Sheet.{read_at};
ghost use Rattle.print.specs.Text.{Puts};
ghost use Rattle.stream_answers.specs.Token.{token_text, held_text, numbered_text, dependency_text, opened_text, soundness_text, named_text, view_text};
ghost use Rattle.stream_answers.specs.Walk.{tokens_text, last_text};

use crate::field;
use cursor::View;
use name::{Name, Soundness};
use tokens::{Flags, Held, Token};

// The walk from a position on. A loop by hand: each step says where the next token is.
pub(crate) fn lines(
    out: &mut [u8],
    at: usize,
    s: &[u8],
    start: usize,
    end: usize,
    flags: Flags,
) -> usize
    ensures { Puts (tokens_text s.now (read_at s.now end flags start) ++ last_text (counted_of (walk_at s.now end flags start))) out.old at out.new result }
{
    let mut filled = at;
    let mut here = start;
    let mut n: usize = 0;
    loop {
        match tokens::step(s, here, end, flags) {
            Ok((Some(t), next)) => {
                filled = line(out, filled, t, s);
                here = next.at;
                n += 1;
            }
            Ok((None, _)) => return print::line(out, filled, b"ok", &[n as u64]),
            Err(r) => return print::refused(out, filled, r),
        }
    }
}

// A token of a walk ends where a number says that the machine has.
fn line(out: &mut [u8], at: usize, t: Token, s: &[u8]) -> usize
    requires { t.place + t.len < 2 ^ 64 }
    ensures { Puts (token_text s.now t) out.old at out.new result }
{
    let a = print::decimal(out, at, t.place as u64);
    let b = print::number(out, a, t.len as u64);
    let c = print::number(out, b, t.kind as u64);
    let d = held(out, c, t, s);
    print::byte(out, d, b'\n')
}

fn held(out: &mut [u8], at: usize, t: Token, s: &[u8]) -> usize
    requires { t.place + t.len < 2 ^ 64 }
    ensures { Puts (held_text s.now t) out.old at out.new result }
{
    let h = t.held;
    match h {
        Held::Nothing => numbered(out, at, t),
        Held::Name(n) => named(out, at, t, n),
        Held::Text(v) => text(out, at, v, s),
        Held::Value(v) => field::sizeless(out, at, v, t.place + t.len, s),
        Held::Instance(i) => field::instance(out, at, i, s),
    }
}

// A char ref's number; a substitution's, and whether it is optional.
fn numbered(out: &mut [u8], at: usize, t: Token) -> usize
    ensures { Puts (numbered_text t) out.old at out.new result }
{
    let kind = t.kind;
    if kind == Token::CHAR_REF {
        return print::number(out, at, t.number as u64);
    }
    if kind == Token::SUBSTITUTION {
        let a = print::number(out, at, t.number as u64);
        return print::number(out, a, t.flag as u64);
    }
    at
}

fn named(out: &mut [u8], at: usize, t: Token, n: Name) -> usize
    ensures { Puts (named_text t n) out.old at out.new result }
{
    let a = print::number(out, at, t.name as u64);
    let b = opened(out, a, t);
    let j = n.soundness;
    judged(out, b, j)
}

// An offset name is neither: it has a dash.
fn judged(out: &mut [u8], at: usize, j: Soundness) -> usize
    ensures { Puts (soundness_text j) out.old at out.new result }
{
    match j {
        Soundness::Sound => print::text(out, at, b" 1"),
        Soundness::Unsound => print::text(out, at, b" 0"),
        Soundness::NotJudged => print::text(out, at, b" -"),
    }
}

// A view's bytes, and whether it is sound.
fn text(out: &mut [u8], at: usize, v: View, s: &[u8]) -> usize
    ensures { Puts (view_text s.now v) out.old at out.new result }
{
    let p = v.part;
    let after = field::bytes(out, at, p.of(s));
    print::number(out, after, v.sound as u64)
}

// Of an open token its dependency, and whether it announces attributes.
fn opened(out: &mut [u8], at: usize, t: Token) -> usize
    ensures { Puts (opened_text t) out.old at out.new result }
{
    if t.kind != Token::OPEN {
        return at;
    }
    let after = dependent(out, at, t);
    print::number(out, after, t.announced as u64)
}

fn dependent(out: &mut [u8], at: usize, t: Token) -> usize
    ensures { Puts (dependency_text t) out.old at out.new result }
{
    if t.flag {
        return print::number(out, at, t.number as u64);
    }
    print::text(out, at, b" -")
}
