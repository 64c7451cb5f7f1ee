// The walk of one window, which calls itself for the body in a value with the remaining levels falling.
//
// Two stacks hold what the grammar reads of a body's own tokens, and their numbers: an inner body is pushed, judged and popped, so that each
// body's own tokens stand together.
//
// The stacks and buffers are handed on one by one: of a struct that holds the three stacks, the borrow checker does not cover that a rest of
// each is lent to the walk in a value. What a window is read by (s, end, flags, left) goes to `walk`, `next` and `run` alone, so that a struct
// of it would be no shorter. And the loops are by hand: each step goes on where the one before has read to.
ghost use Rattle.std.specs.Prelude.{◌≡◌, Bool, true, false, ◌&&◌, ◌∷◌, [], map, ◌+◌, ◌-◌, ◌*◌, ◌≤◌, ◌<◌, ltb, length, get_or, take, set};
ghost use Rattle.std.proofs.lemmas.List.Edits.{sets};
ghost use Rattle.cursor.specs.Answer.{refuses, pick};
ghost use Rattle.cursor.specs.Answers.{count_answer};
ghost use Rattle.sheet.specs.Sheet.{mark_of};
ghost use Rattle.body.specs.Reader.{verdict_on};
ghost use Rattle.nest.specs.Nested.{past_value, deepest_body, inner_flags, words_at, renumbered};
ghost use Rattle.nest.specs.Going.{Near, Stopped, Passed, Meets};
ghost use Rattle.nest.specs.Pieces.{last_of, instance_token, token_event, began_event, held_event, set_at, numbers_to, verdict_answer, VerdictLaid, Numbered, WalkRead, window_by};

use cursor::{Counted, Refusal};
use tokens::{Flags, Held, Instance, Sight, Token, Values};
use value::Kind;

// Not a refusal of document 01: the stacks are full.
pub const FULL: u8 = 0;

// Refusals of document 02.
const NINTH_LEVEL: u8 = 21;

const PAST_VALUE: u8 = 29;

// Where a walk stands: between tokens, or among the values of the instance at a place.
#[derive(Clone, Copy)]
pub enum Place {
    Between(usize),
    Inside(usize, Values),
}

// What a walk meets next, and where it stands then. (The place comes first in each, and a refusal has a byte and a position as a place has:
// the answers lie over each other, and where a byte of one lay over a position of another, a record took half as long again.)
#[derive(Clone, Copy)]
pub enum Event {
    // An instance's token so far, as long as its head. (The other tokens are noted as they are read, by `run`, as far as their words find room.)
    Token(Place, Token),
    // A body, where its value starts, and its size.
    Body(Place, usize, usize),
    // An instance's token, all its values having been read.
    Ended(Place, Token),
    // A header, or a value that holds no body. (`run` and `among` go on by themselves.)
    Moved(Place),
    Over(Place),
    Refused(Refusal),
}

// Where a walk stops: what it meets there, how many tokens have been numbered, and how many of its own there are.
#[derive(Clone, Copy)]
pub struct Stop {
    pub event: Event,
    pub n: usize,
    pub k: usize,
}

// The walk of a window: its tokens' words, those of the bodies in its values after their instance, and the owners of each, from number `first`
// on, where there is room. It answers how many tokens have been numbered.
pub(crate) fn walk(
    s: &[u8],
    start: usize,
    end: usize,
    inside: bool,
    flags: Flags,
    left: u64,
    first: usize,
    marks: &mut [u8],
    numbers: &mut [u32],
    words: &mut [u32],
    sheet: &mut [u64],
    table: &mut [u32],
) -> Counted
    requires left_le_deepest_body { (left ≤ deepest_body) × (first ≤ start) × (start ≤ length s.now) × (length s.now ≤ 65536) }
    requires marks_len { (length marks.old ≡ length numbers.old) × (length marks.old ≤ length words.old) }
    ensures { WalkRead s.now (length marks.old) (window_by s.now left inside flags first start end) first inside end sheet.old sheet.new table.old table.new (count_answer result) }
{
    let mut place = Place::Between(start);
    let mut n = first;
    let mut own = first;
    let mut k: usize = 0;
    loop {
        let stop = next(s, end, flags, left, place, n, k, marks, numbers, sheet);
        n = stop.n;
        k = stop.k;
        let event = stop.event;
        match event {
            Event::Token(on, t) => {
                note(marks, numbers, sheet, k, n, left, t);
                own = n;
                n += 1;
                k += 1;
                place = on;
            }
            Event::Body(back, at, size) => {
                n = walk(
                    s,
                    at,
                    at + size,
                    true,
                    without_dependencies(flags),
                    left - 1,
                    n,
                    &mut marks[k..],
                    &mut numbers[k..],
                    words,
                    sheet,
                    table,
                )?;
                place = back;
            }
            Event::Ended(after, t) => {
                put_words(sheet, own, left, t);
                place = after;
            }
            Event::Moved(to) => place = to,
            Event::Over(last) => return closed(
                start, end, inside, last, k, n, marks, numbers, words, table,
            ),
            Event::Refused(r) => return Err(r),
        }
    }
}

fn without_dependencies(flags: Flags) -> Flags
    ensures { result ≡ inner_flags flags.inline }
{
    Flags {
        dependencies: false,
        inline: flags.inline,
    }
}

// What the walk meets next that is no token of a run.
fn next(
    s: &[u8],
    end: usize,
    flags: Flags,
    left: u64,
    place: Place,
    n: usize,
    k: usize,
    marks: &mut [u8],
    numbers: &mut [u32],
    sheet: &mut [u64],
) -> Stop
    requires left_le_deepest_body { (left ≤ deepest_body) × (length s.now ≤ 65536) × Near s.now place n }
    requires marks_len { (length marks.old ≡ length numbers.old) × (k ≤ length marks.old) × (k ≤ n) }
    ensures { Meets s.now end flags left place n k marks.old numbers.old sheet.old marks.new numbers.new sheet.new result }
{
    match place {
        Place::Between(at) => run(s, at, end, flags, left, n, k, marks, numbers, sheet),
        Place::Inside(at, values) => Stop {
            event: among(s, at, values, left),
            n,
            k,
        },
    }
}

// The tokens from a position on that are no instance, each noted, up to what is none or finds no room. (Each is matched where it was read:
// handed on as an event it went through memory, and a token took 150 instructions where it takes 84. And room is asked for once: a second
// test of each token took a twentieth of the time.)
fn run(
    s: &[u8],
    at: usize,
    end: usize,
    flags: Flags,
    left: u64,
    n: usize,
    k: usize,
    marks: &mut [u8],
    numbers: &mut [u32],
    sheet: &mut [u64],
) -> Stop
    requires left_le_deepest_body { (left ≤ deepest_body) × (length s.now ≤ 65536) × (n ≤ at) × (at ≤ length s.now) }
    requires marks_len { (length marks.old ≡ length numbers.old) × (k ≤ length marks.old) × (k ≤ n) }
    ensures { Stopped s.now end flags left at n k marks.old numbers.old sheet.old marks.new numbers.new sheet.new result }
{
    let mut here = at;
    let ahead = n - k;
    let mut i = k;
    let room = marks.len().min((sheet.len() / 2).saturating_sub(ahead));
    loop {
        match tokens::look(s, here, end, flags) {
            Ok((Sight::Token(t), c)) => {
                if room <= i {
                    return Stop {
                        event: placed(Place::Between(c.at), t, i < marks.len()),
                        n: ahead + i,
                        k: i,
                    };
                }
                note_whole(marks, numbers, sheet, i, ahead + i, left, t);
                here = c.at;
                i += 1;
            }
            Ok((Sight::Instance(x), c)) => return Stop {
                event: began(here, x, c.at, i < marks.len()),
                n: ahead + i,
                k: i,
            },
            Ok((Sight::Header, c)) => here = c.at,
            Ok((Sight::Over, c)) => return Stop {
                event: Event::Over(Place::Between(c.at)),
                n: ahead + i,
                k: i,
            },
            Err(r) => return Stop {
                event: Event::Refused(r),
                n: ahead + i,
                k: i,
            },
        }
    }
}

// An instance's head, from its place to `next`: its token so far.
fn began(place: usize, i: Instance, next: usize, room: bool) -> Event
    ensures { result ≡ began_event room place i next }
{
    placed(
        Place::Inside(place, Values::of(i)),
        instance_token(place, next),
        room,
    )
}

// A token needs a place on the stacks; it is noted where there is room for its words or not.
fn placed(to: Place, t: Token, room: bool) -> Event
    ensures { result ≡ token_event room t to }
{
    if room {
        return Event::Token(to, t);
    }
    Event::Refused(Refusal {
        number: FULL,
        place: 0,
    })
}

// The next value of the instance at `at` that holds a body, or what ends its values; the others are passed.
fn among(s: &[u8], at: usize, values: Values, left: u64) -> Event
    requires { length s.now ≤ 65536 }
    ensures { Passed s.now left at values result }
{
    let mut here = values;
    loop {
        match here.next(s) {
            Ok(Some((v, size, rest))) => {
                if v.code == Kind::BIN_XML {
                    return held(v.code, v.start, size, Place::Inside(at, rest), left);
                }
                here = rest;
            }
            Ok(None) => return Event::Ended(Place::Between(here.at), instance_token(at, here.at)),
            Err(r) => return Event::Refused(r),
        }
    }
}

// A value that was read: one of type 21 holds a body, where a level is left for it.
fn held(code: u8, start: usize, size: u16, to: Place, left: u64) -> Event
    ensures { result ≡ held_event left code start size to }
{
    if code != Kind::BIN_XML {
        return Event::Moved(to);
    }
    if left == 0 {
        return Event::Refused(Refusal {
            number: NINTH_LEVEL,
            place: start,
        });
    }
    Event::Body(to, start, size as usize)
}

// An instance's token, from its place to `next`.
fn instance_token(place: usize, next: usize) -> Token
    ensures { result ≡ instance_token place next }
{
    Token {
        place,
        len: next.saturating_sub(place),
        kind: Token::INSTANCE,
        number: 0,
        flag: false,
        announced: false,
        name: 0,
        held: Held::Nothing,
    }
}

// Token n, the body's own k-th: its mark and its number on the stacks, and its words in the sheet.
fn note(
    marks: &mut [u8],
    numbers: &mut [u32],
    sheet: &mut [u64],
    k: usize,
    n: usize,
    left: u64,
    t: Token,
)
    requires { (k < length marks.old) × (k < length numbers.old) × (n < 65536) × (left ≤ deepest_body) }
    ensures marks_after { marks.new ≡ set marks.old k (mark_of t) }
    ensures numbers_after { numbers.new ≡ set numbers.old k n }
    ensures sheet_after { sheet.new ≡ sets sheet.old (n * 2) (words_at (deepest_body - left) t) }
{
    marks[k] = sheet::mark(t);
    numbers[k] = n as u32;
    put_words(sheet, n, left, t);
}

// The same where there is room for both words.
fn note_whole(
    marks: &mut [u8],
    numbers: &mut [u32],
    sheet: &mut [u64],
    k: usize,
    n: usize,
    left: u64,
    t: Token,
)
    requires k_in_bounds { (k < length marks.old) × (k < length numbers.old) × (n < 65536) × (left ≤ deepest_body) }
    requires n_in_bounds { n * 2 + 1 < length sheet.old }
    ensures marks_after { marks.new ≡ set marks.old k (mark_of t) }
    ensures numbers_after { numbers.new ≡ set numbers.old k n }
    ensures sheet_after { sheet.new ≡ sets sheet.old (n * 2) (words_at (deepest_body - left) t) }
{
    marks[k] = sheet::mark(t);
    numbers[k] = n as u32;
    let at = n * 2;
    sheet[at] = sheet::first_word(t) + (8 - left) * 0x10;
    sheet[at + 1] = sheet::second_word(t);
}

// The words of token n.
fn put_words(sheet: &mut [u64], n: usize, left: u64, t: Token)
    requires { (n ≤ 65536) × (left ≤ deepest_body) }
    ensures { sheet.new ≡ sets sheet.old (n * 2) (words_at (deepest_body - left) t) }
{
    put_both(
        sheet,
        n,
        sheet::first_word(t) + (8 - left) * 0x10,
        sheet::second_word(t),
    );
}

// Both, or the first alone where there is room for one.
fn put_both(sheet: &mut [u64], n: usize, first: u64, second: u64)
    requires { n ≤ 65536 }
    ensures { sheet.new ≡ sets sheet.old (n * 2) (first ∷ second ∷ []) }
{
    let at = n * 2;
    if n < sheet.len() / 2 {
        sheet[at] = first;
        sheet[at + 1] = second;
        return;
    }
    put(sheet, at, first);
}

// A word at its place in a buffer, where that has room for it.
fn put<T: Copy>(buffer: &mut [T], at: usize, word: T)
    ensures { buffer.new ≡ set buffer.old at word }
{
    if at < buffer.len() {
        buffer[at] = word;
    }
}

// A window whose walk has ended, with k tokens of its own, n having been numbered: a walk in a value must have ended within it, and its tokens
// must be a body.
fn closed(
    start: usize,
    end: usize,
    inside: bool,
    last: Place,
    k: usize,
    n: usize,
    marks: &[u8],
    numbers: &[u32],
    words: &mut [u32],
    table: &mut [u32],
) -> Counted
    requires k_in_bounds { (k ≤ length marks.now) × (k ≤ length numbers.now) × (k ≤ 65536) × (k ≤ length words.old) }
    requires numbered { Numbered numbers.now k n }
    ensures result_value { count_answer result ≡ pick (inside && ltb end (last_of last)) (refuses past_value start) (verdict_answer n (numbers_to k n numbers.now) (verdict_on (take k marks.now))) }
    ensures verdict_laid { (inside && ltb end (last_of last)) ≡ false → VerdictLaid (take k numbers.now) (numbers_to k n numbers.now) (verdict_on (take k marks.now)) table.old table.new }
{
    if past(inside, end, last) {
        return cursor::refuse(PAST_VALUE, start);
    }
    judged(k, n, marks, numbers, words, table)
}

// Where a walk stands: between tokens its position, and among values where their instance is.
fn position(place: Place) -> usize
    ensures { result ≡ last_of place }
{
    match place {
        Place::Between(at) => at,
        Place::Inside(at, _) => at,
    }
}

// A walk in a value has ended past it.
fn past(inside: bool, end: usize, last: Place) -> bool
    ensures { result ≡ (inside && ltb end (last_of last)) }
{
    inside && end < position(last)
}

// The grammar's verdict on a body's own tokens, and their owners, numbered through. (What a refusal leaves in the table nobody reads.)
fn judged(
    k: usize,
    n: usize,
    marks: &[u8],
    numbers: &[u32],
    words: &mut [u32],
    table: &mut [u32],
) -> Counted
    requires k_in_bounds { (k ≤ length marks.now) × (k ≤ length numbers.now) × (k ≤ 65536) × (k ≤ length words.old) }
    requires numbered { Numbered numbers.now k n }
    ensures result_value { count_answer result ≡ verdict_answer n (numbers_to k n numbers.now) (verdict_on (take k marks.now)) }
    ensures verdict_laid { VerdictLaid (take k numbers.now) (numbers_to k n numbers.now) (verdict_on (take k marks.now)) table.old table.new }
{
    if n == k {
        return judged_alone(k, n, marks, numbers, table);
    }
    judged_among(k, n, marks, numbers, words, table)
}

// Where no token but the body's own is numbered, the number of each is its place: the words stay, and are noted in the table at once.
fn judged_alone(k: usize, n: usize, marks: &[u8], numbers: &[u32], table: &mut [u32]) -> Counted
    requires k_in_bounds { (k ≤ length marks.now) × (k ≤ length numbers.now) × (k ≤ 65536) × (n ≡ k) }
    requires numbered { Numbered numbers.now k n }
    ensures result_value { count_answer result ≡ verdict_answer n (numbers_to k n numbers.now) (verdict_on (take k marks.now)) }
    ensures verdict_laid { VerdictLaid (take k numbers.now) (numbers_to k n numbers.now) (verdict_on (take k marks.now)) table.old table.new }
{
    match body::judge(&marks[..k], table) {
        Ok(_) => Ok(n),
        Err(r) => refused_at(numbers, k, n, r),
    }
}

fn judged_among(
    k: usize,
    n: usize,
    marks: &[u8],
    numbers: &[u32],
    words: &mut [u32],
    table: &mut [u32],
) -> Counted
    requires k_in_bounds { (k ≤ length marks.now) × (k ≤ length numbers.now) × (k ≤ 65536) × (k ≤ length words.old) }
    requires numbered { Numbered numbers.now k n }
    ensures result_value { count_answer result ≡ verdict_answer n (numbers_to k n numbers.now) (verdict_on (take k marks.now)) }
    ensures verdict_laid { VerdictLaid (take k numbers.now) (numbers_to k n numbers.now) (verdict_on (take k marks.now)) table.old table.new }
{
    match body::judge(&marks[..k], words) {
        Ok(_) => {
            lay(numbers, k, n, words, table);
            Ok(n)
        }
        Err(r) => refused_at(numbers, k, n, r),
    }
}

// The grammar's refusal, which names a token by its number.
fn refused_at(numbers: &[u32], k: usize, n: usize, r: Refusal) -> Counted
    requires k_in_bounds { k ≤ length numbers.now }
    requires numbered { Numbered numbers.now k n }
    ensures { count_answer result ≡ refuses r.number (get_or (numbers_to k n numbers.now) r.place 0) }
{
    cursor::refuse(r.number, number_of(numbers, k, n, r.place))
}

// The owners of a body's own tokens, each at its number.
fn lay(numbers: &[u32], k: usize, n: usize, words: &[u32], table: &mut [u32])
    requires k_in_bounds { (k ≤ length numbers.now) × (k ≤ length words.now) }
    requires numbered { Numbered numbers.now k n }
    ensures { table.new ≡ set_at (take k numbers.now) (map (renumbered (numbers_to k n numbers.now)) (take k words.now)) table.old }
{
    for i in 0..k {
        put(
            table,
            numbers[i] as usize,
            renumbered(numbers, k, n, words[i]),
        );
    }
}

fn renumbered(numbers: &[u32], k: usize, n: usize, word: u32) -> u32
    requires k_in_bounds { k ≤ length numbers.now }
    requires numbered { Numbered numbers.now k n }
    ensures { result ≡ renumbered (numbers_to k n numbers.now) word }
{
    if word == 0 {
        return 0;
    }
    number_of(numbers, k, n, (word - 1) as usize) as u32 + 1
}

// The number of a body's own token i; after the last one, how many there are.
fn number_of(numbers: &[u32], k: usize, n: usize, i: usize) -> usize
    requires k_in_bounds { k ≤ length numbers.now }
    requires numbered { Numbered numbers.now k n }
    ensures { (result ≡ get_or (numbers_to k n numbers.now) i 0) × (result ≤ 65536) }
{
    if i < k {
        return numbers[i] as usize;
    }
    if i == k {
        return n;
    }
    0
}
