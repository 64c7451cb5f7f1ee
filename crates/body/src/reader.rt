// The readers of the grammar, over the marks of tokens. Element and content reader call each other.
//
// Each puts the words of the tokens that it reads into a table, where the table has room. A word is the owner's number plus 1, or 0.
//
// The loops over marks go by an index: it moves by what was read, and the words stand at the same index of the table. Marks and table stay two
// parameters: in a struct the table would be a `&mut` behind a `&mut`, and each clause on it would speak of its ghost name.
ghost use Rattle.std.specs.Prelude.{◌≡◌, true, false, [], ◌+◌, ◌≤◌, ◌<◌, length, get_or, Err};
ghost use Rattle.tokens.specs.Token.{close_element_kind, attribute_kind, pi_target_kind};
ghost use Rattle.body.specs.Grammar.{announces};
ghost use Rattle.body.specs.Reader.{misread_of, is_open, is_item, is_leaf, lacking_of, TokenAt, further, TagFurther, ElementRead, Placed, ContentRead, LeafRead, LeavesRead, TagRead, OpenRead, TagEndRead, PairRead, PartRead, whole_of, walk, begin, root, inside};

use cursor::Refusal;
use sheet::put;
use tokens::Token;

// Why a reader refuses. (The place comes first: it then lies in memory where the next token's number does. An element's answer goes through
// memory, and a byte laid over that number had it put there in pieces.)
#[derive(Clone, Copy)]
pub struct Misread {
    pub place: usize,
    pub number: u8,
}

// Outside the readers it is the refusal of all crates.
impl From<Misread> for Refusal {
    ghost use Rattle.std.specs.Prelude.{◌≡◌};
    ghost use Rattle.cursor.specs.Answers.{refusal_of};

    ghost from_gives = { λ m r. r ≡ refusal_of m.number m.place };

    fn from(m: Misread) -> Refusal {
        Refusal {
            number: m.number,
            place: m.place,
        }
    }
}

// How far the front of an element was read, with the token after that: the element is over, or its content goes on there.
#[derive(Clone, Copy)]
pub enum Tag {
    Empty(usize),
    Full(usize),
}

// A refusal as a reader's answer, of whatever else would be answered.
fn refuse<T>(number: u8, place: usize) -> Result<T, Misread>
    ensures { result ≡ Err (misread_of number place) }
{
    Err(Misread { place, number })
}

// Reads a whole body: "at most one target and data pair, then one instance or element, then at most one pair".
pub(crate) fn whole(marks: &[u8], table: &mut [u32]) -> Result<usize, Misread>
    requires { length marks.now ≤ 65536 }
    ensures { whole_of result table.new ≡ walk marks.now begin 0 table.old }
{
    let at = leading(marks, table)?;
    let next = root_at(marks, at, table)?;
    closing(marks, next, table)
}

// Reads the pair before the root, where there is one.
fn leading(marks: &[u8], table: &mut [u32]) -> Result<usize, Misread>
    ensures { PartRead begin root marks.now 0 table.old result table.new }
{
    if marks.len() == 0 {
        return Ok(0);
    }
    if marks[0] != Token::PI_TARGET {
        return Ok(0);
    }
    instruction(marks, 0, 0, table)
}

// Reads the root: an element or an instance.
fn root_at(marks: &[u8], at: usize, table: &mut [u32]) -> Result<usize, Misread>
    requires { length marks.now ≤ 65536 }
    ensures { PartRead root (inside []) marks.now at table.old result table.new }
{
    if at >= marks.len() {
        return refuse(Refusal::UNFINISHED, at);
    }
    if is_open(marks[at]) {
        return content(marks, at, 0, 0, table);
    }
    if marks[at] == Token::INSTANCE {
        put(table, at, 0);
        return Ok(at + 1);
    }
    refuse(Refusal::NO_BODY, at) // the root is an instance or an element
}

// Reads what follows the root: a pair or nothing.
fn closing(marks: &[u8], at: usize, table: &mut [u32]) -> Result<usize, Misread>
    ensures { whole_of result table.new ≡ walk marks.now (inside []) at table.old }
{
    if at >= marks.len() {
        return Ok(at);
    }
    if marks[at] != Token::PI_TARGET {
        return refuse(Refusal::NO_BODY, at); // only a pair follows the root
    }
    let next = instruction(marks, at, 0, table)?;
    if next < marks.len() {
        return refuse(Refusal::NO_BODY, next); // "then at most one pair": nothing follows it
    }
    Ok(next)
}

// Reads the element whose open token is at `at`, with the word `owner`, below `above` open elements.
#[cycle(content_element)]
fn element(
    marks: &[u8],
    at: usize,
    above: usize,
    owner: u32,
    table: &mut [u32],
) -> Result<usize, Misread>
    requires { TokenAt marks.now at }
    ensures further { further marks.now at result }
    ensures element_read { ElementRead marks.now at above owner table.old result table.new }
{
    if above >= 64 {
        return refuse(Refusal::TOO_DEEP, at);
    }
    put(table, at, owner);
    let me = (at + 1) as u32;
    match front(marks, at, me, table)? {
        Tag::Empty(next) => Ok(next),
        Tag::Full(next) => content(marks, next, above + 1, me, table),
    }
}

// Reads content from `at` on, through the close element token of its element, whose word is `me` and which is the one of this level; or at
// level 0 the root alone, whose open token is at `at`. (The root is read here since `element` then has one caller, and is compiled into this
// loop: only content that has elements in it is a call.)
#[cycle(content_element)]
fn content(
    marks: &[u8],
    at: usize,
    level: usize,
    me: u32,
    table: &mut [u32],
) -> Result<usize, Misread>
    requires { (at ≤ length marks.now) × (length marks.now ≤ 65536) × Placed marks.now at level me }
    ensures further { further marks.now at result }
    ensures content_read { ContentRead marks.now at level me table.old result table.new }
{
    let mut i = at;
    while i < marks.len() {
        if is_open(marks[i]) {
            i = element(marks, i, level, me, table)?;
            if level == 0 {
                return Ok(i);
            }
        } else if marks[i] == Token::CLOSE_ELEMENT {
            put(table, i, me);
            return Ok(i + 1);
        } else {
            i = leaf(marks, i, me, table)?;
        }
    }
    refuse(Refusal::UNFINISHED, i)
}

// Reads what content holds beside elements: an item, CDATA, or an instruction.
fn leaf(marks: &[u8], at: usize, me: u32, table: &mut [u32]) -> Result<usize, Misread>
    requires { (at < length marks.now) × (get_or marks.now at 0 ≡ close_element_kind → ⊥) × (is_open (get_or marks.now at 0) ≡ false) }
    ensures further { further marks.now at result }
    ensures leaf_read { LeafRead marks.now at me table.old result table.new }
{
    let k = marks[at];
    if k == Token::PI_TARGET {
        return instruction(marks, at, me, table);
    }
    if is_leaf(k) {
        put(table, at, me);
        return Ok(at + 1);
    }
    refuse(Refusal::NO_BODY, at)
}

// Reads a PI target and the PI data that must follow it, each with the word `me`: in content, or around the root.
fn instruction(marks: &[u8], at: usize, me: u32, table: &mut [u32]) -> Result<usize, Misread>
    requires { (at < length marks.now) × (get_or marks.now at 0 ≡ pi_target_kind) }
    ensures further { further marks.now at result }
    ensures pair_read { PairRead marks.now at me table.old result table.new }
{
    put(table, at, me);
    if at + 1 >= marks.len() {
        return refuse(Refusal::UNFINISHED, at + 1);
    }
    if marks[at + 1] != Token::PI_DATA {
        return refuse(Refusal::NO_BODY, at + 1); // nothing else may follow a target
    }
    put(table, at + 1, me);
    Ok(at + 2)
}

// Reads the front of an element, whose open token is at `at` and has the word `me` for what it owns: the open tag, and of its content the
// tokens before the first element or instruction. An element without these is read whole.
fn front(marks: &[u8], at: usize, me: u32, table: &mut [u32]) -> Result<Tag, Misread>
    requires { TokenAt marks.now at }
    ensures tag_further { TagFurther marks.now (at + 1) result }
    ensures open_read { OpenRead marks.now at me table.old result table.new }
{
    match open_tag(marks, at, me, table)? {
        Tag::Empty(next) => Ok(Tag::Empty(next)),
        Tag::Full(next) => leaves(marks, next, me, table),
    }
}

// Reads items and CDATA in content, and the close element token behind them, if it is there.
fn leaves(marks: &[u8], at: usize, me: u32, table: &mut [u32]) -> Result<Tag, Misread>
    requires { at ≤ length marks.now }
    ensures { LeavesRead marks.now at me table.old result table.new }
{
    let mut i = at;
    while i < marks.len() {
        let k = marks[i];
        if is_leaf(k) {
            put(table, i, me);
            i += 1;
        } else if k == Token::CLOSE_ELEMENT {
            put(table, i, me);
            return Ok(Tag::Empty(i + 1));
        } else {
            return Ok(Tag::Full(i));
        }
    }
    Ok(Tag::Full(i))
}

// Reads an open tag, whose open token is at `at` and has the word `me` for what it owns, through its close token.
fn open_tag(marks: &[u8], at: usize, me: u32, table: &mut [u32]) -> Result<Tag, Misread>
    requires { TokenAt marks.now at }
    ensures tag_further { TagFurther marks.now (at + 1) result }
    ensures open_read { OpenRead marks.now at me table.old result table.new }
{
    if at + 1 >= marks.len() {
        return refuse(Refusal::UNFINISHED, at + 1);
    }
    if is_announcing(marks[at]) {
        return announced_tag(marks, at + 1, me, table);
    }
    plain_tag(marks, at + 1, me, table)
}

// Reads on after an open token that announces attributes: one must follow.
fn announced_tag(marks: &[u8], at: usize, me: u32, table: &mut [u32]) -> Result<Tag, Misread>
    requires { TokenAt marks.now at }
    ensures tag_further { TagFurther marks.now at result }
    ensures tag_read { TagRead true marks.now at 0 me table.old result table.new }
{
    if marks[at] == Token::ATTRIBUTE {
        return attributes(marks, at, me, table);
    }
    refuse(lacking(marks[at]), at)
}

// The number of another token's refusal there: the wide grammar goes on with a close token, so that is 20, and every other is 13.
fn lacking(mark: u8) -> u8
    ensures { result ≡ lacking_of mark }
{
    if mark == Token::CLOSE_EMPTY {
        return Refusal::DISAGREE;
    }
    if mark == Token::CLOSE_START {
        return Refusal::DISAGREE;
    }
    Refusal::NO_BODY
}

// Reads on after an open token that announces nothing: no attribute may follow.
fn plain_tag(marks: &[u8], at: usize, me: u32, table: &mut [u32]) -> Result<Tag, Misread>
    requires { at < length marks.now }
    ensures tag_further { TagFurther marks.now at result }
    ensures tag_read { TagRead false marks.now at 0 me table.old result table.new }
{
    if marks[at] == Token::ATTRIBUTE {
        return refuse(Refusal::DISAGREE, at);
    }
    tag_end(marks, at, me, table)
}

// Reads attributes with their items, the first at `at`, through the tag's close token. `last` is the last attribute's word.
fn attributes(marks: &[u8], at: usize, me: u32, table: &mut [u32]) -> Result<Tag, Misread>
    requires { (at < length marks.now) × (length marks.now ≤ 65536) × (get_or marks.now at 0 ≡ attribute_kind) }
    ensures tag_further { TagFurther marks.now at result }
    ensures tag_read { TagRead true marks.now at 0 me table.old result table.new }
{
    let mut i = at;
    let mut last: u32 = 0;
    while i < marks.len() {
        let k = marks[i];
        if k == Token::ATTRIBUTE {
            put(table, i, me);
            i += 1;
            last = i as u32;
        } else if is_item(k) {
            put(table, i, last);
            i += 1;
        } else {
            return tag_end(marks, i, me, table);
        }
    }
    refuse(Refusal::UNFINISHED, i)
}

// Reads the close token of an open tag.
fn tag_end(marks: &[u8], at: usize, me: u32, table: &mut [u32]) -> Result<Tag, Misread>
    requires { (at < length marks.now) × (get_or marks.now at 0 ≡ attribute_kind → ⊥) }
    ensures tag_further { TagFurther marks.now at result }
    ensures tag_end_read { TagEndRead marks.now at me table.old result table.new }
{
    if marks[at] == Token::CLOSE_EMPTY {
        put(table, at, me);
        return Ok(Tag::Empty(at + 1));
    }
    if marks[at] == Token::CLOSE_START {
        put(table, at, me);
        return Ok(Tag::Full(at + 1));
    }
    refuse(Refusal::NO_BODY, at) // nothing else stands in an open tag
}

// An open token, by its mark.
fn is_open(mark: u8) -> bool
    ensures { result ≡ is_open mark }
{
    mark == Token::OPEN || is_announcing(mark)
}

// One that announces attributes: the sheet marks it with its kind and 16 more.
fn is_announcing(mark: u8) -> bool
    ensures { result ≡ announces mark }
{
    mark == 18
}

// A value, a substitution, a char ref or an entity ref.
fn is_item(k: u8) -> bool
    ensures { result ≡ is_item k }
{
    match k {
        Token::VALUE | Token::SUBSTITUTION | Token::CHAR_REF | Token::ENTITY_REF => true,
        _ => false,
    }
}

// One of those, or CDATA.
fn is_leaf(k: u8) -> bool
    ensures { result ≡ is_leaf k }
{
    k == Token::CDATA || is_item(k)
}
