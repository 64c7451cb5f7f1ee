// Names in a token stream: offset names and inline names, and the hash of a name. The Rust: binxml/name.rs.
#![tactic(auto)]

mod inline;
mod lookup;
mod offset;

ghost use Rattle.std.specs.Prelude.{◌≡◌, [], ◌∷◌};
ghost use Rattle.cursor.specs.Text.{units_of};
ghost use Rattle.cursor.specs.Answer.{gives};
ghost use Rattle.cursor.specs.Answers.{count_answer, read_answer};
ghost use Rattle.cursor.specs.Lent.{lent_left};
ghost use Rattle.name.specs.Hash.{hash_of, mixed};
ghost use Rattle.name.specs.Lookup.{looked_up, found_answer, found_words, found_word};
ghost use Rattle.name.specs.Name.{name_at, name_of, soundness_of};

use cursor::{Counted, Cursor, Read, Refusal, refuse, unit_at};
use lookup::Found;

// Whether a name's units are well-formed UTF-16. An offset name's are not judged, which is no case of sound.
#[derive(Clone, Copy, PartialEq, Eq)]
pub enum Soundness {
    Sound,
    Unsound,
    NotJudged,
}

// A name: its offset (of an inline name, where it starts), where its units stand, how many they are, and whether they are sound.
// Of an offset name that does not stand in place only the offset was read: no units, at 0.
#[derive(Clone, Copy)]
pub struct Name {
    pub offset: usize,
    pub units: usize,
    pub count: usize,
    pub soundness: Soundness,
}

// Every name is made here.
pub(crate) fn named(offset: usize, units: usize, count: usize, soundness: Soundness) -> Name
    ensures { result ≡ name_of offset units count soundness }
{
    Name {
        offset,
        units,
        count,
        soundness,
    }
}

// What is said of an inline name's units, all of them.
pub(crate) fn soundness_of(units: &[u8]) -> Soundness
    ensures { result ≡ soundness_of (units_of units.now) }
{
    if cursor::well_formed(units) {
        Soundness::Sound
    } else {
        Soundness::Unsound
    }
}

// Reads the name at the cursor.
pub fn read_name_ref(c: Cursor, s: &[u8], inline: bool) -> Read<Name>
    ensures { read_answer result ≡ name_at s.now c.at inline }
{
    if inline {
        inline::read_inline_name(c, s)
    } else {
        offset::read_offset_name_ref(c, s)
    }
}

// The name at an offset, as a word in lent ones: where its units start, how many they are, whether they are sound, and whether the hash that is
// stored before them is theirs. It answers how many units there are.
pub fn look_up(s: &[u8], offset: u32, inline: bool, word: &mut [u64]) -> Counted
    ensures result_value { count_answer result ≡ found_answer (looked_up s.now offset inline) word.old }
    ensures word_after { word.new ≡ lent_left (found_words (looked_up s.now offset inline)) word.old }
{
    let f = lookup::look_up(s, offset, inline)?;
    laid(f, word)
}

fn laid(f: Found, word: &mut [u64]) -> Counted
    ensures result_value { count_answer result ≡ found_answer (gives f) word.old }
    ensures word_after { word.new ≡ lent_left (gives (found_word f ∷ [])) word.old }
{
    if word.is_empty() {
        return refuse(Refusal::NO_ROOM, 1);
    }
    word[0] = word_of(f);
    Ok(f.count)
}

fn word_of(f: Found) -> u64
    ensures { result ≡ found_word f }
{
    let start = (f.units % 0x1_0000_0000) as u64;
    let count = (f.count % 0x1_0000) as u64;
    start * 0x1_0000_0000 + count * 0x100 + cursor::bit(f.sound) * 2 + cursor::bit(f.hashed)
}

// The hash of a run of units.
#[tactic(auto, using(crate::proofs::Hash::hash_more, crate::proofs::Hash::hash_end, cursor::proofs::Units::units_length))]
pub fn name_hash(units: &[u8]) -> u16
    ensures { result ≡ hash_of (units_of units.now) }
{
    let mut h: u32 = 0;
    for n in 0..units.len() / 2 {
        h = mix(h, unit_at(units, n));
    }
    (h % 0x1_0000) as u16
}

// One unit more, a line for each step of the tables (document 02, P6): "the old value moved up by 16, plus moved up by 6, less itself,
// plus the unit", each modulo 2^32. docs/HASH.md has names worked out so.
fn mix(h: u32, unit: u16) -> u32
    ensures { result ≡ mixed h unit }
{
    let moved_up_by_16 = h << 16;
    let plus_moved_up_by_6 = moved_up_by_16.wrapping_add(h << 6);
    let less_itself = plus_moved_up_by_6.wrapping_sub(h);
    let plus_the_unit = less_itself.wrapping_add(unit as u32);
    plus_the_unit
}
