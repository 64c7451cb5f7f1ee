// The answer of the batch's mode that merges two lists of writes (M): what the C call answers and what it leaves in the lent words, as text
// behind what is in a lent buffer.
#![tactic(auto)]

ghost use Rattle.std.specs.Prelude.{◌≡◌, ◌+◌, ◌*◌, ◌≤◌, length, take};
ghost use Rattle.cursor.specs.Reads.{number_of};
ghost use Rattle.print.specs.Text.{Puts, PutsSome};
ghost use Rattle.stream_answers.specs.Modes.{answer_text, words_text};
ghost use Rattle.stream_answers.specs.Kept.{stored_words};
ghost use Rattle.merge_answers.specs.Merged.{most_given, count_at, primary_in, other_in, room_in, lent_in, rule_by, MergeCalled};

// Mode M's data begins with how many words each list has and how many are lent.
pub const FRONT: usize = 12;

// The most words of a list: a case's data holds no more.
const MOST_GIVEN: usize = 41470;

// Mode M: rule two, or rule one. The primary's words stand behind the front, the other's behind them. The words that are lent are the first
// of those that are there, or all of them.
pub fn merged(out: &mut [u8], at: usize, bytes: &[u8], newest: bool) -> usize
    ensures { PutsSome (MergeCalled (primary_in bytes.now) (other_in bytes.now) (rule_by newest) (lent_in bytes.now)) out.old at out.new result }
{
    let mut first = [0u64; MOST_GIVEN];
    let mut second = [0u64; MOST_GIVEN];
    let mut words = [0xFFFF_FFFF_FFFF_FFFFu64; 65536];
    let a = count(bytes, 0);
    let primary = &mut first[..a];
    load(bytes, FRONT, primary);
    let b = count(bytes, 4);
    let other = &mut second[..b];
    load(bytes, FRONT + 8 * a, other);
    let room = (cursor::u32_at(bytes, 8) as usize).min(65536);
    called(out, at, newest, primary, other, &mut words[..room])
}

// How much data a case has, as its front says.
pub fn front(bytes: &[u8]) -> usize
    ensures { result ≡ 12 + 8 * number_of bytes.now 0 4 + 8 * number_of bytes.now 4 4 }
{
    FRONT + 8 * (cursor::u32_at(bytes, 0) as usize) + 8 * (cursor::u32_at(bytes, 4) as usize)
}

// The merge of the two lists, and what it leaves in the lent words.
fn called(
    out: &mut [u8],
    at: usize,
    newest: bool,
    primary: &[u64],
    other: &[u64],
    words: &mut [u64],
) -> usize
    ensures { PutsSome (MergeCalled primary.now other.now (rule_by newest) words.old) out.old at out.new result }
{
    let r = merge_call::doortumble_merge(primary, other, newest as u32, words);
    let end = said(out, at, r);
    words_line(out, end, words)
}

// The answer's word, and the words that were lent.
fn said(out: &mut [u8], at: usize, word: u64) -> usize
    ensures { Puts (answer_text word) out.old at out.new result }
{
    let a = print::text(out, at, b"answer ");
    let b = print::hex_word(out, a, word);
    print::byte(out, b, b'\n')
}

fn words_line(out: &mut [u8], at: usize, words: &[u64]) -> usize
    ensures { Puts (words_text words.now) out.old at out.new result }
{
    let a = print::text(out, at, b"words");
    let b = print::hex_words(out, a, words);
    print::byte(out, b, b'\n')
}

// How many words a list has, as four bytes at a place say.
fn count(bytes: &[u8], at: usize) -> usize
    ensures { (result ≡ count_at bytes.now at) × (result ≤ most_given) }
{
    (cursor::u32_at(bytes, at) as usize).min(MOST_GIVEN)
}

// Words of eight bytes each from a place on.
fn load(bytes: &[u8], from: usize, words: &mut [u64])
    requires { (length words.old ≤ most_given) × (from ≤ 12 + 8 * most_given) }
    ensures { words.new ≡ stored_words (length words.old) bytes.now from }
{
    for (i, word) in words.iter_mut().enumerate() {
        *word = cursor::u64_at(bytes, from + 8 * i);
    }
}
