// The answers of the batch's modes that ask for what an event says (E) and for the name at an offset (J): what the C calls answer and what
// they leave in the lent words, as text behind what is in a lent buffer.
#![tactic(auto)]

ghost use Rattle.std.specs.Prelude.{◌≡◌, ◌-◌, ◌^◌, take, drop};
ghost use Rattle.print.specs.Text.{Puts, PutsSome};
ghost use Rattle.stream_answers.specs.Modes.{room_in, stream_of, lent_words, answer_text, words_text};
ghost use Rattle.event_answers.specs.Called.{EventCalled, name_text};

// The data begins with how many words are lent, in so many bytes.
pub const ROOM: usize = 4;

// Mode E: the rows of an event.
pub fn event_rows(
    out: &mut [u8],
    at: usize,
    bytes: &[u8],
    start: u32,
    length: u32,
    inline: bool,
) -> usize
    ensures { PutsSome (EventCalled (stream_of bytes.now) start length inline (lent_words bytes.now (2 ^ 64 - 1))) out.old at out.new result }
{
    let mut words = [0xFFFF_FFFF_FFFF_FFFFu64; 65536];
    event_of(out, at, bytes, start, length, inline, &mut words)
}

// The words that are lent are the first of those that are there, or all of them.
fn event_of(
    out: &mut [u8],
    at: usize,
    bytes: &[u8],
    start: u32,
    length: u32,
    inline: bool,
    words: &mut [u64],
) -> usize
    ensures { PutsSome (EventCalled (stream_of bytes.now) start length inline (take (room_in bytes.now) words.old)) out.old at out.new result }
{
    let n = (cursor::u32_at(bytes, 0) as usize).min(words.len());
    event_in(
        out,
        at,
        behind(bytes),
        start,
        length,
        inline,
        &mut words[..n],
    )
}

fn event_in(
    out: &mut [u8],
    at: usize,
    s: &[u8],
    start: u32,
    length: u32,
    inline: bool,
    words: &mut [u64],
) -> usize
    ensures { PutsSome (EventCalled s.now start length inline words.old) out.old at out.new result }
{
    let r = event_call::doortumble_event(s, start, length, u32::from(inline), words);
    let end = said(out, at, r);
    words_line(out, end, words)
}

// Mode J: the name at an offset.
pub fn looked_up(out: &mut [u8], at: usize, bytes: &[u8], offset: u32, inline: bool) -> usize
    ensures { Puts (name_text (stream_of bytes.now) offset inline (lent_words bytes.now (2 ^ 64 - 1))) out.old at out.new result }
{
    let mut words = [0xFFFF_FFFF_FFFF_FFFFu64; 65536];
    name_of(out, at, bytes, offset, inline, &mut words)
}

fn name_of(
    out: &mut [u8],
    at: usize,
    bytes: &[u8],
    offset: u32,
    inline: bool,
    words: &mut [u64],
) -> usize
    ensures { Puts (name_text (stream_of bytes.now) offset inline (take (room_in bytes.now) words.old)) out.old at out.new result }
{
    let n = (cursor::u32_at(bytes, 0) as usize).min(words.len());
    name_in(out, at, behind(bytes), offset, inline, &mut words[..n])
}

fn name_in(
    out: &mut [u8],
    at: usize,
    s: &[u8],
    offset: u32,
    inline: bool,
    words: &mut [u64],
) -> usize
    ensures { Puts (name_text s.now offset inline words.old) out.old at out.new result }
{
    let r = event_call::doortumble_name(s, offset, u32::from(inline), words);
    let end = said(out, at, r);
    words_line(out, end, words)
}

// What stands behind the front of a case's data: the stream.
fn behind(bytes: &[u8]) -> &[u8]
    ensures { result.now ≡ drop 4 bytes.now }
{
    &bytes[ROOM.min(bytes.len())..]
}

// The answer's word, and the words that were lent.
fn said(out: &mut [u8], at: usize, word: u64) -> usize
    ensures { Puts (answer_text word) out.old at out.new result }
{
    let a = print::text(out, at, b"answer ");
    let b = print::hex_word(out, a, word);
    print::byte(out, b, b'\n')
}

fn words_line(out: &mut [u8], at: usize, words: &[u64]) -> usize
    ensures { Puts (words_text words.now) out.old at out.new result }
{
    let a = print::text(out, at, b"words");
    let b = print::hex_words(out, a, words);
    print::byte(out, b, b'\n')
}
