// The C calls of an event: each exports the function of the crate event_call that has its name, and promises what that promises. They are the
// archive libevent_call.a (command/archive makes it); the C header is include/doortumble.h.
#![tactic(auto)]

ghost use Rattle.std.specs.Prelude.{◌≡◌};
ghost use Rattle.cursor.specs.Lent.{lent_answer, lent_left};
ghost use Rattle.name.specs.Lookup.{looked_up, found_answer, found_words};
ghost use Rattle.doortumble.specs.Calls.{flag_of, packed_of};
ghost use Rattle.event.specs.Event.{definition_at_place, definition_words};
ghost use Rattle.event_call.specs.Calls.{EventPacked};

// The rows of an event, six words for each item.
#[unsafe(no_mangle)]
pub extern "C" fn doortumble_event(
    stream: &[u8],
    start: u32,
    length: u32,
    inline: u32,
    rows: &mut [u64],
) -> u64
    ensures { EventPacked stream.now start length (flag_of inline) rows.old rows.new result }
{
    event_call::doortumble_event(stream, start, length, inline, rows)
}

// The name at an offset, in one word.
#[unsafe(no_mangle)]
pub extern "C" fn doortumble_name(stream: &[u8], offset: u32, inline: u32, word: &mut [u64]) -> u64
    ensures value { result ≡ packed_of (found_answer (looked_up stream.now offset (flag_of inline)) word.old) }
    ensures word_after { word.new ≡ lent_left (found_words (looked_up stream.now offset (flag_of inline))) word.old }
{
    event_call::doortumble_name(stream, offset, inline, word)
}

// Where the tokens of an instance's definition stand, in one word, by the place of the instance's token.
#[unsafe(no_mangle)]
pub extern "C" fn doortumble_definition(stream: &[u8], place: u32, word: &mut [u64]) -> u64
    ensures value { result ≡ packed_of (lent_answer (definition_words (definition_at_place stream.now place)) word.old) }
    ensures word_after { word.new ≡ lent_left (definition_words (definition_at_place stream.now place)) word.old }
{
    event_call::doortumble_definition(stream, place, word)
}
