ghost use Rattle.std.specs.Prelude.{◌≡◌, [], ◌∷◌, ◌++◌, OnOk, OnErr};
ghost use Rattle.std.specs.Fmt.{decimal};
ghost use Rattle.sky_model.specs.Moment.{moment, HasMoment};
ghost use Rattle.sky_model.specs.Printed.{doubled, quoted, text_or_null, number_or_null, spaced, event_text};
ghost use Rattle.sky_print.specs.Kept.{Keeps};

use crate::moment::print_moment;
use crate::print::append_number;
use sky_val::{Event, NoMemory, Text};

// If memory runs out, each of these may leave a part of its text, after all that was there before.

/// Appends the event's words, without its session's name and the end of its line.
pub(crate) fn append_event(event: &Event, into: &mut Vec<u8>) -> Result<(), NoMemory>
    requires { HasMoment event.now.ev_time }
    ensures ok { OnOk result (into.new.items ≡ into.old.items ++ event_text event.now) }
    ensures kept { OnErr result (Keeps into.old.items into.new.items) }
{
    into.extend_from_slice(b"event")?;
    append_stamp(event, into)?;
    append_texts(event, into)
}

// What the queue gave the event: id, time, transaction and how often it came back.
fn append_stamp(event: &Event, into: &mut Vec<u8>) -> Result<(), NoMemory>
    requires { HasMoment event.now.ev_time }
    ensures ok { OnOk result (into.new.items ≡ into.old.items ++ spaced (
        decimal event.now.ev_id
        ∷ moment event.now.ev_time
        ∷ decimal event.now.ev_txid
        ∷ number_or_null event.now.ev_retry
        ∷ [])) }
    ensures kept { OnErr result (Keeps into.old.items into.new.items) }
{
    append_number_word(event.ev_id, into)?;
    into.push(b' ')?;
    print_moment(event.ev_time, into)?;
    append_number_word(event.ev_txid, into)?;
    append_optional_word(event.ev_retry, into)
}

// What was put in: type, data and extra fields.
fn append_texts(event: &Event, into: &mut Vec<u8>) -> Result<(), NoMemory>
    ensures ok { OnOk result (into.new.items ≡ into.old.items ++ spaced (
        text_or_null event.now.ev_type
        ∷ text_or_null event.now.ev_data
        ∷ text_or_null event.now.ev_extra1
        ∷ text_or_null event.now.ev_extra2
        ∷ text_or_null event.now.ev_extra3
        ∷ text_or_null event.now.ev_extra4
        ∷ [])) }
    ensures kept { OnErr result (Keeps into.old.items into.new.items) }
{
    append_text_word(&event.ev_type, into)?;
    append_text_word(&event.ev_data, into)?;
    append_text_word(&event.ev_extra1, into)?;
    append_text_word(&event.ev_extra2, into)?;
    append_text_word(&event.ev_extra3, into)?;
    append_text_word(&event.ev_extra4, into)
}

/// Appends the number, after a space.
pub(crate) fn append_number_word(number: u64, into: &mut Vec<u8>) -> Result<(), NoMemory>
    ensures ok { OnOk result (into.new.items ≡ into.old.items ++ 32 ∷ decimal number) }
    ensures kept { OnErr result (Keeps into.old.items into.new.items) }
{
    into.push(b' ')?;
    append_number(number, into)
}

/// Appends the number or `null`, after a space.
pub(crate) fn append_optional_word(number: Option<u64>, into: &mut Vec<u8>) -> Result<(), NoMemory>
    ensures ok { OnOk result (into.new.items ≡ into.old.items ++ 32 ∷ number_or_null number) }
    ensures kept { OnErr result (Keeps into.old.items into.new.items) }
{
    match number {
        None => into.extend_from_slice(b" null"),
        Some(number) => append_number_word(number, into),
    }
}

// The text in quotes or `null`, after a space.
fn append_text_word(text: &Option<Text>, into: &mut Vec<u8>) -> Result<(), NoMemory>
    ensures ok { OnOk result (into.new.items ≡ into.old.items ++ 32 ∷ text_or_null text.now) }
    ensures kept { OnErr result (Keeps into.old.items into.new.items) }
{
    let Some(text) = text else {
        return into.extend_from_slice(b" null");
    };
    append_quoted_word(text, into)
}

/// Appends the text in quotes, after a space.
pub(crate) fn append_quoted_word(text: &Text, into: &mut Vec<u8>) -> Result<(), NoMemory>
    ensures ok { OnOk result (into.new.items ≡ into.old.items ++ 32 ∷ quoted text.now) }
    ensures kept { OnErr result (Keeps into.old.items into.new.items) }
{
    into.extend_from_slice(b" '")?;
    append_doubled(text.bytes(), into)?;
    into.extend_from_slice(b"'")
}

// The text with each quote twice.
fn append_doubled(text: &[u8], into: &mut Vec<u8>) -> Result<(), NoMemory>
    ensures ok { OnOk result (into.new.items ≡ into.old.items ++ doubled text.now) }
    ensures kept { OnErr result (Keeps into.old.items into.new.items) }
{
    for byte in text {
        if *byte == b'\'' {
            into.push(b'\'')?;
        }
        into.push(*byte)?;
    }
    Ok(())
}
