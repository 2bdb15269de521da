ghost use Rattle.std.specs.Prelude.{◌≡◌, ◌∷◌, ◌++◌, map, length, codes, OnOk, OnErr};
ghost use Rattle.std.specs.Fmt.{decimal};
ghost use Rattle.sky_model.specs.Printed.{number_or_null, spaced, queue_text, batch_text, consumer_text};
ghost use Rattle.sky_print.specs.Kept.{Keeps};

use crate::event::{append_number_word, append_optional_word};
use crate::refusal::append_named;
use sky_model::{BatchInfo, ConsumerInfo, QueueInfo};
use sky_val::NoMemory;

// If memory runs out, each of these may leave a part of its text, after all that was there before.

/// Appends what is shown of a queue, without its session's name and the end of its line.
pub(crate) fn append_queue(queue: &QueueInfo, into: &mut Vec<u8>) -> Result<(), NoMemory>
    ensures ok { OnOk result (into.new.items ≡ into.old.items ++ queue_text queue.now) }
    ensures kept { OnErr result (Keeps into.old.items into.new.items) }
{
    let stored = queue.stored.as_slice();
    append_field(b"ntables", stored.len() as u64, into)?;
    append_field(b" cur_table", queue.current, into)?;
    append_field(b" last_tick", queue.last_tick, into)?;
    append_field(b" seq", queue.seq, into)?;
    append_stored(stored, into)
}

/// The same of an active batch.
pub(crate) fn append_batch_info(batch: &BatchInfo, into: &mut Vec<u8>) -> Result<(), NoMemory>
    ensures ok { OnOk result (into.new.items ≡ into.old.items ++ batch_text batch.now) }
    ensures kept { OnErr result (Keeps into.old.items into.new.items) }
{
    append_named(b"queue ", batch.queue.bytes(), into)?;
    append_named(b" consumer ", batch.consumer.bytes(), into)?;
    append_field(b" prev_tick", batch.prev_tick, into)?;
    append_field(b" tick", batch.tick, into)?;
    append_field(b" prev_seq", batch.prev_seq, into)?;
    append_field(b" seq", batch.seq, into)?;
    Ok(())
}

/// The same of a consumer.
pub(crate) fn append_consumer_info(
    consumer: &ConsumerInfo,
    into: &mut Vec<u8>,
) -> Result<(), NoMemory>
    ensures ok { OnOk result (into.new.items ≡ into.old.items ++ consumer_text consumer.now) }
    ensures kept { OnErr result (Keeps into.old.items into.new.items) }
{
    append_field(b"sub", consumer.sub, into)?;
    append_field(b" last_tick", consumer.last_tick, into)?;
    append_active(consumer.batch, into)?;
    append_field(b" retries", consumer.retries, into)
}

// The id of a consumer's active batch, or `null`.
fn append_active(batch: Option<u64>, into: &mut Vec<u8>) -> Result<(), NoMemory>
    ensures ok { OnOk result (into.new.items ≡ into.old.items ++ (codes " batch " ++ number_or_null batch)) }
    ensures kept { OnErr result (Keeps into.old.items into.new.items) }
{
    into.extend_from_slice(b" batch")?;
    append_optional_word(batch, into)
}

// A field's name and its number.
fn append_field(name: &[u8], number: u64, into: &mut Vec<u8>) -> Result<(), NoMemory>
    ensures ok { OnOk result (into.new.items ≡ into.old.items ++ (name.now ++ 32 ∷ decimal number)) }
    ensures kept { OnErr result (Keeps into.old.items into.new.items) }
{
    into.extend_from_slice(name)?;
    append_number_word(number, into)
}

// How many events each table has.
fn append_stored(stored: &[u64], into: &mut Vec<u8>) -> Result<(), NoMemory>
    ensures ok { OnOk result (into.new.items ≡ into.old.items
        ++ (codes " stored" ++ spaced (map decimal stored.now))) }
    ensures kept { OnErr result (Keeps into.old.items into.new.items) }
{
    into.extend_from_slice(b" stored")?;
    for count in stored {
        append_number_word(*count, into)?;
    }
    Ok(())
}
