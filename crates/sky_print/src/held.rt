ghost use Rattle.std.specs.Prelude.{◌≡◌, ◌∷◌, ◌++◌, codes, OnOk, OnErr};
ghost use Rattle.std.specs.Fmt.{decimal};
ghost use Rattle.sky_model.specs.Moment.{moment, HasMoment};
ghost use Rattle.sky_model.specs.Printed.{held_text, ReplyHasMoments};
ghost use Rattle.sky_print.specs.Kept.{Keeps};

use crate::event::append_number_word;
use crate::moment::print_moment;
use crate::refusal::{append_named, append_numbered, append_numbers};
use sky_model::{HeldBack, Reply};
use sky_val::NoMemory;

// If memory runs out, each of these may leave a part of its text, after all that was there before.

/// Appends `0` and what holds a switch of event tables back.
pub(crate) fn append_held_back(held: &HeldBack, into: &mut Vec<u8>) -> Result<(), NoMemory>
    requires { ReplyHasMoments (Reply.HeldBack held.now) }
    ensures ok { OnOk result (into.new.items ≡ into.old.items ++ held_text held.now) }
    ensures kept { OnErr result (Keeps into.old.items into.new.items) }
{
    match held {
        HeldBack::Pending(txid) => append_numbered(b"0 pending ", *txid, into),
        HeldBack::Period(ends) => append_period(*ends, into),
        HeldBack::SecondStep(txid) => append_numbered(b"0 step2 ", *txid, into),
        HeldBack::Consumer {
            consumer,
            tick,
            xmin,
        } => append_consumer(consumer.bytes(), *tick, *xmin, into),
        HeldBack::Tick(tick, xmin) => append_numbers(b"0 tick ", *tick, *xmin, into),
    }
}

// The moment at which the period ends.
fn append_period(ends: i64, into: &mut Vec<u8>) -> Result<(), NoMemory>
    requires { HasMoment ends }
    ensures ok { OnOk result (into.new.items ≡ into.old.items ++ (codes "0 period " ++ moment ends)) }
    ensures kept { OnErr result (Keeps into.old.items into.new.items) }
{
    into.extend_from_slice(b"0 period ")?;
    print_moment(ends, into)
}

// A consumer, the tick that is its position and the lower bound of that tick's snapshot.
fn append_consumer(
    consumer: &[u8],
    tick: u64,
    xmin: u64,
    into: &mut Vec<u8>,
) -> Result<(), NoMemory>
    ensures ok { OnOk result (into.new.items ≡ into.old.items
        ++ (codes "0 consumer " ++ consumer.now ++ 32 ∷ decimal tick ++ 32 ∷ decimal xmin)) }
    ensures kept { OnErr result (Keeps into.old.items into.new.items) }
{
    append_named(b"0 consumer ", consumer, into)?;
    append_number_word(tick, into)?;
    append_number_word(xmin, into)
}
