//! The event of a statement, which has further texts or not.

ghost use Rattle.std.specs.Prelude.{◌≡◌, ◌<◌, None, Some, Ok, IfOk, OnOk};
ghost use Rattle.sky_model.specs.History.{queued, made, put};
ghost use Rattle.sky_model.specs.State.{after_mark};
ghost use Rattle.sky_model.specs.StepQueue.{made_event};
ghost use Rattle.sky_model.specs.Calls.{statement};
ghost use Rattle.sky_model.specs.Moment.{HasMoment};
ghost use Rattle.pgq_queues.specs.Seen.{Beside, seen_with, Stands};
ghost use Rattle.pgq_queues.specs.Traced.{KeepsRest};

use pgq_queues::Queues;
use pgq_tables::PlainEvent;
use sky_model::{BoxedExtra, Extra, InsertedEvent};
use sky_val::{Event, NoMemory, copy_option};
use std::alloc::Global;

/// An event of this type and data, without further texts.
#[inline(always)]
pub fn plain_event(
    alloc: Global,
    id: u64,
    now: i64,
    txid: u64,
    inserted: &InsertedEvent,
) -> Result<PlainEvent, NoMemory>
    ensures { IfOk result (λ event. event ≡ record { ev_id = id; ev_time = now; ev_txid = txid; ev_type = inserted.now.ev_type; ev_data = inserted.now.ev_data }) }
{
    Ok(PlainEvent {
        ev_id: id,
        ev_time: now,
        ev_txid: txid,
        ev_type: copy_option(alloc, &inserted.ev_type)?,
        ev_data: copy_option(alloc, &inserted.ev_data)?,
    })
}

/// Stores an event with these further texts.
// Never inlined, so that an event without them isn't made as one that has room for them.
#[inline(never)]
pub fn put_with_extra(
    alloc: Global,
    queues: &mut Queues,
    queue: usize,
    event: PlainEvent,
    extra: &BoxedExtra,
) -> Result<(), NoMemory>
    requires queue { Stands queues.old.queues queue }
    requires time { HasMoment event.ev_time }
    ensures mark { OnOk result ((beside : Beside) → seen_with beside queues.new ≡ after_mark (seen_with beside queues.old)
        (queued (put queue (made_event event.ev_id event.ev_time event.ev_txid event.ev_type event.ev_data (Some extra.now))))) }
    ensures rest { KeepsRest queues.old queues.new }
{
    let event = with_extra(alloc, event, extra)?;
    queues.put(queue, event)?;
    Ok(())
}

/// The event with these further texts.
fn with_extra(alloc: Global, event: PlainEvent, extra: &BoxedExtra) -> Result<Event, NoMemory>
    ensures { IfOk result (λ made. made ≡ made_event event.ev_id event.ev_time event.ev_txid event.ev_type event.ev_data (Some extra.now)) }
{
    let extra = copy_extra(alloc, extra.as_extra())?;
    Ok(Event {
        ev_id: event.ev_id,
        ev_time: event.ev_time,
        ev_txid: event.ev_txid,
        ev_owner: None,
        ev_retry: None,
        ev_type: event.ev_type,
        ev_data: event.ev_data,
        ev_extra1: extra.ev_extra1,
        ev_extra2: extra.ev_extra2,
        ev_extra3: extra.ev_extra3,
        ev_extra4: extra.ev_extra4,
    })
}

/// Equal texts.
fn copy_extra(alloc: Global, extra: &Extra) -> Result<Extra, NoMemory>
    ensures { IfOk result (λ copy. copy ≡ extra.now) }
{
    Ok(Extra {
        ev_extra1: copy_option(alloc, &extra.ev_extra1)?,
        ev_extra2: copy_option(alloc, &extra.ev_extra2)?,
        ev_extra3: copy_option(alloc, &extra.ev_extra3)?,
        ev_extra4: copy_option(alloc, &extra.ev_extra4)?,
    })
}
