//! The queues as the gate in front of the writes of rows: they store the events that record them.

ghost use Rattle.std.specs.Prelude.{◌≡◌, ◌<◌, ◌≤◌, ◌-◌, true, OnOk, OnErr, option_copied, length, take, drop};
ghost use Rattle.std.specs.List.{All};
ghost use Rattle.sky_model.specs.Moment.{HasMoment};
ghost use Rattle.pgq_queues.specs.Seen.{Stands};
ghost use Rattle.pgq_queues.specs.Batches.{StillStand};
ghost use Rattle.pgq_queue.specs.Changed.{undone_in};
ghost use Rattle.pgq_queues.specs.Rotated.{each_changed};
ghost use Rattle.pgq_queues.specs.EventRule.{events_by, table_events, count_of, sequences, ids_left, telling_all, event_rule};

use crate::queues::Queues;
use crate::slots::Slots;
use crate::traced::Traced;
use sky_model::WriteGate;
use sky_names::Named;
use sky_val::{NoMemory, Op, Row};

/// The number at which the event ids of a queue run out.
pub const EVENT_ID_END: u64 = 1 << 62;

impl WriteGate for Queues {
    ghost rule = { event_rule };

    fn room(&self, table: u32, _op: Op, old: Option<&Row>, new: Option<&Row>) -> bool {
        match self.traced(table) {
            Some(traced) => has_ids(&self.slots, &traced, old, new),
            None => true,
        }
    }

    fn wrote(
        &mut self,
        txid: u64,
        table: u32,
        _op: Op,
        old: Option<&Row>,
        new: Option<&Row>,
    ) -> Result<(), NoMemory> {
        let Some(table) = self.traced_tables.get(&table) else {
            return Ok(());
        };
        let traced = Traced::new(self.triggers.as_slice(), table);
        tell(&mut self.slots, &traced, 0, self.time, txid, old, new)
    }

    fn rolled_back(&mut self, txid: u64) {
        undo_each(&mut self.slots, &self.names, 0, txid);
    }
}

/// A transaction was rolled back: for each queue whose name is at this place or after it.
fn undo_each(queues: &mut Slots, names: &Named<usize>, place: usize, txid: u64)
    requires place { place ≤ length names.now.values }
    requires stand { All (Stands queues.old) names.now.values }
    ensures { queues.new ≡ each_changed (undone_in txid) (drop place names.now.values) queues.old }
{
    if place < names.len() {
        queues.get_mut(*names.get(place)).undo(txid);
        undo_each(queues, names, place + 1, txid);
    }
}

/// How many of the triggers before this place record the write by an event of the queue.
fn told_before(
    traced: &Traced<'_>,
    place: usize,
    queue: usize,
    old: Option<&Row>,
    new: Option<&Row>,
) -> usize
    requires { place ≤ length traced.now.triggers }
    ensures { result ≡ count_of queue (events_by traced.now (option_copied old.entry) (option_copied new.entry) (take place traced.now.triggers)) }
{
    let mut count = 0;
    for earlier in 0..place {
        let trigger = traced.trigger(earlier);
        if trigger.queue() == queue && !trigger.leaves_out(traced.schema(), old, new) {
            count += 1;
        }
    }
    count
}

/// Whether there are ids for all events of the write.
fn has_ids(queues: &Slots, traced: &Traced<'_>, old: Option<&Row>, new: Option<&Row>) -> bool
    requires { All (λ x. Stands queues.now x.trigger.queue) traced.now.triggers }
    ensures { result ≡ ids_left (sequences queues.now) (table_events traced.now (option_copied old.entry) (option_copied new.entry)) }
{
    for place in 0..traced.count() {
        let trigger = traced.trigger(place);
        if trigger.leaves_out(traced.schema(), old, new) {
            continue;
        }
        let queue = trigger.queue();
        let seq = queues.get(queue).seq();
        let before = told_before(traced, place, queue, old, new) as u64;
        if seq >= EVENT_ID_END - 1 || before >= EVENT_ID_END - 1 - seq {
            return false;
        }
    }
    true
}

/// Records the write by the events of the triggers from this place on, each with the next id of its queue.
fn tell(
    queues: &mut Slots,
    traced: &Traced<'_>,
    place: usize,
    now: i64,
    txid: u64,
    old: Option<&Row>,
    new: Option<&Row>,
) -> Result<(), NoMemory>
    requires place { place ≤ length traced.now.triggers }
    requires within { All (λ x. Stands queues.old x.trigger.queue) traced.now.triggers }
    requires time { HasMoment now }
    requires room { ids_left (sequences queues.old) (events_by traced.now (option_copied old) (option_copied new) (drop place traced.now.triggers)) ≡ true }
    ensures ok { OnOk result (queues.new ≡ telling_all now txid (events_by traced.now (option_copied old.entry) (option_copied new.entry) (drop place traced.now.triggers)) queues.old) }
    ensures err { OnErr result (queues.new ≡ queues.old) }
    ensures stand { StillStand queues.old queues.new }
{
    if place == traced.count() {
        return Ok(());
    }
    let trigger = traced.trigger(place);
    if trigger.leaves_out(traced.schema(), old, new) {
        return tell(queues, traced, place + 1, now, txid, old, new);
    }
    let queue = trigger.queue();
    let alloc = queues.get(queue).alloc();
    let event = trigger.event(alloc, traced.name(), traced.schema(), old, new)?;
    queues.get_mut(queue).tell(now, txid, event)?;
    match tell(queues, traced, place + 1, now, txid, old, new) {
        Ok(()) => Ok(()),
        Err(no_memory) => {
            queues.get_mut(queue).take_back();
            Err(no_memory)
        }
    }
}
