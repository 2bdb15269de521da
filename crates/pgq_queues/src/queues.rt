ghost use Rattle.std.specs.Prelude.{◌≡◌, ℕ, ◌+◌, ◌-◌, ◌<◌, ◌^◌, [], ◌==◌, true, Some, None, is_ok, Ok, IfOk, IfErr, OnOk, OnErr, IfSome, IfNone, option_copied, option_map, length, is_some, ◌↔◌, ◌≤◌, Err, find, map, slice_index_or, false, bytes_eq};
ghost use Rattle.std.specs.List.{All, position, remove};
ghost use Rattle.sky_model.specs.Config.{Config, param_of};
ghost use Rattle.sky_model.specs.Consumers.{Subscription};
ghost use Rattle.sky_model.specs.History.{queued, made, raised, put, ticked, registered, moved, unregistered, opened, closed, configured, dropped, traced, untraced};
ghost use Rattle.pgq_tables.specs.Tables.{full_event, recorded_part};
ghost use Rattle.pgq_tick.specs.Config.{set_to};
ghost use Rattle.sky_model.specs.Moment.{HasMoment, IsTime};
ghost use Rattle.sky_model.specs.Printed.{EventsHaveMoments};
ghost use Rattle.sky_model.specs.Queues.{NamedQueue, queue_number, queue_name};
ghost use Rattle.sky_model.specs.Selection.{selected, selected_in};
ghost use Rattle.sky_model.specs.ShownRows.{snapshot_now};
ghost use Rattle.sky_model.specs.State.{RowPart, after_mark};
ghost use Rattle.sky_model.specs.StepConsumer.{batch_info_of};
ghost use Rattle.sky_model.specs.StepQueue.{newest_id};
ghost use Rattle.sky_model.specs.StepTrigger.{has_trigger};
ghost use Rattle.sky_model.specs.Triggers.{is_sets, triggers_of};
ghost use Rattle.pgq_queues.specs.Seen.{kept, seen_with, seen_batch, reads_at, unnamed, queues_of, queue_at, batch_of, batch_at, no_queues, Stands, Beside};
ghost use Rattle.pgq_queue.specs.Seen.{seen_queue, seen_span};
ghost use Rattle.pgq_queues.specs.Batches.{StillStand, but_of};
ghost use Rattle.pgq_queue.specs.Looked.{most_in, AreLookedAtIn};
ghost use Rattle.pgq_sub.specs.declared.sub.OpenBatch.{OpenBatch};
ghost use Rattle.pgq_sub.specs.Views.{seen_sub};
ghost use Rattle.pgq_queues.specs.Traced.{traced_at, IsTable, AreTables, KeepsRest};
ghost use Rattle.pgq_queue.specs.Stored.{RetriedAtMost};
ghost use Rattle.pgq_queues.specs.Retried.{HasConsumer};

use crate::batch::{Batch, Place, seq_at};
use crate::slots::Slots;
use crate::traced::{TableTrigger, Traced, TracedTable};
use pgq_queue::{Queue, Span};
use pgq_retry::RetryQueue;
use pgq_sub::{OpenBatch, Sub};
use pgq_tables::{Looked, PlainEvent, Recorded};
use pgq_tick::{ConfigFault, TickFault};
use sky_model::BatchInfo;
use sky_names::Named;
use sky_txid::Snapshot;
use sky_val::{Event, NoMemory, Schema, Text};
use std::alloc::Global;
use std::collections::BTreeMap;
use std::marker::Model;

/// The queues of one database, with their active batches, and the triggers of tables, whose events go to queues.
#[derive(Drop)]
pub struct Queues {
    pub(crate) alloc: Global,
    // The time of the running statement.
    pub(crate) time: i64,
    last_batch_id: u64,
    last_sub_id: u64,
    // The queues that exist: the number of each under its name, in the order of making.
    pub(crate) names: Named<usize>,
    pub(crate) slots: Slots,
    // Where each active batch is, under its id. All else of it is in its subscription.
    batches: BTreeMap<u64, Place>,
    // The triggers, in the order of making.
    pub(crate) triggers: Vec<TableTrigger>,
    // The tables with triggers, each under its number.
    pub(crate) traced_tables: BTreeMap<u32, TracedTable>,
    // The retries that wait.
    pub(crate) retries: RetryQueue,
    // How often retries came back: no event was retried more often.
    pub(crate) rounds: u64,
}

impl Model for Queues {
    ghost use Rattle.sky_model.specs.Moment.{HasMoment, IsTime};
    ghost use Rattle.pgq_queues.specs.Views.{QueuesView};
    ghost use Rattle.pgq_queues.specs.Numbers.{AreNumbers};
    ghost use Rattle.pgq_queues.specs.Batches.{BatchesWithin};
    ghost use Rattle.pgq_queues.specs.Traced.{TracedWithin};
    ghost use Rattle.pgq_queues.specs.Retried.{RetriedWithin};

    ghost Value = { QueuesView };

    ghost view = { λ q. record {
      time = q.time;
      last_batch_id = q.last_batch_id;
      last_sub_id = q.last_sub_id;
      names = q.names;
      queues = q.slots;
      batches = q.batches.entries;
      triggers = q.triggers.items;
      traced_tables = q.traced_tables.entries;
      retries = q.retries;
      rounds = q.rounds;
    } };

    ghost invariant = { λ q. (HasMoment q.time × RetriedWithin q.rounds q.slots q.retries)
        × (AreNumbers q.names q.slots × (BatchesWithin q.last_batch_id q.slots q.batches.entries × TracedWithin q.slots q.triggers.items q.traced_tables.entries)) };
}

impl Queues {
    /// No queues, and nothing else.
    pub fn new(alloc: Global) -> Queues
        ensures { result ≡ no_queues }
    {
        Queues {
            alloc,
            time: 0,
            last_batch_id: 0,
            last_sub_id: 0,
            names: Named::new(alloc),
            slots: Slots::new(alloc),
            batches: BTreeMap::new(alloc),
            triggers: Vec::new(alloc),
            traced_tables: BTreeMap::new(alloc),
            retries: RetryQueue::new(alloc),
            rounds: 0,
        }
    }

    /// The running statement has this time.
    pub fn set_time(&mut self, time: i64)
        requires { HasMoment time }
        ensures time { self.new ≡ record self.old { time = time } }
        ensures within { All (λ t. t.trigger.queue < length self.new.queues) self.new.triggers }
    {
        self.time = time;
    }

    /// How many queues there are.
    pub fn count(&self) -> usize
        ensures { result ≡ length (queues_of self.now) }
    {
        self.names.len()
    }

    /// The number of the queue of this name, if there is one.
    pub fn number(&self, queue: &Text) -> Option<usize>
        ensures number { result ≡ queue_number queue.now (queues_of self.now) }
        ensures stands { IfSome result (λ n. Stands self.now.queues n) }
    {
        let place = self.names.number(queue)?;
        Some(*self.names.get(place as usize))
    }

    /// The number of the queue at this place among those that exist, in the order of making.
    pub fn number_at(&self, place: usize) -> usize
        requires { place < length (queues_of self.now) }
        ensures number { result ≡ (slice_index_or (queues_of self.now) place unnamed).number }
        ensures stands { Stands self.now.queues result }
    {
        *self.names.get(place)
    }

    /// The name of the queue of this number, if it exists.
    pub fn name(&self, number: usize) -> Option<&Text>
        ensures { option_copied result ≡ option_map NamedQueue.name (find (λ q. q.number == number) (queues_of self.now)) }
    {
        for place in 0..self.names.len() {
            if *self.names.get(place) == number {
                return Some(&self.names.names()[place]);
            }
        }
        None
    }

    /// Whether the queue of this number has this name. One that doesn't exist has the empty name.
    pub fn has_name(&self, number: usize, name: &Text) -> bool
        ensures { result ≡ bytes_eq (queue_name number (queues_of self.now)) name.now }
    {
        match self.name(number) {
            Some(own) => *own == *name,
            None => name.bytes().is_empty(),
        }
    }

    /// The queue of this number.
    pub fn queue(&self, number: usize) -> &Queue
        requires { Stands self.now.queues number }
        ensures { seen_queue result.now ≡ queue_at self.now number }
    {
        self.slots.get(number)
    }

    /// The subscription of a queue's consumer, if it is registered.
    pub fn subscription(&self, number: usize, consumer: &Text) -> Option<Sub>
        requires { Stands self.now.queues number }
        ensures sub { option_map seen_sub result ≡ (queue_at self.now number).sub consumer.now }

        // Its active batch is the one that is kept under the batch's id.
        ensures batch { IfSome result (λ sub. IfSome sub.active (λ batch. batch_at self.now batch.id ≡ batch_of batch.id (record { queue = number; consumer = consumer.now }) sub)) }
    {
        let sub = self.slots.get(number).sub(consumer)?;
        Some(sub.copy())
    }

    /// The last subscription id that was given.
    pub fn last_sub(&self) -> u64
        ensures { result ≡ self.now.last_sub_id }
    {
        self.last_sub_id
    }

    /// The last batch id that was given.
    pub fn last_batch(&self) -> u64
        ensures { result ≡ self.now.last_batch_id }
    {
        self.last_batch_id
    }

    /// An active batch, by its id.
    pub fn batch(&self, id: u64) -> Option<Batch<'_>>
        ensures batch { option_map seen_batch result ≡ batch_at self.now id }
        ensures stands { IfSome result (λ b. Stands self.now.queues b.queue) }
        ensures owner { IfSome result (λ b. HasConsumer self.now.queues b.queue b.sub) }
    {
        let place = self.batches.get(&id)?;
        let sub = self.slots.get(place.queue).sub(&place.consumer)?;
        let batch = sub.active()?;
        Some(Batch {
            id,
            queue: place.queue,
            consumer: &place.consumer,
            sub: sub.id(),
            prev: sub.position(),
            cur: batch.cur,
        })
    }

    /// The events of a batch; none if one of its ticks isn't kept.
    pub fn batch_events(&mut self, span: Span) -> Result<Vec<Event>, NoMemory>
        requires { Stands self.old.queues span.queue }
        ensures events { (beside : Beside) → IfOk result (λ events. events.items ≡ selected (seen_with beside self.old) (seen_span span)) }
        ensures moments { IfOk result (λ events. EventsHaveMoments events.items) }
        ensures same { (beside : Beside) → seen_with beside self.new ≡ seen_with beside self.old }
        ensures stand { StillStand self.old.queues self.new.queues }
        ensures rest { KeepsRest self.old self.new }

        // How many stored events are looked at, in this queue and in no other. Each event of the batch was looked at,
        // unless so many were that they are no longer counted.
        ensures others { (n : ℕ) → (span.queue == n) ≡ false → reads_at self.new.queues n ≡ reads_at self.old.queues n }
        ensures lower { IfOk result (λ events. reads_at self.new.queues span.queue < 2 ^ 64 - 1 → length events.items + reads_at self.old.queues span.queue ≤ reads_at self.new.queues span.queue) }
        ensures upper { OnOk result (reads_at self.new.queues span.queue ≤ reads_at self.old.queues span.queue + most_in (queue_at self.old span.queue) (seen_span span)) }
    {
        let alloc = self.alloc;
        self.slots.get_mut(span.queue).select(alloc, span)
    }

    /// Looks at the events that a batch may have, in its queue and in no other.
    pub fn look(&mut self, span: Span) -> Result<Vec<Looked>, NoMemory>
        requires { Stands self.old.queues span.queue }
        ensures looked { IfOk result (λ looks. AreLookedAtIn (queue_at self.new span.queue) (seen_span span) looks.items) }
        ensures same { (beside : Beside) → seen_with beside self.new ≡ seen_with beside self.old }
        ensures stand { StillStand self.old.queues self.new.queues }
        ensures rest { KeepsRest self.old self.new }
        ensures others { (n : ℕ) → (span.queue == n) ≡ false → reads_at self.new.queues n ≡ reads_at self.old.queues n }
        ensures lower { OnOk result (reads_at self.new.queues span.queue < 2 ^ 64 - 1 → length (selected_in (queue_at self.old span.queue) (seen_span span)) + reads_at self.old.queues span.queue ≤ reads_at self.new.queues span.queue) }
        ensures upper { OnOk result (reads_at self.new.queues span.queue ≤ reads_at self.old.queues span.queue + most_in (queue_at self.old span.queue) (seen_span span)) }
    {
        let alloc = self.alloc;
        self.slots.get_mut(span.queue).look(alloc, span)
    }

    /// What the events of a batch record, which were looked at; none if one of its ticks isn't kept.
    pub fn recorded(&self, span: Span, looks: Vec<Looked>) -> Result<Vec<Recorded<'_>>, NoMemory>
        requires stands { Stands self.now.queues span.queue }
        requires looked { AreLookedAtIn (queue_at self.now span.queue) (seen_span span) looks.items }
        ensures { (beside : Beside) → IfOk result (λ events. events.items ≡ map recorded_part (selected (seen_with beside self.now) (seen_span span))) }
    {
        self.queue(span.queue).recorded(self.alloc, span, looks)
    }

    /// What is shown of a batch.
    pub fn batch_info(&self, batch: &Batch<'_>) -> Result<BatchInfo, NoMemory>
        requires { Stands self.now.queues batch.now.queue }
        ensures { (beside : Beside) → IfOk result (λ info. info ≡ batch_info_of (seen_with beside self.now) (seen_batch batch.now)) }
    {
        let queue = match self.name(batch.queue) {
            Some(name) => name.copy(self.alloc)?,
            None => Text::from_str(self.alloc, "")?,
        };
        let ticks = self.queue(batch.queue).ticks();
        Ok(BatchInfo {
            queue,
            consumer: batch.consumer.copy(self.alloc)?,
            prev_tick: batch.prev,
            tick: batch.cur,
            prev_seq: seq_at(ticks.get(batch.prev)),
            seq: seq_at(ticks.get(batch.cur)),
        })
    }

    /// A table with its triggers, if anything is kept of it.
    pub(crate) fn traced(&self, table: u32) -> Option<Traced<'_>>
        ensures traced { result ≡ traced_at self.now table }
        ensures within { IfSome result (λ t. All (λ x. Stands self.now.queues x.trigger.queue) t.triggers) }
        ensures none { IfNone result (triggers_of table self.now.triggers ≡ []) }
    {
        let traced = self.traced_tables.get(&table)?;
        Some(Traced::new(self.triggers.as_slice(), traced))
    }

    /// Whether the table has a trigger of this name.
    pub fn has_trigger(&self, table: u32, name: &Text) -> bool
        ensures { result ≡ has_trigger name.now (triggers_of table self.now.triggers) }
    {
        match self.traced(table) {
            Some(traced) => traced.has(name),
            None => false,
        }
    }

    /// How many triggers the table has.
    pub fn trigger_count(&self, table: u32) -> usize
        ensures { result ≡ length (triggers_of table self.now.triggers) }
    {
        match self.traced(table) {
            Some(traced) => traced.count(),
            None => 0,
        }
    }

    /// The first trigger whose events go to a queue.
    pub fn first_trigger_into(&self, queue: usize) -> Option<&TableTrigger>
        ensures { option_copied result ≡ find (λ t. t.trigger.queue == queue) self.now.triggers }
    {
        self.triggers.iter().find(|t| t.trigger.queue() == queue)
    }

    /// Makes a queue of a new name, by a transaction that has ended, with its first tick, which has the snapshot as it
    /// is now.
    pub fn make(
        &mut self,
        name: Text,
        txid: u64,
        now: i64,
        snapshot: Snapshot,
    ) -> Result<(), NoMemory>
        requires new { queue_number name (queues_of self.old) ≡ None }
        requires room { length (queues_of self.old) < 64 }
        requires time { IsTime now }
        ensures mark { OnOk result ((beside : Beside) → snapshot ≡ snapshot_now beside.part → seen_with beside self.new
            ≡ after_mark (seen_with beside self.old) (queued (made name txid now))) }
        ensures err { OnErr result (self.new ≡ self.old) }
        ensures rest { KeepsRest self.old self.new }
    {
        let number = self.slots.len();
        self.slots.make(txid, now, snapshot)?;
        match self.names.add(name, number) {
            Ok(_) => Ok(()),
            Err(no_memory) => {
                self.slots.take_back();
                Err(no_memory)
            }
        }
    }

    /// The queue of this name, which has this number, is dropped.
    pub fn drop_queue(&mut self, name: &Text, number: usize)
        requires found { queue_number name.now (queues_of self.old) ≡ Some number }
        requires consumers { (queue_at self.old number).members ≡ [] }
        requires triggers { All (λ t. (t.trigger.queue == number) ≡ false) self.old.triggers }
        ensures mark { (beside : Beside) → seen_with beside self.new ≡ after_mark (seen_with beside self.old) (queued (dropped number)) }
        ensures rest { KeepsRest self.old self.new }
    {
        match self.names.number(name) {
            Some(place) => self.names.remove(place as usize),
            None => unreachable!(),
        }
        self.slots.remove(number);
    }

    /// The sequence of a queue has this value from now on.
    pub fn raise(&mut self, queue: usize, value: u64)
        requires { Stands self.old.queues queue }
        ensures mark { (beside : Beside) → seen_with beside self.new ≡ after_mark (seen_with beside self.old) (queued (raised queue value)) }
        ensures stand { StillStand self.old.queues self.new.queues }
        ensures rest { KeepsRest self.old self.new }
    {
        self.slots.get_mut(queue).raise(value);
    }

    /// The parameter of this name of a queue has the value that a text writes from now on.
    pub fn configure(&mut self, queue: usize, param: &[u8], value: &[u8]) -> Result<(), ConfigFault>
        requires { Stands self.old.queues queue }
        ensures mark { OnOk result ((beside : Beside) (config : Config) → set_to (queue_at self.old queue).config (param_of param.now) value.now ≡ Ok config
            → seen_with beside self.new ≡ after_mark (seen_with beside self.old) (queued (configured queue config))) }
        ensures set { OnOk result (is_ok (set_to (queue_at self.old queue).config (param_of param.now) value.now) ≡ true) }
        ensures fault { IfErr result (λ fault. set_to (queue_at self.old queue).config (param_of param.now) value.now ≡ Err fault) }
        ensures err { OnErr result ((beside : Beside) → seen_with beside self.new ≡ seen_with beside self.old) }
        ensures rest { KeepsRest self.old self.new }
    {
        self.slots.get_mut(queue).configure(param, value)
    }

    /// Stores an event in a queue, whether its transaction commits or not.
    #[inline(always)]
    pub fn put(&mut self, queue: usize, event: Event) -> Result<(), NoMemory>
        requires queue { Stands self.old.queues queue }
        requires time { HasMoment event.ev_time }
        requires rounds { RetriedAtMost self.old.rounds event }
        ensures mark { OnOk result ((beside : Beside) → seen_with beside self.new ≡ after_mark (seen_with beside self.old) (queued (put queue event))) }
        ensures stand { StillStand self.old.queues self.new.queues }
        ensures err { OnErr result ((beside : Beside) → seen_with beside self.new ≡ seen_with beside self.old) }
        ensures rest { KeepsRest self.old self.new }
    {
        self.slots.get_mut(queue).put(event)?;
        Ok(())
    }

    /// Stores a plain event in a queue, whether its transaction commits or not.
    #[inline(always)]
    pub fn put_plain(&mut self, queue: usize, event: PlainEvent) -> Result<(), NoMemory>
        requires queue { Stands self.old.queues queue }
        requires time { HasMoment event.ev_time }
        ensures mark { OnOk result ((beside : Beside) → seen_with beside self.new ≡ after_mark (seen_with beside self.old) (queued (put queue (full_event event)))) }
        ensures stand { StillStand self.old.queues self.new.queues }
        ensures err { OnErr result ((beside : Beside) → seen_with beside self.new ≡ seen_with beside self.old) }
        ensures rest { KeepsRest self.old self.new }
    {
        self.slots.get_mut(queue).put_plain(event)?;
        Ok(())
    }

    /// One more tick of a queue, with the snapshot as it is now and the next id, which is the answer.
    pub fn tick(&mut self, queue: usize, now: i64, snapshot: Snapshot) -> Result<u64, TickFault>
        requires queue { Stands self.old.queues queue }
        requires time { IsTime now }
        ensures id { IfOk result (λ id. id ≡ newest_id (queue_at self.old queue) + 1) }
        ensures mark { IfOk result (λ id. (beside : Beside) → snapshot ≡ snapshot_now beside.part → seen_with beside self.new
            ≡ after_mark (seen_with beside self.old) (queued (ticked queue id now (queue_at self.old queue).seq))) }
        ensures spent { (result ≡ Err TickFault.IdsSpent) ↔ (2 ^ 64 ≤ newest_id (queue_at self.old queue) + 1) }
        ensures err { OnErr result ((beside : Beside) → seen_with beside self.new ≡ seen_with beside self.old) }
        ensures rest { KeepsRest self.old self.new }
    {
        self.slots.get_mut(queue).tick(now, snapshot)
    }

    /// Registers a new consumer, with the next subscription id, which is at a tick.
    pub fn register(&mut self, queue: usize, consumer: &Text, tick: u64) -> Result<(), NoMemory>
        requires queue { Stands self.old.queues queue }
        requires new { (queue_at self.old queue).sub consumer.now ≡ None }
        requires room { length (queue_at self.old queue).members < 256 }
        requires id { self.old.last_sub_id + 1 < 2 ^ 64 }
        ensures mark { OnOk result ((beside : Beside) → seen_with beside self.new
            ≡ after_mark (seen_with beside self.old) (queued (registered queue consumer.now (self.old.last_sub_id + 1) tick))) }
        ensures err { OnErr result ((beside : Beside) → seen_with beside self.new ≡ seen_with beside self.old) }
        ensures rest { KeepsRest self.old self.new }
    {
        let id = self.last_sub_id + 1;
        self.slots
            .get_mut(queue)
            .register(self.alloc, consumer, id, tick)?;
        self.last_sub_id = id;
        Ok(())
    }

    /// A consumer is at this tick from now on. Its batch, if it had one, is given up.
    pub fn move_to(&mut self, queue: usize, consumer: &Text, tick: u64)
        requires { Stands self.old.queues queue }
        ensures mark { (beside : Beside) → seen_with beside self.new ≡ after_mark (seen_with beside self.old) (queued (moved queue consumer.now tick)) }
        ensures rest { KeepsRest self.old self.new }
    {
        let given_up = self.slots.get_mut(queue).move_to(consumer, tick);
        forget(&mut self.batches, given_up);
    }

    /// A consumer is no longer registered. Its batch, if it had one, is given up, and its retries wait no more. The
    /// answer is its subscription's id, if it was registered.
    pub fn unregister(&mut self, queue: usize, consumer: &Text) -> Option<u64>
        requires { Stands self.old.queues queue }
        ensures was { result ≡ option_map Subscription.id ((queue_at self.old queue).sub consumer.now) }
        ensures mark { IfSome result (λ sub. (beside : Beside) → seen_with beside self.new
            ≡ after_mark (seen_with beside self.old) (queued (unregistered queue consumer.now sub))) }
        ensures none { IfNone result ((beside : Beside) → seen_with beside self.new ≡ seen_with beside self.old) }
        ensures rest { KeepsRest self.old self.new }
    {
        let sub = self.slots.get_mut(queue).unregister(consumer)?;
        let id = sub.id();
        forget(&mut self.batches, sub.active());
        self.retries.drop_sub(id);
        Some(id)
    }

    /// A consumer without a batch has one from now on, with the next batch id, from its position to a tick.
    pub fn open_batch(&mut self, queue: usize, consumer: &Text, cur: u64) -> Result<(), NoMemory>
        requires queue { Stands self.old.queues queue }
        requires free { option_map Subscription.active ((queue_at self.old queue).sub consumer.now) ≡ Some None }
        requires id { self.old.last_batch_id + 1 < 2 ^ 64 }
        ensures mark { OnOk result ((beside : Beside) (sub : Subscription) → (queue_at self.old queue).sub consumer.now ≡ Some sub → seen_with beside self.new
            ≡ after_mark (seen_with beside self.old) (queued (opened
            (record { id = self.old.last_batch_id + 1; queue = queue; consumer = consumer.now; sub = sub.id; prev = sub.position; cur = cur })))) }
        ensures err { OnErr result ((beside : Beside) → seen_with beside self.new ≡ seen_with beside self.old) }
        ensures rest { KeepsRest self.old self.new }
    {
        let id = self.last_batch_id + 1;
        let place = Place {
            queue,
            consumer: consumer.copy(self.alloc)?,
        };
        self.batches.insert(id, place)?;
        self.slots
            .get_mut(queue)
            .open_batch(consumer, OpenBatch { id, cur });
        self.last_batch_id = id;
        Ok(())
    }

    /// The batch of this id is no longer active, and its consumer is at its closing tick; false if there is none.
    pub fn close_batch(&mut self, id: u64) -> bool
        ensures found { result ≡ is_some (batch_at self.old id) }
        ensures mark { IfSome (batch_at self.old id) (λ batch. (beside : Beside) → seen_with beside self.new ≡ after_mark (seen_with beside self.old) (queued (closed batch))) }
        ensures none { IfNone (batch_at self.old id) ((beside : Beside) → seen_with beside self.new ≡ seen_with beside self.old) }
        ensures rest { KeepsRest self.old self.new }
    {
        let Some(place) = self.batches.remove(&id) else {
            return false;
        };
        self.slots.get_mut(place.queue).close_batch(&place.consumer);
        true
    }

    /// Adds a trigger of the table of this name and these columns.
    pub fn trace(
        &mut self,
        name: &Text,
        schema: &Schema,
        trigger: TableTrigger,
    ) -> Result<(), NoMemory>
        requires { Stands self.old.queues trigger.trigger.queue }
        ensures ok { OnOk result ((beside : Beside) → seen_with beside self.new
            ≡ after_mark (seen_with beside self.old) (queued (traced trigger.table trigger.name trigger.trigger))) }
        ensures err { OnErr result ((beside : Beside) → seen_with beside self.new ≡ seen_with beside self.old) }
        ensures tables { (part : RowPart) → IsTable part trigger.table name.now schema.now → AreTables part self.old → AreTables part self.new }
        ensures rounds { self.new.rounds ≡ self.old.rounds }
    {
        self.keep_table(name, schema, trigger.table)?;
        self.store_trigger(trigger)
    }

    /// The table has no trigger of a set any more.
    pub fn untrace(&mut self, table: u32)
        ensures mark { (beside : Beside) → seen_with beside self.new ≡ after_mark (seen_with beside self.old) (queued (untraced table)) }
        ensures stand { StillStand self.old.queues self.new.queues }
        ensures tables { (part : RowPart) → AreTables part self.old → AreTables part self.new }
        ensures rounds { self.new.rounds ≡ self.old.rounds }
    {
        while let Some(place) = self.set_trigger(table) {
            self.remove_trigger(place);
        }
    }

    /// The place of the first trigger of a set on a table.
    fn set_trigger(&self, table: u32) -> Option<usize>
        ensures { result ≡ position (is_sets table) self.now.triggers }
    {
        self.triggers
            .iter()
            .position(|trigger| trigger.is_sets(table))
    }

    /// Removes the trigger at a place. Those after it move.
    fn remove_trigger(&mut self, place: usize)
        requires { place < length self.old.triggers }
        ensures triggers { self.new.triggers ≡ remove self.old.triggers place }
        ensures rest { self.new ≡ record self.old { triggers = self.new.triggers; traced_tables = self.new.traced_tables } }
        ensures tables { (part : RowPart) → AreTables part self.old → AreTables part self.new }
    {
        self.triggers.remove(place);
        self.traced_tables.retain(|_, table| {
            table.close_gap(place);
            true
        });
    }

    /// Keeps what events say of a table, if that isn't kept yet.
    fn keep_table(&mut self, name: &Text, schema: &Schema, number: u32) -> Result<(), NoMemory>
        ensures same { (beside : Beside) → seen_with beside self.new ≡ seen_with beside self.old }
        ensures stand { StillStand self.old.queues self.new.queues }
        ensures kept { OnOk result (is_some (kept self.new.traced_tables number) ≡ true) }
        ensures tables { (part : RowPart) → IsTable part number name.now schema.now → AreTables part self.old → AreTables part self.new }
        ensures rounds { self.new.rounds ≡ self.old.rounds }
    {
        if self.traced_tables.contains_key(&number) {
            return Ok(());
        }
        let table = TracedTable::new(self.alloc, name, schema)?;
        self.traced_tables.insert(number, table)?;
        Ok(())
    }

    /// Adds a trigger of a table that `keep_table` keeps.
    fn store_trigger(&mut self, trigger: TableTrigger) -> Result<(), NoMemory>
        requires table { is_some (kept self.old.traced_tables trigger.table) ≡ true }
        requires queue { Stands self.old.queues trigger.trigger.queue }
        ensures ok { OnOk result ((beside : Beside) → seen_with beside self.new
            ≡ after_mark (seen_with beside self.old) (queued (traced trigger.table trigger.name trigger.trigger))) }
        ensures err { OnErr result ((beside : Beside) → seen_with beside self.new ≡ seen_with beside self.old) }
        ensures tables { (part : RowPart) → AreTables part self.old → AreTables part self.new }
        ensures rounds { self.new.rounds ≡ self.old.rounds }
    {
        self.triggers.reserve(1)?;
        let place = self.triggers.len();
        match self.traced_tables.get_mut(&trigger.table) {
            Some(table) => table.add(place)?,
            None => unreachable!(),
        }
        self.triggers.push_reserved(trigger);
        Ok(())
    }
}

/// Forgets where the batch is that was given up, if one was.
fn forget(places: &mut BTreeMap<u64, Place>, given_up: Option<OpenBatch>)
    ensures { (id : ℕ) → kept places.new.entries id ≡ but_of (option_map OpenBatch.id given_up) id (kept places.old.entries id) }
{
    if let Some(batch) = given_up {
        places.remove(&batch.id);
    }
}
