ghost use Rattle.std.specs.Prelude.{◌≡◌, ℕ, ℤ, ◌+◌, ◌-◌, [], ◌<◌, ◌^◌, ◌∷◌, ◌++◌, Some, None, IfOk, IfErr, OnOk, OnErr, IfNone, IfSome, length, is_none, is_some, ◌↔◌, ◌≤◌, Ok, Err, find, map, ◌==◌, true, option_map, option_copied};
ghost use Rattle.pgq_tables.specs.Tables.{full_event, recorded_part, with_stored, with_pending};
ghost use Rattle.sky_model.specs.Config.{param_of};
ghost use Rattle.pgq_tick.specs.Config.{set_to};
ghost use Rattle.sky_model.specs.Queues.{newest_tick, id_of, tick};
ghost use Rattle.sky_model.specs.Selection.{selected_in};
ghost use Rattle.pgq_sub.specs.Views.{with_open, finished, at_tick};
ghost use Rattle.pgq_sub.specs.Seen.{seen_subs, open_in, with_member, with_sub, without_member};
ghost use Rattle.sky_model.specs.StepQueue.{is_due, info_of, has_part_in};
ghost use Rattle.pgq_queue.specs.Seen.{seen_queue, seen_span};
ghost use Rattle.pgq_queue.specs.Made.{new_queue};
ghost use Rattle.sky_model.specs.Moment.{HasMoment, IsTime};
ghost use Rattle.sky_model.specs.Printed.{EventsHaveMoments};
ghost use Rattle.pgq_queue.specs.Views.{QueueView};
ghost use Rattle.pgq_queue.specs.Changed.{telling, retabled, undone_in, settled_in, ended_in, switched_in};
ghost use Rattle.pgq_queue.specs.Stored.{RetriedAtMost, AllStored};
ghost use Rattle.pgq_queue.specs.Looked.{most_between, AreLookedAtIn};
ghost use Rattle.sky_model.specs.Telling.{told_event};
ghost use Rattle.sky_urlenc.specs.RowEvents.{RowEvent};

use crate::span::Span;
use pgq_sub::{OpenBatch, Sub, Subs};
use pgq_tables::{EventTables, Looked, PlainEvent, Recorded};
use pgq_tick::{ConfigFault, QueueConfig, Tick, TickFault, Ticks};
use sky_model::{Counts, QueueInfo};
use sky_txid::Snapshot;
use sky_urlenc::RowEvent;
use sky_val::{Event, NoMemory, Text};
use std::alloc::Global;
use std::marker::Model;

/// How many event tables a queue has.
const TABLES: usize = 3;

/// A queue: its settings, its sequence, its event tables, its ticks and its consumers.
#[derive(Drop)]
pub struct Queue {
    alloc: Global,
    pub(crate) config: QueueConfig,
    seq: u64,
    pub(crate) event_tables: EventTables,
    pub(crate) ticks: Ticks,
    pub(crate) subs: Subs,
}

impl Model for Queue {
    ghost use Rattle.sky_model.specs.Moment.{HasMoment, IsTime};
    ghost use Rattle.pgq_queue.specs.Views.{QueueView};
    ghost use Rattle.pgq_queue.specs.Stored.{AllStored};

    ghost Value = { QueueView };

    ghost invariant = { λ q. AllStored (λ e. HasMoment e.ev_time) q.event_tables.tables × IsTime q.event_tables.tables.switched_at };

    ghost view = { λ q. record { config = q.config; seq = q.seq; event_tables = q.event_tables; ticks = q.ticks; subs = q.subs } };
}

impl Queue {
    /// A queue that a transaction made at this moment, with its first tick.
    pub fn new(alloc: Global, txid: u64, now: i64, snapshot: Snapshot) -> Result<Queue, NoMemory>
        requires { IsTime now }
        ensures { IfOk result (λ queue. queue ≡ new_queue txid now snapshot) }
    {
        let first = Tick {
            id: 1,
            time: now,
            snapshot,
            seq: 0,
        };
        let ticks = Ticks::new(alloc, first)?;
        Ok(Queue {
            alloc,
            config: QueueConfig::new(),
            seq: 0,
            event_tables: EventTables::new(alloc, TABLES, txid, now)?,
            ticks,
            subs: Subs::new(alloc),
        })
    }

    /// The allocator that it was made with.
    pub fn alloc(&self) -> Global {
        self.alloc
    }

    /// The value of the sequence.
    pub fn seq(&self) -> u64
        ensures { result ≡ self.now.seq }
    {
        self.seq
    }

    /// How its ticker is set.
    pub fn config(&self) -> &QueueConfig
        ensures { result.now ≡ (seen_queue self.now).config }
    {
        &self.config
    }

    /// What is shown of it.
    pub fn info(&self, alloc: Global) -> Result<QueueInfo, NoMemory>
        ensures { IfOk result (λ info. info ≡ info_of (seen_queue self.now)) }
    {
        let mut stored = Vec::with_capacity(alloc, TABLES)?;
        for table in 0..self.event_tables.len() {
            stored.push(self.event_tables.count(table) as u64)?;
        }
        Ok(QueueInfo {
            current: self.event_tables.current() as u64,
            last_tick: self.ticks.newest().id(),
            seq: self.seq,
            stored: Counts::new(stored),
        })
    }

    /// Whether a tick is due at this time.
    pub fn is_due(&self, now: i64) -> bool
        requires { IsTime now }
        ensures { result ≡ is_due now (seen_queue self.now) }
    {
        self.ticks.due(&self.config, now, self.seq)
    }

    /// The ticks, of which there is at least one.
    pub fn ticks(&self) -> &Ticks
        ensures { result.now ≡ self.now.ticks }
    {
        &self.ticks
    }

    /// How many consumers there are.
    pub fn consumer_count(&self) -> usize
        ensures { result ≡ length (seen_queue self.now).members }
    {
        self.subs.len()
    }

    /// The subscription of a consumer, if it is registered.
    pub fn sub(&self, consumer: &Text) -> Option<&Sub>
        ensures { option_copied result ≡ (seen_subs self.now.subs).kept consumer.now }
    {
        self.subs.get(consumer)
    }

    /// Whether a consumer is registered.
    pub fn has_consumer(&self, consumer: &Text) -> bool
        ensures { result ≡ is_some ((seen_queue self.now).sub consumer.now) }
    {
        self.sub(consumer).is_some()
    }

    /// The first of these transactions that has an event here, or makes the pending switch.
    pub fn first_producer(&self, txids: &[u64]) -> Option<u64>
        ensures { result ≡ find (has_part_in (seen_queue self.now).event_tables) txids.now }
    {
        txids.iter().copied().find(|txid| self.has_part(*txid))
    }

    /// Whether a transaction has an event here, or makes the pending switch.
    fn has_part(&self, txid: u64) -> bool
        ensures { result ≡ has_part_in (seen_queue self.now).event_tables txid }
    {
        self.event_tables.has_writer(txid) || self.event_tables.pending() == Some(txid)
    }

    /// The sequence has this value from now on.
    pub fn raise(&mut self, value: u64)
        ensures { self.new ≡ record self.old { seq = value } }
    {
        self.seq = value;
    }

    /// The parameter of this name has the value that a text writes from now on.
    pub fn configure(&mut self, param: &[u8], value: &[u8]) -> Result<(), ConfigFault>
        ensures ok { OnOk result (set_to self.old.config (param_of param.now) value.now ≡ Ok self.new.config) }
        ensures but { self.new ≡ record self.old { config = self.new.config } }
        ensures fault { IfErr result (λ fault. set_to self.old.config (param_of param.now) value.now ≡ Err fault) }
        ensures err { OnErr result (self.new ≡ self.old) }
    {
        self.config.set(param, value)
    }

    /// Stores an event.
    #[inline(always)]
    pub fn put(&mut self, event: Event) -> Result<(), NoMemory>
        requires { HasMoment event.ev_time }
        ensures ok { OnOk result (self.new ≡ retabled (with_stored event) self.old) }
        ensures err { OnErr result (self.new ≡ self.old) }
    {
        self.event_tables.insert(event)
    }

    /// Stores a plain event.
    #[inline(always)]
    pub fn put_plain(&mut self, event: PlainEvent) -> Result<(), NoMemory>
        requires { HasMoment event.ev_time }
        ensures ok { OnOk result (self.new ≡ retabled (with_stored (full_event event)) self.old) }
        ensures err { OnErr result (self.new ≡ self.old) }
    {
        self.event_tables.insert_plain(event)
    }

    /// Stores one more event of a trigger, which takes the next id.
    pub fn tell(&mut self, now: i64, txid: u64, event: RowEvent) -> Result<(), NoMemory>
        requires time { HasMoment now }
        requires id { self.old.seq + 1 < 2 ^ 62 }
        ensures ok { OnOk result (self.new ≡ telling now txid event self.old) }
        ensures err { OnErr result (self.new ≡ self.old) }
    {
        let id = self.seq + 1;
        self.event_tables.insert(told_event(id, now, txid, event))?;
        self.seq = id;
        Ok(())
    }

    /// Takes the last event of a trigger back, and its id.
    pub fn take_back(&mut self)
        requires { (now : ℤ) × (t : ℕ) × (e : RowEvent) × (q : QueueView) × (self.old ≡ telling now t e q) }
        ensures { (now : ℤ) (t : ℕ) (e : RowEvent) (q : QueueView) → self.old ≡ telling now t e q → self.new ≡ q }
    {
        self.event_tables.take_back();
        self.seq -= 1;
    }

    /// One more tick, with the next id, which is the answer.
    pub fn tick(&mut self, now: i64, snapshot: Snapshot) -> Result<u64, TickFault>
        requires { IsTime now }
        ensures id { IfOk result (λ id. id ≡ id_of (newest_tick self.old.ticks) + 1) }
        ensures ok { IfOk result (λ id. self.new ≡ record self.old { ticks = self.old.ticks ++ record { id = id; time = now; snapshot = snapshot; seq = self.old.seq } ∷ [] }) }
        ensures spent { (result ≡ Err TickFault.IdsSpent) ↔ (2 ^ 64 ≤ id_of (newest_tick self.old.ticks) + 1) }
        ensures err { OnErr result (self.new ≡ self.old) }
    {
        self.ticks.add(now, snapshot, self.seq)
    }

    /// Registers a new consumer as a subscription that is at a tick.
    pub fn register(
        &mut self,
        alloc: Global,
        consumer: &Text,
        id: u64,
        position: u64,
    ) -> Result<(), NoMemory>
        requires new { (seen_queue self.old).sub consumer.now ≡ None }
        requires room { length (seen_queue self.old).members < 256 }
        ensures subs { OnOk result (seen_subs self.new.subs ≡ with_member consumer.now id position (seen_subs self.old.subs)) }
        ensures but { self.new ≡ record self.old { subs = self.new.subs } }
        ensures err { OnErr result (self.new ≡ self.old) }
    {
        self.subs.register(alloc, consumer, id, position)?;
        Ok(())
    }

    /// A consumer has this batch from now on.
    pub fn open_batch(&mut self, consumer: &Text, batch: OpenBatch)
        ensures subs { seen_subs self.new.subs ≡ with_sub consumer.now (with_open batch) (seen_subs self.old.subs) }
        ensures but { self.new ≡ record self.old { subs = self.new.subs } }
    {
        self.subs.open_batch(consumer, batch);
    }

    /// A consumer has finished its batch, if it has one, and is at its closing tick.
    pub fn close_batch(&mut self, consumer: &Text)
        ensures subs { seen_subs self.new.subs ≡ with_sub consumer.now finished (seen_subs self.old.subs) }
        ensures but { self.new ≡ record self.old { subs = self.new.subs } }
    {
        self.subs.finish(consumer);
    }

    /// A consumer is at this tick from now on. Its batch, if it had one, is given up, and is the answer.
    pub fn move_to(&mut self, consumer: &Text, tick: u64) -> Option<OpenBatch>
        ensures subs { seen_subs self.new.subs ≡ with_sub consumer.now (at_tick tick) (seen_subs self.old.subs) }
        ensures but { self.new ≡ record self.old { subs = self.new.subs } }
        ensures given_up { result ≡ open_in ((seen_subs self.old.subs).kept consumer.now) }
    {
        self.subs.move_to(consumer, tick)
    }

    /// A consumer is no longer registered. The answer is the subscription that it had.
    pub fn unregister(&mut self, consumer: &Text) -> Option<Sub>
        ensures subs { seen_subs self.new.subs ≡ without_member consumer.now (seen_subs self.old.subs) }
        ensures but { self.new ≡ record self.old { subs = self.new.subs } }
        ensures was { result ≡ (seen_subs self.old.subs).kept consumer.now }
        ensures none { IfNone result (self.new ≡ self.old) }
    {
        self.subs.unregister(consumer)
    }

    /// The events of a batch of this queue; none if one of its ticks isn't kept.
    pub fn select(&mut self, alloc: Global, span: Span) -> Result<Vec<Event>, NoMemory>
        ensures events { IfOk result (λ events. events.items ≡ selected_in (seen_queue self.old) (seen_span span)) }
        ensures moments { IfOk result (λ events. EventsHaveMoments events.items) }
        ensures but { self.new ≡ record self.old { event_tables = record self.old.event_tables { reads = self.new.event_tables.reads } } }
        ensures lower { IfOk result (λ events. self.new.event_tables.reads < 2 ^ 64 - 1 → length events.items + self.old.event_tables.reads ≤ self.new.event_tables.reads) }
        ensures upper { OnOk result (self.new.event_tables.reads ≤ self.old.event_tables.reads + most_between (tick span.prev self.old.ticks) (tick span.cur self.old.ticks) self.old.event_tables.tables) }
    {
        let ticks = (self.ticks.get(span.prev), self.ticks.get(span.cur));
        match ticks {
            (Some(prev), Some(cur)) => pgq_batch::select(
                alloc,
                &mut self.event_tables,
                prev.snapshot(),
                cur.snapshot(),
                span.sub,
            ),
            _ => Ok(Vec::new(alloc)),
        }
    }

    /// Looks at the events that a batch of this queue may have: at none if one of its ticks isn't kept.
    pub fn look(&mut self, alloc: Global, span: Span) -> Result<Vec<Looked>, NoMemory>
        ensures looked { IfOk result (λ looks. AreLookedAtIn (seen_queue self.old) (seen_span span) looks.items) }
        ensures but { self.new ≡ record self.old { event_tables = record self.old.event_tables { reads = self.new.event_tables.reads } } }
        ensures lower { OnOk result (self.new.event_tables.reads < 2 ^ 64 - 1 → length (selected_in (seen_queue self.old) (seen_span span)) + self.old.event_tables.reads ≤ self.new.event_tables.reads) }
        ensures upper { OnOk result (self.new.event_tables.reads ≤ self.old.event_tables.reads + most_between (tick span.prev self.old.ticks) (tick span.cur self.old.ticks) self.old.event_tables.tables) }
    {
        let ticks = (self.ticks.get(span.prev), self.ticks.get(span.cur));
        match ticks {
            (Some(prev), Some(cur)) => {
                let (prev, cur) = (prev.snapshot(), cur.snapshot());
                pgq_batch::look(alloc, &mut self.event_tables, prev, cur)
            }
            _ => Ok(Vec::new(alloc)),
        }
    }

    /// What the events of a batch of this queue record, which were looked at.
    pub fn recorded(
        &self,
        alloc: Global,
        span: Span,
        looks: Vec<Looked>,
    ) -> Result<Vec<Recorded<'_>>, NoMemory>
        requires { AreLookedAtIn (seen_queue self.now) (seen_span span) looks.items }
        ensures { IfOk result (λ events. events.items ≡ map recorded_part (selected_in (seen_queue self.now) (seen_span span))) }
    {
        let ticks = (self.ticks.get(span.prev), self.ticks.get(span.cur));
        match ticks {
            (Some(prev), Some(cur)) => {
                let (prev, cur) = (prev.snapshot(), cur.snapshot());
                let found = pgq_batch::lend(alloc, &self.event_tables, looks, prev, cur, span.sub)?;
                pgq_batch::recorded(alloc, &found)
            }
            _ => Ok(Vec::new(alloc)),
        }
    }

    /// Of the events of a batch of this queue the first with an id. Those with equal ids are in the order in which they
    /// are stored.
    pub fn find(&mut self, alloc: Global, span: Span, id: u64) -> Result<Option<Event>, NoMemory>
        ensures found { IfOk result (λ found. found ≡ find (λ e. e.ev_id == id) (selected_in (seen_queue self.old) (seen_span span))) }
        ensures moment { IfOk result (λ found. IfSome found (λ e. HasMoment e.ev_time)) }
        ensures rounds { (rounds : ℕ) → AllStored (RetriedAtMost rounds) self.old.event_tables.tables → IfOk result (λ found. IfSome found (λ e. RetriedAtMost rounds e)) }
        ensures but { self.new ≡ record self.old { event_tables = record self.old.event_tables { reads = self.new.event_tables.reads } } }
        ensures upper { OnOk result (self.new.event_tables.reads ≤ self.old.event_tables.reads + most_between (tick span.prev self.old.ticks) (tick span.cur self.old.ticks) self.old.event_tables.tables) }
    {
        let ticks = (self.ticks.get(span.prev), self.ticks.get(span.cur));
        match ticks {
            (Some(prev), Some(cur)) => pgq_batch::find(
                alloc,
                &mut self.event_tables,
                prev.snapshot(),
                cur.snapshot(),
                span.sub,
                id,
            ),
            _ => Ok(None),
        }
    }

    /// A transaction was rolled back: its events are dead, and its switch isn't pending any more.
    pub fn undo(&mut self, txid: u64)
        ensures { self.new ≡ undone_in txid self.old }
    {
        if self.event_tables.pending() == Some(txid) {
            self.event_tables.drop_switch();
        }
        self.event_tables.mark_dead(txid);
    }

    /// A switch is pending, which the commit of a transaction makes.
    pub fn begin_switch(&mut self, txid: u64)
        requires { self.old.event_tables.tables.pending ≡ None }
        ensures { self.new ≡ retabled (with_pending txid) self.old }
    {
        self.event_tables.begin_switch(txid);
    }

    /// The pending switch is made, and the ticks are dropped that aren't above the second step of the one before.
    pub fn commit_switch(&mut self, now: i64)
        requires time { IsTime now }
        requires pending { is_some self.old.event_tables.tables.pending ≡ true }
        ensures { self.new ≡ switched_in now self.old }
    {
        self.ticks
            .drop_below(self.event_tables.step2_id().unwrap_or(0));
        self.event_tables.commit_switch(now);
    }

    /// The pending switch is made if this transaction makes it.
    pub fn settle(&mut self, txid: u64, now: i64)
        requires { IsTime now }
        ensures { self.new ≡ settled_in txid now self.old }
    {
        if self.event_tables.pending() == Some(txid) {
            self.commit_switch(now);
        }
    }

    /// Whether the second step of the last switch is missing.
    pub fn lacks_second_step(&self) -> bool
        ensures { result ≡ is_none self.now.event_tables.tables.second_step }
    {
        self.event_tables.step2_id().is_none()
    }

    /// A transaction makes the second step of the last switch, if it is missing.
    pub fn end_switch(&mut self, txid: u64)
        ensures { self.new ≡ ended_in txid self.old }
    {
        if self.lacks_second_step() {
            self.event_tables.step2(txid);
        }
    }
}

/// The event of a trigger with its id, of a transaction.
fn told_event(id: u64, now: i64, txid: u64, event: RowEvent) -> Event
    ensures { result ≡ told_event id now txid event }
{
    Event {
        ev_id: id,
        ev_time: now,
        ev_txid: txid,
        ev_owner: None,
        ev_retry: None,
        ev_type: Some(event.ev_type),
        ev_data: event.ev_data,
        ev_extra1: Some(event.ev_extra1),
        ev_extra2: event.ev_extra2,
        ev_extra3: None,
        ev_extra4: None,
    }
}
