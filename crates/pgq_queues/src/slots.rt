ghost use Rattle.std.specs.Prelude.{◌≡◌, ◌<◌, [], ◌∷◌, ◌++◌, List, OnOk, OnErr, length, slice_index_or, slice_set};
ghost use Rattle.std.specs.Borrow.{Lends, sem};
ghost use Rattle.sky_model.specs.Moment.{IsTime};
ghost use Rattle.pgq_queue.specs.Views.{QueueView};
ghost use Rattle.pgq_queue.specs.Seen.{no_queue};
ghost use Rattle.pgq_queues.specs.Seen.{Stands};
ghost use Rattle.pgq_queue.specs.Made.{new_queue};

use pgq_queue::Queue;
use sky_txid::Snapshot;
use sky_val::NoMemory;
use std::alloc::Global;
use std::marker::Model;

/// Queues by their numbers, which are places in the order of making. A number is given once: a queue that was dropped
/// leaves its place empty.
#[derive(Drop)]
pub struct Slots {
    // Each has one queue or none. An option of a box would do, but the checker follows a reference into a vector, and
    // none into a box.
    slots: Vec<Vec<Queue>>,
}

impl Model for Slots {
    ghost use Rattle.std.specs.Prelude.{List, map, slice_index_or};
    ghost use Rattle.pgq_queue.specs.Views.{QueueView};
    ghost use Rattle.pgq_queue.specs.Seen.{no_queue};

    ghost Value = { List QueueView };

    ghost view = { λ s. map (λ slot. slice_index_or slot.items 0 no_queue) s.slots.items };
}

impl Slots {
    ghost use Rattle.pgq_queues.specs.contracts.slots.Slots.{the_row};
    ghost use Rattle.pgq_queue.specs.contracts.queue.Queue as of_queue;

    /// No queues.
    pub(crate) fn new(alloc: Global) -> Slots
        ensures { result ≡ [] }
    {
        Slots {
            slots: Vec::new(alloc),
        }
    }

    /// How many queues were made.
    pub(crate) fn len(&self) -> usize
        ensures { result ≡ length self.now }
    {
        self.slots.len()
    }

    /// The queue of this number.
    pub(crate) fn get(&self, number: usize) -> &Queue
        requires { Stands self.now number }
        ensures value { result.now ≡ slice_index_or self.now number result.now }
        ensures within { number < length self.now }
    {
        &self.slots[number][0]
    }

    /// The queue of this number, to be changed.
    pub(crate) fn get_mut(&mut self, number: usize) -> &mut Queue
        requires { Stands self.old number }
        ensures* writes_back { sem 𝓛 (Lends the_row of_queue.the_row self.entry result (λ queue. slice_set self.old number queue)) }
        ensures value { result.now ≡ slice_index_or self.old number result.now }
        ensures within { number < length self.old }
    {
        &mut self.slots[number][0]
    }

    /// Appends a queue, which has the next number, as a transaction makes it at this moment.
    pub(crate) fn make(&mut self, txid: u64, now: i64, snapshot: Snapshot) -> Result<(), NoMemory>
        requires { IsTime now }
        ensures ok { OnOk result (self.new ≡ self.old ++ new_queue txid now snapshot ∷ []) }
        ensures err { OnErr result (self.new ≡ self.old) }
    {
        let alloc = *self.slots.allocator();
        self.slots.reserve(1)?;
        let mut slot = Vec::with_capacity(alloc, 1)?;
        slot.push_reserved(Queue::new(alloc, txid, now, snapshot)?);
        self.slots.push_reserved(slot);
        Ok(())
    }

    /// Takes the last queue back: its number is free.
    pub(crate) fn take_back(&mut self)
        ensures { (queues : List QueueView) (queue : QueueView) → self.old ≡ queues ++ queue ∷ [] → self.new ≡ queues }
    {
        self.slots.pop();
    }

    /// Drops the queue of this number.
    pub(crate) fn remove(&mut self, number: usize)
        requires { number < length self.old }
        ensures { self.new ≡ slice_set self.old number no_queue }
    {
        self.slots[number] = Vec::new(*self.slots.allocator());
    }
}
