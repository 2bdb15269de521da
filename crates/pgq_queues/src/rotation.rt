//! How the event tables of queues are rotated: a switch begins, a commit makes it, and a later transaction ends it.

ghost use Rattle.std.specs.Prelude.{◌≡◌, ◌≤◌, true, None, Some, IfOk, IfSome, drop, is_some, length};
ghost use Rattle.std.specs.List.{All};
ghost use Rattle.sky_model.specs.History.{queued, switching, switched};
ghost use Rattle.sky_model.specs.Moment.{IsTime};
ghost use Rattle.sky_model.specs.State.{after_mark, after_marks};
ghost use Rattle.sky_model.specs.StepRotation.{held_back, lack_second_step, second_steps, switches_of};
ghost use Rattle.pgq_queues.specs.Seen.{seen_with, queue_at, Stands, Beside};
ghost use Rattle.pgq_queues.specs.Batches.{StillStand};
ghost use Rattle.pgq_queue.specs.Held.{IsPrinted};
ghost use Rattle.pgq_queue.specs.Changed.{settled_in, ended_in};
ghost use Rattle.pgq_queues.specs.Rotated.{each_changed};
ghost use Rattle.pgq_queues.specs.Traced.{KeepsRest};

use crate::queues::Queues;
use crate::slots::Slots;
use sky_model::HeldBack;
use sky_names::Named;
use sky_val::NoMemory;

impl Queues {
    /// What holds a switch of a queue back, if anything does.
    pub fn held_back(&self, queue: usize, now: i64) -> Result<Option<HeldBack>, NoMemory>
        requires stands { Stands self.now.queues queue }
        requires time { IsTime now }
        ensures held { IfOk result (λ held. held ≡ held_back now (queue_at self.now queue)) }
        ensures moment { IfOk result (λ held. IfSome held IsPrinted) }
    {
        self.queue(queue).held_back(self.alloc, now)
    }

    /// Whether anything holds a switch of a queue back. No memory is taken.
    pub fn is_held_back(&self, queue: usize, now: i64) -> bool
        requires stands { Stands self.now.queues queue }
        requires time { IsTime now }
        ensures { result ≡ is_some (held_back now (queue_at self.now queue)) }
    {
        self.queue(queue).is_held_back(now)
    }

    /// A switch of a queue is pending, which the commit of a transaction makes.
    pub fn begin_switch(&mut self, queue: usize, txid: u64)
        requires stands { Stands self.old.queues queue }
        requires none { (queue_at self.old queue).event_tables.pending ≡ None }
        ensures mark { (beside : Beside) → seen_with beside self.new ≡ after_mark (seen_with beside self.old) (queued (switching queue txid)) }
        ensures stand { StillStand self.old.queues self.new.queues }
        ensures rest { KeepsRest self.old self.new }
    {
        self.slots.get_mut(queue).begin_switch(txid);
    }

    /// The pending switch of a queue is made.
    pub fn commit_switch(&mut self, queue: usize, now: i64)
        requires stands { Stands self.old.queues queue }
        requires time { IsTime now }
        requires pending { is_some (queue_at self.old queue).event_tables.pending ≡ true }
        ensures mark { (beside : Beside) → seen_with beside self.new ≡ after_mark (seen_with beside self.old) (queued (switched queue now)) }
        ensures stand { StillStand self.old.queues self.new.queues }
        ensures rest { KeepsRest self.old self.new }
    {
        self.slots.get_mut(queue).commit_switch(now);
    }

    /// A transaction commits: the switches that it has pending are made.
    pub fn switch_tables(&mut self, txid: u64, now: i64)
        requires { IsTime now }
        ensures marks { (beside : Beside) → seen_with beside self.new
            ≡ after_marks (seen_with beside self.old) (switches_of (seen_with beside self.old) now (Some txid)) }
        ensures stand { StillStand self.old.queues self.new.queues }
        ensures rest { KeepsRest self.old self.new }
    {
        settle_each(&mut self.slots, &self.names, 0, txid, now);
    }

    /// How many queues lack the second step of their last switch.
    pub fn unfinished(&self) -> usize
        ensures { (beside : Beside) → result ≡ length (lack_second_step (seen_with beside self.now)) }
    {
        let mut count = 0;
        for place in 0..self.count() {
            if self.queue(self.number_at(place)).lacks_second_step() {
                count += 1;
            }
        }
        count
    }

    /// A transaction makes the second step of each switch that lacks it.
    pub fn end_switches(&mut self, txid: u64)
        ensures marks { (beside : Beside) → seen_with beside self.new
            ≡ after_marks (seen_with beside self.old) (second_steps txid (lack_second_step (seen_with beside self.old))) }
        ensures stand { StillStand self.old.queues self.new.queues }
        ensures rest { KeepsRest self.old self.new }
    {
        end_each(&mut self.slots, &self.names, 0, txid);
    }
}

/// Makes the switches that a transaction has pending, of the queues whose names are at this place or after it.
fn settle_each(queues: &mut Slots, names: &Named<usize>, place: usize, txid: u64, now: i64)
    requires place { place ≤ length names.now.values }
    requires time { IsTime now }
    requires stand { All (Stands queues.old) names.now.values }
    ensures each { queues.new ≡ each_changed (settled_in txid now) (drop place names.now.values) queues.old }
    ensures stand { StillStand queues.old queues.new }
{
    if place < names.len() {
        queues.get_mut(*names.get(place)).settle(txid, now);
        settle_each(queues, names, place + 1, txid, now);
    }
}

/// A transaction makes the missing second steps of the queues whose names are at this place or after it.
fn end_each(queues: &mut Slots, names: &Named<usize>, place: usize, txid: u64)
    requires place { place ≤ length names.now.values }
    requires stand { All (Stands queues.old) names.now.values }
    ensures each { queues.new ≡ each_changed (ended_in txid) (drop place names.now.values) queues.old }
    ensures stand { StillStand queues.old queues.new }
{
    if place < names.len() {
        queues.get_mut(*names.get(place)).end_switch(txid);
        end_each(queues, names, place + 1, txid);
    }
}
