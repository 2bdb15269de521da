//! What holds a switch of a queue's event tables back, and from which tick on consumers may register.

ghost use Rattle.std.specs.Prelude.{◌≡◌, ℕ, List, Some, ◌<◌, IfOk, IfSome, is_some, length, slice_get, option_map, option_copied};
ghost use Rattle.sky_model.specs.declared.reply.HeldBack.TheVariants.{Consumer};
ghost use Rattle.sky_model.specs.Moment.{IsTime, HasMoment};
ghost use Rattle.sky_model.specs.StepConsumer.{floor};
ghost use Rattle.sky_model.specs.StepRotation.{period_ends, held_by_consumer, held_by_consumers, held_by_newest, held_by_second_step, held_back};
ghost use Rattle.pgq_queue.specs.Seen.{seen_queue};
ghost use Rattle.pgq_queue.specs.Held.{IsPrinted};

use crate::queue::Queue;
use pgq_tick::Tick;
use sky_model::HeldBack;
use sky_val::NoMemory;
use std::alloc::Global;

impl Queue {
    /// What holds a switch of the event tables back, if anything does.
    pub fn held_back(&self, alloc: Global, now: i64) -> Result<Option<HeldBack>, NoMemory>
        requires { IsTime now }
        ensures held { IfOk result (λ held. held ≡ held_back now (seen_queue self.now)) }
        ensures moment { IfOk result (λ held. IfSome held IsPrinted) }
    {
        if let Some(txid) = self.event_tables.pending() {
            return Ok(Some(HeldBack::Pending(txid)));
        }
        let ends = self.period_ends();
        if now < ends {
            return Ok(Some(HeldBack::Period(ends)));
        }
        match self.event_tables.step2_id() {
            Some(txid) => self.held_by_step2(alloc, txid),
            None => Ok(Some(HeldBack::SecondStep(self.event_tables.step1_id()))),
        }
    }

    /// Whether anything does. No memory is taken.
    pub fn is_held_back(&self, now: i64) -> bool
        requires { IsTime now }
        ensures { result ≡ is_some (held_back now (seen_queue self.now)) }
    {
        if self.event_tables.pending().is_some() || now < self.period_ends() {
            return true;
        }
        match self.event_tables.step2_id() {
            Some(txid) => self.has_too_old(txid) || self.held_by_newest(txid).is_some(),
            None => true,
        }
    }

    /// Whether the position of a consumer isn't above a transaction.
    fn has_too_old(&self, txid: u64) -> bool
        ensures { result ≡ is_some (held_by_consumers txid (seen_queue self.now) (seen_queue self.now).members) }
    {
        for place in 0..self.subs.len() {
            if self.too_old(place, txid).is_some() {
                return true;
            }
        }
        false
    }

    /// The moment at which the rotation period ends.
    fn period_ends(&self) -> i64
        ensures value { result ≡ period_ends (seen_queue self.now) }
        ensures moment { HasMoment result }
    {
        self.event_tables.switched_at() + self.config.rotation_period()
    }

    /// What a switch whose second step a transaction made holds back.
    fn held_by_step2(&self, alloc: Global, txid: u64) -> Result<Option<HeldBack>, NoMemory>
        ensures held { IfOk result (λ held. held ≡ held_by_second_step (seen_queue self.now) (Some txid)) }
        ensures moment { IfOk result (λ held. IfSome held IsPrinted) }
    {
        match self.held_by_consumers(alloc, txid)? {
            Some(held) => Ok(Some(held)),
            None => Ok(self.held_by_newest(txid)),
        }
    }

    /// The first consumer, in the order of registering, whose position isn't above a transaction.
    fn held_by_consumers(&self, alloc: Global, txid: u64) -> Result<Option<HeldBack>, NoMemory>
        ensures held { IfOk result (λ held. held ≡ held_by_consumers txid (seen_queue self.now) (seen_queue self.now).members) }
        ensures moment { IfOk result (λ held. IfSome held IsPrinted) }
    {
        for place in 0..self.subs.len() {
            if let Some(tick) = self.too_old(place, txid) {
                return Ok(Some(HeldBack::Consumer {
                    consumer: self.subs.consumer(place).copy(alloc)?,
                    tick: tick.id(),
                    xmin: tick.xmin(),
                }));
            }
        }
        Ok(None)
    }

    /// The position of the consumer at a place, if it isn't above a transaction.
    fn too_old(&self, place: usize, txid: u64) -> Option<&Tick>
        requires { place < length (seen_queue self.now).members }
        ensures { (consumer : List ℕ) → slice_get (seen_queue self.now).members place ≡ Some consumer → held_by_consumer txid (seen_queue self.now) consumer
            ≡ option_map (λ at. Consumer consumer at.id at.snapshot.xmin) (option_copied result) }
    {
        let tick = self.ticks.get(self.subs.at(place).position())?;
        if tick.is_above(txid) {
            return None;
        }
        Some(tick)
    }

    /// The newest tick, if it isn't above a transaction.
    fn held_by_newest(&self, txid: u64) -> Option<HeldBack>
        ensures held { result ≡ held_by_newest txid (seen_queue self.now) }
        ensures moment { IfSome result IsPrinted }
    {
        let newest = self.ticks.newest();
        if newest.is_above(txid) {
            return None;
        }
        Some(HeldBack::Tick(newest.id(), newest.xmin()))
    }

    /// The least tick at which a consumer may register.
    pub fn floor(&self) -> u64
        ensures { result ≡ floor (seen_queue self.now) }
    {
        let above = match self.event_tables.pending() {
            Some(_) => self.event_tables.step2_id().unwrap_or(0),
            None => 0,
        };
        self.ticks.least(above).unwrap_or(0)
    }
}
