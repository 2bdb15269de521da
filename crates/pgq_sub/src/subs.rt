ghost use Rattle.std.specs.Prelude.{◌≡◌, ℕ, ◌<◌, ◌^◌, ◌-◌, List, Some, None, OnOk, OnErr, IfNone, length, slice_get, option_copied};
ghost use Rattle.pgq_sub.specs.Views.{with_open, finished, at_tick};
ghost use Rattle.pgq_sub.specs.Seen.{seen_subs, open_in, no_subs, with_member, with_sub, without_member};

use crate::sub::{OpenBatch, Sub};
use sky_names::Named;
use sky_val::{NoMemory, Text};
use std::alloc::Global;
use std::marker::Model;

/// The subscriptions of a queue by their consumers, in the order of registering.
#[derive(Drop)]
pub struct Subs {
    subs: Named<Sub>,
}

impl Model for Subs {
    ghost use Rattle.sky_names.specs.Named.{NamedView};
    ghost use Rattle.pgq_sub.specs.Views.{SubView};

    ghost Value = { NamedView SubView };

    ghost view = { λ s. s.subs };
}

impl Subs {
    /// No subscriptions.
    pub fn new(alloc: Global) -> Subs
        ensures { result ≡ no_subs }
    {
        Subs {
            subs: Named::new(alloc),
        }
    }

    /// How many there are.
    pub fn len(&self) -> usize
        ensures { result ≡ length self.now.names }
    {
        self.subs.len()
    }

    /// The subscription of a consumer, if it is registered.
    pub fn get(&self, consumer: &Text) -> Option<&Sub>
        ensures { option_copied result ≡ (seen_subs self.now).kept consumer.now }
    {
        let number = self.subs.number(consumer)?;
        Some(self.subs.get(number as usize))
    }

    /// The consumer at a place in the order of registering.
    pub fn consumer(&self, place: usize) -> &Text
        requires { place < length self.now.names }
        ensures { slice_get self.now.names place ≡ Some result.now }
    {
        &self.subs.names()[place]
    }

    /// The subscription of the consumer at a place.
    pub fn at(&self, place: usize) -> &Sub
        requires { place < length self.now.names }
        ensures { (consumer : List ℕ) → slice_get self.now.names place ≡ Some consumer → (seen_subs self.now).kept consumer ≡ Some result.now }
    {
        // No other one has its name.
        let _ = self.subs.names();
        self.subs.get(place)
    }

    /// Registers a new consumer as a subscription that is at a tick.
    pub fn register(
        &mut self,
        alloc: Global,
        consumer: &Text,
        id: u64,
        position: u64,
    ) -> Result<(), NoMemory>
        requires new { (seen_subs self.old).kept consumer.now ≡ None }
        requires room { length self.old.names < 2 ^ 32 - 1 }
        ensures ok { OnOk result (seen_subs self.new ≡ with_member consumer.now id position (seen_subs self.old)) }
        ensures err { OnErr result (self.new ≡ self.old) }
    {
        let sub = Sub::new(id, position);
        self.subs.add(consumer.copy(alloc)?, sub)?;
        Ok(())
    }

    /// A consumer has this batch from now on.
    pub fn open_batch(&mut self, consumer: &Text, batch: OpenBatch)
        ensures { seen_subs self.new ≡ with_sub consumer.now (with_open batch) (seen_subs self.old) }
    {
        if let Some(number) = self.subs.number(consumer) {
            self.subs.get_mut(number as usize).open_batch(batch);
        }
    }

    /// A consumer has finished its batch, if it has one, and is at its closing tick.
    pub fn finish(&mut self, consumer: &Text)
        ensures { seen_subs self.new ≡ with_sub consumer.now finished (seen_subs self.old) }
    {
        if let Some(number) = self.subs.number(consumer) {
            self.subs.get_mut(number as usize).finish();
        }
    }

    /// A consumer is at this tick from now on. Its batch, if it had one, is given up, and is the answer.
    pub fn move_to(&mut self, consumer: &Text, tick: u64) -> Option<OpenBatch>
        ensures moved { seen_subs self.new ≡ with_sub consumer.now (at_tick tick) (seen_subs self.old) }
        ensures given_up { result ≡ open_in ((seen_subs self.old).kept consumer.now) }
    {
        let number = self.subs.number(consumer)?;
        self.subs.get_mut(number as usize).move_to(tick)
    }

    /// A consumer is no longer registered. The answer is the subscription that it had.
    pub fn unregister(&mut self, consumer: &Text) -> Option<Sub>
        ensures gone { seen_subs self.new ≡ without_member consumer.now (seen_subs self.old) }
        ensures was { result ≡ (seen_subs self.old).kept consumer.now }
        ensures none { IfNone result (self.new ≡ self.old) }
    {
        let number = self.subs.number(consumer)? as usize;
        let sub = self.subs.get(number).copy();
        // No other one has its name.
        let _ = self.subs.names();
        self.subs.remove(number);
        Some(sub)
    }
}
