//! The statements on consumers and their batches.

ghost use Rattle.std.specs.Prelude.{◌≡◌, ◌+◌, false, None, Some, IfOk, IfErr, IfSome, OnOk, is_some};
ghost use Rattle.sky_model.specs.Queues.{tick};
ghost use Rattle.sky_model.specs.StepConsumer.{registers, register_consumer, register_consumer_at, unregister_consumer, opens_batch, next_batch, get_batch_events, get_batch_info, is_nodes_batch, finish_batch, consumer_info};
ghost use Rattle.sky_model.specs.Outcome.{reply_of};
ghost use Rattle.sky_model.specs.Reader.{shown_by};
ghost use Rattle.sky_model.specs.Stops.{StopsAs};
ghost use Rattle.sky_model.specs.declared.reply.Reply.TheVariants.{BatchInfo};
ghost use Rattle.pgq_sub.specs.Views.{seen_sub};
ghost use Rattle.pgq_queues.specs.Seen.{Stands};
ghost use Rattle.pgq_parts.specs.Seen.{seen_database};
ghost use Rattle.pgq_parts.specs.Looks.{LooksUnlessCut, ListsFrom};
ghost use Rattle.pgq_parts.specs.Gives.{Ran};

use crate::db::Db;
use pgq_parts::batch_info;
use pgq_sub::Sub;
use sky_model::{ConsumerInfo, ConsumerPosition, Events, Limit, Refusal, Replies, Reply, Stop};
use sky_row_store::RowStore;
use sky_val::{SessionId, Text};

impl<R: RowStore> Db<R> {
    /// `register_consumer NAME CONSUMER`: a subscription at the newest tick.
    pub(crate) fn register_consumer(
        &mut self,
        who: SessionId,
        name: &Text,
        consumer: &Text,
        replies: &mut Replies,
    ) -> Result<(), Stop>
        ensures { Ran self.old self.new replies.old replies.new who result (register_consumer (seen_database self.old) name.now consumer.now) }
    {
        let queue = self.queue_called(name)?;
        if self.is_nodes(name, consumer) {
            return Err(Stop::Refused(Refusal::NodeConsumer));
        }
        if self.queues.queue(queue).has_consumer(consumer) {
            replies.push(who, Reply::Number(0))?;
            return Ok(());
        }
        let newest = self.queues.queue(queue).ticks().newest().id();
        self.new_consumer(who, queue, consumer, newest, replies)
    }

    /// `register_consumer_at NAME CONSUMER N`: the same at the tick of this id. One that is registered is moved there.
    pub(crate) fn register_consumer_at(
        &mut self,
        who: SessionId,
        position: &ConsumerPosition,
        replies: &mut Replies,
    ) -> Result<(), Stop>
        ensures { Ran self.old self.new replies.old replies.new who result (register_consumer_at (seen_database self.old) position.now) }
    {
        let queue = self.queue_called(&position.queue)?;
        if self.is_nodes(&position.queue, &position.consumer) {
            return Err(Stop::Refused(Refusal::NodeConsumer));
        }
        let tick = position.tick;
        let newest = self.queues.queue(queue).ticks().newest().id();
        if tick == 0 || tick > newest {
            return Err(Stop::Refused(Refusal::NoTick(tick, newest)));
        }
        let oldest = self.queues.queue(queue).floor();
        if tick < oldest {
            return Err(Stop::Refused(Refusal::TickTooOld(tick, oldest)));
        }
        if self.queues.queue(queue).has_consumer(&position.consumer) {
            self.queues.move_to(queue, &position.consumer, tick);
            replies.push(who, Reply::Number(0))?;
            return Ok(());
        }
        self.new_consumer(who, queue, &position.consumer, tick, replies)
    }

    /// A new consumer, at a tick.
    fn new_consumer(
        &mut self,
        who: SessionId,
        queue: usize,
        consumer: &Text,
        tick: u64,
        replies: &mut Replies,
    ) -> Result<(), Stop>
        requires queue { Stands self.old.queues.queues queue }
        requires new { is_some (((seen_database self.old).queue queue).sub consumer.now) ≡ false }
        ensures { Ran self.old self.new replies.old replies.new who result (registers (seen_database self.old) queue consumer.now tick) }
    {
        if self.queues.queue(queue).consumer_count() >= Limit::Consumers.most() {
            return Err(Stop::Refused(Refusal::TooMany(Limit::Consumers)));
        }
        if self.queues.last_sub() == u64::MAX {
            return Err(Stop::Refused(Refusal::IdsSpent));
        }
        self.queues.register(queue, consumer, tick)?;
        replies.push(who, Reply::Number(1))?;
        Ok(())
    }

    /// `unregister_consumer NAME CONSUMER`: the consumer leaves, if it is registered.
    pub(crate) fn unregister_consumer(
        &mut self,
        who: SessionId,
        name: &Text,
        consumer: &Text,
        replies: &mut Replies,
    ) -> Result<(), Stop>
        ensures { Ran self.old self.new replies.old replies.new who result (unregister_consumer (seen_database self.old) name.now consumer.now) }
    {
        let queue = self.queue_called(name)?;
        if self.is_nodes(name, consumer) {
            return Err(Stop::Refused(Refusal::NodeConsumer));
        }
        let count = u64::from(self.queues.unregister(queue, consumer).is_some());
        replies.push(who, Reply::Number(count))?;
        Ok(())
    }

    /// `next_batch NAME CONSUMER`: the active batch, else a new one to the next tick, if that is made.
    pub(crate) fn next_batch(
        &mut self,
        who: SessionId,
        name: &Text,
        consumer: &Text,
        replies: &mut Replies,
    ) -> Result<(), Stop>
        ensures { Ran self.old self.new replies.old replies.new who result (next_batch (seen_database self.old) name.now consumer.now) }
    {
        let queue = self.queue_called(name)?;
        if self.is_nodes(name, consumer) {
            return Err(Stop::Refused(Refusal::NodeConsumer));
        }
        let Some(sub) = self.subscription(queue, consumer) else {
            let consumer = consumer.copy(self.alloc)?;
            return Err(Stop::Refused(Refusal::NoConsumer(consumer)));
        };
        match sub.active() {
            Some(batch) => {
                replies.push(who, Reply::Number(batch.id))?;
                Ok(())
            }
            None => self.new_batch(who, queue, consumer, &sub, replies),
        }
    }

    /// A new batch of a consumer that has none.
    fn new_batch(
        &mut self,
        who: SessionId,
        queue: usize,
        consumer: &Text,
        sub: &Sub,
        replies: &mut Replies,
    ) -> Result<(), Stop>
        requires queue { Stands self.old.queues.queues queue }
        requires registered { ((seen_database self.old).queue queue).sub consumer.now ≡ Some (seen_sub sub.now) }
        requires free { sub.now.active ≡ None }
        ensures { Ran self.old self.new replies.old replies.new who result
            (opens_batch (seen_database self.old) queue consumer.now (seen_sub sub.now) (tick (sub.now.position + 1) ((seen_database self.old).queue queue).tick_list)) }
    {
        let Some(next) = self.queues.queue(queue).ticks().next_after(sub.position()) else {
            replies.push(who, Reply::Null)?;
            return Ok(());
        };
        let cur = next.id();
        if self.queues.last_batch() == u64::MAX {
            return Err(Stop::Refused(Refusal::IdsSpent));
        }
        self.queues.open_batch(queue, consumer, cur)?;
        replies.push(who, Reply::Number(self.queues.last_batch()))?;
        Ok(())
    }

    /// `get_batch_events N`: the events of an active batch.
    pub(crate) fn get_batch_events(
        &mut self,
        who: SessionId,
        id: u64,
        replies: &mut Replies,
    ) -> Result<(), Stop>
        ensures ran { Ran self.old self.new replies.old replies.new who result (get_batch_events (shown_by (seen_database self.old)).events id) }
        ensures looks { LooksUnlessCut self.old.queues self.new.queues id result }
        ensures lists { OnOk result (ListsFrom self.old.queues self.new.queues id (reply_of (get_batch_events (shown_by (seen_database self.old)).events id))) }
    {
        let Some(events) = self.events_of(id)? else {
            return Err(Stop::Refused(Refusal::NoBatch));
        };
        replies.push(who, Reply::Events(Events::new(events)))?;
        Ok(())
    }

    /// `get_batch_info N`: the queue, the consumer and the ticks of an active batch.
    pub(crate) fn get_batch_info(
        &self,
        who: SessionId,
        id: u64,
        replies: &mut Replies,
    ) -> Result<(), Stop>
        ensures { Ran self.now self.now replies.old replies.new who result (get_batch_info (seen_database self.now) id) }
    {
        let info = batch_info(self.alloc, &self.queues, id)?;
        replies.push(who, Reply::BatchInfo(info))?;
        Ok(())
    }

    /// `finish_batch N`: the consumer moves on to the batch's closing tick.
    pub(crate) fn finish_batch(
        &mut self,
        who: SessionId,
        id: u64,
        replies: &mut Replies,
    ) -> Result<(), Stop>
        ensures { Ran self.old self.new replies.old replies.new who result (finish_batch (seen_database self.old) id) }
    {
        let is_active = self.check_finish(id)?;
        if is_active {
            self.queues.close_batch(id);
        }
        replies.push(who, Reply::Number(u64::from(is_active)))?;
        Ok(())
    }

    /// Whether there is an active batch of this id, or a refusal if it is a node's.
    // Always inlined: a refusal is large, and this is on the path of each finish_batch.
    #[inline(always)]
    fn check_finish(&self, id: u64) -> Result<bool, Stop>
        ensures active { IfOk result (λ active. active ≡ is_some ((seen_database self.now).batch id)) }
        ensures foreign { OnOk result (IfSome ((seen_database self.now).batch id) (λ batch. is_nodes_batch (seen_database self.now) batch ≡ false)) }
        ensures err { IfErr result (λ stop. StopsAs stop (finish_batch (seen_database self.now) id)) }
    {
        let Some(batch) = self.queues.batch(id) else {
            return Ok(false);
        };
        if self.is_nodes_of(batch.queue, batch.consumer) {
            return Err(Stop::Refused(Refusal::NodeConsumer));
        }
        Ok(true)
    }

    /// `consumer_info NAME CONSUMER`: where a consumer is, and its active batch.
    pub(crate) fn consumer_info(
        &self,
        who: SessionId,
        name: &Text,
        consumer: &Text,
        replies: &mut Replies,
    ) -> Result<(), Stop>
        ensures { Ran self.now self.now replies.old replies.new who result (consumer_info (seen_database self.now) name.now consumer.now) }
    {
        let queue = self.queue_called(name)?;
        let Some(sub) = self.subscription(queue, consumer) else {
            let consumer = consumer.copy(self.alloc)?;
            return Err(Stop::Refused(Refusal::NoConsumer(consumer)));
        };
        let info = ConsumerInfo {
            sub: sub.id(),
            last_tick: sub.position(),
            batch: sub.active().map(|batch| batch.id),
            retries: self.queues.retry_count(sub.id()),
        };
        replies.push(who, Reply::ConsumerInfo(info))?;
        Ok(())
    }
}
