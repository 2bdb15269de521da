//! The statements, each in the database that its session has open. A refusal changes nothing there but
//! that it may abort the session's block.

ghost use Rattle.std.specs.Prelude.{◌≡◌, ◌&&◌, ◌+◌, ◌<◌, ◌==◌, ℤ, [], ◌∷◌, ◌++◌, true, false, None, Some, Ok, Err, IfOk, IfErr, IfSome, IfNone, OnOk, is_some, length};
ghost use Rattle.std.specs.List.{All};
ghost use Rattle.sky_model.specs.Nodes.{is_set_queue};
ghost use Rattle.sky_model.specs.Queues.{queue_number};
ghost use Rattle.sky_model.specs.History.{queued, made, raised, put, dropped};
ghost use Rattle.sky_model.specs.declared.reply.Reply.TheVariants.{Number};
ghost use Rattle.sky_model.specs.State.{after_mark, after_marks};
ghost use Rattle.sky_model.specs.Outcome.{does_marks};
ghost use Rattle.sky_model.specs.OwnTransaction.{txid_for, in_own};
ghost use Rattle.sky_model.specs.StepQueue.{queue_called, create_queue, drop_queue, shown_name, set_queue_config, queue_info, insert_event, ticker, force_tick, tells_of_rows, made_event};
ghost use Rattle.sky_model.specs.Moment.{HasMoment, IsTime};
ghost use Rattle.pgq_queues.specs.Seen.{Stands};
ghost use Rattle.pgq_parts.specs.Seen.{seen_database};
ghost use Rattle.pgq_parts.specs.Gives.{Ran};
ghost use Rattle.sky_model.specs.Stops.{StopsAs};

use crate::db::Db;
use londiste_calls::tells_of_rows;
use pgq_parts::{plain_event, put_with_extra, queue_called, shown_name};
use pgq_queues::EVENT_ID_END;
use pgq_tables::PlainEvent;
use sky_model::{BoxedExtra, InsertedEvent, Limit, QueueSetting, Refusal, Replies, Reply, Stop};
use sky_row_store::RowStore;
use sky_val::{NoMemory, SessionId, Text};

impl<R: RowStore> Db<R> {
    /// The number of the queue of this name.
    pub(crate) fn queue_called(&self, queue: &Text) -> Result<usize, Stop>
        ensures ok { IfOk result (λ number. queue_called queue.now (seen_database self.now) ≡ Ok number) }
        ensures stands { IfOk result (λ number. Stands self.now.queues.queues number) }
        ensures err { IfErr result (λ stop. StopsAs stop (queue_called queue.now (seen_database self.now))) }
    {
        queue_called(self.alloc, &self.queues, queue)
    }

    /// `create_queue NAME`: the queue and its first tick are made when the transaction has ended.
    pub(crate) fn create_queue(
        &mut self,
        now: i64,
        who: SessionId,
        name: &Text,
        replies: &mut Replies,
    ) -> Result<(), Stop>
        requires time { IsTime now }
        ensures { Ran self.old self.new replies.old replies.new who result (create_queue (seen_database self.old) now who name.now) }
    {
        let Some(txid) = self.txid_to_make(who, name)? else {
            replies.push(who, Reply::Number(0))?;
            return Ok(());
        };
        self.new_queue(now, who, txid, name)?;
        replies.push(who, Reply::Number(1))?;
        Ok(())
    }

    /// The id of the transaction that makes a queue of this name; none if there is such a queue.
    fn txid_to_make(&self, who: SessionId, name: &Text) -> Result<Option<u64>, Stop>
        ensures there { IfOk result (λ made. IfNone made (is_some (queue_number name.now (seen_database self.now).queues) ≡ true)) }
        ensures new { IfOk result (λ made. IfSome made (λ _. queue_number name.now (seen_database self.now).queues ≡ None)) }
        ensures room { IfOk result (λ made. IfSome made (λ _. length (seen_database self.now).queues < 64)) }
        ensures id { IfOk result (λ made. IfSome made (λ txid. txid_for (seen_database self.now).part who ≡ Ok txid)) }
        ensures err { (now : ℤ) → IfErr result (λ stop. StopsAs stop (create_queue (seen_database self.now) now who name.now)) }
    {
        if self.queues.number(name).is_some() {
            return Ok(None);
        }
        if self.queues.count() >= Limit::Queues.most() {
            return Err(Stop::Refused(Refusal::TooMany(Limit::Queues)));
        }
        let txid = self.next_txid(who)?;
        Ok(Some(txid))
    }

    /// Makes a queue in a session's transaction, which has this id or gets it.
    fn new_queue(
        &mut self,
        now: i64,
        who: SessionId,
        txid: u64,
        name: &Text,
    ) -> Result<(), NoMemory>
        requires time { IsTime now }
        requires new { queue_number name.now (seen_database self.old).queues ≡ None }
        requires room { length (seen_database self.old).queues < 64 }
        requires id { txid_for (seen_database self.old).part who ≡ Ok txid }
        ensures { OnOk result (seen_database self.new ≡ after_marks (seen_database self.old)
            (in_own who txid ((seen_database self.old).part.session who) [] ++ queued (made name.now txid now) ∷ [])) }
    {
        let name = name.copy(self.alloc)?;
        self.take_txid(who, txid)?;
        self.make_queue(now, txid, name)
    }

    /// Makes a queue, by a transaction that has ended, with its first tick.
    pub(crate) fn make_queue(&mut self, now: i64, txid: u64, name: Text) -> Result<(), NoMemory>
        requires time { IsTime now }
        requires new { queue_number name (seen_database self.old).queues ≡ None }
        requires room { length (seen_database self.old).queues < 64 }
        ensures { OnOk result (seen_database self.new ≡ after_mark (seen_database self.old) (queued (made name txid now))) }
    {
        let snapshot = self.rows.snapshot_now()?;
        self.queues.make(name, txid, now, snapshot)
    }

    /// `drop_queue NAME`: a queue without consumers, which no trigger writes into, and in which no running transaction
    /// has an event or a switch that is pending.
    pub(crate) fn drop_queue(
        &mut self,
        who: SessionId,
        name: &Text,
        replies: &mut Replies,
    ) -> Result<(), Stop>
        ensures { Ran self.old self.new replies.old replies.new who result (drop_queue (seen_database self.old) name.now) }
    {
        let queue = self.queue_to_drop(name)?;
        self.queues.drop_queue(name, queue);
        replies.push(who, Reply::Number(1))?;
        Ok(())
    }

    /// The number of the queue of this name, if it may be dropped.
    fn queue_to_drop(&self, name: &Text) -> Result<usize, Stop>
        ensures found { IfOk result (λ queue. queue_number name.now (seen_database self.now).queues ≡ Some queue) }
        ensures consumers { IfOk result (λ queue. ((seen_database self.now).queue queue).members ≡ []) }
        ensures triggers { IfOk result (λ queue. All (λ t. (t.trigger.queue == queue) ≡ false) (seen_database self.now).triggers) }
        ensures drops { IfOk result (λ queue. drop_queue (seen_database self.now) name.now ≡ does_marks (Number 1) (queued (dropped queue) ∷ [])) }
        ensures err { IfErr result (λ stop. StopsAs stop (drop_queue (seen_database self.now) name.now)) }
    {
        let queue = self.queue_called(name)?;
        if self.is_set_queue(name) {
            return Err(Stop::Refused(Refusal::SetQueue));
        }
        let consumers = self.queues.queue(queue).consumer_count();
        if consumers > 0 {
            return Err(Stop::Refused(Refusal::HasConsumers(consumers as u64)));
        }
        if let Some(trigger) = self.queues.first_trigger_into(queue) {
            let name = shown_name(self.alloc, trigger)?;
            return Err(Stop::Refused(Refusal::HasTriggers(name)));
        }
        match self.least_producer(queue)? {
            Some(txid) => Err(Stop::Refused(Refusal::QueueBusy(txid))),
            None => Ok(queue),
        }
    }

    /// `set_queue_config NAME RAW RAW`
    pub(crate) fn set_queue_config(
        &mut self,
        who: SessionId,
        setting: &QueueSetting,
        replies: &mut Replies,
    ) -> Result<(), Stop>
        ensures ran { Ran self.old self.new replies.old replies.new who result (set_queue_config (seen_database self.old) setting.now) }
    {
        let queue = self.queue_called(&setting.queue)?;
        self.configure(queue, &setting.param, &setting.value)?;
        replies.push(who, Reply::Number(1))?;
        Ok(())
    }

    /// `queue_info NAME`
    pub(crate) fn queue_info(
        &self,
        who: SessionId,
        name: &Text,
        replies: &mut Replies,
    ) -> Result<(), Stop>
        ensures ran { Ran self.now self.now replies.old replies.new who result (queue_info (seen_database self.now) name.now) }
    {
        let queue = self.queue_called(name)?;
        let info = self.queues.queue(queue).info(self.alloc)?;
        replies.push(who, Reply::QueueInfo(info))?;
        Ok(())
    }

    /// `insert_event NAME TVAL TVAL`: an event with the next id of the queue's sequence.
    pub(crate) fn insert_event(
        &mut self,
        now: i64,
        who: SessionId,
        inserted: &InsertedEvent,
        replies: &mut Replies,
    ) -> Result<(), Stop>
        requires time { IsTime now }
        ensures { Ran self.old self.new replies.old replies.new who result (insert_event (seen_database self.old) now who inserted.now) }
    {
        let queue = self.queue_called(&inserted.queue)?;
        if self.is_reserved(&inserted.queue, &inserted.ev_type) {
            return Err(Stop::Refused(Refusal::ReservedType));
        }
        let txid = self.next_txid(who)?;
        let seq = self.queues.queue(queue).seq();
        if seq >= EVENT_ID_END - 1 {
            return Err(Stop::Refused(Refusal::EventIdsSpent));
        }
        let id = seq + 1;
        self.take_txid(who, txid)?;
        let event = plain_event(self.alloc, id, now, txid, inserted)?;
        self.queues.raise(queue, id);
        self.put(queue, event, &inserted.extra)?;
        replies.push(who, Reply::Number(id))?;
        Ok(())
    }

    /// Stores an event, with further texts if it has any.
    // Always inlined, as what makes it is: even a plain event is large, and else moved from call to call.
    #[inline(always)]
    fn put(
        &mut self,
        queue: usize,
        event: PlainEvent,
        extra: &Option<BoxedExtra>,
    ) -> Result<(), NoMemory>
        requires queue { Stands self.old.queues.queues queue }
        requires time { HasMoment event.ev_time }
        ensures mark { OnOk result (seen_database self.new ≡ after_mark (seen_database self.old)
            (queued (put queue (made_event event.ev_id event.ev_time event.ev_txid event.ev_type event.ev_data extra.now)))) }
    {
        match extra {
            None => {
                self.queues.put_plain(queue, event)?;
                Ok(())
            }
            Some(extra) => {
                put_with_extra(self.alloc, &mut self.queues, queue, event, extra)?;
                Ok(())
            }
        }
    }

    /// Whether events of a type are a set's in a queue of this name.
    fn is_reserved(&self, queue: &Text, ev_type: &Option<Text>) -> bool
        ensures { result ≡ (is_set_queue queue.now (seen_database self.now).node && tells_of_rows ev_type.now) }
    {
        self.is_set_queue(queue) && tells_of_rows(ev_type.as_ref())
    }

    /// `ticker NAME`: a tick, if one is due.
    pub(crate) fn ticker(
        &mut self,
        now: i64,
        who: SessionId,
        name: &Text,
        replies: &mut Replies,
    ) -> Result<(), Stop>
        requires { IsTime now }
        ensures { Ran self.old self.new replies.old replies.new who result (ticker (seen_database self.old) now name.now) }
    {
        let queue = self.queue_called(name)?;
        if !self.queues.queue(queue).is_due(now) {
            replies.push(who, Reply::Null)?;
            return Ok(());
        }
        let id = self.tick(queue, now)?;
        replies.push(who, Reply::Number(id))?;
        Ok(())
    }

    /// `force_tick NAME`: the sequence rises so far that a tick is due.
    pub(crate) fn force_tick(
        &mut self,
        who: SessionId,
        name: &Text,
        replies: &mut Replies,
    ) -> Result<(), Stop>
        ensures { Ran self.old self.new replies.old replies.new who result (force_tick (seen_database self.old) name.now) }
    {
        let Forced { queue, seq, newest } = self.forced(name)?;
        self.queues.raise(queue, seq);
        replies.push(who, Reply::Number(newest))?;
        Ok(())
    }

    /// How far `force_tick` raises the sequence of the queue of this name.
    fn forced(&self, name: &Text) -> Result<Forced, Stop>
        ensures stands { IfOk result (λ forced. Stands self.now.queues.queues forced.queue) }
        ensures raises { IfOk result (λ forced. force_tick (seen_database self.now) name.now
            ≡ does_marks (Number forced.newest) (queued (raised forced.queue forced.seq) ∷ [])) }
        ensures err { IfErr result (λ stop. StopsAs stop (force_tick (seen_database self.now) name.now)) }
    {
        let number = self.queue_called(name)?;
        let queue = self.queues.queue(number);
        let seq = queue.seq();
        let further = 2 * queue.config().ticker_max_count() + 1000;
        if seq >= EVENT_ID_END - further {
            return Err(Stop::Refused(Refusal::EventIdsSpent));
        }
        Ok(Forced {
            queue: number,
            seq: seq + further,
            newest: queue.ticks().newest().id(),
        })
    }
}

/// What `force_tick` does to a queue.
struct Forced {
    /// Its number.
    queue: usize,
    /// The value that the sequence gets.
    seq: u64,
    /// The id of the newest tick.
    newest: u64,
}
