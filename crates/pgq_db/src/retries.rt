//! The statements on retries: a subscription asks for an event once more, and those that are due come back.

ghost use Rattle.std.specs.Prelude.{◌≡◌, ◌+◌, ◌<◌, ◌≤◌, Ok, IfOk, IfErr, OnOk};
ghost use Rattle.sky_model.specs.Moment.{IsTime};
ghost use Rattle.sky_model.specs.Reader.{shown_by};
ghost use Rattle.sky_model.specs.Retries.{retried};
ghost use Rattle.sky_model.specs.Outcome.{reply_of, marks_of};
ghost use Rattle.sky_model.specs.State.{after_marks};
ghost use Rattle.sky_model.specs.declared.reply.Reply.TheVariants.{Number};
ghost use Rattle.sky_model.specs.StepRetry.{event_retry, maint_retry_events};
ghost use Rattle.sky_model.specs.Stops.{Stops};
ghost use Rattle.pgq_parts.specs.Seen.{seen_database};
ghost use Rattle.pgq_parts.specs.Gives.{Ran};
ghost use Rattle.pgq_parts.specs.Looks.{LooksUnlessCut};

use crate::db::Db;
use pgq_parts::{retried, work_alone};
use pgq_retry::Retry;
use sky_model::{Refusal, Replies, Reply, RetriedEvent, Stop};
use sky_row_store::RowStore;
use sky_val::SessionId;

/// A second, in the unit of time.
const SECOND: u64 = 1_000_000;

impl<R: RowStore> Db<R> {
    /// `event_retry N N N`: the subscription of an active batch asks for one of its events, so many seconds from now.
    pub(crate) fn event_retry(
        &mut self,
        now: i64,
        who: SessionId,
        again: &RetriedEvent,
        replies: &mut Replies,
    ) -> Result<(), Stop>
        requires time { IsTime now }
        requires seconds { again.now.seconds ≤ 1_000_000_000 }
        ensures ran { Ran self.old self.new replies.old replies.new who result (event_retry (seen_database self.old) (shown_by (seen_database self.old)).events now again.now) }
        ensures looks { LooksUnlessCut self.old.queues self.new.queues again.now.batch result }
    {
        if self.is_cut {
            return Err(Stop::NoMemory);
        }
        let Some(batch) = self.queues.batch(again.batch) else {
            return Err(Stop::Refused(Refusal::NoBatch));
        };
        if self.is_nodes_of(batch.queue, batch.consumer) {
            return Err(Stop::Refused(Refusal::NodeConsumer));
        }
        let span = batch.span();
        let Some(found) = self.queues.event_in(span, again.event)? else {
            return Err(Stop::Refused(Refusal::NoEvent));
        };
        let retry = Retry {
            queue: span.queue,
            sub: span.sub,
            due: now + (SECOND * again.seconds) as i64,
            event: retried(span.sub, found),
        };
        let count = u64::from(self.queues.retry(retry)?);
        replies.push(who, Reply::Number(count))?;
        Ok(())
    }

    /// `maint_retry_events`: those that are due come back.
    pub(crate) fn maint_retry_events(
        &mut self,
        now: i64,
        who: SessionId,
        replies: &mut Replies,
    ) -> Result<(), Stop>
        ensures { Ran self.old self.new replies.old replies.new who result (maint_retry_events (seen_database self.old) now) }
    {
        let count = self.bring_back(now)?;
        replies.push(who, Reply::Number(count as u64))?;
        Ok(())
    }

    /// Those that are due come back, in a transaction that is no session's. If none is due no id is taken. The answer
    /// is how many came back.
    pub(crate) fn bring_back(&mut self, now: i64) -> Result<usize, Stop>
        ensures count { IfOk result (λ n. reply_of (maint_retry_events (seen_database self.old) now) ≡ Number n) }
        ensures changed { OnOk result (seen_database self.new ≡ after_marks (seen_database self.old) (marks_of (maint_retry_events (seen_database self.old) now))) }
        ensures stops { IfErr result (λ stop. Stops stop (seen_database self.old) (seen_database self.new) (maint_retry_events (seen_database self.old) now)) }
    {
        if self.is_cut {
            return Err(Stop::NoMemory);
        }
        if self.queues.due_count(now) == 0 {
            return Ok(0);
        }
        let txid = work_alone(&mut self.rows)?;
        let count = self.queues.bring_back(now, txid)?;
        Ok(count)
    }
}
