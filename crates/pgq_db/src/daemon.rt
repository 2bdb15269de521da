//! What the daemon of a database does, part by part. It answers nothing, and what would be refused isn't done.

ghost use Rattle.std.specs.Prelude.{◌≡◌, true, nat_le, length, IfOk, OnOk};
ghost use Rattle.sky_model.specs.Moment.{IsTime};
ghost use Rattle.sky_model.specs.State.{after_marks};
ghost use Rattle.sky_model.specs.Reader.{database_by_itself};
ghost use Rattle.sky_model.specs.StepQueue.{is_due, next_tick};
ghost use Rattle.sky_model.specs.Outcome.{reply_of};
ghost use Rattle.sky_model.specs.StepRetry.{most_back, maint_retry_events};
ghost use Rattle.sky_model.specs.Daemon.{quietly, ticks_of, moved_by, retries_of, first_steps_of, daemon_does};
ghost use Rattle.sky_model.specs.StepRotation.{rotates_by_itself, maint_rotate_step2};
ghost use Rattle.sky_model.specs.declared.daemon.DaemonPart.TheVariants.{Maintain};
ghost use Rattle.pgq_queues.specs.Seen.{Stands};
ghost use Rattle.pgq_parts.specs.Seen.{seen_database};

use crate::db::Db;
use pgq_queues::MOST_BACK;
use sky_model::Stop;
use sky_row_store::RowStore;
use sky_val::NoMemory;
use std::alloc::AllocError;

impl<R: RowStore> Db<R> {
    /// Makes the ticks that are due.
    pub(crate) fn make_ticks(&mut self, now: i64) -> Result<(), NoMemory>
        requires { IsTime now }
        ensures { OnOk result (seen_database self.new
            ≡ after_marks (seen_database self.old) (ticks_of database_by_itself now (seen_database self.old).queues (seen_database self.old)).marks) }
    {
        for place in 0..self.queues.count() {
            let queue = self.queues.number_at(place);
            self.make_tick(queue, now)?;
        }
        Ok(())
    }

    /// Makes the tick of a queue that is due, if there is an id for it.
    fn make_tick(&mut self, queue: usize, now: i64) -> Result<(), NoMemory>
        requires queue { Stands self.old.queues.queues queue }
        requires time { IsTime now }
        ensures { OnOk result (seen_database self.new ≡ after_marks (seen_database self.old) (quietly (next_tick (seen_database self.old) now queue)).marks) }
    {
        if !self.queues.queue(queue).is_due(now) {
            return Ok(());
        }
        self.make_due(queue, now)
    }

    /// The same, of a tick that is due. Few are, so its code is kept out of the loop over all queues.
    #[inline(never)]
    fn make_due(&mut self, queue: usize, now: i64) -> Result<(), NoMemory>
        requires queue { Stands self.old.queues.queues queue }
        requires time { IsTime now }
        requires due { is_due now ((seen_database self.old).queue queue) ≡ true }
        ensures { OnOk result (seen_database self.new ≡ after_marks (seen_database self.old) (quietly (next_tick (seen_database self.old) now queue)).marks) }
    {
        match self.tick(queue, now) {
            Ok(_) => Ok(()),
            Err(Stop::Refused(_)) => Ok(()),
            Err(Stop::NoMemory) => Err(AllocError),
        }
    }

    /// Rotates the queues: the first step of each, and then the second.
    #[inline(never)]
    pub(crate) fn rotate(&mut self, now: i64) -> Result<(), NoMemory>
        requires { IsTime now }
        ensures { OnOk result (seen_database self.new ≡ after_marks (seen_database self.old) (daemon_does database_by_itself (seen_database self.old) Maintain now).marks) }
    {
        self.begin_switches(now)?;
        self.end_rotation()
    }

    /// The first step of the rotation of each queue.
    fn begin_switches(&mut self, now: i64) -> Result<(), NoMemory>
        requires { IsTime now }
        ensures { OnOk result (seen_database self.new
            ≡ after_marks (seen_database self.old) (first_steps_of database_by_itself now (seen_database self.old).queues (seen_database self.old)).marks) }
    {
        for place in 0..self.queues.count() {
            let queue = self.queues.number_at(place);
            self.begin_switch(queue, now)?;
        }
        Ok(())
    }

    /// The first step of the rotation of a queue, if there is an id for it.
    fn begin_switch(&mut self, queue: usize, now: i64) -> Result<(), NoMemory>
        requires queue { Stands self.old.queues.queues queue }
        requires time { IsTime now }
        ensures { OnOk result (seen_database self.new ≡ after_marks (seen_database self.old) (quietly (rotates_by_itself (seen_database self.old) now queue)).marks) }
    {
        match self.rotate_alone(queue, now) {
            Ok(()) => Ok(()),
            Err(Stop::Refused(_)) => Ok(()),
            Err(Stop::NoMemory) => Err(AllocError),
        }
    }

    /// The second step of the rotation of the queues that lack it, if there is an id for it.
    fn end_rotation(&mut self) -> Result<(), NoMemory>
        ensures { OnOk result (seen_database self.new ≡ after_marks (seen_database self.old) (quietly (maint_rotate_step2 (seen_database self.old))).marks) }
    {
        match self.end_switches() {
            Ok(_) => Ok(()),
            Err(Stop::Refused(_)) => Ok(()),
            Err(Stop::NoMemory) => Err(AllocError),
        }
    }

    /// Brings back the events that are due to be retried, until a call moves fewer than it may, or is refused.
    #[inline(never)]
    pub(crate) fn retry_events(&mut self, now: i64) -> Result<(), NoMemory>
        ensures { OnOk result (seen_database self.new
            ≡ after_marks (seen_database self.old) (retries_of database_by_itself now (length (seen_database self.old).retries) (seen_database self.old)).marks) }
    {
        while self.retry_most(now)? {}
        Ok(())
    }

    /// Brings back events that are due, if there is an id for it. The answer is whether it moved as many as it may.
    fn retry_most(&mut self, now: i64) -> Result<bool, NoMemory>
        ensures most { IfOk result (λ most. most ≡ nat_le most_back (moved_by (reply_of (maint_retry_events (seen_database self.old) now)))) }
        ensures moved { OnOk result (seen_database self.new ≡ after_marks (seen_database self.old) (quietly (maint_retry_events (seen_database self.old) now)).marks) }
    {
        match self.bring_back(now) {
            Ok(count) => Ok(count >= MOST_BACK),
            Err(Stop::Refused(_)) => Ok(false),
            Err(Stop::NoMemory) => Err(AllocError),
        }
    }
}
