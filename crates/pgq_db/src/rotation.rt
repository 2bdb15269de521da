//! How the event tables of queues are rotated: the statements of both steps, and what the daemon does of it.

ghost use Rattle.std.specs.Prelude.{◌≡◌, IfOk, IfErr, OnOk};
ghost use Rattle.sky_model.specs.Moment.{IsTime};
ghost use Rattle.sky_model.specs.Outcome.{reply_of, marks_of};
ghost use Rattle.sky_model.specs.State.{after_marks};
ghost use Rattle.sky_model.specs.StepRotation.{maint_rotate_step1, rotates_by_itself, maint_rotate_step2};
ghost use Rattle.sky_model.specs.Stops.{Stops};
ghost use Rattle.sky_model.specs.declared.reply.Reply.TheVariants.{Number};
ghost use Rattle.pgq_queues.specs.Seen.{Stands};
ghost use Rattle.pgq_parts.specs.Gives.{Ran};
ghost use Rattle.pgq_parts.specs.Seen.{seen_database};

use crate::db::Db;
use pgq_parts::{switch, work_alone};
use sky_model::{Replies, Reply, Stop};
use sky_row_store::RowStore;
use sky_val::{SessionId, Text};

impl<R: RowStore> Db<R> {
    /// `maint_rotate_step1 NAME`: the session's transaction switches the event tables of a queue, unless something
    /// holds that back. Outside a block the switch is made at once, and in one by its `commit`.
    pub(crate) fn maint_rotate_step1(
        &mut self,
        now: i64,
        who: SessionId,
        name: &Text,
        replies: &mut Replies,
    ) -> Result<(), Stop>
        requires { IsTime now }
        ensures { Ran self.old self.new replies.old replies.new who result (maint_rotate_step1 (seen_database self.old) now who name.now) }
    {
        let queue = self.queue_called(name)?;
        if let Some(why) = self.queues.held_back(queue, now)? {
            replies.push(who, Reply::HeldBack(why))?;
            return Ok(());
        }
        let txid = self.next_txid(who)?;
        let is_alone = !self.in_transaction(who);
        self.take_txid(who, txid)?;
        switch(&mut self.queues, queue, txid, is_alone, now);
        replies.push(who, Reply::Number(1))?;
        Ok(())
    }

    /// The first step of the rotation of a queue, in a transaction that is no session's. If something holds it back no
    /// id is taken.
    pub(crate) fn rotate_alone(&mut self, queue: usize, now: i64) -> Result<(), Stop>
        requires queue { Stands self.old.queues.queues queue }
        requires time { IsTime now }
        ensures changed { OnOk result (seen_database self.new ≡ after_marks (seen_database self.old) (marks_of (rotates_by_itself (seen_database self.old) now queue))) }
        ensures stops { IfErr result (λ stop. Stops stop (seen_database self.old) (seen_database self.new) (rotates_by_itself (seen_database self.old) now queue)) }
    {
        if self.queues.is_held_back(queue, now) {
            return Ok(());
        }
        let txid = work_alone(&mut self.rows)?;
        switch(&mut self.queues, queue, txid, true, now);
        Ok(())
    }

    /// `maint_rotate_step2`: the switches whose second step is missing get it.
    pub(crate) fn maint_rotate_step2(
        &mut self,
        who: SessionId,
        replies: &mut Replies,
    ) -> Result<(), Stop>
        ensures { Ran self.old self.new replies.old replies.new who result (maint_rotate_step2 (seen_database self.old)) }
    {
        let count = self.end_switches()?;
        replies.push(who, Reply::Number(count as u64))?;
        Ok(())
    }

    /// The switches whose second step is missing get it, in a transaction that is no session's. If there is none no id
    /// is taken. The answer is how many got it.
    pub(crate) fn end_switches(&mut self) -> Result<usize, Stop>
        ensures count { IfOk result (λ n. reply_of (maint_rotate_step2 (seen_database self.old)) ≡ Number n) }
        ensures changed { OnOk result (seen_database self.new ≡ after_marks (seen_database self.old) (marks_of (maint_rotate_step2 (seen_database self.old)))) }
        ensures stops { IfErr result (λ stop. Stops stop (seen_database self.old) (seen_database self.new) (maint_rotate_step2 (seen_database self.old))) }
    {
        let count = self.queues.unfinished();
        if count == 0 {
            return Ok(0);
        }
        let txid = work_alone(&mut self.rows)?;
        self.queues.end_switches(txid);
        Ok(count)
    }
}
