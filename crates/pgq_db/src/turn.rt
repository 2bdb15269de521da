//! What a turn needs of a database, and what it runs in the row part.

ghost use Rattle.std.specs.Prelude.{◌≡◌, None, OnOk, false, true, is_ok};
ghost use Rattle.sky_model.specs.Moment.{IsTime};
ghost use Rattle.sky_model.specs.Printed.{HaveMoments};
ghost use Rattle.sky_model.specs.Reader.{database_by_itself, within_part};
ghost use Rattle.sky_model.specs.declared.stmt.DbStmt.TheVariants.{Row};
ghost use Rattle.sky_model.specs.declared.stmt.RowStmt.TheVariants.{Commit};
ghost use Rattle.sky_model.specs.Settling.{ready};
ghost use Rattle.sky_model.specs.Calls.{database_turn};
ghost use Rattle.pgq_parts.specs.Seen.{seen_database};
ghost use Rattle.pgq_parts.specs.RowRuns.{MayRun, run_turn};
ghost use Rattle.pgq_parts.specs.Gives.{Adds};
ghost use Rattle.pgq_parts.specs.Looks.{ReadsNone};

use crate::db::Db;
use pgq_parts::{CheckedCommit, Ready, RunsRows, Statement, switch_before_commit};
use pgq_turn::Statements;
use sky_model::{QueueStmt, Refusal, Replies, RowStmt, Stop};
use sky_row_store::RowStore;
use sky_val::{NoMemory, SessionId};
use std::alloc::AllocError;
use std::mem;

impl<R: RowStore> Statements for Db<R> {
    ghost view = { λ d. d };

    // Always inlined: a refusal is large, and this is on the path of each statement on queues.
    #[inline(always)]
    fn enter(&mut self, who: SessionId, outside: bool) -> Result<Option<Refusal>, NoMemory> {
        Db::enter(self, who, outside)
    }

    // Always inlined, so that a statement that isn't refused hands on no room for a refusal, which is large.
    #[inline(always)]
    fn run_form(
        &mut self,
        now: i64,
        who: SessionId,
        stmt: &QueueStmt,
        replies: &mut Replies,
    ) -> Result<(), Stop> {
        match stmt {
            QueueStmt::CreateQueue { queue } => self.create_queue(now, who, queue, replies),
            QueueStmt::DropQueue { queue } => self.drop_queue(who, queue, replies),
            QueueStmt::SetQueueConfig(setting) => self.set_queue_config(who, setting, replies),
            QueueStmt::QueueInfo { queue } => self.queue_info(who, queue, replies),
            QueueStmt::InsertEvent(event) => self.insert_event(now, who, event, replies),
            QueueStmt::AddTrigger(trigger) => self.add_trigger(who, trigger, replies),
            QueueStmt::Ticker { queue } => self.ticker(now, who, queue, replies),
            QueueStmt::ForceTick { queue } => self.force_tick(who, queue, replies),
            QueueStmt::RegisterConsumer { queue, consumer } => {
                self.register_consumer(who, queue, consumer, replies)
            }
            QueueStmt::RegisterConsumerAt(position) => {
                self.register_consumer_at(who, position, replies)
            }
            QueueStmt::UnregisterConsumer { queue, consumer } => {
                self.unregister_consumer(who, queue, consumer, replies)
            }
            QueueStmt::NextBatch { queue, consumer } => {
                self.next_batch(who, queue, consumer, replies)
            }
            QueueStmt::GetBatchEvents { batch } => self.get_batch_events(who, *batch, replies),
            QueueStmt::GetBatchInfo { batch } => self.get_batch_info(who, *batch, replies),
            QueueStmt::EventRetry(again) => self.event_retry(now, who, again, replies),
            QueueStmt::FinishBatch { batch } => self.finish_batch(who, *batch, replies),
            QueueStmt::MaintRetryEvents => self.maint_retry_events(now, who, replies),
            QueueStmt::MaintRotateStep1 { queue } => {
                self.maint_rotate_step1(now, who, queue, replies)
            }
            QueueStmt::MaintRotateStep2 => self.maint_rotate_step2(who, replies),
            QueueStmt::ConsumerInfo { queue, consumer } => {
                self.consumer_info(who, queue, consumer, replies)
            }
        }
    }

    fn roll_back(&mut self, who: SessionId) -> Result<(), NoMemory> {
        self.step.effects.clear();
        let ended = self
            .rows
            .roll_back(who, &mut self.queues, &mut self.step.effects);
        noted(&mut self.is_cut, ended)
    }

    fn step_rows(
        &mut self,
        now: i64,
        who: SessionId,
        stmt: &RowStmt,
        replies: &mut Replies,
    ) -> Result<(), NoMemory> {
        match stmt {
            RowStmt::Commit => self.step_commit(now, who, replies),
            _ => self.run_rows(now, Statement { who, stmt }, replies),
        }
    }

    fn settle(&mut self, now: i64, replies: &mut Replies) -> Result<(), NoMemory> {
        if self.rows.is_at_rest() {
            return Ok(());
        }
        self.run_rows(now, Ready, replies)
    }
}

impl<R: RowStore> Db<R> {
    /// Makes a session's `commit`, after the switches of event tables that its transaction has pending, and runs the
    /// statements that it unblocks.
    // Never inlined, so that no other statement has room for a refusal, which is large.
    #[inline(never)]
    fn step_commit(
        &mut self,
        now: i64,
        who: SessionId,
        replies: &mut Replies,
    ) -> Result<(), NoMemory>
        requires { IsTime now }
        ensures adds { OnOk result (Adds (seen_database self.old) (seen_database self.new) replies.old replies.new
            (database_turn database_by_itself (seen_database self.old) now who (Row Commit))) }
        ensures rests { OnOk result (ready (seen_database self.new).part ≡ None) }
        ensures moments { OnOk result (HaveMoments (database_turn database_by_itself (seen_database self.old) now who (Row Commit)).answers) }
    {
        // One that can't run makes no switches.
        if self.is_cut {
            return Err(AllocError);
        }
        let checked = switch_before_commit(&mut self.queues, &self.rows, now, who);
        self.run_rows(now, CheckedCommit { who, checked }, replies)
    }

    /// Runs in the row part what is to be run there. Events record the writes.
    #[inline(always)]
    fn run_rows<W: RunsRows>(
        &mut self,
        now: i64,
        run: W,
        replies: &mut Replies,
    ) -> Result<(), NoMemory>
        requires time { IsTime now }
        requires may { MayRun (W.what run) (seen_database self.old).part }
        ensures adds { OnOk result (Adds (seen_database self.old) (seen_database self.new) replies.old replies.new (run_turn (within_part database_by_itself now) (seen_database self.old) (W.what run))) }
        ensures rests { OnOk result (ready (seen_database self.new).part ≡ None) }
        ensures moments { OnOk result (HaveMoments (run_turn (within_part database_by_itself now) (seen_database self.old) (W.what run)).answers) }
        ensures reads { OnOk result (ReadsNone self.old.queues self.new.queues) }
    {
        if self.is_cut {
            return Err(AllocError);
        }
        self.queues.set_time(now);
        self.step.effects.clear();
        // The list of answers is in the step while that runs.
        mem::swap(&mut self.step.replies, replies);
        let ran = run.run(&mut self.rows, &mut self.queues, &mut self.step);
        mem::swap(&mut self.step.replies, replies);
        noted(&mut self.is_cut, ran)
    }
}

/// Notes it if memory ran out.
fn noted(is_cut: &mut bool, ran: Result<(), NoMemory>) -> Result<(), NoMemory>
    ensures same { result ≡ ran }
    ensures sound { is_cut.new ≡ false → is_cut.old ≡ false }
    ensures ok { is_cut.new ≡ false → is_ok ran ≡ true }
{
    match ran {
        Ok(()) => Ok(()),
        Err(no_memory) => {
            *is_cut = true;
            Err(no_memory)
        }
    }
}
