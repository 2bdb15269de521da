//! What the row part of a database runs in one call, with the queues as the gate of what is written.

ghost use Rattle.std.specs.Prelude.{OnOk};
ghost use Rattle.sky_model.specs.Gates.{by_gate};
ghost use Rattle.sky_model.specs.Reader.{part_by_itself};
ghost use Rattle.sky_model.specs.Rooms.{room_of};
ghost use Rattle.sky_row_store.specs.Gives.{Settles};
ghost use Rattle.sky_state.specs.Seen.{seen};
ghost use Rattle.pgq_queues.specs.EventRule.{event_rule};
ghost use Rattle.pgq_parts.specs.RowRuns.{RowRun, statement, commit, resuming, MayRun, run_call, run_turn};

use pgq_queues::Queues;
use sky_model::{Refusal, RowStmt};
use sky_row_store::{RowStep, RowStore};
use sky_val::{NoMemory, SessionId};

/// What the row part runs in one call, and with it the statements that this unblocks. Each is a type of its own, so that
/// a statement hands on no room for a commit's refusal, which is large.
pub trait RunsRows: Drop {
    // Which it is.
    ghost what: { Self → RowRun };

    /// Runs it. Its answers and effects are added to those that were given before.
    fn run<R: RowStore>(
        self,
        rows: &mut R,
        queues: &mut Queues,
        step: &mut RowStep,
    ) -> Result<(), NoMemory>
        requires { MayRun (what self) (seen (R.state rows.old)) }
        ensures { OnOk result (Settles event_rule (seen (R.state rows.old), queues.old) (seen (R.state rows.new), queues.new) step.old step.new
            (run_call (room_of event_rule queues.old) (what self)) (run_turn (by_gate event_rule part_by_itself) (seen (R.state rows.old), queues.old) (what self))) };
}

/// A statement of a session.
#[derive(Drop)]
pub struct Statement<'a> {
    pub who: SessionId,
    pub stmt: &'a RowStmt,
}

impl RunsRows for Statement<'_> {
    ghost what = { λ s. statement s.who s.stmt.now };

    #[inline(always)]
    fn run<R: RowStore>(
        self,
        rows: &mut R,
        queues: &mut Queues,
        step: &mut RowStep,
    ) -> Result<(), NoMemory> {
        rows.step_into(self.who, self.stmt, queues, step)
    }
}

/// A session's `commit` that was checked.
#[derive(Drop)]
pub struct CheckedCommit {
    pub who: SessionId,
    pub checked: Result<Option<u64>, Refusal>,
}

impl RunsRows for CheckedCommit {
    ghost what = { λ c. commit c.who c.checked };

    #[inline(always)]
    fn run<R: RowStore>(
        self,
        rows: &mut R,
        queues: &mut Queues,
        step: &mut RowStep,
    ) -> Result<(), NoMemory> {
        rows.commit_into(self.who, self.checked, queues, step)
    }
}

/// The statements that may resume, and nothing before them.
#[derive(Drop)]
pub struct Ready;

impl RunsRows for Ready {
    ghost what = { λ _. resuming };

    #[inline(always)]
    fn run<R: RowStore>(
        self,
        rows: &mut R,
        queues: &mut Queues,
        step: &mut RowStep,
    ) -> Result<(), NoMemory> {
        rows.settle_into(queues, step)
    }
}
