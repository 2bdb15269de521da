ghost use Rattle.std.specs.Prelude.{◌≡◌, ◌↔◌, false, Some, Err, IfOk, OnOk, OnErr, ◌<◌, is_ok, length};
ghost use Rattle.std.specs.Option.{option_copied};
ghost use Rattle.sky_keys.specs.Versions.{read, versions_at};
ghost use Rattle.sky_model.specs.declared.reply.Refusal.TheVariants.{TxidsSpent};
ghost use Rattle.sky_model.specs.InForm.{IsRowInForm};
ghost use Rattle.sky_model.specs.State.{after_part_marks};
ghost use Rattle.sky_model.specs.ShownRows.{snapshot_for};
ghost use Rattle.sky_model.specs.OwnTransaction.{txid_for, begin_of};
ghost use Rattle.sky_model.specs.SessionMarks.{failing, taking, ending};
ghost use Rattle.sky_model.specs.Reader.{part_by_itself};
ghost use Rattle.sky_model.specs.Gates.{by_gate};
ghost use Rattle.sky_model.specs.Rooms.{any_room, room_of};
ghost use Rattle.sky_model.specs.Calls.{row_turn};
ghost use Rattle.sky_model.specs.RowCalls.{row_stepped, row_failed, txid_taken, single_ended};
ghost use Rattle.sky_model.specs.RowSteps.{RowSteps};
ghost use Rattle.sky_model.specs.Settling.{with_settling};
ghost use Rattle.sky_row_store.specs.Gives.{Settles, nothing};
ghost use Rattle.sky_session.specs.Gives.{Gives};
ghost use Rattle.sky_state.specs.Seen.{seen};

use crate::settling::settle_behind;
use sky_model::{OpenGate, RowStmt, WriteGate};
use sky_row_store::{RowStep, RowStore};
use sky_row_writes::{abort_block, begin_own, commit_alone};
use sky_state::RowState;
use sky_trans::TransFault;
use sky_txid::Snapshot;
use sky_val::{Key, NoMemory, Row, SessionId};
use std::marker::Model;

/// The transactions, sessions, tables and rows of one database.
#[derive(Drop)]
pub struct RowDb {
    pub(crate) state: RowState,
}

impl Model for RowDb {
    ghost use Rattle.sky_state.specs.Views.{RowStateView};

    ghost Value = { RowStateView };

    ghost view = { λ d. d.state };
}

impl RowDb {
    /// The snapshot that the session's statements read by.
    pub fn snapshot(&self, who: SessionId) -> Result<Snapshot, NoMemory>
        ensures { IfOk result (λ snapshot. snapshot ≡ snapshot_for (seen self.now) ((seen self.now).session who)) }
    {
        self.state.snapshot(who)
    }

    /// Runs a statement of a session, and those that it unblocks.
    pub fn step(&mut self, who: SessionId, stmt: &RowStmt) -> Result<RowStep, NoMemory>
        requires { IsRowInForm stmt.now }
        ensures { IfOk result (λ step. Gives (seen self.old) (seen self.new) step (row_stepped any_room who stmt.now) (row_turn part_by_itself (seen self.old) who stmt.now)) }
    {
        let mut gate = OpenGate;
        let mut step = RowStep::whole(self.state.alloc());
        self.step_into(who, stmt, &mut gate, &mut step)?;
        Ok(step)
    }

    /// The same with a gate for the writes: the statement's own, and those of the statements that it unblocks. The gate
    /// is notified of them and of rollbacks in their order, so that the effects are the ends of transactions alone. A
    /// write that it has no room for is refused, if nothing else refuses it.
    pub fn step_with<G: WriteGate>(
        &mut self,
        who: SessionId,
        stmt: &RowStmt,
        gate: &mut G,
    ) -> Result<RowStep, NoMemory>
        requires { IsRowInForm stmt.now }
        ensures { IfOk result (λ step. Settles G.rule (seen self.old, gate.old) (seen self.new, gate.new) (nothing false) step
            (row_stepped (room_of G.rule gate.old) who stmt.now) (row_turn (by_gate G.rule part_by_itself) (seen self.old, gate.old) who stmt.now)) }
    {
        let mut step = RowStep::ends(self.state.alloc());
        self.step_into(who, stmt, gate, &mut step)?;
        Ok(step)
    }

    /// Rolls back the session's block, which stays aborted, and runs what this unblocks. If it is in none, or in an
    /// aborted one, nothing is rolled back.
    pub fn fail(&mut self, who: SessionId) -> Result<RowStep, NoMemory>
        ensures { IfOk result (λ step. Gives (seen self.old) (seen self.new) step (row_failed any_room who) (with_settling part_by_itself (seen self.old) (failing (seen self.old) who))) }
    {
        let mut gate = OpenGate;
        let mut step = RowStep::whole(self.state.alloc());
        self.fail_into(who, &mut gate, &mut step)?;
        Ok(step)
    }

    /// The same with a gate for the writes of the statements that resume.
    pub fn fail_with<G: WriteGate>(
        &mut self,
        who: SessionId,
        gate: &mut G,
    ) -> Result<RowStep, NoMemory>
        ensures { IfOk result (λ step. Settles G.rule (seen self.old, gate.old) (seen self.new, gate.new) (nothing false) step
            (row_failed (room_of G.rule gate.old) who) (with_settling (by_gate G.rule part_by_itself) (seen self.old, gate.old) (failing (seen self.old) who))) }
    {
        let mut step = RowStep::ends(self.state.alloc());
        self.fail_into(who, gate, &mut step)?;
        Ok(step)
    }

    fn fail_into<G: WriteGate>(
        &mut self,
        who: SessionId,
        gate: &mut G,
        step: &mut RowStep,
    ) -> Result<(), NoMemory>
        ensures { OnOk result (Settles G.rule (seen self.old, gate.old) (seen self.new, gate.new) step.old step.new
            (row_failed (room_of G.rule gate.old) who) (with_settling (by_gate G.rule part_by_itself) (seen self.old, gate.old) (failing (seen self.old) who))) }
    {
        abort_block(&mut self.state, who, gate, &mut step.effects)?;
        settle_behind(&mut self.state, gate, step)?;
        Ok(())
    }

    /// Whether the session's transaction has an id, or can get one.
    pub fn id_left(&self, who: SessionId) -> bool
        ensures { result ≡ is_ok (txid_for (seen self.now) who) }
    {
        self.next_txid(who).is_some()
    }

    /// The id of the session's transaction, which gets one if it has none.
    pub fn take_txid(&mut self, who: SessionId) -> Result<u64, TransFault>
        ensures id { IfOk result (λ txid. txid_for (seen self.old) who ≡ Ok txid) }
        ensures marks { IfOk result (λ txid. seen self.new ≡ after_part_marks (seen self.old) (begin_of who txid ((seen self.old).session who).txid)) }
        ensures spent { (result ≡ Err TransFault.TxidsSpent) ↔ (txid_for (seen self.old) who ≡ Err TxidsSpent) }
        ensures same { OnErr result (seen self.new ≡ seen self.old) }
        ensures steps { OnOk result (RowSteps (seen self.old) (seen self.new) (txid_taken who) (taking (seen self.old) who)) }
        ensures steps_spent { result ≡ Err TransFault.TxidsSpent → RowSteps (seen self.old) (seen self.new) (txid_taken who) (taking (seen self.old) who) }
    {
        let Some(txid) = self.next_txid(who) else {
            return Err(TransFault::TxidsSpent);
        };
        begin_own(&mut self.state, who, txid)?;
        Ok(txid)
    }

    /// Commits the session's transaction, if the session is in no block. Nothing happens in a block, or if no id was
    /// taken. No effect is reported for the commit, as for the one of `write_elsewhere`: it is the caller's own.
    /// After `take_txid` it does what `write_elsewhere` does in one call.
    pub fn end_single(&mut self, who: SessionId)
        ensures marks { seen self.new ≡ after_part_marks (seen self.old) (ending (seen self.old) who).marks }
        ensures steps { RowSteps (seen self.old) (seen self.new) (single_ended who) (ending (seen self.old) who) }
    {
        commit_alone(&mut self.state, who);
    }

    /// The key's row as the worker's transaction left it, or else in the snapshot.
    pub fn worker_row(&self, txid: u64, snapshot: &Snapshot, table: u32, key: &Key) -> Option<&Row>
        requires { table < length (seen self.now).tables }
        ensures { option_copied result ≡ read snapshot.now (Some txid) (versions_at key.now ((seen self.now).versions table)) }
    {
        self.state.row_of_work(txid, snapshot, table, key)
    }
}
