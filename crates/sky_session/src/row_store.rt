//! What the row part does for a database.

use crate::committing::check_commit;
use crate::row_db::RowDb;
use crate::settling::settle_behind;
use crate::statements::{commit_answer, own_answer};
use sky_fits::Block;
use sky_model::{Refusal, RowStmt, Where, WriteGate};
use sky_row_store::{Effects, RowStep, RowStore};
use sky_row_writes::{abort_block, admit, next_txid, take_own};
use sky_state::RowState;
use sky_trans::TransFault;
use sky_txid::Snapshot;
use sky_val::{Key, NoMemory, Row, Schema, SessionId, Text};
use std::alloc::Global;

impl RowStore for RowDb {
    ghost use Rattle.sky_state.specs.Views.{RowStateView};

    ghost state = { λ (d : RowStateView). d };

    fn new(alloc: Global) -> RowDb {
        RowDb {
            state: RowState::new(alloc),
        }
    }

    fn table(&self, name: &Text) -> Option<(u32, &Schema)> {
        let number = self.state.table_number(name)?;
        Some((number, self.state.schema(number)))
    }

    fn schema(&self, table: u32) -> &Schema {
        self.state.schema(table)
    }

    fn snapshot_now(&self) -> Result<Snapshot, NoMemory> {
        self.state.snapshot_now()
    }

    fn least_writer(&self, table: u32) -> Option<u64> {
        self.state.least_writer(table)
    }

    fn waits(&self, who: SessionId) -> bool {
        self.state.is_waiting(who)
    }

    fn check_commit(&self, who: SessionId) -> Result<Option<u64>, Refusal> {
        check_commit(&self.state, who)
    }

    fn in_transaction(&self, who: SessionId) -> bool {
        self.state.block(who) != Block::Outside
    }

    // Always inlined: a refusal is large, and this is on the path of each statement on queues.
    #[inline(always)]
    fn enter(&mut self, who: SessionId, outside: bool) -> Result<Option<Refusal>, NoMemory> {
        if outside {
            admit(&mut self.state, who, Where::WhenOutside)
        } else {
            admit(&mut self.state, who, Where::WhenReading)
        }
    }

    fn step_into<G: WriteGate>(
        &mut self,
        who: SessionId,
        stmt: &RowStmt,
        gate: &mut G,
        step: &mut RowStep,
    ) -> Result<(), NoMemory> {
        own_answer(&mut self.state, who, stmt, gate, step)?;
        settle_behind(&mut self.state, gate, step)?;
        Ok(())
    }

    fn commit_into<G: WriteGate>(
        &mut self,
        who: SessionId,
        checked: Result<Option<u64>, Refusal>,
        gate: &mut G,
        step: &mut RowStep,
    ) -> Result<(), NoMemory> {
        commit_answer(&mut self.state, who, checked, gate, step)?;
        settle_behind(&mut self.state, gate, step)?;
        Ok(())
    }

    fn settle_into<G: WriteGate>(
        &mut self,
        gate: &mut G,
        step: &mut RowStep,
    ) -> Result<(), NoMemory> {
        settle_behind(&mut self.state, gate, step)?;
        Ok(())
    }

    fn is_at_rest(&self) -> bool {
        self.state.is_at_rest()
    }

    fn next_txid(&self, who: SessionId) -> Option<u64> {
        next_txid(&self.state, who)
    }

    fn write_elsewhere(&mut self, who: SessionId, txid: u64) -> Result<(), NoMemory> {
        take_own(&mut self.state, who, txid)?;
        Ok(())
    }

    fn roll_back<G: WriteGate>(
        &mut self,
        who: SessionId,
        gate: &mut G,
        effects: &mut Effects,
    ) -> Result<(), NoMemory> {
        abort_block(&mut self.state, who, gate, effects)?;
        Ok(())
    }

    fn begin_worker(&mut self) -> Result<u64, TransFault> {
        if !self.state.id_left() {
            return Err(TransFault::TxidsSpent);
        }
        Ok(self.state.began_work()?)
    }

    fn end_worker(&mut self, txid: u64, commit: bool) {
        if commit {
            self.state.committed_work(txid);
        } else {
            self.state.aborted_work(txid);
        }
    }

    fn worker_write(
        &mut self,
        txid: u64,
        table: u32,
        key: Key,
        row: Option<Row>,
    ) -> Result<(), NoMemory> {
        self.state.wrote_work(txid, table, key, row)?;
        Ok(())
    }

    fn worker_write_if(
        &mut self,
        txid: u64,
        snapshot: &Snapshot,
        table: u32,
        key: Key,
        row: Option<Row>,
        needs_row: bool,
    ) -> Result<bool, NoMemory> {
        self.state
            .wrote_work_if(txid, snapshot, table, key, row, needs_row)
    }

    fn rows_under(
        &self,
        snapshot: &Snapshot,
        table: u32,
        after: Option<&Key>,
        most: usize,
    ) -> Result<Vec<Row>, NoMemory> {
        self.state.rows_under(snapshot, table, after, most)
    }

    fn keys_under(&self, snapshot: &Snapshot, table: u32) -> Result<Vec<Key>, NoMemory> {
        self.state.keys_under(snapshot, table)
    }

    fn set_read_only(&mut self, table: u32, on: bool) {
        self.state.set_read_only(table, on);
    }
}
