//! What a database does with its row part, by what that shows.

ghost use Rattle.std.specs.Prelude.{◌≡◌, ◌↔◌, ◌≢◌, [], true, false, None, Some, Ok, Err, IfOk, OnOk, OnErr, MatchOption, IsTrue, IsSome, Option, List, ◌<◌, is_some, is_none, if◌then◌else◌, length, map, take};
ghost use Rattle.std.specs.Option.{option_copied};
ghost use Rattle.sky_val.specs.declared.val.Val.{Val};
ghost use Rattle.sky_keys.specs.Versions.{above, newest_but, read, rows_read, version_of, versions_at};
ghost use Rattle.sky_keys.specs.Waits.{is_waiting};
ghost use Rattle.sky_txid.specs.Ids.{contains};
ghost use Rattle.sky_names.specs.Places.{place_of};
ghost use Rattle.sky_model.specs.declared.reply.Refusal.TheVariants.{TxidsSpent};
ghost use Rattle.sky_model.specs.InForm.{IsRowInForm};
ghost use Rattle.sky_model.specs.History.{of_worker, began, ended, tabled, read_only, wrote};
ghost use Rattle.sky_model.specs.Sessions.{outside};
ghost use Rattle.sky_model.specs.State.{part_of, after_part, after_part_marks};
ghost use Rattle.sky_model.specs.ShownRows.{snapshot_now, least_writer};
ghost use Rattle.sky_model.specs.OwnTransaction.{next_id, txid_for, in_own};
ghost use Rattle.sky_model.specs.SessionMarks.{Enters, entry, entry_place, failing, taking, ending};
ghost use Rattle.sky_model.specs.WorkerMarks.{beginning, ending_work, guarding};
ghost use Rattle.sky_model.specs.Reader.{part_by_itself};
ghost use Rattle.sky_model.specs.Gates.{by_gate, passed_all};
ghost use Rattle.sky_model.specs.Rooms.{room_of};
ghost use Rattle.sky_model.specs.Calls.{row_turn};
ghost use Rattle.sky_model.specs.RowCalls.{row_stepped, row_entered, row_settled, rolled_back, txid_taken, single_ended, worker_begun, worker_ended, row_guarded};
ghost use Rattle.sky_model.specs.RowSteps.{RowSteps};
ghost use Rattle.sky_model.specs.Settling.{ready, settling};
ghost use Rattle.sky_row_store.specs.Committing.{commits_of};
ghost use Rattle.sky_row_store.specs.Effects.{with_effects};
ghost use Rattle.sky_row_store.specs.Gives.{Settles};
ghost use Rattle.sky_state.specs.Seen.{seen};
ghost use Rattle.sky_state.specs.Views.{RowStateView};

use crate::effect::Effects;
use crate::row_step::RowStep;
use sky_model::{Refusal, RowStmt, WriteGate};
use sky_trans::TransFault;
use sky_txid::Snapshot;
use sky_val::{Key, NoMemory, Row, Schema, SessionId, Text};
use std::alloc::Global;

/// The transactions, sessions, tables and rows of one database, as its queues, its node and the workers of leaves use
/// them. Once memory has run out in a call whose contract says nothing of that, nothing is said of it.
pub trait RowStore: Drop {
    // What it keeps, in the form that sky_state has; `seen` reads this as the definitions' part of a database.
    ghost state: { Self → RowStateView };

    /// No table, no transaction, and every session at rest.
    fn new(alloc: Global) -> Self
        ensures { seen (state result) ≡ part_of [] };

    /// The table of this name, with its number.
    fn table(&self, name: &Text) -> Option<(u32, &Schema)>
        ensures { MatchOption result (place_of name.now (seen (state self.now)).tables ≡ None) (λ found.
            (place_of name.now (seen (state self.now)).tables ≡ Some found.0) × (found.1.now ≡ (seen (state self.now)).columns found.0)) };

    /// The columns of the table of this number.
    fn schema(&self, table: u32) -> &Schema
        requires { table < length (seen (state self.now)).tables }
        ensures { result.now ≡ (seen (state self.now)).columns table };

    /// The present snapshot: which transactions have ended.
    fn snapshot_now(&self) -> Result<Snapshot, NoMemory>
        ensures { IfOk result (λ snapshot. snapshot ≡ snapshot_now (seen (state self.now))) };

    /// The least running transaction that has written a row of the table.
    fn least_writer(&self, table: u32) -> Option<u64>
        ensures { result ≡ least_writer (seen (state self.now)) table };

    /// Whether the session waits for another one's transaction.
    fn waits(&self, who: SessionId) -> bool
        ensures { result ≡ is_waiting who (seen (state self.now)).waiting };

    /// The transaction that a `commit` of the session would make permanent now, if there is one, or why it would be
    /// refused.
    fn check_commit(&self, who: SessionId) -> Result<Option<u64>, Refusal>
        ensures { result ≡ commits_of (seen (state self.now)) who };

    /// Whether the session is in a transaction block, an aborted one too.
    fn in_transaction(&self, who: SessionId) -> bool
        ensures { IsTrue result ↔ (((seen (state self.now)).session who).block ≢ outside) };

    /// Admits a statement that isn't on rows, or refuses it. One that is allowed only `outside` of blocks reads
    /// nothing; any other takes the snapshot of a repeatable read block, if it is the first there.
    fn enter(&mut self, who: SessionId, outside: bool) -> Result<Option<Refusal>, NoMemory>
        ensures ok { IfOk result (λ refusal. Enters (seen (state self.old)) (seen (state self.new)) who (entry_place outside) refusal) }
        ensures err { OnErr result (seen (state self.new) ≡ seen (state self.old)) }
        ensures steps { OnOk result (RowSteps (seen (state self.old)) (seen (state self.new)) (row_entered who outside) (entry (seen (state self.old)) who (entry_place outside))) };

    /// Runs a statement of a session, and those that it unblocks; its answers and effects are added to what was given
    /// before. The gate is notified of the writes, the statement's own and those of the statements that it unblocks,
    /// and of rollbacks, in their order. A write that it has no room for is refused, if nothing else refuses it.
    fn step_into<G: WriteGate>(
        &mut self,
        who: SessionId,
        stmt: &RowStmt,
        gate: &mut G,
        step: &mut RowStep,
    ) -> Result<(), NoMemory>
        requires { IsRowInForm stmt.now }
        ensures { OnOk result (Settles G.rule (seen (state self.old), gate.old) (seen (state self.new), gate.new) step.old step.new
            (row_stepped (room_of G.rule gate.old) who stmt.now) (row_turn (by_gate G.rule part_by_itself) (seen (state self.old), gate.old) who stmt.now)) };

    /// A session's `commit` that was checked, and the statements that it unblocks. Its answers and effects are added to
    /// what was given before.
    fn commit_into<G: WriteGate>(
        &mut self,
        who: SessionId,
        checked: Result<Option<u64>, Refusal>,
        gate: &mut G,
        step: &mut RowStep,
    ) -> Result<(), NoMemory>
        requires { checked ≡ commits_of (seen (state self.old)) who }
        ensures { OnOk result (Settles G.rule (seen (state self.old), gate.old) (seen (state self.new), gate.new) step.old step.new
            (row_stepped (room_of G.rule gate.old) who RowStmt.Commit) (row_turn (by_gate G.rule part_by_itself) (seen (state self.old), gate.old) who RowStmt.Commit)) };

    /// Runs the statements that are ready to resume; their answers and effects are added to what was given before.
    /// After `step_into` and `commit_into` there is none; after `roll_back` and `write_elsewhere`, by which a statement
    /// on queues ends a transaction, there may be some. Their writes go through the gate.
    fn settle_into<G: WriteGate>(
        &mut self,
        gate: &mut G,
        step: &mut RowStep,
    ) -> Result<(), NoMemory>
        ensures { OnOk result (Settles G.rule (seen (state self.old), gate.old) (seen (state self.new), gate.new) step.old step.new
            (row_settled (room_of G.rule gate.old)) (settling (by_gate G.rule part_by_itself) (seen (state self.old), gate.old))) };

    /// Whether nobody waits. So nobody is ready to resume either.
    fn is_at_rest(&self) -> bool
        ensures { IsTrue result ↔ ((seen (state self.now)).waiting ≡ []) };

    /// The id of the session's transaction: its own, or the next one, if there is one.
    fn next_txid(&self, who: SessionId) -> Option<u64>
        ensures { MatchOption result (txid_for (seen (state self.now)) who ≡ Err TxidsSpent) (λ txid. txid_for (seen (state self.now)) who ≡ Ok txid) };

    /// Records what a session writes elsewhere, in its transaction, which has this id or gets it: outside a block the
    /// transaction then commits. No effect is reported for that commit: the caller made the write itself.
    fn write_elsewhere(&mut self, who: SessionId, txid: u64) -> Result<(), NoMemory>
        requires { txid_for (seen (state self.old)) who ≡ Ok txid }
        ensures marks { OnOk result (seen (state self.new) ≡ after_part_marks (seen (state self.old)) (in_own who txid ((seen (state self.old)).session who) [])) }
        ensures same { OnErr result (seen (state self.new) ≡ seen (state self.old)) }
        ensures steps { let begun = after_part_marks (seen (state self.old)) (taking (seen (state self.old)) who).marks in OnOk result (
            RowSteps (seen (state self.old)) begun (txid_taken who) (taking (seen (state self.old)) who) × RowSteps begun (seen (state self.new)) (single_ended who) (ending begun who)) };

    /// Rolls back the transaction of the session's block, and aborts the block, if it is in one that isn't aborted. The
    /// gate is notified of it, and the effect is added to those before.
    fn roll_back<G: WriteGate>(
        &mut self,
        who: SessionId,
        gate: &mut G,
        effects: &mut Effects,
    ) -> Result<(), NoMemory>
        ensures marks { OnOk result (seen (state self.new) ≡ after_part_marks (seen (state self.old)) (failing (seen (state self.old)) who).marks) }
        ensures told { OnOk result (effects.new ≡ with_effects effects.old (failing (seen (state self.old)) who).marks) }
        ensures passed { OnOk result (gate.new ≡ passed_all G.rule gate.old (failing (seen (state self.old)) who).marks) }
        ensures steps { OnOk result (RowSteps (seen (state self.old)) (seen (state self.new)) (rolled_back who) (failing (seen (state self.old)) who)) };

    /// The id of a transaction of a worker, which begins and is no session's.
    fn begin_worker(&mut self) -> Result<u64, TransFault>
        ensures id { IfOk result (λ txid. next_id (seen (state self.old)) ≡ Ok txid) }
        ensures mark { IfOk result (λ txid. seen (state self.new) ≡ after_part (seen (state self.old)) (began of_worker txid)) }
        ensures spent { (result ≡ Err TransFault.TxidsSpent) ↔ (next_id (seen (state self.old)) ≡ Err TxidsSpent) }
        ensures same { OnErr result (seen (state self.new) ≡ seen (state self.old)) }
        ensures steps { OnOk result (RowSteps (seen (state self.old)) (seen (state self.new)) worker_begun (beginning (seen (state self.old)))) }
        ensures steps_spent { result ≡ Err TransFault.TxidsSpent → RowSteps (seen (state self.old)) (seen (state self.new)) worker_begun (beginning (seen (state self.old))) };

    /// Commits the transaction of a worker, or rolls it back. It held no key, so it unblocks nobody.
    fn end_worker(&mut self, txid: u64, commit: bool)
        requires { contains txid (seen (state self.old)).workers ≡ true }
        ensures mark { seen (state self.new) ≡ after_part (seen (state self.old)) (ended of_worker txid commit) }
        ensures rests { ready (seen (state self.new)) ≡ ready (seen (state self.old)) }
        ensures steps { RowSteps (seen (state self.old)) (seen (state self.new)) (worker_ended txid commit) (ending_work (seen (state self.old)) txid commit) };

    /// One write of a worker's transaction, which may have written the key before, if nobody else has since. No trigger
    /// fires and no lock is taken. No clause says yet what `RowSteps` says of the other calls.
    fn worker_write(
        &mut self,
        txid: u64,
        table: u32,
        key: Key,
        row: Option<Row>,
    ) -> Result<(), NoMemory>
        requires within { table < length (seen (state self.old)).tables }
        requires running { contains txid (seen (state self.old)).workers ≡ true }
        requires free { (seen (state self.old)).holder table key ≡ None }
        requires last { let versions = versions_at key ((seen (state self.old)).versions table) in
            IsSome (version_of txid versions) → newest_but None versions ≡ version_of txid versions }
        ensures mark { (old : Option (List Val)) → OnOk result (seen (state self.new) ≡ after_part (seen (state self.old)) (tabled (wrote of_worker txid table key old row))) }
        ensures same { OnErr result (seen (state self.new) ≡ seen (state self.old)) };

    /// The same, but only if the key has a row before, as the worker's transaction left it or else in the snapshot, or,
    /// if `needs_row` is false, only if it has none. Answers whether it was written.
    fn worker_write_if(
        &mut self,
        txid: u64,
        snapshot: &Snapshot,
        table: u32,
        key: Key,
        row: Option<Row>,
        needs_row: bool,
    ) -> Result<bool, NoMemory>
        requires within { table < length (seen (state self.old)).tables }
        requires running { contains txid (seen (state self.old)).workers ≡ true }
        requires free { (seen (state self.old)).holder table key ≡ None }
        requires last { let versions = versions_at key ((seen (state self.old)).versions table) in
            IsSome (version_of txid versions) → newest_but None versions ≡ version_of txid versions }
        ensures made { let before = read snapshot.now (Some txid) (versions_at key ((seen (state self.old)).versions table)) in
            IfOk result (λ made. made ≡ (if needs_row then is_some before else is_none before)) }
        ensures mark { (old : Option (List Val)) → IfOk result (λ made. made ≡ true → seen (state self.new) ≡ after_part (seen (state self.old)) (tabled (wrote of_worker txid table key old row))) }
        ensures unmade { IfOk result (λ made. made ≡ false → seen (state self.new) ≡ seen (state self.old)) }
        ensures same { OnErr result (seen (state self.new) ≡ seen (state self.old)) };

    /// The first `most` rows by key above `after`, or above none, in the snapshot. To find `after` takes time in the
    /// logarithm of the table's keys, and the rest in the keys that are looked at until there are `most` rows.
    fn rows_under(
        &self,
        snapshot: &Snapshot,
        table: u32,
        after: Option<&Key>,
        most: usize,
    ) -> Result<Vec<Row>, NoMemory>
        requires { table < length (seen (state self.now)).tables }
        ensures { let later = above (option_copied after.entry) ((seen (state self.now)).versions table) in
            IfOk result (λ rows. rows.items ≡ take most (map (λ e. e.1) (rows_read snapshot.now None later))) };

    /// The keys that have rows in the snapshot, in their order.
    fn keys_under(&self, snapshot: &Snapshot, table: u32) -> Result<Vec<Key>, NoMemory>
        requires { table < length (seen (state self.now)).tables }
        ensures { IfOk result (λ keys.
            keys.items ≡ map (λ e. e.0) (rows_read snapshot.now None ((seen (state self.now)).versions table))) };

    /// Sessions may not write the table from now on, or may again.
    fn set_read_only(&mut self, table: u32, on: bool)
        requires { table < length (seen (state self.old)).tables }
        ensures mark { seen (state self.new) ≡ after_part (seen (state self.old)) (tabled (read_only table on)) }
        ensures steps { RowSteps (seen (state self.old)) (seen (state self.new)) (row_guarded table on) (guarding table on) };
}
