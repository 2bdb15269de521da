//! What a database does for a world and for the workers of leaves, by what it shows.

ghost use Rattle.std.specs.Prelude.{◌≡◌, ◌<◌, [], None, Some, IfOk, IfErr, IfSome, OnOk, OnErr, MatchOption, option_map, option_copied, true, is_some, length, List, ℕ};
ghost use Rattle.londiste_calls.specs.Picks.{pick_of};
ghost use Rattle.londiste_state.specs.Nodes.{is_among};
ghost use Rattle.sky_keys.specs.Waits.{is_waiting};
ghost use Rattle.sky_model.specs.BatchMoves.{events_of_batch};
ghost use Rattle.sky_model.specs.Calls.{database_turn};
ghost use Rattle.sky_model.specs.Copies.{copy_txid};
ghost use Rattle.sky_model.specs.CopyMoves.{held_snapshot, rows_from, rows_of};
ghost use Rattle.sky_model.specs.Daemon.{quietly, daemon_does};
ghost use Rattle.sky_model.specs.DatabaseCalls.{entered, failed, stepped, worked, served};
ghost use Rattle.sky_model.specs.DatabaseSteps.{DatabaseSteps, IsMade};
ghost use Rattle.sky_model.specs.InForm.{IsDbInForm};
ghost use Rattle.sky_model.specs.Moment.{IsTime};
ghost use Rattle.sky_model.specs.Nodes.{leaf_tables};
ghost use Rattle.sky_model.specs.Outcome.{reply_of};
ghost use Rattle.sky_model.specs.Printed.{HaveMoments};
ghost use Rattle.sky_model.specs.Reader.{database_by_itself, within_part};
ghost use Rattle.sky_model.specs.SessionMarks.{Enters, entry, entry_place, failing};
ghost use Rattle.sky_model.specs.Settling.{ready, with_settling};
ghost use Rattle.sky_model.specs.State.{Database, database_of, after_marks};
ghost use Rattle.sky_model.specs.StepApply.{may_apply};
ghost use Rattle.sky_model.specs.StepConsumer.{sub_ids_spent};
ghost use Rattle.sky_model.specs.StepCopy.{all_fit};
ghost use Rattle.sky_model.specs.StepNode.{set_queue, joining, making_root, making_leaf, adding, removing, moving, listing, unlisting, table_number, may_serve, node_does, is_full, has_joined, snapshot_of_tick, parting, fetching, finishing, holding, letting_go, beginning_copy, copying_rows, ending_copy, giving_up_copy, applying};
ghost use Rattle.sky_model.specs.StepQueue.{newest_id};
ghost use Rattle.sky_model.specs.declared.reply.Reply.TheVariants.{Number};
ghost use Rattle.sky_store.specs.Applying.{ApplyRefused};
ghost use Rattle.sky_store.specs.Copying.{MayCopy};
ghost use Rattle.sky_store.specs.Gives.{Adds};
ghost use Rattle.sky_store.specs.Idle.{idles_at, IsIdleUntil};
ghost use Rattle.sky_store.specs.Served.{Serves, JoinRefused, MakeRootRefused, RootRefused, ServesUnlessBusy, Fetched, FetchRefused, CopyRefused};
ghost use Rattle.sky_store.specs.Waiters.{StaysWithin};

use crate::batch::NodeBatch;
use londiste_calls::{
    ApplyFault, CopyFault, FetchFault, JoinFault, MakeRootFault, Pick, RootFault,
};
use londiste_state::{Node, TableState};
use sky_model::{DaemonPart, DbStmt, Refusal, Replies};
use sky_txid::Snapshot;
use sky_val::{Key, NoMemory, Row, Schema, SessionId, Text};
use std::alloc::Global;

/// A database, as a world and the workers of leaves use it. Once memory has run out in a call whose contract says
/// nothing of that, nothing is said of it.
pub trait Store: Drop {
    // The database that it shows.
    ghost seen: { Self → Database };

    /// A database in which nothing has happened.
    fn new(alloc: Global) -> Self
        ensures { seen result ≡ database_of [] };

    /// Runs a statement of a session, and those that it unblocks; the answers are added to those that were given before.
    fn step_into(
        &mut self,
        who: SessionId,
        stmt: &DbStmt,
        now: i64,
        replies: &mut Replies,
    ) -> Result<(), NoMemory>
        requires time { IsTime now }
        requires form { IsDbInForm stmt.now }
        ensures exact { OnOk result (Adds (seen self.old) (seen self.new) replies.old replies.new (database_turn database_by_itself (seen self.old) now who stmt.now)) }
        ensures rests { OnOk result (ready (seen self.new).part ≡ None) }
        ensures moments { OnOk result (HaveMoments (database_turn database_by_itself (seen self.old) now who stmt.now).answers) }
        ensures within { OnOk result (StaysWithin (seen self.old) (seen self.new) who (database_turn database_by_itself (seen self.old) now who stmt.now).answers) }
        ensures steps { OnOk result (DatabaseSteps (seen self.old) (seen self.new) (stepped who stmt.now now) (database_turn database_by_itself (seen self.old) now who stmt.now)) };

    /// Lets the session make a statement that isn't on rows, or refuses it. One that is allowed only `outside` blocks
    /// reads nothing; any other takes the sight of a repeatable read block, if it isn't taken yet.
    fn enter(&mut self, who: SessionId, outside: bool) -> Result<Option<Refusal>, NoMemory>
        ensures enters { IfOk result (λ refusal. Enters (seen self.old).part (seen self.new).part who (entry_place outside) refusal) }
        ensures but { seen self.new ≡ record (seen self.old) { part = (seen self.new).part } }
        ensures err { OnErr result (seen self.new ≡ seen self.old) }
        ensures steps { OnOk result (DatabaseSteps (seen self.old) (seen self.new) (entered who outside)
            (entry (seen self.old).part who (entry_place outside))) };

    /// Rolls back the session's block, which stays aborted, and runs the statements that this unblocks. If it is in
    /// none, or in an aborted one, nothing is rolled back. The moment dates the events of statements that resume. The
    /// answers are added to those that were given before.
    fn fail_into(&mut self, who: SessionId, now: i64, replies: &mut Replies) -> Result<(), NoMemory>
        requires { IsTime now }
        ensures exact { let d = seen self.old in
            OnOk result (Adds d (seen self.new) replies.old replies.new (with_settling (within_part database_by_itself now) d (failing d.part who))) }
        ensures rests { OnOk result (ready (seen self.new).part ≡ None) }
        ensures moments { let d = seen self.old in
            OnOk result (HaveMoments (with_settling (within_part database_by_itself now) d (failing d.part who)).answers) }
        ensures within { let d = seen self.old in
            OnOk result (StaysWithin d (seen self.new) who (with_settling (within_part database_by_itself now) d (failing d.part who)).answers) }
        ensures steps { let d = seen self.old in
            OnOk result (DatabaseSteps d (seen self.new) (failed who now) (with_settling (within_part database_by_itself now) d (failing d.part who))) };

    /// Whether the session waits for another one's transaction.
    fn waits(&self, who: SessionId) -> bool
        ensures { result ≡ is_waiting who (seen self.now).part.waiting };

    /// Does a part of the daemon's work at a moment.
    fn daemon(&mut self, part: DaemonPart, now: i64) -> Result<(), NoMemory>
        requires { IsTime now }
        ensures exact { OnOk result (seen self.new ≡ after_marks (seen self.old) (daemon_does database_by_itself (seen self.old) part now).marks) }
        ensures waiting { OnOk result ((seen self.new).part.waiting ≡ (seen self.old).part.waiting) }
        ensures steps { OnOk result (DatabaseSteps (seen self.old) (seen self.new) (worked part now)
            (daemon_does database_by_itself (seen self.old) part now)) };

    /// Whether no part of the work would change anything at a moment; then none would at one before it either. No memory
    /// is taken.
    fn is_idle_until(&self, moment: i64) -> bool
        requires { IsTime moment }
        ensures idles { result ≡ idles_at moment (seen self.now) }
        ensures until { result ≡ true → IsIdleUntil moment (seen self.now) };

    /// The database's node, if it has one.
    fn node(&self) -> Option<&Node>
        ensures { option_copied result ≡ (seen self.now).node };

    /// Whether the node is a root whose queue exists.
    fn is_provider(&self) -> bool
        ensures { result ≡ is_some (set_queue (seen self.now)) };

    /// The number of the table of this name, and its columns, if there is one.
    fn table(&self, name: &Text) -> Option<(u32, &Schema)>
        ensures { MatchOption result (table_number (seen self.now) name.now ≡ None) (λ found.
            (table_number (seen self.now) name.now ≡ Some found.0) × (found.1.now ≡ (seen self.now).part.columns found.0)) };

    /// The number of a table of the leaf.
    fn leaf_table(&self, name: &Text) -> u32
        requires made { IsMade (seen self.now) }
        requires among { is_among name.now (leaf_tables (seen self.now).node) ≡ true }
        ensures { table_number (seen self.now) name.now ≡ Some result };

    /// The columns of the table of this number.
    fn schema(&self, table: u32) -> &Schema
        requires { table < length (seen self.now).part.tables }
        ensures { result.now ≡ (seen self.now).part.columns table };

    /// Makes the database's node, the root of a set, and the set's queue with its first tick, in a transaction of a worker,
    /// which ends at once. If the queue can't be made, or no id is left, nothing changes.
    fn make_root(&mut self, name: &Text, queue: &Text, now: i64) -> Result<(), MakeRootFault>
        requires bare { (seen self.old).node ≡ None }
        requires time { IsTime now }
        ensures serves { OnOk result (Serves (seen self.old) (seen self.new) (making_root name.now queue.now now)) }
        ensures fault { IfErr result (λ fault. MakeRootRefused fault (seen self.old) (seen self.new) name.now queue.now now) }
        ensures steps { OnOk result (DatabaseSteps (seen self.old) (seen self.new) (served (making_root name.now queue.now now)) (quietly (node_does (seen self.old) (making_root name.now queue.now now)))) };

    /// Makes the database's node, a leaf of the root of this name, at a tick of the root's queue. On an error nothing
    /// changes.
    fn make_leaf(&mut self, name: &Text, provider: &Text, tick: u64) -> Result<(), NoMemory>
        requires { (seen self.old).node ≡ None }
        ensures serves { OnOk result (Serves (seen self.old) (seen self.new) (making_leaf name.now provider.now tick)) }
        ensures err { OnErr result (seen self.new ≡ seen self.old) }
        ensures steps { OnOk result (DatabaseSteps (seen self.old) (seen self.new) (served (making_leaf name.now provider.now tick)) (quietly (node_does (seen self.old) (making_leaf name.now provider.now tick)))) };

    /// Adds a table to the leaf, which doesn't have it yet. From then on sessions may not write it. If a running
    /// transaction has written it, nothing changes, and that transaction's id is returned. On an error nothing changes.
    fn leaf_add(&mut self, table: &Text, number: u32) -> Result<Option<u64>, NoMemory>
        requires number { table_number (seen self.old) table.now ≡ Some number }
        requires may { may_serve (adding table.now) (seen self.old).node ≡ true }
        ensures serves { IfOk result (λ busy. ServesUnlessBusy busy (seen self.old) (seen self.new) (adding table.now)) }
        ensures err { OnErr result (seen self.new ≡ seen self.old) }
        ensures steps { OnOk result (DatabaseSteps (seen self.old) (seen self.new) (served (adding table.now)) (quietly (node_does (seen self.old) (adding table.now)))) };

    /// Removes a table from the leaf, which has it. From then on sessions may write it again. A copy of it that runs is
    /// given up.
    fn leaf_drop(&mut self, table: &Text, number: u32)
        requires made { IsMade (seen self.old) }
        requires number { table_number (seen self.old) table.now ≡ Some number }
        requires may { may_serve (removing table.now) (seen self.old).node ≡ true }
        ensures serves { Serves (seen self.old) (seen self.new) (removing table.now) }
        ensures steps { DatabaseSteps (seen self.old) (seen self.new) (served (removing table.now)) (quietly (node_does (seen self.old) (removing table.now))) };

    /// Sets the state of a table of the leaf, which may go to it. A copy of it that runs is given up.
    fn set_state(&mut self, table: &Text, number: u32, to: TableState)
        requires made { IsMade (seen self.old) }
        requires number { table_number (seen self.old) table.now ≡ Some number }
        requires allowed { may_serve (moving table.now to) (seen self.old).node ≡ true }
        ensures serves { Serves (seen self.old) (seen self.new) (moving table.now to) }
        ensures steps { DatabaseSteps (seen self.old) (seen self.new) (served (moving table.now to)) (quietly (node_does (seen self.old) (moving table.now to))) };

    /// Adds a table to the set, which doesn't have it yet. From then on the set's queue gets the events of the table's
    /// writes. If a running transaction has written it, nothing changes, and that transaction's id is returned. On an
    /// error nothing changes.
    fn root_add(&mut self, table: &Text, number: u32) -> Result<Option<u64>, RootFault>
        requires number { table_number (seen self.old) table.now ≡ Some number }
        requires may { may_serve (listing table.now) (seen self.old).node ≡ true }
        ensures serves { IfOk result (λ busy. ServesUnlessBusy busy (seen self.old) (seen self.new) (listing table.now)) }
        ensures fault { IfErr result (λ fault. RootRefused fault (seen self.old) (seen self.new) table.now) }
        ensures steps { OnOk result (DatabaseSteps (seen self.old) (seen self.new) (served (listing table.now)) (quietly (node_does (seen self.old) (listing table.now)))) };

    /// Removes a table from the set, which has it. Its events no longer go to the set's queue.
    fn root_drop(&mut self, table: &Text, number: u32)
        requires number { table_number (seen self.old) table.now ≡ Some number }
        requires may { may_serve (unlisting table.now) (seen self.old).node ≡ true }
        ensures serves { Serves (seen self.old) (seen self.new) (unlisting table.now) }
        ensures steps { DatabaseSteps (seen self.old) (seen self.new) (served (unlisting table.now)) (quietly (node_does (seen self.old) (unlisting table.now))) };

    /// Registers a leaf's consumer at the newest tick of the set's queue, and returns that tick. On an error nothing
    /// changes, except that a consumer that was a leaf's but not registered may be a leaf's no longer.
    fn join(&mut self, consumer: &Text) -> Result<u64, JoinFault>
        requires { is_some (set_queue (seen self.old)) ≡ true }
        ensures tick { IfOk result (λ tick. option_map (λ queue. newest_id ((seen self.old).queue queue)) (set_queue (seen self.old)) ≡ Some tick) }
        ensures serves { OnOk result (Serves (seen self.old) (seen self.new) (joining consumer.now)) }
        ensures fault { IfErr result (λ fault. JoinRefused fault (seen self.old) (seen self.new) consumer.now) }
        ensures steps { OnOk result (DatabaseSteps (seen self.old) (seen self.new) (served (joining consumer.now)) (quietly (node_does (seen self.old) (joining consumer.now)))) };

    /// Whether the set's queue has as many consumers as it may have, and this isn't one of them.
    fn is_full(&self, consumer: &Text) -> bool
        requires provider { is_some (set_queue (seen self.now)) ≡ true }
        ensures { result ≡ is_full (seen self.now) consumer.now };

    /// Whether a consumer is registered at the set's queue.
    fn has_joined(&self, consumer: &Text) -> bool
        requires provider { is_some (set_queue (seen self.now)) ≡ true }
        ensures { result ≡ has_joined (seen self.now) consumer.now };

    /// Whether a batch of this id is active.
    fn has_batch(&self, id: u64) -> bool
        ensures { result ≡ is_some ((seen self.now).batch id) };

    /// Whether the last subscription id has been given.
    fn sub_ids_spent(&self) -> bool
        ensures { result ≡ sub_ids_spent (seen self.now) };

    /// Unregisters a leaf's consumer from the set's queue, if it is registered.
    fn part(&mut self, consumer: &Text)
        requires provider { is_some (set_queue (seen self.old)) ≡ true }
        ensures serves { Serves (seen self.old) (seen self.new) (parting consumer.now) }
        ensures steps { DatabaseSteps (seen self.old) (seen self.new) (served (parting consumer.now)) (quietly (node_does (seen self.old) (parting consumer.now))) };

    /// The active batch of a leaf's consumer. If it has none, a new one up to the next tick, if there is one. On an error
    /// nothing changes.
    fn fetch(&mut self, consumer: &Text) -> Result<Option<NodeBatch>, FetchFault>
        requires provider { is_some (set_queue (seen self.old)) ≡ true }
        requires registered { has_joined (seen self.old) consumer.now ≡ true }
        ensures serves { OnOk result (Serves (seen self.old) (seen self.new) (fetching consumer.now)) }
        ensures batch { IfOk result (λ batch. Fetched batch (seen self.old) (seen self.new) consumer.now) }
        ensures fault { IfErr result (λ fault. FetchRefused fault (seen self.old) (seen self.new) consumer.now) }
        ensures steps { OnOk result (DatabaseSteps (seen self.old) (seen self.new) (served (fetching consumer.now)) (quietly (node_does (seen self.old) (fetching consumer.now)))) };

    /// Finishes an active batch, so that its consumer is at its closing tick.
    fn finish(&mut self, batch: u64)
        requires provider { is_some (set_queue (seen self.old)) ≡ true }
        requires active { is_some ((seen self.old).batch batch) ≡ true }
        ensures serves { Serves (seen self.old) (seen self.new) (finishing batch) }
        ensures steps { DatabaseSteps (seen self.old) (seen self.new) (served (finishing batch)) (quietly (node_does (seen self.old) (finishing batch))) };

    /// The snapshot of a tick of the set's queue, if the queue keeps that tick.
    fn tick_snapshot(&self, tick: u64) -> Option<&Snapshot>
        requires provider { is_some (set_queue (seen self.now)) ≡ true }
        ensures { option_copied result ≡ snapshot_of_tick (seen self.now) tick };

    /// Holds the present snapshot, so that rows can be read under it from now on, and returns its number: the least one
    /// that no other hold has. On an error nothing changes.
    fn hold(&mut self) -> Result<u64, NoMemory>
        ensures number { IfOk result (λ number. reply_of (node_does (seen self.old) holding) ≡ Number number) }
        ensures serves { OnOk result (Serves (seen self.old) (seen self.new) holding) }
        ensures err { OnErr result (seen self.new ≡ seen self.old) }
        ensures steps { OnOk result (DatabaseSteps (seen self.old) (seen self.new) (served holding) (quietly (node_does (seen self.old) holding))) };

    /// Lets a hold go. Nothing happens if there is none of this number.
    fn let_go(&mut self, hold: u64)
        ensures serves { Serves (seen self.old) (seen self.new) (letting_go hold) }
        ensures steps { DatabaseSteps (seen self.old) (seen self.new) (served (letting_go hold)) (quietly (node_does (seen self.old) (letting_go hold))) };

    /// Whether there is a hold of this number.
    fn is_held(&self, hold: u64) -> bool
        ensures { result ≡ is_some (held_snapshot (seen self.now) hold) };

    /// The snapshot of a hold.
    fn held_snapshot(&self, hold: u64) -> &Snapshot
        requires held { is_some (held_snapshot (seen self.now) hold) ≡ true }
        ensures { held_snapshot (seen self.now) hold ≡ Some result.now };

    /// The first `most` rows of a table by key above `after`, or above none, under the snapshot of a hold.
    fn held_rows(
        &self,
        hold: u64,
        table: u32,
        after: Option<&Key>,
        most: usize,
    ) -> Result<Vec<Row>, NoMemory>
        requires held { is_some (held_snapshot (seen self.now) hold) ≡ true }
        requires there { table < length (seen self.now).part.tables }
        ensures { (name : List ℕ) → table_number (seen self.now) name ≡ Some table
            → IfOk result (λ rows. IfSome (held_snapshot (seen self.now) hold) (λ snapshot.
            rows.items ≡ rows_of (rows_from (seen self.now) name snapshot (option_copied after.entry) most))) };

    /// Begins the copy of a table of the leaf: its transaction gets its id and deletes the rows that the table has.
    fn copy_begin(&mut self, table: u32) -> Result<(), CopyFault>
        requires made { IsMade (seen self.old) }
        requires may { MayCopy (seen self.old) table }
        requires idle { copy_txid table (seen self.old).copies ≡ None }
        ensures serves { (name : List ℕ) → table_number (seen self.old) name ≡ Some table
            → OnOk result (Serves (seen self.old) (seen self.new) (beginning_copy name)) }
        ensures fault { (name : List ℕ) → table_number (seen self.old) name ≡ Some table
            → IfErr result (λ fault. CopyRefused fault (seen self.old) (seen self.new) name) }
        ensures steps { (name : List ℕ) → table_number (seen self.old) name ≡ Some table
            → OnOk result (DatabaseSteps (seen self.old) (seen self.new) (served (beginning_copy name)) (quietly (node_does (seen self.old) (beginning_copy name)))) };

    /// Writes rows of the copy of a table that runs, each under its key. If none runs, nothing happens.
    fn copy_rows(&mut self, table: u32, rows: Vec<Row>) -> Result<(), NoMemory>
        requires made { IsMade (seen self.old) }
        requires may { MayCopy (seen self.old) table }
        requires fit { all_fit ((seen self.old).part.columns table) rows.items ≡ true }
        ensures serves { (name : List ℕ) → table_number (seen self.old) name ≡ Some table
            → OnOk result (Serves (seen self.old) (seen self.new) (copying_rows name rows.items)) }
        ensures steps { (name : List ℕ) → table_number (seen self.old) name ≡ Some table
            → OnOk result (DatabaseSteps (seen self.old) (seen self.new) (served (copying_rows name rows.items)) (quietly (node_does (seen self.old) (copying_rows name rows.items)))) };

    /// Ends the copy of a table that runs: its transaction commits. The table has the rows under a snapshot, and its
    /// consumer is at a tick, so that it catches up from now on. If none runs, nothing happens.
    fn copy_end(
        &mut self,
        table: &Text,
        number: u32,
        snapshot: &Snapshot,
        tick: u64,
    ) -> Result<(), NoMemory>
        requires made { IsMade (seen self.old) }
        requires number { table_number (seen self.old) table.now ≡ Some number }
        requires may { may_serve (ending_copy table.now snapshot.now tick) (seen self.old).node ≡ true }
        ensures serves { OnOk result (Serves (seen self.old) (seen self.new) (ending_copy table.now snapshot.now tick)) }
        ensures steps { OnOk result (DatabaseSteps (seen self.old) (seen self.new) (served (ending_copy table.now snapshot.now tick)) (quietly (node_does (seen self.old) (ending_copy table.now snapshot.now tick)))) };

    /// Gives the copy of a table up, if one runs: its transaction rolls back, and the table has the rows that it had
    /// before.
    fn copy_drop(&mut self, table: u32)
        requires made { IsMade (seen self.old) }
        requires may { MayCopy (seen self.old) table }
        ensures serves { (name : List ℕ) → table_number (seen self.old) name ≡ Some table
            → Serves (seen self.old) (seen self.new) (giving_up_copy name) }
        ensures steps { (name : List ℕ) → table_number (seen self.old) name ≡ Some table
            → DatabaseSteps (seen self.old) (seen self.new) (served (giving_up_copy name)) (quietly (node_does (seen self.old) (giving_up_copy name))) };

    /// The transaction of the copy of a table, if one runs.
    fn copy_of(&self, table: u32) -> Option<u64>
        ensures { result ≡ copy_txid table (seen self.now).copies };

    /// Applies the events of a batch of another database that are picked, in one transaction, and stores the tick; returns
    /// how many they are. A batch that isn't active there has no events. If one of them can't be applied, the transaction
    /// is rolled back: its id is spent, and all else is as before. The provider shows the same afterwards.
    fn apply_batch(
        &mut self,
        provider: &mut Self,
        batch: u64,
        pick: &Pick,
        tick: u64,
    ) -> Result<u64, ApplyFault>
        requires made { IsMade (seen self.old) }
        requires may { may_apply (pick_of pick.now) (seen self.old).node ≡ true }
        ensures number { let events = events_of_batch (seen provider.old) batch in
            IfOk result (λ many. reply_of (node_does (seen self.old) (applying events (pick_of pick.now) tick)) ≡ Number many) }
        ensures serves { OnOk result (Serves (seen self.old) (seen self.new) (applying (events_of_batch (seen provider.old) batch) (pick_of pick.now) tick)) }
        ensures fault { IfErr result (λ fault. ApplyRefused fault (seen self.old) (seen self.new) (events_of_batch (seen provider.old) batch) (pick_of pick.now) tick) }
        ensures steps { let events = events_of_batch (seen provider.old) batch in
            OnOk result (DatabaseSteps (seen self.old) (seen self.new) (served (applying events (pick_of pick.now) tick)) (quietly (node_does (seen self.old) (applying events (pick_of pick.now) tick)))) }
        ensures provider { seen provider.new ≡ seen provider.old };
}
