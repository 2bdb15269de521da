ghost use Rattle.std.specs.Prelude.{◌≡◌, true, None, Some, Err};
ghost use Rattle.sky_model.specs.Copies.{copy_txid};
ghost use Rattle.sky_model.specs.InForm.{IsDbInForm};
ghost use Rattle.sky_model.specs.StepCopy.{all_fit};
ghost use Rattle.sky_model.specs.StepNode.{table_number, may_copy, may_serve, adding, applying, moving};
ghost use Rattle.londiste_calls.specs.Picks.{pick_of};
ghost use Rattle.sky_store.specs.Copying.{MayCopy};

use crate::event_store::EventStore;
use londiste_calls::{ApplyFault, CopyFault, Pick};
use londiste_state::TableState;
use sky_model::{DbStmt, Replies};
use sky_txid::Snapshot;
use sky_val::{Event, NoMemory, Row, SessionId, Text};
use std::alloc::{AllocError, Global};
use std::marker::Model;

/// The database of a leaf, which calls have made. Once memory has run out in one of them nothing is said of it, and no
/// call is made any more.
#[derive(Drop)]
pub struct Replica<D: EventStore> {
    db: D,
    has_failed: bool,
}

impl<D: EventStore> Model for Replica<D> {
    ghost use Rattle.std.specs.Prelude.{◌≡◌, false};
    ghost use Rattle.sky_model.specs.DatabaseSteps.{IsMade};
    ghost use Rattle.trials_databases.specs.Views.{ReplicaView};

    ghost Value = { ReplicaView D };

    ghost view = { λ r. record { db = r.db; has_failed = r.has_failed } };

    ghost invariant = { λ r. r.has_failed ≡ false → IsMade (D.seen r.db) };
}

impl<D: EventStore> Replica<D> {
    /// One in which nothing has happened.
    pub fn new(alloc: Global) -> Replica<D> {
        Replica {
            db: D::new(alloc),
            has_failed: false,
        }
    }

    /// The database.
    pub fn db(&self) -> &D
        ensures { result.now ≡ self.now.db }
    {
        &self.db
    }

    /// Runs a statement of a session, whose answers are added to those before. The clock is at its start.
    pub fn step_into(
        &mut self,
        who: SessionId,
        stmt: &DbStmt,
        replies: &mut Replies,
    ) -> Result<(), NoMemory>
        requires { IsDbInForm stmt.now }
    {
        if self.has_failed {
            return Err(AllocError);
        }
        let stepped = self.db.step_into(who, stmt, 0, replies);
        self.has_failed = stepped.is_err();
        stepped
    }

    /// Makes the leaf.
    pub fn make_leaf(&mut self, name: &Text, provider: &Text, tick: u64) -> Result<(), NoMemory>
        requires { (D.seen self.old.db).node ≡ None }
    {
        if self.has_failed {
            return Err(AllocError);
        }
        let made = self.db.make_leaf(name, provider, tick);
        self.has_failed = made.is_err();
        made
    }

    /// Adds a table to the leaf.
    pub fn leaf_add(&mut self, table: &Text, number: u32) -> Result<Option<u64>, NoMemory>
        requires number { table_number (D.seen self.old.db) table.now ≡ Some number }
        requires may { may_serve (adding table.now) (D.seen self.old.db).node ≡ true }
    {
        if self.has_failed {
            return Err(AllocError);
        }
        let added = self.db.leaf_add(table, number);
        self.has_failed = added.is_err();
        added
    }

    /// Sets the state of a table.
    pub fn set_state(&mut self, table: &Text, number: u32, to: TableState) -> Result<(), NoMemory>
        requires number { table_number (D.seen self.old.db) table.now ≡ Some number }
        requires may { may_serve (moving table.now to) (D.seen self.old.db).node ≡ true }
    {
        if self.has_failed {
            return Err(AllocError);
        }
        self.db.set_state(table, number, to);
        Ok(())
    }

    /// Applies a batch.
    pub fn apply(&mut self, events: &[Event], pick: &Pick, tick: u64) -> Result<u64, ApplyFault>
        requires { may_serve (applying events.now (pick_of pick.now) tick) (D.seen self.old.db).node ≡ true }
    {
        if self.has_failed {
            return Err(ApplyFault::NoMemory);
        }
        let applied = self.db.apply(events, pick, tick);
        self.has_failed = has_run_out(&applied);
        applied
    }

    /// Begins the copy of a table.
    pub fn copy_begin(&mut self, table: u32) -> Result<(), CopyFault>
        requires may { MayCopy (D.seen self.old.db) table }
        requires idle { copy_txid table (D.seen self.old.db).copies ≡ None }
    {
        if self.has_failed {
            return Err(CopyFault::NoMemory);
        }
        let begun = self.db.copy_begin(table);
        self.has_failed = begun.is_err();
        begun
    }

    /// Writes rows of a copy.
    pub fn copy_rows(&mut self, table: u32, rows: Vec<Row>) -> Result<(), NoMemory>
        requires may { MayCopy (D.seen self.old.db) table }
        requires fit { all_fit ((D.seen self.old.db).part.columns table) rows.items ≡ true }
    {
        if self.has_failed {
            return Err(AllocError);
        }
        let copied = self.db.copy_rows(table, rows);
        self.has_failed = copied.is_err();
        copied
    }

    /// Ends a copy.
    pub fn copy_end(
        &mut self,
        table: &Text,
        number: u32,
        snapshot: &Snapshot,
        tick: u64,
    ) -> Result<(), NoMemory>
        requires number { table_number (D.seen self.old.db) table.now ≡ Some number }
        requires may { may_copy table.now (D.seen self.old.db).node ≡ true }
    {
        if self.has_failed {
            return Err(AllocError);
        }
        let ended = self.db.copy_end(table, number, snapshot, tick);
        self.has_failed = ended.is_err();
        ended
    }

    /// Gives a copy up.
    pub fn copy_drop(&mut self, table: u32) -> Result<(), NoMemory>
        requires { MayCopy (D.seen self.old.db) table }
    {
        if self.has_failed {
            return Err(AllocError);
        }
        self.db.copy_drop(table);
        Ok(())
    }
}

// Whether memory ran out while a batch was applied.
fn has_run_out(applied: &Result<u64, ApplyFault>) -> bool
    ensures { applied.now ≡ Err ApplyFault.NoMemory → result ≡ true }
{
    matches!(applied, Err(ApplyFault::NoMemory))
}
