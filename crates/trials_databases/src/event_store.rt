//! What trials ask of a database, and no world does. The trials are written over any such store, so that their proofs
//! don't carry what a `Db` is made of.

ghost use Rattle.std.specs.Prelude.{◌≡◌, true, IfErr, OnOk, is_some};
ghost use Rattle.londiste_calls.specs.Picks.{pick_of};
ghost use Rattle.sky_model.specs.Daemon.{quietly};
ghost use Rattle.sky_model.specs.DatabaseCalls.{served};
ghost use Rattle.sky_model.specs.DatabaseSteps.{DatabaseSteps, IsMade};
ghost use Rattle.sky_model.specs.InForm.{IsDbInForm};
ghost use Rattle.sky_model.specs.Moment.{IsTime};
ghost use Rattle.sky_model.specs.StepNode.{applying, may_serve, node_does, set_queue};
ghost use Rattle.sky_store.specs.Applying.{ApplyRefused};

use londiste_calls::{ApplyFault, Pick};
use pgq_db::{Db, Store};
use sky_model::{DbStmt, Replies};
use sky_session::RowStore;
use sky_val::{Event, NoMemory, SessionId};

/// A store that also runs a statement by itself, gives the events of a batch, and applies those that it is given.
pub trait EventStore: Store {
    /// Runs a statement of a session, and those that it unblocks.
    fn step(&mut self, who: SessionId, stmt: &DbStmt, now: i64) -> Result<Replies, NoMemory>
        requires time { IsTime now }
        requires form { IsDbInForm stmt.now };

    /// Rolls back the session's block, and runs the statements that this unblocks.
    fn fail(&mut self, who: SessionId, now: i64) -> Result<Replies, NoMemory>
        requires { IsTime now };

    /// Whether the session is in a transaction block.
    fn in_transaction(&self, who: SessionId) -> bool;

    /// The events of an active batch.
    fn batch_events(&mut self, batch: u64) -> Result<Vec<Event>, NoMemory>
        requires provider { is_some (set_queue (Self.seen self.old)) ≡ true }
        requires active { is_some ((Self.seen self.old).batch batch) ≡ true };

    /// Applies the events of a batch that are picked, and stores the tick; returns how many they are.
    fn apply(&mut self, events: &[Event], pick: &Pick, tick: u64) -> Result<u64, ApplyFault>
        requires made { IsMade (Self.seen self.old) }
        requires may { may_serve (applying events.now (pick_of pick.now) tick) (Self.seen self.old).node ≡ true }
        ensures fault { IfErr result (λ fault. ApplyRefused fault (Self.seen self.old) (Self.seen self.new) events.now (pick_of pick.now) tick) }
        ensures steps { OnOk result (DatabaseSteps (Self.seen self.old) (Self.seen self.new) (served (applying events.now (pick_of pick.now) tick)) (quietly (node_does (Self.seen self.old) (applying events.now (pick_of pick.now) tick)))) };
}

impl<R: RowStore> EventStore for Db<R> {
    fn step(&mut self, who: SessionId, stmt: &DbStmt, now: i64) -> Result<Replies, NoMemory> {
        Db::step(self, who, stmt, now)
    }

    fn fail(&mut self, who: SessionId, now: i64) -> Result<Replies, NoMemory> {
        Db::fail(self, who, now)
    }

    fn in_transaction(&self, who: SessionId) -> bool {
        Db::in_transaction(self, who)
    }

    fn batch_events(&mut self, batch: u64) -> Result<Vec<Event>, NoMemory> {
        Db::batch_events(self, batch)
    }

    fn apply(&mut self, events: &[Event], pick: &Pick, tick: u64) -> Result<u64, ApplyFault> {
        Db::apply(self, events, pick, tick)
    }
}
