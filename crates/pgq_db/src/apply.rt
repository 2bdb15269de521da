//! Batches of events that a leaf applies to its tables. A batch is one transaction of a worker, which writes the rows
//! of the events that are picked, one after another, and stores the tick.

ghost use Rattle.std.specs.Prelude.{◌≡◌, ◌≢◌, List, [], ◌∷◌, true, false, Some, Err, IfErr, IfOk, OnOk, map};
ghost use Rattle.sky_val.specs.declared.event.Event.{Event};
ghost use Rattle.sky_txid.specs.Ids.{contains};
ghost use Rattle.sky_model.specs.declared.reply.Reply.TheVariants.{Number};
ghost use Rattle.sky_model.specs.BatchMoves.{events_of_batch};
ghost use Rattle.sky_model.specs.Daemon.{quietly};
ghost use Rattle.sky_model.specs.DatabaseCalls.{served};
ghost use Rattle.sky_model.specs.DatabaseSteps.{DatabaseSteps, IsMade};
ghost use Rattle.sky_model.specs.History.{of_worker, ended, noded, applied};
ghost use Rattle.sky_model.specs.Outcome.{reply_of};
ghost use Rattle.sky_model.specs.State.{after_mark, after_marks};
ghost use Rattle.sky_model.specs.StepApply.{may_apply};
ghost use Rattle.sky_model.specs.StepNode.{applying, may_serve, node_does};
ghost use Rattle.pgq_tables.specs.Tables.{recorded_part};
ghost use Rattle.pgq_queues.specs.Seen.{batch_at};
ghost use Rattle.londiste_calls.specs.Picks.{pick_of};
ghost use Rattle.sky_store.specs.Applying.{ApplyRefused};
ghost use Rattle.pgq_parts.specs.Looks.{LooksFor, LooksFrom, LooksAtNoOther};
ghost use Rattle.pgq_parts.specs.Seen.{seen_database};
ghost use Rattle.sky_store.specs.Served.{Serves};

use crate::db::Db;
use londiste_apply::{apply_picked, recorded, store_tick};
use londiste_calls::{ApplyFault, Pick};
use pgq_tables::Recorded;
use sky_model::WriteGate;
use sky_row_store::RowStore;
use sky_val::{Event, NoMemory};

impl<R: RowStore> Db<R> {
    /// Applies the events of a batch that are picked, in one transaction, and stores the tick; returns how many they
    /// are. If one of them can't be applied, the transaction is rolled back: its id is spent, and all else is as before.
    pub fn apply(&mut self, events: &[Event], pick: &Pick, tick: u64) -> Result<u64, ApplyFault>
        requires made { IsMade (seen_database self.old) }
        requires may { may_serve (applying events.now (pick_of pick.now) tick) (seen_database self.old).node ≡ true }
        ensures number { IfOk result (λ many. reply_of (node_does (seen_database self.old) (applying events.now (pick_of pick.now) tick)) ≡ Number many) }
        ensures serves { OnOk result (Serves (seen_database self.old) (seen_database self.new) (applying events.now (pick_of pick.now) tick)) }
        ensures fault { IfErr result (λ fault. ApplyRefused fault (seen_database self.old) (seen_database self.new) events.now (pick_of pick.now) tick) }
        ensures steps { OnOk result (DatabaseSteps (seen_database self.old) (seen_database self.new) (served (applying events.now (pick_of pick.now) tick)) (quietly (node_does (seen_database self.old) (applying events.now (pick_of pick.now) tick)))) }
    {
        let recorded = recorded(self.alloc, events)?;
        self.apply_recorded(&recorded, pick, tick)
    }

    /// The same for the events of a batch of another database, of which there are none if it isn't active there. They are
    /// read where they are stored, and nothing changes there but how many events of the batch's queue were looked at:
    /// whether all can be applied or not, as many as for `get_batch_events`, unless memory runs out.
    pub fn apply_batch(
        &mut self,
        provider: &mut Db<R>,
        batch: u64,
        pick: &Pick,
        tick: u64,
    ) -> Result<u64, ApplyFault>
        requires made { IsMade (seen_database self.old) }
        requires may { may_apply (pick_of pick.now) (seen_database self.old).node ≡ true }
        ensures number { let events = events_of_batch (seen_database provider.old) batch in
            IfOk result (λ many. reply_of (node_does (seen_database self.old) (applying events (pick_of pick.now) tick)) ≡ Number many) }
        ensures serves { OnOk result (Serves (seen_database self.old) (seen_database self.new) (applying (events_of_batch (seen_database provider.old) batch) (pick_of pick.now) tick)) }
        ensures fault { IfErr result (λ fault. ApplyRefused fault (seen_database self.old) (seen_database self.new) (events_of_batch (seen_database provider.old) batch) (pick_of pick.now) tick) }
        ensures steps { let events = events_of_batch (seen_database provider.old) batch in
            OnOk result (DatabaseSteps (seen_database self.old) (seen_database self.new) (served (applying events (pick_of pick.now) tick)) (quietly (node_does (seen_database self.old) (applying events (pick_of pick.now) tick)))) }
        ensures provider { seen_database provider.new ≡ seen_database provider.old }
        ensures looks { result ≢ Err ApplyFault.NoMemory → LooksFor provider.old.queues provider.new.queues batch }
        ensures lists { result ≢ Err ApplyFault.NoMemory → LooksFrom provider.old.queues provider.new.queues (events_of_batch (seen_database provider.old) batch) (batch_at provider.old.queues batch) }
        ensures others { LooksAtNoOther provider.old.queues provider.new.queues (batch_at provider.old.queues batch) }
    {
        let Some(batch) = provider.queues.batch(batch) else {
            return self.apply_recorded(&[], pick, tick);
        };
        let span = batch.span();
        let looks = provider.queues.look(span)?;
        let recorded = provider.queues.recorded(span, looks)?;
        self.apply_recorded(&recorded, pick, tick)
    }

    /// The same for what events record.
    fn apply_recorded(
        &mut self,
        events: &[Recorded<'_>],
        pick: &Pick,
        tick: u64,
    ) -> Result<u64, ApplyFault>
        requires made { IsMade (seen_database self.old) }
        requires may { may_apply (pick_of pick.now) (seen_database self.old).node ≡ true }
        ensures number { (all : List Event) → events.now ≡ map recorded_part all
            → IfOk result (λ many. reply_of (node_does (seen_database self.old) (applying all (pick_of pick.now) tick)) ≡ Number many) }
        ensures serves { (all : List Event) → events.now ≡ map recorded_part all
            → OnOk result (Serves (seen_database self.old) (seen_database self.new) (applying all (pick_of pick.now) tick)) }
        ensures fault { (all : List Event) → events.now ≡ map recorded_part all
            → IfErr result (λ fault. ApplyRefused fault (seen_database self.old) (seen_database self.new) all (pick_of pick.now) tick) }
        ensures steps { (all : List Event) → events.now ≡ map recorded_part all
            → OnOk result (DatabaseSteps (seen_database self.old) (seen_database self.new) (served (applying all (pick_of pick.now) tick)) (quietly (node_does (seen_database self.old) (applying all (pick_of pick.now) tick)))) }
    {
        let txid = self.rows.begin_worker()?;
        let work = apply_picked(
            self.alloc,
            &mut self.rows,
            &self.node.own,
            pick,
            txid,
            events,
        )?;
        match work.bad {
            Some(id) => {
                self.roll_back_work(txid);
                Err(ApplyFault::BadEvent(id))
            }
            None => {
                self.commit_work(txid, pick, tick);
                Ok(work.many as u64)
            }
        }
    }

    /// The transaction of a worker that applied a batch commits, and the batch's tick is stored.
    fn commit_work(&mut self, txid: u64, pick: &Pick, tick: u64)
        requires { contains txid (seen_database self.old).part.workers ≡ true }
        ensures { seen_database self.new ≡ after_marks (seen_database self.old) (ended of_worker txid true ∷ noded (applied (pick_of pick.now) tick) ∷ []) }
    {
        self.rows.end_worker(txid, true);
        store_tick(&mut self.node.own, pick, tick);
    }

    /// The transaction of a worker rolls back.
    fn roll_back_work(&mut self, txid: u64)
        requires { contains txid (seen_database self.old).part.workers ≡ true }
        ensures { seen_database self.new ≡ after_mark (seen_database self.old) (ended of_worker txid false) }
    {
        self.rows.end_worker(txid, false);
        self.queues.rolled_back(txid);
    }
}
