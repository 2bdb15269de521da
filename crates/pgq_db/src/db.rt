ghost use Rattle.std.specs.Prelude.{◌≡◌, ◌↔◌, ◌≢◌, ◌+◌, ◌^◌, [], ◌++◌, None, Some, Ok, Err, IfOk, IfErr, IfSome, OnOk, OnErr, IsTrue, option_map, nat_le, false};
ghost use Rattle.sky_model.specs.InForm.{IsDbInForm};
ghost use Rattle.sky_model.specs.History.{queued, ticked};
ghost use Rattle.sky_model.specs.Moment.{IsTime};
ghost use Rattle.sky_model.specs.ShownRows.{snapshot_now};
ghost use Rattle.sky_model.specs.StepQueue.{newest_id, least_producer};
ghost use Rattle.sky_model.specs.Outcome.{refused_if};
ghost use Rattle.sky_model.specs.Stops.{Stops};
ghost use Rattle.sky_model.specs.declared.reply.Refusal.TheVariants.{IdsSpent};
ghost use Rattle.sky_model.specs.State.{database_of, after_mark, after_marks};
ghost use Rattle.sky_model.specs.Printed.{HaveMoments};
ghost use Rattle.sky_model.specs.OwnTransaction.{txid_for, begin_of, commit_of};
ghost use Rattle.sky_model.specs.Reader.{database_by_itself, within_part};
ghost use Rattle.sky_model.specs.Sessions.{outside};
ghost use Rattle.sky_model.specs.Settling.{ready, with_settling};
ghost use Rattle.sky_model.specs.Calls.{statement, database_turn};
ghost use Rattle.sky_model.specs.SessionMarks.{Enters, entry, entry_place, failing};
ghost use Rattle.sky_model.specs.DatabaseCalls.{entered, failed, stepped};
ghost use Rattle.sky_model.specs.DatabaseSteps.{DatabaseSteps};
ghost use Rattle.pgq_sub.specs.Views.{seen_sub};
ghost use Rattle.pgq_queues.specs.Seen.{Stands, batch_of};
ghost use Rattle.pgq_parts.specs.Seen.{seen_database};
ghost use Rattle.sky_store.specs.Waiters.{StaysWithin};
ghost use Rattle.pgq_parts.specs.Gives.{Gives, Adds};
ghost use Rattle.pgq_parts.specs.Looks.{LooksWithin, ListsLooked};
ghost use Rattle.pgq_parts.specs.Configured.{refusal_for, configured_as, Configures};

use pgq_parts::{NodePart, refusal_for};
use pgq_queues::Queues;
use pgq_sub::Sub;
use sky_model::{DbStmt, Refusal, Replies, Stop};
use sky_row_store::{RowStep, RowStore};
use sky_store::Store;
use sky_val::{NoMemory, SessionId, Text};
use std::alloc::Global;
use std::marker::Model;

/// One database: its transactions, sessions, tables and rows, in any `RowStore`; its queues; and its node, if it has
/// one, with the copies that run here and the snapshots that are held. Once memory has run out in `step`, `fail`,
/// `apply`, or a method of `Store` whose contract says nothing of that, nothing is said of it.
#[derive(Drop)]
pub struct Db<R: RowStore> {
    pub(crate) alloc: Global,
    pub(crate) rows: R,
    pub(crate) queues: Queues,
    pub(crate) node: NodePart,
    // What the row part does in one call.
    pub(crate) step: RowStep,
    // Whether memory ran out while a statement on rows ran, one of them resumed, or a block was rolled back. What the
    // tables are, and how often events were retried, isn't known then: from then on no statement on rows is run, none
    // resumes, and no event is retried or comes back.
    pub(crate) is_cut: bool,
}

impl<R: RowStore> Model for Db<R> {
    ghost use Rattle.std.specs.Prelude.{◌≡◌, false};
    ghost use Rattle.sky_state.specs.Seen.{seen};
    ghost use Rattle.pgq_parts.specs.Views.{DbView};
    ghost use Rattle.pgq_parts.specs.Agreeing.{Agree};

    ghost Value = { DbView };

    ghost view = { λ d. record { rows = R.state d.rows; queues = d.queues; node = d.node } };

    ghost invariant = { λ d. d.is_cut ≡ false → Agree (seen (R.state d.rows)) d.queues };
}

impl<R: RowStore> Db<R> {
    /// A database in which nothing has happened.
    pub fn new(alloc: Global) -> Db<R>
        ensures { seen_database result ≡ database_of [] }
    {
        Db {
            alloc,
            rows: R::new(alloc),
            queues: Queues::new(alloc),
            node: NodePart::new(alloc),
            step: RowStep::ends(alloc),
            is_cut: false,
        }
    }

    /// Runs a statement of a session, and those that it unblocks. For `get_batch_events` and `event_retry` no more stored
    /// events are looked at than the batch's ticks allow, and for `get_batch_events` no fewer than are listed. Once memory
    /// has run out nothing is said of the database.
    pub fn step(&mut self, who: SessionId, stmt: &DbStmt, now: i64) -> Result<Replies, NoMemory>
        requires time { IsTime now }
        requires form { IsDbInForm stmt.now }
        ensures exact { IfOk result (λ replies. Gives (seen_database self.old) (seen_database self.new) replies
            (database_turn database_by_itself (seen_database self.old) now who stmt.now)) }
        ensures rests { OnOk result (ready (seen_database self.new).part ≡ None) }
        ensures moments { IfOk result HaveMoments }
        ensures within { IfOk result (λ replies. StaysWithin (seen_database self.old) (seen_database self.new) who replies) }
        ensures looks { OnOk result (LooksWithin self.old.queues self.new.queues stmt.now) }
        ensures lists { OnOk result (ListsLooked self.old.queues self.new.queues stmt.now (statement database_by_itself (seen_database self.old) now who stmt.now).reply) }
        ensures steps { OnOk result (DatabaseSteps (seen_database self.old) (seen_database self.new) (stepped who stmt.now now)
            (database_turn database_by_itself (seen_database self.old) now who stmt.now)) }
    {
        let mut replies = Replies::new(self.alloc);
        self.step_into(who, stmt, now, &mut replies)?;
        Ok(replies)
    }

    /// The same; the answers are added to those that were given before.
    pub fn step_into(
        &mut self,
        who: SessionId,
        stmt: &DbStmt,
        now: i64,
        replies: &mut Replies,
    ) -> Result<(), NoMemory>
        requires time { IsTime now }
        requires form { IsDbInForm stmt.now }
        ensures exact { OnOk result (Adds (seen_database self.old) (seen_database self.new) replies.old replies.new (database_turn database_by_itself (seen_database self.old) now who stmt.now)) }
        ensures rests { OnOk result (ready (seen_database self.new).part ≡ None) }
        ensures moments { OnOk result (HaveMoments (database_turn database_by_itself (seen_database self.old) now who stmt.now).answers) }
        ensures looks { OnOk result (LooksWithin self.old.queues self.new.queues stmt.now) }
        ensures lists { OnOk result (ListsLooked self.old.queues self.new.queues stmt.now (statement database_by_itself (seen_database self.old) now who stmt.now).reply) }
        ensures within { OnOk result (StaysWithin (seen_database self.old) (seen_database self.new) who (database_turn database_by_itself (seen_database self.old) now who stmt.now).answers) }
        ensures steps { OnOk result (DatabaseSteps (seen_database self.old) (seen_database self.new) (stepped who stmt.now now) (database_turn database_by_itself (seen_database self.old) now who stmt.now)) }
    {
        pgq_turn::step_into(self, who, stmt, now, replies)
    }

    /// The subscription of a queue's consumer, if it is registered. Its contract is about the
    /// database, so that callers need no proof by hand.
    pub(crate) fn subscription(&self, queue: usize, consumer: &Text) -> Option<Sub>
        requires { Stands self.now.queues.queues queue }
        ensures sub { option_map seen_sub result ≡ ((seen_database self.now).queue queue).sub consumer.now }
        ensures batch { IfSome result (λ sub. IfSome sub.active (λ batch. (seen_database self.now).batch batch.id ≡ batch_of batch.id (record { queue = queue; consumer = consumer.now }) sub)) }
    {
        self.queues.subscription(queue, consumer)
    }

    /// The id of the session's transaction: its own, or the next one. Refused if there is none.
    pub(crate) fn next_txid(&self, who: SessionId) -> Result<u64, Refusal>
        ensures ok { IfOk result (λ txid. txid_for (seen_database self.now).part who ≡ Ok txid) }
        ensures err { IfErr result (λ refusal. txid_for (seen_database self.now).part who ≡ Err refusal) }
    {
        match self.rows.next_txid(who) {
            Some(txid) => Ok(txid),
            None => Err(Refusal::TxidsSpent),
        }
    }

    /// The session's transaction takes this id, if it has none. Outside a block it commits at once.
    pub(crate) fn take_txid(&mut self, who: SessionId, txid: u64) -> Result<(), NoMemory>
        requires { txid_for (seen_database self.old).part who ≡ Ok txid }
        ensures marks { OnOk result (seen_database self.new ≡ after_marks (seen_database self.old)
            (begin_of who txid ((seen_database self.old).part.session who).txid ++ commit_of who txid ((seen_database self.old).part.session who).block)) }
        ensures queues { OnOk result (self.new.queues ≡ self.old.queues) }
    {
        self.rows.write_elsewhere(who, txid)?;
        Ok(())
    }

    /// Lets the session make a statement that isn't on rows, or refuses it. One that is allowed only `outside` blocks
    /// reads nothing; any other takes the sight of a repeatable read block, if it isn't taken yet.
    // Always inlined: a refusal is large, and this is on the path of each statement on queues.
    #[inline(always)]
    pub fn enter(&mut self, who: SessionId, outside: bool) -> Result<Option<Refusal>, NoMemory>
        ensures enters { IfOk result (λ refusal. Enters (seen_database self.old).part (seen_database self.new).part who (entry_place outside) refusal) }
        ensures but { seen_database self.new ≡ record (seen_database self.old) { part = (seen_database self.new).part } }
        ensures queues { OnOk result (self.new.queues ≡ self.old.queues) }
        ensures err { OnErr result (seen_database self.new ≡ seen_database self.old) }
        ensures steps { OnOk result (DatabaseSteps (seen_database self.old) (seen_database self.new) (entered who outside)
            (entry (seen_database self.old).part who (entry_place outside))) }
    {
        self.rows.enter(who, outside)
    }

    /// Whether the session is in a transaction block, an aborted one too.
    pub fn in_transaction(&self, who: SessionId) -> bool
        ensures { IsTrue result ↔ (((seen_database self.now).part.session who).block ≢ outside) }
    {
        self.rows.in_transaction(who)
    }

    /// Rolls back the session's block, which stays aborted, and runs the statements that this unblocks. If it is in
    /// none, or in an aborted one, nothing is rolled back. The moment dates the events of statements that resume.
    pub fn fail(&mut self, who: SessionId, now: i64) -> Result<Replies, NoMemory>
        requires { IsTime now }
        ensures exact { let d = seen_database self.old in
            IfOk result (λ replies. Gives d (seen_database self.new) replies (with_settling (within_part database_by_itself now) d (failing d.part who))) }
        ensures rests { OnOk result (ready (seen_database self.new).part ≡ None) }
        ensures moments { IfOk result HaveMoments }
        ensures within { IfOk result (λ replies. StaysWithin (seen_database self.old) (seen_database self.new) who replies) }
        ensures steps { let d = seen_database self.old in
            OnOk result (DatabaseSteps d (seen_database self.new) (failed who now) (with_settling (within_part database_by_itself now) d (failing d.part who))) }
    {
        let mut replies = Replies::new(self.alloc);
        self.fail_into(who, now, &mut replies)?;
        Ok(replies)
    }

    /// A parameter of a queue gets the value that a text writes, or the answer says why not.
    pub(crate) fn configure(&mut self, queue: usize, param: &Text, value: &Text) -> Result<(), Stop>
        requires { Stands self.old.queues.queues queue }
        ensures mark { OnOk result (Configures (seen_database self.old) (seen_database self.new) queue (configured_as ((seen_database self.old).queue queue).config param.now value.now)) }
        ensures stops { IfErr result (λ stop. Stops stop (seen_database self.old) (seen_database self.new) (configured_as ((seen_database self.old).queue queue).config param.now value.now)) }
    {
        if let Err(fault) = self.queues.configure(queue, param.bytes(), value.bytes()) {
            let refusal = refusal_for(self.alloc, param, fault)?;
            return Err(Stop::Refused(refusal));
        }
        Ok(())
    }

    /// Makes one more tick of a queue, and answers its id, which is the next one, or refuses if there is none.
    pub(crate) fn tick(&mut self, queue: usize, now: i64) -> Result<u64, Stop>
        requires queue { Stands self.old.queues.queues queue }
        requires time { IsTime now }
        ensures id { IfOk result (λ id. id ≡ newest_id ((seen_database self.old).queue queue) + 1) }
        ensures left { OnOk result (nat_le (2 ^ 64) (newest_id ((seen_database self.old).queue queue) + 1) ≡ false) }
        ensures mark { IfOk result (λ id. seen_database self.new ≡ after_mark (seen_database self.old) (queued (ticked queue id now ((seen_database self.old).queue queue).seq))) }
        ensures err { IfErr result (λ stop. Stops stop (seen_database self.old) (seen_database self.new) (refused_if (nat_le (2 ^ 64) (newest_id ((seen_database self.old).queue queue) + 1)) IdsSpent)) }
    {
        let snapshot = self.rows.snapshot_now()?;
        let id = self.queues.tick(queue, now, snapshot)?;
        Ok(id)
    }

    /// The least running transaction that has an event in a queue, or a switch of it that is pending.
    pub(crate) fn least_producer(&self, queue: usize) -> Result<Option<u64>, NoMemory>
        requires { Stands self.now.queues.queues queue }
        ensures { IfOk result (λ txid. txid ≡ least_producer (seen_database self.now) queue) }
    {
        let snapshot = self.rows.snapshot_now()?;
        Ok(self.queues.queue(queue).first_producer(snapshot.xip()))
    }
}
