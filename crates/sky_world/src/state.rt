ghost use Rattle.std.specs.Prelude.{◌≡◌, ◌+◌, ◌<◌, [], true, false, Some, None, IfOk, OnOk, IfSome, length, option_copied};
ghost use Rattle.sky_keys.specs.Waits.{is_waiting};
ghost use Rattle.sky_names.specs.Places.{place_of};
ghost use Rattle.sky_model.specs.InForm.{IsInForm, IsDbInForm};
ghost use Rattle.sky_model.specs.History.{appeared, founded, entered, left};
ghost use Rattle.sky_model.specs.Printed.{ReplyHasMoments};
ghost use Rattle.sky_model.specs.World.{world_of, after_fact};
ghost use Rattle.sky_model.specs.Reader.{within_database, by_world};
ghost use Rattle.sky_model.specs.Clock.{deed_in};
ghost use Rattle.sky_model.specs.Calls.{database_turn, opening, unopened, opens_in, opens, outside_does, is_leaving, db_stmt_does, allowed_outside, fails_if, refused_in, turn};
ghost use Rattle.sky_model.specs.Outcome.{refused_by};
ghost use Rattle.sky_world.specs.Seen.{seen_state};
ghost use Rattle.sky_world.specs.Adds.{AddsDeed, AddsCall};
ghost use Rattle.sky_world.specs.Nodes.{Stays};
ghost use Rattle.sky_world.specs.Outside.{Enters};
ghost use Rattle.sky_world.specs.Whole.{IsWhole};

use sky_databases::{Batches, Databases, Hands};
use sky_model::{DbStmt, Limit, Refusal, Replies, Reply, RowStmt, Stmt};
use sky_names::Named;
use sky_store::Store;
use sky_val::{NoMemory, SessionId, Text};
use std::alloc::Global;
use std::collections::BTreeMap;
use std::marker::Model;

/// The sessions and databases of a script, and the clock, as long as memory lasts. Once it has run out in a method, only
/// what always holds of the state is known, so that no further one may be called that changes it.
#[derive(Drop)]
pub(crate) struct State<D: Store> {
    pub(crate) alloc: Global,
    pub(crate) clock: i64,
    // The database that each session has open.
    sessions: Named<Option<usize>>,
    pub(crate) databases: Databases<D>,
    // The databases whose daemon is on, each with the moment at which it was started.
    pub(crate) daemons: BTreeMap<usize, i64>,
    // The databases that have a node, in the order in which they got it.
    pub(crate) nodes: Vec<usize>,
    // What the workers that copy tables have in hand.
    pub(crate) hands: Hands,
    // What the workers of leaves have in hand.
    pub(crate) batches: Batches,
}

impl<D: Store> Model for State<D> {
    ghost use Rattle.std.specs.Prelude.{length};
    ghost use Rattle.sky_world.specs.Views.{StateView};
    ghost use Rattle.sky_world.specs.Consistent.{IsConsistent};

    ghost Value = { StateView D };

    ghost view = { λ s. record { now = s.clock; sessions = s.sessions; databases = s.databases; daemons = s.daemons.entries; nodes = s.nodes.items; hands = s.hands; batches = s.batches } };

    ghost invariant = { λ s. IsConsistent s.clock (length s.databases.names) s.sessions.values s.daemons.entries s.nodes.items };
}

impl<D: Store> State<D> {
    /// A state in which nothing has happened.
    pub(crate) fn new(alloc: Global) -> State<D>
        ensures new { seen_state D.seen result ≡ world_of [] }
        ensures whole { IsWhole D.seen result }
    {
        State {
            alloc,
            clock: 0,
            sessions: Named::new(alloc),
            databases: Databases::new(alloc),
            daemons: BTreeMap::new(alloc),
            nodes: Vec::new(alloc),
            hands: Hands::new(alloc),
            batches: Batches::new(alloc),
        }
    }

    /// The names of the sessions, in the order of their first lines.
    pub(crate) fn session_names(&self) -> &[Text]
        ensures { result.now ≡ (seen_state D.seen self.now).sessions }
    {
        self.sessions.names()
    }

    /// The present moment of the clock.
    pub(crate) fn now(&self) -> i64
        ensures { result ≡ (seen_state D.seen self.now).now }
    {
        self.clock
    }

    /// Runs a statement of the session of this name, and answers it and those that it unblocks.
    pub(crate) fn answer(
        &mut self,
        name: &str,
        stmt: &Stmt,
        replies: &mut Replies,
    ) -> Result<(), NoMemory>
        requires form { IsInForm stmt.now }
        requires whole { IsWhole D.seen self.old }
        ensures adds { OnOk result (AddsCall (seen_state D.seen self.old) (seen_state D.seen self.new) (record { who = name.now; stmt = stmt.now }) replies.old replies.new) }
        ensures whole { OnOk result (IsWhole D.seen self.new) }
    {
        match self.number(name)? {
            Some(who) => self.answer_known(who, name, stmt, replies),
            None => self.answer_new(name, stmt, replies),
        }
    }

    fn answer_known(
        &mut self,
        who: SessionId,
        name: &str,
        stmt: &Stmt,
        replies: &mut Replies,
    ) -> Result<(), NoMemory>
        requires form { IsInForm stmt.now }
        requires known { Some who ≡ place_of name.now self.old.sessions.names }
        requires within { who < length self.old.sessions.names }
        requires whole { IsWhole D.seen self.old }
        ensures adds { OnOk result (AddsCall (seen_state D.seen self.old) (seen_state D.seen self.new) (record { who = name.now; stmt = stmt.now }) replies.old replies.new) }
        ensures whole { OnOk result (IsWhole D.seen self.new) }
    {
        self.run(who, stmt, replies)?;
        Ok(())
    }

    fn answer_new(&mut self, name: &str, stmt: &Stmt, replies: &mut Replies) -> Result<(), NoMemory>
        requires form { IsInForm stmt.now }
        requires new { place_of name.now self.old.sessions.names ≡ None }
        requires whole { IsWhole D.seen self.old }
        ensures adds { OnOk result (AddsCall (seen_state D.seen self.old) (seen_state D.seen self.new) (record { who = name.now; stmt = stmt.now }) replies.old replies.new) }
        ensures whole { OnOk result (IsWhole D.seen self.new) }
    {
        let who = self.session_count();
        if who as usize >= Limit::Sessions.most() {
            replies.push(who, Reply::Refused(Refusal::TooMany(Limit::Sessions)))?;
            return Ok(());
        }
        self.appear(name)?;
        self.run(who, stmt, replies)?;
        Ok(())
    }

    fn number(&self, name: &str) -> Result<Option<SessionId>, NoMemory>
        ensures number { IfOk result (λ number. number ≡ place_of name.now self.now.sessions.names) }
        ensures within { IfOk result (λ number. IfSome number (λ who. who < length self.now.sessions.names)) }
    {
        if let Some(who) = self.sessions.hinted(name) {
            return Ok(Some(who));
        }
        let name = Text::from_str(self.alloc, name)?;
        Ok(self.sessions.number(&name))
    }

    fn session_count(&self) -> SessionId
        ensures { result ≡ length self.now.sessions.names }
    {
        self.sessions.len() as SessionId
    }

    /// Adds a session, which has no database open.
    fn appear(&mut self, name: &str) -> Result<(), NoMemory>
        requires new { place_of name.now self.old.sessions.names ≡ None }
        requires room { length self.old.sessions.names < 256 }
        requires whole { IsWhole D.seen self.old }
        ensures fact { OnOk result (seen_state D.seen self.new ≡ after_fact (seen_state D.seen self.old) (appeared name.now)) }
        ensures sessions { OnOk result (length self.new.sessions.names ≡ length self.old.sessions.names + 1) }
        ensures whole { OnOk result (IsWhole D.seen self.new) }
    {
        let copied = Text::from_str(self.alloc, name)?;
        self.sessions.add(copied, None)?;
        Ok(())
    }

    /// Runs a statement of a session.
    fn run(&mut self, who: SessionId, stmt: &Stmt, replies: &mut Replies) -> Result<(), NoMemory>
        requires who { who < length self.old.sessions.names }
        requires form { IsInForm stmt.now }
        requires whole { IsWhole D.seen self.old }
        ensures { OnOk result (AddsDeed D.seen self.old self.new replies.old replies.new (turn by_world who stmt.now (seen_state D.seen self.old))) }
    {
        match stmt {
            Stmt::Db(stmt) => self.run_in_database(who, stmt, replies),
            Stmt::Node(stmt) => self.run_on_nodes(who, stmt, replies),
            Stmt::World(stmt) => self.run_in_world(who, *stmt, replies),
        }
    }

    /// Runs a statement that the database of its session runs by itself, or that opens a database.
    fn run_in_database(
        &mut self,
        who: SessionId,
        stmt: &DbStmt,
        replies: &mut Replies,
    ) -> Result<(), NoMemory>
        requires who { who < length self.old.sessions.names }
        requires form { IsDbInForm stmt.now }
        requires whole { IsWhole D.seen self.old }
        ensures { OnOk result (AddsDeed D.seen self.old self.new replies.old replies.new (db_stmt_does by_world (seen_state D.seen self.old) who stmt.now ((seen_state D.seen self.old).homes who))) }
    {
        match self.home(who) {
            Some(database) => self.run_or_leave(database, who, stmt, replies),
            None => self.run_outside(who, stmt, replies),
        }
    }

    /// The database that a session has open.
    pub(crate) fn home(&self, who: SessionId) -> Option<usize>
        requires { who < length self.now.sessions.names }
        ensures home { result ≡ (seen_state D.seen self.now).homes who }
        ensures within { IfSome result (λ d. d < length self.now.databases.names) }
    {
        *self.sessions.get(who as usize)
    }

    /// Runs a statement of a session that has a database open. By a `close` that isn't refused the session leaves it.
    fn run_or_leave(
        &mut self,
        database: usize,
        who: SessionId,
        stmt: &DbStmt,
        replies: &mut Replies,
    ) -> Result<(), NoMemory>
        requires who { who < length self.old.sessions.names }
        requires database { database < length self.old.databases.names }
        requires form { IsDbInForm stmt.now }
        requires whole { IsWhole D.seen self.old }
        ensures { OnOk result (AddsDeed D.seen self.old self.new replies.old replies.new (db_stmt_does by_world (seen_state D.seen self.old) who stmt.now (Some database))) }
    {
        let leaving = self.is_leaving(database, who, stmt);
        self.run_there(database, who, stmt, replies)?;
        if leaving {
            self.leave(who);
        }
        Ok(())
    }

    /// Whether the session leaves the database by the statement: by `close`, unless it waits.
    fn is_leaving(&self, database: usize, who: SessionId, stmt: &DbStmt) -> bool
        requires { database < length self.now.databases.names }
        ensures { result ≡ is_leaving (is_waiting who ((seen_state D.seen self.now).database database).part.waiting) stmt.now }
    {
        match stmt {
            DbStmt::Row(RowStmt::Close) => !self.store(database).waits(who),
            _ => false,
        }
    }

    /// The database of this number.
    pub(crate) fn store(&self, database: usize) -> &D
        requires { database < length self.now.databases.names }
        ensures { D.seen result.now ≡ (seen_state D.seen self.now).database database }
    {
        self.databases.get(database)
    }

    /// Runs a statement in a database.
    fn run_there(
        &mut self,
        database: usize,
        who: SessionId,
        stmt: &DbStmt,
        replies: &mut Replies,
    ) -> Result<(), NoMemory>
        requires who { who < length self.old.sessions.names }
        requires database { database < length self.old.databases.names }
        requires form { IsDbInForm stmt.now }
        requires whole { IsWhole D.seen self.old }
        ensures adds { OnOk result (AddsDeed D.seen self.old self.new replies.old replies.new (deed_in database [] (database_turn (within_database by_world database) (seen_state D.seen self.old) (seen_state D.seen self.old).now who stmt.now))) }
        ensures databases { OnOk result (self.new.databases.names ≡ self.old.databases.names) }
    {
        let store = self.databases.get_mut(database);
        store.step_into(who, stmt, self.clock, replies)?;
        Ok(())
    }

    /// The session no longer has a database open.
    fn leave(&mut self, who: SessionId)
        requires who { who < length self.old.sessions.names }
        requires whole { IsWhole D.seen self.old }
        ensures fact { seen_state D.seen self.new ≡ after_fact (seen_state D.seen self.old) (left who) }
        ensures sessions { self.new.sessions.names ≡ self.old.sessions.names }
        ensures whole { IsWhole D.seen self.new }
    {
        *self.sessions.get_mut(who as usize) = None;
    }

    /// The database that a session has open, if the session may make a statement there that is allowed only outside blocks.
    /// If it may not, it is answered why.
    pub(crate) fn enter_outside(
        &mut self,
        who: SessionId,
        replies: &mut Replies,
    ) -> Result<Option<usize>, NoMemory>
        requires who { who < length self.old.sessions.names }
        requires whole { IsWhole D.seen self.old }
        ensures { IfOk result (Enters D.seen self.old self.new replies.old replies.new who) }
    {
        let Some(database) = self.home(who) else {
            replies.push(who, Reply::Refused(Refusal::NotOpen))?;
            return Ok(None);
        };
        if let Some(refusal) = self.refusal_outside(database, who)? {
            self.refuse(database, who, refusal, replies)?;
            return Ok(None);
        }
        Ok(Some(database))
    }

    /// Why a session may not make a statement that is allowed only outside blocks, if so.
    fn refusal_outside(
        &mut self,
        database: usize,
        who: SessionId,
    ) -> Result<Option<Refusal>, NoMemory>
        requires database { database < length self.old.databases.names }
        requires whole { IsWhole D.seen self.old }
        ensures allowed { IfOk result (λ refusal. allowed_outside ((seen_state D.seen self.old).database database) who ≡ refused_by refusal) }
        ensures stays { OnOk result (Stays D.seen self.old self.new) }
    {
        self.databases.get_mut(database).enter(who, true)
    }

    /// Refuses a statement of a session in the database that it has open. If the refusal aborts, the session's block is
    /// rolled back and stays aborted, and the statements that this unblocks are answered too.
    fn refuse(
        &mut self,
        database: usize,
        who: SessionId,
        refusal: Refusal,
        replies: &mut Replies,
    ) -> Result<(), NoMemory>
        requires who { who < length self.old.sessions.names }
        requires database { database < length self.old.databases.names }
        requires whole { IsWhole D.seen self.old }
        ensures { OnOk result (AddsDeed D.seen self.old self.new replies.old replies.new (refused_in by_world (seen_state D.seen self.old) who database refusal)) }
    {
        let aborts = refusal.aborts();
        replies.push(who, Reply::Refused(refusal))?;
        if aborts {
            self.abort_block(database, who, replies)?;
        }
        Ok(())
    }

    fn abort_block(
        &mut self,
        database: usize,
        who: SessionId,
        replies: &mut Replies,
    ) -> Result<(), NoMemory>
        requires who { who < length self.old.sessions.names }
        requires database { database < length self.old.databases.names }
        requires whole { IsWhole D.seen self.old }
        ensures { OnOk result (AddsDeed D.seen self.old self.new replies.old replies.new (deed_in database [] (fails_if (within_database by_world database) (seen_state D.seen self.old) (seen_state D.seen self.old).now who true))) }
    {
        let store = self.databases.get_mut(database);
        store.fail_into(who, self.clock, replies)?;
        Ok(())
    }

    /// Runs a statement of a session that has no database open.
    fn run_outside(
        &mut self,
        who: SessionId,
        stmt: &DbStmt,
        replies: &mut Replies,
    ) -> Result<(), NoMemory>
        requires who { who < length self.old.sessions.names }
        requires form { IsDbInForm stmt.now }
        requires whole { IsWhole D.seen self.old }
        ensures { OnOk result (AddsDeed D.seen self.old self.new replies.old replies.new (outside_does by_world (seen_state D.seen self.old) who stmt.now (opening stmt.now))) }
    {
        match opening(stmt) {
            Some(name) => self.open_database(who, stmt, name, replies),
            None => {
                replies.push(who, unopened(stmt))?;
                Ok(())
            }
        }
    }

    /// Runs `open` of a session that has no database open, in the database of this name, which is created if it is new.
    fn open_database(
        &mut self,
        who: SessionId,
        stmt: &DbStmt,
        name: &Text,
        replies: &mut Replies,
    ) -> Result<(), NoMemory>
        requires who { who < length self.old.sessions.names }
        requires form { IsDbInForm stmt.now }
        requires whole { IsWhole D.seen self.old }
        ensures { OnOk result (AddsDeed D.seen self.old self.new replies.old replies.new (opens by_world (seen_state D.seen self.old) who stmt.now name.now (place_of name.now (seen_state D.seen self.old).databases))) }
    {
        match self.database_number(name) {
            Some(database) => self.open_in(database as usize, who, stmt, replies),
            None => self.open_new(who, stmt, name, replies),
        }
    }

    /// The same if the database is new.
    fn open_new(
        &mut self,
        who: SessionId,
        stmt: &DbStmt,
        name: &Text,
        replies: &mut Replies,
    ) -> Result<(), NoMemory>
        requires who { who < length self.old.sessions.names }
        requires form { IsDbInForm stmt.now }
        requires new { place_of name.now self.old.databases.names ≡ None }
        requires whole { IsWhole D.seen self.old }
        ensures { OnOk result (AddsDeed D.seen self.old self.new replies.old replies.new (opens by_world (seen_state D.seen self.old) who stmt.now name.now None)) }
    {
        let number = self.database_count();
        if number >= Limit::Databases.most() {
            replies.push(who, Reply::Refused(Refusal::TooMany(Limit::Databases)))?;
            return Ok(());
        }
        self.found(name)?;
        self.open_in(number, who, stmt, replies)?;
        Ok(())
    }

    /// The same in the database of this number.
    fn open_in(
        &mut self,
        database: usize,
        who: SessionId,
        stmt: &DbStmt,
        replies: &mut Replies,
    ) -> Result<(), NoMemory>
        requires who { who < length self.old.sessions.names }
        requires database { database < length self.old.databases.names }
        requires form { IsDbInForm stmt.now }
        requires whole { IsWhole D.seen self.old }
        ensures { OnOk result (AddsDeed D.seen self.old self.new replies.old replies.new (opens_in by_world who stmt.now database (seen_state D.seen self.old))) }
    {
        self.run_there(database, who, stmt, replies)?;
        self.enter(who, database);
        Ok(())
    }

    fn database_number(&self, name: &Text) -> Option<u32>
        ensures number { result ≡ place_of name.now self.now.databases.names }
        ensures within { IfSome result (λ database. database < length self.now.databases.names) }
    {
        self.databases.number(name)
    }

    fn database_count(&self) -> usize
        ensures { result ≡ length self.now.databases.names }
    {
        self.databases.len()
    }

    /// Adds a database, in which nothing has happened.
    fn found(&mut self, name: &Text) -> Result<(), NoMemory>
        requires new { place_of name.now self.old.databases.names ≡ None }
        requires room { length self.old.databases.names < 16 }
        requires whole { IsWhole D.seen self.old }
        ensures fact { OnOk result (seen_state D.seen self.new ≡ after_fact (seen_state D.seen self.old) (founded name.now)) }
        ensures databases { OnOk result (length self.new.databases.names ≡ length self.old.databases.names + 1) }
        ensures sessions { OnOk result (self.new.sessions.names ≡ self.old.sessions.names) }
        ensures whole { OnOk result (IsWhole D.seen self.new) }
    {
        let copied = name.copy(self.alloc)?;
        self.databases.add(copied, D::new(self.alloc))?;
        Ok(())
    }

    fn enter(&mut self, who: SessionId, database: usize)
        requires who { who < length self.old.sessions.names }
        requires database { database < length self.old.databases.names }
        requires whole { IsWhole D.seen self.old }
        ensures fact { seen_state D.seen self.new ≡ after_fact (seen_state D.seen self.old) (entered who database) }
        ensures sessions { self.new.sessions.names ≡ self.old.sessions.names }
        ensures whole { IsWhole D.seen self.new }
    {
        *self.sessions.get_mut(who as usize) = Some(database);
    }
}

/// The name of the database that a statement is to open.
fn opening(stmt: &DbStmt) -> Option<&Text>
    ensures { option_copied result ≡ opening stmt.now }
{
    match stmt {
        DbStmt::Row(RowStmt::OpenDb { name }) => Some(name),
        _ => None,
    }
}

/// The answer to a statement that opens no database, of a session that has none open.
fn unopened(stmt: &DbStmt) -> Reply
    ensures reply { result ≡ unopened stmt.now }
    ensures moments { ReplyHasMoments result }
{
    match stmt {
        DbStmt::Row(RowStmt::Cancel) => Reply::NotWaiting,
        _ => Reply::Refused(Refusal::NotOpen),
    }
}
