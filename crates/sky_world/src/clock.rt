//! The statements that belong to no database: `clock`, with the work of the daemons that are due as the clock moves, and
//! `pgqd`.

ghost use Rattle.std.specs.Prelude.{[], ◌∷◌, ◌≡◌, ◌⊎◌, ◌<◌, ◌+ℤ◌, ◌-ℤ◌, ◌≤ℤ◌, ◌<ℤ◌, true, pos, Some, OnOk, IfSome, length, option_map, unsigned_abs};
ghost use Rattle.sky_model.specs.Moment.{HasMoment, IsTime, last_moment};
ghost use Rattle.sky_model.specs.Kinds.{Advance};
ghost use Rattle.sky_model.specs.InForm.{IsOf, IsWorldInForm};
ghost use Rattle.sky_model.specs.declared.stmt.WorldStmt.TheVariants.{PgqdOn, PgqdOff};
ghost use Rattle.sky_model.specs.Calls.{on_unless, world_stmt_does};
ghost use Rattle.sky_model.specs.Reader.{by_world};
ghost use Rattle.sky_model.specs.History.{clock_at, daemon_off};
ghost use Rattle.sky_model.specs.World.{after_fact, after_facts};
ghost use Rattle.sky_model.specs.LawsOfDaemons.{AreOnSince};
ghost use Rattle.sky_model.specs.Daemon.{period, is_due_at, first_after, earlier, next_due};
ghost use Rattle.sky_model.specs.Clock.{part_works, daemon_works, at_moment, through, clock, waits_at};
ghost use Rattle.sky_world.specs.Seen.{seen_state};
ghost use Rattle.sky_world.specs.Adds.{AddsDeed};
ghost use Rattle.sky_world.specs.Nodes.{Happened};
ghost use Rattle.sky_world.specs.Works.{Works};
ghost use Rattle.sky_world.specs.Whole.{IsWhole};
ghost use Rattle.sky_store.specs.Idle.{IsIdleUntil};
ghost use Rattle.sky_world.specs.Idle.{AreIdle, IsLeap, IsReach, Skips};

use crate::state::State;
use sky_model::{DaemonPart, Refusal, Replies, Reply, WorldStmt};
use sky_store::Store;
use sky_val::{NoMemory, SessionId};

/// The last moment of the clock, in the year 2043.
const LAST_MOMENT: i64 = 1_000_000_000_000_000;

/// A second, in microseconds: a daemon is due once in each.
const SECOND: u64 = 1_000_000;

/// The leap with which skipping begins, in microseconds, and the longest that isn't halved any more: a second.
const LEAST_REACH: i64 = 1_000_000;

impl<D: Store> State<D> {
    /// Runs a statement on the clock or on the daemon of its session's database.
    pub(crate) fn run_in_world(
        &mut self,
        who: SessionId,
        stmt: WorldStmt,
        replies: &mut Replies,
    ) -> Result<(), NoMemory>
        requires who { who < length self.old.sessions.names }
        requires form { IsWorldInForm stmt }
        requires whole { IsWhole D.seen self.old }
        ensures { OnOk result (AddsDeed D.seen self.old self.new replies.old replies.new (world_stmt_does by_world (seen_state D.seen self.old) who stmt ((seen_state D.seen self.old).homes who))) }
    {
        match stmt {
            WorldStmt::Clock { time } => self.move_clock(who, time, replies),
            WorldStmt::PgqdOn => self.pgqd_on(who, replies),
            WorldStmt::PgqdOff => self.pgqd_off(who, replies),
        }
    }

    /// Runs `pgqd on`.
    fn pgqd_on(&mut self, who: SessionId, replies: &mut Replies) -> Result<(), NoMemory>
        requires who { who < length self.old.sessions.names }
        requires whole { IsWhole D.seen self.old }
        ensures { OnOk result (AddsDeed D.seen self.old self.new replies.old replies.new (world_stmt_does by_world (seen_state D.seen self.old) who PgqdOn ((seen_state D.seen self.old).homes who))) }
    {
        let Some(database) = self.enter_outside(who, replies)? else {
            return Ok(());
        };
        self.start_daemon(database)?;
        replies.push(who, Reply::Done)?;
        Ok(())
    }

    /// Runs `pgqd off`.
    fn pgqd_off(&mut self, who: SessionId, replies: &mut Replies) -> Result<(), NoMemory>
        requires who { who < length self.old.sessions.names }
        requires whole { IsWhole D.seen self.old }
        ensures { OnOk result (AddsDeed D.seen self.old self.new replies.old replies.new (world_stmt_does by_world (seen_state D.seen self.old) who PgqdOff ((seen_state D.seen self.old).homes who))) }
    {
        let Some(database) = self.enter_outside(who, replies)? else {
            return Ok(());
        };
        self.stop_daemon(database);
        replies.push(who, Reply::Done)?;
        Ok(())
    }

    /// Switches the daemon of a database on, from the present moment, unless it is on already.
    fn start_daemon(&mut self, database: usize) -> Result<(), NoMemory>
        requires { IsWhole D.seen self.old }
        ensures { OnOk result (Happened D.seen self.old self.new (on_unless database ((seen_state D.seen self.old).daemons database))) }
    {
        if self.daemons.contains_key(&database) {
            return Ok(());
        }
        self.daemons.insert(database, self.clock)?;
        Ok(())
    }

    /// Switches it off.
    fn stop_daemon(&mut self, database: usize)
        requires { IsWhole D.seen self.old }
        ensures { Happened D.seen self.old self.new (daemon_off database ∷ []) }
    {
        self.daemons.remove(&database);
    }

    /// Runs `clock`. It is refused if its session waits, or if the clock would pass its last moment. Otherwise the
    /// daemons work at each moment up to the new one at which one is due, and then the clock is set to the new one.
    fn move_clock(
        &mut self,
        who: SessionId,
        time: i64,
        replies: &mut Replies,
    ) -> Result<(), NoMemory>
        requires who { who < length self.old.sessions.names }
        requires time { IsOf Advance time }
        requires whole { IsWhole D.seen self.old }
        ensures { OnOk result (AddsDeed D.seen self.old self.new replies.old replies.new
            (clock by_world (seen_state D.seen self.old) who time (waits_at (seen_state D.seen self.old) who ((seen_state D.seen self.old).homes who)))) }
    {
        if self.is_waiting(who) {
            replies.push(who, Reply::Refused(Refusal::Busy))?;
            return Ok(());
        }
        let to = self.clock + time;
        if to > LAST_MOMENT {
            replies.push(who, Reply::Refused(Refusal::ClockSpent))?;
            return Ok(());
        }
        self.work_until(to)?;
        replies.push(who, Reply::Moment(to))?;
        Ok(())
    }

    /// Sets the clock to a moment, which isn't before the present one.
    fn stand_at(&mut self, moment: i64)
        requires time { IsTime moment }
        requires later { self.old.now ≤ℤ moment }
        ensures { self.new ≡ record self.old { now = moment } }
    {
        self.clock = moment;
    }

    /// The daemons work at the moments up to this one at which one is due, one moment after another, but for some at
    /// which none would change anything: these are skipped. Then the clock is set to the last moment.
    fn work_until(&mut self, last: i64) -> Result<(), NoMemory>
        requires last { IsTime last }
        requires later { self.old.now ≤ℤ last }
        requires whole { IsWhole D.seen self.old }
        ensures changed { OnOk result (seen_state D.seen self.new
            ≡ after_fact (after_facts (seen_state D.seen self.old) (through by_world last (unsigned_abs (last -ℤ self.old.now)) (seen_state D.seen self.old)).facts) (clock_at last)) }
        ensures sessions { OnOk result (self.new.sessions.names ≡ self.old.sessions.names) }
        ensures whole { OnOk result (IsWhole D.seen self.new) }
    {
        let mut reach = LEAST_REACH;
        while let Some(moment) = self.next_due() {
            if moment > last {
                break;
            }
            self.work_at(moment)?;
            reach = self.skip_idle(reach, last);
        }
        self.stand_at(last);
        Ok(())
    }

    /// Moves the clock on, not beyond a moment, while no daemon would change anything. The answer is how far it moved,
    /// or a second if that is more. The reach, how far it moved the last time, is tried first.
    fn skip_idle(&mut self, reach: i64, last: i64) -> i64
        requires reach { IsReach reach }
        requires last { IsTime last }
        requires later { self.old.now ≤ℤ last }
        ensures skips { Skips D.seen self.old self.new last }
        ensures since { AreOnSince self.old.now (seen_state D.seen self.old).daemons }
        ensures reach { IsReach result }
    {
        let start = self.clock;
        let leap = self.skip_first(reach, last);
        self.skip_halving(leap, last);
        longer(self.clock - start, LEAST_REACH)
    }

    /// Moves the clock on by a leap, and then further, as long as it can. The answer is a leap by which it can't.
    fn skip_first(&mut self, reach: i64, last: i64) -> i64
        requires reach { IsReach reach }
        requires last { IsTime last }
        requires later { self.old.now ≤ℤ last }
        ensures skips { Skips D.seen self.old self.new last }
        ensures leap { IsReach result }
    {
        if !self.skip(reach, last) {
            return reach;
        }
        self.skip_doubling(last)
    }

    /// Moves the clock on by leaps that double, as long as it can. The answer is the one by which it can't.
    fn skip_doubling(&mut self, last: i64) -> i64
        requires last { IsTime last }
        requires later { self.old.now ≤ℤ last }
        ensures skips { Skips D.seen self.old self.new last }
        ensures leap { IsReach result }
    {
        let mut leap = LEAST_REACH;
        while self.skip(leap, last) {
            leap = doubled(leap);
        }
        leap
    }

    /// Moves the clock on by halves of a leap, quarters and so on, by each if it can.
    fn skip_halving(&mut self, whole: i64, last: i64)
        requires whole { IsReach whole }
        requires last { IsTime last }
        requires later { self.old.now ≤ℤ last }
        ensures { Skips D.seen self.old self.new last }
    {
        let mut leap = whole;
        while leap > LEAST_REACH {
            leap = half(leap);
            self.skip(leap, last);
        }
    }

    /// Moves the clock on by a leap, unless it would pass a moment, or a daemon would change something on the
    /// way. The answer is whether it moved.
    fn skip(&mut self, leap: i64, last: i64) -> bool
        requires leap { IsLeap leap }
        requires last { IsTime last }
        requires later { self.old.now ≤ℤ last }
        ensures skips { Skips D.seen self.old self.new last }
        ensures moved { result ≡ true → self.new.now ≡ self.old.now +ℤ leap }
        ensures short { result ≡ true → leap ≤ℤ last_moment }
    {
        let to = self.clock + leap;
        if to > last || !self.is_idle_until(to) {
            return false;
        }
        self.stand_at(to);
        true
    }

    /// Whether no daemon that is on would change anything at a moment, or at one before it.
    fn is_idle_until(&self, moment: i64) -> bool
        requires { IsTime moment }
        ensures { result ≡ true → AreIdle moment (seen_state D.seen self.now) }
    {
        for database in 0..self.databases.len() {
            if !self.is_idle_in(database, moment) {
                return false;
            }
        }
        true
    }

    /// The same of the daemon of a database alone.
    fn is_idle_in(&self, database: usize, moment: i64) -> bool
        requires database { database < length self.now.databases.names }
        requires time { IsTime moment }
        ensures { result ≡ true → IfSome ((seen_state D.seen self.now).daemons database) (λ start. IsIdleUntil moment ((seen_state D.seen self.now).database database)) }
    {
        !self.daemons.contains_key(&database) || self.store(database).is_idle_until(moment)
    }

    /// The first moment after the present one at which a daemon is due.
    fn next_due(&self) -> Option<i64>
        ensures next { result ≡ next_due self.now.now (seen_state D.seen self.now).daemons (length self.now.databases.names) }
        ensures later { IfSome result (λ moment. self.now.now <ℤ moment) }
        ensures time { IfSome result HasMoment }
    {
        let mut due = None;
        for database in 0..self.databases.len() {
            due = earlier(due, self.first_due(database));
        }
        due
    }

    /// The same for the daemon of a database alone.
    fn first_due(&self, database: usize) -> Option<i64>
        ensures first { result ≡ option_map (first_after self.now.now) ((seen_state D.seen self.now).daemons database) }
        ensures later { IfSome result (λ moment. self.now.now <ℤ moment) }
        ensures time { IfSome result HasMoment }
    {
        let start = self.daemons.get(&database)?;
        Some(first_after(self.clock, *start))
    }

    /// Sets the clock to a moment, and the daemons that are due work, in the order of their databases.
    fn work_at(&mut self, moment: i64) -> Result<(), NoMemory>
        requires time { IsTime moment }
        requires later { self.old.now ≤ℤ moment }
        requires whole { IsWhole D.seen self.old }
        ensures changed { OnOk result (seen_state D.seen self.new ≡ after_facts (seen_state D.seen self.old) (at_moment by_world moment (seen_state D.seen self.old)).facts) }
        ensures now { OnOk result (self.new.now ≡ moment) }
        ensures sessions { OnOk result (self.new.sessions.names ≡ self.old.sessions.names) }
        ensures whole { OnOk result (IsWhole D.seen self.new) }
    {
        self.stand_at(moment);
        for database in 0..self.databases.len() {
            self.work_in(database)?;
        }
        Ok(())
    }

    /// The daemon of a database, if it is on, does those parts of its work that are due, in their order.
    fn work_in(&mut self, database: usize) -> Result<(), NoMemory>
        requires database { database < length self.old.databases.names }
        requires whole { IsWhole D.seen self.old }
        ensures { OnOk result (Works D.seen self.old self.new (daemon_works by_world database (seen_state D.seen self.old))) }
    {
        let Some(start) = self.daemons.get(&database) else {
            return Ok(());
        };
        let start = *start;
        self.work_part(database, DaemonPart::Tick, start)?;
        self.work_part(database, DaemonPart::Retry, start)?;
        self.work_part(database, DaemonPart::Maintain, start)?;
        Ok(())
    }

    /// The daemon of a database, which was started at a moment, does a part of its work, if that is due.
    fn work_part(&mut self, database: usize, part: DaemonPart, start: i64) -> Result<(), NoMemory>
        requires database { database < length self.old.databases.names }
        requires started { (seen_state D.seen self.old).daemons database ≡ Some start }
        requires time { IsTime start }
        requires whole { IsWhole D.seen self.old }
        ensures works { OnOk result (Works D.seen self.old self.new (part_works by_world database part (seen_state D.seen self.old))) }
        ensures daemons { OnOk result (self.new.daemons ≡ self.old.daemons) }
    {
        if !is_due(self.clock, part, start) {
            return Ok(());
        }
        self.do_part(database, part)?;
        Ok(())
    }

    fn do_part(&mut self, database: usize, part: DaemonPart) -> Result<(), NoMemory>
        requires database { database < length self.old.databases.names }
        requires due { is_due_at self.old.now part ((seen_state D.seen self.old).daemons database) ≡ true }
        requires whole { IsWhole D.seen self.old }
        ensures works { OnOk result (Works D.seen self.old self.new (part_works by_world database part (seen_state D.seen self.old))) }
        ensures daemons { OnOk result (self.new.daemons ≡ self.old.daemons) }
    {
        let store = self.databases.get_mut(database);
        store.daemon(part, self.clock)?;
        Ok(())
    }

    fn is_waiting(&self, who: SessionId) -> bool
        requires { who < length self.now.sessions.names }
        ensures { result ≡ waits_at (seen_state D.seen self.now) who ((seen_state D.seen self.now).homes who) }
    {
        match self.home(who) {
            Some(database) => self.store(database).waits(who),
            None => false,
        }
    }
}

/// The longer of two leaps.
fn longer(leap: i64, other: i64) -> i64
    ensures either { (result ≡ leap) ⊎ (result ≡ other) }
    ensures least { other ≤ℤ result }
{
    if other < leap { leap } else { other }
}

fn doubled(leap: i64) -> i64
    requires least { pos 1_000_000 ≤ℤ leap }
    requires most { leap ≤ℤ last_moment }
    ensures { IsReach result }
{
    2 * leap
}

fn half(leap: i64) -> i64
    requires { IsReach leap }
    ensures leap { IsLeap result }
    ensures less { result <ℤ leap }
{
    leap / 2
}

/// The microseconds from one turn of a part to the next.
fn period(part: DaemonPart) -> u64
    ensures value { result ≡ period part }
    ensures some { 0 < result }
{
    match part {
        DaemonPart::Tick => SECOND,
        DaemonPart::Retry => 30 * SECOND,
        DaemonPart::Maintain => 120 * SECOND,
    }
}

/// Whether a part is due at a moment, for a daemon that was started at another.
fn is_due(now: i64, part: DaemonPart, start: i64) -> bool
    requires now { IsTime now }
    requires start { IsTime start }
    ensures { result ≡ is_due_at now part (Some start) }
{
    start < now && (now - start).unsigned_abs() % period(part) == 0
}

/// The first moment after `now` at which a daemon is due that was started at `start`.
fn first_after(now: i64, start: i64) -> i64
    requires now { IsTime now }
    requires start { IsTime start }
    requires later { start ≤ℤ now }
    ensures first { result ≡ first_after now start }
    ensures later { now <ℤ result }
    ensures time { HasMoment result }
{
    let turns = (now - start).unsigned_abs() / SECOND + 1;
    start + (turns * SECOND) as i64
}

/// The earlier of two moments, either of which may be missing.
fn earlier(due: Option<i64>, other: Option<i64>) -> Option<i64>
    ensures { result ≡ earlier due other }
{
    match (due, other) {
        (Some(first), Some(second)) if second < first => other,
        (Some(_), _) => due,
        (None, _) => other,
    }
}
