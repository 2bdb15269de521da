//! A statement of a session, with what it unblocks, and a failure.

ghost use Rattle.std.specs.Prelude.{◌≡◌, None, Err, OnOk, if◌then◌else◌};
ghost use Rattle.sky_model.specs.declared.stmt.DbStmt.TheVariants.{Queue};
ghost use Rattle.sky_model.specs.declared.stmt.Where.TheVariants.{WhenReading, WhenOutside};
ghost use Rattle.sky_model.specs.Outcome.{or_refused};
ghost use Rattle.sky_model.specs.Printed.{HaveMoments};
ghost use Rattle.sky_model.specs.InForm.{IsDbInForm, IsQueueInForm};
ghost use Rattle.sky_model.specs.Allowed.{where_of};
ghost use Rattle.sky_model.specs.Reader.{shown_by, database_by_itself, within_part};
ghost use Rattle.sky_model.specs.SessionMarks.{failing};
ghost use Rattle.sky_model.specs.Settling.{ready, with_settling};
ghost use Rattle.sky_model.specs.Calls.{form, statement, database_turn};
ghost use Rattle.sky_model.specs.DatabaseCalls.{failed, stepped};
ghost use Rattle.sky_model.specs.DatabaseSteps.{DatabaseSteps};
ghost use Rattle.sky_model.specs.Moment.{IsTime};
ghost use Rattle.pgq_parts.specs.Seen.{seen_database};
ghost use Rattle.sky_store.specs.Waiters.{StaysWithin};
ghost use Rattle.pgq_parts.specs.Looks.{LooksWithin, ListsLooked, ReadsNone};
ghost use Rattle.pgq_parts.specs.Gives.{Adds, Answers};

use crate::statements::Statements;
use sky_model::{DbStmt, QueueStmt, Refusal, Replies, Reply, Stop};
use sky_val::{NoMemory, SessionId};
use std::alloc::AllocError;

/// Runs a statement of a session, and those that it unblocks; the answers are added to those that were given before. For
/// `get_batch_events` and `event_retry` no more stored events are looked at than the batch's ticks allow, and for
/// `get_batch_events` no fewer than are listed.
pub fn step_into<S: Statements>(
    db: &mut S,
    who: SessionId,
    stmt: &DbStmt,
    now: i64,
    replies: &mut Replies,
) -> Result<(), NoMemory>
    requires time { IsTime now }
    requires form { IsDbInForm stmt.now }
    ensures exact { OnOk result (Adds (seen_database (S.view db.old)) (seen_database (S.view db.new)) replies.old replies.new (database_turn database_by_itself (seen_database (S.view db.old)) now who stmt.now)) }
    ensures rests { OnOk result (ready (seen_database (S.view db.new)).part ≡ None) }
    ensures moments { OnOk result (HaveMoments (database_turn database_by_itself (seen_database (S.view db.old)) now who stmt.now).answers) }
    ensures looks { OnOk result (LooksWithin (S.view db.old).queues (S.view db.new).queues stmt.now) }
    ensures lists { OnOk result (ListsLooked (S.view db.old).queues (S.view db.new).queues stmt.now (statement database_by_itself (seen_database (S.view db.old)) now who stmt.now).reply) }
    ensures within { OnOk result (StaysWithin (seen_database (S.view db.old)) (seen_database (S.view db.new)) who (database_turn database_by_itself (seen_database (S.view db.old)) now who stmt.now).answers) }
    ensures steps { OnOk result (DatabaseSteps (seen_database (S.view db.old)) (seen_database (S.view db.new)) (stepped who stmt.now now) (database_turn database_by_itself (seen_database (S.view db.old)) now who stmt.now)) }
{
    run(db, now, who, stmt, replies)?;
    Ok(())
}

/// Rolls back the session's block, which stays aborted, and runs the statements that this unblocks; their answers are
/// added to those that were given before. If it is in no block, or in an aborted one, nothing is rolled back. The
/// moment dates the events of statements that resume.
pub fn fail_into<S: Statements>(
    db: &mut S,
    who: SessionId,
    now: i64,
    replies: &mut Replies,
) -> Result<(), NoMemory>
    requires { IsTime now }
    ensures exact { OnOk result (Adds (seen_database (S.view db.old)) (seen_database (S.view db.new)) replies.old replies.new (with_settling (within_part database_by_itself now) (seen_database (S.view db.old)) (failing (seen_database (S.view db.old)).part who))) }
    ensures rests { OnOk result (ready (seen_database (S.view db.new)).part ≡ None) }
    ensures moments { OnOk result (HaveMoments (with_settling (within_part database_by_itself now) (seen_database (S.view db.old)) (failing (seen_database (S.view db.old)).part who)).answers) }
    ensures within { OnOk result (StaysWithin (seen_database (S.view db.old)) (seen_database (S.view db.new)) who (with_settling (within_part database_by_itself now) (seen_database (S.view db.old)) (failing (seen_database (S.view db.old)).part who)).answers) }
    ensures steps { OnOk result (DatabaseSteps (seen_database (S.view db.old)) (seen_database (S.view db.new)) (failed who now) (with_settling (within_part database_by_itself now) (seen_database (S.view db.old)) (failing (seen_database (S.view db.old)).part who))) }
{
    db.roll_back(who)?;
    db.settle(now, replies)
}

/// Runs a statement, on rows or on queues, and those that it unblocks.
fn run<S: Statements>(
    db: &mut S,
    now: i64,
    who: SessionId,
    stmt: &DbStmt,
    replies: &mut Replies,
) -> Result<(), NoMemory>
    requires time { IsTime now }
    requires form { IsDbInForm stmt.now }
    ensures adds { OnOk result (Adds (seen_database (S.view db.old)) (seen_database (S.view db.new)) replies.old replies.new (database_turn database_by_itself (seen_database (S.view db.old)) now who stmt.now)) }
    ensures rests { OnOk result (ready (seen_database (S.view db.new)).part ≡ None) }
    ensures moments { OnOk result (HaveMoments (database_turn database_by_itself (seen_database (S.view db.old)) now who stmt.now).answers) }
    ensures looks { OnOk result (LooksWithin (S.view db.old).queues (S.view db.new).queues stmt.now) }
    ensures lists { OnOk result (ListsLooked (S.view db.old).queues (S.view db.new).queues stmt.now (statement database_by_itself (seen_database (S.view db.old)) now who stmt.now).reply) }
{
    match stmt {
        DbStmt::Row(stmt) => db.step_rows(now, who, stmt, replies),
        DbStmt::Queue(stmt) => run_on_queues(db, now, who, stmt, replies),
    }
}

/// Runs a statement on queues, which answers once, and those that it unblocks.
fn run_on_queues<S: Statements>(
    db: &mut S,
    now: i64,
    who: SessionId,
    stmt: &QueueStmt,
    replies: &mut Replies,
) -> Result<(), NoMemory>
    requires time { IsTime now }
    requires form { IsQueueInForm stmt.now }
    ensures adds { OnOk result (Adds (seen_database (S.view db.old)) (seen_database (S.view db.new)) replies.old replies.new (database_turn database_by_itself (seen_database (S.view db.old)) now who (Queue stmt.now))) }
    ensures rests { OnOk result (ready (seen_database (S.view db.new)).part ≡ None) }
    ensures moments { OnOk result (HaveMoments (database_turn database_by_itself (seen_database (S.view db.old)) now who (Queue stmt.now)).answers) }
    ensures looks { OnOk result (LooksWithin (S.view db.old).queues (S.view db.new).queues (Queue stmt.now)) }
    ensures lists { OnOk result (ListsLooked (S.view db.old).queues (S.view db.new).queues (Queue stmt.now) (statement database_by_itself (seen_database (S.view db.old)) now who (Queue stmt.now)).reply) }
{
    run_or_refuse(db, now, who, stmt, replies)?;
    db.settle(now, replies)?;
    Ok(())
}

/// Runs a statement on queues, if its session may make it there.
fn run_or_refuse<S: Statements>(
    db: &mut S,
    now: i64,
    who: SessionId,
    stmt: &QueueStmt,
    replies: &mut Replies,
) -> Result<(), NoMemory>
    requires time { IsTime now }
    requires form { IsQueueInForm stmt.now }
    ensures answers { OnOk result (Answers (seen_database (S.view db.old)) (seen_database (S.view db.new)) replies.old replies.new who (statement database_by_itself (seen_database (S.view db.old)) now who (Queue stmt.now))) }
    ensures looks { OnOk result (LooksWithin (S.view db.old).queues (S.view db.new).queues (Queue stmt.now)) }
    ensures lists { OnOk result (ListsLooked (S.view db.old).queues (S.view db.new).queues (Queue stmt.now) (statement database_by_itself (seen_database (S.view db.old)) now who (Queue stmt.now)).reply) }
{
    match db.enter(who, is_outside(stmt))? {
        None => {
            run_entered(db, now, who, stmt, replies)?;
            Ok(())
        }
        Some(refusal) => {
            refuse(db, who, refusal, replies)?;
            Ok(())
        }
    }
}

/// Runs a statement that its session may make.
fn run_entered<S: Statements>(
    db: &mut S,
    now: i64,
    who: SessionId,
    stmt: &QueueStmt,
    replies: &mut Replies,
) -> Result<(), NoMemory>
    requires time { IsTime now }
    requires form { IsQueueInForm stmt.now }
    ensures answers { OnOk result (Answers (seen_database (S.view db.old)) (seen_database (S.view db.new)) replies.old replies.new who
        (or_refused who ((seen_database (S.view db.old)).part.session who) (form (seen_database (S.view db.old)) (shown_by (seen_database (S.view db.old))) now who (Queue stmt.now)))) }
    ensures looks { OnOk result (LooksWithin (S.view db.old).queues (S.view db.new).queues (Queue stmt.now)) }
    ensures lists { OnOk result (ListsLooked (S.view db.old).queues (S.view db.new).queues (Queue stmt.now)
        (or_refused who ((seen_database (S.view db.old)).part.session who) (form (seen_database (S.view db.old)) (shown_by (seen_database (S.view db.old))) now who (Queue stmt.now))).reply) }
{
    match db.run_form(now, who, stmt, replies) {
        Ok(()) => Ok(()),
        Err(Stop::Refused(refusal)) => {
            refuse(db, who, refusal, replies)?;
            Ok(())
        }
        Err(Stop::NoMemory) => Err(AllocError),
    }
}

/// Answers with a refusal, which may abort the session's block.
fn refuse<S: Statements>(
    db: &mut S,
    who: SessionId,
    refusal: Refusal,
    replies: &mut Replies,
) -> Result<(), NoMemory>
    ensures answers { OnOk result (Answers (seen_database (S.view db.old)) (seen_database (S.view db.new)) replies.old replies.new who (or_refused who ((seen_database (S.view db.old)).part.session who) (Err refusal))) }
    ensures reads { OnOk result (ReadsNone (S.view db.old).queues (S.view db.new).queues) }
{
    if refusal.aborts() {
        db.roll_back(who)?;
    }
    replies.push(who, Reply::Refused(refusal))
}

/// Whether a statement on queues may be made only outside blocks.
fn is_outside(stmt: &QueueStmt) -> bool
    ensures { (if result then WhenOutside else WhenReading) ≡ where_of (Queue stmt.now) }
{
    !matches!(
        stmt,
        QueueStmt::InsertEvent(_) | QueueStmt::MaintRotateStep1 { .. }
    )
}
