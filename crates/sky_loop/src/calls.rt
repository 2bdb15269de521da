//! How a line of text is answered.

ghost use Rattle.std.specs.Prelude.{◌≡◌, ℕ, [], Result, Ok, Err, IfOk, IfErr, IsUtf8, OnOk, OnErr, true};
ghost use Rattle.sky_model.specs.declared.stmt.Stmt.{Stmt};
ghost use Rattle.sky_model.specs.declared.line.Line.TheVariants.{Run};
ghost use Rattle.sky_model.specs.Kinds.{is_name};
ghost use Rattle.sky_model.specs.Grammar.{line_of, run_of, statement_of};
ghost use Rattle.sky_model.specs.InForm.{IsInForm, IsLineInForm};
ghost use Rattle.sky_model.specs.Transcript.{said_by};
ghost use Rattle.sky_script.specs.Reading.{IsAnswer};
ghost use Rattle.sky_world.specs.Seen.{seen_world};
ghost use Rattle.sky_loop.specs.Running.{Answers, Called};

use crate::answers::print_answers;
use sky_model::{DbStmt, Replies, RowStmt, Stmt};
use sky_script::{LineCause, Words, is_blank};
use sky_store::Store;
use sky_val::NoMemory;
use sky_world::World;
use std::alloc::{AllocError, Global};
use std::mem;

/// Answers what a line says, and appends the answers as they are printed. A blank line says nothing.
pub(crate) fn answer_text<D: Store>(
    alloc: Global,
    line: &str,
    world: &mut World<D>,
    replies: &mut Replies,
    into: &mut Vec<u8>,
) -> Result<(), LineCause>
    ensures answers { OnOk result (Answers (said_by (line_of line.now)) (seen_world D.seen world.old) (seen_world D.seen world.new) into.old.items into.new.items) }
    ensures bad { IfErr result (λ cause. IsAnswer (Err cause) (line_of line.now)) }
    ensures err { OnErr result (into.new.items ≡ into.old.items) }
    // The prover knows this of a `str` that is an argument, and not of one that came in an `Option`.
    ensures utf8 { IsUtf8 line.now }
{
    if is_blank(line) {
        return Ok(());
    }
    let mut words = Words::new(line);
    let who = match words.session() {
        Ok(who) => who,
        Err(cause) => return Err(cause),
    };
    answer_words(alloc, who, &mut words, world, replies, into)
}

/// Answers a session's statement, of which these are the words. It is used where it was made: it is large, and moving it
/// would take longer than many a statement runs.
fn answer_words<D: Store>(
    alloc: Global,
    who: &str,
    words: &mut Words,
    world: &mut World<D>,
    replies: &mut Replies,
    into: &mut Vec<u8>,
) -> Result<(), LineCause>
    requires second { words.old.number ≡ 2 }
    requires form { (stmt : Stmt) → statement_of words.old.left ≡ Ok stmt → IsLineInForm (Run who.now stmt) }
    ensures answers { OnOk result (Answers (said_by (run_of who.now (statement_of words.old.left))) (seen_world D.seen world.old) (seen_world D.seen world.new) into.old.items into.new.items) }
    ensures bad { IfErr result (λ cause. IsAnswer (Err cause) (run_of who.now (statement_of words.old.left))) }
    ensures err { OnErr result (into.new.items ≡ into.old.items) }
{
    let form = match words.form() {
        Ok(form) => form,
        Err(cause) => return Err(cause),
    };
    let parsed = words.statement(alloc, form);
    let answered = answer_parsed(alloc, who, &parsed, world, replies, into);
    // A statement is moved before it is dropped.
    if owns_nothing(&parsed) {
        mem::forget(parsed);
    }
    answered
}

/// Whether a statement is known to own no memory.
fn owns_nothing(parsed: &Result<Stmt, LineCause>) -> bool {
    match parsed {
        Ok(Stmt::Db(DbStmt::Row(stmt))) => matches!(
            stmt,
            RowStmt::Close
                | RowStmt::Cancel
                | RowStmt::Begin
                | RowStmt::BeginRepeatableRead
                | RowStmt::Commit
                | RowStmt::Rollback
                | RowStmt::TxidCurrent
                | RowStmt::TxidCurrentSnapshot
        ),
        _ => false,
    }
}

/// Answers a statement, unless it couldn't be parsed.
fn answer_parsed<D: Store>(
    alloc: Global,
    who: &str,
    parsed: &Result<Stmt, LineCause>,
    world: &mut World<D>,
    replies: &mut Replies,
    into: &mut Vec<u8>,
) -> Result<(), LineCause>
    requires form { IfOk parsed.now (λ stmt. IsLineInForm (Run who.now stmt)) }
    ensures answers { (says : Result Stmt ℕ) → IsAnswer parsed.now says
        → OnOk result (Answers (said_by (run_of who.now says)) (seen_world D.seen world.old) (seen_world D.seen world.new) into.old.items into.new.items) }
    ensures bad { (says : Result Stmt ℕ) → IsAnswer parsed.now says → IfErr result (λ cause. IsAnswer (Err cause) (run_of who.now says)) }
    ensures err { OnErr result (into.new.items ≡ into.old.items) }
{
    match parsed {
        Ok(stmt) => match call(alloc, who, stmt, world, replies, into) {
            Ok(()) => Ok(()),
            Err(_) => Err(LineCause::NoMemory),
        },
        Err(cause) => Err(*cause),
    }
}

/// Runs a statement of a session, and appends its answers. Those of the last statement make room for them.
fn call<D: Store>(
    alloc: Global,
    who: &str,
    stmt: &Stmt,
    world: &mut World<D>,
    replies: &mut Replies,
    into: &mut Vec<u8>,
) -> Result<(), NoMemory>
    requires name { is_name who.now ≡ true }
    requires form { IsInForm stmt.now }
    ensures answers { OnOk result (Called (seen_world D.seen world.old) (seen_world D.seen world.new) (record { who = who.now; stmt = stmt.now }) into.old.items into.new.items) }
    ensures err { OnErr result (into.new.items ≡ into.old.items) }
{
    replies.clear();
    let Ok(()) = world.step_into(who, stmt, replies) else {
        return Err(AllocError);
    };
    print_answers(alloc, world.session_names(), who, replies, into)
}
