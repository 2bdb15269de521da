//! A statement of a session, and those on sessions and transactions. A refusal changes nothing in them: it is `refuse`
//! that aborts the block that its session is in.

ghost use Rattle.std.specs.Prelude.{◌≡◌, ◌≢◌, ℕ, [], ◌∷◌, true, false, Option, Ok, Err, Result, OnOk};
ghost use Rattle.sky_keys.specs.Waits.{is_waiting};
ghost use Rattle.sky_model.specs.declared.stmt.Where.TheVariants.{WhenReading};
ghost use Rattle.sky_model.specs.InForm.{IsRowInForm};
ghost use Rattle.sky_model.specs.Allowed.{where_of_row};
ghost use Rattle.sky_model.specs.Sessions.{outside};
ghost use Rattle.sky_model.specs.State.{after_part_marks};
ghost use Rattle.sky_model.specs.ShownRows.{rows_by};
ghost use Rattle.sky_model.specs.Outcome.{Outcome, Checked, or_refused};
ghost use Rattle.sky_model.specs.StepSession.{open_db, begin, begin_repeatable_read, commit, rollback, close, cancel, leaves, txid_current, txid_current_snapshot, txid_visible_in_snapshot};
ghost use Rattle.sky_model.specs.Calls.{row_form, row_statement};
ghost use Rattle.sky_model.specs.Reader.{part_by_itself};
ghost use Rattle.sky_model.specs.Settling.{turn_of};
ghost use Rattle.sky_model.specs.Gates.{by_gate, passed_all};
ghost use Rattle.sky_row_store.specs.Committing.{commits_of};
ghost use Rattle.sky_row_store.specs.Effects.{with_effects};
ghost use Rattle.sky_row_store.specs.Gives.{Adds};
ghost use Rattle.sky_row_store.specs.declared.row_step.RowStep.{RowStep};
ghost use Rattle.sky_row_statements.specs.Ran.{Ran, Passes, Runs, Writes};
ghost use Rattle.sky_state.specs.Views.{RowStateView};
ghost use Rattle.sky_state.specs.Seen.{seen};

use sky_fits::{Block, where_of};
use sky_model::{Refusal, Reply, RowStmt, Stop, WriteGate};
use sky_row_statements::{create_table, delete, get, insert, scan, update};
use sky_row_store::{Effect, Effects, RowStep};
use sky_row_writes::{abort_block, admit, begin_own, commit_own, txid_for};
use sky_state::RowState;
use sky_txid::{Snapshot, SnapshotFault};
use sky_val::{NoMemory, SessionId, Text};
use std::alloc::AllocError;

/// The answer of the statement itself, even if that is a refusal.
pub(crate) fn own_answer<G: WriteGate>(
    state: &mut RowState,
    who: SessionId,
    stmt: &RowStmt,
    gate: &mut G,
    step: &mut RowStep,
) -> Result<(), NoMemory>
    requires { IsRowInForm stmt.now }
    ensures { OnOk result (Adds G.rule (seen state.old, gate.old) (seen state.new, gate.new) step.old step.new (turn_of who (row_statement (by_gate G.rule part_by_itself) (seen state.old, gate.old) who stmt.now))) }
{
    if let Some(refusal) = admit(state, who, where_of(stmt))? {
        refuse(state, who, refusal, gate, step)?;
        return Ok(());
    }
    let ran = run_form(state, who, stmt, gate, step);
    or_refuse(state, who, ran, gate, step)?;
    Ok(())
}

/// The answer of a `commit` that was checked, even if that is a refusal.
pub(crate) fn commit_answer<G: WriteGate>(
    state: &mut RowState,
    who: SessionId,
    checked: Result<Option<u64>, Refusal>,
    gate: &mut G,
    step: &mut RowStep,
) -> Result<(), NoMemory>
    requires { checked ≡ commits_of (seen state.old) who }
    ensures { OnOk result (Adds G.rule (seen state.old, gate.old) (seen state.new, gate.new) step.old step.new (turn_of who (row_statement (by_gate G.rule part_by_itself) (seen state.old, gate.old) who RowStmt.Commit))) }
{
    match checked {
        Ok(_) => {
            let ran = commit(state, who, gate, step);
            or_refuse(state, who, ran, gate, step)?;
            Ok(())
        }
        Err(refusal) => {
            refuse(state, who, refusal, gate, step)?;
            Ok(())
        }
    }
}

/// Answers with the refusal, if a statement that was run is refused.
pub(crate) fn or_refuse<G: WriteGate>(
    state: &mut RowState,
    who: SessionId,
    ran: Result<(), Stop>,
    gate: &mut G,
    step: &mut RowStep,
) -> Result<(), NoMemory>
    ensures { (old : RowStateView × G) (before : RowStep) (checked : Checked Outcome) → Runs G.rule old (state.old, gate.old) before step.old who ran checked
        → OnOk result (Adds G.rule (seen old.0, old.1) (seen state.new, gate.new) before step.new (turn_of who (or_refused who ((seen old.0).session who) checked))) }
{
    match ran {
        Ok(()) => Ok(()),
        Err(Stop::Refused(refusal)) => {
            refuse(state, who, refusal, gate, step)?;
            Ok(())
        }
        Err(Stop::NoMemory) => Err(AllocError),
    }
}

/// Answers with a refusal. It aborts the block that its session is in, unless it is one of the few that abort nothing.
fn refuse<G: WriteGate>(
    state: &mut RowState,
    who: SessionId,
    refusal: Refusal,
    gate: &mut G,
    step: &mut RowStep,
) -> Result<(), NoMemory>
    ensures { OnOk result (Adds G.rule (seen state.old, gate.old) (seen state.new, gate.new) step.old step.new (turn_of who (or_refused who ((seen state.old).session who) (Err refusal)))) }
{
    if refusal.aborts() {
        abort_block(state, who, gate, &mut step.effects)?;
    }
    step.answer(who, Reply::Refused(refusal))?;
    Ok(())
}

// Always inlined, so that a statement that isn't refused hands on no room for a refusal, which is large.
#[inline(always)]
fn run_form<G: WriteGate>(
    state: &mut RowState,
    who: SessionId,
    stmt: &RowStmt,
    gate: &mut G,
    step: &mut RowStep,
) -> Result<(), Stop>
    requires form { IsRowInForm stmt.now }
    requires admitted { where_of_row stmt.now ≡ WhenReading → is_waiting who (seen state.old).waiting ≡ false }
    ensures { Writes G.rule (state.old, gate.old) (state.new, gate.new) step.old step.new who result (row_form (seen state.old) (rows_by (seen state.old)) who stmt.now) }
{
    match stmt {
        RowStmt::OpenDb { name: _ } => open_db(state, who, step),
        RowStmt::Close => close(state, who, gate, step),
        RowStmt::Cancel => cancel(state, who, gate, step),
        RowStmt::Begin => begin(state, who, step),
        RowStmt::BeginRepeatableRead => begin_repeatable_read(state, who, step),
        RowStmt::Commit => commit(state, who, gate, step),
        RowStmt::Rollback => rollback(state, who, gate, step),
        RowStmt::TxidCurrent => txid_current(state, who, step),
        RowStmt::TxidCurrentSnapshot => txid_current_snapshot(state, who, step),
        RowStmt::TxidVisibleInSnapshot { txid, snapshot } => {
            txid_visible_in_snapshot(state, who, *txid, snapshot, step)
        }
        RowStmt::CreateTable { table, columns } => create_table(state, who, table, columns, step),
        RowStmt::Insert { table, row } => insert(state, who, table, row, gate, step),
        RowStmt::Update { table, key, sets } => update(state, who, table, key, sets, gate, step),
        RowStmt::Delete { table, key } => delete(state, who, table, key, gate, step),
        RowStmt::Get { table, key } => get(state, who, table, key, step),
        RowStmt::Scan { table } => scan(state, who, table, step),
    }
}

/// `open`
fn open_db(state: &mut RowState, who: SessionId, step: &mut RowStep) -> Result<(), Stop>
    ensures { Ran state.old state.new step.old step.new who result (open_db who ((seen state.old).session who).is_open) }
{
    if state.standing(who).is_open {
        return Err(Stop::Refused(Refusal::AlreadyOpen));
    }
    state.connected(who)?;
    Ok(step.answer(who, Reply::Done)?)
}

/// `close`: a block is rolled back.
fn close<G: WriteGate>(
    state: &mut RowState,
    who: SessionId,
    gate: &mut G,
    step: &mut RowStep,
) -> Result<(), Stop>
    ensures ran { Ran state.old state.new step.old step.new who result (close who ((seen state.old).session who).txid ((seen state.old).session who).block) }
    ensures passes { Passes G.rule gate.old gate.new result (close who ((seen state.old).session who).txid ((seen state.old).session who).block) }
{
    if state.block(who) == Block::Outside {
        state.disconnected(who);
        return Ok(step.answer(who, Reply::Done)?);
    }
    roll_back_block(state, who, gate, &mut step.effects)?;
    state.disconnected(who);
    Ok(step.answer(who, Reply::Done)?)
}

/// `cancel`: the session no longer waits, and its block is rolled back.
fn cancel<G: WriteGate>(
    state: &mut RowState,
    who: SessionId,
    gate: &mut G,
    step: &mut RowStep,
) -> Result<(), Stop>
    ensures ran { let s = (seen state.old).session who in
        Ran state.old state.new step.old step.new who result (cancel who s.txid s.block (is_waiting who (seen state.old).waiting)) }
    ensures passes { let s = (seen state.old).session who in
        Passes G.rule gate.old gate.new result (cancel who s.txid s.block (is_waiting who (seen state.old).waiting)) }
{
    if !state.is_waiting(who) {
        return Ok(step.answer(who, Reply::NotWaiting)?);
    }
    state.waited(who);
    abort_block(state, who, gate, &mut step.effects)?;
    Ok(step.answer(who, Reply::Refused(Refusal::Canceled))?)
}

/// `begin`
fn begin(state: &mut RowState, who: SessionId, step: &mut RowStep) -> Result<(), Stop>
    ensures { Ran state.old state.new step.old step.new who result (begin who ((seen state.old).session who).block) }
{
    if state.block(who) != Block::Outside {
        return Ok(step.answer(who, Reply::AlreadyInTransaction)?);
    }
    state.block_begun(who)?;
    Ok(step.answer(who, Reply::Begin)?)
}

/// `begin repeatable read`: the snapshot is taken later, by the first statement that reads or writes.
fn begin_repeatable_read(
    state: &mut RowState,
    who: SessionId,
    step: &mut RowStep,
) -> Result<(), Stop>
    ensures { Ran state.old state.new step.old step.new who result (begin_repeatable_read who ((seen state.old).session who).block) }
{
    if state.block(who) != Block::Outside {
        return Ok(step.answer(who, Reply::AlreadyInTransaction)?);
    }
    state.block_begun(who)?;
    state.repeats(who)?;
    Ok(step.answer(who, Reply::Begin)?)
}

/// `commit`: an aborted block is rolled back.
fn commit<G: WriteGate>(
    state: &mut RowState,
    who: SessionId,
    gate: &mut G,
    step: &mut RowStep,
) -> Result<(), Stop>
    ensures ran { Ran state.old state.new step.old step.new who result (commit who ((seen state.old).session who).txid ((seen state.old).session who).block) }
    ensures passes { Passes G.rule gate.old gate.new result (commit who ((seen state.old).session who).txid ((seen state.old).session who).block) }
{
    match state.block(who) {
        Block::Outside => Ok(step.answer(who, Reply::NoTransaction)?),
        Block::Inside => {
            commit_block(state, who, &mut step.effects)?;
            Ok(step.answer(who, Reply::Commit)?)
        }
        Block::Failed => {
            roll_back_block(state, who, gate, &mut step.effects)?;
            Ok(step.answer(who, Reply::Rollback)?)
        }
    }
}

/// `rollback`
fn rollback<G: WriteGate>(
    state: &mut RowState,
    who: SessionId,
    gate: &mut G,
    step: &mut RowStep,
) -> Result<(), Stop>
    ensures ran { Ran state.old state.new step.old step.new who result (rollback who ((seen state.old).session who).txid ((seen state.old).session who).block) }
    ensures passes { Passes G.rule gate.old gate.new result (rollback who ((seen state.old).session who).txid ((seen state.old).session who).block) }
{
    if state.block(who) == Block::Outside {
        return Ok(step.answer(who, Reply::NoTransaction)?);
    }
    roll_back_block(state, who, gate, &mut step.effects)?;
    Ok(step.answer(who, Reply::Rollback)?)
}

/// The session's block ends, and its transaction commits, if it has an id.
fn commit_block(state: &mut RowState, who: SessionId, effects: &mut Effects) -> Result<(), NoMemory>
    ensures marks { OnOk result (seen state.new ≡ after_part_marks (seen state.old) (leaves true who ((seen state.old).session who).txid)) }
    ensures told { OnOk result (effects.new ≡ with_effects effects.old (leaves true who ((seen state.old).session who).txid)) }
{
    if let Some(txid) = state.own_txid(who) {
        state.committed(who, txid);
        effects.push(Effect::Committed(txid))?;
    }
    state.block_ended(who);
    Ok(())
}

/// The session's block ends, and its transaction is rolled back, if it has an id. The gate is notified of it.
fn roll_back_block<G: WriteGate>(
    state: &mut RowState,
    who: SessionId,
    gate: &mut G,
    effects: &mut Effects,
) -> Result<(), NoMemory>
    ensures marks { OnOk result (seen state.new ≡ after_part_marks (seen state.old) (leaves false who ((seen state.old).session who).txid)) }
    ensures told { OnOk result (effects.new ≡ with_effects effects.old (leaves false who ((seen state.old).session who).txid)) }
    ensures passed { OnOk result (gate.new ≡ passed_all G.rule gate.old (leaves false who ((seen state.old).session who).txid)) }
{
    if let Some(txid) = state.own_txid(who) {
        state.aborted(who, txid);
        gate.rolled_back(txid);
        effects.push(Effect::Aborted(txid))?;
    }
    state.block_ended(who);
    Ok(())
}

/// `txid_current`: the transaction gets its id, if it has none.
fn txid_current(state: &mut RowState, who: SessionId, step: &mut RowStep) -> Result<(), Stop>
    ensures { Ran state.old state.new step.old step.new who result (txid_current (seen state.old) who) }
{
    let txid = txid_for(state, who)?;
    begin_own(state, who, txid)?;
    commit_own(state, who, txid, &mut step.effects)?;
    Ok(step.answer(who, Reply::Number(txid))?)
}

/// `txid_current_snapshot`: the snapshot that the statement reads by.
fn txid_current_snapshot(state: &RowState, who: SessionId, step: &mut RowStep) -> Result<(), Stop>
    ensures { Ran state.now state.now step.old step.new who result (txid_current_snapshot (seen state.now) who) }
{
    let snapshot = state.snapshot(who)?;
    Ok(step.answer(who, Reply::Snapshot(snapshot))?)
}

/// `txid_visible_in_snapshot N RAW`
fn txid_visible_in_snapshot(
    state: &RowState,
    who: SessionId,
    txid: u64,
    text: &Text,
    step: &mut RowStep,
) -> Result<(), Stop>
    ensures { Ran state.now state.now step.old step.new who result (txid_visible_in_snapshot txid text.now) }
{
    match Snapshot::parse(state.alloc(), text.bytes()) {
        Ok(snapshot) => Ok(step.answer(who, Reply::Bool(snapshot.sees(txid)))?),
        Err(SnapshotFault::BadSnapshot) => Err(Stop::Refused(Refusal::BadSnapshot)),
        Err(SnapshotFault::NoMemory) => Err(Stop::NoMemory),
    }
}
