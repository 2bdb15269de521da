//! Writes of keys, at once or after a wait.
//!
//! An update or a delete makes its tests in one order. If the session sees no row at the key, 0 rows are changed,
//! without a wait. If another session holds the key, it waits, or is refused if that wait would close a deadlock cycle.
//! If the key has a newer committed version that a repeatable read block can't see, it is refused; then the sums of an
//! update have to be in range. An insert waits first: whether the key has a row is known only when its holder's
//! transaction has ended.
//!
//! A statement that resumes makes these tests again, so a read committed session then changes the newest committed row.
//! The earlier ones aren't repeated: columns never change, and callers make no table read-only while a running
//! transaction has written it, so none for whose keys a session waits.

ghost use Rattle.std.specs.Prelude.{◌≡◌, ◌<◌, List, Option, false, None, Some, IfOk, IfErr, OnOk, is_some, length};
ghost use Rattle.sky_val.specs.declared.val.Val.{Val};
ghost use Rattle.sky_keys.specs.Waits.{other_holder, is_waiting};
ghost use Rattle.sky_model.specs.declared.stmt.Attempt.{Attempt};
ghost use Rattle.sky_model.specs.declared.stmt.Attempt.TheVariants.{Insertion, Changes, Deletion};
ghost use Rattle.sky_model.specs.Outcome.{Checked, refused_if};
ghost use Rattle.sky_model.specs.declared.reply.Refusal.TheVariants.{Duplicate};
ghost use Rattle.sky_model.specs.ShownRows.{rows_by};
ghost use Rattle.sky_model.specs.StepLocks.{blocked};
ghost use Rattle.sky_model.specs.StepRows.{attempts};
ghost use Rattle.sky_model.specs.Stops.{StopsAs};
ghost use Rattle.sky_row_statements.specs.Finding.{Finds, change_shown};
ghost use Rattle.sky_row_statements.specs.Ran.{Ran, Writes};
ghost use Rattle.sky_state.specs.Seen.{seen, found_in};

use crate::row_statements::check_seen;
use sky_fits::with_sets;
use sky_locks::LockKey;
use sky_model::{Attempt, Refusal, Reply, Sets, Stop, WriteGate};
use sky_row_store::RowStep;
use sky_row_writes::{tell_write, write_key};
use sky_state::{Places, RowState};
use sky_val::{Row, SessionId};

/// The session waits for the lock holder, or is refused if it would wait for itself.
fn wait(
    state: &mut RowState,
    who: SessionId,
    key: &LockKey,
    attempt: Attempt,
    holder: SessionId,
    step: &mut RowStep,
) -> Result<(), Stop>
    requires within { key.now.table < length (seen state.old).tables }
    requires held { other_holder (seen state.old).holder who key.now.table key.now.key ≡ Some holder }
    requires awake { is_waiting who (seen state.old).waiting ≡ false }
    ensures { Ran state.old state.new step.old step.new who result (blocked (seen state.old) who key.now.table key.now.key attempt holder) }
{
    match state.waits(who, key, holder, attempt)? {
        None => Ok(step.answer(who, Reply::Waits(holder))?),
        Some(ring) => Err(Stop::Refused(Refusal::Deadlock(ring))),
    }
}

/// The place of a key that has no row. If it has one, its insert is refused.
// Always inlined: a refusal is large, and this is on the path of each write.
#[inline(always)]
fn find_room(state: &RowState, who: SessionId, key: &LockKey) -> Result<Option<usize>, Stop>
    requires within { key.now.table < length (seen state.now).tables }
    ensures place { IfOk result (λ place. place ≡ found_in state.now key.now.table key.now.key) }
    ensures ok { OnOk result (is_some ((rows_by (seen state.now)).key who key.now.table key.now.key).standing ≡ false) }
    ensures err { IfErr result (λ stop. StopsAs stop (refused_if (is_some ((rows_by (seen state.now)).key who key.now.table key.now.key).standing) Duplicate)) }
{
    let now = state.snapshot_now()?;
    let place = state.find(key.table, &key.key);
    if state.has_standing(who, key.table, &key.key, place, &now) {
        return Err(Stop::Refused(Refusal::Duplicate));
    }
    Ok(place)
}

/// Inserts the row at the key.
pub(crate) fn insert_key<G: WriteGate>(
    state: &mut RowState,
    who: SessionId,
    key: LockKey,
    row: &Row,
    gate: &mut G,
    step: &mut RowStep,
) -> Result<(), Stop>
    requires within { key.table < length (seen state.old).tables }
    requires awake { is_waiting who (seen state.old).waiting ≡ false }
    ensures { Writes G.rule (state.old, gate.old) (state.new, gate.new) step.old step.new who result (attempts (seen state.old) ((rows_by (seen state.old)).key who key.table key.key) who key.table key.key (Insertion row.now)) }
{
    let lock = state.find_lock(&key);
    if let Some(holder) = state.other_holder(who, &key, lock) {
        let attempt = Attempt::Insertion(row.copy(state.alloc())?);
        return wait(state, who, &key, attempt, holder, step);
    }
    let place = find_room(state, who, &key)?;
    let places = Places { row: place, lock };
    let row = row.copy(state.alloc())?;
    let txid = tell_write(state, who, &key, None, Some(&row), gate, &mut step.effects)?;
    Ok(write_key(state, who, txid, key, places, Some(row), step)?)
}

/// What an update or a delete finds at its key.
#[derive(Clone, Copy)]
pub(crate) enum Found<'a> {
    /// The session sees no row there.
    NoRow,
    /// It sees a row, and this other session holds the key.
    Held(SessionId),
    /// It sees this row, which it may change, and the key is found at these places.
    Free(Places, &'a Row),
}

/// Makes the tests that an update and a delete have in common, in their order.
// Always inlined: a refusal is large, and this is on the path of each write.
#[inline(always)]
fn find_row<'a>(state: &'a RowState, who: SessionId, key: &LockKey) -> Result<Found<'a>, Stop>
    requires within { key.now.table < length (seen state.now).tables }
    ensures ok { IfOk result (Finds state.now who key.now.table key.now.key) }
    ensures err { (attempt : Attempt) (new_of : List Val → Checked (Option (List Val)))
        → IfErr result (λ stop. StopsAs stop (change_shown state.now who key.now.table key.now.key attempt new_of)) }
{
    let now = state.snapshot_now()?;
    let place = state.find(key.table, &key.key);
    let Some(row) = state.row_shown(who, key.table, &key.key, place, &now) else {
        return Ok(Found::NoRow);
    };
    let lock = state.find_lock(key);
    if let Some(holder) = state.other_holder(who, key, lock) {
        return Ok(Found::Held(holder));
    }
    check_seen(state, who, key.table, &key.key, place, &now)?;
    Ok(Found::Free(Places { row: place, lock }, row))
}

/// Changes the row that the session sees at the key; if there is none, it changes 0 rows.
pub(crate) fn change_key<G: WriteGate>(
    state: &mut RowState,
    who: SessionId,
    key: LockKey,
    sets: &Sets,
    gate: &mut G,
    step: &mut RowStep,
) -> Result<(), Stop>
    requires within { key.table < length (seen state.old).tables }
    requires awake { is_waiting who (seen state.old).waiting ≡ false }
    ensures { Writes G.rule (state.old, gate.old) (state.new, gate.new) step.old step.new who result (attempts (seen state.old) ((rows_by (seen state.old)).key who key.table key.key) who key.table key.key (Changes sets.now)) }
{
    let (places, old) = match find_row(state, who, &key)? {
        Found::NoRow => return Ok(step.answer(who, Reply::Number(0))?),
        Found::Held(holder) => {
            let attempt = Attempt::Changes(sets.copy(state.alloc())?);
            return wait(state, who, &key, attempt, holder, step);
        }
        Found::Free(places, old) => (places, old),
    };
    let columns = state.schema(key.table).columns();
    let new = with_sets(state.alloc(), columns, sets.as_slice(), old)?;
    let txid = tell_write(
        state,
        who,
        &key,
        Some(old),
        Some(&new),
        gate,
        &mut step.effects,
    )?;
    Ok(write_key(state, who, txid, key, places, Some(new), step)?)
}

/// Deletes the row that the session sees at the key; if there is none, it deletes 0 rows.
pub(crate) fn delete_key<G: WriteGate>(
    state: &mut RowState,
    who: SessionId,
    key: LockKey,
    gate: &mut G,
    step: &mut RowStep,
) -> Result<(), Stop>
    requires within { key.table < length (seen state.old).tables }
    requires awake { is_waiting who (seen state.old).waiting ≡ false }
    ensures { Writes G.rule (state.old, gate.old) (state.new, gate.new) step.old step.new who result (attempts (seen state.old) ((rows_by (seen state.old)).key who key.table key.key) who key.table key.key Deletion) }
{
    let (places, old) = match find_row(state, who, &key)? {
        Found::NoRow => return Ok(step.answer(who, Reply::Number(0))?),
        Found::Held(holder) => {
            return wait(state, who, &key, Attempt::Deletion, holder, step);
        }
        Found::Free(places, old) => (places, old),
    };
    let txid = tell_write(state, who, &key, Some(old), None, gate, &mut step.effects)?;
    Ok(write_key(state, who, txid, key, places, None, step)?)
}

/// Makes the session's attempt with the key. A statement that resumes comes in here.
pub fn attempt_key<G: WriteGate>(
    state: &mut RowState,
    who: SessionId,
    key: LockKey,
    attempt: &Attempt,
    gate: &mut G,
    step: &mut RowStep,
) -> Result<(), Stop>
    requires within { key.table < length (seen state.old).tables }
    requires awake { is_waiting who (seen state.old).waiting ≡ false }
    ensures { Writes G.rule (state.old, gate.old) (state.new, gate.new) step.old step.new who result (attempts (seen state.old) ((rows_by (seen state.old)).key who key.table key.key) who key.table key.key attempt.now) }
{
    match attempt {
        Attempt::Insertion(row) => insert_key(state, who, key, row, gate, step),
        Attempt::Changes(sets) => change_key(state, who, key, sets, gate, step),
        Attempt::Deletion => delete_key(state, who, key, gate, step),
    }
}
