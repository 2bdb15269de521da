//! Which statements a session may make, and the transaction of a statement: the one of its session's block, or one of
//! its own.

ghost use Rattle.std.specs.Prelude.{◌≡◌, ◌<◌, [], ◌∷◌, true, None, Ok, Err, length, IfOk, IfErr, OnOk, OnErr, MatchOption};
ghost use Rattle.sky_keys.specs.Waits.{other_holder};
ghost use Rattle.sky_model.specs.declared.reply.Refusal.TheVariants.{TxidsSpent};
ghost use Rattle.sky_model.specs.History.{of_session, tabled, wrote};
ghost use Rattle.sky_model.specs.Sessions.{outside};
ghost use Rattle.sky_model.specs.State.{after_part_marks};
ghost use Rattle.sky_model.specs.OwnTransaction.{txid_for, begin_of, commit_of, in_own};
ghost use Rattle.sky_row_store.specs.Effects.{with_effects};
ghost use Rattle.sky_model.specs.Gates.{passed_all};
ghost use Rattle.sky_model.specs.SessionMarks.{Enters, failing, ending};
ghost use Rattle.sky_state.specs.Seen.{seen, places_in};

use sky_fits::{Block, allow};
use sky_locks::LockKey;
use sky_model::{Refusal, Where, WriteGate};
use sky_row_store::{Effect, Effects};
use sky_state::{Places, RowState};
use sky_val::{NoMemory, Row, SessionId};

/// The id of the session's transaction: its own, or the next one, if there is one.
pub fn next_txid(state: &RowState, who: SessionId) -> Option<u64>
    ensures { MatchOption result (txid_for (seen state.now) who ≡ Err TxidsSpent) (λ txid. txid_for (seen state.now) who ≡ Ok txid) }
{
    if let Some(txid) = state.own_txid(who) {
        return Some(txid);
    }
    if !state.id_left() {
        return None;
    }
    Some(state.next_id())
}

/// The id that `next_txid` gives, for a statement, which is refused if there is none.
pub fn txid_for(state: &RowState, who: SessionId) -> Result<u64, Refusal>
    ensures ok { IfOk result (λ txid. txid_for (seen state.now) who ≡ Ok txid) }
    ensures err { IfErr result (λ refusal. txid_for (seen state.now) who ≡ Err refusal) }
{
    match next_txid(state, who) {
        Some(txid) => Ok(txid),
        None => Err(Refusal::TxidsSpent),
    }
}

/// Admits a statement that is allowed at this place, or refuses it. A repeatable read block takes its snapshot before
/// its first statement that reads or writes, even if that is refused later.
// Always inlined: a refusal is large, and the room for one takes as many steps as the tests.
#[inline(always)]
pub fn admit(
    state: &mut RowState,
    who: SessionId,
    place: Where,
) -> Result<Option<Refusal>, NoMemory>
    ensures ok { IfOk result (λ refusal. Enters (seen state.old) (seen state.new) who place refusal) }
    ensures err { OnErr result (seen state.new ≡ seen state.old) }
{
    if let Err(refusal) = allow(state.is_waiting(who), state.standing(who), place) {
        return Ok(Some(refusal));
    }
    if place == Where::WhenReading && state.is_first(who) {
        state.sight_taken(who)?;
    }
    Ok(None)
}

/// Whether the session is in no block, and its transaction has no id: a write is then a transaction of its own.
fn is_alone(state: &RowState, who: SessionId) -> bool
    ensures alone { result ≡ true → ((seen state.now).session who).block ≡ outside }
    ensures single { result ≡ true → ((seen state.now).session who).txid ≡ None }
{
    state.block(who) == Block::Outside && state.own_txid(who).is_none()
}

/// Gives the session's transaction its id, if it has none.
pub fn begin_own(state: &mut RowState, who: SessionId, txid: u64) -> Result<(), NoMemory>
    requires { txid_for (seen state.old) who ≡ Ok txid }
    ensures ok { OnOk result (seen state.new ≡ after_part_marks (seen state.old) (begin_of who txid ((seen state.old).session who).txid)) }
    ensures err { OnErr result (seen state.new ≡ seen state.old) }
    ensures stay { state.new.tables ≡ state.old.tables }
    ensures locks { state.new.locks ≡ state.old.locks }
{
    if state.own_txid(who).is_none() {
        state.began(who)?;
    }
    Ok(())
}

/// Gives the session's transaction this id, if it has none. If the session is in no block, the transaction then
/// commits, and has written no row.
pub fn take_own(state: &mut RowState, who: SessionId, txid: u64) -> Result<(), NoMemory>
    requires { txid_for (seen state.old) who ≡ Ok txid }
    ensures ok { OnOk result (seen state.new ≡ after_part_marks (seen state.old) (in_own who txid ((seen state.old).session who) [])) }
    ensures err { OnErr result (seen state.new ≡ seen state.old) }
{
    if state.own_txid(who).is_some() {
        commit_alone(state, who);
        return Ok(());
    }
    if state.block(who) == Block::Outside {
        state.committed_alone(who);
        return Ok(());
    }
    state.began(who)?;
    Ok(())
}

/// Commits the session's transaction, which has this id, if the session is in no block.
pub fn commit_own(
    state: &mut RowState,
    who: SessionId,
    txid: u64,
    effects: &mut Effects,
) -> Result<(), NoMemory>
    requires { ((seen state.old).session who).txid ≡ Some txid }
    ensures marks { OnOk result (seen state.new ≡ after_part_marks (seen state.old) (commit_of who txid ((seen state.old).session who).block)) }
    ensures told { OnOk result (effects.new ≡ with_effects effects.old (commit_of who txid ((seen state.old).session who).block)) }
{
    if state.block(who) == Block::Outside {
        state.committed(who, txid);
        effects.push(Effect::Committed(txid))?;
    }
    Ok(())
}

/// Writes the key, which was found at the places, in the session's transaction, which has this id or gets it. If the
/// session is in no block, the transaction then commits. A transaction that is this write alone takes no lock: nobody
/// could wait for it.
pub(crate) fn write_own(
    state: &mut RowState,
    who: SessionId,
    txid: u64,
    key: LockKey,
    places: Places,
    row: Option<Row>,
    effects: &mut Effects,
) -> Result<(), NoMemory>
    requires id { txid_for (seen state.old) who ≡ Ok txid }
    requires within { key.table < length (seen state.old).tables }
    requires found { places ≡ places_in state.old key.table key.key }
    requires free { other_holder (seen state.old).holder who key.table key.key ≡ None }
    ensures marks { OnOk result (seen state.new ≡ after_part_marks (seen state.old)
        (in_own who txid ((seen state.old).session who) (tabled (wrote (of_session who) txid key.table key.key None row) ∷ []))) }
    ensures told { OnOk result (effects.new ≡ with_effects effects.old (commit_of who txid ((seen state.old).session who).block)) }
{
    if is_alone(state, who) {
        state.wrote_alone(who, key, places.row, row)?;
        effects.push(Effect::Committed(txid))?;
        return Ok(());
    }
    begin_own(state, who, txid)?;
    state.wrote(who, txid, key, places, row)?;
    commit_own(state, who, txid, effects)?;
    Ok(())
}

/// Rolls back the transaction of the session's block, and aborts the block, if it is in one that isn't aborted. The
/// gate is notified of the rollback.
pub fn abort_block<G: WriteGate>(
    state: &mut RowState,
    who: SessionId,
    gate: &mut G,
    effects: &mut Effects,
) -> Result<(), NoMemory>
    ensures marks { OnOk result (seen state.new ≡ after_part_marks (seen state.old) (failing (seen state.old) who).marks) }
    ensures told { OnOk result (effects.new ≡ with_effects effects.old (failing (seen state.old) who).marks) }
    ensures passed { OnOk result (gate.new ≡ passed_all G.rule gate.old (failing (seen state.old) who).marks) }
{
    if state.block(who) != Block::Inside {
        return Ok(());
    }
    if let Some(txid) = state.own_txid(who) {
        state.aborted(who, txid);
        gate.rolled_back(txid);
        effects.push(Effect::Aborted(txid))?;
    }
    state.block_failed(who)?;
    Ok(())
}

/// Commits the session's transaction, if the session is in no block.
pub fn commit_alone(state: &mut RowState, who: SessionId)
    ensures { seen state.new ≡ after_part_marks (seen state.old) (ending (seen state.old) who).marks }
{
    if state.block(who) != Block::Outside {
        return;
    }
    if let Some(txid) = state.own_txid(who) {
        state.committed(who, txid);
    }
}
