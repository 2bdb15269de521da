//! The write of one key: its last tests, its record, and the write itself.
//!
//! The transaction has to have an id, or one has to be left for it, and then the gate has to have room. Then the gate
//! and the effects record the write, and only after that is it made.

ghost use Rattle.std.specs.Prelude.{◌≡◌, ◌<◌, ℕ, List, [], ◌∷◌, ◌++◌, Option, None, Ok, IfOk, IfErr, OnOk, length};
ghost use Rattle.std.specs.Option.{option_copied};
ghost use Rattle.sky_val.specs.declared.val.Val.{Val};
ghost use Rattle.sky_keys.specs.Waits.{other_holder};
ghost use Rattle.sky_urlenc.specs.RowEvents.{op_of};
ghost use Rattle.sky_model.specs.State.{after_part_marks};
ghost use Rattle.sky_model.specs.History.{of_session, tabled, wrote};
ghost use Rattle.sky_model.specs.Outcome.{does_marks, marks_of};
ghost use Rattle.sky_model.specs.OwnTransaction.{txid_for, in_own};
ghost use Rattle.sky_model.specs.declared.reply.Reply.TheVariants.{Number};
ghost use Rattle.sky_model.specs.StepRows.{writes_key};
ghost use Rattle.sky_model.specs.Gates.{gated, passed_all};
ghost use Rattle.sky_model.specs.Stops.{StopsAs, Keeps};
ghost use Rattle.sky_row_store.specs.Effects.{EffectsView, with_effects};
ghost use Rattle.sky_state.specs.Seen.{seen, places_in};

use crate::own_transaction::{txid_for, write_own};
use sky_locks::LockKey;
use sky_model::{Refusal, Reply, Stop, WriteGate};
use sky_row_store::{Effect, Effects, RowStep};
use sky_state::{Places, RowState};
use sky_urlenc::op_of;
use sky_val::{NoMemory, Op, Row, SessionId};
use std::alloc::Global;

/// A copy of the row, if there is one.
fn copied(alloc: Global, row: Option<&Row>) -> Result<Option<Row>, NoMemory>
    ensures { IfOk result (λ copy. copy ≡ option_copied row.entry) }
{
    match row {
        Some(row) => Ok(Some(row.copy(alloc)?)),
        None => Ok(None),
    }
}

/// The effect of a write, if the list has writes. Its rows are copied for that alone.
fn add_write(
    effects: &mut Effects,
    alloc: Global,
    txid: u64,
    table: u32,
    op: Op,
    old: Option<&Row>,
    new: Option<&Row>,
) -> Result<(), NoMemory>
    requires { op ≡ op_of (option_copied old) (option_copied new) }
    ensures { (who : ℕ) (key : List Val) → OnOk result (effects.new ≡ with_effects effects.old (tabled (wrote (of_session who) txid table key (option_copied old.entry) (option_copied new.entry)) ∷ [])) }
{
    if !effects.is_whole() {
        return Ok(());
    }
    let old = copied(alloc, old)?;
    let new = copied(alloc, new)?;
    effects.push(Effect::Wrote {
        txid,
        table,
        op,
        old,
        new,
    })?;
    Ok(())
}

/// The last tests of a write, and its record: the transaction has an id or can get one, the gate has room, and then the
/// gate and the effects record the write. The answer is the id. This comes before the write itself, while the old row
/// can be read in place.
pub fn tell_write<G: WriteGate>(
    state: &RowState,
    who: SessionId,
    key: &LockKey,
    old: Option<&Row>,
    new: Option<&Row>,
    gate: &mut G,
    effects: &mut Effects,
) -> Result<u64, Stop>
    ensures id { IfOk result (λ txid. txid_for (seen state.now) who ≡ Ok txid) }
    ensures does { IfOk result (λ txid. gated G.rule gate.old (writes_key (seen state.now) who key.now.table key.now.key (option_copied old.entry) (option_copied new.entry))
        ≡ does_marks (Number 1) (in_own who txid ((seen state.now).session who) (tabled (wrote (of_session who) txid key.now.table key.now.key (option_copied old.entry) (option_copied new.entry)) ∷ []))) }
    ensures told { IfOk result (λ txid. effects.new ≡ with_effects effects.old (tabled (wrote (of_session who) txid key.now.table key.now.key (option_copied old.entry) (option_copied new.entry)) ∷ [])) }
    ensures passed { OnOk result (gate.new ≡ passed_all G.rule gate.old (marks_of (gated G.rule gate.old (writes_key (seen state.now) who key.now.table key.now.key (option_copied old.entry) (option_copied new.entry))))) }
    ensures err { IfErr result (λ stop. StopsAs stop (gated G.rule gate.old (writes_key (seen state.now) who key.now.table key.now.key (option_copied old.entry) (option_copied new.entry)))) }
    ensures same { IfErr result (λ stop. Keeps stop gate.old gate.new × Keeps stop effects.old effects.new) }
{
    let txid = txid_for(state, who)?;
    let op = op_of(old, new);
    if !gate.room(key.table, op, old, new) {
        return Err(Stop::Refused(Refusal::EventIdsSpent));
    }
    gate.wrote(txid, key.table, op, old, new)?;
    add_write(effects, state.alloc(), txid, key.table, op, old, new)?;
    Ok(txid)
}

/// Makes the write that the gate and the effects have recorded, of a key that was found at the places, and that no
/// other session holds.
pub fn write_key(
    state: &mut RowState,
    who: SessionId,
    txid: u64,
    key: LockKey,
    places: Places,
    row: Option<Row>,
    step: &mut RowStep,
) -> Result<(), NoMemory>
    requires id { txid_for (seen state.old) who ≡ Ok txid }
    requires within { key.table < length (seen state.old).tables }
    requires found { places ≡ places_in state.old key.table key.key }
    requires free { other_holder (seen state.old).holder who key.table key.key ≡ None }
    ensures marks { (old : Option (List Val)) → OnOk result (seen state.new ≡ after_part_marks (seen state.old) (in_own who txid ((seen state.old).session who) (tabled (wrote (of_session who) txid key.table key.key old row) ∷ []))) }
    ensures told { (old : Option (List Val)) (before : EffectsView) → step.old.effects ≡ with_effects before (tabled (wrote (of_session who) txid key.table key.key old row) ∷ [])
        → OnOk result (step.new.effects ≡ with_effects before (in_own who txid ((seen state.old).session who) (tabled (wrote (of_session who) txid key.table key.key old row) ∷ []))) }
    ensures replied { OnOk result (step.new.replies ≡ step.old.replies ++ (who, Number 1) ∷ []) }
{
    write_own(state, who, txid, key, places, row, &mut step.effects)?;
    step.answer(who, Reply::Number(1))?;
    Ok(())
}
