//! The statements that resume when keys are freed, in the order of the wait queue, each at the
//! place after the one before.
//!
//! A statement that resumes runs to its end, since nobody holds its key. That may free further
//! keys, so the first one that is ready is looked for again each time.

ghost use Rattle.std.specs.Prelude.{◌≡◌, ◌<◌, None, Some, IfOk, IfSome, OnOk, option_map, length};
ghost use Rattle.sky_locks.specs.Locks.{entry};
ghost use Rattle.sky_model.specs.Reader.{part_by_itself};
ghost use Rattle.sky_model.specs.Gates.{by_gate};
ghost use Rattle.sky_model.specs.Settling.{ready, resumed, settling};
ghost use Rattle.sky_row_store.specs.Gives.{Adds};
ghost use Rattle.sky_state.specs.Seen.{seen};

use crate::statements::or_refuse;
use sky_locks::LockKey;
use sky_model::WriteGate;
use sky_row_statements::attempt_key;
use sky_row_store::RowStep;
use sky_state::RowState;
use sky_val::{NoMemory, SessionId};

/// Runs the statement of a session that is ready to resume.
fn resume<G: WriteGate>(
    state: &mut RowState,
    who: SessionId,
    key: LockKey,
    gate: &mut G,
    step: &mut RowStep,
) -> Result<(), NoMemory>
    requires ready { ready (seen state.old) ≡ Some (entry who key) }
    requires within { key.table < length (seen state.old).tables }
    ensures { OnOk result (Adds G.rule (seen state.old, gate.old) (seen state.new, gate.new) step.old step.new (resumed (by_gate G.rule part_by_itself) (seen state.old, gate.old) (entry who key))) }
{
    let attempt = state.waited(who);
    let ran = attempt_key(state, who, key, &attempt, gate, step);
    or_refuse(state, who, ran, gate, step)?;
    Ok(())
}

/// Runs the statements that are ready to resume, until there is none.
pub(crate) fn settle_behind<G: WriteGate>(
    state: &mut RowState,
    gate: &mut G,
    step: &mut RowStep,
) -> Result<(), NoMemory>
    ensures adds { OnOk result (Adds G.rule (seen state.old, gate.old) (seen state.new, gate.new) step.old step.new (settling (by_gate G.rule part_by_itself) (seen state.old, gate.old))) }
    ensures rests { OnOk result (ready (seen state.new) ≡ None) }
{
    loop {
        let Some((who, key)) = state.next_ready()? else {
            return Ok(());
        };
        resume(state, who, key, gate, step)?;
    }
}
