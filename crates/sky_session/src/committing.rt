//! What a session's `commit` makes permanent, which is known before it is made. So a caller that has work of its own
//! before a transaction is committed does it in between, and the `commit` is admitted once.

ghost use Rattle.std.specs.Prelude.{◌≡◌};
ghost use Rattle.sky_row_store.specs.Committing.{commits_of};
ghost use Rattle.sky_state.specs.Seen.{seen};

use sky_fits::{Block, allow};
use sky_model::{Refusal, Where};
use sky_state::RowState;
use sky_val::SessionId;

/// The transaction that a `commit` of the session would make permanent now, if there is one, or why it would be
/// refused.
pub(crate) fn check_commit(state: &RowState, who: SessionId) -> Result<Option<u64>, Refusal>
    ensures { result ≡ commits_of (seen state.now) who }
{
    allow(state.is_waiting(who), state.standing(who), Where::WhenOpen)?;
    match state.block(who) {
        Block::Inside => Ok(state.own_txid(who)),
        Block::Outside | Block::Failed => Ok(None),
    }
}
