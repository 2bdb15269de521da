//! A table of a leaf goes into a state.

ghost use Rattle.std.specs.Prelude.{◌≡◌, [], true, None, Some, OnOk};
ghost use Rattle.sky_model.specs.DatabaseSteps.{IsMade};
ghost use Rattle.sky_model.specs.Hands.{BatchHand};
ghost use Rattle.sky_model.specs.State.{Database};
ghost use Rattle.sky_model.specs.StepNode.{moving, table_number, may_serve};
ghost use Rattle.sky_model.specs.WorkerMoves.{moves_to};
ghost use Rattle.londiste_batches.specs.Moved.{MovesBy};

use crate::replies::add_reply;
use londiste_state::TableState;
use sky_model::Reply;
use sky_store::Store;
use sky_val::{NoMemory, Text};

/// A table of the leaf, whose number this is, goes into a state, with nothing in hand then.
pub fn move_table<D: Store>(
    replica: &mut D,
    table: Text,
    number: u32,
    to: TableState,
    replies: &mut Vec<Reply>,
) -> Result<(), NoMemory>
    requires replica_made { IsMade (D.seen replica.old) }
    requires number { table_number (D.seen replica.old) table ≡ Some number }
    requires may { may_serve (moving table to) (D.seen replica.old).node ≡ true }
    requires nothing { replies.old.items ≡ [] }
    ensures { OnOk result ((p : Database) → MovesBy {H = BatchHand} (moves_to to table) p p (D.seen replica.old) (D.seen replica.new) replies.new.items None) }
{
    replica.set_state(&table, number, to);
    add_reply(Reply::TableMoved(table, to), replies)
}
