//! The moves of the worker of a table's copy once the table has its rows: it goes through batches, until the table can be
//! handed over to the leaf's own worker.

ghost use Rattle.std.specs.Prelude.{◌≡◌, [], true, None, Some, IfOk, IfErr, is_some, option_copied};
ghost use Rattle.londiste_state.specs.declared.state.TableState.TheVariants as state;
ghost use Rattle.londiste_state.specs.Nodes.{LeafTable};
ghost use Rattle.sky_model.specs.BatchMoves.{goes_through, takes_next};
ghost use Rattle.sky_model.specs.CopyMoves.{catches_up, copier, copy_consumer, covers, goes_through_or, hands_over, has_caught_up};
ghost use Rattle.sky_model.specs.DatabaseSteps.{IsMade};
ghost use Rattle.sky_model.specs.History.{copy_of};
ghost use Rattle.sky_model.specs.StepApply.{may_apply};
ghost use Rattle.sky_model.specs.StepNode.{set_queue, table_number};
ghost use Rattle.londiste_batches.specs.Moved.{MovesBy, MoveRefused};
ghost use Rattle.londiste_copy.specs.CatchingUp.{is_following, progress_of, the_table, without_batch};

use crate::copying::copy_consumer;
use crate::table::{CopiedTable, Progress, table_at};
use londiste_batches::{BatchHand, go_through, move_table, take_next};
use londiste_calls::WorkerFault;
use londiste_state::{Node, TableState};
use sky_model::Reply;
use sky_store::{Pick, Store};
use sky_txid::Snapshot;
use sky_val::Text;
use std::alloc::Global;

/// A move for a table that was copied: its batch is gone through. With none in hand, the table catches up or is handed
/// over, by its state.
pub(crate) fn follow<D: Store>(
    alloc: Global,
    provider: &mut D,
    replica: &mut D,
    table: &CopiedTable,
    progress: Progress,
    hand: Option<BatchHand>,
    replies: &mut Vec<Reply>,
) -> Result<Option<BatchHand>, WorkerFault>
    requires replica_made { IsMade (D.seen replica.old) }
    requires root { is_some (set_queue (D.seen provider.old)) ≡ true }
    requires progress { progress ≡ progress_of (the_table table.now.name.now (D.seen replica.old).node) }
    requires state { is_following progress.state ≡ true }
    requires may { may_apply (copy_of table.now.name.now) (D.seen replica.old).node ≡ true }
    requires number { table_number (D.seen replica.old) table.now.name.now ≡ Some table.now.to }
    requires nothing { replies.old.items ≡ [] }
    ensures moves { IfOk result (λ now. MovesBy (goes_through_or (D.seen provider.old) (D.seen replica.old) (the_table table.now.name.now (D.seen replica.old).node) hand (without_batch progress.state (D.seen provider.old) (D.seen replica.old) (the_table table.now.name.now (D.seen replica.old).node)))
        (D.seen provider.old) (D.seen provider.new) (D.seen replica.old) (D.seen replica.new) replies.new.items now) }
    ensures fault { IfErr result (λ fault. MoveRefused fault (goes_through_or (D.seen provider.old) (D.seen replica.old) (the_table table.now.name.now (D.seen replica.old).node) hand (without_batch progress.state (D.seen provider.old) (D.seen replica.old) (the_table table.now.name.now (D.seen replica.old).node)))
        (D.seen provider.old) (D.seen provider.new) (D.seen replica.old) (D.seen replica.new) hand hand) }
{
    let tick = progress.tick;
    if let Some(hand) = hand {
        return go_through_batch(alloc, provider, replica, table, tick, hand, replies);
    }
    match progress.state {
        TableState::DoSync(at) => hand_over(alloc, provider, replica, table, tick, at, replies),
        _ => catch_up(alloc, provider, replica, table, tick, replies),
    }
}

/// What is done with a batch in hand of a table whose copy has come to this tick.
fn go_through_batch<D: Store>(
    alloc: Global,
    provider: &mut D,
    replica: &mut D,
    table: &CopiedTable,
    tick: u64,
    hand: BatchHand,
    replies: &mut Vec<Reply>,
) -> Result<Option<BatchHand>, WorkerFault>
    requires replica_made { IsMade (D.seen replica.old) }
    requires root { is_some (set_queue (D.seen provider.old)) ≡ true }
    requires tick { tick ≡ (the_table table.now.name.now (D.seen replica.old).node).tick }
    requires may { may_apply (copy_of table.now.name.now) (D.seen replica.old).node ≡ true }
    requires nothing { replies.old.items ≡ [] }
    ensures moves { IfOk result (λ now. MovesBy (goes_through (D.seen provider.old) (D.seen replica.old) (copier (D.seen replica.old).node (the_table table.now.name.now (D.seen replica.old).node)) hand)
        (D.seen provider.old) (D.seen provider.new) (D.seen replica.old) (D.seen replica.new) replies.new.items now) }
    ensures fault { IfErr result (λ fault. MoveRefused fault (goes_through (D.seen provider.old) (D.seen replica.old) (copier (D.seen replica.old).node (the_table table.now.name.now (D.seen replica.old).node)) hand)
        (D.seen provider.old) (D.seen provider.new) (D.seen replica.old) (D.seen replica.new) (Some hand) (Some hand)) }
{
    let pick = Pick::CopyOf(table.name.copy(alloc)?);
    go_through(provider, replica, tick, &pick, hand, replies)
}

/// A table whose copy has come to this tick catches up: once it has caught up, it waits until the leaf has come to that
/// tick.
fn catch_up<D: Store>(
    alloc: Global,
    provider: &mut D,
    replica: &mut D,
    table: &CopiedTable,
    reached: u64,
    replies: &mut Vec<Reply>,
) -> Result<Option<BatchHand>, WorkerFault>
    requires replica_made { IsMade (D.seen replica.old) }
    requires root { is_some (set_queue (D.seen provider.old)) ≡ true }
    requires state { (the_table table.now.name.now (D.seen replica.old).node).state ≡ state.CatchingUp }
    requires reached { reached ≡ (the_table table.now.name.now (D.seen replica.old).node).tick }
    requires number { table_number (D.seen replica.old) table.now.name.now ≡ Some table.now.to }
    requires nothing { replies.old.items ≡ [] }
    ensures moves { IfOk result (λ now. MovesBy (catches_up (D.seen provider.old) (D.seen replica.old) (the_table table.now.name.now (D.seen replica.old).node))
        (D.seen provider.old) (D.seen provider.new) (D.seen replica.old) (D.seen replica.new) replies.new.items now) }
    ensures fault { IfErr result (λ fault. MoveRefused fault (catches_up (D.seen provider.old) (D.seen replica.old) (the_table table.now.name.now (D.seen replica.old).node))
        (D.seen provider.old) (D.seen provider.new) (D.seen replica.old) (D.seen replica.new) None None) }
{
    if has_caught_up(provider, replica.node(), table.name) {
        let name = table.name.copy(alloc)?;
        let to = TableState::WannaSync(reached);
        move_table(replica, name, table.to, to, replies)?;
        return Ok(None);
    }
    take_copy_batch(alloc, provider, replica, replies)
}

/// A table whose copy has come to this tick is handed over at a tick: once its copy has come to that tick, it is in
/// sync, and the consumer of its copy leaves.
fn hand_over<D: Store>(
    alloc: Global,
    provider: &mut D,
    replica: &mut D,
    table: &CopiedTable,
    reached: u64,
    at: u64,
    replies: &mut Vec<Reply>,
) -> Result<Option<BatchHand>, WorkerFault>
    requires replica_made { IsMade (D.seen replica.old) }
    requires root { is_some (set_queue (D.seen provider.old)) ≡ true }
    requires state { (the_table table.now.name.now (D.seen replica.old).node).state ≡ state.DoSync at }
    requires reached { reached ≡ (the_table table.now.name.now (D.seen replica.old).node).tick }
    requires number { table_number (D.seen replica.old) table.now.name.now ≡ Some table.now.to }
    requires nothing { replies.old.items ≡ [] }
    ensures moves { IfOk result (λ now. MovesBy (hands_over (D.seen provider.old) (D.seen replica.old) at (the_table table.now.name.now (D.seen replica.old).node))
        (D.seen provider.old) (D.seen provider.new) (D.seen replica.old) (D.seen replica.new) replies.new.items now) }
    ensures fault { IfErr result (λ fault. MoveRefused fault (hands_over (D.seen provider.old) (D.seen replica.old) at (the_table table.now.name.now (D.seen replica.old).node))
        (D.seen provider.old) (D.seen provider.new) (D.seen replica.old) (D.seen replica.new) None None) }
{
    if reached != at {
        return take_copy_batch(alloc, provider, replica, replies);
    }
    let consumer = copy_consumer(alloc, replica.node())?;
    let name = table.name.copy(alloc)?;
    provider.part(&consumer);
    move_table(replica, name, table.to, TableState::Synced, replies)?;
    Ok(None)
}

/// Takes the next batch of the copies' consumer in hand, if there is one.
fn take_copy_batch<D: Store>(
    alloc: Global,
    provider: &mut D,
    replica: &D,
    replies: &mut Vec<Reply>,
) -> Result<Option<BatchHand>, WorkerFault>
    requires root { is_some (set_queue (D.seen provider.old)) ≡ true }
    requires nothing { replies.old.items ≡ [] }
    ensures moves { IfOk result (λ now. (t : LeafTable) → MovesBy (takes_next (D.seen provider.old) (copier (D.seen replica.now).node t))
        (D.seen provider.old) (D.seen provider.new) (D.seen replica.now) (D.seen replica.now) replies.new.items now) }
    ensures fault { IfErr result (λ fault. (t : LeafTable) → MoveRefused fault (takes_next (D.seen provider.old) (copier (D.seen replica.now).node t))
        (D.seen provider.old) (D.seen provider.new) (D.seen replica.now) (D.seen replica.now) None None) }
{
    let consumer = copy_consumer(alloc, replica.node())?;
    take_next(provider, &consumer, replies)
}

/// Whether each transaction that had ended when the table was copied has ended at the tick that its copy has come to.
fn has_caught_up<D: Store>(provider: &D, node: Option<&Node>, table: &Text) -> bool
    requires { is_some (set_queue (D.seen provider.now)) ≡ true }
    ensures { result ≡ has_caught_up (D.seen provider.now) (the_table table.now (option_copied node.entry)) }
{
    let Some(table) = table_at(node, table) else {
        return false;
    };
    let Some(at) = provider.tick_snapshot(table.tick()) else {
        return false;
    };
    let Some(copied) = table.snapshot() else {
        return false;
    };
    covers(at, copied)
}

/// Whether a snapshot sees each transaction that another sees.
fn covers(at: &Snapshot, copied: &Snapshot) -> bool
    ensures { result ≡ covers at.now copied.now }
{
    // It sees none from its upper bound on, so the definition asks only for those below. This is read for the proof alone.
    let _bound = copied.xmax();
    at.covers(copied)
}
