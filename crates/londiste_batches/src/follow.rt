//! The moves of a worker that goes through batches.

ghost use Rattle.std.specs.Prelude.{◌≡◌, ℕ, List, [], true, Some, None, IfOk, IfErr, is_some};
ghost use Rattle.sky_model.specs.BatchMoves.{applies_in_hand, finishes_in_hand, goes_through, takes_next};
ghost use Rattle.sky_model.specs.DatabaseSteps.{IsMade};
ghost use Rattle.sky_model.specs.History as history;
ghost use Rattle.sky_model.specs.State.{Database};
ghost use Rattle.sky_model.specs.StepApply.{may_apply};
ghost use Rattle.sky_model.specs.StepNode.{set_queue, finishing};
ghost use Rattle.londiste_calls.specs.Picks.{pick_of};
ghost use Rattle.sky_store.specs.Served.{Serves};
ghost use Rattle.londiste_batches.specs.Moved.{MovesBy, MoveRefused};

use crate::hand::BatchHand;
use crate::replies::add_reply;
use londiste_calls::WorkerFault;
use sky_model::Reply;
use sky_store::{ApplyFault, FetchFault, Pick, Store};
use sky_val::Text;

/// What a worker that has come to a tick does with the batch in its hand: it applies the events that it picks, or skips
/// the batch if it has come to the closing tick before; and then it finishes the batch. If an event can't be applied, the
/// worker stays where it is. The result is what the worker has in hand then.
pub fn go_through<D: Store>(
    provider: &mut D,
    replica: &mut D,
    tick: u64,
    pick: &Pick,
    hand: BatchHand,
    replies: &mut Vec<Reply>,
) -> Result<Option<BatchHand>, WorkerFault>
    requires replica_made { IsMade (D.seen replica.old) }
    requires root { is_some (set_queue (D.seen provider.old)) ≡ true }
    requires may { may_apply (pick_of pick.now) (D.seen replica.old).node ≡ true }
    requires nothing { replies.old.items ≡ [] }
    ensures moves { IfOk result (λ now. (consumer : List ℕ) → MovesBy (goes_through (D.seen provider.old) (D.seen replica.old) (record { consumer = consumer; tick = tick; pick = pick_of pick.now }) hand)
        (D.seen provider.old) (D.seen provider.new) (D.seen replica.old) (D.seen replica.new) replies.new.items now) }
    ensures fault { IfErr result (λ fault. (consumer : List ℕ) → MoveRefused fault (goes_through (D.seen provider.old) (D.seen replica.old) (record { consumer = consumer; tick = tick; pick = pick_of pick.now }) hand)
        (D.seen provider.old) (D.seen provider.new) (D.seen replica.old) (D.seen replica.new) (Some hand) (Some hand)) }
{
    if hand.is_done {
        return finish(provider, hand, replies);
    }
    if tick < hand.batch.cur {
        return apply(provider, replica, pick, hand, replies);
    }
    add_reply(Reply::BatchSkipped(hand.batch.cur), replies)?;
    Ok(Some(hand.done()))
}

/// Takes the next batch of a consumer in hand, if the consumer is registered and there is one.
pub fn take_next<D: Store>(
    provider: &mut D,
    consumer: &Text,
    replies: &mut Vec<Reply>,
) -> Result<Option<BatchHand>, WorkerFault>
    requires root { is_some (set_queue (D.seen provider.old)) ≡ true }
    requires nothing { replies.old.items ≡ [] }
    ensures moves { IfOk result (λ now. (r : Database) (tick : ℕ) (pick : history.Pick) → MovesBy (takes_next (D.seen provider.old) (record { consumer = consumer.now; tick = tick; pick = pick }))
        (D.seen provider.old) (D.seen provider.new) r r replies.new.items now) }
    ensures fault { IfErr result (λ fault. (r : Database) (tick : ℕ) (pick : history.Pick) → MoveRefused fault (takes_next (D.seen provider.old) (record { consumer = consumer.now; tick = tick; pick = pick }))
        (D.seen provider.old) (D.seen provider.new) r r None None) }
{
    if !provider.has_joined(consumer) {
        add_reply(Reply::Idle, replies)?;
        return Ok(None);
    }
    match provider.fetch(consumer) {
        Ok(Some(batch)) => {
            add_reply(Reply::BatchTaken(batch.id, batch.prev, batch.cur), replies)?;
            Ok(Some(BatchHand::new(batch)))
        }
        Ok(None) => {
            add_reply(Reply::Idle, replies)?;
            Ok(None)
        }
        Err(FetchFault::IdsSpent) => Err(WorkerFault::IdsSpent),
        Err(FetchFault::NoMemory) => Err(WorkerFault::NoMemory),
    }
}

/// The events of the batch in hand that are picked are applied, in one transaction. If one of them can't be, the batch
/// stays in hand as it is.
fn apply<D: Store>(
    provider: &mut D,
    replica: &mut D,
    pick: &Pick,
    hand: BatchHand,
    replies: &mut Vec<Reply>,
) -> Result<Option<BatchHand>, WorkerFault>
    requires replica_made { IsMade (D.seen replica.old) }
    requires may { may_apply (pick_of pick.now) (D.seen replica.old).node ≡ true }
    requires nothing { replies.old.items ≡ [] }
    ensures moves { IfOk result (λ now. (consumer : List ℕ) (tick : ℕ) → MovesBy (applies_in_hand (D.seen provider.old) (D.seen replica.old) (record { consumer = consumer; tick = tick; pick = pick_of pick.now }) hand)
        (D.seen provider.old) (D.seen provider.new) (D.seen replica.old) (D.seen replica.new) replies.new.items now) }
    ensures fault { IfErr result (λ fault. (consumer : List ℕ) (tick : ℕ) → MoveRefused fault (applies_in_hand (D.seen provider.old) (D.seen replica.old) (record { consumer = consumer; tick = tick; pick = pick_of pick.now }) hand)
        (D.seen provider.old) (D.seen provider.new) (D.seen replica.old) (D.seen replica.new) (Some hand) (Some hand)) }
{
    let cur = hand.batch.cur;
    match replica.apply_batch(provider, hand.batch.id, pick, cur) {
        Ok(many) => {
            add_reply(Reply::BatchApplied(cur, many), replies)?;
            Ok(Some(hand.done()))
        }
        Err(ApplyFault::BadEvent(_)) => {
            add_reply(Reply::Idle, replies)?;
            Ok(Some(hand))
        }
        Err(ApplyFault::TxidsSpent) => Err(WorkerFault::TxidsSpent),
        Err(ApplyFault::NoMemory) => Err(WorkerFault::NoMemory),
    }
}

/// The batch in hand is finished.
fn finish<D: Store>(
    provider: &mut D,
    hand: BatchHand,
    replies: &mut Vec<Reply>,
) -> Result<Option<BatchHand>, WorkerFault>
    requires root { is_some (set_queue (D.seen provider.old)) ≡ true }
    requires nothing { replies.old.items ≡ [] }
    ensures moves { IfOk result (λ now. (r : Database) → MovesBy (finishes_in_hand hand) (D.seen provider.old) (D.seen provider.new) r r replies.new.items now) }
    ensures fault { IfErr result (λ fault. fault ≡ WorkerFault.NoMemory) }
{
    finish_active(provider, hand.batch.id);
    add_reply(Reply::BatchFinished(hand.batch.id), replies)?;
    Ok(None)
}

/// The batch of this id is finished, if it is active.
fn finish_active<D: Store>(provider: &mut D, id: u64)
    requires root { is_some (set_queue (D.seen provider.old)) ≡ true }
    ensures { Serves (D.seen provider.old) (D.seen provider.new) (finishing id) }
{
    if provider.has_batch(id) {
        provider.finish(id);
    }
}
