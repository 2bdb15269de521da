//! The switches of event tables that a statement makes, and those that a `commit` makes.

ghost use Rattle.std.specs.Prelude.{◌≡◌, Option, None, if◌then◌else◌};
ghost use Rattle.pgq_parts.specs.Views.{NodePart};
ghost use Rattle.sky_model.specs.Moment.{IsTime};
ghost use Rattle.sky_model.specs.Sessions.{outside, inside};
ghost use Rattle.sky_model.specs.State.{after_marks};
ghost use Rattle.sky_model.specs.StepRotation.{switch_of};
ghost use Rattle.sky_row_store.specs.Committing.{commits_of, committed_in};
ghost use Rattle.sky_state.specs.Seen.{seen};
ghost use Rattle.pgq_queues.specs.Batches.{StillStand};
ghost use Rattle.pgq_queues.specs.Seen.{Beside, seen_with, queue_at, Stands};
ghost use Rattle.pgq_queues.specs.Traced.{KeepsRest};
ghost use Rattle.pgq_parts.specs.Seen.{with_node};
ghost use Rattle.pgq_parts.specs.Switches.{switches_before_commit};

use pgq_queues::Queues;
use sky_model::Refusal;
use sky_row_store::RowStore;
use sky_val::SessionId;

/// A switch of a queue's event tables is pending, by a transaction. If that is the statement's own, outside a block, it
/// has committed already, and the switch is made.
pub fn switch(queues: &mut Queues, queue: usize, txid: u64, is_alone: bool, now: i64)
    requires stands { Stands queues.old.queues queue }
    requires time { IsTime now }
    requires none { (queue_at queues.old queue).event_tables.pending ≡ None }
    ensures marks { (beside : Beside) → seen_with beside queues.new
        ≡ after_marks (seen_with beside queues.old) (switch_of queue txid now (if is_alone then outside else inside)) }
    ensures stand { StillStand queues.old.queues queues.new.queues }
    ensures rest { KeepsRest queues.old queues.new }
{
    queues.begin_switch(queue, txid);
    if is_alone {
        queues.commit_switch(queue, now);
    }
}

/// Makes the switches of event tables that the session's transaction has pending, if a `commit` would make that
/// permanent. Returns which transaction that is, if there is one, or why the `commit` would be refused.
pub fn switch_before_commit<R: RowStore>(
    queues: &mut Queues,
    rows: &R,
    now: i64,
    who: SessionId,
) -> Result<Option<u64>, Refusal>
    requires { IsTime now }
    ensures checked { result ≡ commits_of (seen (R.state rows.now)) who }
    ensures marks { (node : NodePart) → seen_with (with_node node (seen (R.state rows.now))) queues.new
        ≡ after_marks (seen_with (with_node node (seen (R.state rows.now))) queues.old) (switches_before_commit (seen_with (with_node node (seen (R.state rows.now))) queues.old) now who) }
    ensures rest { KeepsRest queues.old queues.new }
{
    let checked = rows.check_commit(who);
    if let Some(txid) = committed(&checked) {
        queues.switch_tables(txid, now);
    }
    checked
}

/// The transaction that a `commit` which was checked makes permanent, if there is one.
fn committed(checked: &Result<Option<u64>, Refusal>) -> Option<u64>
    ensures { result ≡ committed_in checked.now }
{
    match checked {
        Ok(txid) => *txid,
        Err(_) => None,
    }
}
