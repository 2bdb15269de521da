//! Whether a daemon has nothing to do.

ghost use Rattle.std.specs.Prelude.{◌≡◌, ◌==◌, ◌&&◌, length};
ghost use Rattle.std.specs.List.{list_all};
ghost use Rattle.pgq_retry.specs.Retries.{due_now};
ghost use Rattle.sky_model.specs.Moment.{IsTime};
ghost use Rattle.sky_model.specs.Queues.{NamedQueue};
ghost use Rattle.sky_model.specs.StepRetry.{most_back};
ghost use Rattle.sky_model.specs.StepRotation.{lack_second_step};
ghost use Rattle.sky_store.specs.Idle.{queue_idles, idles_at};
ghost use Rattle.pgq_queue.specs.Seen.{seen_queue};
ghost use Rattle.pgq_queues.specs.Seen.{Beside, queue_at, queues_of, seen_with};

use pgq_queue::Queue;
use pgq_queues::Queues;

/// Whether nothing is to be done at a moment.
pub fn idles_at(queues: &Queues, moment: i64) -> bool
    requires { IsTime moment }
    ensures { (beside : Beside) → result ≡ idles_at moment (seen_with beside queues.now) }
{
    are_idle(queues, moment) && is_rest_idle(queues, moment)
}

/// Whether no queue lacks the second step of its last switch, and no retry is due at a moment.
fn is_rest_idle(queues: &Queues, moment: i64) -> bool
    ensures { (beside : Beside) → result ≡ ((length (lack_second_step (seen_with beside queues.now)) == 0) && (length (due_now moment most_back queues.now.retries) == 0)) }
{
    queues.unfinished() == 0 && queues.due_count(moment) == 0
}

/// Whether nothing is to be done in a queue: no tick is due at a moment, and something holds its switch back.
fn is_idle(queue: &Queue, moment: i64) -> bool
    requires { IsTime moment }
    ensures { result ≡ queue_idles moment (seen_queue queue.now) }
{
    !queue.is_due(moment) && queue.is_held_back(moment)
}

/// Nor in any other.
fn are_idle(queues: &Queues, moment: i64) -> bool
    requires { IsTime moment }
    ensures { result ≡ list_all (λ (q : NamedQueue). queue_idles moment (queue_at queues.now q.number)) (queues_of queues.now) }
{
    for place in 0..queues.count() {
        let queue = queues.queue(queues.number_at(place));
        if !is_idle(queue, moment) {
            return false;
        }
    }
    true
}
