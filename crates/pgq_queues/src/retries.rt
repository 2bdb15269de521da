//! The retries of a database: which events wait to come back to their queues, and how they do.

ghost use Rattle.std.specs.Prelude.{◌≡◌, ℕ, ℤ, false, ◌+◌, ◌<◌, ◌≤◌, ◌^◌, ◌==◌, not, find, length, take, if◌then◌else◌, IfOk, IfSome, OnOk, OnErr};
ghost use Rattle.std.specs.List.{All};
ghost use Rattle.pgq_retry.specs.Retries.{is_asked, count_of, by_due, due_now};
ghost use Rattle.sky_model.specs.History.{queued, asked};
ghost use Rattle.sky_model.specs.Moment.{HasMoment};
ghost use Rattle.sky_model.specs.Selection.{selected};
ghost use Rattle.sky_model.specs.State.{after_mark, after_marks};
ghost use Rattle.sky_model.specs.StepRetry.{back, most_back};
ghost use Rattle.pgq_queues.specs.Seen.{seen_with, queue_at, reads_at, Stands, Beside};
ghost use Rattle.pgq_queue.specs.Seen.{seen_span};
ghost use Rattle.pgq_queues.specs.Batches.{StillStand};
ghost use Rattle.pgq_queue.specs.Looked.{most_in};
ghost use Rattle.pgq_queues.specs.Traced.{KeepsRest};
ghost use Rattle.pgq_queue.specs.Stored.{RetriedAtMost};
ghost use Rattle.pgq_queues.specs.Retried.{HasConsumer};

use crate::queues::Queues;
use pgq_queue::Span;
use pgq_retry::Retry;
use sky_val::{Event, NoMemory};

/// How many retries come back at a time, at most.
pub const MOST_BACK: usize = 10;

impl Queues {
    /// How many retries of a subscription wait.
    pub fn retry_count(&self, sub: u64) -> u64
        ensures { result ≡ count_of sub self.now.retries }
    {
        self.retries.count(sub) as u64
    }

    /// How many retries are due, or as many as come back at a time if they are more.
    pub fn due_count(&self, now: i64) -> usize
        ensures { result ≡ length (due_now now most_back self.now.retries) }
    {
        self.retries.count_due(now, MOST_BACK)
    }

    /// Of a batch's events the first with an id. No other is copied.
    pub fn event_in(&mut self, span: Span, id: u64) -> Result<Option<Event>, NoMemory>
        requires { Stands self.old.queues span.queue }
        ensures found { (beside : Beside) → IfOk result (λ found. found
            ≡ find (λ e. e.ev_id == id) (selected (seen_with beside self.old) (seen_span span))) }
        ensures moment { IfOk result (λ found. IfSome found (λ e. HasMoment e.ev_time)) }
        ensures rounds { IfOk result (λ found. IfSome found (λ e. RetriedAtMost self.old.rounds e)) }
        ensures same { (beside : Beside) → seen_with beside self.new ≡ seen_with beside self.old }
        ensures stand { StillStand self.old.queues self.new.queues }
        ensures rest { KeepsRest self.old self.new }
        ensures others { (n : ℕ) → (span.queue == n) ≡ false → reads_at self.new.queues n ≡ reads_at self.old.queues n }
        ensures upper { OnOk result (reads_at self.new.queues span.queue ≤ reads_at self.old.queues span.queue + most_in (queue_at self.old span.queue) (seen_span span)) }
    {
        let alloc = self.alloc;
        self.slots.get_mut(span.queue).find(alloc, span, id)
    }

    /// Makes an event wait to come back, unless one of its id waits for the same subscription. The answer is whether it
    /// is new.
    pub fn retry(&mut self, retry: Retry) -> Result<bool, NoMemory>
        requires owner { HasConsumer self.old.queues retry.queue retry.sub }
        requires time { HasMoment retry.event.ev_time }
        requires rounds { RetriedAtMost (self.old.rounds + 1) retry.event }
        ensures fresh { IfOk result (λ fresh. fresh ≡ not (is_asked retry.sub retry.event.ev_id self.old.retries)) }
        ensures mark { IfOk result (λ fresh. (beside : Beside) → seen_with beside self.new
            ≡ (if fresh then after_mark (seen_with beside self.old) (queued (asked retry)) else seen_with beside self.old)) }
        ensures err { OnErr result ((beside : Beside) → seen_with beside self.new ≡ seen_with beside self.old) }
        ensures queues { self.new.queues ≡ self.old.queues }
        ensures rest { KeepsRest self.old self.new }
    {
        self.retries.ask(retry)
    }

    /// Brings those that are due back to their queues, in a transaction, at most as many as may come back at a time.
    /// The answer is how many. If memory runs out, those before have come back, and the one for which it ran out is
    /// lost.
    pub fn bring_back(&mut self, now: i64, txid: u64) -> Result<usize, NoMemory>
        requires { self.old.rounds + 1 < 2 ^ 64 }
        ensures count { IfOk result (λ n. n ≡ length (due_now now most_back self.old.retries)) }
        ensures marks { OnOk result ((beside : Beside) → seen_with beside self.new
            ≡ after_marks (seen_with beside self.old) (back now txid (due_now now most_back self.old.retries))) }
        ensures rest { KeepsRest (record self.old { rounds = self.old.rounds + 1 }) self.new }
    {
        let count = self.due_count(now);
        self.rounds += 1;
        self.bring(txid, count)?;
        Ok(count)
    }

    /// Brings this many back, the earliest due first.
    fn bring(&mut self, txid: u64, count: usize) -> Result<(), NoMemory>
        requires { All (λ (r : Retry). RetriedAtMost self.old.rounds r.event) self.old.retries }
        ensures marks { OnOk result ((now : ℤ) (beside : Beside) → seen_with beside self.new
            ≡ after_marks (seen_with beside self.old) (back now txid (take count (by_due self.old.retries)))) }
        ensures rest { KeepsRest self.old self.new }
    {
        if count == 0 {
            return Ok(());
        }
        let Some(mut retry) = self.retries.take_first() else {
            return Ok(());
        };
        retry.event.ev_txid = txid;
        self.slots.get_mut(retry.queue).put(retry.event)?;
        self.bring(txid, count - 1)
    }
}
