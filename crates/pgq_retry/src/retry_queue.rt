ghost use Rattle.std.specs.Prelude.{◌≡◌, ◌++◌, ◌∷◌, [], not, if◌then◌else◌, length, IfOk, OnErr, IfSome, IfNone};
ghost use Rattle.pgq_retry.specs.Retries.{is_asked, count_of, by_due, due_now, left_by, without, without_sub};

use crate::placed::Placed;
use crate::retry::Retry;
use sky_val::NoMemory;
use std::alloc::{AllocError, Global};
use std::marker::Model;

/// The events of one database that wait to be retried, in the order in which they were asked for.
#[derive(Debug, Drop)]
pub struct RetryQueue {
    alloc: Global,
    placed: Placed,
}

impl Model for RetryQueue {
    ghost use Rattle.std.specs.Prelude.{List};
    ghost use Rattle.std.specs.Map.{values_of};
    ghost use Rattle.pgq_retry.specs.declared.retry.Retry.{Retry};

    ghost Value = { List Retry };

    ghost view = { λ q. values_of q.placed };
}

impl RetryQueue {
    /// None waits. No memory is taken.
    pub fn new(alloc: Global) -> RetryQueue
        ensures { result ≡ [] }
    {
        RetryQueue {
            alloc,
            placed: Placed::new(alloc),
        }
    }

    /// Whether the subscription's event of this id waits.
    pub fn contains(&self, sub: u64, ev_id: u64) -> bool
        ensures { result ≡ is_asked sub ev_id self.now }
    {
        self.placed.contains(sub, ev_id)
    }

    /// How many of the subscription wait.
    pub fn count(&self, sub: u64) -> usize
        ensures { result ≡ count_of sub self.now }
    {
        self.placed.count(sub)
    }

    /// How many are due, or `most` if they are more.
    pub fn count_due(&self, now: i64, most: usize) -> usize
        ensures { result ≡ length (due_now now most self.now) }
    {
        self.placed.count_due(now, most)
    }

    /// Makes one wait, as the last, unless the same subscription's event of its id waits already. The answer is whether
    /// it is new.
    pub fn ask(&mut self, waiting: Retry) -> Result<bool, NoMemory>
        ensures new { IfOk result (λ new. new ≡ not (is_asked waiting.sub waiting.event.ev_id self.old)) }
        ensures ok { IfOk result (λ new. self.new ≡ (if new then self.old ++ waiting ∷ [] else self.old)) }
        ensures err { OnErr result (self.new ≡ self.old) }
    {
        // Freed in place, each of its texts would be a case of the proof: hence `drop`.
        if self.contains(waiting.sub, waiting.event.ev_id) {
            drop(waiting);
            return Ok(false);
        }
        let Ok(place) = self.placed.next_place() else {
            drop(waiting);
            return Err(AllocError);
        };
        self.placed.push(place, waiting)?;
        Ok(true)
    }

    /// Removes those that are due, at most `most` of them, by due moment, and those of one moment in the order in which
    /// they were asked for.
    pub fn take_due(&mut self, now: i64, most: usize) -> Result<Vec<Retry>, NoMemory>
        ensures taken { IfOk result (λ taken. taken.items ≡ due_now now most self.old) }
        ensures left { IfOk result (λ taken. self.new ≡ left_by taken.items self.old) }
        ensures err { OnErr result (self.new ≡ self.old) }
    {
        let count = self.placed.count_due(now, most);
        let mut taken = Vec::with_capacity(self.alloc, count)?;
        for _turn in 0..count {
            let Some(waiting) = self.placed.take_first() else {
                break;
            };
            taken.push_reserved(waiting);
        }
        Ok(taken)
    }

    /// Removes the first by due moment, and of those of one moment the one that was asked for first. No memory is
    /// taken.
    pub fn take_first(&mut self) -> Option<Retry>
        ensures first { IfSome result (λ r. by_due self.old ≡ r ∷ by_due self.new) }
        ensures others { IfSome result (λ r. self.new ≡ without r.sub r.event.ev_id self.old) }
        ensures none { IfNone result (self.old ≡ []) }
        ensures same { IfNone result (self.new ≡ self.old) }
    {
        self.placed.take_first()
    }

    /// Removes all of the subscription. No memory is taken.
    pub fn drop_sub(&mut self, sub: u64)
        ensures { self.new ≡ without_sub sub self.old }
    {
        self.placed.drop_sub(sub);
    }
}
