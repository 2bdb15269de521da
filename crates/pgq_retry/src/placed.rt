ghost use Rattle.std.specs.Prelude.{◌≡◌, ◌++◌, ◌∷◌, [], false, length, min, filter, IfOk, IfSome, IfNone, OnOk, OnErr};
ghost use Rattle.std.specs.Map.{values_of};
ghost use Rattle.pgq_retry.specs.Retries.{is_asked, count_of, is_due, by_due, without, without_sub};
ghost use Rattle.pgq_retry.specs.Kept.{AreBelow};

use crate::line::Line;
use crate::places::Places;
use crate::retry::Retry;
use sky_val::NoMemory;
use std::alloc::{AllocError, Global};
use std::marker::Model;

/// Those that wait, each at a place, found by subscription and event id.
#[derive(Debug, Drop)]
pub(crate) struct Placed {
    alloc: Global,
    line: Line,
    places: Places,
}

impl Model for Placed {
    ghost use Rattle.pgq_retry.specs.Kept.{Entries, IsPlaced};

    ghost Value = { Entries };

    ghost view = { λ p. p.line };

    ghost invariant = { λ p. IsPlaced p.line p.places.by_sub };
}

impl Placed {
    /// None.
    pub(crate) fn new(alloc: Global) -> Placed
        ensures { result ≡ [] }
    {
        Placed {
            alloc,
            line: Line::new(alloc),
            places: Places::new(alloc),
        }
    }

    /// Whether the subscription's event waits.
    pub(crate) fn contains(&self, sub: u64, ev_id: u64) -> bool
        ensures { result ≡ is_asked sub ev_id (values_of self.now) }
    {
        self.places.contains(sub, ev_id)
    }

    /// How many of the subscription wait.
    pub(crate) fn count(&self, sub: u64) -> usize
        ensures { result ≡ count_of sub (values_of self.now) }
    {
        match self.places.of_sub(sub) {
            Some(places) => places.len(),
            None => 0,
        }
    }

    /// How many are due, or `most` if they are more.
    pub(crate) fn count_due(&self, now: i64, most: usize) -> usize
        ensures { result ≡ min most (length (filter (is_due now) (by_due (values_of self.now)))) }
    {
        self.line.count_due(now, most)
    }

    /// A place above all others. If none is left, after 2^64 retries among which one always waited, each gets a new
    /// place first.
    pub(crate) fn next_place(&mut self) -> Result<u64, NoMemory>
        ensures above { IfOk result (λ place. AreBelow place self.new) }
        ensures same { values_of self.new ≡ values_of self.old }
    {
        if let Some(place) = self.line.next_place() {
            return Ok(place);
        }
        let (placed, place) = self.renumbered()?;
        *self = placed;
        Ok(place)
    }

    /// The same ones, in the same order, at places from 0 on, and the first place above them.
    fn renumbered(&self) -> Result<(Placed, u64), NoMemory>
        ensures same { IfOk result (λ r. values_of r.0 ≡ values_of self.now) }
        ensures above { IfOk result (λ r. AreBelow r.1 r.0) }
    {
        let mut placed = Placed::new(self.alloc);
        let mut place = 0;
        for waiting in self.line.entries().values() {
            placed.push(place, waiting.copy(self.alloc)?)?;
            place += 1;
        }
        Ok((placed, place))
    }

    /// Puts one that doesn't wait yet at a place above all others.
    pub(crate) fn push(&mut self, place: u64, waiting: Retry) -> Result<(), NoMemory>
        requires above { AreBelow place self.old }
        requires fresh { is_asked waiting.sub waiting.event.ev_id (values_of self.old) ≡ false }
        ensures ok { OnOk result (self.new ≡ self.old ++ (place, waiting) ∷ []) }
        ensures err { OnErr result (self.new ≡ self.old) }
    {
        let (sub, ev_id) = (waiting.sub, waiting.event.ev_id);
        self.line.push(place, waiting)?;
        let Ok(()) = self.places.add(self.alloc, sub, ev_id, place) else {
            self.line.discard(place);
            return Err(AllocError);
        };
        Ok(())
    }

    /// Removes the first by due moment.
    pub(crate) fn take_first(&mut self) -> Option<Retry>
        ensures first { IfSome result (λ w. by_due (values_of self.old) ≡ w ∷ by_due (values_of self.new)) }
        ensures others { IfSome result (λ w. values_of self.new
            ≡ without w.sub w.event.ev_id (values_of self.old)) }
        ensures none { IfNone result (self.old ≡ []) }
        ensures same { IfNone result (self.new ≡ self.old) }
    {
        let waiting = self.line.remove(self.line.first()?)?;
        self.places.remove(waiting.sub, waiting.event.ev_id);
        Some(waiting)
    }

    /// Removes all of the subscription.
    pub(crate) fn drop_sub(&mut self, sub: u64)
        ensures { values_of self.new ≡ without_sub sub (values_of self.old) }
    {
        let Some(places) = self.places.take_sub(sub) else {
            return;
        };
        for place in places.values() {
            self.line.discard(*place);
        }
    }
}
