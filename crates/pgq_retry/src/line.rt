ghost use Rattle.std.specs.Prelude.{◌≡◌, ◌++◌, ◌∷◌, ◌<◌, ◌^◌, [], length, min, filter, slice_get, option_map, IfSome, IfNone, OnOk, OnErr};
ghost use Rattle.std.specs.Map.{values_of, remove_entry};
ghost use Rattle.std.specs.BTreeMap.{is_at};
ghost use Rattle.std.specs.Ordering.{nat_cmp};
ghost use Rattle.pgq_retry.specs.Retries.{is_due, sorted_by, by_due};
ghost use Rattle.pgq_retry.specs.Kept.{at, AreBelow, InOrder};

use crate::retry::Retry;
use sky_val::NoMemory;
use std::alloc::{AllocError, Global};
use std::collections::{BTreeMap, BTreeSet};
use std::marker::Model;

/// Those that wait, by places in the order of asking.
#[derive(Debug, Drop)]
pub(crate) struct Line {
    entries: BTreeMap<u64, Retry>,

    // The due moment of each with its place, so that the first is the first to be brought back.
    dues: BTreeSet<(i64, u64)>,
}

impl Model for Line {
    ghost use Rattle.pgq_retry.specs.Kept.{Entries, IsListed};

    ghost Value = { Entries };

    ghost view = { λ l. l.entries.entries };

    ghost invariant = { λ l. IsListed l.entries.entries l.dues };
}

impl Line {
    /// None.
    pub(crate) fn new(alloc: Global) -> Line
        ensures { result ≡ [] }
    {
        Line {
            entries: BTreeMap::new(alloc),
            dues: BTreeSet::new(alloc),
        }
    }

    /// Each with its place.
    pub(crate) fn entries(&self) -> &BTreeMap<u64, Retry>
        ensures { result.now.entries ≡ self.now }
    {
        &self.entries
    }

    /// A place above all others, if there is one.
    pub(crate) fn next_place(&self) -> Option<u64>
        ensures { IfSome result (λ place. AreBelow place self.now) }
    {
        match self.entries.last_key_value() {
            Some((last, _)) => last.checked_add(1),
            None => Some(0),
        }
    }

    /// Puts one at a place above all others.
    pub(crate) fn push(&mut self, place: u64, waiting: Retry) -> Result<(), NoMemory>
        requires { AreBelow place self.old }
        ensures ok { OnOk result (self.new ≡ self.old ++ (place, waiting) ∷ []) }
        ensures err { OnErr result (self.new ≡ self.old) }
        ensures in_order { InOrder self.new }
    {
        let due = (waiting.due, place);
        // Given to drop: freed in place, each text of it would be a case of the proof.
        drop(self.entries.insert(place, waiting)?);
        let Ok(_) = self.dues.insert(due) else {
            drop(self.entries.remove(&place));
            return Err(AllocError);
        };
        Ok(())
    }

    /// Removes what is at the place.
    pub(crate) fn remove(&mut self, place: u64) -> Option<Retry>
        ensures taken { result ≡ at place self.old }
        ensures others { self.new ≡ remove_entry (is_at (nat_cmp place)) self.old }
        ensures in_order { InOrder self.new }
    {
        let waiting = self.entries.remove(&place)?;
        self.dues.remove(&(waiting.due, place));
        Some(waiting)
    }

    /// Drops what is at the place.
    pub(crate) fn discard(&mut self, place: u64)
        ensures others { self.new ≡ remove_entry (is_at (nat_cmp place)) self.old }
        ensures in_order { InOrder self.new }
    {
        drop(self.remove(place));
    }

    /// The place of the first by due moment.
    pub(crate) fn first(&self) -> Option<u64>
        ensures { result ≡ option_map (λ e. e.0) (slice_get (sorted_by (λ e. e.1.due) self.now) 0) }
    {
        let (_, place) = self.dues.first()?;
        Some(*place)
    }

    /// How many are due, or `most` if they are more.
    pub(crate) fn count_due(&self, now: i64, most: usize) -> usize
        ensures { result ≡ min most (length (filter (is_due now) (by_due (values_of self.now)))) }
    {
        let mut count = 0;
        for (due, _) in &self.dues {
            if count == most || *due > now {
                break;
            }
            count += 1;
        }
        count
    }
}
