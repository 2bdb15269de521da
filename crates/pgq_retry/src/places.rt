ghost use Rattle.std.specs.Prelude.{◌≡◌, ◌==◌, ◌&&◌, ℕ, None, Some, if◌then◌else◌, is_some, OnOk, OnErr};
ghost use Rattle.std.specs.Option.{option_copied};
ghost use Rattle.std.specs.Ordering.{nat_cmp};
ghost use Rattle.std.specs.BTreeMap.{get};
ghost use Rattle.pgq_retry.specs.Kept.{place_of};

use sky_val::NoMemory;
use std::alloc::Global;
use std::collections::BTreeMap;

/// The place of each event id of each subscription.
#[derive(Debug, Drop)]
pub(crate) struct Places {
    by_sub: BTreeMap<u64, BTreeMap<u64, u64>>,
}

impl Places {
    /// None.
    pub(crate) fn new(alloc: Global) -> Places
        ensures { (s i : ℕ) → place_of result.by_sub s i ≡ None }
    {
        Places {
            by_sub: BTreeMap::new(alloc),
        }
    }

    /// The places of the subscription's events, by their ids.
    pub(crate) fn of_sub(&self, sub: u64) -> Option<&BTreeMap<u64, u64>>
        ensures { option_copied result ≡ get nat_cmp self.now.by_sub sub }
    {
        self.by_sub.get(&sub)
    }

    /// Whether the subscription's event has a place.
    pub(crate) fn contains(&self, sub: u64, ev_id: u64) -> bool
        ensures { result ≡ is_some (place_of self.now.by_sub sub ev_id) }
    {
        match self.by_sub.get(&sub) {
            Some(places) => places.contains_key(&ev_id),
            None => false,
        }
    }

    /// The subscription's event has this place.
    pub(crate) fn add(
        &mut self,
        alloc: Global,
        sub: u64,
        ev_id: u64,
        place: u64,
    ) -> Result<(), NoMemory>
        ensures ok { OnOk result ((s i : ℕ) → place_of self.new.by_sub s i
            ≡ (if s == sub && i == ev_id then Some place else place_of self.old.by_sub s i)) }
        ensures err { OnErr result ((s i : ℕ) → place_of self.new.by_sub s i ≡ place_of self.old.by_sub s i) }
    {
        match self.by_sub.get_mut(&sub) {
            Some(places) => {
                places.insert(ev_id, place)?;
            }
            None => {
                let mut places = BTreeMap::new(alloc);
                places.insert(ev_id, place)?;
                // Given to drop: freed in place, what the map gives back would be cases of the proof.
                drop(self.by_sub.insert(sub, places)?);
            }
        }
        Ok(())
    }

    /// The subscription's event has no place any more.
    pub(crate) fn remove(&mut self, sub: u64, ev_id: u64)
        ensures { (s i : ℕ) → place_of self.new.by_sub s i
            ≡ (if s == sub && i == ev_id then None else place_of self.old.by_sub s i) }
    {
        let Some(places) = self.by_sub.get_mut(&sub) else {
            return;
        };
        places.remove(&ev_id);
        if places.is_empty() {
            drop(self.by_sub.remove(&sub));
        }
    }

    /// No event of the subscription has a place any more. The answer is the places that they had.
    pub(crate) fn take_sub(&mut self, sub: u64) -> Option<BTreeMap<u64, u64>>
        ensures places { result ≡ get nat_cmp self.old.by_sub sub }
        ensures others { (s i : ℕ) → place_of self.new.by_sub s i
            ≡ (if s == sub then None else place_of self.old.by_sub s i) }
    {
        self.by_sub.remove(&sub)
    }
}
