ghost use Rattle.std.specs.Prelude.{◌≡◌, ◌<◌, ◌==◌, nat_eq, not, filter, true, None, Some, if◌then◌else◌, [], is_some, option_copied, slice_get, IfOk, IfNone, OnOk, OnErr, OnSome};
ghost use Rattle.std.specs.List.{IsDistinct};
ghost use Rattle.std.specs.Ordering.{eq_by_cmp};
ghost use Rattle.slab.specs.Slab.{HasRoomFor};
ghost use Rattle.sky_lock_table.specs.Order.{lock_cmp};
ghost use Rattle.sky_lock_table.specs.Slots.{place_at, slot_at, holder_at, queue_at, held_in, Holds, HoldsAs, IsFree, SameHolders, SameHeld, Joins, Leaves, HasQueue, SameQueues};
ghost use Rattle.sky_lock_table.specs.declared.lock_key.LockKey.{LockKey};

use crate::lock_key::LockKey;
use sky_val::{NoMemory, SessionId, Val};
use slab::Slab;
use std::alloc::Global;
use std::collections::BTreeMap;
use std::marker::Model;

// A map of so many slots is small.
const FEW: usize = 16;

/// How many hints there are; a power of two.
const HINTS: usize = 512;

/// What there is at a key that is held or waited for. If neither, it is idle.
#[derive(Debug, Drop)]
pub(crate) struct Slot {
    key: LockKey,
    holder: Option<SessionId>,

    // Those that wait, in order of arrival.
    queue: Vec<SessionId>,
}

/// Each key that is held or waited for, with its holder and those that wait. While any session waits, idle slots stay,
/// since their keys are often held again, until they may be more than the others.
#[derive(Debug, Drop)]
pub(crate) struct Slots {
    slots: Slab<Slot>,

    // The place of each key's slot.
    places: BTreeMap<LockKey, usize>,

    // At the hash of a key, the place of the last key with that hash. It is tried first, before the map, and says nothing
    // of any other key.
    hints: [usize; HINTS],

    // Once there are more slots, idle ones are removed.
    most: usize,
}

impl Model for Slots {
    ghost use Rattle.sky_lock_table.specs.Slots.{SlotsView, IsPlaced};

    ghost Value = { SlotsView };

    ghost view = { λ s. record { slots = s.slots; places = s.places.entries } };

    ghost invariant = { λ s. IsPlaced s.places.entries s.slots };
}

impl Slots {
    /// None.
    pub(crate) fn new(alloc: Global) -> Slots
        ensures held { held_in result ≡ [] }
        ensures holders { (q : LockKey) → holder_at result q ≡ None }
        ensures queues { (q : LockKey) → queue_at result q ≡ [] }
        ensures places { result.places ≡ [] }
    {
        Slots {
            slots: Slab::new(alloc),
            places: BTreeMap::new(alloc),
            hints: [0; HINTS],
            most: FEW,
        }
    }

    /// The place of the key's slot.
    // Always inlined, and apart from the search, since a hint nearly always holds.
    #[inline(always)]
    pub(crate) fn place(&self, key: &LockKey) -> Option<usize>
        ensures { result ≡ place_at self.now.places key.now }
    {
        // Sessions that write outside blocks hold no key, so there is often no slot at all.
        if self.places.is_empty() {
            return None;
        }
        let hint = self.hints[hint_place(key)];
        if self.is_at(hint, key) {
            return Some(hint);
        }
        self.search(key)
    }

    /// The place of the key's slot, by the map.
    #[inline(never)]
    fn search(&self, key: &LockKey) -> Option<usize>
        ensures { result ≡ place_at self.now.places key.now }
    {
        self.places.get(key).copied()
    }

    /// Whether the key's slot is at this place.
    #[inline(always)]
    fn is_at(&self, place: usize, key: &LockKey) -> bool
        ensures { result ≡ true → place_at self.now.places key.now ≡ Some place }
    {
        match self.slots.get(place) {
            Some(slot) => key.is_same(&slot.key),
            None => false,
        }
    }

    /// The key's slot.
    fn slot(&self, key: &LockKey) -> Option<&Slot>
        ensures { option_copied result ≡ slot_at self.now key.now }
    {
        self.slots.get(self.place(key)?)
    }

    /// The holder of the key, whose slot has this place.
    pub(crate) fn holder_at(&self, key: &LockKey, place: Option<usize>) -> Option<SessionId>
        requires { place ≡ place_at self.now.places key.now }
        ensures { result ≡ holder_at self.now key.now }
    {
        self.slots.get(place?)?.holder
    }

    /// The first that waits for the key.
    pub(crate) fn first(&self, key: &LockKey) -> Option<SessionId>
        ensures { result ≡ slice_get (queue_at self.now key.now) 0 }
    {
        self.slot(key)?.queue.first().copied()
    }

    /// The session holds the key, whose slot has this place, if nobody does. The answer is who held it.
    pub(crate) fn hold_at(
        &mut self,
        alloc: Global,
        who: SessionId,
        key: &LockKey,
        place: Option<usize>,
    ) -> Result<Option<SessionId>, NoMemory>
        requires { place ≡ place_at self.old.places key.now }
        ensures before { IfOk result (λ before. before ≡ holder_at self.old key.now) }
        ensures free { IfOk result (λ before. IfNone before (Holds self.old who key.now self.new)) }
        ensures same { IfOk result (λ before. OnSome before (SameHeld self.old self.new)) }
        ensures err { OnErr result (SameHeld self.old self.new) }
        ensures queues { SameQueues self.old self.new }
    {
        let Some(place) = place else {
            self.insert(alloc, key, Some(who), Vec::new(alloc))?;
            return Ok(None);
        };
        self.hints[hint_place(key)] = place;
        let slot = &mut self.slots[place];
        if let Some(holder) = slot.holder {
            return Ok(Some(holder));
        }
        slot.holder = Some(who);
        Ok(None)
    }

    /// Makes a slot for the key, which has none.
    fn insert(
        &mut self,
        alloc: Global,
        key: &LockKey,
        holder: Option<SessionId>,
        queue: Vec<SessionId>,
    ) -> Result<(), NoMemory>
        requires { place_at self.old.places key.now ≡ None }
        ensures holders { OnOk result (HoldsAs self.old holder key.now self.new) }
        ensures queues { OnOk result (HasQueue self.old queue.items key.now self.new) }
        ensures held { OnErr result (SameHeld self.old self.new) }
        ensures err { OnErr result (SameQueues self.old self.new) }
    {
        let slot = Slot {
            key: key.copy(alloc)?,
            holder,
            queue,
        };
        let place = take_place(&mut self.slots, &mut self.places, alloc, key)?;
        self.slots.insert_reserved(slot);
        self.hints[hint_place(key)] = place;
        self.tidy();
        Ok(())
    }

    /// Removes idle slots, if there are many. Until there are many again, as many have to be added as stayed.
    fn tidy(&mut self)
        ensures holders { SameHolders self.old self.new }
        ensures queues { SameQueues self.old self.new }
    {
        if self.places.len() <= self.most {
            return;
        }
        self.slots
            .retain(|_, slot| slot.holder.is_some() || !slot.queue.is_empty());
        let slots = &self.slots;
        self.places.retain(|_, place| slots.contains(*place));
        let left = self.places.len();
        self.most = left + left.max(FEW);
    }

    /// Nobody holds the key. The answer is whether it is waited for. If nobody waits for any, its slot is removed.
    pub(crate) fn free(&mut self, key: &LockKey, is_quiet: bool) -> bool
        requires { is_quiet ≡ true → queue_at self.old key.now ≡ [] }
        ensures holders { IsFree self.old key.now self.new }
        ensures queues { SameQueues self.old self.new }
        ensures waited { result ≡ is_some (slice_get (queue_at self.old key.now) 0) }
    {
        let Some(place) = self.place(key) else {
            return false;
        };
        if is_quiet {
            self.places.remove(key);
            self.slots.remove(place);
            return false;
        }
        let slot = &mut self.slots[place];
        slot.holder = None;
        !slot.queue.is_empty()
    }

    /// Appends the session to the key's queue.
    pub(crate) fn join(
        &mut self,
        alloc: Global,
        who: SessionId,
        key: &LockKey,
    ) -> Result<(), NoMemory>
        ensures ok { OnOk result (Joins (queue_at self.old) who key.now (queue_at self.new)) }
        ensures err { OnErr result (SameQueues self.old self.new) }
        ensures held { OnErr result (held_in self.new ≡ held_in self.old) }
        ensures places { OnErr result (self.new.places ≡ self.old.places) }
        ensures holders { SameHolders self.old self.new }
    {
        let Some(place) = self.place(key) else {
            let mut queue = Vec::new(alloc);
            queue.push(who)?;
            return self.insert(alloc, key, None, queue);
        };
        let slot = &mut self.slots[place];
        slot.queue.push(who)?;
        Ok(())
    }

    /// Removes the session from the key's queue. The answer is whether others are in it.
    pub(crate) fn leave(&mut self, who: SessionId, key: &LockKey) -> bool
        requires { IsDistinct nat_eq (queue_at self.old key.now) }
        ensures queues { Leaves (queue_at self.old) who key.now (queue_at self.new) }
        ensures holders { SameHolders self.old self.new }
        ensures waited { result ≡ is_some (slice_get (queue_at self.new key.now) 0) }
    {
        let Some(place) = self.place(key) else {
            return false;
        };
        let slot = &mut self.slots[place];
        unlink(&mut slot.queue, who);
        !slot.queue.is_empty()
    }
}

/// Reserves memory for one slot more, and enters its place as that of the key.
fn take_place(
    slots: &mut Slab<Slot>,
    places: &mut BTreeMap<LockKey, usize>,
    alloc: Global,
    key: &LockKey,
) -> Result<usize, NoMemory>
    ensures slots { slots.new ≡ record slots.old { capacity = slots.new.capacity } }
    ensures room { OnOk result (HasRoomFor slots.new 1) }
    ensures place { IfOk result (λ place. place ≡ slots.new.vacant_key) }
    ensures found { IfOk result (λ place. (q : LockKey)
        → place_at places.new.entries q ≡ (if eq_by_cmp lock_cmp key.now q then Some place else place_at places.old.entries q)) }
    ensures err { OnErr result (places.new.entries ≡ places.old.entries) }
{
    slots.reserve(1)?;
    let place = slots.vacant_key();
    places.insert(key.copy(alloc)?, place)?;
    Ok(place)
}

/// The place of a key among the hints, by its last value: most keys differ there, and neither a long text nor a long
/// list of values takes more steps than a short one.
fn hint_place(key: &LockKey) -> usize
    ensures { result < 512 }
{
    let number = match key.key.values().last() {
        Some(Val::Int(number)) => number.cast_unsigned(),
        Some(Val::Text(text)) => tail_number(text.as_text().bytes()),
        Some(Val::Null) | None => 0,
    };
    let table = key.table as u64;
    number.wrapping_add(table.wrapping_mul(61)) as usize % HINTS
}

/// A number for a text, by its length and its last bytes.
fn tail_number(text: &[u8]) -> u64 {
    let len = text.len();
    let sum = match len {
        0 | 1 => 0,
        _ => 10 * text[len - 2] as u64 + text[len - 1] as u64,
    };
    (len as u64).wrapping_mul(64).wrapping_add(sum)
}

/// Removes the session from the queue, if it is in it.
fn unlink(queue: &mut Vec<SessionId>, who: SessionId)
    requires { IsDistinct nat_eq queue.old.items }
    ensures { queue.new.items ≡ filter (λ s. not (s == who)) queue.old.items }
{
    for place in 0..queue.len() {
        if queue[place] == who {
            queue.remove(place);
            return;
        }
    }
}
