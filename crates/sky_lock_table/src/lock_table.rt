ghost use Rattle.std.specs.Prelude.{◌≡◌, ◌≢◌, ◌<◌, ◌^◌, ◌==◌, ◌++◌, [], ◌∷◌, true, false, None, Some, if◌then◌else◌, is_some, length, slice_get, find, option_map, option_and_then, IfOk, OnOk, OnErr, OnSome, IfSome, IfNone};
ghost use Rattle.std.specs.List.{All};
ghost use Rattle.std.specs.Ordering.{eq_by_cmp};
ghost use Rattle.sky_keys.specs.Waits.{is_waiting, entry_of, without};
ghost use Rattle.sky_lock_table.specs.Order.{lock_cmp};
ghost use Rattle.sky_lock_table.specs.Holders.{holder_of, Frees};
ghost use Rattle.sky_lock_table.specs.Slots.{place_at, queue_at};
ghost use Rattle.sky_lock_table.specs.Sessions.{arrival_of, keys_of};
ghost use Rattle.sky_lock_table.specs.Table.{TableView};
ghost use Rattle.sky_lock_table.specs.Waiters.{entry, key_of, is_among, is_waited, earlier};
ghost use Rattle.sky_lock_table.specs.declared.lock_key.LockKey.{LockKey};

use crate::entries::{Entries, Waiter};
use crate::held_keys::HeldKeys;
use crate::lock_key::LockKey;
use crate::session_arrivals::SessionArrivals;
use crate::slots::Slots;
use sky_val::{NoMemory, SessionId};
use std::alloc::{AllocError, Global};
use std::marker::Model;

/// Who holds each key, and who waits, in order of arrival.
#[derive(Debug, Drop)]
pub struct LockTable {
    alloc: Global,
    slots: Slots,
    entries: Entries,

    // By these a session's keys are found, and its entry.
    listed: HeldKeys,
    arrivals: SessionArrivals,
}

impl Model for LockTable {
    ghost use Rattle.sky_lock_table.specs.Slots.{held_in};
    ghost use Rattle.sky_lock_table.specs.Waiters.{waiting_in};
    ghost use Rattle.sky_lock_table.specs.Table.{TableView, IsIndexed};

    ghost Value = { TableView };

    ghost view = { λ t. record { held = held_in t.slots; waiting = waiting_in t.entries; listed = t.listed; places = t.slots.places } };

    ghost invariant = { λ t. IsIndexed t.slots t.entries t.listed t.arrivals.numbers.items };
}

impl LockTable {
    /// No key is held, and nobody waits.
    pub fn new(alloc: Global) -> LockTable
        ensures held { result.held ≡ [] }
        ensures waiting { result.waiting ≡ [] }
        ensures places { result.places ≡ [] }
    {
        LockTable {
            alloc,
            slots: Slots::new(alloc),
            entries: Entries::new(alloc),
            listed: HeldKeys::new(alloc),
            arrivals: SessionArrivals::new(alloc),
        }
    }

    /// The place of the key's slot.
    #[inline(always)]
    pub fn place(&self, key: &LockKey) -> Option<usize>
        ensures { result ≡ place_at self.now.places key.now }
    {
        self.slots.place(key)
    }

    /// The holder of the key, whose slot has this place.
    pub fn holder_at(&self, key: &LockKey, place: Option<usize>) -> Option<SessionId>
        requires { place ≡ place_at self.now.places key.now }
        ensures { result ≡ holder_of self.now.held key.now }
    {
        self.slots.holder_at(key, place)
    }

    /// How many wait.
    pub fn count(&self) -> usize
        ensures count { result ≡ length self.now.waiting }
        ensures small { result < 2 ^ 63 }
    {
        self.entries.count()
    }

    /// The key that the session waits for.
    pub fn key(&self, who: SessionId) -> Option<&LockKey>
        ensures { option_map (λ key. entry who key.now) result ≡ entry_of who self.now.waiting }
    {
        let arrival = self.arrivals.get(who)?;
        let waiter = self.entries.get(arrival)?;
        Some(&waiter.key)
    }

    /// The first that waits for the key.
    pub fn first(&self, key: &LockKey) -> Option<SessionId>
        ensures { result ≡ option_map (λ w. w.who) (find (λ w. eq_by_cmp lock_cmp (key_of w) key.now) self.now.waiting) }
    {
        self.slots.first(key)
    }

    /// The first session that waits for one of these keys, with its key.
    pub fn first_of(&self, keys: &[LockKey]) -> Option<(SessionId, &LockKey)>
        ensures { option_map (λ found. entry found.0 found.1.now) result
            ≡ find (λ w. is_among keys.now (key_of w)) self.now.waiting }
    {
        let mut first = None;
        for key in keys {
            first = earlier(first, first_arrival(&self.slots, &self.arrivals, key));
        }
        let waiter = self.entries.get(first?)?;
        Some((waiter.who, &waiter.key))
    }

    /// The session holds the key, whose slot has this place, if nobody does. The answer is who held it.
    pub fn hold_at(
        &mut self,
        who: SessionId,
        key: &LockKey,
        place: Option<usize>,
    ) -> Result<Option<SessionId>, NoMemory>
        requires { place ≡ place_at self.old.places key.now }
        ensures before { IfOk result (λ before. before ≡ holder_of self.old.held key.now) }
        ensures free { IfOk result (λ before. IfNone before ((q : LockKey)
            → holder_of self.new.held q ≡ (if eq_by_cmp lock_cmp key.now q then Some who else holder_of self.old.held q))) }
        ensures same { IfOk result (λ before. OnSome before (self.new.held ≡ self.old.held)) }
        ensures err { OnErr result (self.new.held ≡ self.old.held) }
        ensures places { OnErr result (self.new.places ≡ self.old.places) }
        ensures waiting { self.new.waiting ≡ self.old.waiting }
    {
        let listed = self.listed.reserve(self.alloc, who, key)?;
        match self.slots.hold_at(self.alloc, who, key, place)? {
            Some(holder) => Ok(Some(holder)),
            None => {
                self.listed.add(who, listed);
                Ok(None)
            }
        }
    }

    /// The key is free, if the session held it. The answer is this key, and whether it is waited for.
    pub fn give_back(&mut self, who: SessionId, key: &LockKey) -> Option<(LockKey, bool)>
        ensures freed { IfSome result (λ freed. (freed.0 ≡ key.now) × Frees self.old.held who key.now self.new.held) }
        ensures waited { IfSome result (λ freed. freed.1 ≡ is_waited self.old.waiting freed.0) }
        ensures other { IfNone result (holder_of self.old.held key.now ≢ Some who) }
        ensures same { IfNone result (self.new.held ≡ self.old.held) }
        ensures waiting { self.new.waiting ≡ self.old.waiting }
    {
        let key = self.listed.take(who, key)?;
        let is_waited = self.slots.free(&key, self.entries.count() == 0);
        Some((key, is_waited))
    }

    /// One of the session's keys is free, if it held any. The answer is this key, and whether it is
    /// waited for.
    pub fn pop(&mut self, who: SessionId) -> Option<(LockKey, bool)>
        ensures freed { IfSome result (λ freed. Frees self.old.held who freed.0 self.new.held) }
        ensures waited { IfSome result (λ freed. freed.1 ≡ is_waited self.old.waiting freed.0) }
        ensures fewer { OnSome result (length (keys_of self.new.listed who) < length (keys_of self.old.listed who)) }
        ensures none { IfNone result ((q : LockKey) → holder_of self.old.held q ≢ Some who) }
        ensures same { IfNone result (self.new.held ≡ self.old.held) }
        ensures waiting { self.new.waiting ≡ self.old.waiting }
    {
        let key = self.listed.pop(who)?;
        let is_waited = self.slots.free(&key, self.entries.count() == 0);
        Some((key, is_waited))
    }

    /// The session waits for the key, as the last of all.
    pub fn arrive(&mut self, who: SessionId, key: &LockKey) -> Result<(), NoMemory>
        requires { is_waiting who self.old.waiting ≡ false }
        ensures ok { OnOk result (self.new.waiting ≡ self.old.waiting ++ entry who key.now ∷ []) }
        ensures holders { (q : LockKey) → holder_of self.new.held q ≡ holder_of self.old.held q }
        ensures held { OnErr result (self.new.held ≡ self.old.held) }
        ensures err { OnErr result (self.new.waiting ≡ self.old.waiting) }
        ensures places { OnErr result (self.new.places ≡ self.old.places) }
    {
        self.pack();
        let waiter = Waiter {
            who,
            key: key.copy(self.alloc)?,
        };
        self.arrivals.make_room(who)?;
        let arrival = self.entries.add(waiter)?;
        let Ok(()) = self.slots.join(self.alloc, who, key) else {
            self.entries.take(arrival);
            return Err(AllocError);
        };
        self.arrivals.set(who, arrival);
        Ok(())
    }

    /// If more have left than wait, gives those that wait new arrivals, in the same order, from 0 on.
    fn pack(&mut self)
        ensures { self.new ≡ self.old }
    {
        if !self.entries.is_sparse() {
            return;
        }
        self.entries.pack();
        for arrival in 0..self.entries.end() {
            if let Some(waiter) = self.entries.get(arrival) {
                self.arrivals.set(waiter.who, arrival);
            }
        }
    }

    /// The session waits no more. The answer is the key that it waited for, and whether others wait
    /// for that.
    pub fn leave(&mut self, who: SessionId) -> Option<(LockKey, bool)>
        ensures left { option_map (λ left. entry who left.0) result ≡ entry_of who self.old.waiting }
        ensures own { IfSome result (λ left. All (λ w. (w.who == who) ≡ true → key_of w ≡ left.0) self.old.waiting) }
        ensures waited { IfSome result (λ left. left.1 ≡ is_waited self.new.waiting left.0) }
        ensures others { self.new.waiting ≡ without who self.old.waiting }
        ensures holders { (q : LockKey) → holder_of self.new.held q ≡ holder_of self.old.held q }
    {
        let arrival = self.arrivals.take(who)?;
        let waiter = self.entries.take(arrival)?;
        let is_waited = self.slots.leave(who, &waiter.key);
        Some((waiter.key, is_waited))
    }
}

/// The arrival of the first that waits for the key.
fn first_arrival(slots: &Slots, arrivals: &SessionArrivals, key: &LockKey) -> Option<usize>
    ensures { result ≡ option_and_then (arrival_of arrivals.now.numbers.items) (slice_get (queue_at slots.now key.now) 0) }
{
    let who = slots.first(key)?;
    arrivals.get(who)
}

/// The one that arrived first, if any.
fn earlier(one: Option<usize>, other: Option<usize>) -> Option<usize>
    ensures { result ≡ earlier one other }
{
    match (one, other) {
        (Some(one), Some(other)) => Some(one.min(other)),
        (Some(one), None) => Some(one),
        (None, other) => other,
    }
}
