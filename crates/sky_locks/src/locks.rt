ghost use Rattle.std.specs.Prelude.{◌≡◌, ◌↔◌, ◌<◌, [], ◌∷◌, ◌++◌, if◌then◌else◌, true, false, None, Some, length, is_some, option_map, vec_len, vec_capacity, IsTrue, IfNone, IfOk, IfSome, OnOk, OnErr};
ghost use Rattle.sky_keys.specs.Waits.{is_waiting, entry_of, without, first_waiter, ready, other_holder, taken, given_back, released, way_back};
ghost use Rattle.sky_lock_table.specs.Waiters.{entry};
ghost use Rattle.sky_locks.specs.Locks.{LocksView, Takes, TakesKey, WaitsForKey, ClosesRing, holder, slot_place, waits_for_in};

use crate::ring::Ring;
use crate::taken::Taken;
use sky_lock_table::{LockKey, LockTable};
use sky_val::{NoMemory, SessionId};
use std::alloc::Global;
use std::marker::Model;

/// The row locks of one database: which session holds each key, and which sessions wait for one.
#[derive(Debug, Drop)]
pub struct Locks {
    alloc: Global,
    table: LockTable,

    // The keys that were given back and are waited for. There is room for the key of each that waits,
    // so that giving it back takes no memory.
    freed: Vec<LockKey>,
}

impl Model for Locks {
    ghost use Rattle.std.specs.Prelude.{vec_capacity};
    ghost use Rattle.sky_locks.specs.Freed.{IsListed};
    ghost use Rattle.sky_locks.specs.Locks.{LocksView};

    ghost Value = { LocksView };

    ghost view = { λ l. record { held = l.table.held; waiting = l.table.waiting; places = l.table.places } };

    ghost invariant = { λ l. IsListed l.table.held l.table.waiting l.freed.items (vec_capacity l.freed) };
}

impl Locks {
    /// No key is held, and nobody waits. No memory is taken.
    pub fn new(alloc: Global) -> Locks
        ensures { result ≡ record { held = []; waiting = []; places = [] } }
    {
        Locks {
            alloc,
            table: LockTable::new(alloc),
            freed: Vec::new(alloc),
        }
    }

    /// Where the key's slot is. It is found there until the locks change.
    pub fn find(&self, key: &LockKey) -> Option<usize>
        ensures { result ≡ slot_place self.now key.now.table key.now.key }
    {
        self.table.place(key)
    }

    /// The session that holds the key, whose slot is at the place.
    pub fn holder_at(&self, key: &LockKey, place: Option<usize>) -> Option<SessionId>
        requires { place ≡ slot_place self.now key.now.table key.now.key }
        ensures { result ≡ holder self.now key.now.table key.now.key }
    {
        self.table.holder_at(key, place)
    }

    /// The session that holds the key.
    pub fn holder(&self, key: &LockKey) -> Option<SessionId>
        ensures { result ≡ holder self.now key.now.table key.now.key }
    {
        self.holder_at(key, self.find(key))
    }

    /// The key that the session waits for.
    pub fn waits_on(&self, who: SessionId) -> Option<&LockKey>
        ensures { option_map (λ key. entry who key.now) result ≡ entry_of who self.now.waiting }
    {
        self.table.key(who)
    }

    /// Whether nobody waits.
    pub fn is_at_rest(&self) -> bool
        ensures { IsTrue result ↔ (self.now.waiting ≡ []) }
    {
        self.table.count() == 0
    }

    /// The first that waits for the key.
    pub fn first_waiter(&self, key: &LockKey) -> Option<SessionId>
        ensures { result ≡ first_waiter key.now.table key.now.key self.now.waiting }
    {
        self.table.first(key)
    }

    /// The first entry of the wait queue whose key nobody holds.
    pub fn ready(&self) -> Option<(SessionId, &LockKey)>
        ensures { option_map (λ found. entry found.0 found.1.now) result ≡ ready (holder self.now) self.now.waiting }
    {
        self.table.first_of(&self.freed)
    }

    /// Takes the key for the session, or makes it wait for the one that holds it, for a caller that doesn't know whether
    /// one does. If its wait would close a cycle, nothing changes. Nor does anything after an error.
    pub fn try_key(&mut self, who: SessionId, key: &LockKey) -> Result<Taken, NoMemory>
        requires { is_waiting who self.old.waiting ≡ false }
        ensures ok { IfOk result (λ taken. Takes self.old who key.now.table key.now.key taken self.new) }
        ensures err { OnErr result (self.new ≡ self.old) }
    {
        let place = self.find(key);
        match self.holder_at(key, place) {
            Some(holder) if holder != who => match self.wait(who, holder, key)? {
                None => Ok(Taken::Waits(holder)),
                Some(ring) => Ok(Taken::Cycle(ring)),
            },
            _ => {
                self.take_at(who, key, place)?;
                Ok(Taken::Got)
            }
        }
    }

    /// Takes the key, which no other session holds, and whose slot is at the place, for the session. After an error
    /// nothing has changed.
    pub fn take_at(
        &mut self,
        who: SessionId,
        key: &LockKey,
        place: Option<usize>,
    ) -> Result<(), NoMemory>
        requires found { place ≡ slot_place self.old key.now.table key.now.key }
        requires free { other_holder (holder self.old) who key.now.table key.now.key ≡ None }
        ensures ok { OnOk result (TakesKey self.old who key.now.table key.now.key self.new) }
        ensures err { OnErr result (self.new ≡ self.old) }
    {
        if self.table.hold_at(who, key, place)?.is_none() {
            self.freed.retain(|freed| freed != key);
        }
        Ok(())
    }

    /// Makes the session wait for the key, which this other one holds. If that would close a deadlock cycle, nothing
    /// changes, and the answer is the cycle. Nor does anything change after an error.
    pub fn wait(
        &mut self,
        who: SessionId,
        other: SessionId,
        key: &LockKey,
    ) -> Result<Option<Ring>, NoMemory>
        requires idle { is_waiting who self.old.waiting ≡ false }
        requires holds { other_holder (holder self.old) who key.now.table key.now.key ≡ Some other }
        ensures waits { IfOk result (λ ring. IfNone ring (WaitsForKey self.old who key.now.table key.now.key other self.new)) }
        ensures closes { IfOk result (λ ring. IfSome ring (λ ring. ClosesRing self.old who key.now.table key.now.key other ring self.new)) }
        ensures err { OnErr result (self.new ≡ self.old) }
    {
        if let Some(ring) = self.ring(who, other)? {
            return Ok(Some(ring));
        }
        self.freed.reserve(self.table.count() + 1)?;
        self.table.arrive(who, key)?;
        Ok(None)
    }

    /// The deadlock cycle that would close if `who` waited for the other session, if one would.
    fn ring(&self, who: SessionId, other: SessionId) -> Result<Option<Ring>, NoMemory>
        ensures { IfOk result (λ ring. ring
            ≡ option_map (λ way. who ∷ way) (way_back (waits_for_in self.now) who (length self.now.waiting) other)) }
    {
        // Usually no cycle would close, and then no list is made.
        if !self.leads_back(who, other) {
            return Ok(None);
        }
        let mut sessions = Vec::new(self.alloc);
        sessions.push(who)?;
        let mut last = other;
        for _step in 0..self.table.count() {
            sessions.push(last)?;
            match self.waits_for(last) {
                Some(next) if next != who => last = next,
                _ => break,
            }
        }
        Ok(Some(Ring::new(sessions)))
    }

    /// Whether a path leads from the other session back to `who`.
    fn leads_back(&self, who: SessionId, other: SessionId) -> bool
        ensures { result ≡ is_some (way_back (waits_for_in self.now) who (length self.now.waiting) other) }
    {
        let mut last = other;

        // No path is longer than the number of those who wait.
        for _step in 0..self.table.count() {
            match self.waits_for(last) {
                Some(next) if next == who => return true,
                Some(next) => last = next,
                None => return false,
            }
        }
        false
    }

    /// The other session that holds the key for which this one waits.
    fn waits_for(&self, who: SessionId) -> Option<SessionId>
        ensures { result ≡ waits_for_in self.now who }
    {
        let key = self.waits_on(who)?;
        match self.holder(key) {
            Some(holder) if holder != who => Some(holder),
            _ => None,
        }
    }

    /// The session no longer holds the key, if it did.
    pub fn give_back(&mut self, who: SessionId, key: &LockKey)
        ensures held { holder self.new ≡ given_back who key.now.table key.now.key (holder self.old) }
        ensures waiting { self.new.waiting ≡ self.old.waiting }
    {
        if let Some((key, is_waited)) = self.table.give_back(who, key) {
            note(&mut self.freed, key, is_waited);
        }
    }

    /// The session holds no key any more.
    pub fn release(&mut self, who: SessionId)
        ensures held { holder self.new ≡ released who (holder self.old) }
        ensures waiting { self.new.waiting ≡ self.old.waiting }
    {
        while let Some((key, is_waited)) = self.table.pop(who) {
            note(&mut self.freed, key, is_waited);
        }
    }

    /// The session waits no more.
    pub fn leave(&mut self, who: SessionId)
        ensures held { holder self.new ≡ holder self.old }
        ensures waiting { self.new.waiting ≡ without who self.old.waiting }
    {
        let Some((key, is_waited)) = self.table.leave(who) else {
            return;
        };
        if !is_waited {
            self.freed.retain(|freed| *freed != key);
        }
    }
}

/// Lists a key that was given back, if it is waited for.
fn note(freed: &mut Vec<LockKey>, key: LockKey, is_waited: bool)
    requires { is_waited ≡ true → vec_len freed.old < vec_capacity freed.old }
    ensures items { freed.new.items ≡ (if is_waited then freed.old.items ++ key ∷ [] else freed.old.items) }
    ensures capacity { vec_capacity freed.new ≡ vec_capacity freed.old }
{
    if is_waited {
        freed.push_reserved(key);
    }
}
