ghost use Rattle.std.specs.Prelude.{◌≡◌, ◌<◌, ℕ, length, slice_get, true, false, Some, IfOk, OnOk, OnSome, IfSome, IfNone};
ghost use Rattle.sky_lock_table.specs.Sessions.{keys_of, has_key, has_room, KeepsKeys, ChangesKey};
ghost use Rattle.sky_lock_table.specs.Waiters.{is_among};
ghost use Rattle.sky_lock_table.specs.declared.lock_key.LockKey.{LockKey};

use crate::lock_key::LockKey;
use sky_val::{NoMemory, SessionId};
use std::alloc::Global;
use std::marker::Model;

/// Which keys each session holds, each listed once.
#[derive(Debug, Drop)]
pub(crate) struct HeldKeys {
    // By session number. Sessions without a place hold no key.
    keys: Vec<Vec<LockKey>>,
}

impl Model for HeldKeys {
    ghost use Rattle.std.specs.Prelude.{ℕ};
    ghost use Rattle.std.specs.List.{IsDistinct};
    ghost use Rattle.std.specs.Ordering.{eq_by_cmp};
    ghost use Rattle.sky_lock_table.specs.Order.{lock_cmp};
    ghost use Rattle.sky_lock_table.specs.Sessions.{KeysBySession, keys_of};

    ghost Value = { KeysBySession };

    ghost view = { λ h. h.keys.items };

    ghost invariant = { λ h. (s : ℕ) → IsDistinct (eq_by_cmp lock_cmp) (keys_of h.keys.items s) };
}

impl HeldKeys {
    /// No key is held.
    pub(crate) fn new(alloc: Global) -> HeldKeys
        ensures { (s : ℕ) (q : LockKey) → has_key result s q ≡ false }
    {
        HeldKeys {
            keys: Vec::new(alloc),
        }
    }

    /// Makes a place for the session.
    fn make_room(&mut self, alloc: Global, who: SessionId) -> Result<(), NoMemory>
        ensures room { OnOk result (who < length self.new) }
        ensures same { KeepsKeys self.old self.new }
    {
        while self.keys.len() <= who as usize {
            self.keys.push(Vec::new(alloc))?;
        }
        Ok(())
    }

    /// Makes room for this key of the session, and copies it, so that a caller has no copy to free if there is no room.
    pub(crate) fn reserve(
        &mut self,
        alloc: Global,
        who: SessionId,
        key: &LockKey,
    ) -> Result<LockKey, NoMemory>
        ensures copy { IfOk result (λ copy. copy ≡ key.now) }
        ensures room { OnOk result (has_room self.new who ≡ true) }
        ensures same { KeepsKeys self.old self.new }
    {
        self.make_room(alloc, who)?;
        self.keys[who as usize].reserve(1)?;
        key.copy(alloc)
    }

    /// Lists the key as one of the session's, for which there is room.
    pub(crate) fn add(&mut self, who: SessionId, key: LockKey)
        requires room { has_room self.old who ≡ true }
        requires new { has_key self.old who key ≡ false }
        ensures { ChangesKey self.old who key true self.new }
    {
        self.keys[who as usize].push_reserved(key);
    }

    /// Removes the key from the session's, if it is one of them.
    pub(crate) fn take(&mut self, who: SessionId, key: &LockKey) -> Option<LockKey>
        ensures none { IfNone result (has_key self.old who key.now ≡ false) }
        ensures some { IfSome result (λ taken. (taken ≡ key.now) × (has_key self.old who key.now ≡ true)) }
        ensures others { ChangesKey self.old who key.now false self.new }
    {
        let who = who as usize;
        if who >= self.keys.len() {
            return None;
        }
        let place = place_of(&self.keys[who], key)?;
        Some(self.keys[who].remove(place))
    }

    /// Removes one of the session's keys, if it has any.
    pub(crate) fn pop(&mut self, who: SessionId) -> Option<LockKey>
        ensures none { IfNone result ((q : LockKey) → has_key self.old who q ≡ false) }
        ensures same { IfNone result (KeepsKeys self.old self.new) }
        ensures some { IfSome result (λ key. has_key self.old who key ≡ true) }
        ensures others { IfSome result (λ key. ChangesKey self.old who key false self.new) }
        ensures fewer { OnSome result (length (keys_of self.new who) < length (keys_of self.old who)) }
    {
        let who = who as usize;
        if who >= self.keys.len() {
            return None;
        }
        self.keys[who].pop()
    }
}

/// Where the key is in the list.
fn place_of(keys: &[LockKey], key: &LockKey) -> Option<usize>
    ensures none { IfNone result (is_among keys.now key.now ≡ false) }
    ensures some { IfSome result (λ place. (place < length keys.now) × (slice_get keys.now place ≡ Some key.now)) }
{
    for (place, one) in keys.iter().enumerate() {
        if one == key {
            return Some(place);
        }
    }
    None
}
