//! Which sessions hold keys, which wait for one, and that a session begins to wait.

ghost use Rattle.std.specs.Prelude.{◌≡◌, ◌↔◌, ◌<◌, [], false, IsTrue, IfOk, IfNone, IfSome, Some, length, option_map};
ghost use Rattle.sky_keys.specs.Waits.{other_holder, is_waiting};
ghost use Rattle.sky_locks.specs.Locks.{entry};
ghost use Rattle.sky_model.specs.History.{tabled, waits};
ghost use Rattle.sky_model.specs.State.{after_part};
ghost use Rattle.sky_model.specs.Settling.{ready};
ghost use Rattle.sky_model.specs.StepLocks.{ring};
ghost use Rattle.sky_state.specs.Seen.{seen, lock_in};

use crate::row_state::RowState;
use sky_locks::LockKey;
use sky_model::{Attempt, Waiters};
use sky_val::{NoMemory, SessionId};

impl RowState {
    /// Where the key's slot among the locks is. It is found there until the locks change.
    pub fn find_lock(&self, key: &LockKey) -> Option<usize>
        ensures { result ≡ lock_in self.now key.now.table key.now.key }
    {
        self.locks.find(key)
    }

    /// The session that holds the key, whose slot is at the place, if it is another one.
    pub fn other_holder(
        &self,
        who: SessionId,
        key: &LockKey,
        place: Option<usize>,
    ) -> Option<SessionId>
        requires { place ≡ lock_in self.now key.now.table key.now.key }
        ensures { result ≡ other_holder (seen self.now).holder who key.now.table key.now.key }
    {
        let holder = self.locks.holder_at(key, place)?;
        if holder == who {
            return None;
        }
        Some(holder)
    }

    /// Whether the session waits for another one's transaction.
    pub fn is_waiting(&self, who: SessionId) -> bool
        ensures { result ≡ is_waiting who (seen self.now).waiting }
    {
        self.locks.waits_on(who).is_some()
    }

    /// Whether nobody waits.
    pub fn is_at_rest(&self) -> bool
        ensures { IsTrue result ↔ ((seen self.now).waiting ≡ []) }
    {
        self.locks.is_at_rest()
    }

    /// The first session in the wait queue whose statement can resume, with the key that it waits for.
    pub fn next_ready(&self) -> Result<Option<(SessionId, LockKey)>, NoMemory>
        ensures found { IfOk result (λ found. option_map (λ f. entry f.0 f.1) found ≡ ready (seen self.now)) }
        ensures within { IfOk result (λ found. IfSome found (λ f. f.1.table < length (seen self.now).tables)) }
    {
        match self.locks.ready() {
            Some((who, key)) => Ok(Some((who, key.copy(self.alloc)?))),
            None => Ok(None),
        }
    }

    /// The session waits for this holder of the key, and makes its attempt when it gets the key. If it would wait for
    /// itself, nothing happens, and the answer is the deadlock cycle.
    pub fn waits(
        &mut self,
        who: SessionId,
        key: &LockKey,
        holder: SessionId,
        attempt: Attempt,
    ) -> Result<Option<Waiters>, NoMemory>
        requires within { key.now.table < length (seen self.old).tables }
        requires held { other_holder (seen self.old).holder who key.now.table key.now.key ≡ Some holder }
        requires awake { is_waiting who (seen self.old).waiting ≡ false }
        ensures ring { IfOk result (λ closed. closed ≡ ring (seen self.old) who holder) }
        ensures mark { IfOk result (λ closed. IfNone closed (seen self.new ≡ after_part (seen self.old) (tabled (waits who key.now.table key.now.key attempt)))) }
        ensures same { IfOk result (λ closed. IfSome closed (λ ring. seen self.new ≡ seen self.old)) }
    {
        if let Some(ring) = self.locks.wait(who, holder, key)? {
            return Ok(Some(Waiters::new(ring.into_sessions())));
        }
        self.attempts.set(who, attempt)?;
        Ok(None)
    }
}
