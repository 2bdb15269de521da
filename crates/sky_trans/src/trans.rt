ghost use Rattle.std.specs.Prelude.{◌≡◌, ◌==◌, ◌↔◌, ◌+◌, ◌^◌, ◌<◌, ◌≤◌, [], ◌∷◌, ◌++◌, false, not, slice_get, IsTrue, IfOk, IfSome, OnOk, OnErr};
ghost use Rattle.std.specs.List.{filter, All};
ghost use Rattle.sky_txid.specs.Ids.{contains};
ghost use Rattle.sky_txid.specs.Snapshot.{snapshot_of};
ghost use Rattle.sky_trans.specs.Trans.{is_trans};

use sky_txid::Snapshot;
use sky_val::NoMemory;
use std::alloc::{AllocError, Global};
use std::marker::Model;
use thiserror::Error;

/// The first id of a database.
const FIRST_TXID: u64 = 3;

/// The number after the last id.
const TXID_END: u64 = 1 << 62;

/// Why no id was given.
#[derive(Clone, Copy, Debug, PartialEq, Eq, Error)]
pub enum TransFault {
    /// The last id, 2^62 - 1, was given.
    #[error("all transaction ids were given")]
    TxidsSpent,
    /// Out of memory.
    #[error("out of memory")]
    NoMemory,
}

impl From<AllocError> for TransFault {
    ghost use Rattle.sky_trans.specs.declared.trans.TransFault.TheVariants.{NoMemory};

    ghost from_gives = { λ _ fault. fault ≡ NoMemory };

    fn from(_: AllocError) -> TransFault {
        TransFault::NoMemory
    }
}

/// The transactions that have begun.
#[derive(Debug, Drop)]
pub struct Trans {
    alloc: Global,
    next: u64,
    running: Vec<u64>,
}

impl Model for Trans {
    ghost use Rattle.std.specs.Prelude.{IsTrue};
    ghost use Rattle.sky_trans.specs.Trans.{TransView, is_trans};

    ghost Value = { TransView };

    ghost view = { λ t. record { next = t.next; running = t.running.items } };

    ghost invariant = { λ t.
        IsTrue (is_trans (record { next = t.next; running = t.running.items })) };
}

impl Trans {
    /// No transaction has begun. The first id is 3.
    pub fn new(alloc: Global) -> Trans
        ensures { result ≡ record { next = 3; running = [] } }
    {
        Trans {
            alloc,
            next: FIRST_TXID,
            running: Vec::new(alloc),
        }
    }

    /// Begins a transaction: gives it the next id.
    pub fn assign(&mut self) -> Result<u64, TransFault>
        ensures id { IfOk result (λ t. t ≡ self.old.next) }
        ensures fresh { IfOk result (λ t. contains t self.old.running ≡ false) }
        ensures ok { let t = self.old.next in
            OnOk result (self.new ≡ record { next = t + 1; running = self.old.running ++ t ∷ [] }) }
        ensures spent { (result ≡ Err TransFault.TxidsSpent) ↔ (2 ^ 62 ≤ self.old.next) }
        ensures err { OnErr result (self.new ≡ self.old) }
    {
        if !self.id_left() {
            return Err(TransFault::TxidsSpent);
        }
        Ok(self.begin()?)
    }

    /// The same, if an id is left.
    pub fn begin(&mut self) -> Result<u64, NoMemory>
        requires { self.old.next < 2 ^ 62 }
        ensures id { IfOk result (λ t. t ≡ self.old.next) }
        ensures fresh { IfOk result (λ t. contains t self.old.running ≡ false) }
        ensures ok { let t = self.old.next in
            OnOk result (self.new ≡ record { next = t + 1; running = self.old.running ++ t ∷ [] }) }
        ensures err { OnErr result (self.new ≡ self.old) }
    {
        let t = self.next;
        self.running.push(t)?;
        self.next += 1;
        Ok(t)
    }

    /// Gives the next id to a transaction that ends at once, so it is never among the running ones.
    pub fn spend(&mut self) -> u64
        requires { self.old.next < 2 ^ 62 }
        ensures id { result ≡ self.old.next }
        ensures fresh { contains result self.old.running ≡ false }
        ensures next { self.new ≡ record self.old { next = self.old.next + 1 } }
    {
        let t = self.next;
        self.next = t + 1;
        t
    }

    /// Ends a transaction whose writes stay.
    pub fn commit(&mut self, t: u64)
        requires { IsTrue (contains t self.old.running) }
        ensures { self.new ≡ record self.old { running = filter (λ u. not (u == t)) self.old.running } }
    {
        self.end(t);
    }

    /// Ends a transaction whose writes are undone.
    pub fn abort(&mut self, t: u64)
        requires { IsTrue (contains t self.old.running) }
        ensures { self.new ≡ record self.old { running = filter (λ u. not (u == t)) self.old.running } }
    {
        self.end(t);
    }

    /// Removes the id from the running ones.
    fn end(&mut self, t: u64)
        requires { IsTrue (contains t self.old.running) }
        ensures { self.new ≡ record self.old { running = filter (λ u. not (u == t)) self.old.running } }
    {
        if let Ok(place) = self.running.binary_search(&t) {
            self.running.remove(place);
        }
    }

    /// Whether the transaction is running.
    pub fn running(&self, t: u64) -> bool
        ensures { result ≡ contains t self.now.running }
    {
        self.running.binary_search(&t).is_ok()
    }

    /// Whether there is an id for the next transaction.
    pub fn id_left(&self) -> bool
        ensures { IsTrue result ↔ (self.now.next < 2 ^ 62) }
    {
        self.next < TXID_END
    }

    /// The id that the next transaction gets, or the number after the last id.
    pub fn next_id(&self) -> u64
        ensures value { result ≡ self.now.next }
        ensures sound { IsTrue (is_trans self.now) }
    {
        self.next
    }

    /// The running ids, in rising order.
    pub fn ids(&self) -> &[u64]
        ensures { result.now ≡ self.now.running }
    {
        self.running.as_slice()
    }

    /// The least running id.
    pub fn least(&self) -> Option<u64>
        ensures value { result ≡ slice_get self.now.running 0 }
        ensures least { IfSome result (λ t. All (λ u. t ≤ u) self.now.running) }
    {
        self.running.first().copied()
    }

    /// The present snapshot: which transactions have ended.
    pub fn snapshot(&self) -> Result<Snapshot, NoMemory>
        ensures { IfOk result (λ snapshot. snapshot ≡ snapshot_of self.now.next self.now.running) }
    {
        Snapshot::of(self.alloc, self.next, &self.running)
    }
}
