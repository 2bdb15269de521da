ghost use Rattle.std.specs.Prelude.{◌≡◌, ℕ, ◌<◌, true, false, not, nat_lt, ◌==◌, ◌||◌, List, IfOk, OnOk, slice_get, option_map};
ghost use Rattle.std.specs.Ordering.{nat_cmp};
ghost use Rattle.std.specs.Option.{option_map_or};
ghost use Rattle.std.specs.BTreeMap.{get};
ghost use Rattle.sky_rows.specs.Written.{is_unindexed, wrote, writer};
ghost use Rattle.sky_val.specs.declared.val.Val.{Val};

use sky_val::{Key, NoMemory};
use std::alloc::Global;
use std::collections::{BTreeMap, BTreeSet};

/// Which keys each transaction wrote, of those from `from` on. The keys of one of them, the unindexed one, aren't known.
/// So this one, and any before `from`, may have written every key.
#[derive(Debug, Drop)]
pub(crate) struct Written {
    from: u64,
    unindexed: Option<u64>,
    keys: BTreeMap<u64, BTreeSet<Key>>,
}

impl Written {
    /// None.
    pub(crate) fn new(alloc: Global) -> Written
        ensures { (t : ℕ) (key : List Val) → wrote result t key ≡ false }
    {
        Written {
            from: 0,
            unindexed: None,
            keys: BTreeMap::new(alloc),
        }
    }

    /// Whether it is known which keys the transaction wrote.
    pub(crate) fn tells(&self, txid: u64) -> bool
        ensures { result ≡ not (nat_lt txid self.now.from || is_unindexed self.now.unindexed txid) }
    {
        self.from <= txid && self.unindexed != Some(txid)
    }

    /// From now on the transaction's keys aren't indexed, unless some are already, or another transaction that wasn't pruned
    /// is unindexed. Answers whether this begins here.
    pub(crate) fn unindex(&mut self, txid: u64) -> bool
        ensures none { (q : List Val) → result ≡ true → wrote self.old txid q ≡ false }
        ensures unindexed { (q : List Val) → result ≡ true → wrote self.new txid q ≡ true }
        ensures kept { (t : ℕ) (q : List Val)
            → wrote self.new t q ≡ false → wrote self.old t q ≡ false }
    {
        if !self.tells(txid) || self.keys.get(&txid).is_some() || self.has_unindexed() {
            return false;
        }
        self.unindexed = Some(txid);
        true
    }

    /// Whether a transaction that wasn't pruned is unindexed.
    fn has_unindexed(&self) -> bool
        ensures { result ≡ option_map_or (λ t. not (nat_lt t self.now.from)) self.now.unindexed false }
    {
        match self.unindexed {
            Some(txid) => self.from <= txid,
            None => false,
        }
    }

    /// Whether the transaction may have written the key.
    pub(crate) fn has(&self, txid: u64, key: &Key) -> bool
        ensures { result ≡ wrote self.now txid key.now }
    {
        if !self.tells(txid) {
            return true;
        }
        match self.keys.get(&txid) {
            Some(keys) => keys.contains(key),
            None => false,
        }
    }

    /// The transaction that reads, if it may have written the key.
    pub(crate) fn writer(&self, own: Option<u64>, key: &Key) -> Option<u64>
        ensures { result ≡ writer (wrote self.now) own key.now }
    {
        match own {
            Some(txid) if self.has(txid, key) => Some(txid),
            _ => None,
        }
    }

    /// Indexes the key among those that the transaction wrote, and answers whether it may have been there already.
    /// Nothing is forgotten, not after an error either.
    pub(crate) fn add(&mut self, alloc: Global, txid: u64, key: &Key) -> Result<bool, NoMemory>
        ensures again { IfOk result (λ again. again ≡ wrote self.old txid key.now) }
        ensures indexed { OnOk result (wrote self.new txid key.now ≡ true) }
        ensures kept { (t : ℕ) (q : List Val)
            → wrote self.new t q ≡ false → wrote self.old t q ≡ false }
    {
        if !self.tells(txid) {
            return Ok(true);
        }
        let key = key.copy(alloc)?;
        if let Some(keys) = self.keys.get_mut(&txid) {
            let is_new = keys.insert(key)?;
            return Ok(!is_new);
        }
        let mut keys = BTreeSet::new(alloc);
        keys.insert(key)?;
        self.keys.insert(txid, keys)?;
        Ok(false)
    }

    /// Removes what the transaction wrote.
    pub(crate) fn take(&mut self, txid: u64) -> Option<BTreeSet<Key>>
        ensures taken { result ≡ get nat_cmp self.old.keys txid }
        ensures others { (t : ℕ) (q : List Val)
            → (t == txid) ≡ false → wrote self.new t q ≡ wrote self.old t q }
    {
        self.keys.remove(&txid)
    }

    /// Forgets which keys the transactions below this one wrote.
    pub(crate) fn prune(&mut self, below: u64)
        ensures kept { (t : ℕ) (q : List Val)
            → wrote self.new t q ≡ false → wrote self.old t q ≡ false }
        ensures forgotten { (t : ℕ) (q : List Val) → t < below → wrote self.new t q ≡ true }
    {
        if below <= self.from {
            return;
        }
        self.from = below;
        while let Some(first) = self.first() {
            if first >= below {
                break;
            }
            self.keys.pop_first();
        }
    }

    /// The first transaction of which keys are indexed.
    fn first(&self) -> Option<u64>
        ensures { result ≡ option_map (λ e. e.0) (slice_get self.now.keys.entries 0) }
    {
        let (txid, _) = self.keys.first_key_value()?;
        Some(*txid)
    }
}
