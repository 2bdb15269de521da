ghost use Rattle.std.specs.Prelude.{◌≡◌, ◌<◌, ◌^◌, [], ◌∷◌, ◌++◌, None, Some, length, slice_set, IfOk, OnOk, OnErr};
ghost use Rattle.std.specs.Option.{option_copied};
ghost use Rattle.sky_lock_table.specs.Waiters.{entry_at, waiting_in, packed};

use crate::lock_key::LockKey;
use sky_val::{NoMemory, SessionId};
use std::alloc::Global;
use std::marker::Model;

/// A session, and the key that it waits for.
#[derive(Debug, Drop)]
pub(crate) struct Waiter {
    pub(crate) who: SessionId,
    pub(crate) key: LockKey,
}

/// Those that wait, by arrival.
#[derive(Debug, Drop)]
pub(crate) struct Entries {
    // None if that one has left.
    items: Vec<Option<Waiter>>,

    // How many haven't left.
    count: usize,
}

impl Model for Entries {
    ghost use Rattle.std.specs.Prelude.{◌≡◌, List, Option, length};
    ghost use Rattle.sky_lock_table.specs.declared.entries.Waiter.{Waiter};
    ghost use Rattle.sky_lock_table.specs.Waiters.{waiting_in};

    ghost Value = { List (Option Waiter) };

    ghost view = { λ e. e.items.items };

    ghost invariant = { λ e. e.count ≡ length (waiting_in e.items.items) };
}

impl Entries {
    /// No entries.
    pub(crate) fn new(alloc: Global) -> Entries
        ensures { result ≡ [] }
    {
        Entries {
            items: Vec::new(alloc),
            count: 0,
        }
    }

    /// How many wait.
    pub(crate) fn count(&self) -> usize
        ensures count { result ≡ length (waiting_in self.now) }
        ensures small { result < 2 ^ 63 }
    {
        self.count
    }

    /// A number above all arrivals.
    pub(crate) fn end(&self) -> usize
        ensures { result ≡ length self.now }
    {
        self.items.len()
    }

    /// The one with this arrival, if it hasn't left.
    pub(crate) fn get(&self, arrival: usize) -> Option<&Waiter>
        ensures { option_copied result ≡ entry_at self.now arrival }
    {
        self.items.get(arrival)?.as_ref()
    }

    /// Appends one. The answer is its arrival.
    pub(crate) fn add(&mut self, waiter: Waiter) -> Result<usize, NoMemory>
        ensures arrival { IfOk result (λ arrival. arrival ≡ length self.old) }
        ensures ok { OnOk result (self.new ≡ self.old ++ Some waiter ∷ []) }
        ensures err { OnErr result (self.new ≡ self.old) }
    {
        let arrival = self.items.len();
        self.items.push(Some(waiter))?;
        self.count += 1;
        Ok(arrival)
    }

    /// Removes the one with this arrival, if it hasn't left.
    pub(crate) fn take(&mut self, arrival: usize) -> Option<Waiter>
        ensures value { result ≡ entry_at self.old arrival }
        ensures others { self.new ≡ slice_set self.old arrival None }
    {
        if arrival >= self.items.len() {
            return None;
        }
        let waiter = self.items[arrival].take()?;
        self.count -= 1;
        Some(waiter)
    }

    /// Whether more have left than wait.
    pub(crate) fn is_sparse(&self) -> bool {
        self.items.len() - self.count > self.count
    }

    /// Forgets the arrivals of those that have left. The others have new ones, in the same order.
    pub(crate) fn pack(&mut self)
        ensures { self.new ≡ packed self.old }
    {
        self.items.retain(|entry| entry.is_some());
    }
}
