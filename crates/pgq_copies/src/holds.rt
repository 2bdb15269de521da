//! The snapshots that are held.

ghost use Rattle.std.specs.Prelude.{◌≡◌, ◌==◌, [], ◌∷◌, ◌++◌, IfOk, OnErr, map, find, option_map, option_copied};
ghost use Rattle.sky_model.specs.Copies.{Hold, without_hold, least_free};

use sky_txid::Snapshot;
use sky_val::NoMemory;
use std::alloc::Global;
use std::marker::Model;

/// A snapshot that is held, and its number.
#[derive(Debug, Drop)]
struct Held {
    number: u64,
    snapshot: Snapshot,
}

impl Model for Held {
    ghost use Rattle.sky_model.specs.Copies.{Hold};

    ghost Value = { Hold };

    ghost view = { λ h. record { number = h.number; snapshot = h.snapshot } };
}

/// The snapshots that are held, in the order in which they were taken.
#[derive(Debug, Drop)]
pub struct Holds {
    held: Vec<Held>,
}

impl Model for Holds {
    ghost use Rattle.std.specs.Prelude.{List};
    ghost use Rattle.sky_model.specs.Copies.{Hold};

    ghost Value = { List Hold };

    ghost view = { λ h. h.held.items };
}

impl Holds {
    /// None.
    pub fn new(alloc: Global) -> Holds
        ensures { result ≡ [] }
    {
        Holds {
            held: Vec::new(alloc),
        }
    }

    /// Holds a snapshot under the least number that no other one has, which it returns.
    pub fn hold(&mut self, snapshot: Snapshot) -> Result<u64, NoMemory>
        ensures number { IfOk result (λ number. number ≡ least_free (map Hold.number self.old)) }
        ensures ok { IfOk result (λ number. self.new ≡ self.old ++ record { number = number; snapshot = snapshot } ∷ []) }
        ensures err { OnErr result (self.new ≡ self.old) }
    {
        let number = self.least_free();
        self.held.push(Held { number, snapshot })?;
        Ok(number)
    }

    /// The least number that no hold has.
    fn least_free(&self) -> u64
        ensures { result ≡ least_free (map Hold.number self.now) }
    {
        let count = self.held.len() as u64;
        for number in 0..count {
            if self.get(number).is_none() {
                return number;
            }
        }
        count
    }

    /// Lets the hold of a number go, if there is one.
    pub fn let_go(&mut self, number: u64)
        ensures { self.new ≡ without_hold number self.old }
    {
        self.held.retain(|held| held.number != number);
    }

    /// The snapshot that is held under a number.
    pub fn get(&self, number: u64) -> Option<&Snapshot>
        ensures { option_copied result ≡ option_map Hold.snapshot (find (λ (x : Hold). x.number == number) self.now) }
    {
        let held = self.held.iter().find(|held| held.number == number)?;
        Some(&held.snapshot)
    }
}
