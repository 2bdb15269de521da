ghost use Rattle.std.specs.Int.{bit_at};
ghost use Rattle.std.specs.Prelude.{◌≡◌, ◌<◌, ◌==◌, ◌&&◌, ◌||◌, not, find, [], IsSome, OnOk, OnErr};
ghost use Rattle.std.specs.Map.{lookup};
ghost use Rattle.std.specs.BTreeMap.{is_at};
ghost use Rattle.std.specs.Ordering.{nat_cmp};
ghost use Rattle.sky_state.specs.Seen.{wrote_in};

use sky_val::NoMemory;
use std::alloc::Global;
use std::collections::BTreeMap;
use std::marker::Model;

/// Which tables the running transactions have written in. Each transaction has one bit for each table, at its number,
/// so there are at most 64 tables.
#[derive(Debug, Drop)]
pub struct Writers {
    tables: BTreeMap<u64, u64>,
}

impl Model for Writers {
    ghost use Rattle.std.specs.Prelude.{ℕ, List};

    ghost Value = { List (ℕ × ℕ) };

    ghost view = { λ w. w.tables.entries };
}

impl Writers {
    /// No transaction has written.
    pub(crate) fn new(alloc: Global) -> Writers
        ensures { result ≡ [] }
    {
        Writers {
            tables: BTreeMap::new(alloc),
        }
    }

    /// The first of these transactions that has written in the table.
    pub(crate) fn first(&self, table: u32, txids: &[u64]) -> Option<u64>
        ensures { result ≡ find (wrote_in self.now table) txids.now }
    {
        txids.iter().copied().find(|txid| self.has(table, *txid))
    }

    /// Whether the transaction has written in the table.
    fn has(&self, table: u32, txid: u64) -> bool
        ensures { result ≡ wrote_in self.now table txid }
    {
        match self.tables.get(&txid) {
            Some(tables) => is_set(*tables, table),
            None => false,
        }
    }

    /// The transaction has written in the table.
    pub(crate) fn add(&mut self, table: u32, txid: u64) -> Result<(), NoMemory>
        requires { table < 64 }
        ensures ok { OnOk result (wrote_in self.new ≡ (λ n t. (table == n && txid == t) || wrote_in self.old n t)) }
        ensures err { OnErr result (self.new ≡ self.old) }
    {
        let tables = self.tables.get(&txid).copied().unwrap_or(0);
        if is_set(tables, table) {
            return Ok(());
        }
        self.tables.insert(txid, tables | 1 << table)?;
        Ok(())
    }

    /// Makes a place for the transaction, so that `note` takes no memory for it.
    pub(crate) fn make_room(&mut self, txid: u64) -> Result<(), NoMemory>
        ensures room { OnOk result (IsSome (lookup (is_at (nat_cmp txid)) self.new)) }
        ensures same { wrote_in self.new ≡ wrote_in self.old }
    {
        if self.tables.get(&txid).is_none() {
            self.tables.insert(txid, 0)?;
        }
        Ok(())
    }

    /// The transaction, which has a place, has written in the table.
    pub(crate) fn note(&mut self, table: u32, txid: u64)
        requires table { table < 64 }
        requires room { IsSome (lookup (is_at (nat_cmp txid)) self.old) }
        ensures { wrote_in self.new ≡ (λ n t. (table == n && txid == t) || wrote_in self.old n t) }
    {
        let Some(tables) = self.tables.get_mut(&txid) else {
            unreachable!()
        };
        *tables |= 1 << table;
    }

    /// The transaction has ended.
    pub(crate) fn end(&mut self, txid: u64)
        ensures { wrote_in self.new ≡ (λ n t. not (txid == t) && wrote_in self.old n t) }
    {
        self.tables.remove(&txid);
    }
}

/// Whether the bit at the table's number is set.
fn is_set(tables: u64, table: u32) -> bool
    ensures { result ≡ (bit_at tables table == 1) }
{
    table < 64 && tables >> table & 1 == 1
}
