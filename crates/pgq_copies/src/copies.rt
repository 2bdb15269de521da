//! The copies that run.

ghost use Rattle.std.specs.Prelude.{◌≡◌, [], ◌∷◌, ◌++◌, OnOk, OnErr};
ghost use Rattle.sky_model.specs.Copies.{copy_txid, without_copy};

use sky_val::NoMemory;
use std::alloc::Global;
use std::marker::Model;

/// A copy of a table that runs: the table's number, and the copy's transaction.
#[derive(Debug, Drop)]
struct Running {
    table: u32,
    txid: u64,
}

impl Model for Running {
    ghost use Rattle.sky_model.specs.Copies.{Copy};

    ghost Value = { Copy };

    ghost view = { λ c. record { table = c.table; txid = c.txid } };
}

/// The copies that run, in the order in which they began.
#[derive(Debug, Drop)]
pub struct Copies {
    running: Vec<Running>,
}

impl Model for Copies {
    ghost use Rattle.std.specs.Prelude.{List};
    ghost use Rattle.sky_model.specs.Copies.{Copy};

    ghost Value = { List Copy };

    ghost view = { λ c. c.running.items };
}

impl Copies {
    /// None.
    pub fn new(alloc: Global) -> Copies
        ensures { result ≡ [] }
    {
        Copies {
            running: Vec::new(alloc),
        }
    }

    /// The transaction of the copy of a table, if one runs.
    pub fn txid_of(&self, table: u32) -> Option<u64>
        ensures { result ≡ copy_txid table self.now }
    {
        let copy = self.running.iter().find(|copy| copy.table == table)?;
        Some(copy.txid)
    }

    /// A copy of a table begins.
    pub fn begin(&mut self, table: u32, txid: u64) -> Result<(), NoMemory>
        ensures ok { OnOk result (self.new ≡ self.old ++ record { table = table; txid = txid } ∷ []) }
        ensures err { OnErr result (self.new ≡ self.old) }
    {
        self.running.push(Running { table, txid })?;
        Ok(())
    }

    /// The copy of this transaction ends.
    pub fn end(&mut self, txid: u64)
        ensures { self.new ≡ without_copy txid self.old }
    {
        self.running.retain(|copy| copy.txid != txid);
    }
}
