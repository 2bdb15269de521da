//! The copies of tables from another database that run in this one: each writes in one transaction, which no session
//! sees before it ends.

ghost use Rattle.std.specs.Prelude.{◌≡◌, ◌<◌, false, true, Some, IfSome, List, ℕ};
ghost use Rattle.sky_txid.specs.Ids.{contains};
ghost use Rattle.sky_model.specs.Copies.{copy_txid};
ghost use Rattle.sky_model.specs.History.{of_copy, ended};
ghost use Rattle.sky_model.specs.State.{after_mark, after_marks};
ghost use Rattle.sky_model.specs.StepCopy.{given_up};
ghost use Rattle.pgq_parts.specs.Seen.{seen_database};

use crate::db::Db;
use sky_model::WriteGate;
use sky_row_store::RowStore;

impl<R: RowStore> Db<R> {
    /// The copy of the table of a number is given up, if one runs.
    pub(crate) fn give_up_copy(&mut self, number: u32)
        requires { IfSome (copy_txid number (seen_database self.old).copies) (λ txid. contains txid (seen_database self.old).part.workers ≡ true) }
        ensures { (name : List ℕ) → seen_database self.new ≡ after_marks (seen_database self.old) (given_up number name (copy_txid number (seen_database self.old).copies)) }
    {
        if let Some(txid) = self.node.copies.txid_of(number) {
            self.roll_back_copy(txid);
        }
    }

    /// The transaction of a copy commits.
    pub(crate) fn commit_copy(&mut self, txid: u64)
        requires { contains txid (seen_database self.old).part.workers ≡ true }
        ensures { (table : ℕ) → seen_database self.new ≡ after_mark (seen_database self.old) (ended (of_copy table) txid true) }
    {
        self.rows.end_worker(txid, true);
        self.node.copies.end(txid);
    }

    /// The transaction of a copy rolls back.
    fn roll_back_copy(&mut self, txid: u64)
        requires { contains txid (seen_database self.old).part.workers ≡ true }
        ensures { (table : ℕ) → seen_database self.new ≡ after_mark (seen_database self.old) (ended (of_copy table) txid false) }
    {
        self.rows.end_worker(txid, false);
        self.queues.rolled_back(txid);
        self.node.copies.end(txid);
    }
}
