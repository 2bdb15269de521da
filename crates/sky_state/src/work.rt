//! What can happen to the transactions of workers, which are of no session, and what these read. They hold no key, so
//! nobody waits for them.

ghost use Rattle.std.specs.Prelude.{◌≡◌, ◌<◌, ◌^◌, List, true, false, Option, None, Some, IsSome, is_some, is_none, if◌then◌else◌, IfOk, OnOk, OnErr, length, map, take};
ghost use Rattle.std.specs.Option.{option_copied};
ghost use Rattle.sky_val.specs.declared.val.Val.{Val};
ghost use Rattle.sky_keys.specs.Versions.{above, newest_but, read, rows_read, version_of, versions_at};
ghost use Rattle.sky_txid.specs.Ids.{contains};
ghost use Rattle.sky_model.specs.History.{of_worker, began, ended, tabled, wrote};
ghost use Rattle.sky_model.specs.State.{after_part};
ghost use Rattle.sky_state.specs.Seen.{seen};

use crate::marks::forget_all;
use crate::row_state::RowState;
use sky_txid::Snapshot;
use sky_val::{Key, NoMemory, Row};

impl RowState {
    /// A worker's transaction gets the next id.
    pub fn began_work(&mut self) -> Result<u64, NoMemory>
        requires { (seen self.old).next < 2 ^ 62 }
        ensures id { IfOk result (λ txid. txid ≡ (seen self.old).next) }
        ensures mark { IfOk result (λ txid. seen self.new ≡ after_part (seen self.old) (began of_worker txid)) }
        ensures err { OnErr result (seen self.new ≡ seen self.old) }
    {
        self.workers.reserve(1)?;
        let txid = self.trans.begin()?;
        self.workers.push_reserved(txid);
        Ok(txid)
    }

    /// A worker's transaction commits. It holds no key.
    pub fn committed_work(&mut self, txid: u64)
        requires { contains txid (seen self.old).workers ≡ true }
        ensures { seen self.new ≡ after_part (seen self.old) (ended of_worker txid true) }
    {
        self.workers.retain(|worker| *worker != txid);
        self.trans.commit(txid);
        self.writers.end(txid);
    }

    /// A worker's transaction is rolled back.
    pub fn aborted_work(&mut self, txid: u64)
        requires { contains txid (seen self.old).workers ≡ true }
        ensures { seen self.new ≡ after_part (seen self.old) (ended of_worker txid false) }
    {
        self.workers.retain(|worker| *worker != txid);
        self.trans.abort(txid);
        forget_all(&mut self.tables, txid);
        self.writers.end(txid);
    }

    /// A worker's transaction wrote a key of a table. It may have written the key before, if nobody else has since.
    /// Nobody holds the key, and it doesn't either from then on.
    pub fn wrote_work(
        &mut self,
        txid: u64,
        table: u32,
        key: Key,
        row: Option<Row>,
    ) -> Result<(), NoMemory>
        requires within { table < length (seen self.old).tables }
        requires running { contains txid (seen self.old).workers ≡ true }
        requires free { (seen self.old).holder table key ≡ None }
        requires last { let versions = versions_at key ((seen self.old).versions table) in
            IsSome (version_of txid versions) → newest_but None versions ≡ version_of txid versions }
        ensures ok { (old : Option (List Val)) → OnOk result (seen self.new ≡ after_part (seen self.old) (tabled (wrote of_worker txid table key old row))) }
        ensures err { OnErr result (seen self.new ≡ seen self.old) }
    {
        self.writers.make_room(txid)?;
        let least = self.trans.least().unwrap_or(txid);
        let rows = self.tables.get_mut(table as usize);
        rows.prune(least);
        rows.write(txid, key, row)?;
        self.writers.note(table, txid);
        Ok(())
    }

    /// The same, but only if the key has a row before, as the transaction left it or else in the snapshot, or, if
    /// `needs_row` is false, only if it has none. Answers whether it wrote.
    pub fn wrote_work_if(
        &mut self,
        txid: u64,
        snapshot: &Snapshot,
        table: u32,
        key: Key,
        row: Option<Row>,
        needs_row: bool,
    ) -> Result<bool, NoMemory>
        requires within { table < length (seen self.old).tables }
        requires running { contains txid (seen self.old).workers ≡ true }
        requires free { (seen self.old).holder table key ≡ None }
        requires last { let versions = versions_at key ((seen self.old).versions table) in
            IsSome (version_of txid versions) → newest_but None versions ≡ version_of txid versions }
        ensures made { let before = read snapshot.now (Some txid) (versions_at key ((seen self.old).versions table)) in
            IfOk result (λ made. made ≡ (if needs_row then is_some before else is_none before)) }
        ensures ok { (old : Option (List Val)) → IfOk result (λ made. made ≡ true → seen self.new ≡ after_part (seen self.old) (tabled (wrote of_worker txid table key old row))) }
        ensures unmade { IfOk result (λ made. made ≡ false → seen self.new ≡ seen self.old) }
        ensures err { OnErr result (seen self.new ≡ seen self.old) }
    {
        self.writers.make_room(txid)?;
        let least = self.trans.least().unwrap_or(txid);
        let rows = self.tables.get_mut(table as usize);
        rows.prune(least);
        let is_made = rows.write_if(txid, snapshot, key, row, needs_row)?;
        if !is_made {
            return Ok(false);
        }
        self.writers.note(table, txid);
        Ok(true)
    }

    /// The key's row as the transaction left it, or else in the snapshot.
    pub fn row_of_work(&self, txid: u64, snapshot: &Snapshot, table: u32, key: &Key) -> Option<&Row>
        requires { table < length (seen self.now).tables }
        ensures { option_copied result ≡ read snapshot.now (Some txid) (versions_at key.now ((seen self.now).versions table)) }
    {
        self.table_at(table).read(key, snapshot, Some(txid))
    }

    /// The first `most` rows by key above `after`, or above none, in the snapshot.
    pub fn rows_under(
        &self,
        snapshot: &Snapshot,
        table: u32,
        after: Option<&Key>,
        most: usize,
    ) -> Result<Vec<Row>, NoMemory>
        requires { table < length (seen self.now).tables }
        ensures { let later = above (option_copied after.entry) ((seen self.now).versions table) in
            IfOk result (λ rows. rows.items ≡ take most (map (λ e. e.1) (rows_read snapshot.now None later))) }
    {
        self.table_at(table).scan_from(after, snapshot, None, most)
    }

    /// The keys that have rows in the snapshot, in their order.
    pub fn keys_under(&self, snapshot: &Snapshot, table: u32) -> Result<Vec<Key>, NoMemory>
        requires { table < length (seen self.now).tables }
        ensures { IfOk result (λ keys.
            keys.items ≡ map (λ e. e.0) (rows_read snapshot.now None ((seen self.now).versions table))) }
    {
        self.table_at(table).keys(snapshot, None)
    }
}
