ghost use Rattle.std.specs.Prelude.{◌≡◌, ◌==◌, ◌||◌, not, List, [], map, take, true, false, None, Some, is_some, is_none, if◌then◌else◌, IsSome, IsTrue, IfOk, OnOk, OnErr};
ghost use Rattle.std.specs.List.{list_any};
ghost use Rattle.std.specs.BTreeMap.{is_at};
ghost use Rattle.std.specs.Option.{option_copied};
ghost use Rattle.std.specs.BTreeSet.{contains};
ghost use Rattle.sky_val.specs.Order.{key_cmp};
ghost use Rattle.sky_val.specs.Entries.{at, is_in_order};
ghost use Rattle.sky_txid.specs.Snapshot.{sees};
ghost use Rattle.sky_keys.specs.Versions.{version_of, newest_by, newest_but, read, versions_at, written, forgotten, rows_read, above};
ghost use Rattle.sky_val.specs.declared.val.Val.{Val};
ghost use Rattle.sky_rows.specs.Table.{place_in, forgotten_at};
ghost use Rattle.sky_rows.specs.Written.{AllKept};
ghost use Rattle.sky_rows.specs.Kept.{all_versions, AreOwn};
ghost use Rattle.sky_rows.specs.Rows.{rows_in};

use crate::kept::Standing;
use crate::log::{Log, drop_below, index_or_log, log_own, take_logged};
use crate::older::Older;
use crate::rows::Rows;
use crate::written::Written;
use sky_keys::Version;
use sky_txid::Snapshot;
use sky_val::{Key, NoMemory, Row, Schema};
use std::alloc::Global;
use std::collections::BTreeSet;
use std::marker::Model;
use std::ops::Bound;

/// The rows of a table, in the versions that transactions left of them.
#[derive(Debug, Drop)]
pub struct Table {
    alloc: Global,
    schema: Schema,

    // Each key's newest version is kept with it, and the others in its list of `older`.
    rows: Rows,
    older: Older,

    // By it a transaction that has no version at a key need not look through all versions there, and `forget` visits no
    // key but its own. Of a transaction that was pruned or is unindexed it knows nothing: its version is looked for at the
    // key, and `forget` visits the keys in the log if it has that transaction's, else all.
    written: Written,

    // The keys of the one transaction that `written` doesn't index.
    log: Option<Log>,
}

impl Model for Table {
    ghost use Rattle.sky_rows.specs.Table.{TableView};
    ghost use Rattle.sky_rows.specs.Written.{wrote, logged, AllKept};
    ghost use Rattle.sky_rows.specs.Kept.{all_versions, AreOwn};
    ghost use Rattle.sky_rows.specs.Rows.{rows_in};

    ghost Value = { TableView };

    ghost view = { λ t. record { columns = t.schema; versions = all_versions t.older (rows_in t.rows); places = t.rows.places } };

    ghost invariant = { λ t. AreOwn t.older (rows_in t.rows)
        × AllKept (wrote t.written) (all_versions t.older (rows_in t.rows))
        × AllKept (logged t.log) (all_versions t.older (rows_in t.rows)) };
}

impl Table {
    /// A table of these columns, with no rows.
    pub fn new(alloc: Global, schema: Schema) -> Table
        ensures { result ≡ record { columns = schema; versions = []; places = [] } }
    {
        Table {
            alloc,
            schema,
            rows: Rows::new(alloc),
            older: Older::new(alloc),
            written: Written::new(alloc),
            log: None,
        }
    }

    /// The columns.
    pub fn schema(&self) -> &Schema
        ensures { result.now ≡ self.now.columns }
    {
        &self.schema
    }

    /// The place of the key, if it has a version. It is found there until the table changes.
    pub fn find(&self, key: &Key) -> Option<usize>
        ensures place { result ≡ place_in self.now key.now }
        ensures known { is_some result ≡ is_some (at key.now self.now.versions) }
    {
        self.rows.place(key)
    }

    /// The row at the key, by the visibility rule: the reading transaction's own version if it wrote the key, which its
    /// snapshot doesn't see; or else the newest version that the snapshot sees. No test for a commit is needed: a
    /// snapshot sees only ended transactions, and callers `forget` one that is rolled back. They let one transaction at
    /// a time write a key, so its versions are in the order of their commits.
    pub fn read(&self, key: &Key, snapshot: &Snapshot, own: Option<u64>) -> Option<&Row>
        ensures { option_copied result
            ≡ read snapshot.now own (versions_at key.now self.now.versions) }
    {
        self.read_at(self.find(key), key, snapshot, own)
    }

    /// The same at a key that was found.
    pub fn read_at(
        &self,
        place: Option<usize>,
        key: &Key,
        snapshot: &Snapshot,
        own: Option<u64>,
    ) -> Option<&Row>
        requires { place ≡ place_in self.now key.now }
        ensures { option_copied result
            ≡ read snapshot.now own (versions_at key.now self.now.versions) }
    {
        let kept = self.rows.found(place)?;
        kept.read(&self.older, snapshot, self.written.writer(own, key))
    }

    /// The newest version at the key that isn't of this transaction.
    pub fn newest(&self, key: &Key, except: Option<u64>) -> Option<&Version>
        ensures { option_copied result ≡ newest_but except (versions_at key.now self.now.versions) }
    {
        self.rows.found(self.find(key))?.newest(&self.older, except)
    }

    /// The newest version that the snapshot sees at the key that was found.
    pub fn newest_seen_at(&self, place: Option<usize>, snapshot: &Snapshot) -> Option<&Version>
        ensures { (key : List Val) → place ≡ place_in self.now key
            → option_copied result ≡ newest_by (sees snapshot.now) (versions_at key self.now.versions) }
    {
        self.rows.found(place)?.newest_seen(&self.older, snapshot)
    }

    /// Whether the transaction has a version at the key, which was found.
    pub fn has_own_at(&self, place: Option<usize>, key: &Key, txid: u64) -> bool
        requires { place ≡ place_in self.now key.now }
        ensures { result ≡ is_some (version_of txid (versions_at key.now self.now.versions)) }
    {
        if !self.written.has(txid, key) {
            return false;
        }
        match self.rows.found(place) {
            Some(kept) => kept.own(&self.older, txid).is_some(),
            None => false,
        }
    }

    /// The first `most` rows by key above `after`, or above none, as `read` gives them.
    pub fn scan_from(
        &self,
        after: Option<&Key>,
        snapshot: &Snapshot,
        own: Option<u64>,
        most: usize,
    ) -> Result<Vec<Row>, NoMemory>
        ensures { let later = above (option_copied after.entry) self.now.versions in
            IfOk result (λ found.
            found.items ≡ take most (map (λ e. e.1) (rows_read snapshot.now own later))) }
    {
        let start = match after {
            Some(key) => Bound::Excluded(key),
            None => Bound::Unbounded,
        };
        let mut found = Vec::new(self.alloc);
        for (key, place) in self.rows.places().range((start, Bound::Unbounded)) {
            if found.len() == most {
                break;
            }
            if let Some(row) = self.read_at(Some(*place), key, snapshot, own) {
                found.push(row.copy(self.alloc)?)?;
            }
        }
        Ok(found)
    }

    /// The keys that have rows, in their order, as `read` gives them.
    pub fn keys(&self, snapshot: &Snapshot, own: Option<u64>) -> Result<Vec<Key>, NoMemory>
        ensures { IfOk result (λ found. found.items ≡ map (λ e. e.0) (rows_read snapshot.now own self.now.versions)) }
    {
        let mut found = Vec::new(self.alloc);
        for (key, place) in self.rows.places() {
            if self.read_at(Some(*place), key, snapshot, own).is_some() {
                found.push(key.copy(self.alloc)?)?;
            }
        }
        Ok(found)
    }

    /// Writes the row at the key, or none to delete it, as a version of the transaction. If it has one at the key
    /// already, this takes its place.
    pub fn write(&mut self, txid: u64, key: Key, row: Option<Row>) -> Result<(), NoMemory>
        ensures ok { OnOk result
            (self.new ≡ record self.old { versions = written txid key row self.old.versions; places = self.new.places }) }
        ensures err { OnErr result (self.new ≡ self.old) }
    {
        let place = self.find(&key);
        self.write_at(place, txid, key, row)
    }

    /// The same at a key that was found.
    pub fn write_at(
        &mut self,
        place: Option<usize>,
        txid: u64,
        key: Key,
        row: Option<Row>,
    ) -> Result<(), NoMemory>
        requires { place ≡ place_in self.old key }
        ensures ok { OnOk result
            (self.new ≡ record self.old { versions = written txid key row self.old.versions; places = self.new.places }) }
        ensures err { OnErr result (self.new ≡ self.old) }
    {
        let again = self.written.add(self.alloc, txid, &key)?;
        log_own(&mut self.log, self.alloc, txid, &key)?;
        self.rows
            .put(&mut self.older, place, key, Version { txid, row }, again)
    }

    /// The same for a transaction that ends with it while no other one runs. No key of it is indexed or logged, and those of
    /// all before it are forgotten, as by `prune`: if one of these does run, what it wrote is then looked for in the
    /// versions, and `forget` goes through all keys for it.
    pub fn write_last_at(
        &mut self,
        place: Option<usize>,
        txid: u64,
        key: Key,
        row: Option<Row>,
    ) -> Result<(), NoMemory>
        requires { place ≡ place_in self.old key }
        ensures ok { OnOk result
            (self.new ≡ record self.old { versions = written txid key row self.old.versions; places = self.new.places }) }
        ensures err { OnErr result (self.new ≡ self.old) }
    {
        let Some(next) = txid.checked_add(1) else {
            return self.write_at(place, txid, key, row);
        };
        let again = self.written.has(txid, &key);
        self.written.prune(next);
        drop_below(&mut self.log, next);
        self.rows
            .put(&mut self.older, place, key, Version { txid, row }, again)
    }

    /// The same as `write`, but only if the key has a row before, as `read` gives it to the transaction, or, if `needs_row`
    /// is false, only if it has none. Answers whether it was written. The key is found once, and if the transaction's keys
    /// are logged, it isn't looked for among them.
    pub fn write_if(
        &mut self,
        txid: u64,
        snapshot: &Snapshot,
        key: Key,
        row: Option<Row>,
        needs_row: bool,
    ) -> Result<bool, NoMemory>
        requires last { let versions = versions_at key self.old.versions in
            IsSome (version_of txid versions) → newest_but None versions ≡ version_of txid versions }
        ensures made { let before = read snapshot.now (Some txid) (versions_at key self.old.versions) in
            IfOk result (λ made. made ≡ (if needs_row then is_some before else is_none before)) }
        ensures ok { IfOk result (λ made. made ≡ true
            → self.new ≡ record self.old { versions = written txid key row self.old.versions; places = self.new.places }) }
        ensures unmade { IfOk result (λ made. made ≡ false → self.new ≡ self.old) }
        ensures err { OnErr result (self.new ≡ self.old) }
    {
        let place = self.find(&key);
        let at = self.standing_at(place, &key, snapshot, txid);
        if at.has_row != needs_row {
            return Ok(false);
        }
        self.write_known(place, txid, key, row, at.has_own)?;
        Ok(true)
    }

    /// The same as `write_at`, for a caller that knows whether the transaction has a version at the key. If its keys are
    /// logged, the key isn't looked for among them.
    #[inline(always)]
    fn write_known(
        &mut self,
        place: Option<usize>,
        txid: u64,
        key: Key,
        row: Option<Row>,
        has_own: bool,
    ) -> Result<(), NoMemory>
        requires place { place ≡ place_in self.old key }
        requires own { has_own ≡ is_some (version_of txid (versions_at key self.old.versions)) }
        ensures ok { OnOk result
            (self.new ≡ record self.old { versions = written txid key row self.old.versions; places = self.new.places }) }
        ensures err { OnErr result (self.new ≡ self.old) }
    {
        let logged = key.copy(self.alloc)?;
        index_or_log(&mut self.written, &mut self.log, self.alloc, txid, logged)?;
        self.rows.put(&mut self.older, place, key, Version { txid, row }, has_own)
    }

    /// How the transaction stands at the key, which was found, if only the newest version may be its own.
    #[inline(always)]
    fn standing_at(
        &self,
        place: Option<usize>,
        key: &Key,
        snapshot: &Snapshot,
        txid: u64,
    ) -> Standing
        requires place { place ≡ place_in self.now key.now }
        requires last { let versions = versions_at key.now self.now.versions in
            IsSome (version_of txid versions) → newest_but None versions ≡ version_of txid versions }
        ensures own { result.has_own ≡ is_some (version_of txid (versions_at key.now self.now.versions)) }
        ensures row { result.has_row ≡ is_some (read snapshot.now (Some txid) (versions_at key.now self.now.versions)) }
    {
        match self.rows.found(place) {
            Some(kept) => kept.standing(&self.older, snapshot, txid),
            None => Standing {
                has_own: false,
                has_row: false,
            },
        }
    }

    /// Removes all versions of the transaction. A key that is left without any is removed too.
    pub fn forget(&mut self, txid: u64)
        ensures { self.new ≡ record self.old { versions = forgotten txid self.old.versions; places = self.new.places } }
    {
        if let Some(keys) = take_logged(&mut self.log, txid) {
            forget_logged(&mut self.rows, &mut self.older, &keys, txid);
        } else if !self.written.tells(txid) {
            forget_everywhere(&mut self.rows, &mut self.older, txid);
        } else if let Some(keys) = self.written.take(txid) {
            forget_all(&mut self.rows, &mut self.older, &keys, txid);
        }
    }

    /// Forgets which keys the transactions below this one wrote, though no version of them. What is asked of one of
    /// them from now on is looked for in the versions, which costs more: let `below` be the least transaction that may
    /// still write or be forgotten.
    pub fn prune(&mut self, below: u64)
        ensures { self.new ≡ self.old }
    {
        self.written.prune(below);
        drop_below(&mut self.log, below);
    }
}

/// Removes the transaction's versions, which are all at these keys, and the keys with their last.
fn forget_all(rows: &mut Rows, older: &mut Older, keys: &BTreeSet<Key>, txid: u64)
    requires kept { AllKept (λ t key. not (t == txid) || contains key_cmp keys.now key) (all_versions older.old (rows_in rows.old)) }
    requires own { AreOwn older.old (rows_in rows.old) }
    ensures entries { all_versions older.new (rows_in rows.new) ≡ forgotten txid (all_versions older.old (rows_in rows.old)) }
    ensures own { AreOwn older.new (rows_in rows.new) }
{
    for key in keys {
        forget_at(rows, older, key, txid);
    }
}

/// The same, if the keys were logged.
fn forget_logged(rows: &mut Rows, older: &mut Older, keys: &[Key], txid: u64)
    requires kept { AllKept (λ t key. not (t == txid) || list_any (is_at (key_cmp key)) keys.now) (all_versions older.old (rows_in rows.old)) }
    requires own { AreOwn older.old (rows_in rows.old) }
    ensures entries { all_versions older.new (rows_in rows.new) ≡ forgotten txid (all_versions older.old (rows_in rows.old)) }
    ensures own { AreOwn older.new (rows_in rows.new) }
{
    for key in keys {
        forget_at(rows, older, key, txid);
    }
}

/// Removes the transaction's versions, at whatever keys they are, and the keys with their last.
fn forget_everywhere(rows: &mut Rows, older: &mut Older, txid: u64)
    requires kept { AllKept (λ _ _. true) (all_versions older.old (rows_in rows.old)) }
    requires own { AreOwn older.old (rows_in rows.old) }
    ensures entries { all_versions older.new (rows_in rows.new) ≡ forgotten txid (all_versions older.old (rows_in rows.old)) }
    ensures own { AreOwn older.new (rows_in rows.new) }
{
    for place in 0..rows.end() {
        rows.forget(older, place, txid);
    }
}

/// Removes the transaction's version at the key, and the key with its last.
fn forget_at(rows: &mut Rows, older: &mut Older, key: &Key, txid: u64)
    requires { AreOwn older.old (rows_in rows.old) }
    ensures entries { all_versions older.new (rows_in rows.new) ≡ forgotten_at txid key.now (all_versions older.old (rows_in rows.old)) }
    ensures own { AreOwn older.new (rows_in rows.new) }
    ensures in_order { IsTrue (is_in_order (all_versions older.old (rows_in rows.old))) }
{
    if let Some(place) = rows.place(key) {
        rows.forget(older, place, txid);
    }
}
