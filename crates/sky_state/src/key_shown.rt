//! What a session sees of a table, and of each key. The rule is PostgreSQL's: a session sees its own transaction's
//! writes, and of the others those that had committed when its snapshot was taken. A read committed session reads by
//! the present snapshot, a repeatable read block by the snapshot of its first statement that reads or writes.
//!
//! Each part is read by a method of its own, so that a statement reads no more than it needs.

ghost use Rattle.std.specs.Prelude.{◌≡◌, ◌<◌, IfOk, is_some, length, map};
ghost use Rattle.std.specs.Option.{option_copied};
ghost use Rattle.sky_keys.specs.Versions.{versions_at, own_version};
ghost use Rattle.sky_model.specs.ShownRows.{snapshot_now, snapshot_for, rows_by};
ghost use Rattle.sky_state.specs.Seen.{seen, found_in};

use crate::row_state::RowState;
use sky_txid::Snapshot;
use sky_val::{Key, NoMemory, Row, SessionId};

impl RowState {
    /// The snapshot that the session reads by; `now` is the present one.
    pub(crate) fn sight<'a>(&'a self, who: SessionId, now: &'a Snapshot) -> &'a Snapshot
        requires { now.now ≡ snapshot_now (seen self.now) }
        ensures { result.now ≡ snapshot_for (seen self.now) ((seen self.now).session who) }
    {
        match self.place(who) {
            Some(place) => place,
            None => now,
        }
    }

    /// Where the table has the key. It is found there until the table changes.
    pub fn find(&self, table: u32, key: &Key) -> Option<usize>
        requires { table < length (seen self.now).tables }
        ensures { result ≡ found_in self.now table key.now }
    {
        self.table_at(table).find(key)
    }

    /// The key's row in the session's snapshot, or as its own transaction left it.
    pub fn row_shown(
        &self,
        who: SessionId,
        table: u32,
        key: &Key,
        place: Option<usize>,
        now: &Snapshot,
    ) -> Option<&Row>
        requires within { table < length (seen self.now).tables }
        requires found { place ≡ found_in self.now table key.now }
        requires now { now.now ≡ snapshot_now (seen self.now) }
        ensures { option_copied result ≡ ((rows_by (seen self.now)).key who table key.now).row }
    {
        let sight = self.sight(who, now);
        self.table_at(table)
            .read_at(place, key, sight, self.own_txid(who))
    }

    /// The table's rows in the session's snapshot, or as its own transaction left them, by key.
    pub fn rows_shown(
        &self,
        who: SessionId,
        table: u32,
        now: &Snapshot,
    ) -> Result<Vec<Row>, NoMemory>
        requires within { table < length (seen self.now).tables }
        requires now { now.now ≡ snapshot_now (seen self.now) }
        ensures { IfOk result (λ rows. rows.items ≡ map (λ e. e.1) ((rows_by (seen self.now)).rows who table)) }
    {
        let sight = self.sight(who, now);
        let own = self.own_txid(who);
        let rows = self
            .table_at(table)
            .scan_from(None, sight, own, usize::MAX)?;
        Ok(rows)
    }

    /// Whether the key has a row now, or as the session's own transaction left it. An insert asks this, at both
    /// isolation levels: a key is a duplicate whether the session's snapshot sees it or not.
    pub fn has_standing(
        &self,
        who: SessionId,
        table: u32,
        key: &Key,
        place: Option<usize>,
        now: &Snapshot,
    ) -> bool
        requires within { table < length (seen self.now).tables }
        requires found { place ≡ found_in self.now table key.now }
        requires now { now.now ≡ snapshot_now (seen self.now) }
        ensures { result ≡ is_some ((rows_by (seen self.now)).key who table key.now).standing }
    {
        let standing = self
            .table_at(table)
            .read_at(place, key, now, self.own_txid(who));
        standing.is_some()
    }

    /// Whether the session's transaction has written the key.
    fn has_written(&self, who: SessionId, table: u32, key: &Key, place: Option<usize>) -> bool
        requires within { table < length (seen self.now).tables }
        requires found { place ≡ found_in self.now table key.now }
        ensures { result ≡ is_some (own_version ((seen self.now).session who).txid (versions_at key.now ((seen self.now).versions table))) }
    {
        match self.own_txid(who) {
            Some(txid) => self.table_at(table).has_own_at(place, key, txid),
            None => false,
        }
    }

    /// The transaction of the key's newest committed write, if the session's snapshot doesn't see it and its own
    /// transaction hasn't written the key. A change of the key's row would then overwrite a version that the session
    /// has never seen, so repeatable read refuses it.
    pub fn unseen(
        &self,
        who: SessionId,
        table: u32,
        key: &Key,
        place: Option<usize>,
        now: &Snapshot,
    ) -> Option<u64>
        requires within { table < length (seen self.now).tables }
        requires found { place ≡ found_in self.now table key.now }
        requires now { now.now ≡ snapshot_now (seen self.now) }
        ensures { result ≡ ((rows_by (seen self.now)).key who table key.now).unseen }
    {
        let Some(sight) = self.place(who) else {
            // The present snapshot sees all that is committed.
            return None;
        };
        if self.has_written(who, table, key, place) {
            return None;
        }
        let newest = self.table_at(table).newest_seen_at(place, now)?;
        if sight.sees(newest.txid) {
            return None;
        }
        Some(newest.txid)
    }
}
