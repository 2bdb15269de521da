ghost use Rattle.std.specs.Prelude.{◌≡◌, [], None, Some, IsSome, is_some, IsTrue, ◌↔◌, ◌≢◌, OnOk, OnErr};
ghost use Rattle.std.specs.Option.{option_copied};
ghost use Rattle.sky_txid.specs.Snapshot.{sees};
ghost use Rattle.sky_keys.specs.Versions.{with_version, without, version_of, newest_by, newest_but, read};
ghost use Rattle.sky_rows.specs.Versions.{IsOneOfEach};
ghost use Rattle.sky_rows.specs.Kept.{versions_of, is_newest, IsUsed, Moves};

use crate::older::Older;
use sky_keys::Version;
use sky_txid::Snapshot;
use sky_val::{NoMemory, Row};
use std::mem;

/// How a transaction stands at a key: whether it has a version there, and whether `read` gives it a row.
#[derive(Clone, Copy)]
pub(crate) struct Standing {
    pub(crate) has_own: bool,
    pub(crate) has_row: bool,
}

/// The versions of one key: the newest, and the number of the list of the older ones, if it has one. If the newest was
/// forgotten, its place stays empty until the next write, so no version is moved back from the list.
#[derive(Debug, Drop)]
pub(crate) struct Kept {
    newest: Option<Version>,
    list: Option<usize>,
}

impl Kept {
    /// The one version of a key that had none.
    pub(crate) fn first(version: Version) -> Kept
        ensures list { result.list ≡ None }
        ensures newest { result.newest ≡ Some version }
    {
        Kept {
            newest: Some(version),
            list: None,
        }
    }

    /// The newest version that isn't of this transaction.
    pub(crate) fn newest<'a>(&'a self, older: &'a Older, except: Option<u64>) -> Option<&'a Version>
        requires { IsUsed older.now self.now.list }
        ensures { option_copied result ≡ newest_but except (versions_of older.now self.now) }
    {
        match &self.newest {
            Some(version) if except != Some(version.txid) => Some(version),
            _ => older.newest(self.list?, except),
        }
    }

    /// The newest version that the snapshot sees.
    pub(crate) fn newest_seen<'a>(
        &'a self,
        older: &'a Older,
        snapshot: &Snapshot,
    ) -> Option<&'a Version>
        requires { IsUsed older.now self.now.list }
        ensures { option_copied result ≡ newest_by (sees snapshot.now) (versions_of older.now self.now) }
    {
        match &self.newest {
            Some(version) if snapshot.sees(version.txid) => Some(version),
            _ => older.newest_seen(self.list?, snapshot),
        }
    }

    /// The transaction's version.
    pub(crate) fn own<'a>(&'a self, older: &'a Older, txid: u64) -> Option<&'a Version>
        requires used { IsUsed older.now self.now.list }
        requires one { IsOneOfEach (versions_of older.now self.now) }
        ensures { option_copied result ≡ version_of txid (versions_of older.now self.now) }
    {
        match &self.newest {
            Some(version) if version.txid == txid => Some(version),
            _ => older.own(self.list?, txid),
        }
    }

    /// The row of the own version if there is one, or else of the newest version that the snapshot
    /// sees.
    pub(crate) fn read<'a>(
        &'a self,
        older: &'a Older,
        snapshot: &Snapshot,
        own: Option<u64>,
    ) -> Option<&'a Row>
        requires used { IsUsed older.now self.now.list }
        requires one { IsOneOfEach (versions_of older.now self.now) }
        ensures { option_copied result ≡ read snapshot.now own (versions_of older.now self.now) }
    {
        if let Some(txid) = own {
            if let Some(version) = self.own(older, txid) {
                return version.row.as_ref();
            }
        }
        self.newest_seen(older, snapshot)?.row.as_ref()
    }

    /// How the transaction stands at the key, if only the newest version may be its own.
    pub(crate) fn standing(&self, older: &Older, snapshot: &Snapshot, txid: u64) -> Standing
        requires used { IsUsed older.now self.now.list }
        requires one { IsOneOfEach (versions_of older.now self.now) }
        requires last { let versions = versions_of older.now self.now in
            IsSome (version_of txid versions) → newest_but None versions ≡ version_of txid versions }
        ensures own { result.has_own ≡ is_some (version_of txid (versions_of older.now self.now)) }
        ensures row { result.has_row ≡ is_some (read snapshot.now (Some txid) (versions_of older.now self.now)) }
    {
        let has_own = match self.newest(older, None) {
            Some(version) => version.txid == txid,
            None => false,
        };
        let own = if has_own { Some(txid) } else { None };
        let has_row = self.read(older, snapshot, own).is_some();
        Standing { has_own, has_row }
    }

    /// Replaces the transaction's version, or adds it.
    pub(crate) fn write(&mut self, older: &mut Older, version: Version) -> Result<(), NoMemory>
        requires used { IsUsed older.old self.old.list }
        requires one { IsOneOfEach (versions_of older.old self.old) }
        ensures ok { OnOk result (versions_of older.new self.new ≡ with_version version.txid version.row (versions_of older.old self.old)) }
        ensures err { OnErr result (versions_of older.new self.new ≡ versions_of older.old self.old) }
        ensures moves { Moves older.old self.old.list older.new self.new.list }
    {
        if self.is_newest(version.txid) {
            self.newest = Some(version);
            return Ok(());
        }
        let Some(list) = self.list else {
            return self.push(older, version);
        };
        match older.replace(list, version) {
            Ok(()) => Ok(()),
            Err(version) => self.push(older, version),
        }
    }

    /// Adds the first version of a transaction.
    pub(crate) fn push(&mut self, older: &mut Older, version: Version) -> Result<(), NoMemory>
        requires used { IsUsed older.old self.old.list }
        requires first { version_of version.txid (versions_of older.old self.old) ≡ None }
        ensures ok { OnOk result (versions_of older.new self.new ≡ with_version version.txid version.row (versions_of older.old self.old)) }
        ensures err { OnErr result (versions_of older.new self.new ≡ versions_of older.old self.old) }
        ensures moves { Moves older.old self.old.list older.new self.new.list }
    {
        let Some(newest) = &mut self.newest else {
            self.newest = Some(version);
            return Ok(());
        };
        let list = older.make_room(self.list)?;
        self.list = Some(list);
        older.push(list, mem::replace(newest, version));
        Ok(())
    }

    /// Removes the transaction's version, if there is one.
    fn forget(&mut self, older: &mut Older, txid: u64)
        requires used { IsUsed older.old self.old.list }
        requires one { IsOneOfEach (versions_of older.old self.old) }
        ensures value { versions_of older.new self.new ≡ without txid (versions_of older.old self.old) }
        ensures list { self.new.list ≡ self.old.list }
        ensures moves { Moves older.old self.old.list older.new self.old.list }
    {
        if self.is_newest(txid) {
            self.newest = None;
            return;
        }
        if let Some(list) = self.list {
            older.forget(list, txid);
        }
    }

    /// Removes the transaction's version, if there is one, and answers whether others are left. If not, the list is
    /// given up.
    pub(crate) fn outlives(&mut self, older: &mut Older, txid: u64) -> bool
        requires used { IsUsed older.old self.old.list }
        requires one { IsOneOfEach (versions_of older.old self.old) }
        ensures value { versions_of older.new self.new ≡ without txid (versions_of older.old self.old) }
        ensures left { IsTrue result ↔ (versions_of older.new self.new ≢ []) }
        ensures moves { Moves older.old self.old.list older.new self.new.list }
    {
        self.forget(older, txid);
        if self.has_any(older) {
            return true;
        }
        if let Some(list) = self.list.take() {
            older.free(list);
        }
        false
    }

    /// Whether the newest version is the transaction's.
    fn is_newest(&self, txid: u64) -> bool
        ensures { result ≡ is_newest txid self.now.newest }
    {
        match &self.newest {
            Some(newest) => newest.txid == txid,
            None => false,
        }
    }

    /// Whether there is a version.
    fn has_any(&self, older: &Older) -> bool
        requires { IsUsed older.now self.now.list }
        ensures { IsTrue result ↔ (versions_of older.now self.now ≢ []) }
    {
        if self.newest.is_some() {
            return true;
        }
        match self.list {
            Some(list) => !older.is_empty(list),
            None => false,
        }
    }
}
