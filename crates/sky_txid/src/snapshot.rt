ghost use Rattle.std.specs.Prelude.{◌≡◌, ◌↔◌, ◌<◌, ◌++◌, IsTrue, IfOk, OnOk, OnErr};
ghost use Rattle.sky_txid.specs.Ids.{rises_within, first_or};
ghost use Rattle.sky_txid.specs.Snapshot.{is_snapshot, snapshot_of, sees, Covers};
ghost use Rattle.sky_txid.specs.SnapshotText.{snapshot_text, parse_snapshot};

use crate::text::{append_parts, number, numbers, three_parts};
use sky_val::NoMemory;
use std::alloc::{AllocError, AllocFailed, Global};
use std::marker::Model;
use thiserror::Error;

/// Why a text is no snapshot.
#[derive(Clone, Copy, Debug, PartialEq, Eq, Error)]
pub enum SnapshotFault {
    /// The text isn't `xmin:xmax:xip`, or its numbers are out of order.
    #[error("not a snapshot")]
    BadSnapshot,
    /// Out of memory.
    #[error("out of memory")]
    NoMemory,
}

impl From<AllocError> for SnapshotFault {
    ghost use Rattle.sky_txid.specs.declared.snapshot.SnapshotFault.TheVariants.{NoMemory};

    ghost from_gives = { λ _ fault. fault ≡ NoMemory };

    fn from(_: AllocError) -> SnapshotFault {
        SnapshotFault::NoMemory
    }
}

impl From<AllocFailed<u64>> for SnapshotFault {
    ghost use Rattle.sky_txid.specs.declared.snapshot.SnapshotFault.TheVariants.{NoMemory};

    ghost from_gives = { λ _ fault. fault ≡ NoMemory };

    fn from(_: AllocFailed<u64>) -> SnapshotFault {
        SnapshotFault::NoMemory
    }
}

/// Which transactions had ended at a moment.
#[derive(Debug, Drop)]
pub struct Snapshot {
    xmin: u64,
    xmax: u64,
    xip: Vec<u64>,
}

impl Model for Snapshot {
    ghost use Rattle.std.specs.Prelude.{IsTrue};
    ghost use Rattle.sky_txid.specs.Snapshot.{SnapshotView, is_snapshot};

    ghost Value = { SnapshotView };

    ghost view = { λ s. record { xmin = s.xmin; xmax = s.xmax; xip = s.xip.items } };

    ghost invariant = { λ s.
        IsTrue (is_snapshot (record { xmin = s.xmin; xmax = s.xmax; xip = s.xip.items })) };
}

impl Snapshot {
    /// The snapshot that a text writes, as `xmin:xmax:xip`. Leading zeros are read, and an item that equals
    /// the one before it is skipped.
    pub fn parse(alloc: Global, text: &[u8]) -> Result<Snapshot, SnapshotFault>
        ensures ok { IfOk result (λ snapshot. parse_snapshot text.now ≡ Some snapshot) }

        // A text that is no snapshot may be answered with out of memory first.
        ensures bad { result ≡ Err SnapshotFault.BadSnapshot → parse_snapshot text.now ≡ None }
    {
        let (xmin, xmax, list) = three_parts(text).ok_or(SnapshotFault::BadSnapshot)?;
        let xmin = number(xmin).ok_or(SnapshotFault::BadSnapshot)?;
        let xmax = number(xmax).ok_or(SnapshotFault::BadSnapshot)?;
        let mut xip = numbers(alloc, list)?;
        xip.dedup();
        if xmin == 0 || xmax < xmin || !rises_within(&xip, xmin, xmax) {
            return Err(SnapshotFault::BadSnapshot);
        }
        Ok(Snapshot { xmin, xmax, xip })
    }

    /// The snapshot whose next id is `next` and whose running ids are these.
    pub fn of(alloc: Global, next: u64, running: &[u64]) -> Result<Snapshot, NoMemory>
        requires next { 0 < next }
        requires rising { IsTrue (rises_within 1 next running.now) }
        ensures { IfOk result (λ snapshot. snapshot ≡ snapshot_of next running.now) }
    {
        let xmin = first_or(running, next);
        let xip = copied(alloc, running)?;
        Ok(Snapshot {
            xmin,
            xmax: next,
            xip,
        })
    }

    /// An equal snapshot.
    pub fn copy(&self, alloc: Global) -> Result<Snapshot, NoMemory>
        ensures { IfOk result (λ snapshot. snapshot ≡ self.now) }
    {
        let xip = copied(alloc, &self.xip)?;
        Ok(Snapshot {
            xmin: self.xmin,
            xmax: self.xmax,
            xip,
        })
    }

    /// The lower bound: each id below it has ended.
    pub fn xmin(&self) -> u64
        ensures value { result ≡ self.now.xmin }
        ensures sound { IsTrue (is_snapshot self.now) }
    {
        self.xmin
    }

    /// The next id, which isn't assigned.
    pub fn xmax(&self) -> u64
        ensures value { result ≡ self.now.xmax }
        ensures sound { IsTrue (is_snapshot self.now) }
    {
        self.xmax
    }

    /// The running ids, in rising order.
    pub fn xip(&self) -> &[u64]
        ensures value { result.now ≡ self.now.xip }
        ensures sound { IsTrue (is_snapshot self.now) }
    {
        &self.xip
    }

    /// Appends `xmin:xmax:xip` in decimal, the ids of `xip` separated by commas.
    pub fn print(&self, into: &mut Vec<u8>) -> Result<(), NoMemory>
        ensures ok { OnOk result (into.new.items ≡ into.old.items ++ snapshot_text self.now) }
        ensures err { OnErr result (into.new.items ≡ into.old.items) }
        ensures read_back { parse_snapshot (snapshot_text self.now) ≡ Some self.now }
    {
        let start = into.len();
        let printed = append_parts(self.xmin, self.xmax, &self.xip, into);
        if printed.is_err() {
            into.truncate(start);
        }
        printed
    }

    /// Whether the transaction had ended when the snapshot was taken. This doesn't tell whether it committed.
    pub fn sees(&self, t: u64) -> bool
        ensures { result ≡ sees self.now t }
    {
        t < self.xmin || (t < self.xmax && self.xip.binary_search(&t).is_err())
    }

    /// Whether each transaction that the other snapshot sees is seen here too.
    pub fn covers(&self, other: &Snapshot) -> bool
        ensures { IsTrue result ↔ Covers self.now other.now }
    {
        // Not seen here are the running ids, and those from the next id on. The second loop ends at the first id that
        // isn't in the other list, so it runs at most once for each id of that list.
        for id in &self.xip {
            if other.sees(*id) {
                return false;
            }
        }
        for later in self.xmax..other.xmax {
            if other.sees(later) {
                return false;
            }
        }
        true
    }
}

/// The first of the ids, or `next` if there is none.
fn first_or(ids: &[u64], next: u64) -> u64
    ensures { result ≡ first_or next ids.now }
{
    ids.first().copied().unwrap_or(next)
}

/// Equal ids. Mostly there are none, and then nothing is copied.
fn copied(alloc: Global, ids: &[u64]) -> Result<Vec<u64>, NoMemory>
    ensures { IfOk result (λ copy. copy.items ≡ ids.now) }
{
    if ids.is_empty() {
        return Ok(Vec::new(alloc));
    }
    Vec::from_slice(alloc, ids)
}

/// Whether the ids rise strictly, from `low` on and below `high`.
fn rises_within(ids: &[u64], mut low: u64, high: u64) -> bool
    ensures { result ≡ rises_within low high ids.now }
{
    for id in ids {
        if *id < low || *id >= high {
            return false;
        }
        low = *id + 1;
    }
    true
}
