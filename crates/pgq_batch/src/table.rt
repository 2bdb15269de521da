ghost use Rattle.std.specs.Prelude.{◌≡◌, true, ◌==◌, ◌&&◌, ◌+◌, ◌-◌, ◌^◌, ◌<◌, ◌≤◌, ◌++◌, [], length, filter, find, map, slice_index_or, IfOk, OnOk};
ghost use Rattle.sky_txid.specs.Snapshot.{is_snapshot};
ghost use Rattle.pgq_tables.specs.Order.{by_txid};
ghost use Rattle.pgq_tables.specs.Listed.{is_listed};
ghost use Rattle.pgq_batch.specs.Bound.{is_between, looks_for_ends};
ghost use Rattle.pgq_batch.specs.Placed.{with_place, is_before};
ghost use Rattle.pgq_batch.specs.Looked.{looked_in, placed_events};

use crate::ends::ends_between;
use crate::listed::is_listed;
use pgq_tables::{EventTables, Looked, Stored};
use sky_txid::Snapshot;
use sky_val::{Event, NoMemory};
use std::alloc::Global;

/// The events that a batch lists, of those of a table that were looked at, each with its place there, in order of their
/// transactions.
pub(crate) fn collect<'a>(
    alloc: Global,
    tables: &'a EventTables,
    mut looked: Looked,
    prev: &Snapshot,
    cur: &Snapshot,
    sub: u64,
) -> Result<Vec<(usize, &'a Stored)>, NoMemory>
    requires table { looked.table < length tables.now.tables.lists }
    requires sound { is_snapshot cur.now ≡ true }
    requires ends { looked ≡ looked_in prev.now cur.now looked.table (slice_index_or tables.now.tables.lists looked.table []) }
    ensures { IfOk result (λ found. placed_events found.items
        ≡ map with_place (filter (λ x. is_listed prev.now cur.now sub x.1) (by_txid (slice_index_or tables.now.tables.lists looked.table [])))) }
{
    let mut found = Vec::with_capacity(alloc, looked.len())?;
    while let Some((place, stored)) = tables.next_looked(&mut looked) {
        if is_listed(stored, prev, cur, sub) {
            found.push((place, stored))?;
        }
    }
    Ok(found)
}

/// The first event of a table with an id, of those that a batch lists.
pub(crate) fn first_with_id(
    alloc: Global,
    tables: &mut EventTables,
    table: usize,
    prev: &Snapshot,
    cur: &Snapshot,
    sub: u64,
    id: u64,
) -> Result<Option<Event>, NoMemory>
    requires { table < length tables.old.tables.lists }
    ensures found { IfOk result (λ found. found
        ≡ find (λ e. e.ev_id == id) (map (λ s. s.event) (filter (is_listed prev.now cur.now sub) (slice_index_or tables.old.tables.lists table [])))) }
    ensures same { tables.new.tables ≡ tables.old.tables }
    ensures upper { OnOk result (tables.new.reads ≤ tables.old.reads
        + (length (filter (is_between prev.now cur.now) (slice_index_or tables.old.tables.lists table [])) + looks_for_ends (slice_index_or tables.old.tables.lists table []))) }
{
    let (start, end) = ends_between(tables, table, prev, cur);
    // The place of the first one so far, and its index in order of transactions.
    let mut best: Option<(usize, usize)> = None;
    for index in start..end {
        let (place, stored) = tables.by_txid(table, index);
        if stored.id() == id && is_listed(stored, prev, cur, sub) && is_before(place, best) {
            best = Some((place, index));
        }
    }
    let Some((_, index)) = best else {
        return Ok(None);
    };
    let (_, stored) = tables.by_txid(table, index);
    Ok(Some(stored.event(alloc)?))
}

/// Whether a place is before that of the first one so far, if there is one.
fn is_before(place: usize, best: Option<(usize, usize)>) -> bool
    ensures { result ≡ is_before place best }
{
    match best {
        Some((first, _)) => place < first,
        None => true,
    }
}
