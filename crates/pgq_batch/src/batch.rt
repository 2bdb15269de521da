ghost use Rattle.std.specs.Prelude.{◌≡◌, ℕ, ◌==◌, ◌+◌, ◌-◌, ◌^◌, ◌<◌, ◌≤◌, [], length, find, map, slice_index_or, IfOk, OnOk};
ghost use Rattle.pgq_tables.specs.Listed.{listed};
ghost use Rattle.pgq_tables.specs.Tables.{recorded_part};
ghost use Rattle.pgq_batch.specs.Bound.{most_looks};
ghost use Rattle.pgq_batch.specs.Looked.{ages, lent_events, AreLookedAt};

use crate::ends::ends_between;
use crate::placed::{move_to, sort_by_id, sort_by_place};
use crate::table::{collect, first_with_id};
use pgq_tables::{EventTables, Looked, Recorded, Stored};
use sky_txid::Snapshot;
use sky_val::{Event, NoMemory};
use std::alloc::Global;

/// Looks at the events of each table that a batch may list, from the oldest table on: those from the lower bound of the
/// earlier snapshot on and below the upper bound of the later one.
pub fn look(
    alloc: Global,
    tables: &mut EventTables,
    prev: &Snapshot,
    cur: &Snapshot,
) -> Result<Vec<Looked>, NoMemory>
    ensures looked { IfOk result (λ looks. AreLookedAt prev.now cur.now tables.old.tables looks.items) }
    ensures same { tables.new.tables ≡ tables.old.tables }

    // Each event that is listed was looked at, unless so many were that they are no longer counted.
    ensures lower { OnOk result ((sub : ℕ) → tables.new.reads < 2 ^ 64 - 1 → length (listed prev.now cur.now sub tables.old.tables) + tables.old.reads ≤ tables.new.reads) }
    ensures upper { OnOk result (tables.new.reads ≤ tables.old.reads + most_looks prev.now cur.now tables.old.tables) }
{
    let mut looks = Vec::with_capacity(alloc, tables.len())?;
    for turn in 0..tables.len() {
        let table = table_by_age(tables, turn);
        let (first, end) = ends_between(tables, table, prev, cur);
        looks.push(tables.look(table, first, end))?;
    }
    Ok(looks)
}

/// The events that a batch lists, of those that were looked at: those between two snapshots that are for a subscription
/// and not dead, in order of their ids.
pub fn lend<'a>(
    alloc: Global,
    tables: &'a EventTables,
    looks: Vec<Looked>,
    prev: &Snapshot,
    cur: &Snapshot,
    sub: u64,
) -> Result<Vec<&'a Stored>, NoMemory>
    requires { AreLookedAt prev.now cur.now tables.now.tables looks.items }
    ensures { IfOk result (λ found. lent_events found.items ≡ listed prev.now cur.now sub tables.now.tables) }
{
    let mut events = Vec::new(alloc);
    for looked in looks {
        let mut found = collect(alloc, tables, looked, prev, cur, sub)?;
        sort_by_place(&mut found)?;
        move_to(&mut events, found)?;
    }
    sort_by_id(&mut events)?;
    Ok(events)
}

/// The events that a batch lists: those between two snapshots that are for a subscription and not dead, by id.
pub fn select(
    alloc: Global,
    tables: &mut EventTables,
    prev: &Snapshot,
    cur: &Snapshot,
    sub: u64,
) -> Result<Vec<Event>, NoMemory>
    ensures listed { IfOk result (λ events. events.items ≡ listed prev.now cur.now sub tables.old.tables) }
    ensures same { tables.new.tables ≡ tables.old.tables }

    // Each event that is listed was looked at, unless so many were that they are no longer counted.
    ensures lower { IfOk result (λ events. tables.new.reads < 2 ^ 64 - 1 → length events.items + tables.old.reads ≤ tables.new.reads) }
    ensures upper { OnOk result (tables.new.reads ≤ tables.old.reads + most_looks prev.now cur.now tables.old.tables) }
{
    let looks = look(alloc, tables, prev, cur)?;
    let found = lend(alloc, tables, looks, prev, cur, sub)?;
    copies(alloc, &found)
}

/// Equal events.
fn copies(alloc: Global, found: &[&Stored]) -> Result<Vec<Event>, NoMemory>
    ensures { IfOk result (λ events. events.items ≡ lent_events found.now) }
{
    let mut events = Vec::with_capacity(alloc, found.len())?;
    for stored in found {
        events.push_reserved(stored.event(alloc)?);
    }
    Ok(events)
}

/// The parts of events that record changes of rows.
pub fn recorded<'a>(alloc: Global, found: &[&'a Stored]) -> Result<Vec<Recorded<'a>>, NoMemory>
    ensures { IfOk result (λ events. events.items ≡ map recorded_part (lent_events found.now)) }
{
    let mut events = Vec::with_capacity(alloc, found.len())?;
    for stored in found {
        events.push_reserved(stored.recorded());
    }
    Ok(events)
}

/// Of the events that a batch lists the first with an id.
pub fn find(
    alloc: Global,
    tables: &mut EventTables,
    prev: &Snapshot,
    cur: &Snapshot,
    sub: u64,
    id: u64,
) -> Result<Option<Event>, NoMemory>
    ensures found { IfOk result (λ found. found ≡ find (λ e. e.ev_id == id) (listed prev.now cur.now sub tables.old.tables)) }
    ensures same { tables.new.tables ≡ tables.old.tables }
    ensures upper { OnOk result (tables.new.reads ≤ tables.old.reads + most_looks prev.now cur.now tables.old.tables) }
{
    for turn in 0..tables.len() {
        let table = table_by_age(tables, turn);
        if let Some(event) = first_with_id(alloc, tables, table, prev, cur, sub, id)? {
            return Ok(Some(event));
        }
    }
    Ok(None)
}

/// The number of a table by its age: at `turn` 0 the oldest one, at the last the current one.
fn table_by_age(tables: &EventTables, turn: usize) -> usize
    requires { turn < length tables.now.tables.lists }
    ensures within { result < length tables.now.tables.lists }
    ensures table { slice_index_or (ages tables.now.tables) turn [] ≡ slice_index_or tables.now.tables.lists result [] }
{
    // Those with a higher number than the current one are older than those up to it.
    let older = tables.len() - 1 - tables.current();
    if turn < older {
        tables.current() + 1 + turn
    } else {
        turn - older
    }
}
