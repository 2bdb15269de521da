//! What a leaf's worker makes of the events of a batch, in the row part of the leaf's database.

ghost use Rattle.std.specs.Prelude.{◌≡◌, true, false, Some, IfOk, OnErr, All, filter, map, option_copied};
ghost use Rattle.sky_txid.specs.Ids.{contains};
ghost use Rattle.sky_val.specs.Schemas.{key_of};
ghost use Rattle.sky_model.specs.History.{applied};
ghost use Rattle.sky_model.specs.Nodes.{after_node};
ghost use Rattle.sky_model.specs.ShownRows.{snapshot_now};
ghost use Rattle.sky_model.specs.StepApply.{picks, picked, changes_row, applies_event};
ghost use Rattle.sky_state.specs.Seen.{seen};
ghost use Rattle.pgq_tables.specs.Tables.{recorded_part};
ghost use Rattle.londiste_calls.specs.Picks.{pick_of};
ghost use Rattle.londiste_apply.specs.Applying.{as_leaf, MayWriteFor, Makes, Works};
ghost use Rattle.londiste_apply.specs.Writing.{MayWrite, Marked};

use londiste_calls::{Change, Pick};
use londiste_state::{Leaf, Node};
use pgq_tables::Recorded;
use sky_row_store::RowStore;
use sky_txid::Snapshot;
use sky_val::{Event, Key, NoMemory, Text};
use std::alloc::Global;

/// What a worker has made of events.
#[derive(Clone, Copy)]
pub struct Work {
    /// How many it has applied.
    pub many: usize,
    /// The id of the event that couldn't be applied.
    pub bad: Option<u64>,
}

/// What events record.
pub fn recorded<'a>(alloc: Global, all: &'a [Event]) -> Result<Vec<Recorded<'a>>, NoMemory>
    ensures { IfOk result (λ recorded. recorded.items ≡ map recorded_part all.now) }
{
    let mut recorded = Vec::with_capacity(alloc, all.len())?;
    for event in all {
        recorded.push(Recorded::of(event))?;
    }
    Ok(recorded)
}

/// The tick of a batch that was applied is stored, if the node is a leaf.
pub fn store_tick(node: &mut Option<Node>, pick: &Pick, tick: u64)
    ensures { node.new ≡ after_node (applied (pick_of pick.now) tick) node.old }
{
    if let Some(Node::Leaf(leaf)) = node {
        match pick {
            Pick::Synced => leaf.set_tick(tick),
            Pick::CopyOf(table) => leaf.set_table_tick(table, tick),
        }
    }
}

/// A worker applies the events that a node picks, in order, up to the first that can't be applied.
pub fn apply_picked<R: RowStore>(
    alloc: Global,
    rows: &mut R,
    node: &Option<Node>,
    pick: &Pick,
    txid: u64,
    events: &[Recorded<'_>],
) -> Result<Work, NoMemory>
    requires runs { contains txid (seen (R.state rows.old)).workers ≡ true }
    requires may { All (MayWriteFor (seen (R.state rows.old)) txid) (picked node.now (pick_of pick.now) events.now) }
    ensures work { IfOk result (λ work. Works work (seen (R.state rows.old)) (seen (R.state rows.new)) txid (picked node.now (pick_of pick.now) events.now)) }
    ensures marked { Marked (seen (R.state rows.old)) (seen (R.state rows.new)) }
{
    match as_leaf(node) {
        Some(leaf) => apply_all(alloc, rows, leaf, pick, txid, events),
        // It picks none.
        None => Ok(Work { many: 0, bad: None }),
    }
}

/// The leaf, if the node is one.
fn as_leaf(node: &Option<Node>) -> Option<&Leaf>
    ensures { option_copied result ≡ as_leaf node.now }
{
    match node {
        Some(Node::Leaf(leaf)) => Some(leaf),
        _ => None,
    }
}

/// The same for those that a leaf picks.
fn apply_all<R: RowStore>(
    alloc: Global,
    rows: &mut R,
    leaf: &Leaf,
    pick: &Pick,
    txid: u64,
    events: &[Recorded<'_>],
) -> Result<Work, NoMemory>
    requires runs { contains txid (seen (R.state rows.old)).workers ≡ true }
    requires may { All (MayWriteFor (seen (R.state rows.old)) txid) (filter (picks leaf.now (pick_of pick.now)) events.now) }
    ensures work { IfOk result (λ work. Works work (seen (R.state rows.old)) (seen (R.state rows.new)) txid (filter (picks leaf.now (pick_of pick.now)) events.now)) }
    ensures marked { Marked (seen (R.state rows.old)) (seen (R.state rows.new)) }
{
    // Its own writes don't change what it reads by.
    let snapshot = rows.snapshot_now()?;
    let mut many = 0;
    for event in events {
        if !pick.picks(leaf, event) {
            continue;
        }
        let is_made = apply_event(alloc, rows, txid, &snapshot, event)?;
        if !is_made {
            let bad = Some(event.ev_id);
            return Ok(Work { many, bad });
        }
        many += 1;
    }
    Ok(Work { many, bad: None })
}

/// A worker applies an event, if it can be applied; if not, nothing changes. The answer is whether it was.
fn apply_event<R: RowStore>(
    alloc: Global,
    rows: &mut R,
    txid: u64,
    snapshot: &Snapshot,
    event: &Recorded<'_>,
) -> Result<bool, NoMemory>
    requires may { MayWriteFor (seen (R.state rows.old)) txid event.now }
    requires present { snapshot.now ≡ snapshot_now (seen (R.state rows.old)) }
    ensures made { IfOk result (λ made. Makes made (seen (R.state rows.old)) (seen (R.state rows.new)) (applies_event (seen (R.state rows.old)) txid event.now)) }
    ensures err { OnErr result (seen (R.state rows.new) ≡ seen (R.state rows.old)) }
{
    match event.ev_extra1 {
        Some(name) => apply_to(alloc, rows, txid, snapshot, name, event),
        None => Ok(false),
    }
}

/// The same for an event of the table of a name.
fn apply_to<R: RowStore>(
    alloc: Global,
    rows: &mut R,
    txid: u64,
    snapshot: &Snapshot,
    name: &Text,
    event: &Recorded<'_>,
) -> Result<bool, NoMemory>
    requires named { event.now.ev_extra1 ≡ Some name.now }
    requires may { MayWriteFor (seen (R.state rows.old)) txid event.now }
    requires present { snapshot.now ≡ snapshot_now (seen (R.state rows.old)) }
    ensures made { IfOk result (λ made. Makes made (seen (R.state rows.old)) (seen (R.state rows.new)) (applies_event (seen (R.state rows.old)) txid event.now)) }
    ensures err { OnErr result (seen (R.state rows.new) ≡ seen (R.state rows.old)) }
{
    let Some((table, schema)) = rows.table(name) else {
        return Ok(false);
    };
    let change = Change::of(alloc, schema, event)?;
    match change {
        Some(change) => {
            let key = schema.key_of(&change.row)?;
            make_change(rows, txid, snapshot, table, key, change)
        }
        None => Ok(false),
    }
}

/// A worker makes a change of the row of a key, if it may be made; if not, nothing changes. The answer is whether it
/// was.
fn make_change<R: RowStore>(
    rows: &mut R,
    txid: u64,
    snapshot: &Snapshot,
    table: u32,
    key: Key,
    change: Change,
) -> Result<bool, NoMemory>
    requires may { MayWrite (seen (R.state rows.old)) table txid }
    requires present { snapshot.now ≡ snapshot_now (seen (R.state rows.old)) }
    requires key { key ≡ key_of ((seen (R.state rows.old)).columns table) change.row }
    ensures made { IfOk result (λ made. Makes made (seen (R.state rows.old)) (seen (R.state rows.new)) (changes_row (seen (R.state rows.old)) table txid (Some change))) }
    ensures err { OnErr result (seen (R.state rows.new) ≡ seen (R.state rows.old)) }
{
    let needs_row = change.needs_row();
    rows.worker_write_if(txid, snapshot, table, key, change.row_left(), needs_row)
}
