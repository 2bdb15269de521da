//! The writes of a copy's transaction.

ghost use Rattle.std.specs.Prelude.{◌≡◌, ◌<◌, None, Some, IfOk, OnOk, length, map};
ghost use Rattle.sky_model.specs.Nodes.{after_node};
ghost use Rattle.sky_model.specs.History.{ended, copied};
ghost use Rattle.sky_model.specs.State.{after_part, after_part_marks};
ghost use Rattle.sky_model.specs.StepCopy.{copy_write, copy_writes, rows_now};
ghost use Rattle.sky_state.specs.Seen.{seen};
ghost use Rattle.pgq_queues.specs.Views.{QueuesView};
ghost use Rattle.pgq_parts.specs.Agreeing.{Agree};
ghost use Rattle.pgq_parts.specs.Copying.{MayWrite, deletion, under_key, insertion};

use londiste_state::Node;
use sky_row_store::RowStore;
use sky_txid::Snapshot;
use sky_val::{Key, NoMemory, Row, Schema, Text};
use std::alloc::Global;

/// A write of a copy's transaction: a row at a key, or the key's deletion.
fn write<R: RowStore>(
    rows: &mut R,
    txid: u64,
    table: u32,
    key: Key,
    row: Option<Row>,
) -> Result<(), NoMemory>
    requires { MayWrite (seen (R.state rows.old)) table txid }
    ensures mark { OnOk result (seen (R.state rows.new) ≡ after_part (seen (R.state rows.old)) (copy_write (seen (R.state rows.old)) table txid (record { key = key; row = row }))) }
    ensures may { MayWrite (seen (R.state rows.new)) table txid }
    ensures agree { (queues : QueuesView) → Agree (seen (R.state rows.old)) queues → Agree (seen (R.state rows.new)) queues }
{
    rows.worker_write(txid, table, key, row)
}

/// The keys of the rows that a table has at present.
pub fn keys_now<R: RowStore>(rows: &R, table: u32) -> Result<Vec<Key>, NoMemory>
    requires { table < length (seen (R.state rows.now)).tables }
    ensures { IfOk result (λ keys. keys.items ≡ map (λ e. e.0) (rows_now (seen (R.state rows.now)) table)) }
{
    let snapshot = rows.snapshot_now()?;
    rows.keys_under(&snapshot, table)
}

/// A copy's transaction deletes keys.
pub fn delete_all<R: RowStore>(
    rows: &mut R,
    txid: u64,
    table: u32,
    keys: Vec<Key>,
) -> Result<(), NoMemory>
    requires { MayWrite (seen (R.state rows.old)) table txid }
    ensures marks { OnOk result (seen (R.state rows.new) ≡ after_part_marks (seen (R.state rows.old)) (copy_writes (seen (R.state rows.old)) table txid (map deletion keys.items))) }
    ensures agree { (queues : QueuesView) → Agree (seen (R.state rows.old)) queues → Agree (seen (R.state rows.new)) queues }
{
    for key in keys {
        write(rows, txid, table, key, None)?;
    }
    Ok(())
}

/// A copy's transaction writes rows under keys.
pub fn write_all<R: RowStore>(
    rows: &mut R,
    txid: u64,
    table: u32,
    keyed: Vec<(Key, Row)>,
) -> Result<(), NoMemory>
    requires { MayWrite (seen (R.state rows.old)) table txid }
    ensures marks { OnOk result (seen (R.state rows.new) ≡ after_part_marks (seen (R.state rows.old)) (copy_writes (seen (R.state rows.old)) table txid (map insertion keyed.items))) }
    ensures agree { (queues : QueuesView) → Agree (seen (R.state rows.old)) queues → Agree (seen (R.state rows.new)) queues }
{
    for (key, row) in keyed {
        write(rows, txid, table, key, Some(row))?;
    }
    Ok(())
}

/// Each row with its key.
pub fn under_keys(
    alloc: Global,
    schema: &Schema,
    rows: Vec<Row>,
) -> Result<Vec<(Key, Row)>, NoMemory>
    ensures { IfOk result (λ keyed. keyed.items ≡ map (under_key schema.now) rows.items) }
{
    let mut keyed = Vec::with_capacity(alloc, rows.len())?;
    for row in rows {
        let key = schema.key_of(&row)?;
        keyed.push((key, row))?;
    }
    Ok(keyed)
}

/// The copy of a table has ended, if the node is a leaf.
pub fn end_leaf_copy(
    alloc: Global,
    node: &mut Option<Node>,
    table: &Text,
    snapshot: &Snapshot,
    tick: u64,
) -> Result<(), NoMemory>
    ensures { OnOk result (node.new ≡ after_node (copied table.now snapshot.now tick) node.old) }
{
    if let Some(Node::Leaf(leaf)) = node {
        leaf.end_copy(alloc, table, snapshot, tick)?;
    }
    Ok(())
}
