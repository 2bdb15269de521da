ghost use Rattle.std.specs.Prelude.{◌≡◌, true, IfOk, OnOk, Some};
ghost use Rattle.londiste_state.specs.Nodes.{of_leaf};
ghost use Rattle.sky_model.specs.StepCopy.{all_fit};
ghost use Rattle.sky_model.specs.StepNode.{table_number, may_copy};
ghost use Rattle.sky_store.specs.Copying.{MayCopy};

use crate::event_store::EventStore;
use crate::leaves::leaf_of;
use crate::nodes::number_of;
use crate::replica::Replica;
use anyhow::bail;
use londiste_state::{Leaf, TableState};
use pgq_db::Store;
use sky_txid::Snapshot;
use sky_urlenc::decode_row;
use sky_val::{Row, Schema, Text};
use std::alloc::Global;
use trials::{first_number, first_word, no_command, ok, shown};

/// What the database of a leaf answers to a command of the copy of a table.
pub fn answer<D: EventStore>(
    alloc: Global,
    db: &mut Replica<D>,
    command: &str,
    table: &Text,
    words: &str,
) -> anyhow::Result<String> {
    match command {
        "copy_of" => copy_of(alloc, db.db(), table),
        "copy_begin" => copy_begin(alloc, db, table),
        "copy_rows" => copy_rows(alloc, db, table, words),
        "copy_end" => copy_end(alloc, db, table, words),
        "copy_drop" => copy_drop(alloc, db, table),
        _ => Err(no_command()),
    }
}

fn copy_of<D: Store>(alloc: Global, db: &D, table: &Text) -> anyhow::Result<String> {
    let number = number_of(db, table)?;
    shown(alloc, Ok(db.copy_of(number)))
}

fn copy_begin<D: EventStore>(
    alloc: Global,
    db: &mut Replica<D>,
    table: &Text,
) -> anyhow::Result<String> {
    let number = number_in_copy(db.db(), table)?;
    if db.db().copy_of(number).is_some() {
        bail!("a copy runs");
    }
    shown(alloc, Ok(db.copy_begin(number)))
}

fn copy_rows<D: EventStore>(
    alloc: Global,
    db: &mut Replica<D>,
    table: &Text,
    words: &str,
) -> anyhow::Result<String> {
    let number = number_in_copy(db.db(), table)?;
    let rows = rows_in(alloc, db.db().schema(number), words)?;
    shown(alloc, db.copy_rows(number, rows))
}

fn copy_end<D: EventStore>(
    alloc: Global,
    db: &mut Replica<D>,
    table: &Text,
    words: &str,
) -> anyhow::Result<String> {
    let (snapshot, words) = first_word(words);
    let (tick, _) = first_number(words)?;
    let number = number_in_copy(db.db(), table)?;
    let snapshot = Snapshot::parse(alloc, snapshot.as_bytes())?;
    shown(
        alloc,
        db.copy_end(table, number, &snapshot, u64::from(tick)),
    )
}

fn copy_drop<D: EventStore>(
    alloc: Global,
    db: &mut Replica<D>,
    table: &Text,
) -> anyhow::Result<String> {
    let number = number_in_copy(db.db(), table)?;
    db.copy_drop(number)?;
    ok(alloc)
}

// The number of a table of the leaf that is in the state for a copy.
fn number_in_copy<D: Store>(db: &D, table: &Text) -> anyhow::Result<u32>
    ensures number { IfOk result (λ number. table_number (D.seen db.now) table.now ≡ Some number) }
    ensures named { OnOk result (may_copy table.now (D.seen db.now).node ≡ true) }
    ensures may { IfOk result (λ number. MayCopy (D.seen db.now) number) }
{
    check_in_copy(leaf_of(db)?, table)?;
    number_of(db, table)
}

// Whether a table of the leaf is in the state for a copy.
fn check_in_copy(leaf: &Leaf, table: &Text) -> anyhow::Result<()>
    ensures { OnOk result (may_copy table.now (Some (of_leaf leaf.now)) ≡ true) }
{
    match leaf.table(table) {
        Some(table) if matches!(table.state(), TableState::InCopy) => Ok(()),
        _ => bail!("not in copy"),
    }
}

// The rows of these columns.
fn rows_in(alloc: Global, schema: &Schema, words: &str) -> anyhow::Result<Vec<Row>>
    ensures { IfOk result (λ rows. all_fit schema.now rows.items ≡ true) }
{
    let mut rows = Vec::new(alloc);
    for piece in words.split("; ") {
        if !piece.is_empty() {
            rows.push(decode_row(alloc, schema, piece.as_bytes())?)?;
        }
    }
    Ok(rows)
}
