ghost use Rattle.std.specs.Prelude.{◌≡◌, true, OnOk, is_some};
ghost use Rattle.sky_model.specs.StepApply.{may_apply, kept_snapshot};
ghost use Rattle.londiste_calls.specs.Picks.{pick_of};

use crate::event_store::EventStore;
use crate::leaves;
use crate::leaves::leaf_of;
use crate::replica::Replica;
use anyhow::bail;
use londiste_calls::Pick;
use londiste_state::Leaf;
use pgq_db::Store;
use sky_val::{Event, Text};
use std::alloc::Global;
use trials::{first_number, first_word, no_command, shown};

/// What the database of a leaf answers to a command, to which batches are applied.
pub fn answer<D: EventStore>(
    alloc: Global,
    db: &mut Replica<D>,
    command: &str,
    words: &str,
) -> anyhow::Result<String> {
    match command {
        "apply" => apply(alloc, db, words),
        _ => leaves::answer(alloc, db, command, words),
    }
}

fn apply<D: EventStore>(alloc: Global, db: &mut Replica<D>, words: &str) -> anyhow::Result<String> {
    let (pick, words) = first_word(words);
    let (tick, words) = first_number(words)?;
    let pick = pick_in(alloc, pick)?;
    check_pick(db.db(), &pick)?;
    let events = events_in(alloc, words)?;
    shown(alloc, Ok(db.apply(&events, &pick, u64::from(tick))))
}

// Which events are picked.
fn pick_in(alloc: Global, word: &str) -> anyhow::Result<Pick> {
    match word.strip_prefix("copy_of:") {
        Some(table) => Ok(Pick::CopyOf(Text::from_str(alloc, table)?)),
        None if word == "synced" => Ok(Pick::Synced),
        None => Err(no_command()),
    }
}

// The events of a batch.
fn events_in(alloc: Global, words: &str) -> anyhow::Result<Vec<Event>> {
    let mut events = Vec::new(alloc);
    for piece in words.split("; ") {
        if !piece.is_empty() {
            events.push(event_in(alloc, piece)?)?;
        }
    }
    Ok(events)
}

// An event: its id, its transaction, its type, its data and its table.
fn event_in(alloc: Global, words: &str) -> anyhow::Result<Event> {
    let (ev_id, words) = first_number(words)?;
    let (ev_txid, words) = first_number(words)?;
    event(alloc, u64::from(ev_id), u64::from(ev_txid), words)
}

// An event of this id and transaction.
fn event(alloc: Global, ev_id: u64, ev_txid: u64, words: &str) -> anyhow::Result<Event> {
    let (ev_type, words) = first_word(words);
    let (ev_data, table) = first_word(words);
    Ok(Event {
        ev_id,
        ev_time: 0,
        ev_txid,
        ev_owner: None,
        ev_retry: None,
        ev_type: text_in(alloc, ev_type)?,
        ev_data: text_in(alloc, ev_data)?,
        ev_extra1: text_in(alloc, table)?,
        ev_extra2: None,
        ev_extra3: None,
        ev_extra4: None,
    })
}

// A field of an event, if it is there.
fn text_in(alloc: Global, word: &str) -> anyhow::Result<Option<Text>> {
    if word == "-" {
        return Ok(None);
    }
    Ok(Some(Text::from_str(alloc, word)?))
}

// Whether the node is a leaf, and the table that is picked was copied.
fn check_pick<D: Store>(db: &D, pick: &Pick) -> anyhow::Result<()>
    ensures { OnOk result (may_apply (pick_of pick.now) (D.seen db.now).node ≡ true) }
{
    let leaf = leaf_of(db)?;
    match pick {
        Pick::Synced => Ok(()),
        Pick::CopyOf(table) if was_copied(leaf, table) => Ok(()),
        Pick::CopyOf(_) => bail!("not copied"),
    }
}

// Whether a table of the leaf was copied.
fn was_copied(leaf: &Leaf, table: &Text) -> bool
    ensures { result ≡ is_some (kept_snapshot leaf.now table.now) }
{
    match leaf.table(table) {
        Some(table) => table.snapshot().is_some(),
        None => false,
    }
}
