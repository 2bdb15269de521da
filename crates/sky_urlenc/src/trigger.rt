//! Triggers of tables: which writes each records, and by which events.

ghost use Rattle.std.specs.Prelude.{◌≡◌, None, IfOk, option_copied, option_map, bytes_eq, if◌then◌else◌};
ghost use Rattle.std.specs.List.{list_any};
ghost use Rattle.sky_urlenc.specs.RowText.{row_text};
ghost use Rattle.sky_urlenc.specs.RowEvents.{op_of, changed_columns, are_ignored, leaves_out, updated, event_of};

use crate::encode::encode_row;
use crate::event_kind::event_type;
use crate::row_event::RowEvent;
use sky_val::{Column, NoMemory, Op, Row, Schema, Text, Val};
use std::alloc::Global;
use std::marker::Model;

/// A trigger of a table: each write there is recorded by an event of its queue, but for updates that change only
/// columns that it ignores.
#[derive(Debug, Drop)]
pub struct Trigger {
    queue: usize,
    backup: bool,
    ignored: Vec<Text>,
}

impl Model for Trigger {
    ghost use Rattle.sky_urlenc.specs.RowEvents as events;

    ghost Value = { events.Trigger };

    ghost view = { λ t. record { queue = t.queue; backup = t.backup; ignored = t.ignored.items } };
}

impl Trigger {
    /// A trigger whose events go to the queue of this number. With `backup` the event of an update also has the old
    /// row.
    pub fn new(queue: usize, backup: bool, ignored: Vec<Text>) -> Trigger
        ensures { result ≡ record { queue = queue; backup = backup; ignored = ignored.items } }
    {
        Trigger {
            queue,
            backup,
            ignored,
        }
    }

    /// The number of the queue that its events go to.
    pub fn queue(&self) -> usize
        ensures { result ≡ self.now.queue }
    {
        self.queue
    }

    /// Whether it ignores a write: `old` is the row that the key had, `new` the one that it has.
    pub fn leaves_out(&self, schema: &Schema, old: Option<&Row>, new: Option<&Row>) -> bool
        ensures { result ≡ leaves_out self.now schema.now (option_copied old.entry) (option_copied new.entry) }
    {
        match (old, new) {
            (Some(old), Some(new)) => {
                self.ignores_change(schema.columns(), old.values(), new.values())
            }
            _ => false,
        }
    }

    /// Whether columns were changed, all of them ignored by this trigger.
    fn ignores_change(&self, columns: &[Column], old: &[Val], new: &[Val]) -> bool
        ensures { result ≡ are_ignored self.now (changed_columns columns.now old.now new.now) }
    {
        // Most triggers ignore no column.
        if self.ignored.is_empty() {
            return false;
        }
        let mut changed = false;
        for (column, (was, is)) in columns.iter().zip(old.iter().zip(new)) {
            if was == is {
                continue;
            }
            if !self.ignores(&column.name) {
                return false;
            }
            changed = true;
        }
        changed
    }

    /// Whether an update may change the column of this name without an event.
    fn ignores(&self, name: &Text) -> bool
        ensures { result ≡ list_any (bytes_eq name.now) self.now.ignored }
    {
        self.ignored.iter().any(|ignored| *name == *ignored)
    }

    /// Its event of a write in the table of this name.
    pub fn event(
        &self,
        alloc: Global,
        table: &Text,
        schema: &Schema,
        old: Option<&Row>,
        new: Option<&Row>,
    ) -> Result<RowEvent, NoMemory>
        ensures { IfOk result (λ event. event ≡ event_of (record {
          table = table.now;
          columns = schema.now;
          old = option_copied old.entry;
          new = option_copied new.entry;
        }) self.now) }
    {
        Ok(RowEvent {
            queue: self.queue,
            ev_type: event_type(alloc, op_of(old, new), schema)?,
            ev_data: encoded(alloc, schema, new.or(old))?,
            ev_extra1: table.copy(alloc)?,
            ev_extra2: self.backup_of(alloc, schema, old, new)?,
        })
    }

    /// The old row of an update, if the trigger records it.
    fn backup_of(
        &self,
        alloc: Global,
        schema: &Schema,
        old: Option<&Row>,
        new: Option<&Row>,
    ) -> Result<Option<Text>, NoMemory>
        ensures { IfOk result (λ text. text ≡ (if self.now.backup then option_map (row_text schema.now) (updated (option_copied old.entry) (option_copied new.entry)) else None)) }
    {
        if !self.backup || new.is_none() {
            return Ok(None);
        }
        encoded(alloc, schema, old)
    }
}

/// What a write did to a row, by the one that its key had and the one that it has.
pub fn op_of(old: Option<&Row>, new: Option<&Row>) -> Op
    ensures { result ≡ op_of (option_copied old.entry) (option_copied new.entry) }
{
    match (old, new) {
        (None, _) => Op::Insert,
        (Some(_), None) => Op::Delete,
        (Some(_), Some(_)) => Op::Update,
    }
}

/// The text of a row, if there is one.
fn encoded(alloc: Global, schema: &Schema, row: Option<&Row>) -> Result<Option<Text>, NoMemory>
    ensures { IfOk result (λ text. text ≡ option_map (row_text schema.now) (option_copied row.entry)) }
{
    match row {
        Some(row) => Ok(Some(encode_row(alloc, schema, row)?)),
        None => Ok(None),
    }
}
