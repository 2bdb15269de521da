//! The changes of rows that events record.

ghost use Rattle.std.specs.Prelude.{◌≡◌, List, Option, IfOk, is_some, is_none, if◌then◌else◌, option_and_then, option_copied};
ghost use Rattle.sky_val.specs.declared.val.Val.{Val};
ghost use Rattle.std.specs.Result.{result_ok};
ghost use Rattle.sky_urlenc.specs.Changes.{op_named, change_of};
ghost use Rattle.sky_urlenc.specs.ReadRow.{read_row};
ghost use Rattle.sky_model.specs.StepQueue.{tells_of_rows};
ghost use Rattle.sky_model.specs.StepApply.{is_change, may_meet, row_left};

use pgq_tables::Recorded;
use sky_urlenc::{DecodeFault, decode_row};
use sky_val::{NoMemory, Op, Row, Schema, Text};
use std::alloc::{AllocError, Global};
use std::marker::Model;

/// What was done to a row. The row is the new one, or the one that was deleted.
#[derive(Drop)]
pub struct Change {
    /// What was done.
    pub op: Op,
    /// The row.
    pub row: Row,
}

impl Model for Change {
    ghost use Rattle.sky_urlenc.specs.Changes as changes;

    ghost Value = { changes.Change };

    ghost view = { λ c. record { op = c.op; row = c.row } };
}

impl Change {
    /// What an event records of a row of its table, if its type says so and its data are a row.
    pub fn of(
        alloc: Global,
        schema: &Schema,
        event: &Recorded<'_>,
    ) -> Result<Option<Change>, NoMemory>
        ensures { IfOk result (λ change. change ≡ change_of schema.now event.now) }
    {
        let Some(op) = op_in(event.ev_type) else {
            return Ok(None);
        };
        let row = row_in(alloc, schema, event.ev_data)?;
        match row {
            Some(row) => Ok(Some(Change { op, row })),
            None => Ok(None),
        }
    }

    /// Whether it may be made only where there is a row. If not, it may be made only where there is none.
    pub fn needs_row(&self) -> bool
        ensures { (old : Option (List Val)) → may_meet self.now.op old ≡ (if result then is_some old else is_none old) }
    {
        match self.op {
            Op::Insert => false,
            Op::Update | Op::Delete => true,
        }
    }

    /// The row that it leaves.
    pub fn row_left(self) -> Option<Row>
        ensures { result ≡ row_left self.op self.row }
    {
        match self.op {
            Op::Insert | Op::Update => Some(self.row),
            Op::Delete => None,
        }
    }
}

/// Whether an event records the change of a row, as its type says.
pub fn is_change(event: &Recorded<'_>) -> bool
    ensures { result ≡ is_change event.now }
{
    tells_of_rows(event.ev_type)
}

/// Whether events of a type record changes of rows.
pub fn tells_of_rows(ev_type: Option<&Text>) -> bool
    ensures { result ≡ tells_of_rows (option_copied ev_type.entry) }
{
    op_in(ev_type).is_some()
}

/// What was done to a row, as the type of an event says.
fn op_in(ev_type: Option<&Text>) -> Option<Op>
    ensures { result ≡ option_and_then op_named (option_copied ev_type.entry) }
{
    match ev_type {
        Some(name) => op_named(name.bytes()),
        None => None,
    }
}

/// What was done to a row, as the name of a type says.
fn op_named(name: &[u8]) -> Option<Op>
    ensures { result ≡ op_named name.now }
{
    if name.starts_with(b"I:") {
        Some(Op::Insert)
    } else if name.starts_with(b"U:") {
        Some(Op::Update)
    } else if name.starts_with(b"D:") {
        Some(Op::Delete)
    } else {
        None
    }
}

/// The row of a table that the data of an event are, if they are one.
fn row_in(alloc: Global, schema: &Schema, ev_data: Option<&Text>) -> Result<Option<Row>, NoMemory>
    ensures { IfOk result (λ row. row ≡ option_and_then (λ text. result_ok (read_row schema.now text)) (option_copied ev_data.entry)) }
{
    match ev_data {
        Some(text) => row_of(alloc, schema, text.bytes()),
        None => Ok(None),
    }
}

/// The row of a table that a text writes, if it is one.
fn row_of(alloc: Global, schema: &Schema, text: &[u8]) -> Result<Option<Row>, NoMemory>
    ensures { IfOk result (λ row. row ≡ result_ok (read_row schema.now text.now)) }
{
    match decode_row(alloc, schema, text) {
        Ok(row) => Ok(Some(row)),
        Err(DecodeFault::NoMemory) => Err(AllocError),
        Err(_) => Ok(None),
    }
}
