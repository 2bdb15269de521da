//! The types of the events that record writes of rows.

ghost use Rattle.std.specs.Prelude.{◌≡◌, [], ◌∷◌, ◌++◌, map, IfOk, IfSome, OnOk, string_bytes};
ghost use Rattle.std.specs.List.{join_with_byte};
ghost use Rattle.sky_val.specs.Schemas.{key_columns};
ghost use Rattle.sky_urlenc.specs.EventType.{colon, comma, op_letter, event_type};

use crate::kept::MOST_IN_PLACE;
use arrayvec::ArrayString;
use sky_val::{Column, NoMemory, Op, Schema, Text};
use std::alloc::Global;

/// How many bytes most long types have at most.
const USUAL_BYTES: usize = 48;

/// The type of the event that records an operation on a row of the table: `I`, `U` or `D`, a colon, and the names of
/// the key columns, separated by commas.
pub fn event_type(alloc: Global, op: Op, schema: &Schema) -> Result<Text, NoMemory>
    ensures { IfOk result (λ text. text ≡ event_type op schema.now) }
{
    match short_type(op, schema) {
        Some(text) => Text::from_str(alloc, text.as_str()),
        None => long_type(alloc, op, schema),
    }
}

/// The same, if it is short enough to take no memory of its own.
fn short_type(op: Op, schema: &Schema) -> Option<ArrayString<MOST_IN_PLACE>>
    ensures { IfSome result (λ text. text.bytes ≡ event_type op schema.now) }
{
    let mut text = ArrayString::new();
    if text.try_push_str(op_mark(op)).is_err() {
        return None;
    }
    let mut first = true;
    for column in schema.columns() {
        if !column.key {
            continue;
        }
        if !first && text.try_push(',').is_err() {
            return None;
        }
        if text.try_push_str(column.name.as_str()).is_err() {
            return None;
        }
        first = false;
    }
    Some(text)
}

/// The same, however long it is: it takes memory of its own.
fn long_type(alloc: Global, op: Op, schema: &Schema) -> Result<Text, NoMemory>
    ensures { IfOk result (λ text. text ≡ event_type op schema.now) }
{
    let mut text = String::with_capacity(alloc, USUAL_BYTES)?;
    text.push_str(op_mark(op))?;
    append_key_names(schema.columns(), &mut text)?;
    Ok(Text::from_string(text))
}

/// The letter of the operation, and a colon.
fn op_mark(op: Op) -> &'static str
    ensures { result.now ≡ op_letter op ∷ colon ∷ [] }
{
    match op {
        Op::Insert => "I:",
        Op::Update => "U:",
        Op::Delete => "D:",
    }
}

fn append_key_names(columns: &[Column], into: &mut String) -> Result<(), NoMemory>
    ensures { OnOk result (string_bytes into.new ≡ string_bytes into.old
        ++ join_with_byte comma (map (λ column. column.name) (key_columns columns.now))) }
{
    let mut first = true;
    for column in columns {
        if !column.key {
            continue;
        }
        if !first {
            into.push(',')?;
        }
        into.push_str(column.name.as_str())?;
        first = false;
    }
    Ok(())
}
