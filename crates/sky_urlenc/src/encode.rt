//! Rows as text.

ghost use Rattle.std.specs.Prelude.{◌≡◌, ◌<◌, ◌++◌, All, None, Ok, IfOk, OnOk, FitsSigned, string_bytes};
ghost use Rattle.std.specs.Fmt.{signed_decimal};
ghost use Rattle.std.specs.Int.{w64};
ghost use Rattle.std.specs.List.{list_all};
ghost use Rattle.form_urlencoded.specs.Form.{byte_serialize, is_unchanged};
ghost use Rattle.sky_val.specs.Schemas.{row_fault};
ghost use Rattle.sky_urlenc.specs.Held.{HoldsOne, IsWord};
ghost use Rattle.sky_urlenc.specs.ReadRow.{read_row};
ghost use Rattle.sky_urlenc.specs.RowText.{column_text, row_text};

use crate::kept::kept;
use form_urlencoded::byte_serialize;
use itoa::Buffer;
use sky_val::{Column, NoMemory, Row, Schema, Text, Val};
use std::alloc::Global;

/// How many bytes a column takes in most rows, its name included.
const USUAL_BYTES: usize = 16;

/// The text of a row of the table.
pub fn encode_row(alloc: Global, schema: &Schema, row: &Row) -> Result<Text, NoMemory>
    ensures text { IfOk result (λ text. text ≡ row_text schema.now row.now) }

    // The text of a row that the table may have is read back.
    ensures back { IfOk result (λ text. row_fault schema.now row.now ≡ None → read_row schema.now text ≡ Ok row.now) }
{
    let columns = schema.columns();
    let mut text = String::with_capacity(alloc, columns.len() * USUAL_BYTES)?;
    for (place, (column, value)) in columns.iter().zip(row.values()).enumerate() {
        if place > 0 {
            text.push('&')?;
        }
        append_column(column, value, &mut text)?;
    }
    kept(alloc, text)
}

/// Appends a column with its value.
fn append_column(column: &Column, value: &Val, into: &mut String) -> Result<(), NoMemory>
    ensures text { OnOk result
        (string_bytes into.new ≡ string_bytes into.old ++ column_text column.now value.now) }
    ensures holds { OnOk result (HoldsOne column.now value.now) }
{
    append_text(&column.name, into)?;
    match value {
        Val::Null => Ok(()),
        Val::Int(number) => {
            into.push('=')?;
            append_number(*number, into)
        }
        Val::Text(text) => {
            into.push('=')?;
            append_text(text.as_text(), into)
        }
    }
}

fn append_number(number: i64, into: &mut String) -> Result<(), NoMemory>
    ensures text { OnOk result
        (string_bytes into.new ≡ string_bytes into.old ++ signed_decimal number) }
    ensures fits { FitsSigned w64 number }
{
    into.push_str(Buffer::new().format(number))
}

/// Appends a text, escaped: in one go if no byte changes.
fn append_text(text: &Text, into: &mut String) -> Result<(), NoMemory>
    ensures text { OnOk result
        (string_bytes into.new ≡ string_bytes into.old ++ byte_serialize text.now) }
    ensures word { OnOk result (IsWord text.now) }
{
    if are_unchanged(text.bytes()) {
        into.push_str(text.as_str())
    } else {
        append_escaped(text.bytes(), into)
    }
}

/// Whether a form changes none of the bytes.
fn are_unchanged(bytes: &[u8]) -> bool
    ensures { result ≡ list_all is_unchanged bytes.now }
{
    bytes.iter().all(|byte| byte.is_ascii_alphanumeric()
        || matches!(byte, b'*' | b'-' | b'.' | b'_'))
}

/// Appends bytes, escaped.
fn append_escaped(bytes: &[u8], into: &mut String) -> Result<(), NoMemory>
    ensures text { OnOk result
        (string_bytes into.new ≡ string_bytes into.old ++ byte_serialize bytes.now) }
    ensures small { OnOk result (All (λ b. b < 256) bytes.now) }
{
    for piece in byte_serialize(bytes) {
        into.push_str(piece)?;
    }
    Ok(())
}
