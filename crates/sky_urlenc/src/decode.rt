//! Rows from text.

ghost use Rattle.std.specs.Prelude.{◌≡◌, ◌≢◌, ◌<◌, true, false, Some, None, Ok, Err, map, length, IfOk, OnOk, IfErr, IfSome, MatchOption};
ghost use Rattle.sky_val.specs.Schemas.{row_fault};
ghost use Rattle.sky_urlenc.specs.ReadRow.{all_given, column_named, given_by, is_text, name_in, pieces_from, read_row, text_in, value_for, value_of, values_from};
ghost use Rattle.sky_urlenc.specs.Pieces.{piece_view};

use crate::fault::DecodeFault;
use crate::in_order::row_in_order;
use crate::pieces::{Piece, Pieces};
use crate::sides::side_text;
use sky_val::{BoxedText, ColKind, Column, NoMemory, Row, Schema, Text, Val, int_of};
use std::alloc::Global;

/// The row of the table that a text writes: each column once, in any order.
pub fn decode_row(alloc: Global, schema: &Schema, text: &[u8]) -> Result<Row, DecodeFault>
    ensures row { IfOk result (λ row. read_row schema.now text.now ≡ Ok row) }
    ensures fits { IfOk result (λ row. row_fault schema.now row ≡ None) }

    // A text that is no row may be answered with out of memory first.
    ensures refused { IfErr result (λ fault.
        fault ≢ DecodeFault.NoMemory → read_row schema.now text.now ≡ Err fault) }
{
    let columns = schema.columns();
    if let Some(row) = row_in_order(alloc, columns, text)? {
        return Ok(row);
    }
    row_in_any_order(alloc, columns, text)
}

/// The same for these columns.
fn row_in_any_order(alloc: Global, columns: &[Column], text: &[u8]) -> Result<Row, DecodeFault>
    ensures row { IfOk result (λ row. read_row columns.now text.now ≡ Ok row) }
    ensures refused { IfErr result (λ fault.
        fault ≢ DecodeFault.NoMemory → read_row columns.now text.now ≡ Err fault) }
{
    let mut given = nothing_given(alloc, columns)?;
    for piece in Pieces::of(text) {
        give(alloc, columns, &piece, &mut given)?;
    }
    row_of(alloc, given)
}

/// No value yet, for each column.
fn nothing_given(alloc: Global, columns: &[Column]) -> Result<Vec<Option<Val>>, NoMemory>
    ensures { IfOk result (λ given. given.items ≡ map (λ _. None) columns.now) }
{
    let mut given = Vec::with_capacity(alloc, columns.len())?;
    for _ in columns {
        given.push_reserved(None);
    }
    Ok(given)
}

/// Gives a column the value of a piece.
fn give(
    alloc: Global,
    columns: &[Column],
    piece: &Piece<'_>,
    given: &mut Vec<Option<Val>>,
) -> Result<(), DecodeFault>
    requires { length given.old.items ≡ length columns.now }
    ensures count { length given.new.items ≡ length given.old.items }
    ensures ok { OnOk result
        (given_by columns.now given.old.items (piece_view piece.now) ≡ Ok given.new.items) }
    ensures refused { IfErr result (λ fault. fault ≢ DecodeFault.NoMemory
        → given_by columns.now given.old.items (piece_view piece.now) ≡ Err fault) }
{
    let (name, text) = texts_in(alloc, piece)?;
    let Some((place, column)) = column_named(&name, columns) else {
        return Err(DecodeFault::UnknownColumn(piece.start));
    };
    if given[place].is_some() {
        return Err(DecodeFault::TwiceColumn(piece.start));
    }
    given[place] = Some(value_for(alloc, piece.start, column, text)?);
    Ok(())
}

/// The name that a piece gives, and the text, if it gives one.
fn texts_in(alloc: Global, piece: &Piece<'_>) -> Result<(Text, Option<Text>), DecodeFault>
    ensures name { IfOk result (λ texts. texts.0 ≡ name_in (piece_view piece.now)) }
    ensures text { IfOk result (λ texts. texts.1 ≡ text_in (piece_view piece.now)) }
    ensures characters { OnOk result (is_text (piece_view piece.now) ≡ true) }
    ensures refused { IfErr result (λ fault. fault ≢ DecodeFault.NoMemory
        → (is_text (piece_view piece.now) ≡ false) × (fault ≡ DecodeFault.BadText piece.now.start)) }
{
    let (name, text) = piece.sides();
    let name = side_text(alloc, name, piece.start)?;
    match text {
        Some(text) => Ok((name, Some(side_text(alloc, text, piece.start)?))),
        None => Ok((name, None)),
    }
}

/// The column of a name, with its place.
fn column_named<'a>(name: &Text, columns: &'a [Column]) -> Option<(usize, &'a Column)>
    ensures found { MatchOption result (column_named name.now columns.now ≡ None)
        (λ found. column_named name.now columns.now ≡ Some (found.0, found.1.now)) }
    ensures within { IfSome result (λ found. found.0 < length columns.now) }
{
    for (place, column) in columns.iter().enumerate() {
        if column.name == *name {
            return Some((place, column));
        }
    }
    None
}

/// The value that a column takes from a piece that starts at a place and gives this text.
fn value_for(
    alloc: Global,
    start: usize,
    column: &Column,
    text: Option<Text>,
) -> Result<Val, DecodeFault>
    ensures ok { IfOk result (λ value. value_for start column.now text ≡ Ok value) }
    ensures refused { IfErr result (λ fault.
        fault ≢ DecodeFault.NoMemory → value_for start column.now text ≡ Err fault) }
{
    if column.key && text.is_none() {
        return Err(DecodeFault::NullKey(start));
    }
    match value_of(alloc, column.kind, text)? {
        Some(value) => Ok(value),
        None => Err(DecodeFault::BadInt(start)),
    }
}

/// The value that a text writes for a column of a kind, if it writes one.
fn value_of(alloc: Global, kind: ColKind, text: Option<Text>) -> Result<Option<Val>, NoMemory>
    ensures { IfOk result (λ value. value ≡ value_of kind text) }
{
    match (kind, text) {
        (_, None) => Ok(Some(Val::Null)),
        (ColKind::Int, Some(text)) => Ok(int_of(text.bytes()).map(Val::Int)),
        (ColKind::Text, Some(text)) => Ok(Some(Val::Text(BoxedText::new(alloc, text)?))),
    }
}

/// The row of the values that the columns have.
fn row_of(alloc: Global, given: Vec<Option<Val>>) -> Result<Row, DecodeFault>
    ensures row { IfOk result (λ row. values_from 0 given.items ≡ Ok row) }
    ensures refused { IfErr result (λ fault.
        fault ≢ DecodeFault.NoMemory → values_from 0 given.items ≡ Err fault) }
{
    let mut values = Vec::with_capacity(alloc, given.len())?;
    for value in given {
        match value {
            Some(value) => values.push(value)?,
            None => return Err(DecodeFault::MissingColumn(values.len())),
        }
    }
    Ok(Row::new(values))
}
