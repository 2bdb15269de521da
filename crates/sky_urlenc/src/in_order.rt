//! Rows from texts that have a piece for each column, in order, as most texts do.

ghost use Rattle.std.specs.Prelude.{◌≡◌, ◌≢◌, true, Some, Ok, IfOk, IfSome, OnSome};
ghost use Rattle.std.specs.Bool.{OnTrue};
ghost use Rattle.std.specs.List.{AllPairs};
ghost use Rattle.std.specs.Str.{is_utf8};
ghost use Rattle.form_urlencoded.specs.Form.{decode};
ghost use Rattle.sky_urlenc.specs.Pieces.{piece_view};
ghost use Rattle.sky_urlenc.specs.ReadRow.{is_text, name_in, read_row, text_in, value_for, value_of};

use crate::decoded::{decoded_text, is_plain};
use crate::pieces::{Piece, Pieces};
use sky_val::{BoxedText, ColKind, Column, NoMemory, Row, Val, int_of};
use std::alloc::Global;

/// The row that a text writes, if it is found in one go: a piece for each column, in order, with no escape in a name or a
/// number. Another text may write a row too.
pub(crate) fn row_in_order(
    alloc: Global,
    columns: &[Column],
    text: &[u8],
) -> Result<Option<Row>, NoMemory>
    requires { AllPairs (λ one other. one.name ≢ other.name) columns.now }
    ensures { IfOk result (λ row. IfSome row (λ row. read_row columns.now text.now ≡ Ok row)) }
{
    let mut values = Vec::with_capacity(alloc, columns.len())?;
    let mut pieces = Pieces::of(text);
    for column in columns {
        let Some(piece) = pieces.next() else {
            return Ok(None);
        };
        let Some(value) = value_in(alloc, column, &piece)? else {
            return Ok(None);
        };
        values.push(value)?;
    }
    match pieces.next() {
        Some(_) => Ok(None),
        None => Ok(Some(Row::new(values))),
    }
}

/// The value that a piece gives to a column, if it has no escape in the column's name or a number.
fn value_in(alloc: Global, column: &Column, piece: &Piece<'_>) -> Result<Option<Val>, NoMemory>
    ensures name { IfOk result (λ value. OnSome value (name_in (piece_view piece.now) ≡ column.now.name)) }
    ensures text { IfOk result (λ value. OnSome value (is_text (piece_view piece.now) ≡ true)) }
    ensures value { IfOk result (λ value. IfSome value (λ value.
        value_for piece.now.start column.now (text_in (piece_view piece.now)) ≡ Ok value)) }
{
    let (name, text) = piece.sides();
    if !is_name(column, name) {
        return Ok(None);
    }
    match text {
        Some(text) => value_of_side(alloc, column.kind, text),
        None if column.key => Ok(None),
        None => Ok(Some(Val::Null)),
    }
}

/// Whether a side is the name of a column, without an escape.
fn is_name(column: &Column, side: &[u8]) -> bool
    ensures name { OnTrue result (decode side.now ≡ column.now.name) }
    ensures characters { OnTrue result (is_utf8 (decode side.now) ≡ true) }
{
    side == column.name.bytes() && is_plain(side)
}

/// The value that a side writes for a column of a kind, if it writes one, without an escape in a number.
fn value_of_side(alloc: Global, kind: ColKind, side: &[u8]) -> Result<Option<Val>, NoMemory>
    ensures text { IfOk result (λ value. OnSome value (is_utf8 (decode side.now) ≡ true)) }
    ensures value { IfOk result (λ value. IfSome value (λ value.
        value_of kind (Some (decode side.now)) ≡ Some value)) }
{
    match kind {
        ColKind::Int => match int_of(side) {
            Some(number) => Ok(Some(Val::Int(number))),
            None => Ok(None),
        },
        ColKind::Text => {
            let Some(text) = decoded_text(alloc, side)? else {
                return Ok(None);
            };
            Ok(Some(Val::Text(BoxedText::new(alloc, text)?)))
        }
    }
}
