//! The tests of the words of tables and rows.

ghost use Rattle.std.specs.Prelude.{◌≡◌, Some, MatchResult};
ghost use Rattle.sky_model.specs.Kinds as kinds;

use crate::cause::LineCause;
use crate::kinds::{first_place, is_name, quoted_text};
use sky_model::{Change, ColumnNames, Set};
use sky_val::{BoxedText, ColKind, Column, Text, Val, int_of};
use std::alloc::Global;

/// The value that a word writes.
pub(crate) fn value_of(alloc: Global, word: &str) -> Result<Option<Val>, LineCause>
    ensures { MatchResult result (λ value. value ≡ kinds.value_of word.now) (λ cause. cause ≡ LineCause.NoMemory) }
{
    if word == "null" {
        return Ok(Some(Val::Null));
    }
    if let Some(number) = int_of(word.as_bytes()) {
        return Ok(Some(Val::Int(number)));
    }
    match quoted_text(alloc, word)? {
        Some(text) => Ok(Some(Val::Text(BoxedText::new(alloc, text)?))),
        None => Ok(None),
    }
}

/// A column's kind and whether it is part of the key, by what follows its name's colon.
fn column_kind(word: &str) -> Option<(ColKind, bool)>
    ensures { result ≡ kinds.column_kind word.now }
{
    if word == "int" {
        return Some((ColKind::Int, false));
    }
    if word == "int:key" {
        return Some((ColKind::Int, true));
    }
    if word == "text" {
        return Some((ColKind::Text, false));
    }
    if word == "text:key" {
        return Some((ColKind::Text, true));
    }
    None
}

/// The column that a word describes.
pub(crate) fn column_of(alloc: Global, word: &str) -> Result<Option<Column>, LineCause>
    ensures { MatchResult result (λ column. column ≡ kinds.column_of word.now) (λ cause. cause ≡ LineCause.NoMemory) }
{
    match first_place(b':', word.as_bytes()) {
        Some(colon) => column_as(alloc, &word[..colon], column_kind(&word[colon + 1..])),
        None => Ok(None),
    }
}

/// The column of this name, if it is a name.
fn column_as(
    alloc: Global,
    name: &str,
    kind: Option<(ColKind, bool)>,
) -> Result<Option<Column>, LineCause>
    ensures { MatchResult result (λ column. column ≡ kinds.column_as name.now kind) (λ cause. cause ≡ LineCause.NoMemory) }
{
    match kind {
        Some((kind, key)) if is_name(name) => {
            let name = Text::from_str(alloc, name)?;
            Ok(Some(Column { name, kind, key }))
        }
        _ => Ok(None),
    }
}

/// The change of a column that a word describes.
pub(crate) fn set_of(alloc: Global, word: &str) -> Result<Option<Set>, LineCause>
    ensures { MatchResult result (λ set. set ≡ kinds.set_of word.now) (λ cause. cause ≡ LineCause.NoMemory) }
{
    match first_place(b'=', word.as_bytes()) {
        Some(at) => set_by(alloc, &word[..at], &word[at + 1..]),
        None => Ok(None),
    }
}

/// The change by what is before the first `=` and after it.
fn set_by(alloc: Global, front: &str, back: &str) -> Result<Option<Set>, LineCause>
    ensures { MatchResult result (λ set. set ≡ kinds.set_by front.now back.now) (λ cause. cause ≡ LineCause.NoMemory) }
{
    match front.as_bytes().strip_suffix(b"+") {
        Some(name) => set_as(
            alloc,
            &front[..name.len()],
            int_of(back.as_bytes()).map(Change::Add),
        ),
        None => set_as(alloc, front, value_of(alloc, back)?.map(Change::To)),
    }
}

/// The change of the column of this name, if it is a name.
fn set_as(alloc: Global, name: &str, change: Option<Change>) -> Result<Option<Set>, LineCause>
    ensures { MatchResult result (λ set. set ≡ kinds.set_as name.now change) (λ cause. cause ≡ LineCause.NoMemory) }
{
    match change {
        Some(change) if is_name(name) => {
            let column = Text::from_str(alloc, name)?;
            Ok(Some(Set { column, change }))
        }
        _ => Ok(None),
    }
}

/// The columns that a word names after `ignore=`.
pub(crate) fn ignore_of(alloc: Global, word: &str) -> Result<Option<ColumnNames>, LineCause>
    ensures { MatchResult result (λ names. names ≡ kinds.ignore_of word.now) (λ cause. cause ≡ LineCause.NoMemory) }
{
    match word.strip_prefix("ignore=") {
        Some(names) => names_of(alloc, names),
        None => Ok(None),
    }
}

/// Names with commas between.
fn names_of(alloc: Global, word: &str) -> Result<Option<ColumnNames>, LineCause>
    ensures { MatchResult result (λ names. names ≡ kinds.names_of word.now) (λ cause. cause ≡ LineCause.NoMemory) }
{
    let mut names = Vec::new(alloc);
    for name in word.split(',') {
        if !is_name(name) {
            return Ok(None);
        }
        names.push(Text::from_str(alloc, name)?)?;
    }
    Ok(Some(ColumnNames::new(names)))
}
