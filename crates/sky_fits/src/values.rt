//! The tests of values against the columns of a table, and what changes make of a row.

ghost use Rattle.std.specs.Prelude.{◌≡◌, ◌<◌, [], ◌∷◌, Ok, Some, None, IfOk, IfErr, OnOk, length, bytes_eq, option_map, find, position};
ghost use Rattle.std.specs.Option.{option_copied};
ghost use Rattle.std.specs.List.{list_any};
ghost use Rattle.sky_val.specs.Schemas.{AreNamed, schema_fault, key_columns};
ghost use Rattle.sky_model.specs.Outcome.{refused_by, found_or};
ghost use Rattle.sky_model.specs.StepRows as spec;
ghost use Rattle.sky_model.specs.Stops.{StopsAs};

use sky_model::{BadRow, Change, Columns, Limit, Refusal, Set, Stop};
use sky_val::{ColKind, Column, Key, NoMemory, Row, Schema, SchemaFault, Text, Val, copy_columns};
use std::alloc::Global;

/// A refusal of values or changes.
fn bad(row: BadRow) -> Stop
    ensures { result ≡ Stop.Refused (Refusal.BadRow row) }
{
    Stop::Refused(Refusal::BadRow(row))
}

/// Refuses a value that its column doesn't take.
fn fits_column(alloc: Global, column: &Column, value: &Val) -> Result<(), Stop>
    ensures ok { OnOk result (spec.fits (column.now ∷ []) (value.now ∷ []) ≡ Ok tt) }
    ensures err { IfErr result (λ stop. StopsAs stop (spec.fits (column.now ∷ []) (value.now ∷ []))) }
{
    if !value.is_of_kind(column.kind) {
        return Err(bad(BadRow::Type(column.name.copy(alloc)?)));
    }
    if column.key && value.is_null() {
        return Err(bad(BadRow::NullKey(column.name.copy(alloc)?)));
    }
    Ok(())
}

/// Refuses a row that the columns don't take: first by the number of its values, then by the first value that its
/// column doesn't take.
pub fn row_fits(alloc: Global, columns: &[Column], row: &Row) -> Result<(), Stop>
    ensures ok { OnOk result (spec.fits columns.now row.now ≡ Ok tt) }
    ensures err { IfErr result (λ stop. StopsAs stop (spec.fits columns.now row.now)) }
{
    let values = row.values();
    if values.len() != columns.len() {
        return Err(bad(BadRow::Count));
    }
    for (column, value) in columns.iter().zip(values) {
        fits_column(alloc, column, value)?;
    }
    Ok(())
}

/// How many columns are part of the key.
fn key_len(columns: &[Column]) -> usize
    ensures { result ≡ length (key_columns columns.now) }
{
    columns.iter().filter(|column| column.key).count()
}

/// Refuses a key that the key columns don't take, in the same order of tests.
pub fn key_fits(alloc: Global, columns: &[Column], key: &Key) -> Result<(), Stop>
    ensures ok { OnOk result (spec.fits (key_columns columns.now) key.now ≡ Ok tt) }
    ensures err { IfErr result (λ stop. StopsAs stop (spec.fits (key_columns columns.now) key.now)) }
{
    let values = key.values();
    if values.len() != key_len(columns) {
        return Err(bad(BadRow::Count));
    }
    let mut place = 0;
    for column in columns {
        if column.key {
            fits_column(alloc, column, &values[place])?;
            place += 1;
        }
    }
    Ok(())
}

/// The column of this name.
fn column_called<'a>(columns: &'a [Column], name: &Text) -> Option<&'a Column>
    ensures { option_copied result ≡ spec.column_called name.now columns.now }
{
    columns.iter().find(|column| column.name == *name)
}

/// Whether a column of this kind takes such a change.
fn is_change_of(kind: ColKind, change: &Change) -> bool
    ensures { result ≡ spec.is_change_of kind change.now }
{
    match change {
        Change::To(value) => value.is_of_kind(kind),
        Change::Add(_) => kind == ColKind::Int,
    }
}

/// Whether one of the changes is of the column of this name.
fn changes(sets: &[Set], column: &Text) -> bool
    ensures { result ≡ list_any (λ set. bytes_eq column.now set.column) sets.now }
{
    sets.iter().any(|set| *column == set.column)
}

/// Refuses the first bad change, by the first test that it fails: its column exists, no earlier change is of the same
/// column, and the column takes such a change. So what is refused depends on the order in which the changes are
/// written, and on no row.
pub fn sets_fit(alloc: Global, columns: &[Column], sets: &[Set]) -> Result<(), Stop>
    ensures ok { OnOk result (spec.bad_sets columns.now [] sets.now ≡ None) }
    ensures err { IfErr result (λ stop. StopsAs stop (refused_by (option_map Refusal.BadRow (spec.bad_sets columns.now [] sets.now)))) }
{
    for (place, set) in sets.iter().enumerate() {
        let Some(column) = column_called(columns, &set.column) else {
            return Err(bad(BadRow::NoColumn(set.column.copy(alloc)?)));
        };
        if changes(&sets[..place], &set.column) {
            return Err(bad(BadRow::Twice(set.column.copy(alloc)?)));
        }
        if !is_change_of(column.kind, &set.change) {
            return Err(bad(BadRow::Type(set.column.copy(alloc)?)));
        }
    }
    Ok(())
}

/// Whether the change is of a key column.
fn is_key_change(columns: &[Column], set: &Set) -> bool
    ensures { result ≡ spec.is_key_change columns.now set.now }
{
    columns
        .iter()
        .filter(|column| column.key)
        .any(|column| column.name == set.column)
}

/// The first change of a key column.
fn key_change<'a>(columns: &[Column], sets: &'a [Set]) -> Option<&'a Set>
    ensures { option_copied result ≡ find (spec.is_key_change columns.now) sets.now }
{
    sets.iter().find(|set| is_key_change(columns, set))
}

/// Refuses the first change of a key column: an update leaves a row's key as it is.
pub fn key_stays(alloc: Global, columns: &[Column], sets: &[Set]) -> Result<(), Stop>
    ensures ok { OnOk result (spec.key_stays columns.now sets.now ≡ Ok tt) }
    ensures err { IfErr result (λ stop. StopsAs stop (spec.key_stays columns.now sets.now)) }
{
    match key_change(columns, sets) {
        None => Ok(()),
        Some(set) => {
            let column = set.column.copy(alloc)?;
            Err(Stop::Refused(Refusal::KeyChange(column)))
        }
    }
}

/// The value after a change; none if the sum doesn't fit 64 bits. A sum with Null is Null.
fn changed(alloc: Global, change: &Change, old: &Val) -> Result<Option<Val>, NoMemory>
    ensures { IfOk result (λ new. new ≡ spec.changed change.now old.now) }
{
    match (change, old) {
        (Change::To(value), _) => Ok(Some(value.copy(alloc)?)),
        (Change::Add(number), Val::Int(old)) => Ok(old.checked_add(*number).map(Val::Int)),
        (Change::Add(_), old) => Ok(Some(old.copy(alloc)?)),
    }
}

/// The place of the first column of this name.
fn place_of(columns: &[Column], name: &Text) -> Option<usize>
    ensures { result ≡ position (λ column. bytes_eq column.name name.now) columns.now }
{
    columns.iter().position(|column| column.name == *name)
}

/// Makes the change in a row, or refuses it if a sum doesn't fit 64 bits.
fn change_row(alloc: Global, columns: &[Column], set: &Set, row: &mut Row) -> Result<(), Stop>
    ensures ok { OnOk result (spec.with_set columns.now set.now row.old ≡ Some row.new) }
    ensures err { IfErr result (λ stop. StopsAs stop (found_or (spec.with_set columns.now set.now row.old) (Refusal.OutOfRange set.now.column))) }
{
    let Some(place) = place_of(columns, &set.column) else {
        return Ok(());
    };
    let Some(old) = row.values().get(place) else {
        return Ok(());
    };
    match changed(alloc, &set.change, old)? {
        Some(new) => {
            row.set(place, new);
            Ok(())
        }
        None => {
            let column = set.column.copy(alloc)?;
            Err(Stop::Refused(Refusal::OutOfRange(column)))
        }
    }
}

/// The row after the changes, one after another.
pub fn with_sets(alloc: Global, columns: &[Column], sets: &[Set], row: &Row) -> Result<Row, Stop>
    ensures ok { IfOk result (λ new. spec.with_sets columns.now sets.now row.now ≡ Ok new) }
    ensures err { IfErr result (λ stop. StopsAs stop (spec.with_sets columns.now sets.now row.now)) }
{
    let mut new = row.copy(alloc)?;
    for set in sets {
        change_row(alloc, columns, set, &mut new)?;
    }
    Ok(new)
}

/// The name of the column at a place.
fn column_name(alloc: Global, columns: &[Column], place: usize) -> Result<Text, NoMemory>
    requires { place < length columns.now }
    ensures { IfOk result (λ name. name ≡ spec.column_name columns.now place) }
{
    columns[place].name.copy(alloc)
}

/// Why the columns make no table.
fn schema_refusal(
    alloc: Global,
    columns: &[Column],
    fault: SchemaFault,
) -> Result<Refusal, NoMemory>
    requires { schema_fault columns.now ≡ Some fault }
    ensures { IfOk result (λ refusal. refusal ≡ spec.schema_refusal columns.now fault) }
{
    match fault {
        SchemaFault::TooManyColumns => Ok(Refusal::TooMany(Limit::Columns)),
        SchemaFault::TwiceNamed(place) => {
            Ok(Refusal::TwiceNamed(column_name(alloc, columns, place)?))
        }
        SchemaFault::ReservedColumn(place) => {
            Ok(Refusal::ReservedColumn(column_name(alloc, columns, place)?))
        }
        SchemaFault::NoKey => Ok(Refusal::NoKey),
    }
}

/// The schema of the columns of a new table.
pub fn new_schema(alloc: Global, columns: &Columns) -> Result<Schema, Stop>
    requires { AreNamed columns.now }
    ensures schema { IfOk result (λ schema. schema ≡ columns.now) }
    ensures ok { OnOk result (refused_by (option_map (spec.schema_refusal columns.now) (schema_fault columns.now)) ≡ Ok tt) }
    ensures err { IfErr result (λ stop. StopsAs stop (refused_by (option_map (spec.schema_refusal columns.now) (schema_fault columns.now)))) }
{
    let columns = columns.as_slice();
    match Schema::new(copy_columns(alloc, columns)?) {
        Ok(schema) => Ok(schema),
        Err(fault) => Err(Stop::Refused(schema_refusal(alloc, columns, fault)?)),
    }
}
