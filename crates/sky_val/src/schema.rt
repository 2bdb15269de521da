ghost use Rattle.std.specs.Prelude.{◌≡◌, [], IfOk, OnOk, IfErr};
ghost use Rattle.sky_val.specs.Schemas.{AreNamed, has_name, twice_named, reserved_column, has_key, schema_fault};

use crate::NoMemory;
use crate::column::{Column, copy_columns};
use crate::key::Key;
use crate::row::Row;
use crate::text::Text;
use std::alloc::Global;
use std::marker::Model;
use thiserror::Error;

/// How many columns a table may have.
pub const MOST_COLUMNS: usize = 32;

/// How the names begin that no column may have.
const RESERVED: &[u8] = b"_pgq_ev_";

/// Why columns are no schema.
#[derive(Clone, Copy, Debug, PartialEq, Eq, Error)]
pub enum SchemaFault {
    #[error("more than 32 columns")]
    TooManyColumns,
    /// The first column that has the name of an earlier one.
    #[error("the column at {0} has the name of an earlier one")]
    TwiceNamed(usize),
    /// The first column whose name begins as the names of an event's fields do.
    #[error("the column at {0} has a reserved name")]
    ReservedColumn(usize),
    #[error("no column is a key")]
    NoKey,
}

/// Why a schema doesn't take a row.
#[derive(Clone, Copy, Debug, PartialEq, Eq, Error)]
pub enum RowFault {
    #[error("not as many values as columns")]
    Count,
    /// The first value of another kind than its column's.
    #[error("the value at {0} is of another kind than its column")]
    Kind(usize),
    /// The first value that is Null in a key column.
    #[error("the value at {0} is Null, and its column is a key")]
    NullKey(usize),
}

/// The columns of a table: at most 32, each with a name of its own that isn't empty, and one or more in the key.
#[derive(Debug, Drop)]
pub struct Schema {
    columns: Vec<Column>,
}

impl Model for Schema {
    ghost use Rattle.std.specs.Prelude.{◌≡◌, List, None};
    ghost use Rattle.sky_val.specs.declared.column.Column.{Column};
    ghost use Rattle.sky_val.specs.Schemas.{AreNamed, schema_fault};

    ghost Value = { List Column };

    ghost view = { λ schema. schema.columns.items };

    ghost invariant = { λ schema. (schema_fault schema.columns.items ≡ None) × AreNamed schema.columns.items };
}

impl Schema {
    ghost use Rattle.sky_val.specs.Schemas.{IsSchema, row_fault, key_of};

    /// The schema of these columns, none of which has an empty name.
    pub fn new(columns: Vec<Column>) -> Result<Schema, SchemaFault>
        requires { AreNamed columns.items }
        ensures ok { IfOk result (λ schema. schema ≡ columns.items) }
        ensures passed { OnOk result (schema_fault columns.items ≡ None) }
        ensures fault { IfErr result (λ fault. schema_fault columns.items ≡ Some fault) }
    {
        match fault_of(&columns) {
            Some(fault) => Err(fault),
            None => Ok(Schema { columns }),
        }
    }

    /// The columns, in order.
    pub fn columns(&self) -> &[Column]
        ensures value { result.now ≡ self.now }
        ensures passed { schema_fault self.now ≡ None }
        ensures sound { IsSchema self.now }
    {
        self.columns.as_slice()
    }

    /// Whether the table may have the row; if not, its first fault.
    pub fn check(&self, row: &Row) -> Result<(), RowFault>
        ensures ok { OnOk result (row_fault self.now row.now ≡ None) }
        ensures fault { IfErr result (λ fault. row_fault self.now row.now ≡ Some fault) }
    {
        let values = row.values();
        if values.len() != self.columns.len() {
            return Err(RowFault::Count);
        }
        for (place, (column, value)) in self.columns.iter().zip(values).enumerate() {
            if !value.is_of_kind(column.kind) {
                return Err(RowFault::Kind(place));
            }
            if column.key && value.is_null() {
                return Err(RowFault::NullKey(place));
            }
        }
        Ok(())
    }

    /// The key of a row: the values of the key columns, in order.
    pub fn key_of(&self, row: &Row) -> Result<Key, NoMemory>
        ensures { IfOk result (λ key. key ≡ key_of self.now row.now) }
    {
        let alloc = *self.columns.allocator();
        let count = self.columns.iter().filter(|column| column.key).count();
        let mut values = Vec::with_capacity(alloc, count)?;
        for (column, value) in self.columns.iter().zip(row.values()) {
            if column.key {
                values.push(value.copy(alloc)?)?;
            }
        }
        Ok(Key::new(values))
    }

    /// An equal schema.
    pub fn copy(&self, alloc: Global) -> Result<Schema, NoMemory>
        ensures { IfOk result (λ schema. schema ≡ self.now) }
    {
        let columns = copy_columns(alloc, &self.columns)?;
        Ok(Schema { columns })
    }
}

impl PartialEq for Schema {
    ghost use Rattle.std.specs.Cmp.{partial_equiv_from_equiv};
    ghost use Rattle.std.specs.Cmp.Lexicographic.{pointwise, lists_equiv};
    ghost use Rattle.sky_val.specs.contracts.column.ColumnEq.TheImpl.Laws as same;

    ghost eq = { pointwise ⟦<Column as PartialEq>⟧.eq };

    ghost laws = { partial_equiv_from_equiv (lists_equiv same.laws-law) };

    fn eq(&self, other: &Schema) -> bool {
        self.columns() == other.columns()
    }
}

impl Eq for Schema {
    ghost use Rattle.std.specs.Cmp.Lexicographic.{lists_equiv};
    ghost use Rattle.sky_val.specs.contracts.column.ColumnEq.TheImpl.Laws as same;

    ghost laws = { lists_equiv same.laws-law };
}

/// Why the columns are no schema.
fn fault_of(columns: &[Column]) -> Option<SchemaFault>
    ensures { result ≡ schema_fault columns.now }
{
    if columns.len() > MOST_COLUMNS {
        return Some(SchemaFault::TooManyColumns);
    }
    if let Some(place) = twice_named(columns) {
        return Some(SchemaFault::TwiceNamed(place));
    }
    if let Some(place) = reserved_column(columns) {
        return Some(SchemaFault::ReservedColumn(place));
    }
    if !has_key(columns) {
        return Some(SchemaFault::NoKey);
    }
    None
}

/// The place of the first column that has the name of an earlier one.
fn twice_named(columns: &[Column]) -> Option<usize>
    ensures { result ≡ twice_named [] columns.now }
{
    for (place, column) in columns.iter().enumerate() {
        if has_name(&columns[..place], &column.name) {
            return Some(place);
        }
    }
    None
}

/// Whether a column has this name.
fn has_name(columns: &[Column], name: &Text) -> bool
    ensures { result ≡ has_name name.now columns.now }
{
    columns.iter().any(|column| column.name == *name)
}

/// The place of the first column whose name is reserved.
fn reserved_column(columns: &[Column]) -> Option<usize>
    ensures { result ≡ reserved_column columns.now }
{
    columns
        .iter()
        .position(|column| column.name.bytes().starts_with(RESERVED))
}

/// Whether some column is part of the key.
fn has_key(columns: &[Column]) -> bool
    ensures { result ≡ has_key columns.now }
{
    columns.iter().any(|column| column.key)
}
