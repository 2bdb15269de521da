ghost use Rattle.std.specs.Prelude.{◌≡◌, ◌<◌, IfOk, length, slice_set};
ghost use Rattle.sky_val.specs.Kept.{row_values};

use crate::NoMemory;
use crate::val::{Val, copy_values};
use std::alloc::Global;
use std::marker::Model;

/// The values of a row: two, such as a key and its value, are kept in place and take no memory of their own.
#[derive(Debug, Drop)]
enum RowValues {
    Pair([Val; 2]),
    Listed(Vec<Val>),
}

impl RowValues {
    fn as_slice(&self) -> &[Val]
        ensures { result.now ≡ row_values self.now }
    {
        match self {
            RowValues::Pair(pair) => pair.as_slice(),
            RowValues::Listed(values) => values.as_slice(),
        }
    }

    fn copy(&self, alloc: Global) -> Result<RowValues, NoMemory>
        ensures { IfOk result (λ values. row_values values ≡ row_values self.now) }
    {
        match self {
            RowValues::Pair([first, second]) => {
                Ok(RowValues::Pair([first.copy(alloc)?, second.copy(alloc)?]))
            }
            RowValues::Listed(values) => Ok(RowValues::Listed(copy_values(alloc, values)?)),
        }
    }
}

/// A row of a table: its values, in the order of the columns.
#[derive(Debug)]
pub struct Row {
    values: RowValues,
}

// By hand, so that it is not written out at each exit of a function that owns one.
impl Drop for Row {
    fn drop(self) {
        let Row { values: _ } = self;
    }
}

impl Model for Row {
    ghost use Rattle.std.specs.Prelude.{List};
    ghost use Rattle.sky_val.specs.declared.val.Val.{Val};
    ghost use Rattle.sky_val.specs.Kept.{row_values};

    ghost Value = { List Val };

    ghost view = { λ row. row_values row.values };
}

impl Row {
    /// The row of these values.
    pub fn new(values: Vec<Val>) -> Row
        ensures { result ≡ values.items }
    {
        let values = match <[Val; 2]>::try_from(values) {
            Ok(pair) => RowValues::Pair(pair),
            Err(values) => RowValues::Listed(values),
        };
        Row { values }
    }

    /// Its values, in order.
    pub fn values(&self) -> &[Val]
        ensures { result.now ≡ self.now }
    {
        self.values.as_slice()
    }

    /// Puts a value at a place, in place of the one there.
    pub fn set(&mut self, place: usize, value: Val)
        requires { place < length self.old }
        ensures { self.new ≡ slice_set self.old place value }
    {
        match &mut self.values {
            RowValues::Pair(pair) => pair.as_mut_slice()[place] = value,
            RowValues::Listed(values) => values[place] = value,
        }
    }

    /// An equal row.
    pub fn copy(&self, alloc: Global) -> Result<Row, NoMemory>
        ensures { IfOk result (λ row. row ≡ self.now) }
    {
        let values = self.values.copy(alloc)?;
        Ok(Row { values })
    }
}

impl PartialEq for Row {
    ghost use Rattle.std.specs.Cmp.{partial_equiv_from_equiv};
    ghost use Rattle.std.specs.Cmp.Lexicographic.{pointwise, lists_equiv};
    ghost use Rattle.sky_val.specs.contracts.val.ValEq.TheImpl.Laws as same;

    ghost eq = { pointwise ⟦<Val as PartialEq>⟧.eq };

    ghost laws = { partial_equiv_from_equiv (lists_equiv same.laws-law) };

    fn eq(&self, other: &Row) -> bool {
        self.values() == other.values()
    }
}

impl Eq for Row {
    ghost use Rattle.std.specs.Cmp.Lexicographic.{lists_equiv};
    ghost use Rattle.sky_val.specs.contracts.val.ValEq.TheImpl.Laws as same;

    ghost laws = { lists_equiv same.laws-law };
}
