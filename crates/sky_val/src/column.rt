ghost use Rattle.std.specs.Prelude.{◌≡◌, IfOk};

use crate::NoMemory;
use crate::text::Text;
use std::alloc::Global;

/// Which values a column takes. Every column but those of the key takes Null too.
#[derive(Clone, Copy, Debug, PartialEq, Eq)]
pub enum ColKind {
    Int,
    Text,
}

/// A column of a table.
#[derive(Debug, PartialEq, Eq, Drop)]
pub struct Column {
    pub name: Text,
    pub kind: ColKind,
    /// Whether its values are part of the key.
    pub key: bool,
}

impl Column {
    /// An equal column.
    pub fn copy(&self, alloc: Global) -> Result<Column, NoMemory>
        ensures { IfOk result (λ column. column ≡ self.now) }
    {
        Ok(Column {
            name: self.name.copy(alloc)?,
            kind: self.kind,
            key: self.key,
        })
    }
}

/// A list of equal columns.
pub fn copy_columns(alloc: Global, columns: &[Column]) -> Result<Vec<Column>, NoMemory>
    ensures { IfOk result (λ copies. copies.items ≡ columns.now) }
{
    let mut copies = Vec::with_capacity(alloc, columns.len())?;
    for column in columns {
        copies.push(column.copy(alloc)?)?;
    }
    Ok(copies)
}
