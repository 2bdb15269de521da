ghost use Rattle.std.specs.Prelude.{◌≡◌, ◌-◌};

use std::marker::Model;

/// The events of a table between two indexes in order of transactions, of which each was counted as looked at and can
/// be lent once. Only `EventTables::look` makes one, and only by one are several events lent at once.
#[derive(Debug, Drop)]
pub struct Looked {
    pub(crate) table: usize,
    pub(crate) first: usize,
    pub(crate) end: usize,
}

impl Model for Looked {
    ghost use Rattle.pgq_tables.specs.Views.{LookedView};

    ghost Value = { LookedView };

    ghost view = { λ l. record { table = l.table; first = l.first; end = l.end } };
}

impl Looked {
    /// How many of them weren't lent yet.
    pub fn len(&self) -> usize
        ensures { result ≡ self.now.end - self.now.first }
    {
        self.end.saturating_sub(self.first)
    }
}
