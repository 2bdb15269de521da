ghost use Rattle.std.specs.Prelude.{◌≡◌, [], ◌∷◌, ◌++◌, true, false, OnOk, OnErr};

use sky_val::{NoMemory, Op, Row};
use std::alloc::Global;
use std::marker::Model;

/// What a statement did to the rows and transactions of its database.
#[derive(Debug)]
pub enum Effect {
    /// The transaction of this id wrote a row of the table of this number.
    Wrote {
        txid: u64,
        table: u32,
        op: Op,
        /// The row that was there; none for an insert.
        old: Option<Row>,
        /// The row that is there now; none for a deletion.
        new: Option<Row>,
    },
    /// The transaction of this id committed.
    Committed(u64),
    /// The transaction of this id was rolled back.
    Aborted(u64),
}

impl Drop for Effect {
    fn drop(self) {
        match self {
            Effect::Wrote {
                txid: _,
                table: _,
                op: _,
                old: _,
                new: _,
            } => {}
            Effect::Committed(_) => {}
            Effect::Aborted(_) => {}
        }
    }
}

/// Effects in order. A list that is whole has all; one that isn't leaves out the writes, which a gate records.
#[derive(Debug, Drop)]
pub struct Effects {
    items: Vec<Effect>,
    is_whole: bool,
}

impl Model for Effects {
    ghost use Rattle.sky_row_store.specs.Effects.{EffectsView};

    ghost Value = { EffectsView };

    ghost view = { λ e. record { whole = e.is_whole; items = e.items.items } };
}

impl Effects {
    /// No effect, in a list that is whole. It takes no memory.
    pub fn whole(alloc: Global) -> Effects
        ensures { result ≡ record { whole = true; items = [] } }
    {
        Effects {
            items: Vec::new(alloc),
            is_whole: true,
        }
    }

    /// No effect, in a list of the ends of transactions alone. It takes no memory.
    pub fn ends(alloc: Global) -> Effects
        ensures { result ≡ record { whole = false; items = [] } }
    {
        Effects {
            items: Vec::new(alloc),
            is_whole: false,
        }
    }

    /// Whether writes are among them.
    pub fn is_whole(&self) -> bool
        ensures { result ≡ self.now.whole }
    {
        self.is_whole
    }

    /// Appends an effect. Callers append no write to a list that isn't whole.
    pub fn push(&mut self, effect: Effect) -> Result<(), NoMemory>
        ensures ok { OnOk result (self.new ≡ record self.old { items = self.old.items ++ effect ∷ [] }) }
        ensures err { OnErr result (self.new ≡ self.old) }
    {
        self.items.push(effect)?;
        Ok(())
    }

    /// Removes all effects. The memory is kept for the next ones.
    pub fn clear(&mut self)
        ensures { self.new ≡ record self.old { items = [] } }
    {
        self.items.clear();
    }

    /// The effects, in order.
    pub fn as_slice(&self) -> &[Effect]
        ensures { result.now ≡ self.now.items }
    {
        self.items.as_slice()
    }
}
