ghost use Rattle.std.specs.Prelude.{◌≡◌, ◌<◌, [], ◌∷◌, ◌++◌, IfOk, OnOk, OnErr, length, slice_index_or};
ghost use Rattle.std.specs.List.{All};
ghost use Rattle.sky_model.specs.StepTrigger.{has_name, has_trigger};
ghost use Rattle.sky_model.specs.Triggers.{is_sets};
ghost use Rattle.pgq_queues.specs.Traced.{no_trigger, triggers_at, traced_by, place_after, places_without};

use sky_urlenc::Trigger;
use sky_val::{NoMemory, Schema, Text};
use std::alloc::Global;
use std::marker::Model;

/// A trigger of a table; that of a set of replicated tables has no name.
pub struct TableTrigger {
    pub table: u32,
    pub name: Option<Text>,
    pub trigger: Trigger,
}

// By hand, so that it is not written out at each exit of a function that owns one.
impl Drop for TableTrigger {
    fn drop(self) {
        let TableTrigger {
            table: _,
            name: _,
            trigger: _,
        } = self;
    }
}

impl Model for TableTrigger {
    ghost use Rattle.sky_model.specs.Triggers as triggers;

    ghost Value = { triggers.TableTrigger };

    ghost view = { λ t. record { table = t.table; name = t.name; trigger = t.trigger } };
}

impl TableTrigger {
    /// Whether it has this name.
    pub fn has_name(&self, name: &Text) -> bool
        ensures { result ≡ has_name name.now self.now.name }
    {
        match &self.name {
            Some(own) => *own == *name,
            None => false,
        }
    }

    /// Whether it is that of a set on a table.
    pub(crate) fn is_sets(&self, table: u32) -> bool
        ensures { result ≡ is_sets table self.now }
    {
        self.table == table && self.name.is_none()
    }
}

/// What is kept of a table with triggers: what their events say of it, and the places of its own among the triggers of
/// all tables, in the order of making.
pub struct TracedTable {
    name: Text,
    schema: Schema,
    places: Vec<usize>,
}

// By hand, so that it is not written out at each exit of a function that owns one.
impl Drop for TracedTable {
    fn drop(self) {
        let TracedTable {
            name: _,
            schema: _,
            places: _,
        } = self;
    }
}

impl Model for TracedTable {
    ghost use Rattle.pgq_queues.specs.Views.{TracedTableView};

    ghost Value = { TracedTableView };

    ghost view = { λ t. record { name = t.name; columns = t.schema; places = t.places.items } };
}

impl TracedTable {
    /// A table of this name and these columns, without triggers.
    pub fn new(alloc: Global, name: &Text, schema: &Schema) -> Result<TracedTable, NoMemory>
        ensures { IfOk result (λ table. table ≡ record { name = name.now; columns = schema.now; places = [] }) }
    {
        Ok(TracedTable {
            name: name.copy(alloc)?,
            schema: schema.copy(alloc)?,
            places: Vec::new(alloc),
        })
    }

    /// How many triggers it has.
    pub fn count(&self) -> usize
        ensures { result ≡ length self.now.places }
    {
        self.places.len()
    }

    /// Adds a trigger, at this place.
    pub fn add(&mut self, place: usize) -> Result<(), NoMemory>
        ensures ok { OnOk result (self.new ≡ record self.old { places = self.old.places ++ place ∷ [] }) }
        ensures err { OnErr result (self.new ≡ self.old) }
    {
        self.places.push(place)?;
        Ok(())
    }

    /// The trigger at a place is gone, and those after it have moved.
    pub(crate) fn close_gap(&mut self, gone: usize)
        ensures { self.new ≡ record self.old { places = places_without gone self.old.places } }
    {
        self.places.retain(|place| *place != gone);
        for place in self.places.iter_mut() {
            *place = place_after(gone, *place);
        }
    }
}

/// A table with its triggers, which are among those of all tables.
#[derive(Drop)]
pub struct Traced<'a> {
    triggers: &'a [TableTrigger],
    table: &'a TracedTable,
}

impl<'a> Model for Traced<'a> {
    ghost use Rattle.std.specs.Prelude.{◌<◌, length};
    ghost use Rattle.std.specs.List.{All};
    ghost use Rattle.pgq_queues.specs.Views.{TracedView};
    ghost use Rattle.pgq_queues.specs.Traced.{triggers_at, traced_by};

    ghost Value = { TracedView };

    ghost view = { λ t. traced_by (triggers_at t.triggers.now t.table.now.places) t.table.now };

    ghost invariant = { λ t. All (λ place. place < length t.triggers.now) t.table.now.places };
}

impl<'a> Traced<'a> {
    /// The table, with its own of these triggers.
    pub(crate) fn new(triggers: &'a [TableTrigger], table: &'a TracedTable) -> Traced<'a>
        requires { All (λ place. place < length triggers.now) table.now.places }
        ensures { result ≡ traced_by (triggers_at triggers.now table.now.places) table.now }
    {
        Traced { triggers, table }
    }

    /// Its name.
    pub fn name(&self) -> &Text
        ensures { result.now ≡ self.now.name }
    {
        let table = self.table;
        &table.name
    }

    /// Its columns.
    pub fn schema(&self) -> &Schema
        ensures { result.now ≡ self.now.columns }
    {
        let table = self.table;
        &table.schema
    }

    /// How many triggers it has.
    pub fn count(&self) -> usize
        ensures { result ≡ length self.now.triggers }
    {
        self.table.count()
    }

    /// What its nth trigger does.
    pub fn trigger(&self, n: usize) -> &Trigger
        requires { n < length self.now.triggers }
        ensures { result.now ≡ (slice_index_or self.now.triggers n no_trigger).trigger }
    {
        &self.nth(n).trigger
    }

    fn nth(&self, n: usize) -> &TableTrigger
        requires { n < length self.now.triggers }
        ensures { result.now ≡ slice_index_or self.now.triggers n no_trigger }
    {
        let table = self.table;
        &self.triggers[table.places[n]]
    }

    /// Whether it has a trigger of this name.
    pub fn has(&self, name: &Text) -> bool
        ensures { result ≡ has_trigger name.now self.now.triggers }
    {
        for n in 0..self.count() {
            if self.nth(n).has_name(name) {
                return true;
            }
        }
        false
    }
}

/// The place of what was at `place` once `gone` is removed: one less, if it came after that.
fn place_after(gone: usize, place: usize) -> usize
    ensures { result ≡ place_after gone place }
{
    if place > gone { place - 1 } else { place }
}
