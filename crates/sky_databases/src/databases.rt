//! The databases of a world.

ghost use Rattle.std.specs.Prelude.{◌≡◌, ◌-◌, ◌^◌, ◌<◌, ◌==◌, [], ◌∷◌, ◌++◌, false, None, IfSome, OnOk, OnErr, length, slice_index_or, slice_set};
ghost use Rattle.std.specs.Borrow.{Lends, LendsBoth, Array, sem};
ghost use Rattle.sky_names.specs.Named.{with_value};
ghost use Rattle.sky_names.specs.Places.{place_of};
ghost use Rattle.sky_databases.specs.Databases.{with_stores};

use sky_names::Names;
use sky_store::Store;
use sky_val::{NoMemory, Text};
use std::alloc::Global;
use std::marker::Model;

/// Databases in the order in which they were made, each under a name of its own. A database's number is its place.
#[derive(Drop)]
pub struct Databases<D: Store> {
    names: Names,
    stores: Vec<D>,
}

impl<D: Store> Model for Databases<D> {
    ghost use Rattle.std.specs.Prelude.{◌≡◌, length};
    ghost use Rattle.sky_names.specs.Named.{NamedView};

    ghost Value = { NamedView D };

    ghost view = { λ d. record { names = d.names; values = d.stores.items } };

    ghost invariant = { λ d. length d.stores.items ≡ length d.names };
}

impl<D: Store> Databases<D> {
    ghost use Rattle.sky_databases.specs.contracts.databases.Databases.{the_row};

    /// None yet.
    pub fn new(alloc: Global) -> Databases<D>
        ensures { result ≡ record { names = []; values = [] } }
    {
        Databases {
            names: Names::new(alloc),
            stores: Vec::new(alloc),
        }
    }

    /// How many there are.
    pub fn len(&self) -> usize
        ensures len { result ≡ length self.now.names }
        ensures numbered { result < 2 ^ 32 }
    {
        self.names.len()
    }

    /// The number of the database of this name, if it is known.
    pub fn number(&self, name: &Text) -> Option<u32>
        ensures number { result ≡ place_of name.now self.now.names }
        ensures within { IfSome result (λ number. number < length self.now.names) }
    {
        self.names.number(name)
    }

    /// The database of this number.
    pub fn get(&self, number: usize) -> &D
        requires { number < length self.now.names }
        ensures value { result.now ≡ slice_index_or self.now.values number result.now }
        ensures within { number < length self.now.values }
    {
        &self.stores[number]
    }

    /// The database of this number, to be changed.
    pub fn get_mut(&mut self, number: usize) -> &mut D
        requires { number < length self.old.names }
        ensures* writes_back { sem 𝓛 (Lends (the_row D.row D.Store) D.row self.entry result (λ store. with_value self.old number store)) }
        ensures value { result.now ≡ slice_index_or self.old.values number result.now }
        ensures within { number < length self.old.values }
    {
        &mut self.stores[number]
    }

    /// All of them, each at the place that is its number, to be changed.
    pub fn stores_mut(&mut self) -> &mut [D]
        ensures* writes_back { sem 𝓛 (Lends (the_row D.row D.Store) (Array D.row 0) self.entry result (λ stores. with_stores self.old stores)) }
        ensures stores { result.now ≡ self.old.values }
        ensures as_many { length self.old.values ≡ length self.old.names }
    {
        self.stores.as_mut_slice()
    }

    /// Adds a database of a new name.
    pub fn add(&mut self, name: Text, store: D) -> Result<(), NoMemory>
        requires new { place_of name self.old.names ≡ None }
        requires room { length self.old.names < 2 ^ 32 - 1 }
        ensures added { OnOk result (self.new ≡ record { names = self.old.names ++ name ∷ []; values = self.old.values ++ store ∷ [] }) }
        ensures err { OnErr result (self.new ≡ self.old) }
    {
        self.stores.reserve(1)?;
        self.names.add(name)?;
        self.stores.push_reserved(store);
        Ok(())
    }
}

/// The values at two places, to be changed.
pub fn two_of<V>(values: &mut [V], first: usize, second: usize) -> (&mut V, &mut V)
    requires first { first < length values.old }
    requires second { second < length values.old }
    requires apart { (first == second) ≡ false }
    ensures* writes_back { sem 𝓛 (LendsBoth (Array V.row 0) V.row V.row values.entry result (λ x y. slice_set (slice_set values.old first x) second y)) }
    ensures first { result.0.now ≡ slice_index_or values.old first result.0.now }
    ensures second { result.1.now ≡ slice_index_or values.old second result.1.now }
{
    if first < second {
        let (front, back) = values.split_at_mut(second);
        (&mut front[first], &mut back[0])
    } else {
        let (front, back) = values.split_at_mut(first);
        (&mut back[0], &mut front[second])
    }
}
