ghost use Rattle.std.specs.Prelude.{◌≡◌, ◌-◌, ◌^◌, ◌<◌, [], ◌∷◌, ◌++◌, None, IfOk, IfSome, OnOk, OnErr, length, slice_index_or};
ghost use Rattle.std.specs.Borrow.{Lends, sem};
ghost use Rattle.std.specs.List.{remove};
ghost use Rattle.sky_names.specs.Places.{place_of, Distinct};
ghost use Rattle.sky_names.specs.Named.{with_value, value_of};

use crate::names::Names;
use sky_val::{NoMemory, Text};
use std::alloc::Global;
use std::marker::Model;

/// Values in the order in which they were added, each under a name of its own, whose number is its place.
#[derive(Drop)]
pub struct Named<V> {
    names: Names,
    values: Vec<V>,
}

impl<V> Model for Named<V> {
    ghost use Rattle.std.specs.Prelude.{◌≡◌, length};
    ghost use Rattle.sky_names.specs.Named.{NamedView};

    ghost Value = { NamedView V };

    ghost view = { λ n. record { names = n.names; values = n.values.items } };

    ghost invariant = { λ n. length n.values.items ≡ length n.names };
}

impl<V> Named<V> {
    ghost use Rattle.sky_names.specs.contracts.named.Named.{the_row};

    /// No values yet.
    pub fn new(alloc: Global) -> Named<V>
        ensures { result ≡ record { names = []; values = [] } }
    {
        Named {
            names: Names::new(alloc),
            values: Vec::new(alloc),
        }
    }

    /// How many values there are.
    pub fn len(&self) -> usize
        ensures len { result ≡ length self.now.names }
        ensures values { length self.now.values ≡ length self.now.names }
        ensures numbered { result < 2 ^ 32 }
    {
        let _ = &self.values;
        self.names.len()
    }

    /// All the names, each at the place that is its number.
    pub fn names(&self) -> &[Text]
        ensures names { result.now ≡ self.now.names }
        ensures distinct { Distinct self.now.names }
    {
        self.names.as_slice()
    }

    /// The number of the name, if it is known.
    pub fn number(&self, name: &Text) -> Option<u32>
        ensures number { result ≡ place_of name.now self.now.names }
        ensures within { IfSome result (λ number. number < length self.now.names) }
    {
        self.names.number(name)
    }

    /// The same, or none if another name hides the hint for this one. It takes no `Text`.
    pub fn hinted(&self, name: &str) -> Option<u32>
        ensures number { IfSome result (λ number. place_of name.now self.now.names ≡ Some number) }
        ensures within { IfSome result (λ number. number < length self.now.names) }
    {
        self.names.hinted(name)
    }

    /// The value of this number.
    pub fn get(&self, number: usize) -> &V
        requires { number < length self.now.names }
        ensures value { result.now ≡ slice_index_or self.now.values number result.now }
        ensures within { number < length self.now.values }
    {
        &self.values[number]
    }

    /// The value of this number, to be changed.
    pub fn get_mut(&mut self, number: usize) -> &mut V
        requires { number < length self.old.names }
        ensures* writes_back { sem 𝓛 (Lends (the_row V.row) V.row self.entry result (λ value. with_value self.old number value)) }
        ensures value { result.now ≡ slice_index_or self.old.values number result.now }
        ensures within { number < length self.old.values }
    {
        &mut self.values[number]
    }

    /// Adds the value of a new name at the end, and gives its number.
    pub fn add(&mut self, name: Text, value: V) -> Result<u32, NoMemory>
    where
        V: Drop,
        requires new { value_of name self.old ≡ None }
        requires room { length self.old.names < 2 ^ 32 - 1 }
        ensures added { OnOk result (self.new ≡ record { names = self.old.names ++ name ∷ []; values = self.old.values ++ value ∷ [] }) }
        ensures number { IfOk result (λ number. number ≡ length self.old.names) }
        ensures values { length self.old.values ≡ length self.old.names }
        ensures err { OnErr result (self.new ≡ self.old) }
    {
        self.values.reserve(1)?;
        let number = self.names.add(name)?;
        self.values.push_reserved(value);
        Ok(number)
    }

    /// Removes the value of this number, and its name. Each value after it then has a number one less.
    pub fn remove(&mut self, number: usize)
    where
        V: Drop,
        requires { number < length self.old.names }
        ensures { self.new ≡ record { names = remove self.old.names number; values = remove self.old.values number } }
    {
        self.names.remove(number);
        self.values.remove(number);
    }
}
