ghost use Rattle.std.specs.Prelude.{◌≡◌, ◌≢◌, ℕ, ◌<◌, true, false, List, [], None, Some, IfSome, OnSome, OnOk, OnErr};
ghost use Rattle.std.specs.Option.{option_copied};
ghost use Rattle.std.specs.List.Sorted.{IsStrictlySortedBy};
ghost use Rattle.std.specs.Ordering.{eq_by_cmp};
ghost use Rattle.std.specs.Map.{keys_of, lookup};
ghost use Rattle.std.specs.BTreeMap.{is_at, insert_entry};
ghost use Rattle.sky_val.specs.declared.val.Val.{Val};
ghost use Rattle.sky_val.specs.Order.{key_cmp};
ghost use Rattle.sky_keys.specs.Versions.{version_of, versions_at, written};
ghost use Rattle.sky_rows.specs.Kept.{all_versions, AreOwn};
ghost use Rattle.sky_rows.specs.Rows.{place_at, key_at, rows_in, AreThere};
ghost use Rattle.sky_rows.specs.Table.{forgotten_at};

use crate::kept::Kept;
use crate::older::Older;
use sky_keys::Version;
use sky_val::{Key, NoMemory, Val};
use slab::Slab;
use std::alloc::Global;
use std::cmp::Ordering;
use std::collections::BTreeMap;
use std::marker::Model;

/// How many hints there are at first; a power of two.
const FEW: usize = 16;

/// How many bytes of a text make its number.
const TAIL: usize = 8;

/// A key, and what is kept of it.
#[derive(Debug, Drop)]
pub(crate) struct Slot {
    key: Key,
    kept: Kept,
}

/// The keys of a table, each with what is kept of it. A map has their order, and hints find most of them without it.
#[derive(Debug, Drop)]
pub(crate) struct Rows {
    alloc: Global,
    slots: Slab<Slot>,

    // The place of each key's slot.
    places: BTreeMap<Key, usize>,

    // At the number of a key, the place of the last key with that number. It is tried first, before the map, and says
    // nothing of any other key. There are at least as many as keys, unless memory ran out for them.
    hints: Vec<u32>,
}

impl Model for Rows {
    ghost use Rattle.sky_rows.specs.Rows.{RowsView, IsPlaced};

    ghost Value = { RowsView };

    ghost view = { λ r. record { slots = r.slots; places = r.places.entries } };

    ghost invariant = { λ r. IsPlaced r.slots r.places.entries };
}

impl Rows {
    /// None.
    pub(crate) fn new(alloc: Global) -> Rows
        ensures { rows_in result ≡ [] }
    {
        Rows {
            alloc,
            slots: Slab::new(alloc),
            places: BTreeMap::new(alloc),
            hints: Vec::new(alloc),
        }
    }

    /// The place of each key, in the order of the keys.
    pub(crate) fn places(&self) -> &BTreeMap<Key, usize>
        ensures entries { result.now.entries ≡ self.now.places }
        ensures order { IsStrictlySortedBy key_cmp (keys_of self.now.places) }
    {
        &self.places
    }

    /// A number above all places.
    pub(crate) fn end(&self) -> usize
        ensures above { (place : ℕ) → key_at self.now.slots place ≢ None → place < result }
        ensures there { AreThere self.now.slots self.now.places }
    {
        self.slots.capacity()
    }

    /// What is kept of the key that was found at the place.
    pub(crate) fn found(&self, place: Option<usize>) -> Option<&Kept>
        ensures kept { (key : List Val) → place ≡ place_at self.now.places key
            → option_copied result ≡ lookup (is_at (key_cmp key)) (rows_in self.now) }
        ensures there { OnSome result ((key : List Val) × (place ≡ place_at self.now.places key)) }
    {
        let slot = self.slots.get(place?)?;
        Some(&slot.kept)
    }

    /// The place of the key.
    // Always inlined, and apart from the search, since a hint nearly always holds.
    #[inline(always)]
    pub(crate) fn place(&self, key: &Key) -> Option<usize>
        ensures place { result ≡ place_at self.now.places key.now }
        ensures there { IfSome result (λ place. key_at self.now.slots place ≡ Some key.now) }
        ensures order { IsStrictlySortedBy key_cmp (keys_of (rows_in self.now)) }
    {
        if let Some(hint) = self.hints.get(hint_place(self.hints.len(), key)) {
            let place = *hint as usize;
            if self.is_at(place, key) {
                return Some(place);
            }
        }
        self.search(key)
    }

    /// The place of the key, by the map.
    #[inline(never)]
    fn search(&self, key: &Key) -> Option<usize>
        ensures { result ≡ place_at self.now.places key.now }
    {
        self.places.get(key).copied()
    }

    /// Whether the key's slot is at this place.
    #[inline(always)]
    fn is_at(&self, place: usize, key: &Key) -> bool
        ensures { result ≡ true → place_at self.now.places key.now ≡ Some place }
    {
        match self.slots.get(place) {
            Some(slot) => is_same(key, &slot.key),
            None => false,
        }
    }

    /// Puts the version at the key, which was found at the place. If its transaction may have one there already, that
    /// is looked for and replaced.
    pub(crate) fn put(
        &mut self,
        older: &mut Older,
        place: Option<usize>,
        key: Key,
        version: Version,
        again: bool,
    ) -> Result<(), NoMemory>
        requires place { place ≡ place_at self.old.places key }
        requires first { again ≡ false → version_of version.txid (versions_at key (all_versions older.old (rows_in self.old))) ≡ None }
        requires own { AreOwn older.old (rows_in self.old) }
        ensures ok { OnOk result
            (all_versions older.new (rows_in self.new) ≡ written version.txid key version.row (all_versions older.old (rows_in self.old))) }
        ensures err { OnErr result (all_versions older.new (rows_in self.new) ≡ all_versions older.old (rows_in self.old)) }
        ensures stay { OnErr result (self.new.places ≡ self.old.places) }
        ensures own { AreOwn older.new (rows_in self.new) }
    {
        let Some(place) = place else {
            return self.insert(key, Kept::first(version));
        };
        let slot = &mut self.slots[place];
        if again {
            slot.kept.write(older, version)
        } else {
            slot.kept.push(older, version)
        }
    }

    /// Adds a key, which has no place.
    fn insert(&mut self, key: Key, kept: Kept) -> Result<(), NoMemory>
        requires { place_at self.old.places key ≡ None }
        ensures ok { OnOk result (rows_in self.new ≡ insert_entry key_cmp (rows_in self.old) key kept) }
        ensures err { OnErr result (rows_in self.new ≡ rows_in self.old) }
        ensures stay { OnErr result (self.new.places ≡ self.old.places) }
    {
        self.slots.reserve(1)?;
        let place = self.slots.vacant_key();
        self.places.insert(key.copy(self.alloc)?, place)?;
        hint(&mut self.hints, &key, place);
        self.slots.insert_reserved(Slot { key, kept });
        if self.hints.len() < self.slots.len() {
            self.hint_all();
        }
        Ok(())
    }

    /// Makes twice as many hints, if there is memory for them.
    #[inline(never)]
    fn hint_all(&mut self)
        ensures { self.new ≡ self.old }
    {
        let len = self.hints.len().wrapping_mul(2).max(FEW);
        let mut hints = Vec::new(self.alloc);
        let Ok(()) = hints.resize(len, 0) else {
            return;
        };
        for (place, slot) in self.slots.iter() {
            hint(&mut hints, &slot.key, place);
        }
        self.hints = hints;
    }

    /// Removes the transaction's version of the key at the place, and the key with its last.
    pub(crate) fn forget(&mut self, older: &mut Older, place: usize, txid: u64)
        requires { AreOwn older.old (rows_in self.old) }
        ensures entries { (key : List Val) → key_at self.old.slots place ≡ Some key
            → all_versions older.new (rows_in self.new) ≡ forgotten_at txid key (all_versions older.old (rows_in self.old)) }
        ensures none { key_at self.old.slots place ≡ None → all_versions older.new (rows_in self.new) ≡ all_versions older.old (rows_in self.old) }
        ensures order { IsStrictlySortedBy key_cmp (keys_of (rows_in self.old)) }
        ensures others { (other : ℕ) → other ≢ place → key_at self.new.slots other ≡ key_at self.old.slots other }
        ensures own { AreOwn older.new (rows_in self.new) }
    {
        let Some(slot) = self.slots.get_mut(place) else {
            return;
        };
        if slot.kept.outlives(older, txid) {
            return;
        }
        let slot = self.slots.remove(place);
        self.places.remove(&slot.key);
    }
}

/// Whether the keys are the same.
#[inline(always)]
fn is_same(key: &Key, other: &Key) -> bool
    ensures { result ≡ eq_by_cmp key_cmp key.now other.now }
{
    key.cmp(other) == Ordering::Equal
}

/// Makes the place the hint of this key.
#[inline(always)]
fn hint(hints: &mut Vec<u32>, key: &Key, place: usize) {
    let number = hint_place(hints.len(), key);
    if let (Some(hint), Ok(place)) = (hints.get_mut(number), u32::try_from(place)) {
        *hint = place;
    }
}

/// Where the hint of a key is, if there are so many: a power of two, or none.
#[inline(always)]
fn hint_place(len: usize, key: &Key) -> usize {
    number_of(key) as usize & len.wrapping_sub(1)
}

/// A number for a key. Those of keys of one number differ if these are near each other.
#[inline(always)]
fn number_of(key: &Key) -> u64 {
    let mut sum = 0_u64;
    for value in key.values() {
        let number = match value {
            Val::Int(number) => number.cast_unsigned(),
            Val::Text(text) => tail_number(text.as_text().bytes()),
            Val::Null => 0,
        };
        sum = sum.wrapping_mul(31).wrapping_add(number);
    }
    sum
}

/// A number for a text, by its last bytes.
#[inline(never)]
fn tail_number(text: &[u8]) -> u64 {
    let from = text.len().saturating_sub(TAIL);
    let mut sum = 0_u64;
    for byte in &text[from..] {
        sum = sum.wrapping_mul(10).wrapping_add(*byte as u64);
    }
    sum
}
