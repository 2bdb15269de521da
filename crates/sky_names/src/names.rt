ghost use Rattle.std.specs.Prelude.{◌≡◌, ◌-◌, ◌^◌, ◌<◌, ◌↔◌, [], ◌∷◌, ◌++◌, length, true, Some, IsTrue, IfOk, IfSome, OnOk, OnErr};
ghost use Rattle.std.specs.List.{remove};
ghost use Rattle.sky_names.specs.Places.{place_of, Distinct};

use indexmap::IndexSet;
use sky_val::{NoMemory, Text};
use std::alloc::Global;
use std::marker::Model;

/// How many hints there are; a power of two.
const HINTS: usize = 512;

/// Distinct names in order, each with its place as its number.
#[derive(Drop)]
pub struct Names {
    texts: IndexSet<Text>,
    // At the hash of a name's bytes, the number of the last name with that hash. It is tried first, before the set, and
    // says nothing of any other name.
    hints: [u32; HINTS],
}

impl Model for Names {
    ghost use Rattle.std.specs.Prelude.{ℕ, List, ◌^◌, ◌<◌, length};

    ghost Value = { List (List ℕ) };

    ghost view = { λ names. names.texts.keys };

    ghost invariant = { λ names. length names.texts.keys < 2 ^ 32 };
}

impl Names {
    /// No names yet.
    pub fn new(alloc: Global) -> Names
        ensures { result ≡ [] }
    {
        Names {
            texts: IndexSet::new(alloc),
            hints: [0; HINTS],
        }
    }

    /// The number of the name, if it is known.
    pub fn number(&self, name: &Text) -> Option<u32>
        ensures { result ≡ place_of name.now self.now }
    {
        if let Some(hint) = self.hinted(name.as_str()) {
            return Some(hint);
        }
        let place = self.texts.get_index_of(name)?;
        Some(place as u32)
    }

    /// The number of the name, if its hint says it. Only another name with the same hint hides a known one.
    pub fn hinted(&self, name: &str) -> Option<u32>
        ensures { IfSome result (λ number. place_of name.now self.now ≡ Some number) }
    {
        let hint = self.hints[hint_place(name.as_bytes())];
        if self.stands_at(hint as usize, name) {
            Some(hint)
        } else {
            None
        }
    }

    /// Whether the name is at this place.
    fn stands_at(&self, place: usize, name: &str) -> bool
        ensures { result ≡ true → place_of name.now self.now ≡ Some place }
    {
        match self.as_slice().get(place) {
            Some(there) => there.as_str() == name,
            None => false,
        }
    }

    /// Appends a new name, and gives its number.
    pub fn add(&mut self, name: Text) -> Result<u32, NoMemory>
        requires new { place_of name self.old ≡ None }
        requires room { length self.old < 2 ^ 32 - 1 }
        ensures added { OnOk result (self.new ≡ self.old ++ name ∷ []) }
        ensures number { IfOk result (λ number. number ≡ length self.old) }
        ensures err { OnErr result (self.new ≡ self.old) }
    {
        let number = self.texts.len() as u32;
        let place = hint_place(name.bytes());
        self.texts.insert(name)?;
        self.hints[place] = number;
        Ok(number)
    }

    /// Removes the name at this place. Each name after it then has a number one less.
    pub fn remove(&mut self, place: usize)
        requires { place < length self.old }
        ensures { self.new ≡ remove self.old place }
    {
        // The hints stay, since each is compared with the name that is looked for.
        self.texts.shift_remove_index(place);
    }

    /// How many names there are.
    pub fn len(&self) -> usize
        ensures len { result ≡ length self.now }
        ensures numbered { result < 2 ^ 32 }
    {
        self.texts.len()
    }

    /// Whether there is no name.
    pub fn is_empty(&self) -> bool
        ensures { IsTrue result ↔ (self.now ≡ []) }
    {
        self.len() == 0
    }

    /// All the names, each at the place that is its number.
    pub fn as_slice(&self) -> &[Text]
        ensures names { result.now ≡ self.now }
        ensures distinct { Distinct self.now }
    {
        self.texts.as_slice()
    }
}

/// The place of a name among the hints, by its length, its first byte and its last three: most names differ there, and
/// a long name takes no more steps than a short one.
fn hint_place(name: &[u8]) -> usize
    ensures { result < 512 }
{
    let len = name.len();
    let sum = match len {
        0 => 0,
        1 | 2 => 17 * name[0] as usize + name[len - 1] as usize,
        _ => {
            let tail = 100 * name[len - 3] as usize + 10 * name[len - 2] as usize;
            tail + name[len - 1] as usize + 7 * name[0] as usize
        }
    };
    len.wrapping_mul(64).wrapping_add(sum) % HINTS
}
