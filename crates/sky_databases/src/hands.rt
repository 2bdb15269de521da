//! What the workers of leaves have in hand, from one move to the next.

ghost use Rattle.std.specs.Prelude.{◌≡◌, ◌<◌, [], None, IfOk, OnOk, OnErr, length, option_map, position};
ghost use Rattle.sky_model.specs.State.{changed_at, changed_for};
ghost use Rattle.londiste_copy.specs.Hands.{hand_of};
ghost use Rattle.sky_databases.specs.Hands.{IsPlaceOf, is_hand_of, hand_at, worker_at, with_hand, batch_at};

use londiste_batches::BatchHand;
use londiste_copy::Hand;
use sky_val::{NoMemory, Text};
use std::alloc::Global;
use std::collections::BTreeMap;
use std::marker::Model;

/// What the worker that copies a table of a database has in hand.
#[derive(Drop)]
struct HandAt {
    database: usize,
    table: Text,
    hand: Option<Hand>,
}

impl Model for HandAt {
    ghost use Rattle.std.specs.Prelude.{option_map};
    ghost use Rattle.londiste_copy.specs.Hands.{hand_of};
    ghost use Rattle.sky_databases.specs.Hands.{HandAt};

    ghost Value = { HandAt };

    ghost view = { λ h. record { database = h.database; table = h.table; hand = option_map hand_of h.hand } };
}

impl HandAt {
    /// Whether it is that of a table.
    fn is_of(&self, database: usize, table: &Text) -> bool
        ensures { result ≡ is_hand_of database table.now self.now }
    {
        self.database == database && *table == self.table
    }
}

/// What the workers that copy tables have in hand, in the order of their first moves.
#[derive(Drop)]
pub struct Hands {
    alloc: Global,
    hands: Vec<HandAt>,
}

impl Model for Hands {
    ghost use Rattle.std.specs.Prelude.{List};
    ghost use Rattle.sky_databases.specs.Hands.{HandAt};

    ghost Value = { List HandAt };

    ghost view = { λ h. h.hands.items };
}

impl Hands {
    /// Nothing.
    pub fn new(alloc: Global) -> Hands
        ensures { result ≡ [] }
    {
        Hands {
            alloc,
            hands: Vec::new(alloc),
        }
    }

    /// The place of the worker of a table. If it has none yet, it gets one, with nothing in hand.
    pub fn place_for(&mut self, database: usize, table: &Text) -> Result<usize, NoMemory>
        ensures place { IfOk result (λ place. IsPlaceOf self.new database table.now place) }
        ensures same { hand_at self.new ≡ hand_at self.old }
    {
        if let Some(place) = self.place(database, table) {
            return Ok(place);
        }
        let place = self.hands.len();
        let table = table.copy(self.alloc)?;
        let hand = None;
        self.hands.push(HandAt {
            database,
            table,
            hand,
        })?;
        Ok(place)
    }

    /// Takes what the worker at a place has in hand, which is nothing then.
    pub fn take_at(&mut self, place: usize) -> Option<Hand>
        requires { place < length self.old }
        ensures hand { option_map hand_of result ≡ (worker_at self.old place).hand }
        ensures nothing { self.new ≡ with_hand self.old place None }
    {
        self.hands[place].hand.take()
    }

    /// From now on the worker at a place has this in hand, or nothing.
    pub fn put_at(&mut self, place: usize, hand: Option<Hand>)
        requires { place < length self.old }
        ensures { self.new ≡ with_hand self.old place (option_map hand_of hand) }
    {
        self.hands[place].hand = hand;
    }

    /// Takes what the worker of a table has in hand, which is nothing then.
    pub fn take(&mut self, database: usize, table: &Text) -> Option<Hand>
        ensures hand { option_map hand_of result ≡ hand_at self.old database table.now }
        ensures nothing { hand_at self.new ≡ changed_at database (changed_for table.now (λ _. None)) (hand_at self.old) }
    {
        let place = self.place(database, table)?;
        self.take_at(place)
    }

    /// The place of the worker of a table.
    fn place(&self, database: usize, table: &Text) -> Option<usize>
        ensures { result ≡ position (is_hand_of database table.now) self.now }
    {
        self.hands
            .iter()
            .position(|hand| hand.is_of(database, table))
    }
}

/// The batches that the workers of leaves have in hand, by the number of the leaf's database.
#[derive(Drop)]
pub struct Batches {
    batches: BTreeMap<usize, BatchHand>,
}

impl Model for Batches {
    ghost use Rattle.std.specs.Prelude.{ℕ, List};
    ghost use Rattle.sky_model.specs.Hands.{BatchHand};

    ghost Value = { List (ℕ × BatchHand) };

    ghost view = { λ b. b.batches.entries };
}

impl Batches {
    /// None.
    pub fn new(alloc: Global) -> Batches
        ensures { result ≡ [] }
    {
        Batches {
            batches: BTreeMap::new(alloc),
        }
    }

    /// What the worker of the leaf of a database has in hand.
    pub fn get(&self, database: usize) -> Option<BatchHand>
        ensures { result ≡ batch_at self.now database }
    {
        self.batches.get(&database).copied()
    }

    /// From now on it has this in hand, or nothing. If memory runs out, nothing changes.
    pub fn set(&mut self, database: usize, hand: Option<BatchHand>) -> Result<(), NoMemory>
        ensures ok { OnOk result (batch_at self.new ≡ changed_at database (λ _. hand) (batch_at self.old)) }
        ensures err { OnErr result (self.new ≡ self.old) }
    {
        match hand {
            Some(batch) => {
                self.batches.insert(database, batch)?;
            }
            None => self.empty(database),
        }
        Ok(())
    }

    /// From now on it has nothing in hand.
    pub fn empty(&mut self, database: usize)
        ensures { batch_at self.new ≡ changed_at database (λ _. None) (batch_at self.old) }
    {
        self.batches.remove(&database);
    }
}
