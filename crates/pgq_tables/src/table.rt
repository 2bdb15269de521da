ghost use Rattle.std.specs.Prelude.{◌≡◌, ◌==◌, ◌<◌, [], ◌∷◌, ◌++◌, List, false, Some, OnOk, OnErr, length, map, slice_get};
ghost use Rattle.std.specs.List.{list_any};
ghost use Rattle.sky_val.specs.declared.event.Event.{Event};
ghost use Rattle.pgq_tables.specs.Tables.{Stored, full_event, marked_dead};
ghost use Rattle.pgq_tables.specs.Order.{by_txid};

use crate::index::{Placed, count_below, count_up_to, insert_reserved};
use crate::stored::{PlainEvent, Stored};
use sky_val::{Event, NoMemory};
use std::alloc::Global;
use std::marker::Model;

/// One table: its events in the order of storing, and their places in order of transactions, those of one transaction
/// in the order of storing.
#[derive(Drop)]
pub(crate) struct Table {
    events: Vec<Stored>,
    places: Vec<Placed>,
}

impl Model for Table {
    ghost use Rattle.std.specs.Prelude.{◌≡◌, List};
    ghost use Rattle.pgq_tables.specs.Tables.{Stored};
    ghost use Rattle.pgq_tables.specs.Kept.{places_of};

    ghost Value = { List Stored };

    ghost invariant = { λ t. t.places.items ≡ places_of t.events.items };

    ghost view = { λ t. t.events.items };
}

impl Table {
    /// An empty one. No memory is taken.
    pub(crate) fn new(alloc: Global) -> Table
        ensures { result ≡ [] }
    {
        Table {
            events: Vec::new(alloc),
            places: Vec::new(alloc),
        }
    }

    /// How many events it has.
    pub(crate) fn len(&self) -> usize
        ensures { result ≡ length self.now }
    {
        self.events.len()
    }

    /// Stores an event. All memory is taken first, so that nothing has changed after an error.
    #[inline(always)]
    pub(crate) fn push(&mut self, alloc: Global, event: Event) -> Result<(), NoMemory>
        ensures ok { OnOk result (self.new ≡ self.old ++ record { event = event; dead = false } ∷ []) }
        ensures err { OnErr result (self.new ≡ self.old) }
    {
        let stored = Stored::new(alloc, event, self.events.last())?;
        self.push_stored(stored)
    }

    /// Stores a plain event. Nothing has changed after an error.
    #[inline(always)]
    pub(crate) fn push_plain(&mut self, alloc: Global, event: PlainEvent) -> Result<(), NoMemory>
        ensures ok { OnOk result (self.new ≡ self.old ++ record { event = full_event event; dead = false } ∷ []) }
        ensures err { OnErr result (self.new ≡ self.old) }
    {
        let stored = Stored::plain(alloc, event)?;
        self.push_stored(stored)
    }

    /// One more stored event. Nothing has changed after an error.
    #[inline(always)]
    fn push_stored(&mut self, stored: Stored) -> Result<(), NoMemory>
        ensures ok { OnOk result (self.new ≡ self.old ++ stored ∷ []) }
        ensures err { OnErr result (self.new ≡ self.old) }
    {
        self.events.reserve(1)?;
        self.places.reserve(1)?;
        let txid = stored.txid();
        let place = self.events.len();
        let at = count_up_to(&self.places, txid);
        let placed = Placed { txid, place };
        insert_reserved(&mut self.places, at, placed);
        self.events.push_reserved(stored);
        Ok(())
    }

    /// Takes the last event back, if there is one.
    pub(crate) fn take_back(&mut self)
        ensures { (events : List Stored) (stored : Stored) → self.old ≡ events ++ stored ∷ [] → self.new ≡ events }
    {
        if let Some(stored) = self.events.pop() {
            let at = count_up_to(&self.places, stored.txid()) - 1;
            self.places.remove(at);
        }
    }

    /// The events of a transaction are dead.
    pub(crate) fn mark_dead(&mut self, txid: u64)
        ensures { self.new ≡ map (marked_dead txid) self.old }
    {
        let first = count_below(&self.places, txid);
        for index in first..self.places.len() {
            let placed = self.places[index];
            if placed.txid != txid {
                break;
            }
            self.events[placed.place].mark_dead();
        }
    }

    /// The event at an index in order of transactions, with its place.
    pub(crate) fn by_txid(&self, index: usize) -> (usize, &Stored)
        requires { index < length self.now }
        ensures { slice_get (by_txid self.now) index ≡ Some (result.0, result.1.now) }
    {
        let place = self.places[index].place;
        (place, &self.events[place])
    }

    /// Whether a transaction has an event here.
    pub(crate) fn has(&self, txid: u64) -> bool
        ensures { result ≡ list_any (λ s. s.event.ev_txid == txid) self.now }
    {
        let count = count_up_to(&self.places, txid);
        count > 0 && self.places[count - 1].txid == txid
    }
}
