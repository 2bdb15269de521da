ghost use Rattle.std.specs.Prelude.{◌≡◌, ◌==◌, ◌<◌, ◌≤◌, ◌+◌, ◌-◌, [], Some, None, true, IfOk, IfSome, OnOk, OnErr, nat_lt, length, is_some, slice_get, slice_index_or};
ghost use Rattle.std.specs.Borrow.{sem};
ghost use Rattle.std.specs.Io.BufRead.{Rests};
ghost use Rattle.std.specs.List.{list_any};
ghost use Rattle.sky_val.specs.declared.event.Event.{Event};
ghost use Rattle.pgq_tables.specs.Tables.{Tables, full_event, new_tables, with_stored, with_dead, with_pending, without_pending, with_switch, with_second_step, next_table, by_age};
ghost use Rattle.pgq_tables.specs.Order.{by_txid};
ghost use Rattle.pgq_tables.specs.Views.{TablesView, so_many_more, one_lent};

use crate::looked::Looked;
use crate::stored::{PlainEvent, Stored};
use crate::table::Table;
use sky_val::{Event, NoMemory};
use std::alloc::Global;
use std::marker::Model;

/// The event tables of one queue, of which there are three, and how far their rotation is.
#[derive(Drop)]
pub struct EventTables {
    alloc: Global,
    tables: Vec<Table>,
    current: usize,
    first_step: u64,
    second_step: Option<u64>,
    switched_at: i64,
    pending: Option<u64>,
    reads: u64,
}

impl Model for EventTables {
    ghost use Rattle.pgq_tables.specs.Kept.{AreThree};
    ghost use Rattle.pgq_tables.specs.Views.{TablesView};

    ghost Value = { TablesView };

    ghost invariant = { λ t. AreThree t.tables.items t.current };

    ghost view = { λ t. record {
      tables = record {
        lists = t.tables.items;
        current = t.current;
        first_step = t.first_step;
        second_step = t.second_step;
        switched_at = t.switched_at;
        pending = t.pending;
      };
      reads = t.reads;
    } };
}

impl EventTables {
    ghost use Rattle.pgq_tables.specs.contracts.event_tables.EventTables.{the_row};

    /// Three empty tables of a queue that a transaction made at this moment.
    pub fn new(alloc: Global, tables: usize, made: u64, now: i64) -> Result<EventTables, NoMemory>
        requires { tables ≡ 3 }
        ensures { IfOk result (λ t. t ≡ record { tables = new_tables made now; reads = 0 }) }
    {
        let mut empty = Vec::with_capacity(alloc, tables)?;
        for _ in 0..tables {
            empty.push(Table::new(alloc))?;
        }
        Ok(EventTables {
            alloc,
            tables: empty,
            current: 0,
            first_step: made,
            second_step: Some(made),
            switched_at: now,
            pending: None,
            reads: 0,
        })
    }

    /// Stores an event in the current table, also while a switch is pending. Nothing has changed after an error.
    #[inline(always)]
    pub fn insert(&mut self, event: Event) -> Result<(), NoMemory>
        ensures ok { OnOk result (self.new ≡ record self.old { tables = with_stored event self.old.tables }) }
        ensures err { OnErr result (self.new ≡ self.old) }
    {
        self.tables[self.current].push(self.alloc, event)
    }

    /// Stores a plain event in the current table. Nothing has changed after an error.
    #[inline(always)]
    pub fn insert_plain(&mut self, event: PlainEvent) -> Result<(), NoMemory>
        ensures ok { OnOk result (self.new ≡ record self.old { tables = with_stored (full_event event) self.old.tables }) }
        ensures err { OnErr result (self.new ≡ self.old) }
    {
        self.tables[self.current].push_plain(self.alloc, event)
    }

    /// Takes the event back that was stored last, before any switch. No memory is taken.
    pub fn take_back(&mut self)
        ensures { (event : Event) (tables : Tables) → self.old.tables ≡ with_stored event tables → self.new ≡ record self.old { tables = tables } }
    {
        self.tables[self.current].take_back();
    }

    /// The events of a transaction are dead, as it was rolled back. No memory is taken.
    pub fn mark_dead(&mut self, txid: u64)
        ensures { self.new ≡ record self.old { tables = with_dead txid self.old.tables } }
    {
        for table in self.tables.iter_mut() {
            table.mark_dead(txid);
        }
    }

    /// A switch is pending, which the commit of a transaction makes.
    pub fn begin_switch(&mut self, txid: u64)
        requires { self.old.tables.pending ≡ None }
        ensures { self.new ≡ record self.old { tables = with_pending txid self.old.tables } }
    {
        self.pending = Some(txid);
    }

    /// The pending switch is made: the next table is emptied, gives its memory back, and is the current one.
    pub fn commit_switch(&mut self, now: i64)
        requires { is_some self.old.tables.pending ≡ true }
        ensures { self.new ≡ record self.old { tables = with_switch now self.old.tables } }
    {
        let next = self.next();
        self.tables[next] = Table::new(self.alloc);
        self.current = next;
        self.first_step = self.pending.unwrap_or(self.first_step);
        self.second_step = None;
        self.switched_at = now;
        self.pending = None;
    }

    /// The pending switch is given up.
    pub fn drop_switch(&mut self)
        requires { is_some self.old.tables.pending ≡ true }
        ensures { self.new ≡ record self.old { tables = without_pending self.old.tables } }
    {
        self.pending = None;
    }

    /// A transaction makes the second step of the last switch.
    pub fn step2(&mut self, txid: u64)
        requires { self.old.tables.second_step ≡ None }
        ensures { self.new ≡ record self.old { tables = with_second_step txid self.old.tables } }
    {
        self.second_step = Some(txid);
    }

    /// The number of the current table.
    pub fn current(&self) -> usize
        ensures value { result ≡ self.now.tables.current }
        ensures within { result < length self.now.tables.lists }
        ensures three { length self.now.tables.lists ≡ 3 }
    {
        self.current
    }

    /// The number of the oldest table, which is the current one after the next switch.
    pub fn next(&self) -> usize
        ensures value { result ≡ next_table self.now.tables }
        ensures within { result < length self.now.tables.lists }
    {
        (self.current + 1) % self.tables.len()
    }

    /// The transaction whose commit makes the next switch, if one is pending.
    pub fn pending(&self) -> Option<u64>
        ensures { result ≡ self.now.tables.pending }
    {
        self.pending
    }

    /// The transaction of the first step of the last switch.
    pub fn step1_id(&self) -> u64
        ensures { result ≡ self.now.tables.first_step }
    {
        self.first_step
    }

    /// The transaction of the second step of the last switch, if that was made.
    pub fn step2_id(&self) -> Option<u64>
        ensures { result ≡ self.now.tables.second_step }
    {
        self.second_step
    }

    /// When the last switch was.
    pub fn switched_at(&self) -> i64
        ensures { result ≡ self.now.tables.switched_at }
    {
        self.switched_at
    }

    /// How many stored events were ever looked at.
    pub fn reads(&self) -> u64
        ensures { result ≡ self.now.reads }
    {
        self.reads
    }

    /// How many tables there are.
    pub fn len(&self) -> usize
        ensures value { result ≡ length self.now.tables.lists }
        ensures three { result ≡ 3 }
    {
        self.tables.len()
    }

    /// How many events a table has.
    pub fn count(&self, table: usize) -> usize
        requires { table < length self.now.tables.lists }
        ensures { result ≡ length (slice_index_or self.now.tables.lists table []) }
    {
        self.tables[table].len()
    }

    /// The event of a table at an index in order of transactions, with its place there. It counts as one that was
    /// looked at.
    pub fn by_txid(&mut self, table: usize, index: usize) -> (usize, &Stored)
        requires table { table < length self.old.tables.lists }
        requires index { index < length (slice_index_or self.old.tables.lists table []) }
        ensures event { slice_get (by_txid (slice_index_or self.old.tables.lists table [])) index ≡ Some (result.0, result.1.now) }
        ensures* counted { sem 𝓛 (Rests the_row self.entry (λ t. t ≡ record self.old { reads = so_many_more 1 self.old.reads })) }
    {
        self.reads = self.reads.saturating_add(1);
        self.tables[table].by_txid(index)
    }

    /// Counts the events of a table between two indexes, in order of transactions, as looked at.
    pub fn look(&mut self, table: usize, first: usize, end: usize) -> Looked
        requires table { table < length self.old.tables.lists }
        requires end { end ≤ length (slice_index_or self.old.tables.lists table []) }
        ensures looked { result ≡ record { table = table; first = first; end = end } }
        ensures counted { self.new ≡ record self.old { reads = so_many_more (end - first) self.old.reads } }
    {
        let many = end.saturating_sub(first);
        self.reads = self.reads.saturating_add(many as u64);
        Looked { table, first, end }
    }

    /// The next of the events that were looked at and not lent yet, with its place in its table.
    #[inline(always)]
    pub fn next_looked(&self, looked: &mut Looked) -> Option<(usize, &Stored)>
        requires table { looked.old.table < length self.now.tables.lists }
        requires end { looked.old.end ≤ length (slice_index_or self.now.tables.lists looked.old.table []) }
        ensures left { is_some result ≡ nat_lt looked.old.first looked.old.end }
        ensures event { IfSome result (λ found. slice_get (by_txid (slice_index_or self.now.tables.lists looked.old.table [])) looked.old.first ≡ Some (found.0, found.1.now)) }
        ensures lent { looked.new ≡ one_lent looked.old }
    {
        if looked.first >= looked.end {
            return None;
        }
        let index = looked.first;
        looked.first += 1;
        Some(self.tables[looked.table].by_txid(index))
    }

    /// Whether a transaction has an event in some table. No event is looked at.
    pub fn has_writer(&self, txid: u64) -> bool
        ensures { result ≡ list_any (λ s. s.event.ev_txid == txid) (by_age self.now.tables) }
    {
        any_has(&self.tables, txid)
    }
}

/// Whether a transaction has an event in some of these tables.
fn any_has(tables: &[Table], txid: u64) -> bool
    ensures { result ≡ list_any (λ events. list_any (λ s. s.event.ev_txid == txid) events) tables.now }
{
    tables.iter().any(|table| table.has(txid))
}
