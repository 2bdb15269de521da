ghost use Rattle.std.specs.Prelude.{◌≡◌, ◌↔◌, ◌<◌, ◌^◌, List, [], IfOk, IfSome, MatchOption, IsTrue, None, Some, length, unwrap_or};
ghost use Rattle.std.specs.Option.{option_copied};
ghost use Rattle.sky_fits.specs.Blocks.{seen_block};
ghost use Rattle.sky_txid.specs.Snapshot.{SnapshotView};
ghost use Rattle.sky_names.specs.Places.{place_of};
ghost use Rattle.sky_model.specs.declared.stmt.Where.TheVariants.{WhenReading};
ghost use Rattle.sky_model.specs.Sessions.{place_of_sight};
ghost use Rattle.sky_model.specs.State.{part_of};
ghost use Rattle.sky_model.specs.ShownRows.{snapshot_now, snapshot_for, least_writer};
ghost use Rattle.sky_model.specs.Made.{takes_sight};
ghost use Rattle.sky_val.specs.declared.val.Val.{Val};
ghost use Rattle.sky_rows.specs.Table.{place_in};
ghost use Rattle.sky_state.specs.Seen.{seen, found_in};

use crate::attempts::Attempts;
use crate::sessions::Sessions;
use crate::writers::Writers;
use sky_fits::{Block, Standing};
use sky_locks::Locks;
use sky_names::Named;
use sky_rows::Table;
use sky_trans::Trans;
use sky_txid::Snapshot;
use sky_val::{NoMemory, Schema, SessionId, Text};
use std::alloc::Global;
use std::marker::Model;

/// The transactions, sessions, tables, rows and locks of one database.
#[derive(Drop)]
pub struct RowState {
    pub(crate) alloc: Global,
    pub(crate) trans: Trans,
    pub(crate) workers: Vec<u64>,
    pub(crate) sessions: Sessions,
    pub(crate) tables: Named<Table>,
    // Whether sessions may not write the table of each number.
    pub(crate) read_only: Vec<bool>,
    pub(crate) writers: Writers,
    pub(crate) locks: Locks,
    pub(crate) attempts: Attempts,
}

impl Model for RowState {
    ghost use Rattle.std.specs.Prelude.{◌≡◌, ◌≤◌, length};
    ghost use Rattle.sky_state.specs.Views.{RowStateView};
    ghost use Rattle.sky_state.specs.Seen.{session_of};
    ghost use Rattle.sky_state.specs.Owned.{AreOwned, AreWithin};

    ghost Value = { RowStateView };

    ghost view = { λ d. record { trans = d.trans; workers = d.workers.items; sessions = d.sessions; tables = d.tables; read_only = d.read_only.items; writers = d.writers; locks = d.locks; attempts = d.attempts } };

    ghost invariant = { λ d. ((length d.tables.names ≤ 64) × (length d.read_only.items ≡ length d.tables.names)) × (AreOwned (session_of d.sessions) d.trans.running d.workers.items × AreWithin (length d.tables.names) d.locks.waiting) };
}

impl RowState {
    /// No table, no transaction, and every session at rest.
    pub fn new(alloc: Global) -> RowState
        ensures { seen result ≡ part_of [] }
    {
        RowState {
            alloc,
            trans: Trans::new(alloc),
            workers: Vec::new(alloc),
            sessions: Sessions::new(alloc),
            tables: Named::new(alloc),
            read_only: Vec::new(alloc),
            writers: Writers::new(alloc),
            locks: Locks::new(alloc),
            attempts: Attempts::new(alloc),
        }
    }

    /// The allocator that all its memory comes from.
    pub fn alloc(&self) -> Global {
        self.alloc
    }

    /// Whether the session has the database open, and its transaction block.
    pub fn standing(&self, who: SessionId) -> Standing
        ensures opened { result.is_open ≡ ((seen self.now).session who).is_open }
        ensures block { seen_block result.block ≡ ((seen self.now).session who).block }
    {
        self.sessions.standing(who)
    }

    /// Whether the session is in no block, in one, or in an aborted one.
    pub fn block(&self, who: SessionId) -> Block
        ensures { seen_block result ≡ ((seen self.now).session who).block }
    {
        self.sessions.block(who)
    }

    /// The id of the session's running transaction, if it has one.
    pub fn own_txid(&self, who: SessionId) -> Option<u64>
        ensures { result ≡ ((seen self.now).session who).txid }
    {
        self.sessions.txid(who)
    }

    /// Whether the session's next statement that reads is to take its block's snapshot.
    pub fn is_first(&self, who: SessionId) -> bool
        ensures { result ≡ takes_sight WhenReading ((seen self.now).session who).sight }
    {
        self.sessions.is_first(who)
    }

    /// The snapshot that the session reads by, if that isn't the present one.
    pub(crate) fn place(&self, who: SessionId) -> Option<&Snapshot>
        ensures { (own : SnapshotView) → place_of_sight own ((seen self.now).session who).sight ≡ unwrap_or (option_copied result) own }
    {
        self.sessions.place(who)
    }

    /// Whether there is an id for the next transaction.
    pub fn id_left(&self) -> bool
        ensures { IsTrue result ↔ ((seen self.now).next < 2 ^ 62) }
    {
        self.trans.id_left()
    }

    /// The id that the next transaction gets, or the first number after the last id.
    pub fn next_id(&self) -> u64
        ensures { result ≡ (seen self.now).next }
    {
        self.trans.next_id()
    }

    /// The snapshot that the session's statements read by.
    pub fn snapshot(&self, who: SessionId) -> Result<Snapshot, NoMemory>
        ensures { IfOk result (λ snapshot. snapshot ≡ snapshot_for (seen self.now) ((seen self.now).session who)) }
    {
        match self.place(who) {
            Some(place) => place.copy(self.alloc),
            None => self.snapshot_now(),
        }
    }

    /// The present snapshot: which transactions have ended.
    pub fn snapshot_now(&self) -> Result<Snapshot, NoMemory>
        ensures { IfOk result (λ snapshot. snapshot ≡ snapshot_now (seen self.now)) }
    {
        self.trans.snapshot()
    }

    /// How many tables there are.
    pub fn table_count(&self) -> usize
        ensures { result ≡ length (seen self.now).tables }
    {
        self.tables.len()
    }

    /// The number of the table of this name.
    pub fn table_number(&self, name: &Text) -> Option<u32>
        ensures number { result ≡ place_of name.now (seen self.now).tables }
        ensures within { IfSome result (λ number. number < length (seen self.now).tables) }
    {
        self.tables.number(name)
    }

    /// The columns of the table of this number.
    pub fn schema(&self, number: u32) -> &Schema
        requires { number < length (seen self.now).tables }
        ensures { result.now ≡ (seen self.now).columns number }
    {
        self.table_at(number).schema()
    }

    /// The table of this number.
    pub(crate) fn table_at(&self, number: u32) -> &Table
        requires { number < length (seen self.now).tables }
        ensures columns { result.now.columns ≡ (seen self.now).columns number }
        ensures versions { result.now.versions ≡ (seen self.now).versions number }
        ensures found { (key : List Val) → place_in result.now key ≡ found_in self.now number key }
    {
        self.tables.get(number as usize)
    }

    /// Whether sessions may not write the table.
    pub fn is_read_only(&self, table: u32) -> bool
        requires { table < length (seen self.now).tables }
        ensures { result ≡ (seen self.now).is_read_only table }
    {
        self.read_only[table as usize]
    }

    /// The least running transaction that has written a row of the table.
    pub fn least_writer(&self, table: u32) -> Option<u64>
        ensures { result ≡ least_writer (seen self.now) table }
    {
        self.writers.first(table, self.trans.ids())
    }
}
