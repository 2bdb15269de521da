//! What can happen in a database, each mark by a method of its own; the one by which a session begins to wait is in
//! `waiting`, those of workers are in `work`. Out of memory, nothing is said of the state.

ghost use Rattle.std.specs.Prelude.{◌≡◌, ◌+◌, ◌-◌, ◌<◌, ◌^◌, [], ◌∷◌, true, false, None, Some, IfOk, OnOk, OnErr, length};
ghost use Rattle.sky_keys.specs.Waits.{other_holder};
ghost use Rattle.sky_names.specs.Places.{place_of};
ghost use Rattle.sky_model.specs.History.{of_session, began, ended, block_begun, repeats, sight_taken, block_failed, block_ended, connected, disconnected, tabled, table_made, wrote, waited, read_only};
ghost use Rattle.sky_model.specs.State.{after_part, after_part_marks};
ghost use Rattle.sky_keys.specs.Versions.{written, forgotten};
ghost use Rattle.sky_rows.specs.Table.{place_in};
ghost use Rattle.sky_state.specs.Seen.{seen, found_in, places_in, columns_of, versions_of};

use crate::places::Places;
use crate::row_state::RowState;
use crate::session::Sight;
use sky_fits::Block;
use sky_locks::LockKey;
use sky_model::Attempt;
use sky_names::Named;
use sky_rows::Table;
use sky_val::{Key, NoMemory, Row, Schema, SessionId, Text};

impl RowState {
    /// The session opened the database.
    pub fn connected(&mut self, who: SessionId) -> Result<(), NoMemory>
        ensures { OnOk result (seen self.new ≡ after_part (seen self.old) (connected who)) }
    {
        self.sessions.connect(who)?;
        Ok(())
    }

    /// The session closed the database.
    pub fn disconnected(&mut self, who: SessionId)
        ensures { seen self.new ≡ after_part (seen self.old) (disconnected who) }
    {
        self.sessions.disconnect(who);
    }

    /// The session's transaction gets the next id, which is the answer.
    pub fn began(&mut self, who: SessionId) -> Result<u64, NoMemory>
        requires { (seen self.old).next < 2 ^ 62 }
        ensures id { IfOk result (λ txid. txid ≡ (seen self.old).next) }
        ensures mark { IfOk result (λ txid. seen self.new ≡ after_part (seen self.old) (began (of_session who) txid)) }
        ensures err { OnErr result (seen self.new ≡ seen self.old) }
        ensures stay { self.new.tables ≡ self.old.tables }
        ensures locks { self.new.locks ≡ self.old.locks }
    {
        self.sessions.make_room(who)?;
        let txid = self.trans.begin()?;
        self.sessions.begin_txid(who, txid);
        Ok(txid)
    }

    /// The session's transaction commits.
    pub fn committed(&mut self, who: SessionId, txid: u64)
        requires { ((seen self.old).session who).txid ≡ Some txid }
        ensures { seen self.new ≡ after_part (seen self.old) (ended (of_session who) txid true) }
    {
        self.sessions.end_txid(who);
        self.trans.commit(txid);
        self.writers.end(txid);
        self.locks.release(who);
    }

    /// The session's transaction is rolled back.
    pub fn aborted(&mut self, who: SessionId, txid: u64)
        requires { ((seen self.old).session who).txid ≡ Some txid }
        ensures { seen self.new ≡ after_part (seen self.old) (ended (of_session who) txid false) }
    {
        self.sessions.end_txid(who);
        self.trans.abort(txid);
        forget_all(&mut self.tables, txid);
        self.writers.end(txid);
        self.locks.release(who);
    }

    /// The session begins a block.
    pub fn block_begun(&mut self, who: SessionId) -> Result<(), NoMemory>
        ensures { OnOk result (seen self.new ≡ after_part (seen self.old) (block_begun who)) }
    {
        self.sessions.set_block(who, Block::Inside)?;
        Ok(())
    }

    /// Its block is repeatable read.
    pub fn repeats(&mut self, who: SessionId) -> Result<(), NoMemory>
        ensures { OnOk result (seen self.new ≡ after_part (seen self.old) (repeats who)) }
    {
        self.sessions.set_sight(who, Sight::AtFirst)?;
        Ok(())
    }

    /// Its block takes its snapshot now.
    pub fn sight_taken(&mut self, who: SessionId) -> Result<(), NoMemory>
        ensures ok { OnOk result (seen self.new ≡ after_part (seen self.old) (sight_taken who)) }
        ensures err { OnErr result (seen self.new ≡ seen self.old) }
    {
        let snapshot = self.trans.snapshot()?;
        self.sessions.set_sight(who, Sight::AtPlace(snapshot))?;
        Ok(())
    }

    /// A refusal aborted its block.
    pub fn block_failed(&mut self, who: SessionId) -> Result<(), NoMemory>
        ensures { OnOk result (seen self.new ≡ after_part (seen self.old) (block_failed who)) }
    {
        self.sessions.fail(who)?;
        Ok(())
    }

    /// Its block is over.
    pub fn block_ended(&mut self, who: SessionId)
        ensures { seen self.new ≡ after_part (seen self.old) (block_ended who) }
    {
        self.sessions.leave(who);
    }

    /// A table was made.
    pub fn table_made(&mut self, name: Text, schema: Schema) -> Result<(), NoMemory>
        requires new { place_of name (seen self.old).tables ≡ None }
        requires room { length (seen self.old).tables < 64 }
        ensures { OnOk result (seen self.new ≡ after_part (seen self.old) (tabled (table_made name schema))) }
    {
        let table = Table::new(self.alloc, schema);
        self.read_only.reserve(1)?;
        self.tables.add(name, table)?;
        self.read_only.push_reserved(false);
        Ok(())
    }

    /// The session's transaction wrote a key of a table, which was found at the places, and the session holds the key
    /// from then on. The row that the key had isn't kept, so in the mark it is none. A table forgets which keys the
    /// transactions below the least running one wrote: they have ended, and nobody asks for that any more.
    pub fn wrote(
        &mut self,
        who: SessionId,
        txid: u64,
        key: LockKey,
        places: Places,
        row: Option<Row>,
    ) -> Result<(), NoMemory>
        requires within { key.table < length (seen self.old).tables }
        requires found { places ≡ places_in self.old key.table key.key }
        requires free { other_holder (seen self.old).holder who key.table key.key ≡ None }
        ensures { OnOk result (seen self.new ≡ after_part (seen self.old) (tabled (wrote (of_session who) txid key.table key.key None row))) }
    {
        self.locks.take_at(who, &key, places.lock)?;
        self.writers.add(key.table, txid)?;
        let least = self.trans.least().unwrap_or(txid);
        let table = self.tables.get_mut(key.table as usize);
        table.prune(least);
        table.write_at(places.row, txid, key.key, row)?;
        Ok(())
    }

    /// The same in a transaction of its own, which gets the next id and commits with this write. So it takes no lock,
    /// and doesn't record where it wrote: nobody asks for either between the write and the commit.
    pub fn wrote_alone(
        &mut self,
        who: SessionId,
        key: LockKey,
        place: Option<usize>,
        row: Option<Row>,
    ) -> Result<(), NoMemory>
        requires within { key.table < length (seen self.old).tables }
        requires found { place ≡ found_in self.old key.table key.key }
        requires free { other_holder (seen self.old).holder who key.table key.key ≡ None }
        requires single { ((seen self.old).session who).txid ≡ None }
        requires room { (seen self.old).next < 2 ^ 62 }
        ensures { let t = (seen self.old).next in
            OnOk result (seen self.new ≡ after_part_marks (seen self.old) (began (of_session who) t ∷ tabled (wrote (of_session who) t key.table key.key None row) ∷ ended (of_session who) t true ∷ [])) }
    {
        let least = self.trans.least();
        let txid = self.trans.spend();
        put_row(
            self.tables.get_mut(key.table as usize),
            least,
            txid,
            key.key,
            place,
            row,
        )?;
        self.writers.end(txid);
        self.locks.release(who);
        Ok(())
    }

    /// A transaction of its own, which gets the next id and commits without writing a row.
    pub fn committed_alone(&mut self, who: SessionId)
        requires single { ((seen self.old).session who).txid ≡ None }
        requires room { (seen self.old).next < 2 ^ 62 }
        ensures { let t = (seen self.old).next in
            seen self.new ≡ after_part_marks (seen self.old) (began (of_session who) t ∷ ended (of_session who) t true ∷ []) }
    {
        let txid = self.trans.spend();
        self.writers.end(txid);
        self.locks.release(who);
    }

    /// Sessions may not write the table from now on, or may again.
    pub fn set_read_only(&mut self, table: u32, on: bool)
        requires { table < length (seen self.old).tables }
        ensures { seen self.new ≡ after_part (seen self.old) (tabled (read_only table on)) }
    {
        self.read_only[table as usize] = on;
    }

    /// The session no longer waits. The answer is what it attempted.
    pub fn waited(&mut self, who: SessionId) -> Attempt
        ensures taken { result ≡ (seen self.old).attempt who }
        ensures mark { seen self.new ≡ after_part (seen self.old) (tabled (waited who)) }
    {
        self.locks.leave(who);
        self.attempts.take(who)
    }
}

/// Writes the row at the key, in a transaction that ends with it; `least` is the least of the other running ones.
fn put_row(
    table: &mut Table,
    least: Option<u64>,
    txid: u64,
    key: Key,
    place: Option<usize>,
    row: Option<Row>,
) -> Result<(), NoMemory>
    requires { place ≡ place_in table.old key }
    ensures { OnOk result (table.new ≡ record table.old { versions = written txid key row table.old.versions; places = table.new.places }) }
{
    match least {
        Some(least) => {
            table.prune(least);
            table.write_at(place, txid, key, row)
        }
        None => table.write_last_at(place, txid, key, row),
    }
}

/// Removes what the transaction wrote from all tables.
pub(crate) fn forget_all(tables: &mut Named<Table>, txid: u64)
    ensures names { tables.new.names ≡ tables.old.names }
    ensures columns { columns_of tables.new.values ≡ columns_of tables.old.values }
    ensures versions { versions_of tables.new.values ≡ (λ n. forgotten txid (versions_of tables.old.values n)) }
{
    for number in 0..tables.len() {
        tables.get_mut(number).forget(txid);
    }
}
