//! The statements on tables and rows. A refusal changes nothing here, so all tests come before the first change.
//!
//! The tests come in one order, which decides what is refused. The table has to exist, and sessions have to be allowed
//! to write it; the values, the key and the changes have to fit its columns. Then come those of `locking`: the key's
//! row and its holder, a newer version, and for an update sums in range. Last there has to be an id for the
//! transaction, and room in the gate.

ghost use Rattle.std.specs.Prelude.{◌≡◌, ◌<◌, false, Ok, IfOk, IfErr, OnOk, Err, length};
ghost use Rattle.sky_val.specs.Schemas.{AreNamed};
ghost use Rattle.sky_keys.specs.Waits.{is_waiting};
ghost use Rattle.sky_model.specs.Outcome.{refused_if};
ghost use Rattle.sky_model.specs.declared.reply.Refusal.TheVariants.{ReadOnly};
ghost use Rattle.sky_model.specs.ShownRows.{snapshot_now, rows_by};
ghost use Rattle.sky_model.specs.StepRows.{table_called, is_seen, create_table, insert, update, delete, get, scan};
ghost use Rattle.sky_row_statements.specs.Ran.{Ran, Writes};
ghost use Rattle.sky_model.specs.Stops.{StopsAs};
ghost use Rattle.sky_state.specs.Seen.{seen, found_in};

use crate::locking::{change_key, delete_key, insert_key};
use sky_fits::{key_fits, key_stays, new_schema, row_fits, sets_fit};
use sky_locks::LockKey;
use sky_model::{Columns, Limit, Refusal, Reply, Rows, Sets, Stop, WriteGate};
use sky_row_store::RowStep;
use sky_state::RowState;
use sky_txid::Snapshot;
use sky_val::{Key, Row, SessionId, Text};

/// The number of the table of this name.
fn table_called(state: &RowState, name: &Text) -> Result<u32, Stop>
    ensures ok { IfOk result (λ table. table_called name.now (seen state.now) ≡ Ok table) }
    ensures within { IfOk result (λ table. table < length (seen state.now).tables) }
    ensures err { IfErr result (λ stop. StopsAs stop (table_called name.now (seen state.now))) }
{
    match state.table_number(name) {
        Some(table) => Ok(table),
        None => Err(Stop::Refused(Refusal::NoTable(name.copy(state.alloc())?))),
    }
}

/// Refuses a write of a table that sessions may not write.
fn check_writable(state: &RowState, table: u32) -> Result<(), Refusal>
    requires { table < length (seen state.now).tables }
    ensures ok { OnOk result (refused_if ((seen state.now).is_read_only table) ReadOnly ≡ Ok tt) }
    ensures err { IfErr result (λ refusal. refused_if ((seen state.now).is_read_only table) ReadOnly ≡ Err refusal) }
{
    if state.is_read_only(table) {
        return Err(Refusal::ReadOnly);
    }
    Ok(())
}

/// Refuses a change of a row if a write of its key was committed that the session's snapshot doesn't see, unless its
/// own transaction has written the key. Only a repeatable read block has such a snapshot: its change would overwrite a
/// version that it has never seen.
// Always inlined, since in most sessions it is one test, and a refusal is large.
#[inline(always)]
pub(crate) fn check_seen(
    state: &RowState,
    who: SessionId,
    table: u32,
    key: &Key,
    place: Option<usize>,
    now: &Snapshot,
) -> Result<(), Refusal>
    requires within { table < length (seen state.now).tables }
    requires found { place ≡ found_in state.now table key.now }
    requires now { now.now ≡ snapshot_now (seen state.now) }
    ensures ok { OnOk result (is_seen ((rows_by (seen state.now)).key who table key.now) ≡ Ok tt) }
    ensures err { IfErr result (λ refusal. is_seen ((rows_by (seen state.now)).key who table key.now) ≡ Err refusal) }
{
    match state.unseen(who, table, key, place, now) {
        Some(txid) => Err(Refusal::Serialize(txid)),
        None => Ok(()),
    }
}

/// `create table TABLE COL..`
pub fn create_table(
    state: &mut RowState,
    who: SessionId,
    name: &Text,
    columns: &Columns,
    step: &mut RowStep,
) -> Result<(), Stop>
    requires { AreNamed columns.now }
    ensures { Ran state.old state.new step.old step.new who result (create_table (seen state.old) name.now columns.now) }
{
    if state.table_number(name).is_some() {
        return Err(Stop::Refused(Refusal::TableExists(name.copy(state.alloc())?)));
    }
    if state.table_count() >= Limit::Tables.most() {
        return Err(Stop::Refused(Refusal::TooMany(Limit::Tables)));
    }
    let schema = new_schema(state.alloc(), columns)?;
    let name = name.copy(state.alloc())?;
    state.table_made(name, schema)?;
    Ok(step.answer(who, Reply::Done)?)
}

/// `insert TABLE VAL..`
pub fn insert<G: WriteGate>(
    state: &mut RowState,
    who: SessionId,
    table: &Text,
    row: &Row,
    gate: &mut G,
    step: &mut RowStep,
) -> Result<(), Stop>
    requires { is_waiting who (seen state.old).waiting ≡ false }
    ensures { Writes G.rule (state.old, gate.old) (state.new, gate.new) step.old step.new who result (insert (seen state.old) (rows_by (seen state.old)) who table.now row.now) }
{
    let table = table_called(state, table)?;
    check_writable(state, table)?;
    let schema = state.schema(table);
    row_fits(state.alloc(), schema.columns(), row)?;
    let key = schema.key_of(row)?;
    insert_key(state, who, LockKey { table, key }, row, gate, step)
}

/// `update TABLE VAL.. set SET..`
pub fn update<G: WriteGate>(
    state: &mut RowState,
    who: SessionId,
    table: &Text,
    key: &Key,
    sets: &Sets,
    gate: &mut G,
    step: &mut RowStep,
) -> Result<(), Stop>
    requires { is_waiting who (seen state.old).waiting ≡ false }
    ensures { Writes G.rule (state.old, gate.old) (state.new, gate.new) step.old step.new who result (update (seen state.old) (rows_by (seen state.old)) who table.now key.now sets.now) }
{
    let table = table_called(state, table)?;
    check_writable(state, table)?;
    let columns = state.schema(table).columns();
    key_fits(state.alloc(), columns, key)?;
    sets_fit(state.alloc(), columns, sets.as_slice())?;
    key_stays(state.alloc(), columns, sets.as_slice())?;
    let key = key.copy(state.alloc())?;
    change_key(state, who, LockKey { table, key }, sets, gate, step)
}

/// `delete TABLE VAL..`
pub fn delete<G: WriteGate>(
    state: &mut RowState,
    who: SessionId,
    table: &Text,
    key: &Key,
    gate: &mut G,
    step: &mut RowStep,
) -> Result<(), Stop>
    requires { is_waiting who (seen state.old).waiting ≡ false }
    ensures { Writes G.rule (state.old, gate.old) (state.new, gate.new) step.old step.new who result (delete (seen state.old) (rows_by (seen state.old)) who table.now key.now) }
{
    let table = table_called(state, table)?;
    check_writable(state, table)?;
    key_fits(state.alloc(), state.schema(table).columns(), key)?;
    let key = key.copy(state.alloc())?;
    delete_key(state, who, LockKey { table, key }, gate, step)
}

/// `get TABLE VAL..`
pub fn get(
    state: &RowState,
    who: SessionId,
    table: &Text,
    key: &Key,
    step: &mut RowStep,
) -> Result<(), Stop>
    ensures { Ran state.now state.now step.old step.new who result (get (seen state.now) (rows_by (seen state.now)) who table.now key.now) }
{
    let table = table_called(state, table)?;
    key_fits(state.alloc(), state.schema(table).columns(), key)?;
    let now = state.snapshot_now()?;
    let place = state.find(table, key);
    let reply = match state.row_shown(who, table, key, place, &now) {
        Some(row) => Reply::Row(row.copy(state.alloc())?),
        None => Reply::NoRow,
    };
    Ok(step.answer(who, reply)?)
}

/// `scan TABLE`: the rows by key.
pub fn scan(state: &RowState, who: SessionId, table: &Text, step: &mut RowStep) -> Result<(), Stop>
    ensures { Ran state.now state.now step.old step.new who result (scan (seen state.now) (rows_by (seen state.now)) who table.now) }
{
    let table = table_called(state, table)?;
    let now = state.snapshot_now()?;
    let rows = state.rows_shown(who, table, &now)?;
    Ok(step.answer(who, Reply::Rows(Rows::new(rows)))?)
}
