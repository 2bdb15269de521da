//! Which stored events a batch lists, found by their transactions.
//!
//! `select` answers the events between two snapshots that are for a subscription and not dead, by id, and `find` the
//! first of them with an id. Both halve over the index of each table, and beside that look only at what lies between
//! the two ends: their clauses bound how many stored events are looked at. `look` and `lend` are the two parts of
//! `select`, and lend the events in place of copying them; `recorded` gives their parts that record changes of rows.
//! There is no type here: event tables and snapshots are seen
//! as their own crates say. Nothing here stores an event, changes a table, or knows a queue, a tick or a consumer, and
//! no event is copied that isn't answered.
#![tactic(auto)]

mod batch;
mod ends;
mod listed;
mod placed;
mod table;

pub use batch::{find, lend, look, recorded, select};
