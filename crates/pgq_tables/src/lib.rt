//! The event tables of one queue.
//!
//! `EventTables` is seen as three tables, each a list of stored events in the order of storing, with the number of the
//! current one, to which events are added, and how far their rotation is. Beside its events each table keeps their
//! places in order of transactions, so that what a transaction inserted is found without reading the others. Every
//! event that a caller looks at is counted: `look` counts those between two indexes, and the `Looked` that it gives lends
//! each once. `Recorded` has the parts of an event that record a change of a row. Nothing here knows a batch, a
//! subscription or a snapshot, nor when a switch is due: a caller says when one begins, is made or is given up. No event
//! is removed but by a switch, with its whole table, or if the one that was stored last is taken back.
#![tactic(auto)]

mod event_tables;
mod index;
mod looked;
mod recorded;
mod stored;
mod table;

pub use event_tables::EventTables;
pub use looked::Looked;
pub use recorded::Recorded;
pub use stored::{PlainEvent, Stored};
