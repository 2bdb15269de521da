//! The statements on the sessions and transactions of one database, and those of sky_row_statements on its tables and
//! rows.
//!
//! `RowDb` is the `RowStore` of the program. What a contract sees of a `RowDb` is what it sees of the `RowState`
//! inside, which is read by `seen` as the definitions' part of a database. For a caller that has no queues
//! `RowDb::step` runs a statement of one session, and answers with the replies and with the effects on rows and
//! transactions. Nothing here knows how rows and sessions are kept, a queue, a name of a session, or a byte of a
//! script.
#![tactic(auto)]

mod committing;
mod row_db;
mod row_store;
mod settling;
mod statements;

pub use row_db::RowDb;
pub use sky_row_store::{Effect, Effects, RowStep, RowStore, WriteGate};
