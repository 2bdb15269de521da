//! One database: its transactions, sessions, tables and rows, its queues, and its node in a set of replicated tables.
//!
//! `Db::step` runs one statement of one session, and those of other sessions that it unblocks. What a contract sees of
//! a `Db` is read by `seen_database` as the definitions' database. For every place of every history that calls make, if
//! the database is as it was there, the answers are those of the definitions, and the database is then that of the
//! history with the turn's marks on top. The queues are the gate of the rows: they are notified of each write and of
//! each rollback, in their order, and before a `commit` they make the switches of event tables that its transaction has
//! pending. A statement that is run elsewhere comes in by `enter`, and if it is refused there, `fail` aborts the block
//! that its session is in.
//! What a world and the workers of leaves need of a database is a method each of `Store`, in `store`; the body of
//! `apply_batch` is in `apply`, with `apply`, which is `Db`'s alone.
//! Nothing here knows a session's name or a byte of a script, or finds another database: `apply_batch` is given one, and
//! reads a batch there.
#![tactic(auto)]

mod apply;
mod consumers;
mod copies;
mod daemon;
mod db;
mod node;
mod provider;
mod retries;
mod rotation;
mod statements;
mod store;
mod triggers;
mod turn;

pub use db::Db;
pub use sky_store::{NodeBatch, Store};
