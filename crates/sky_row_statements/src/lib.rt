//! The statements on the tables and rows of one database.
//!
//! A write waits if another session holds its key. Otherwise sky_row_writes has the gate and the effects record it, and
//! makes it in its session's transaction. What is read is what the session's snapshot shows. Nothing here runs a
//! statement that begins or ends a block, or knows when one that waits resumes. Once memory has run out in a call whose
//! contract says nothing of that, nothing is said of what it leaves.
#![tactic(auto)]

mod locking;
mod row_statements;

pub use locking::attempt_key;
pub use row_statements::{create_table, delete, get, insert, scan, update};
