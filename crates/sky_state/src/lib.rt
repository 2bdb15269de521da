//! The state of one database's rows and sessions: its transactions, the sessions, the tables with their rows, which
//! sessions hold keys, and which wait for one.
//!
//! `RowState` is seen by `seen` as the definitions' part of a database. It has a read for each thing that statements
//! ask for, and a method for each mark, which leaves the part as it is after that mark. A method decides nothing: what
//! must be so is a condition of its call. Nothing here knows a statement, an answer or a refusal, but the deadlock
//! cycle that a wait would close.
#![tactic(auto)]

mod attempts;
mod key_shown;
mod marks;
mod places;
mod row_state;
mod session;
mod sessions;
mod waiting;
mod work;
mod writers;

pub use places::Places;
pub use row_state::RowState;
