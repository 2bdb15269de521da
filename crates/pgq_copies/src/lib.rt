//! The copies of tables that run in a database, and the snapshots that it holds for copies of its own tables.
//!
//! Both are short lists: at most one copy runs for each leaf of a set, and one hold is kept for each.
#![tactic(auto)]

mod copies;
mod holds;

pub use copies::Copies;
pub use holds::Holds;
