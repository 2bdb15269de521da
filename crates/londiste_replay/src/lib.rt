//! One move of the worker of a leaf, which applies batches to the tables that are in sync.
//!
//! It also decides which table is copied next, one at a time, and when a table that was copied is handed over to it. It
//! waits for a table that is being handed over, and takes no batch meanwhile. What is stored is in the two databases;
//! the batch in hand is lost by a restart, and comes again. `replay_move` of the definitions says what each move is;
//! here it is made by calls of the two databases, which are of one type, any `Store`.
#![tactic(auto)]

mod tables;
mod worker;

pub use tables::is_on_way;
pub use worker::ReplayWorker;
