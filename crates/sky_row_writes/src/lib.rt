//! The transaction of a statement in one database, and the write of one key in it.
//!
//! `admit` says whether a session may make a statement at this place; what is beside it gives the transaction its id,
//! and commits it if it is the statement's own, or aborts the block that it is in. `tell_write` makes the last tests of
//! a write and has the gate and the effects record it; `write_key` then makes it. Nothing here looks for a row, or lets
//! a session wait: callers have found the key's places, and that no other session holds it. Once memory has run out in
//! a call whose contract says nothing of that, nothing is said of what it leaves.
#![tactic(auto)]

mod own_transaction;
mod row_writes;

pub use own_transaction::{
    abort_block, admit, begin_own, commit_alone, commit_own, next_txid, take_own, txid_for,
};
pub use row_writes::{tell_write, write_key};
