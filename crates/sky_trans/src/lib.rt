//! The transactions of one database: which id is next, and which ids are running.
//!
//! A `Trans` is seen as its next id and the rising list of the running ids. Nothing here knows what
//! a transaction wrote, nor whether one that ended was committed.
#![tactic(auto)]

mod trans;

pub use trans::{Trans, TransFault};
