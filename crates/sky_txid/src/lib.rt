//! Snapshots of the running transactions: which ids a snapshot sees, its text, and whether one sees
//! all that another does.
//!
//! A `Snapshot` is seen as its lower bound `xmin`, the next id `xmax`, and the rising list `xip` of
//! the ids between them that are running. Nothing here knows whether a transaction committed.
#![tactic(auto)]

mod snapshot;
mod text;

pub use snapshot::{Snapshot, SnapshotFault};
