//! What a leaf's worker makes of the events of a batch, in the row part of the leaf's database: the writes of the rows of
//! those that it picks, one after another up to the first event that can't be applied, and the tick that is then stored. The worker's transaction is its caller's, who begins and ends it.
#![tactic(auto)]

mod apply;

pub use apply::{Work, apply_picked, recorded, store_tick};
