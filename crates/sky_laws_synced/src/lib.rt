//! The laws on replicas to which batches are applied: what calls of the world leave in the tables of leaves.
#![tactic(auto)]

pub mod laws;
