//! The laws on replicas: what calls of the world leave in the tables of leaves.
#![tactic(auto)]

pub mod laws;
