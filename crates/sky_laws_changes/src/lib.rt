//! The laws on changes of replicated tables: what the events of a set's queue do to the rows of a copy of its tables.
#![tactic(auto)]

pub mod laws;
