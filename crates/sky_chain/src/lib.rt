//! Many lists threaded through one vector of links by index.
//!
//! `Chains` is seen as a map from list numbers to lists of node numbers, each node in at most one list, with how many
//! nodes are spare and a number above those of all nodes. Nothing here knows what a node is for: callers keep that in a
//! vector of their own, by node number.
#![tactic(auto)]

mod chains;
mod links;

pub use chains::Chains;
