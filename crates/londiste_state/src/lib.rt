//! A database's node in a set of replicated tables, and the state of each table of a leaf.
//!
//! A `Node` is the set's root, with the set's queue, its tables and the consumers by which leaves use the queue, or a
//! leaf, with its provider, its tick and its tables. Each table of a leaf has a `TableState`, which says how far its
//! copy has come: `TableState::allowed` says how it may move. Contracts see a `Root`, a `Leaf` and a `LeafTable` as the
//! records of these names. Nothing here knows a database: a caller says what joins, what leaves and what moves. Tables
//! and consumers are plain lists: a database has at most 64 tables, and a set few leaves.
#![tactic(auto)]

mod node;
mod state;

pub use node::{Leaf, LeafTable, Node, Root};
pub use state::{StateFault, TableState};
