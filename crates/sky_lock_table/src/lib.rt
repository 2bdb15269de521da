//! The keys of one database that are held or waited for, as they are kept: who holds each, and who waits, in order of
//! arrival.
//!
//! `LockTable` is seen as the holder of each key, the wait queue, the keys of each session, and the place of each key's
//! slot, by which a caller that found it reads the holder and takes the key. A slot has for each key its holder and those
//! that wait for it, and a map gives the slot's place; what a session holds, and when it came, is in vectors by its number,
//! since these numbers are small.
//!
//! Nothing here knows whether a session that waits may resume, or whether its wait would close a cycle.
#![tactic(auto)]

mod entries;
mod held_keys;
mod lock_key;
mod lock_table;
mod session_arrivals;
mod slots;

pub use lock_key::LockKey;
pub use lock_table::LockTable;
