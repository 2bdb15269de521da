//! The row locks of one database: which session holds each key, and which sessions wait for one.
//!
//! `Locks` is seen as the holder of each key, the wait queue in order of arrival, and the place of each key's slot, by
//! which a caller that found it reads the holder and takes the key. All this is kept by a `LockTable`; beside it are the
//! keys that were given back and are waited for, by which the first that may resume is found.
//!
//! Nothing here knows a transaction, a statement or the row of a key: a caller that ends a transaction gives its keys
//! back, and one that finds an entry ready removes it and asks for its key again.
#![tactic(auto)]

mod locks;
mod ring;
mod taken;

pub use locks::Locks;
pub use ring::Ring;
pub use sky_lock_table::LockKey;
pub use taken::Taken;
