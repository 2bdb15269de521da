//! The rows of a table, in the versions that transactions left of them.
//!
//! A `Table` is seen as its columns, the versions of each key and the key's place. The versions are entries in the order
//! of the keys, those of one key the oldest first, at most one of each transaction. The newest version of a key is kept with it in
//! a slot, whose place a map has, and mostly a hint too. The older ones of all keys are in one vector, threaded into a
//! list for each key by `Chains`, so the place of one that is removed is used again. Nothing here knows which
//! transactions run or were committed, nor which of them may write a key: a reader brings its snapshot, and a writer its
//! id.
#![tactic(auto)]

mod kept;
mod log;
mod older;
mod rows;
mod table;
mod written;

pub use sky_keys::Version;
pub use table::Table;
