//! What transactions leave at the keys of tables, and who waits for a key that another session holds: the definitions
//! on which tables, locks and the whole model are built.
//!
//! Its code is one type: a `Version`, a row or none, as a transaction left it. Nothing here knows whether a transaction
//! committed, or where versions and locks are kept.
#![tactic(auto)]

mod version;

pub use version::Version;
