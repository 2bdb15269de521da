//! What a world and the workers of leaves need of a database.
//!
//! `Store` has a method for each thing that they need. Its contracts say, by what a database shows (`seen`), that the
//! answers are those of the definitions, and that the database is then as after the call's marks. So code over any
//! `Store` is proved once, whatever a database keeps. `pgq_db` has the one that the program uses. How many stored events
//! a call looks at is bounded by methods of its own, and not here.
#![tactic(auto)]

mod batch;
mod store;

pub use batch::NodeBatch;
pub use londiste_calls::{
    ApplyFault, CopyFault, FetchFault, JoinFault, MakeRootFault, Pick, RootFault,
};
pub use store::Store;
