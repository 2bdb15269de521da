//! What the calls of a database for a node take and give, as far as no database decides it: which events of a batch
//! a leaf picks, the change of a row that an event records, and why a call is refused.
#![tactic(auto)]

mod change;
mod faults;
mod pick;

pub use change::{Change, is_change, tells_of_rows};
pub use faults::{
    ApplyFault, CopyFault, FetchFault, JoinFault, MakeRootFault, RootFault, WorkerFault,
};
pub use pick::Pick;
