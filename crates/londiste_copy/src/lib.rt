//! One move of the worker that copies a table of a leaf from its provider's database, and hands it over.
//!
//! The rows come under one snapshot, which the provider holds until the copy has ended. Then the table catches up: the
//! worker goes through the batches of the set's queue, until the leaf's own worker can take the table over. What is
//! stored is in the two databases; what the worker has in hand is lost by a restart, after which a copy begins anew, and
//! a batch comes again. `copy_move` of the definitions says what each move is; here it is made by calls of the two
//! databases, which are of one type, any `Store`.
#![tactic(auto)]

mod catching_up;
mod copying;
mod hand;
mod table;
mod worker;

pub use copying::copy_consumer;
pub use hand::{CopyHand, Hand};
pub use table::CopiedTable;
pub use worker::CopyWorker;
