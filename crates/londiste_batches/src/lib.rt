//! What the workers of a leaf share that go through the batches of a set's queue: each takes the next batch in hand,
//! applies the events that it picks, unless it has come to the batch's closing tick before, and finishes the batch.
//!
//! Such a worker is known by the name of its consumer, the tick to which it has come, and its pick. `BatchMoves` of the
//! definitions says what each move is; here it is made by calls of the two databases, which are of one type, any
//! `Store`. Nothing here says when a worker takes a batch, or what else it does.
#![tactic(auto)]

mod follow;
mod hand;
mod replies;
mod tables;

pub use follow::{go_through, take_next};
pub use hand::BatchHand;
pub use replies::add_reply;
pub use tables::move_table;
