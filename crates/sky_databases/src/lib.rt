//! The databases of a world, under their names, and what the workers of leaves have in hand.
//!
//! `Databases` has them by their numbers, which are places in the order of making; `two_of` lends two at once. `Hands`
//! has what each worker that copies a table has in hand, `Batches` what the worker of each leaf has. Nothing here makes
//! a move, or knows a session or the clock.
#![tactic(auto)]

mod databases;
mod hands;

pub use databases::{Databases, two_of};
pub use hands::{Batches, Hands};
