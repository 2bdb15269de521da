//! The subscriptions of a queue.
//!
//! `Subs` keeps them in the order of registering, each under its consumer. `seen_subs` reads the list of its consumers,
//! and what is kept under each; `seen_sub` shows that as the definitions' subscription. Nothing here knows a queue, a
//! tick or an event.
#![tactic(auto)]

mod sub;
mod subs;

pub use sub::{OpenBatch, Sub};
pub use subs::Subs;
