//! The events of one database that wait to be retried.
//!
//! A `RetryQueue` is seen as the list of those that wait, in the order in which they were asked for. Nothing here knows
//! a queue, a batch or the clock: a caller that retries an event says when it is due, and one that puts events back
//! into their queues says what the moment is.
#![tactic(auto)]

mod line;
mod placed;
mod places;
mod retry;
mod retry_queue;

pub use retry::Retry;
pub use retry_queue::RetryQueue;
