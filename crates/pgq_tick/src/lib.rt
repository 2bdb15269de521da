//! The ticks of a queue, and the settings of the queue.
//!
//! `Ticks` is seen as the list of the definitions' ticks, and decides when the next one is due by a `QueueConfig`,
//! which is seen as the definitions' settings. Nothing here knows an event, a consumer, or which transactions are
//! running.
#![tactic(auto)]

mod config;
mod ticks;

pub use config::{ConfigFault, QueueConfig};
pub use ticks::{Tick, TickFault, Ticks};
