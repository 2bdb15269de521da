//! One queue: its settings, its sequence, its event tables, its ticks and its consumers.
//!
//! `Queue` keeps them, and decides nothing: it has the readings that statements need, such as whether a tick is due and
//! what holds a switch of its event tables back, and a method for each change. It looks at stored events only to answer
//! a batch, and its clauses bound at how many. What a contract sees of it is read by `seen_queue` as the definitions'
//! queue. Nothing here knows a queue's name, nor another queue.
#![tactic(auto)]

mod held;
mod queue;
mod span;

pub use queue::Queue;
pub use span::Span;
