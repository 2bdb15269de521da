//! The queues of one database, with their consumers, batches and triggers.
//!
//! `Queues` keeps them, and decides nothing: it has the readings that statements need, and a method for each mark of
//! the definitions that changes a queue, or for all that the end of a transaction makes. It looks at stored events only
//! to answer a batch, and its clauses bound at how many. What a contract sees of it is read by `seen_with`, with any
//! row part, as the definitions' database. It is itself the gate in front of the writes of rows: it stores the events
//! that record them. Nothing here knows a session or a running transaction, nor when a switch is due.
#![tactic(auto)]

mod batch;
mod gate;
mod queues;
mod retries;
mod rotation;
mod slots;
mod traced;

pub use batch::Batch;
pub use gate::EVENT_ID_END;
pub use pgq_queue::{Queue, Span};
pub use queues::Queues;
pub use retries::MOST_BACK;
pub use traced::TableTrigger;
