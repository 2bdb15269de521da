//! What a script says and what it is answered, and every definition that a contract cites.
//!
//! `Stmt` is a tree of the statement forms, by what runs them, and `Reply` has one variant for each answer form. The definitions
//! are in `specs/`: what happened, as one list of facts; what each reading of it is; what a statement does; and what a
//! script prints. `docs/DEFINITIONS.md` puts them in plain words. What a program runs of this crate is the small code
//! of its types: they are made, read, copied and appended to, and a refusal says whether it aborts a block. No
//! statement is run here.
#![tactic(auto)]

mod daemon;
mod gate;
mod items;
mod line;
mod reply;
mod stmt;
mod stop;

pub use daemon::DaemonPart;
pub use gate::{OpenGate, WriteGate};
pub use items::Items;
pub use line::{Cause, Fixed, Line};
pub use reply::{
    BadRow, BatchInfo, BoxedBatchInfo, ConsumerInfo, Counts, Events, HeldBack, Limit, QueueInfo,
    Refusal, Replies, Reply, Rows, Waiters,
};
pub use stmt::{
    AddedTrigger, Attempt, BoxedExtra, Change, ColumnNames, Columns, ConsumerPosition, DbStmt,
    Extra, InsertedEvent, NodeStmt, QueueSetting, QueueStmt, RetriedEvent, RowStmt, Set, Sets,
    Stmt, Where, WorldStmt,
};
pub use stop::Stop;
