//! What a database has beside its rows and its queues, and what its statements and calls ask of these parts alone.
//!
//! `NodePart` is what it keeps for sets of replicated tables. Each function is over the parts that it needs, so that its
//! proof carries no whole database: the changes of a node, the writes of a copy, the trigger, the event and the switch of
//! a statement, whether a daemon has nothing to do, and what is run in the row part in one call (`RunsRows`). The
//! definitions by which contracts see a database are here too, `seen_database` the first, and the lemmas on its steps.
//! Once memory has run out, nothing is said of what a call leaves, unless its contract says so. Nothing here has a whole
//! database, or runs a statement on queues.
#![tactic(auto)]

mod copies;
mod events;
mod node;
mod node_part;
mod queues;
mod resting;
mod retries;
mod rotation;
mod row_run;
mod triggers;

pub use copies::{delete_all, end_leaf_copy, keys_now, under_keys, write_all};
pub use events::{plain_event, put_with_extra};
pub use node::{
    add_consumer, add_leaf_table, add_root_table, check_set_queue, has_dot, is_set_queue,
    make_leaf, make_root, remove_consumer, remove_leaf_table, remove_root_table, set_leaf_state,
    set_trigger,
};
pub use node_part::NodePart;
pub use queues::{batch_info, queue_called, refusal_for, shown_name};
pub use resting::idles_at;
pub use retries::{retried, work_alone};
pub use rotation::{switch, switch_before_commit};
pub use row_run::{CheckedCommit, Ready, RunsRows, Statement};
pub use triggers::new_trigger;
