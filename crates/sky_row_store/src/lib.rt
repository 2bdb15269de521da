//! What a database needs of its row part: of its transactions, sessions, tables and rows.
//!
//! `RowStore` has a method for each thing that is needed. Its contracts say, by what a row part shows, that the answers
//! are those of the definitions, and that the part is then as after the call's marks. So a database's queues and its
//! node are proved over any `RowStore`, and beside it. The one that the program uses is `RowDb` of sky_session. A
//! `WriteGate` guards the writes, in `step_into`, `commit_into` and `settle_into`: it is asked whether it has room for
//! each, and notified of it, and of each rollback, also by `roll_back`. `check_commit` says beforehand which
//! transaction a `commit` makes permanent. Statements on queues run elsewhere: they come in by `enter`, ask for their
//! transaction's id by `next_txid`, and leave by `write_elsewhere` or `roll_back`, and then `settle_into`.
#![tactic(auto)]

mod effect;
mod row_step;
mod row_store;

pub use effect::{Effect, Effects};
pub use row_step::RowStep;
pub use row_store::RowStore;
pub use sky_model::WriteGate;
