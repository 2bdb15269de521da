//! What can be decided of a statement without a database: whether it is allowed where its session is, whether its
//! values fit their columns, and what its changes make of a row.
//!
//! `where_of` and `allow` say where a statement is allowed. `row_fits`, `key_fits`, `sets_fit` and `key_stays` refuse
//! values and changes that the columns of a table don't take, `new_schema` the columns of a new one, and `with_sets`
//! makes the changes in a row. Nothing here knows a session, a transaction, or the rows of a table.
#![tactic(auto)]

mod allowed;
mod standing;
mod values;

pub use allowed::{allow, where_of};
pub use standing::{Block, Standing};
pub use values::{key_fits, key_stays, new_schema, row_fits, sets_fit, with_sets};
