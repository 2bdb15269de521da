//! Values that every other crate uses: texts, numbers and intervals as they are written, rows and keys, the schema of a
//! table, events and session numbers.
//!
//! A `Text` is seen as the list of its bytes, which are UTF-8, a `Row` and a `Key` as the lists of their values, a
//! `Schema` as the list of its columns, and an `Event` as its fields. Nothing here knows a queue, a transaction or a
//! database, nor which rows a table has.
#![tactic(auto)]

mod boxed_text;
mod column;
mod event;
mod intervals;
mod key;
mod numbers;
mod op;
mod row;
mod schema;
mod short_text;
mod text;
mod val;

pub use boxed_text::BoxedText;
pub use column::{ColKind, Column, copy_columns};
pub use event::Event;
pub use intervals::interval_of;
pub use key::Key;
pub use numbers::{int_of, number_of};
pub use op::Op;
pub use row::Row;
pub use schema::{MOST_COLUMNS, RowFault, Schema, SchemaFault};
use std::alloc::AllocError;
pub use text::{Text, TextFault, copy_option};
pub use val::Val;

/// Out of memory: the one answer that no clause ties to a cause.
pub type NoMemory = AllocError;

/// The number of a session: its place in the order in which sessions appeared.
pub type SessionId = u32;
