//! Rows of a table as text, and back: the form in which an event carries the row that was written.
//!
//! A row is written as `name=value` for each column, joined by `&`, escaped as web forms are. The model is the text as
//! the list of its bytes, and two definitions: `row_text`, the text of a row, and `read_row`, what a text is read as,
//! or why it is refused, and at which byte. A row's text is read back if each column has a name of one byte or more. A
//! `Trigger` turns a write into the `RowEvent` that records it: `events_of` says which events a write makes. One more
//! definition is for laws alone: `put`, what events do to a copy's rows. Nothing here keeps a row, an event or a
//! table's triggers, or repairs a text that is wrong.
#![tactic(auto)]

mod cut;
mod decode;
mod decoded;
mod encode;
mod event_kind;
mod fault;
mod in_order;
mod kept;
mod pieces;
mod row_event;
mod sides;
mod trigger;

pub use decode::decode_row;
pub use encode::encode_row;
pub use event_kind::event_type;
pub use fault::DecodeFault;
pub use row_event::RowEvent;
pub use trigger::{Trigger, op_of};
