//! What a line of a script says.
//!
//! `parse_line` answers exactly what the grammar of `sky_model` says of a line, and `parse_text` of one
//! that is text already. `Words` reads such a line in steps, for callers that use a statement where it is
//! made. A line is read word by word, with no list of its words, and each statement form is a function
//! over what is left of it. Memory is taken for a statement's texts. Nothing here knows
//! what a statement does, where lines come from, or how they are answered.
#![tactic(auto)]

mod cause;
mod clock_forms;
mod endings;
mod forms;
mod kinds;
mod lists;
mod node_forms;
mod parse;
mod queue_forms;
mod row_forms;
mod row_words;
mod session_forms;
mod trigger_forms;
mod words;

pub use cause::LineCause;
pub use parse::{is_blank, parse_line, parse_text};
pub use words::Words;
