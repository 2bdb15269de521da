//! A script's answers, as bytes.
//!
//! `print_replies` appends answers as they are printed, each line after its session's name, and `print_moment` a moment
//! as civil date and time. What is appended is exactly what the definitions of `sky_model` print; if memory runs out
//! nothing is. Memory is taken only by the buffer that text is appended to. Nothing here knows what a statement does,
//! or how a line is read.
#![tactic(auto)]

mod event;
mod held;
mod moment;
mod print;
mod queue;
mod refusal;
mod row;

pub use moment::print_moment;
pub use print::print_replies;
