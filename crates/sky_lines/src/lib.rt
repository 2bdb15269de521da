//! A script's lines, from the bytes of a source.
//!
//! `LineReader` takes the lines one at a time, in order and each once, whatever pieces the source gives; why the next
//! can't be had is a `LineFault`. It is seen as its pending bytes, the line that it took last, how many bytes its lines
//! had, and the fault that it keeps giving. All the memory that it needs is taken when it is made: `advance` takes a
//! line, and `line` shows it in place. `next_line` gives a copy, which takes memory of its own. Nothing here knows what
//! a line says.
#![tactic(auto)]

mod buffer;
mod reader;

pub use reader::{LineFault, LineReader};
