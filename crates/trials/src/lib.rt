//! Runs tables of cases, which no script can show, and prints each row with its answer.
//!
//! A table of a program's `data/` holds cases of one subject, a row each: a command and its operands. The rows of a
//! table are run in order, on one state, by the program's `Tables`. What each row must answer is in the program's
//! `stdout`. `statements` has the statements that rows are written with. Nothing here knows what a row asks.
#![tactic(auto)]

mod statements;
mod tables;
mod words;

pub use statements::{line, row_statement, schema};
pub use tables::{Tables, run_table, run_tables};
pub use words::{first_number, first_word, no_command, ok, shown};
