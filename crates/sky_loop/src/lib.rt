//! The loop that reads a script, answers it line by line, and writes what it answers.
//!
//! `run_lines` takes the script's bytes from a source and writes to a sink what they print, until the script ends or
//! something ends it sooner, and says what ended it. The world's databases are of any type here, so that the prover
//! needn't know what a database keeps. Nothing here knows the program's words, its statuses or its complaints.
#![tactic(auto)]

mod answers;
mod calls;
mod end;
mod run;

pub use end::End;
pub use run::run_lines;
