//! The program over databases of any type, from its words and a script's bytes to the bytes that it prints and its exit
//! status.
//!
//! `run_program` reads the words by clap, takes the script from a source, lets `run_lines` of sky_loop answer it and write
//! to a sink, and tells another sink what is wrong with the words or with a line. Its contract is that of the program's
//! `run_main`, which is in `sky_run` with the database that the program has: here this is any `Store`, so that the prover
//! needn't know what a database keeps. Nothing here names a file or a stream of the system.
#![tactic(auto)]

mod program;
mod words;

pub use program::run_program;
