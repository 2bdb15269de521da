//! The program, from its words and a script's bytes to the bytes that it prints and its exit status.
//!
//! `run_main` reads a script from a source, line by line, answers each line and writes the answers to a sink. Its
//! contract is about every byte: what the sink got is what the definitions print for the bytes that the source gave.
//! All of it is `run_program` of `sky_program`, here over the program's databases: `Db` of pgq_db over `RowDb` of
//! sky_session. The contract is on `run_main` too, so that it is on the very call that the program makes.
#![tactic(auto)]

mod program;

pub use program::run_main;
