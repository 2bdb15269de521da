//! A turn of a database: one statement of one session, its answer or refusal, and the statements that it unblocks.
//!
//! `step_into` and `fail_into` are over any `Statements`: what a turn needs of a database, a call each, by what this
//! shows. A refusal changes nothing but that it may abort the session's block, and what that unblocks goes on. Nothing
//! here knows what a statement does. Once memory has run out, nothing is said of the database.
#![tactic(auto)]

mod statements;
mod turn;

pub use statements::Statements;
pub use turn::{fail_into, step_into};
