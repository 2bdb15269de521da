//! The world of a script: its sessions, its databases, and the step of a statement.
//!
//! `World::step` runs one statement of one session, and those of other sessions that it unblocks. Its contract says:
//! whatever calls in form may have led to the world as it was, the answers are those that the definitions give after
//! them, and the world is then as it is after these calls and this one. The world keeps no history, only what the
//! definitions read from one. Nothing here reads or prints a byte. All databases of a world are of one type `D`, any
//! `Store` of sky_store; what one shows is `D.seen`.
#![tactic(auto)]

mod clock;
mod nodes;
mod state;
mod workers;
mod world;

pub use world::{World, WorldFault};
