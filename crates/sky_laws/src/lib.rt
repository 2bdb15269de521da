//! The laws of the definitions, and scripts and lines worked out by proof. No crate that runs statements uses it.
#![tactic(auto)]

pub mod laws;
