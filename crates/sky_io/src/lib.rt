//! The outside: where bytes come from and where they go.
//!
//! A `Source` gives bytes and a `Sink` takes them. Each may show its bytes to the contracts, and counts its faults:
//! `Failed` comes only if the count rose, and never from one that is reliable. `MemSource` and `MemSink` hold their bytes
//! in memory, show them, and fail at the calls that they are given; given none they are reliable. `StdSource` and
//! `StdSink` are over std's `Read` and `Write`: the source shows what its reader shows, the sink nothing. Over the
//! system's own streams, which show nothing, they are the trusted edge.
#![tactic(auto)]

mod mem_sink;
mod mem_source;
mod sink;
mod source;
mod std_sink;
mod std_source;

pub use mem_sink::MemSink;
pub use mem_source::MemSource;
pub use sink::{Sink, SinkFault, write_all};
pub use source::{Failed, Source};
pub use std_sink::StdSink;
pub use std_source::StdSource;
