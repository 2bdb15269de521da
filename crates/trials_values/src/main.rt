//! Runs the tables of cases of values and texts, sources and sinks, and the settings and ticks of a queue.
#![tactic(auto)]

mod copies;
mod encoding;
mod lines;
mod settings;
mod states;
mod streams;
mod tables;
mod ticks;

use crate::tables::ValueTables;
use std::mem;
use trials::run_tables;

fn main(rt: HostRuntime) -> anyhow::Result<()> {
    let mut tables = ValueTables::new();
    let ran = run_tables(&rt, &mut tables);
    // The program ends after this, and then all memory is freed at once.
    mem::forget(tables);
    ran
}
