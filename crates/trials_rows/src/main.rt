//! Runs the tables of cases of rows and sessions of one database.
#![tactic(auto)]

mod scans;
mod sessions;
mod tables;
mod workers;

use crate::tables::RowTables;
use std::mem;
use trials::run_tables;

fn main(rt: HostRuntime) -> anyhow::Result<()> {
    let mut tables = RowTables::new(rt.alloc());
    let ran = run_tables(&rt, &mut tables);
    // The program ends after this, and then all memory is freed at once.
    mem::forget(tables);
    ran
}
