//! Runs each script that its arguments name, and prints the results: the script's name, its output, its error output,
//! and the status. Arguments that don't end in `.sky` name tables of cases, of whole runs of the program, which no
//! script can show.
#![tactic(auto)]

mod ran;
mod runs;
mod tables;

use crate::ran::{Ran, run_script};
use crate::tables::RunTables;
use anyhow::Context;
use std::rt::{Env, Files};
use std::{env, fs, mem};
use trials::run_table;

fn main(rt: HostRuntime) -> anyhow::Result<()> {
    let mut tables = RunTables::new(rt.alloc());
    let shown = show_all(&rt, &mut tables);
    // The program ends after this, and then all memory is freed at once.
    mem::forget(tables);
    shown
}

fn show_all(
    rt: &(impl Env + Files + Print + AllocGlobal),
    tables: &mut RunTables,
) -> anyhow::Result<()> {
    for name in env::args(rt)?.skip(1) {
        if name.as_str().ends_with(".sky") {
            show(rt, name.as_str())?;
        } else {
            run_table(rt, tables, name.as_str())?;
        }
    }
    Ok(())
}

fn show(rt: &(impl Files + Print + AllocGlobal), name: &str) -> anyhow::Result<()> {
    let script = fs::read(rt, name).context(name)?;
    print_ran(rt, name, &run_script(rt.alloc(), script)?)
}

fn print_ran(rt: &(impl Print + AllocGlobal), name: &str, ran: &Ran) -> anyhow::Result<()> {
    let out = str::from_utf8(ran.out.bytes())?;
    let err = str::from_utf8(ran.err.bytes())?;
    println!(rt; "== {name}\n{out}-- err\n{err}-- status {}", ran.status)?;
    Ok(())
}
