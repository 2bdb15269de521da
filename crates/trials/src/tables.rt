use crate::words::is_case;
use anyhow::Context;
use std::alloc::Global;
use std::rt::{Env, Files};
use std::{env, fs};

/// The tables of a program, with the state of each.
pub trait Tables {
    /// What a row of the table answers.
    fn answer(&mut self, alloc: Global, table: &str, row: &str) -> anyhow::Result<String>;
}

/// Runs the tables that the program's words name.
pub fn run_tables<T: Tables>(
    rt: &(impl Env + Files + Print + AllocGlobal),
    tables: &mut T,
) -> anyhow::Result<()> {
    for name in env::args(rt)?.skip(1) {
        run_table(rt, tables, name.as_str())?;
    }
    Ok(())
}

/// Runs the table in the file of this name.
pub fn run_table<T: Tables>(
    rt: &(impl Files + Print + AllocGlobal),
    tables: &mut T,
    name: &str,
) -> anyhow::Result<()> {
    let table = fs::read_to_string(rt, name).context(name)?;
    println!(rt; "== {name}")?;
    for row in table.lines() {
        if is_case(row) {
            let answer = tables.answer(rt.alloc(), name, row).context(row)?;
            println!(rt; "{row} -> {answer}")?;
        }
    }
    Ok(())
}
