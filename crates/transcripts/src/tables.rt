use crate::runs::Runs;
use anyhow::bail;
use std::alloc::Global;
use trials::{Tables, first_word};

/// The state of each table.
#[derive(Drop)]
pub struct RunTables {
    runs: Runs,
}

impl RunTables {
    pub fn new(alloc: Global) -> RunTables {
        RunTables {
            runs: Runs::new(alloc),
        }
    }
}

impl Tables for RunTables {
    fn answer(&mut self, alloc: Global, table: &str, row: &str) -> anyhow::Result<String> {
        let (command, rest) = first_word(row);
        match table {
            "runs.txt" => self.runs.answer(alloc, command, rest),
            _ => bail!("no trials of this name"),
        }
    }
}
