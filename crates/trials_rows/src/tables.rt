use crate::scans::Scans;
use crate::sessions::Sessions;
use crate::workers::Workers;
use anyhow::bail;
use std::alloc::Global;
use trials::{Tables, first_word};

/// The state of each table.
#[derive(Drop)]
pub struct RowTables {
    scans: Scans,
    sessions: Sessions,
    workers: Workers,
}

impl RowTables {
    pub fn new(alloc: Global) -> RowTables {
        RowTables {
            scans: Scans::new(),
            sessions: Sessions::new(alloc),
            workers: Workers::new(alloc),
        }
    }
}

impl Tables for RowTables {
    fn answer(&mut self, alloc: Global, table: &str, row: &str) -> anyhow::Result<String> {
        let (command, rest) = first_word(row);
        match table {
            "scans.txt" => self.scans.answer(alloc, command, rest),
            "sessions.txt" => self.sessions.answer(alloc, command, rest),
            "workers.txt" => self.workers.answer(alloc, command, rest),
            _ => bail!("no trials of this name"),
        }
    }
}
