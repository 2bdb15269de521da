use crate::encoding::Encoding;
use crate::settings::Settings;
use crate::ticks::Kept;
use crate::{copies, lines, states, streams};
use anyhow::bail;
use std::alloc::Global;
use trials::{Tables, first_word};

/// The state of each table.
#[derive(Drop)]
pub struct ValueTables {
    encoding: Encoding,
    settings: Settings,
    ticks: Kept,
}

impl ValueTables {
    pub fn new() -> ValueTables {
        ValueTables {
            encoding: Encoding::new(),
            settings: Settings::new(),
            ticks: Kept::new(),
        }
    }
}

impl Tables for ValueTables {
    fn answer(&mut self, alloc: Global, table: &str, row: &str) -> anyhow::Result<String> {
        let (command, rest) = first_word(row);
        match table {
            "copies.txt" => copies::answer(alloc, command, rest),
            "encoding.txt" => self.encoding.answer(alloc, command, rest),
            "states.txt" => states::answer(alloc, command, rest),
            "lines.txt" => lines::answer(alloc, command, rest),
            "settings.txt" => self.settings.answer(alloc, command, rest),
            "ticks.txt" => self.ticks.answer(alloc, command, rest),
            "streams.txt" => streams::answer(alloc, command, rest),
            _ => bail!("no trials of this name"),
        }
    }
}
