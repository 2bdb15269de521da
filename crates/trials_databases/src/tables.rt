use crate::applies;
use crate::databases::Database;
use crate::event_store::EventStore;
use crate::nodes::Nodes;
use crate::replica::Replica;
use anyhow::bail;
use std::alloc::Global;
use trials::{Tables, first_word};

/// The state of each table.
#[derive(Drop)]
pub struct DatabaseTables<D: EventStore> {
    database: Database<D>,
    nodes: Nodes<D>,
    // Of the table `applies.txt`.
    replica: Replica<D>,
}

impl<D: EventStore> DatabaseTables<D> {
    pub fn new(alloc: Global) -> DatabaseTables<D> {
        DatabaseTables {
            database: Database::new(alloc),
            nodes: Nodes::new(alloc),
            replica: Replica::new(alloc),
        }
    }
}

impl<D: EventStore> Tables for DatabaseTables<D> {
    fn answer(&mut self, alloc: Global, table: &str, row: &str) -> anyhow::Result<String> {
        let (command, rest) = first_word(row);
        match table {
            "databases.txt" => self.database.answer(alloc, command, rest),
            "nodes.txt" => self.nodes.answer(alloc, command, rest),
            "applies.txt" => applies::answer(alloc, &mut self.replica, command, rest),
            _ => bail!("no trials of this name"),
        }
    }
}
