use anyhow::{Context, bail};
use sky_model::RowStmt;
use sky_rows::Table;
use sky_txid::Snapshot;
use sky_val::{Key, Row, Schema};
use std::alloc::Global;
use trials::{first_number, line, no_command, ok, row_statement, schema, shown};

/// A table that transactions write, and whose rows are read a few at a time.
#[derive(Drop)]
pub struct Scans {
    table: Option<Table>,
}

impl Scans {
    pub fn new() -> Scans {
        Scans { table: None }
    }

    pub fn answer(&mut self, alloc: Global, command: &str, words: &str) -> anyhow::Result<String> {
        match command {
            "table" => self.take_table(alloc, words),
            "write" => self.write(alloc, words),
            "scan" => self.scan(alloc, words),
            _ => Err(no_command()),
        }
    }

    fn take_table(&mut self, alloc: Global, statement: &str) -> anyhow::Result<String> {
        self.table = Some(Table::new(alloc, schema(alloc, statement)?));
        ok(alloc)
    }

    // The transaction of the first word's id makes the statement's write.
    fn write(&mut self, alloc: Global, words: &str) -> anyhow::Result<String> {
        let (txid, statement) = first_number(words)?;
        let line = line(alloc, statement)?;
        self.make(alloc, u64::from(txid), row_statement(&line)?)
    }

    fn make(&mut self, alloc: Global, txid: u64, stmt: &RowStmt) -> anyhow::Result<String> {
        let table = self.table.as_mut().context("no table")?;
        let (key, row) = change(alloc, table.schema(), stmt)?;
        table.write(txid, key, row)?;
        ok(alloc)
    }

    // At most so many rows, as the transaction of the second word's id reads them, or as another one does if that is 0:
    // those after the key that the statement gets, or all. Transaction 4 is running, and those before it have ended.
    fn scan(&self, alloc: Global, words: &str) -> anyhow::Result<String> {
        let (most, words) = first_number(words)?;
        let (txid, statement) = first_number(words)?;
        let line = line(alloc, statement)?;
        let own = if txid == 0 {
            None
        } else {
            Some(u64::from(txid))
        };
        self.rows(alloc, own, key_got(row_statement(&line)?), most as usize)
    }

    fn rows(
        &self,
        alloc: Global,
        own: Option<u64>,
        after: Option<&Key>,
        most: usize,
    ) -> anyhow::Result<String> {
        let snapshot = Snapshot::parse(alloc, b"4:5:4")?;
        let table = self.table.as_ref().context("no table")?;
        shown(alloc, table.scan_from(after, &snapshot, own, most))
    }
}

// The key that a statement writes, and the row that it leaves there.
fn change(alloc: Global, schema: &Schema, stmt: &RowStmt) -> anyhow::Result<(Key, Option<Row>)> {
    match stmt {
        RowStmt::Insert { table: _, row } => Ok((schema.key_of(row)?, Some(row.copy(alloc)?))),
        RowStmt::Delete { table: _, key } => Ok((key.copy(alloc)?, None)),
        _ => bail!("no write"),
    }
}

fn key_got(stmt: &RowStmt) -> Option<&Key> {
    match stmt {
        RowStmt::Get { table: _, key } => Some(key),
        _ => None,
    }
}
