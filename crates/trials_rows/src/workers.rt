use anyhow::bail;
use sky_model::RowStmt;
use sky_session::{RowDb, RowStore};
use sky_txid::Snapshot;
use sky_val::{Key, Text};
use std::alloc::Global;
use trials::{first_number, first_word, line, no_command, row_statement, shown};

/// A database whose rows are read for a worker.
#[derive(Drop)]
pub struct Workers {
    db: RowDb,
}

impl Workers {
    pub fn new(alloc: Global) -> Workers {
        Workers {
            db: RowDb::new(alloc),
        }
    }

    pub fn answer(&mut self, alloc: Global, command: &str, words: &str) -> anyhow::Result<String> {
        match command {
            "step" => self.step(alloc, words),
            "begin" => shown(alloc, Ok(self.db.begin_worker())),
            "under" => self.under(alloc, words),
            "row" => self.row(alloc, words),
            _ => Err(no_command()),
        }
    }

    fn step(&mut self, alloc: Global, words: &str) -> anyhow::Result<String> {
        let (who, statement) = first_number(words)?;
        let line = line(alloc, statement)?;
        let stmt = row_statement(&line)?;
        shown(alloc, self.db.step(who, stmt))
    }

    // At most so many rows in a snapshot, after the key that the statement gets, or all.
    fn under(&self, alloc: Global, words: &str) -> anyhow::Result<String> {
        let (most, words) = first_number(words)?;
        let (snapshot, statement) = first_word(words);
        let snapshot = Snapshot::parse(alloc, snapshot.as_bytes())?;
        let line = line(alloc, statement)?;
        self.rows_in(alloc, &snapshot, row_statement(&line)?, most as usize)
    }

    fn rows_in(
        &self,
        alloc: Global,
        snapshot: &Snapshot,
        stmt: &RowStmt,
        most: usize,
    ) -> anyhow::Result<String> {
        let (name, after) = place(stmt)?;
        let Some((table, _)) = self.db.table(name) else {
            return Err(no_command());
        };
        let rows = self.db.rows_under(snapshot, table, after, most);
        shown(alloc, rows)
    }

    // The row that the statement gets, as a transaction and a snapshot give it.
    fn row(&self, alloc: Global, words: &str) -> anyhow::Result<String> {
        let (txid, words) = first_number(words)?;
        let (snapshot, statement) = first_word(words);
        let snapshot = Snapshot::parse(alloc, snapshot.as_bytes())?;
        let line = line(alloc, statement)?;
        self.row_in(alloc, u64::from(txid), &snapshot, row_statement(&line)?)
    }

    fn row_in(
        &self,
        alloc: Global,
        txid: u64,
        snapshot: &Snapshot,
        stmt: &RowStmt,
    ) -> anyhow::Result<String> {
        let (name, Some(key)) = place(stmt)? else {
            return Err(no_command());
        };
        let Some((table, _)) = self.db.table(name) else {
            return Err(no_command());
        };
        let row = self.db.worker_row(txid, snapshot, table, key);
        shown(alloc, Ok(row))
    }
}

// The table that a statement reads, and the key, if it gets one.
fn place(stmt: &RowStmt) -> anyhow::Result<(&Text, Option<&Key>)> {
    match stmt {
        RowStmt::Get { table, key } => Ok((table, Some(key))),
        RowStmt::Scan { table } => Ok((table, None)),
        _ => bail!("nothing is read"),
    }
}
