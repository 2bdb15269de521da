//! Runs the tables of cases of one database, or two of a set.
#![tactic(auto)]

mod applies;
mod databases;
mod event_store;
mod leaf_copies;
mod leaves;
mod nodes;
mod providers;
mod replica;
mod statements;
mod tables;

use crate::tables::DatabaseTables;
use pgq_db::Db;
use sky_session::RowDb;
use std::mem;
use trials::run_tables;

fn main(rt: HostRuntime) -> anyhow::Result<()> {
    let mut tables = DatabaseTables::<Db<RowDb>>::new(rt.alloc());
    let ran = run_tables(&rt, &mut tables);
    // The program ends after this, and then all memory is freed at once.
    mem::forget(tables);
    ran
}
