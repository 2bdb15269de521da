//! The statement forms on tables and rows: of each, what follows its first word.

ghost use Rattle.sky_model.specs.declared.line.Fixed.TheVariants as fixed;
ghost use Rattle.sky_model.specs.Kinds.{Dotted, Value};
ghost use Rattle.sky_model.specs.Kinds as kind;
ghost use Rattle.sky_model.specs.Grammar.{literal, one, last, some_last, some_until, on_rows};
ghost use Rattle.sky_script.specs.Reading.{Answers};

use crate::cause::LineCause;
use crate::lists::{columns, key, key_until_set, row, sets};
use crate::words::Words;
use sky_model::{DbStmt, Fixed, RowStmt, Stmt};
use std::alloc::Global;

pub(crate) fn create_table(alloc: Global, words: &mut Words) -> Result<Stmt, LineCause>
    ensures { let row = one Dotted (λ table.
        some_last kind.Column (λ columns. on_rows (RowStmt.CreateTable table columns))) in
        Answers result (literal fixed.Table row) words.old }
{
    words.fixed(Fixed::Table)?;
    let table = words.dotted(alloc)?;
    let columns = columns(alloc, words)?;
    Ok(Stmt::Db(DbStmt::Row(RowStmt::CreateTable { table, columns })))
}

pub(crate) fn insert(alloc: Global, words: &mut Words) -> Result<Stmt, LineCause>
    ensures { let row = one Dotted (λ table.
        some_last Value (λ values. on_rows (RowStmt.Insert table values))) in
        Answers result row words.old }
{
    let table = words.dotted(alloc)?;
    let row = row(alloc, words)?;
    Ok(Stmt::Db(DbStmt::Row(RowStmt::Insert { table, row })))
}

pub(crate) fn update(alloc: Global, words: &mut Words) -> Result<Stmt, LineCause>
    ensures { let row = one Dotted (λ table. some_until fixed.Set Value (λ key.
        some_last kind.Set (λ sets. on_rows (RowStmt.Update table key sets)))) in
        Answers result row words.old }
{
    let table = words.dotted(alloc)?;
    let key = key_until_set(alloc, words)?;
    let sets = sets(alloc, words)?;
    Ok(Stmt::Db(DbStmt::Row(RowStmt::Update { table, key, sets })))
}

pub(crate) fn delete(alloc: Global, words: &mut Words) -> Result<Stmt, LineCause>
    ensures { let row = one Dotted (λ table.
        some_last Value (λ key. on_rows (RowStmt.Delete table key))) in
        Answers result row words.old }
{
    let table = words.dotted(alloc)?;
    let key = key(alloc, words)?;
    Ok(Stmt::Db(DbStmt::Row(RowStmt::Delete { table, key })))
}

pub(crate) fn get(alloc: Global, words: &mut Words) -> Result<Stmt, LineCause>
    ensures { let row = one Dotted (λ table.
        some_last Value (λ key. on_rows (RowStmt.Get table key))) in
        Answers result row words.old }
{
    let table = words.dotted(alloc)?;
    let key = key(alloc, words)?;
    Ok(Stmt::Db(DbStmt::Row(RowStmt::Get { table, key })))
}

pub(crate) fn scan(alloc: Global, words: &mut Words) -> Result<Stmt, LineCause>
    ensures { Answers result (last Dotted (λ table. on_rows (RowStmt.Scan table))) words.old }
{
    let table = words.last_dotted(alloc)?;
    Ok(Stmt::Db(DbStmt::Row(RowStmt::Scan { table })))
}
