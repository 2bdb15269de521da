//! The statement forms on sessions and transactions: of each, what follows its first word.

ghost use Rattle.std.specs.Prelude.{◌-◌, ◌^◌};
ghost use Rattle.sky_model.specs.declared.line.Fixed.TheVariants as fixed;
ghost use Rattle.sky_model.specs.Kinds.{Name, Number, Raw};
ghost use Rattle.sky_model.specs.Grammar.{stop, literal, one, last, either, on_rows};
ghost use Rattle.sky_script.specs.Reading.{Answers};

use crate::cause::LineCause;
use crate::words::Words;
use sky_model::{DbStmt, Fixed, RowStmt, Stmt};
use std::alloc::Global;

/// A statement that is its first word alone.
pub(crate) fn alone(stmt: RowStmt, words: &Words) -> Result<Stmt, LineCause>
    ensures { Answers result (stop (on_rows stmt)) words.now }
{
    words.end()?;
    Ok(Stmt::Db(DbStmt::Row(stmt)))
}

pub(crate) fn open_db(alloc: Global, words: &mut Words) -> Result<Stmt, LineCause>
    ensures { Answers result (last Name (λ name. on_rows (RowStmt.OpenDb name))) words.old }
{
    let name = words.last_name(alloc)?;
    Ok(Stmt::Db(DbStmt::Row(RowStmt::OpenDb { name })))
}

pub(crate) fn begin(words: &mut Words) -> Result<Stmt, LineCause>
    ensures { let level = literal fixed.Repeatable (literal fixed.Read (stop (on_rows RowStmt.BeginRepeatableRead))) in
        Answers result (either (stop (on_rows RowStmt.Begin)) level) words.old }
{
    if words.at_end() {
        return Ok(Stmt::Db(DbStmt::Row(RowStmt::Begin)));
    }
    words.fixed(Fixed::Repeatable)?;
    words.fixed(Fixed::Read)?;
    words.end()?;
    Ok(Stmt::Db(DbStmt::Row(RowStmt::BeginRepeatableRead)))
}

pub(crate) fn txid_visible_in_snapshot(alloc: Global, words: &mut Words) -> Result<Stmt, LineCause>
    ensures { let row = one (Number (2 ^ 64 - 1)) (λ txid.
        last Raw (λ snapshot. on_rows (RowStmt.TxidVisibleInSnapshot txid snapshot))) in
        Answers result row words.old }
{
    let txid = words.number(u64::MAX)?;
    let snapshot = words.last_raw(alloc)?;
    Ok(Stmt::Db(DbStmt::Row(RowStmt::TxidVisibleInSnapshot { txid, snapshot })))
}
