ghost use Rattle.std.specs.Prelude.{IfOk};
ghost use Rattle.sky_model.specs.InForm.{IsLineInForm, IsRowInForm};

use anyhow::bail;
use sky_model::{DbStmt, Line, RowStmt, Stmt};
use sky_script::parse_line;
use sky_val::{Schema, copy_columns};
use std::alloc::Global;

/// A script's line of the session `a` with this statement.
pub fn line(alloc: Global, statement: &str) -> anyhow::Result<Line>
    ensures { IfOk result IsLineInForm }
{
    let line = format!(in alloc; "a: {statement}")?;
    Ok(parse_line(alloc, line.as_bytes())?)
}

/// The statement of a line, if it is one on rows.
pub fn row_statement(line: &Line) -> anyhow::Result<&RowStmt>
    requires { IsLineInForm line.now }
    ensures { IfOk result (λ stmt. IsRowInForm stmt.now) }
{
    match line {
        Line::Run(_, Stmt::Db(DbStmt::Row(stmt))) => Ok(stmt),
        _ => bail!("no statement on rows"),
    }
}

/// The columns of a statement that creates a table.
pub fn schema(alloc: Global, statement: &str) -> anyhow::Result<Schema> {
    let line = line(alloc, statement)?;
    match row_statement(&line)? {
        RowStmt::CreateTable { table: _, columns } => {
            Ok(Schema::new(copy_columns(alloc, columns.as_slice())?)?)
        }
        _ => bail!("no table"),
    }
}
