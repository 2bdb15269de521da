ghost use Rattle.std.specs.Prelude.{IfOk};
ghost use Rattle.sky_model.specs.InForm.{IsDbInForm, IsLineInForm};

use anyhow::bail;
use sky_model::{DbStmt, Line, Stmt};

/// The statement of a line, if it is one of a database.
pub fn statement(line: &Line) -> anyhow::Result<&DbStmt>
    requires { IsLineInForm line.now }
    ensures { IfOk result (λ stmt. IsDbInForm stmt.now) }
{
    match line {
        Line::Run(_, Stmt::Db(stmt)) => Ok(stmt),
        Line::Run(_, Stmt::Node(_) | Stmt::World(_)) => bail!("a statement of the world"),
        Line::Blank => bail!("no statement"),
    }
}
