//! The statement forms on the clock and the daemon: of each, what follows its first word.

ghost use Rattle.sky_model.specs.declared.line.Fixed.TheVariants as fixed;
ghost use Rattle.sky_model.specs.Kinds.{Advance};
ghost use Rattle.sky_model.specs.Grammar.{stop, literal, last, either};
ghost use Rattle.sky_script.specs.Reading.{Answers};

use crate::cause::LineCause;
use crate::words::Words;
use sky_model::{Fixed, Stmt, WorldStmt};
use std::alloc::Global;

pub(crate) fn clock(alloc: Global, words: &mut Words) -> Result<Stmt, LineCause>
    ensures { Answers result (last Advance (λ time. Stmt.World (WorldStmt.Clock time))) words.old }
{
    let time = words.advance(alloc)?;
    words.end()?;
    Ok(Stmt::World(WorldStmt::Clock { time }))
}

pub(crate) fn pgqd(words: &mut Words) -> Result<Stmt, LineCause>
    ensures { let off = literal fixed.Off (stop (Stmt.World WorldStmt.PgqdOff)) in
        Answers result (either (literal fixed.On (stop (Stmt.World WorldStmt.PgqdOn))) off) words.old }
{
    if words.skip(Fixed::Off) {
        words.end()?;
        return Ok(Stmt::World(WorldStmt::PgqdOff));
    }
    words.fixed(Fixed::On)?;
    words.end()?;
    Ok(Stmt::World(WorldStmt::PgqdOn))
}
