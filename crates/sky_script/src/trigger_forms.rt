//! The statement form that makes a trigger: what follows its first word.

ghost use Rattle.std.specs.Prelude.{ℕ, Bool, List, Ok, Err, MatchResult};
ghost use Rattle.sky_model.specs.Grammar.{added_trigger, ignore_row};
ghost use Rattle.sky_model.specs.Grammar as grammar;
ghost use Rattle.sky_script.specs.Reading.{Answers};

use crate::cause::LineCause;
use crate::words::Words;
use sky_model::{AddedTrigger, ColumnNames, DbStmt, Fixed, QueueStmt, Stmt};
use std::alloc::Global;

pub(crate) fn add_trigger(alloc: Global, words: &mut Words) -> Result<Stmt, LineCause>
    ensures { Answers result grammar.add_trigger words.old }
{
    let name = words.name(alloc)?;
    let table = words.dotted(alloc)?;
    let queue = words.name(alloc)?;
    let backup = words.skip(Fixed::Backup);
    let ignored = ignored(alloc, words)?;
    let trigger = AddedTrigger {
        name,
        table,
        queue,
        backup,
        ignored,
    };
    Ok(Stmt::Db(DbStmt::Queue(QueueStmt::AddTrigger(trigger))))
}

/// The columns to ignore at the line's end, or none.
fn ignored(alloc: Global, words: &mut Words) -> Result<ColumnNames, LineCause>
    ensures { MatchResult result
        (λ columns. (name table queue : List ℕ) (backup : Bool) →
        Answers (Ok (added_trigger name table queue backup columns)) (ignore_row name table queue backup) words.old)
        (λ cause. (name table queue : List ℕ) (backup : Bool) →
        Answers (Err cause) (ignore_row name table queue backup) words.old) }
{
    if words.at_end() {
        return Ok(ColumnNames::new(Vec::new(alloc)));
    }
    let columns = words.ignore(alloc)?;
    words.end()?;
    Ok(columns)
}
