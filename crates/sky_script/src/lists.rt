//! Lists of words of one kind.

ghost use Rattle.std.specs.Prelude.{MatchResult};
ghost use Rattle.sky_model.specs.declared.line.Fixed.TheVariants as fixed;
ghost use Rattle.sky_model.specs.Kinds as kind;
ghost use Rattle.sky_script.specs.Reading.{GoesLast, StopsLast, GoesUntil, StopsUntil};

use crate::cause::LineCause;
use crate::words::Words;
use sky_model::{Columns, Fixed, Sets};
use sky_val::{Key, Row, Val};
use std::alloc::Global;

/// One or more values, to the line's end.
fn values(alloc: Global, words: &mut Words) -> Result<Vec<Val>, LineCause>
    ensures { MatchResult result (λ values. GoesLast kind.Value values.items words.old) (λ cause. StopsLast kind.Value cause words.old) }
{
    let mut values = Vec::new(alloc);
    loop {
        values.push(words.value(alloc)?)?;
        if words.at_end() {
            return Ok(values);
        }
    }
}

/// A row's values, to the line's end.
pub(crate) fn row(alloc: Global, words: &mut Words) -> Result<Row, LineCause>
    ensures { MatchResult result (λ row. GoesLast kind.Value row words.old) (λ cause. StopsLast kind.Value cause words.old) }
{
    let values = values(alloc, words)?;
    Ok(Row::new(values))
}

/// A key's values, to the line's end.
pub(crate) fn key(alloc: Global, words: &mut Words) -> Result<Key, LineCause>
    ensures { MatchResult result (λ key. GoesLast kind.Value key words.old) (λ cause. StopsLast kind.Value cause words.old) }
{
    // Most keys have one value, for which no list is made.
    let first = words.value(alloc)?;
    if words.at_end() {
        return Ok(Key::one(first));
    }
    let mut values = Vec::new(alloc);
    values.push(first)?;
    loop {
        values.push(words.value(alloc)?)?;
        if words.at_end() {
            return Ok(Key::new(values));
        }
    }
}

/// A key's values, and the word `set` after them.
pub(crate) fn key_until_set(alloc: Global, words: &mut Words) -> Result<Key, LineCause>
    ensures { MatchResult result (λ key. GoesUntil fixed.Set kind.Value key words.old words.new)
        (λ cause. StopsUntil fixed.Set kind.Value cause words.old) }
{
    // Most keys have one value, for which no list is made.
    let first = words.value(alloc)?;
    if words.take_fixed(Fixed::Set) {
        return Ok(Key::one(first));
    }
    let mut values = Vec::new(alloc);
    values.push(first)?;
    loop {
        values.push(words.value(alloc)?)?;
        if words.take_fixed(Fixed::Set) {
            return Ok(Key::new(values));
        }
    }
}

/// One or more columns, to the line's end.
pub(crate) fn columns(alloc: Global, words: &mut Words) -> Result<Columns, LineCause>
    ensures { MatchResult result (λ columns. GoesLast kind.Column columns words.old) (λ cause. StopsLast kind.Column cause words.old) }
{
    let mut columns = Vec::new(alloc);
    loop {
        columns.push(words.column(alloc)?)?;
        if words.at_end() {
            return Ok(Columns::new(columns));
        }
    }
}

/// One or more changes of columns, to the line's end.
pub(crate) fn sets(alloc: Global, words: &mut Words) -> Result<Sets, LineCause>
    ensures { MatchResult result (λ sets. GoesLast kind.Set sets words.old) (λ cause. StopsLast kind.Set cause words.old) }
{
    // Most updates have one change, for which no list is made.
    let first = words.set(alloc)?;
    if words.at_end() {
        return Ok(Sets::one(first));
    }
    let mut sets = Vec::new(alloc);
    sets.push(first)?;
    loop {
        sets.push(words.set(alloc)?)?;
        if words.at_end() {
            return Ok(Sets::new(sets));
        }
    }
}
