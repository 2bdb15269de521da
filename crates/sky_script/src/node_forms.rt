//! The statement forms on nodes of sets: of each, what follows its first word.

ghost use Rattle.sky_model.specs.declared.stmt.NodeStmt.TheVariants as node;
ghost use Rattle.sky_model.specs.Kinds.{Name, Dotted};
ghost use Rattle.sky_model.specs.Grammar.{one, last, stop, either};
ghost use Rattle.sky_script.specs.Reading.{Answers};

use crate::cause::LineCause;
use crate::words::Words;
use sky_model::{NodeStmt, Stmt};
use std::alloc::Global;

pub(crate) fn create_root(alloc: Global, words: &mut Words) -> Result<Stmt, LineCause>
    ensures { Answers result (one Name (λ name. last Name (λ queue. Stmt.Node (node.CreateRoot name queue)))) words.old }
{
    let name = words.name(alloc)?;
    let queue = words.last_name(alloc)?;
    Ok(Stmt::Node(NodeStmt::CreateRoot { name, queue }))
}

pub(crate) fn create_leaf(alloc: Global, words: &mut Words) -> Result<Stmt, LineCause>
    ensures { let row = one Name (λ name. last Name (λ provider. Stmt.Node (node.CreateLeaf name provider))) in
        Answers result row words.old }
{
    let name = words.name(alloc)?;
    let provider = words.last_name(alloc)?;
    Ok(Stmt::Node(NodeStmt::CreateLeaf { name, provider }))
}

pub(crate) fn add_table(alloc: Global, words: &mut Words) -> Result<Stmt, LineCause>
    ensures { let row = one Name (λ name. last Dotted (λ table. Stmt.Node (node.AddTable name table))) in
        Answers result row words.old }
{
    let name = words.name(alloc)?;
    let table = words.last_dotted(alloc)?;
    Ok(Stmt::Node(NodeStmt::AddTable { name, table }))
}

pub(crate) fn remove_table(alloc: Global, words: &mut Words) -> Result<Stmt, LineCause>
    ensures { let row = one Name (λ name. last Dotted (λ table. Stmt.Node (node.RemoveTable name table))) in
        Answers result row words.old }
{
    let name = words.name(alloc)?;
    let table = words.last_dotted(alloc)?;
    Ok(Stmt::Node(NodeStmt::RemoveTable { name, table }))
}

pub(crate) fn table_state(alloc: Global, words: &mut Words) -> Result<Stmt, LineCause>
    ensures { let row = one Name (λ name. last Dotted (λ table. Stmt.Node (node.TableState name table))) in
        Answers result row words.old }
{
    let name = words.name(alloc)?;
    let table = words.last_dotted(alloc)?;
    Ok(Stmt::Node(NodeStmt::TableState { name, table }))
}

pub(crate) fn copy_step(alloc: Global, words: &mut Words) -> Result<Stmt, LineCause>
    ensures { let row = one Name (λ name. last Dotted (λ table. Stmt.Node (node.CopyStep name table))) in
        Answers result row words.old }
{
    let name = words.name(alloc)?;
    let table = words.last_dotted(alloc)?;
    Ok(Stmt::Node(NodeStmt::CopyStep { name, table }))
}

pub(crate) fn restart(alloc: Global, words: &mut Words) -> Result<Stmt, LineCause>
    ensures { let row = one Name (λ name. either (stop (Stmt.Node (node.Restart name))) (last Dotted (λ table. Stmt.Node (node.RestartTable name table)))) in
        Answers result row words.old }
{
    let name = words.name(alloc)?;
    if words.at_end() {
        return Ok(Stmt::Node(NodeStmt::Restart { name }));
    }
    let table = words.last_dotted(alloc)?;
    Ok(Stmt::Node(NodeStmt::RestartTable { name, table }))
}

pub(crate) fn londiste_step(alloc: Global, words: &mut Words) -> Result<Stmt, LineCause>
    ensures { Answers result (last Name (λ name. Stmt.Node (node.LondisteStep name))) words.old }
{
    let name = words.last_name(alloc)?;
    Ok(Stmt::Node(NodeStmt::LondisteStep { name }))
}
