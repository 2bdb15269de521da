ghost use Rattle.std.specs.Prelude.{◌≡◌, true, IfOk, OnOk, Some};
ghost use Rattle.londiste_state.specs.Nodes.{of_leaf};
ghost use Rattle.sky_model.specs.StepNode.{may_serve, moving};

use crate::event_store::EventStore;
use crate::leaf_copies;
use crate::nodes::number_of;
use crate::replica::Replica;
use crate::statements::statement;
use anyhow::bail;
use londiste_state::{Leaf, Node, TableState};
use pgq_db::Store;
use sky_model::Replies;
use sky_val::Text;
use std::alloc::Global;
use trials::{first_number, first_word, line, ok, shown};

/// What the database of a leaf answers to a command.
pub fn answer<D: EventStore>(
    alloc: Global,
    db: &mut Replica<D>,
    command: &str,
    words: &str,
) -> anyhow::Result<String> {
    match command {
        "step" => step(alloc, db, words),
        "node" => shown(alloc, Ok(db.db().node())),
        "make_leaf" => make_leaf(alloc, db, words),
        _ => {
            let (table, words) = first_word(words);
            let table = Text::from_str(alloc, table)?;
            answer_of_table(alloc, db, command, &table, words)
        }
    }
}

// What it answers of a table.
fn answer_of_table<D: EventStore>(
    alloc: Global,
    db: &mut Replica<D>,
    command: &str,
    table: &Text,
    words: &str,
) -> anyhow::Result<String> {
    match command {
        "leaf_add" => leaf_add(alloc, db, table),
        "set_state" => set_state(alloc, db, table, words),
        _ => leaf_copies::answer(alloc, db, command, table, words),
    }
}

fn step<D: EventStore>(alloc: Global, db: &mut Replica<D>, words: &str) -> anyhow::Result<String> {
    let (who, words) = first_number(words)?;
    let line = line(alloc, words)?;
    let stmt = statement(&line)?;
    let mut replies = Replies::new(alloc);
    db.step_into(who, stmt, &mut replies)?;
    shown(alloc, Ok(replies))
}

fn make_leaf<D: EventStore>(
    alloc: Global,
    db: &mut Replica<D>,
    words: &str,
) -> anyhow::Result<String> {
    if db.db().node().is_some() {
        bail!("there is a node");
    }
    let (tick, words) = first_number(words)?;
    let (name, provider) = first_word(words);
    let name = Text::from_str(alloc, name)?;
    let provider = Text::from_str(alloc, provider)?;
    shown(alloc, db.make_leaf(&name, &provider, u64::from(tick)))
}

// A table joins the leaf. That it leaves is tried by scripts.
fn leaf_add<D: EventStore>(
    alloc: Global,
    db: &mut Replica<D>,
    table: &Text,
) -> anyhow::Result<String> {
    let number = number_of(db.db(), table)?;
    if leaf_of(db.db())?.has_table(table) {
        bail!("in the leaf");
    }
    shown(alloc, db.leaf_add(table, number))
}

// A table of the leaf goes to a state.
fn set_state<D: EventStore>(
    alloc: Global,
    db: &mut Replica<D>,
    name: &Text,
    to: &str,
) -> anyhow::Result<String> {
    let to = TableState::parse(to.as_bytes())?;
    let number = number_of(db.db(), name)?;
    check_move(leaf_of(db.db())?, name, to)?;
    db.set_state(name, number, to)?;
    ok(alloc)
}

// Whether a table of the leaf may go to a state.
fn check_move(leaf: &Leaf, name: &Text, to: TableState) -> anyhow::Result<()>
    ensures { OnOk result (may_serve (moving name.now to) (Some (of_leaf leaf.now)) ≡ true) }
{
    match leaf.table(name) {
        Some(table) if TableState::allowed(&table.state(), &to) => Ok(()),
        _ => bail!("not allowed"),
    }
}

/// The database's node, if it is a leaf.
pub fn leaf_of<D: Store>(db: &D) -> anyhow::Result<&Leaf>
    ensures { IfOk result (λ leaf. (D.seen db.now).node ≡ Some (of_leaf leaf.now)) }
{
    match db.node() {
        Some(Node::Leaf(leaf)) => Ok(leaf),
        _ => bail!("no leaf"),
    }
}
