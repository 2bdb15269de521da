ghost use Rattle.std.specs.Prelude.{◌≡◌, Some, IfOk};
ghost use Rattle.sky_model.specs.StepNode.{table_number};

use crate::databases::step;
use crate::event_store::EventStore;
use crate::replica::Replica;
use crate::{leaves, providers};
use anyhow::bail;
use londiste_state::Node;
use pgq_db::Store;
use sky_val::Text;
use std::alloc::Global;
use trials::{first_number, first_word, no_command, ok, shown};

/// The databases of a root and of a leaf.
#[derive(Drop)]
pub struct Nodes<D: EventStore> {
    root: D,
    leaf: Replica<D>,
}

impl<D: EventStore> Nodes<D> {
    pub fn new(alloc: Global) -> Nodes<D> {
        Nodes {
            root: D::new(alloc),
            leaf: Replica::new(alloc),
        }
    }

    pub fn answer(&mut self, alloc: Global, command: &str, words: &str) -> anyhow::Result<String> {
        let (number, words) = first_number(words)?;
        if number == 0 {
            answer(alloc, &mut self.root, command, words)
        } else {
            leaves::answer(alloc, &mut self.leaf, command, words)
        }
    }
}

// What the database of the root answers to a command.
fn answer<D: EventStore>(
    alloc: Global,
    db: &mut D,
    command: &str,
    words: &str,
) -> anyhow::Result<String> {
    match command {
        "step" => {
            let (who, words) = first_number(words)?;
            step(alloc, db, who, words)
        }
        "node" => shown(alloc, Ok(db.node())),
        "make_root" => make_root(alloc, db, words),
        "spent" => shown(alloc, Ok(db.sub_ids_spent())),
        "snapshot" => providers::snapshot(alloc, db, words),
        _ => {
            let name = Text::from_str(alloc, words)?;
            answer_of(alloc, db, command, &name)
        }
    }
}

// What it answers of a table, or of a consumer.
fn answer_of<D: EventStore>(
    alloc: Global,
    db: &mut D,
    command: &str,
    name: &Text,
) -> anyhow::Result<String> {
    match command {
        "schema" => schema(alloc, db, name),
        "root_add" => root_add(alloc, db, name),
        "root_drop" => root_drop(alloc, db, name),
        _ => providers::answer(alloc, db, command, name),
    }
}

fn schema<D: Store>(alloc: Global, db: &D, table: &Text) -> anyhow::Result<String> {
    let schema = match db.table(table) {
        Some((_, schema)) => Some(schema),
        None => None,
    };
    shown(alloc, Ok(schema))
}

// The clock is at its start.
fn make_root<D: Store>(alloc: Global, db: &mut D, words: &str) -> anyhow::Result<String> {
    if db.node().is_some() {
        bail!("there is a node");
    }
    let (name, queue) = first_word(words);
    let name = Text::from_str(alloc, name)?;
    let queue = Text::from_str(alloc, queue)?;
    shown(alloc, Ok(db.make_root(&name, &queue, 0)))
}

// A table joins the root's set.
fn root_add<D: Store>(alloc: Global, db: &mut D, table: &Text) -> anyhow::Result<String> {
    let number = number_of(db, table)?;
    let Some(Node::Root(root)) = db.node() else {
        return Err(no_command());
    };
    if root.has_table(table) {
        bail!("in the set");
    }
    shown(alloc, Ok(db.root_add(table, number)))
}

// A table leaves the root's set.
fn root_drop<D: Store>(alloc: Global, db: &mut D, table: &Text) -> anyhow::Result<String> {
    let Some(Node::Root(root)) = db.node() else {
        return Err(no_command());
    };
    if !root.has_table(table) {
        bail!("not in the set");
    }
    let number = number_of(db, table)?;
    db.root_drop(table, number);
    ok(alloc)
}

/// The number of a table of the database.
pub fn number_of<D: Store>(db: &D, table: &Text) -> anyhow::Result<u32>
    ensures { IfOk result (λ number. table_number (D.seen db.now) table.now ≡ Some number) }
{
    match db.table(table) {
        Some((number, _)) => Ok(number),
        None => bail!("no table"),
    }
}
