ghost use Rattle.std.specs.Prelude.{◌≡◌, [], None, OnOk, OnErr, option_copied};
ghost use Rattle.londiste_state.specs.Nodes as nodes;

use crate::state::TableState;
use sky_txid::Snapshot;
use sky_val::{NoMemory, Text};
use std::alloc::Global;
use std::marker::Model;

/// A table of a leaf.
#[derive(Debug)]
pub struct LeafTable {
    name: Text,
    state: TableState,
    snapshot: Option<Snapshot>,
    tick: u64,
}

// By hand, so that it is not written out at each exit of a function that owns one.
impl Drop for LeafTable {
    fn drop(self) {
        let LeafTable {
            name: _,
            state: _,
            snapshot: _,
            tick: _,
        } = self;
    }
}

impl Model for LeafTable {
    ghost use Rattle.londiste_state.specs.Kinds as kinds;

    ghost Value = { kinds.LeafTable };

    ghost view = { λ t. record { name = t.name; state = t.state; snapshot = t.snapshot; tick = t.tick } };
}

impl LeafTable {
    /// One that joins.
    fn new(name: Text) -> LeafTable
        ensures { result ≡ nodes.new_table name }
    {
        LeafTable {
            name,
            state: TableState::Absent,
            snapshot: None,
            tick: 0,
        }
    }

    /// Its name.
    pub fn name(&self) -> &Text
        ensures { result.now ≡ self.now.name }
    {
        &self.name
    }

    /// How far it has come.
    pub fn state(&self) -> TableState
        ensures { result ≡ self.now.state }
    {
        self.state
    }

    /// The snapshot under which it was copied, if it was.
    pub fn snapshot(&self) -> Option<&Snapshot>
        ensures { option_copied result ≡ self.now.snapshot }
    {
        self.snapshot.as_ref()
    }

    /// The tick up to which its copy has applied batches.
    pub fn tick(&self) -> u64
        ensures { result ≡ self.now.tick }
    {
        self.tick
    }

    /// It has this state from now on.
    fn move_to(&mut self, to: TableState)
        ensures { self.new ≡ nodes.in_state to self.old }
    {
        self.state = to;
    }

    /// Its copy has ended, under a snapshot, and its consumer is at a tick: it catches up from now on.
    fn end_copy(&mut self, snapshot: Snapshot, tick: u64)
        ensures { self.new ≡ nodes.with_copy snapshot tick self.old }
    {
        self.state = TableState::CatchingUp;
        self.snapshot = Some(snapshot);
        self.tick = tick;
    }

    /// Its copy has applied the batches up to a tick.
    fn set_tick(&mut self, tick: u64)
        ensures { self.new ≡ nodes.with_tick tick self.old }
    {
        self.tick = tick;
    }
}

/// The root of a set, where the tables of the set are written.
#[derive(Debug)]
pub struct Root {
    name: Text,
    queue: Text,
    tables: Vec<Text>,
    consumers: Vec<Text>,
}

// By hand, so that it is not written out at each exit of a function that owns one.
impl Drop for Root {
    fn drop(self) {
        let Root {
            name: _,
            queue: _,
            tables: _,
            consumers: _,
        } = self;
    }
}

impl Model for Root {
    ghost use Rattle.londiste_state.specs.Kinds as kinds;

    ghost Value = { kinds.Root };

    ghost view = { λ r. record { name = r.name; queue = r.queue; tables = r.tables.items; consumers = r.consumers.items } };
}

impl Root {
    /// One without tables and leaves.
    pub fn new(alloc: Global, name: Text, queue: Text) -> Root
        ensures { result ≡ record { name = name; queue = queue; tables = []; consumers = [] } }
    {
        Root {
            name,
            queue,
            tables: Vec::new(alloc),
            consumers: Vec::new(alloc),
        }
    }

    /// Its name.
    pub fn name(&self) -> &Text
        ensures { result.now ≡ self.now.name }
    {
        &self.name
    }

    /// The queue of the set.
    pub fn queue(&self) -> &Text
        ensures { result.now ≡ self.now.queue }
    {
        &self.queue
    }

    /// The tables of the set, in the order of joining.
    pub fn tables(&self) -> &[Text]
        ensures { result.now ≡ self.now.tables }
    {
        &self.tables
    }

    /// Whether a table is in the set.
    pub fn has_table(&self, name: &Text) -> bool
        ensures { result ≡ nodes.is_among name.now self.now.tables }
    {
        self.tables.contains(name)
    }

    /// Whether a consumer of the queue is a leaf's.
    pub fn has_consumer(&self, name: &Text) -> bool
        ensures { result ≡ nodes.is_among name.now self.now.consumers }
    {
        self.consumers.contains(name)
    }

    /// A table joins.
    pub fn add_table(&mut self, name: Text) -> Result<(), NoMemory>
        ensures ok { OnOk result (self.new ≡ nodes.with_root_table name self.old) }
        ensures err { OnErr result (self.new ≡ self.old) }
    {
        self.tables.push(name)?;
        Ok(())
    }

    /// A table leaves, if it is in the set.
    pub fn remove_table(&mut self, name: &Text)
        ensures { self.new ≡ nodes.without_root_table name.now self.old }
    {
        remove(name, &mut self.tables);
    }

    /// A consumer of the queue is a leaf's from now on.
    pub fn add_consumer(&mut self, name: Text) -> Result<(), NoMemory>
        ensures ok { OnOk result (self.new ≡ nodes.with_consumer name self.old) }
        ensures err { OnErr result (self.new ≡ self.old) }
    {
        self.consumers.push(name)?;
        Ok(())
    }

    /// A consumer is no longer a leaf's.
    pub fn remove_consumer(&mut self, name: &Text)
        ensures { self.new ≡ nodes.without_consumer name.now self.old }
    {
        remove(name, &mut self.consumers);
    }
}

/// A leaf of a set, whose tables are copies of a root's.
#[derive(Debug)]
pub struct Leaf {
    name: Text,
    provider: Text,
    tick: u64,
    tables: Vec<LeafTable>,
}

// By hand, so that it is not written out at each exit of a function that owns one.
impl Drop for Leaf {
    fn drop(self) {
        let Leaf {
            name: _,
            provider: _,
            tick: _,
            tables: _,
        } = self;
    }
}

impl Model for Leaf {
    ghost use Rattle.londiste_state.specs.Kinds as kinds;

    ghost Value = { kinds.Leaf };

    ghost view = { λ l. record { name = l.name; provider = l.provider; tick = l.tick; tables = l.tables.items } };
}

impl Leaf {
    /// One without tables, that has applied the batches up to a tick of its provider.
    pub fn new(alloc: Global, name: Text, provider: Text, tick: u64) -> Leaf
        ensures { result ≡ record { name = name; provider = provider; tick = tick; tables = [] } }
    {
        Leaf {
            name,
            provider,
            tick,
            tables: Vec::new(alloc),
        }
    }

    /// Its name.
    pub fn name(&self) -> &Text
        ensures { result.now ≡ self.now.name }
    {
        &self.name
    }

    /// The root from which its tables come.
    pub fn provider(&self) -> &Text
        ensures { result.now ≡ self.now.provider }
    {
        &self.provider
    }

    /// The tick up to which it has applied batches.
    pub fn tick(&self) -> u64
        ensures { result ≡ self.now.tick }
    {
        self.tick
    }

    /// Its tables, in the order of joining.
    pub fn tables(&self) -> &[LeafTable]
        ensures { result.now ≡ self.now.tables }
    {
        &self.tables
    }

    /// The table of a name.
    pub fn table(&self, name: &Text) -> Option<&LeafTable>
        ensures { option_copied result ≡ nodes.table_of name.now self.now }
    {
        self.tables.iter().find(|table| *name == *table.name())
    }

    /// Whether a table has joined.
    pub fn has_table(&self, name: &Text) -> bool
        ensures { result ≡ nodes.is_among name.now (nodes.tables_of (nodes.of_leaf self.now)) }
    {
        self.table(name).is_some()
    }

    /// A table joins, and its copy hasn't begun.
    pub fn add_table(&mut self, name: Text) -> Result<(), NoMemory>
        ensures ok { OnOk result (self.new ≡ nodes.with_leaf_table name self.old) }
        ensures err { OnErr result (self.new ≡ self.old) }
    {
        self.tables.push(LeafTable::new(name))?;
        Ok(())
    }

    /// A table leaves, if it has joined, and its state is forgotten.
    pub fn remove_table(&mut self, name: &Text)
        ensures { self.new ≡ nodes.without_leaf_table name.now self.old }
    {
        self.tables.retain(|table| *name != *table.name());
    }

    /// A table has this state from now on, if it has joined.
    pub fn set_state(&mut self, name: &Text, to: TableState)
        ensures { self.new ≡ nodes.with_state name.now to self.old }
    {
        for table in self.tables.iter_mut() {
            if *name == *table.name() {
                table.move_to(to);
            }
        }
    }

    /// It has applied the batches up to a tick.
    pub fn set_tick(&mut self, tick: u64)
        ensures { self.new ≡ record self.old { tick = tick } }
    {
        self.tick = tick;
    }

    /// The copy of a table has applied the batches up to a tick, if the table has joined.
    pub fn set_table_tick(&mut self, name: &Text, tick: u64)
        ensures { self.new ≡ record self.old { tables = nodes.changed_in name.now (nodes.with_tick tick) self.old.tables } }
    {
        for table in self.tables.iter_mut() {
            if *name == *table.name() {
                table.set_tick(tick);
            }
        }
    }

    /// The copy of a table has ended, under a snapshot, and its consumer is at a tick: if the table has joined, it catches
    /// up from now on.
    pub fn end_copy(
        &mut self,
        alloc: Global,
        name: &Text,
        snapshot: &Snapshot,
        tick: u64,
    ) -> Result<(), NoMemory>
        ensures { OnOk result (self.new ≡ nodes.with_copied name.now snapshot.now tick self.old) }
    {
        for table in self.tables.iter_mut() {
            if *name == *table.name() {
                let snapshot = snapshot.copy(alloc)?;
                table.end_copy(snapshot, tick);
            }
        }
        Ok(())
    }
}

/// A database's node in a set.
#[derive(Debug, Drop)]
pub enum Node {
    Root(Root),
    Leaf(Leaf),
}

impl Node {
    /// Its name.
    pub fn name(&self) -> &Text
        ensures { result.now ≡ nodes.node_name self.now }
    {
        match self {
            Node::Root(root) => root.name(),
            Node::Leaf(leaf) => leaf.name(),
        }
    }

    /// Whether a table is in the set or has joined.
    pub fn has_table(&self, name: &Text) -> bool
        ensures { result ≡ nodes.is_among name.now (nodes.tables_of self.now) }
    {
        match self {
            Node::Root(root) => root.has_table(name),
            Node::Leaf(leaf) => leaf.has_table(name),
        }
    }
}

/// Takes a name out wherever it is.
fn remove(name: &Text, names: &mut Vec<Text>)
    ensures { names.new.items ≡ nodes.all_but name.now names.old.items }
{
    names.retain(|other| *name != *other);
}
