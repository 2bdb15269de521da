//! The changes of a node, a function each, and what is asked of it.

ghost use Rattle.std.specs.Prelude.{◌≡◌, ◌<◌, List, ℕ, ℤ, None, Some, Ok, IfErr, OnOk, OnErr, is_some, length};
ghost use Rattle.londiste_state.specs.declared.node.Node.TheVariants as node;
ghost use Rattle.sky_model.specs.History.{root_made, set_added, set_removed, joined, parted, leaf_made, leaf_added, leaf_removed, state_set};
ghost use Rattle.sky_model.specs.Nodes.{after_node, is_set_queue};
ghost use Rattle.sky_model.specs.Queues.{queue_number};
ghost use Rattle.sky_model.specs.StepConsumer.{has_dot};
ghost use Rattle.sky_model.specs.StepNode.{set_trigger};
ghost use Rattle.sky_model.specs.State.{Database};
ghost use Rattle.pgq_queues.specs.Seen.{queues_of};
ghost use Rattle.sky_store.specs.Served.{MakeRootRefused};

use londiste_calls::MakeRootFault;
use londiste_state::{Leaf, Node, Root, TableState};
use pgq_queues::{Queues, TableTrigger};
use sky_model::Limit;
use sky_urlenc::Trigger;
use sky_val::{NoMemory, Text};
use std::alloc::Global;

/// Whether a queue of this name is that of the set of which the node is the root.
pub fn is_set_queue(node: &Option<Node>, queue: &Text) -> bool
    ensures { result ≡ is_set_queue queue.now node.now }
{
    match node {
        Some(Node::Root(root)) => *queue == *root.queue(),
        _ => false,
    }
}

/// Whether a name has a dot: a consumer with such a name is a node's.
pub fn has_dot(name: &Text) -> bool
    ensures { result ≡ has_dot name.now }
{
    name.bytes().contains(&b'.')
}

/// Refuses a set's queue that can't be made: there is one of its name, or there are as many as there may be.
pub fn check_set_queue(queues: &Queues, queue: &Text) -> Result<(), MakeRootFault>
    ensures new { OnOk result (queue_number queue.now (queues_of queues.now) ≡ None) }
    ensures room { OnOk result (length (queues_of queues.now) < 64) }
    ensures err { IfErr result (λ fault. (d : Database) (name : List ℕ) (now : ℤ) → d.node ≡ None → d.queues ≡ queues_of queues.now
        → MakeRootRefused fault d d name queue.now now) }
{
    if queues.number(queue).is_some() {
        return Err(MakeRootFault::QueueExists);
    }
    if queues.count() >= Limit::Queues.most() {
        return Err(MakeRootFault::TooManyQueues);
    }
    Ok(())
}

/// The database's node is the root of a set, whose queue has this name.
pub fn make_root(
    alloc: Global,
    node: &mut Option<Node>,
    name: &Text,
    queue: &Text,
) -> Result<(), NoMemory>
    ensures { OnOk result (node.new ≡ after_node (root_made name.now queue.now) node.old) }
{
    let name = name.copy(alloc)?;
    let queue = queue.copy(alloc)?;
    *node = Some(Node::Root(Root::new(alloc, name, queue)));
    Ok(())
}

/// The database's node is a leaf of the root of this name, at a tick of the root's queue. On an error nothing changes.
pub fn make_leaf(
    alloc: Global,
    node: &mut Option<Node>,
    name: &Text,
    provider: &Text,
    tick: u64,
) -> Result<(), NoMemory>
    ensures ok { OnOk result (node.new ≡ after_node (leaf_made name.now provider.now tick) node.old) }
    ensures err { OnErr result (node.new ≡ node.old) }
{
    let name = name.copy(alloc)?;
    let provider = provider.copy(alloc)?;
    *node = Some(Node::Leaf(Leaf::new(alloc, name, provider, tick)));
    Ok(())
}

/// The trigger of a set on a table, whose events go to the set's queue.
pub fn set_trigger(alloc: Global, table: u32, queue: usize) -> TableTrigger
    ensures { result ≡ record { table = table; name = None; trigger = set_trigger queue } }
{
    TableTrigger {
        table,
        name: None,
        trigger: Trigger::new(queue, false, Vec::new(alloc)),
    }
}

/// Adds the consumer of a leaf, if the node is a root.
pub fn add_consumer(node: &mut Option<Node>, consumer: Text) -> Result<(), NoMemory>
    ensures ok { OnOk result (node.new ≡ after_node (joined consumer) node.old) }
    ensures err { OnErr result (node.new ≡ node.old) }
{
    if let Some(Node::Root(root)) = node {
        root.add_consumer(consumer)?;
    }
    Ok(())
}

/// Removes the consumer of a leaf, if the node is a root.
pub fn remove_consumer(node: &mut Option<Node>, consumer: &Text)
    ensures { node.new ≡ after_node (parted consumer.now) node.old }
{
    if let Some(Node::Root(root)) = node {
        root.remove_consumer(consumer);
    }
}

/// Adds a table to the set, if the node is a root.
pub fn add_root_table(node: &mut Option<Node>, table: Text) -> Result<(), NoMemory>
    ensures ok { OnOk result (node.new ≡ after_node (set_added table) node.old) }
    ensures err { OnErr result (node.new ≡ node.old) }
{
    if let Some(Node::Root(root)) = node {
        root.add_table(table)?;
    }
    Ok(())
}

/// Removes a table from the set, if the node is a root.
pub fn remove_root_table(node: &mut Option<Node>, table: &Text)
    ensures { node.new ≡ after_node (set_removed table.now) node.old }
{
    if let Some(Node::Root(root)) = node {
        root.remove_table(table);
    }
}

/// Adds a table to the leaf, if the node is one.
pub fn add_leaf_table(node: &mut Option<Node>, table: Text) -> Result<(), NoMemory>
    ensures ok { OnOk result (node.new ≡ after_node (leaf_added table) node.old) }
    ensures err { OnErr result (node.new ≡ node.old) }
{
    if let Some(Node::Leaf(leaf)) = node {
        leaf.add_table(table)?;
    }
    Ok(())
}

/// Removes a table from the leaf, if the node is one.
pub fn remove_leaf_table(node: &mut Option<Node>, table: &Text)
    ensures { node.new ≡ after_node (leaf_removed table.now) node.old }
{
    if let Some(Node::Leaf(leaf)) = node {
        leaf.remove_table(table);
    }
}

/// Puts a table of the leaf into a state, if the node is a leaf.
pub fn set_leaf_state(node: &mut Option<Node>, table: &Text, to: TableState)
    ensures { node.new ≡ after_node (state_set table.now to) node.old }
{
    if let Some(Node::Leaf(leaf)) = node {
        leaf.set_state(table, to);
    }
}
