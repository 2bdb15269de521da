//! The queue of a database's set, whose consumers are a node's.

ghost use Rattle.std.specs.Prelude.{◌≡◌, ◌<◌, true, None, Some, IfSome};
ghost use Rattle.londiste_state.specs.declared.node.Node.TheVariants as node;
ghost use Rattle.sky_model.specs.Nodes.{is_set_queue};
ghost use Rattle.sky_model.specs.Queues.{queue_name};
ghost use Rattle.sky_model.specs.StepConsumer.{has_dot, is_nodes};
ghost use Rattle.sky_model.specs.StepNode.{set_queue};
ghost use Rattle.pgq_queues.specs.Seen.{Stands};
ghost use Rattle.pgq_parts.specs.Seen.{seen_database};

use crate::db::Db;
use londiste_state::Node;
use pgq_parts::{has_dot, is_set_queue};
use sky_row_store::RowStore;
use sky_val::Text;

impl<R: RowStore> Db<R> {
    /// The queue of the set of which the node is the root.
    pub(crate) fn set_queue(&self) -> Option<usize>
        ensures queue { result ≡ set_queue (seen_database self.now) }
        ensures stands { IfSome result (λ queue. Stands self.now.queues.queues queue) }
    {
        match &self.node.own {
            Some(Node::Root(root)) => self.queues.number(root.queue()),
            _ => None,
        }
    }

    /// Whether a queue of this name is a set's.
    pub(crate) fn is_set_queue(&self, queue: &Text) -> bool
        ensures { result ≡ is_set_queue queue.now (seen_database self.now).node }
    {
        is_set_queue(&self.node.own, queue)
    }

    /// Whether a consumer of the queue of this name is a node's, so that no session may use it: its name has a dot, or
    /// it is a leaf's.
    pub(crate) fn is_nodes(&self, queue: &Text, consumer: &Text) -> bool
        ensures { result ≡ is_nodes (seen_database self.now) queue.now consumer.now }
    {
        if has_dot(consumer) {
            return true;
        }
        match &self.node.own {
            Some(Node::Root(root)) => *queue == *root.queue() && root.has_consumer(consumer),
            _ => false,
        }
    }

    /// The same for the queue of this number.
    pub(crate) fn is_nodes_of(&self, queue: usize, consumer: &Text) -> bool
        ensures { result ≡ is_nodes (seen_database self.now) (queue_name queue (seen_database self.now).queues) consumer.now }
    {
        if has_dot(consumer) {
            return true;
        }
        match &self.node.own {
            Some(Node::Root(root)) => {
                self.queues.has_name(queue, root.queue()) && root.has_consumer(consumer)
            }
            _ => false,
        }
    }
}
