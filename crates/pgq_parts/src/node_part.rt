//! What a database keeps for sets of replicated tables.

ghost use Rattle.std.specs.Prelude.{◌≡◌};
ghost use Rattle.pgq_parts.specs.Seen.{no_node};

use londiste_state::Node;
use pgq_copies::{Copies, Holds};
use std::alloc::Global;

/// A database's node, if it has one; the copies of tables that run in the database; and the snapshots that it holds for
/// copies of its own tables.
#[derive(Drop)]
pub struct NodePart {
    pub own: Option<Node>,
    pub copies: Copies,
    pub holds: Holds,
}

impl NodePart {
    /// That of a database without a node.
    pub fn new(alloc: Global) -> NodePart
        ensures { result ≡ no_node }
    {
        NodePart {
            own: None,
            copies: Copies::new(alloc),
            holds: Holds::new(alloc),
        }
    }
}
