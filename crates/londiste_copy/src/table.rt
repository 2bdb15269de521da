//! The table that a worker copies, in its leaf and in the two databases.

ghost use Rattle.std.specs.Prelude.{◌≡◌, option_copied};
ghost use Rattle.sky_model.specs.CopyMoves.{table_at};
ghost use Rattle.londiste_copy.specs.CatchingUp.{progress_of, the_table};

use londiste_state::{LeafTable, Node, TableState};
use sky_val::Text;

/// A table that is copied: its name, and its numbers in the provider's database and in the leaf's.
#[derive(Clone, Copy, Debug)]
pub struct CopiedTable<'a> {
    pub name: &'a Text,
    pub from: u32,
    pub to: u32,
}

/// The table of a name, if the node is a leaf that has it.
pub(crate) fn table_at<'a>(node: Option<&'a Node>, table: &Text) -> Option<&'a LeafTable>
    ensures { option_copied result ≡ table_at table.now (option_copied node.entry) }
{
    match node {
        Some(Node::Leaf(leaf)) => leaf.table(table),
        _ => None,
    }
}

/// How far a table has come.
#[derive(Clone, Copy)]
pub(crate) struct Progress {
    pub(crate) state: TableState,
    /// The tick to which its copy has come.
    pub(crate) tick: u64,
    /// Whether it was copied, that is, a snapshot of it is kept.
    pub(crate) is_copied: bool,
}

/// How far the table of a name has come. Without such a table it is as if the table had just joined.
pub(crate) fn progress_of(node: Option<&Node>, table: &Text) -> Progress
    ensures { result ≡ progress_of (the_table table.now (option_copied node.entry)) }
{
    match table_at(node, table) {
        Some(table) => Progress {
            state: table.state(),
            tick: table.tick(),
            is_copied: table.snapshot().is_some(),
        },
        None => Progress {
            state: TableState::Absent,
            tick: 0,
            is_copied: false,
        },
    }
}
