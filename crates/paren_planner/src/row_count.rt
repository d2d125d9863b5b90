//! How many rows there are in a node, as the finished tree holds them.

ghost use Rattle.std.specs.Prelude.{◌≡◌, ◌≤◌};
ghost use Rattle.tree.specs.Node.{node_tree};
ghost use Rattle.tree.specs.HeldRows.{HoldsRows};
ghost use Rattle.tree.specs.NodeUses.{rows_in};
ghost use Rattle.tree.specs.declared.node_use.NodeUse.{NodeUse};

use tree::Node;

/// How many rows there are in a node: its own, if it has one, and those of the nodes below it. Exact where four bytes hold the number.
#[inline(always)]
pub(crate) fn row_count(node: Node) -> u32
    ensures { (st : NodeUse) → HoldsRows st node.entry → rows_in st (node_tree node.entry) ≤ 4294967295 → result ≡ rows_in st (node_tree node.entry) }
{
    node.row_count().min(u32::MAX as usize) as u32
}
