//! The rows of a tree whose nodes are all there.

ghost use Rattle.std.specs.Prelude.{◌≡◌, ◌+◌, ◌<◌, ◌≤◌, cond, is_some, length};
ghost use Rattle.tree.specs.NodeUses.{has_row as has_row_at};
ghost use Rattle.tree.specs.Flat.{AreBefore, AreLinked};
ghost use Rattle.tree.specs.Building.{most};
ghost use Rattle.tree.specs.Numbering.{KeepsLabels, NumbersBelow, NumbersNode, NumbersParts};
ghost use Rattle.tree.specs.Tree.{Tree};
ghost use Rattle.tree.specs.Whole.{HasNodesOf, IsWhole, whole_tree};

use crate::flat_list::section;
use crate::flat_node::{FlatNode, FlatNodes};
use crate::flat_tree::FlatTree;
use crate::node_use::{NodeUse, ParentUse, child_place, has_row, part_use};
use crate::part_number::PartNumber;
use crate::row_number::RowNumber;

/// The tree with the rows of its last node and of all below it numbered: of a whole tree, all its rows.
pub(crate) fn number_rows(tree: FlatTree<'_>) -> FlatTree<'_>
    requires { 0 < length tree.nodes.items }
    ensures { (t : Tree) → HasNodesOf tree.entry t → (whole_tree result ≡ t) × IsWhole result }
{
    let FlatTree { nodes, parts } = tree;
    let mut nodes = nodes;
    let last = nodes.len() - 1;
    number_node(&mut nodes, &parts, NodeUse::NotEvaluated, last, 1);
    FlatTree::new(nodes, parts)
}

/// Numbers the rows of a node that stands so and of all below it, the first of them with this number. The number of the next comes back.
#[cycle(numbering)]
#[inline(always)]
pub(crate) fn number_node(
    nodes: &mut FlatNodes<'_>,
    pool: &[PartNumber],
    node_use: NodeUse,
    number: usize,
    row: u32,
) -> u32
    requires there { number < length nodes.old.items }
    requires linked { AreLinked pool.now 0 nodes.old.items }
    requires counted { 0 < row }
    ensures shape { KeepsLabels nodes.old.items nodes.new.items }
    ensures counted { 0 < result }
    ensures numbered { NumbersNode pool.now nodes.old.items nodes.new.items node_use number row result }
{
    let node = &mut nodes[number];
    let next = number_own(node, node_use, row);
    if node.count == 0 {
        return next;
    }
    number_below(nodes, pool, node_use, number, next)
}

/// Numbers the rows of all below a node. It reads the node again, so that less is handed on.
#[cycle(numbering)]
fn number_below(
    nodes: &mut FlatNodes<'_>,
    pool: &[PartNumber],
    node_use: NodeUse,
    number: usize,
    row: u32,
) -> u32
    requires there { number < length nodes.old.items }
    requires linked { AreLinked pool.now 0 nodes.old.items }
    requires counted { 0 < row }
    ensures shape { KeepsLabels nodes.old.items nodes.new.items }
    ensures counted { 0 < result }
    ensures numbered { NumbersBelow pool.now nodes.old.items nodes.new.items node_use number row result }
{
    let node = &nodes[number];
    let around = ParentUse {
        node_use,
        kind: node.kind,
        flags: node.flags.flags(),
    };
    let run = section(pool, node.first as usize, node.count as usize);
    number_parts(nodes, pool, around, run, row)
}

/// Numbers the rows of a node's parts.
#[cycle(numbering)]
#[inline(always)]
fn number_parts(
    nodes: &mut FlatNodes<'_>,
    pool: &[PartNumber],
    around: ParentUse,
    run: &[PartNumber],
    row: u32,
) -> u32
    requires before { AreBefore (length nodes.old.items) run.now }
    requires linked { AreLinked pool.now 0 nodes.old.items }
    requires counted { 0 < row }
    ensures shape { KeepsLabels nodes.old.items nodes.new.items }
    ensures counted { 0 < result }
    ensures numbered { NumbersParts pool.now nodes.old.items nodes.new.items around run.now row result }
{
    let mut next = row;
    for index in 0..run.len() {
        if let Some(part) = run[index].number() {
            let number = part.number as usize;
            let place = child_place(nodes, pool, around, run.len(), index, number);
            next = number_node(nodes, pool, part_use(around, place), number, next);
        }
    }
    next
}

/// Gives a node that stands so its row, if it has one. The number of the next comes back, which stays at the greatest that four bytes
/// hold.
#[inline(always)]
fn number_own(node: &mut FlatNode<'_>, node_use: NodeUse, row: u32) -> u32
    requires { 0 < row }
    ensures counted { 0 < result }
    ensures kept { node.new ≡ record node.old { row = node.new.row } }
    ensures own { node.new.row ≡ cond (has_row_at node_use node.old.kind) (Some row) None }
    ensures next { row ≤ most → result ≡ row + cond (is_some node.new.row) 1 0 }
{
    if has_row(node_use, node.kind) {
        node.row = RowNumber::of(row);
        return row.saturating_add(1);
    }
    node.row = RowNumber::none();
    row
}
