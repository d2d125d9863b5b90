//! Parts of nodes and of lists.

ghost use Rattle.std.specs.Prelude.{◌<◌, ◌≤◌, IfSome};
ghost use Rattle.node_parts.specs.Sizes.{size, list_size};

use tree::{Node, NodeList};

/// A part of a node.
pub fn part<'t, 's>(node: Node<'t, 's>, index: usize) -> Option<Node<'t, 's>>
    ensures { IfSome result (λ part. size part < size node.entry) }
{
    node.part(index)
}

/// All parts of a node.
pub fn all_parts<'t, 's>(node: Node<'t, 's>) -> NodeList<'t, 's>
    ensures { list_size result < size node.entry }
{
    node.parts()
}

/// The parts of a node from one on.
pub fn parts_from<'t, 's>(node: Node<'t, 's>, first: usize) -> NodeList<'t, 's>
    ensures { list_size result < size node.entry }
{
    node.parts().skip(first)
}

/// A part of a list.
pub fn get<'t, 's>(list: NodeList<'t, 's>, index: usize) -> Option<Node<'t, 's>>
    ensures { IfSome result (λ part. size part ≤ list_size list.entry) }
{
    list.get(index)
}
