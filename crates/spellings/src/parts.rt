//! What stands among a node's parts.

ghost use Rattle.std.specs.Prelude.{◌≡◌};
ghost use Rattle.tree.specs.Node.{node_tree};
ghost use Rattle.tree.specs.Tree.{parts_of};
ghost use Rattle.spellings.specs.Entries.{entry_at, text_at};

use tree::{Kind, Node};

/// What stands at a place among a node's parts.
#[derive(Clone, Copy)]
pub enum PartAt {
    /// The parts end before it.
    Past,
    Gap,
    Part(Kind),
}

/// What stands at a place among a node's parts.
pub(crate) fn part_at(node: Node, index: usize) -> PartAt
    ensures { result ≡ entry_at (parts_of (node_tree node.entry)) index }
{
    match node.part(index) {
        Some(part) => PartAt::Part(part.kind()),
        None if index < node.part_count() => PartAt::Gap,
        None => PartAt::Past,
    }
}

/// The text of the part at a place, empty where none stands.
pub(crate) fn part_text<'t>(node: Node<'t, '_>, index: usize) -> &'t str
    ensures { result.now ≡ text_at (parts_of (node_tree node.entry)) index }
{
    match node.part(index) {
        Some(part) => part.text(),
        None => "",
    }
}
