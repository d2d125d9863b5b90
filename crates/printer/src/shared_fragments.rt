//! Pieces that stand in many frames, and what a node's parts are asked.

ghost use Rattle.std.specs.Prelude.{◌≡◌, not};
ghost use Rattle.tree.specs.Node.{node_tree};
ghost use Rattle.tree.specs.Tree.{parts_of};
ghost use Rattle.spelling_table.specs.Outlines.{parts_after};
ghost use Rattle.language.specs.Pieces.{is_none};
ghost use Rattle.printer.specs.Shapes.{has_part as has_part_at};

use crate::fragments::Fragment;
use tree::Node;

/// The node's own text.
pub const OWN: &[Fragment] = &[Fragment::NodeText];

/// `;`.
pub const SEMICOLON: &[Fragment] = &[Fragment::Token(";")];

/// `: `.
pub const COLON: &[Fragment] = &[Fragment::Token(": ")];

/// `(`.
pub const OPEN: &[Fragment] = &[Fragment::Token("(")];

/// `)`.
pub const CLOSE: &[Fragment] = &[Fragment::Token(")")];

/// `) `.
pub const CLOSE_SPACE: &[Fragment] = &[Fragment::Token(") ")];

/// `[`.
pub const BRACKET: &[Fragment] = &[Fragment::Token("[")];

/// `]`.
pub const END_BRACKET: &[Fragment] = &[Fragment::Token("]")];

/// `for (`.
pub const FOR: &[Fragment] = &[Fragment::Token("for (")];

/// Whether a part stands at a place.
#[inline(always)]
pub(crate) fn has_part(node: Node, index: usize) -> bool
    ensures { result ≡ has_part_at (parts_of (node_tree node.entry)) index }
{
    node.part(index).is_some()
}

/// Whether there is a part or a gap at a place.
pub(crate) fn is_filled(node: Node, from: usize) -> bool
    ensures { result ≡ not (is_none (parts_after from (parts_of (node_tree node.entry)))) }
{
    node.part_count() > from
}
