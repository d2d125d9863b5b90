//! Bodies that get a block.

ghost use Rattle.std.specs.Prelude.{◌≡◌, IfSome, Some, option_map, true};
ghost use Rattle.tree.specs.Node.{node_tree};
ghost use Rattle.mending.specs.declared.change.MendRule.TheVariants.{Curly};
ghost use Rattle.mending.specs.Changes.{is_wrapped};
ghost use Rattle.mending.specs.Making.{BeginsParts, IsBlockOf, IsOneBlock, MendsPart};

use crate::asked::is_asked;
use crate::change::{Change, MendRule};
use crate::tests::{are_flags, has_bodies, is_block, is_kind};
use tree::{Flags, Kind, Node};

/// Whether a body in a node of this kind is no block.
fn is_wrapped(kind: Kind, node: Node) -> bool
    ensures { result ≡ is_wrapped Curly kind (node_tree node.entry) }
{
    has_bodies(kind) && !is_block(node.kind())
}

/// Whether a node is a block, and has just one part.
fn is_block_of_one(node: Node) -> bool
    ensures { result ≡ true → IsOneBlock (node_tree node.entry) }
{
    is_kind(Kind::BlockStatement, node.kind())
        && node.text() == ""
        && are_flags(Flags::PLAIN, node.flags())
        && node.part_count() == 1
}

/// The only statement of a block.
fn only_statement<'t, 's>(node: Node<'t, 's>) -> Option<Node<'t, 's>>
    ensures { IfSome result (λ inner. IsBlockOf (node_tree inner) (node_tree node.entry)) }
{
    if !is_block_of_one(node) {
        return None;
    }
    node.part(0)
}

/// What stands for a part of a node of this kind: the only statement of the block that has come round it by the changes, or the other part
/// itself.
#[tactic(auto, using(crate::proofs::MendSteps::begin_steps))]
pub(crate) fn standing_for<'t, 's>(
    kind: Kind,
    part: Option<Node>,
    other: Option<Node<'t, 's>>,
    changes: &[Change],
) -> Option<Node<'t, 's>>
    ensures { MendsPart changes.now (option_map node_tree part.entry) (option_map node_tree result) → BeginsParts changes.now kind (option_map node_tree part.entry) (option_map node_tree other.entry) }
{
    let Some(node) = part else {
        return other;
    };
    let Some(after) = other else {
        return None;
    };
    if !is_wrapped(kind, node) || !is_asked(MendRule::Curly, node, changes) {
        return other;
    }
    only_statement(after)
}
