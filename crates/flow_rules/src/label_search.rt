//! Breaks of a label.

ghost use Rattle.std.specs.Prelude.{◌≡◌, option_map};
ghost use Rattle.tree.specs.Node.{node_tree};
ghost use Rattle.tree.specs.Tree.{part_at, parts_of};
ghost use Rattle.flow_rules.specs.Completion.{BreakOf, has, has_text, is_sought, some, text_at};
ghost use Rattle.tree.specs.Tree.{kind_of};

use crate::kind_sets::{is_break, is_code};
use tree::Node;

/// Whether a `break` of its own label stands in a labelled statement.
pub(crate) fn leaves_label(node: Node) -> bool
    ensures { result ≡ some (BreakOf (text_at (part_at (parts_of (node_tree node.entry)) 0))) (parts_of (node_tree node.entry)) }
{
    let label = text_at(node.part(0));
    parts_break(node, label)
}

/// The text of a part, empty where it is missing.
fn text_at<'t, 's>(part: Option<Node<'t, 's>>) -> &'t str
    ensures { result.now ≡ text_at (option_map node_tree part.entry) }
{
    match part {
        Some(node) => node.text(),
        None => "",
    }
}

/// Whether a part is there and has this text.
fn has_text(part: Option<Node>, text: &str) -> bool
    ensures { result ≡ has_text text.now (option_map node_tree part.entry) }
{
    match part {
        Some(node) => node.text() == text,
        None => false,
    }
}

/// Whether a node is a `break` of this label.
fn is_break_of(node: Node, label: &str) -> bool
    ensures { result ≡ is_sought (BreakOf label.now) (kind_of (node_tree node.entry)) (part_at (parts_of (node_tree node.entry)) 0) }
{
    is_break(node.kind()) && has_text(node.part(0), label)
}

/// Whether a `break` of this label stands in a node and leaves it.
#[cycle(breaking)]
#[tactic(auto, using(tree::proofs::PartWalk::part_steps))]
fn breaks(node: Node, label: &str) -> bool
    ensures { result ≡ has (BreakOf label.now) (node_tree node.entry) }
{
    if is_break_of(node, label) {
        return true;
    }
    if is_code(node.kind()) {
        return false;
    }
    parts_break(node, label)
}

/// Whether one leaves some part of a node.
#[cycle(breaking)]
#[tactic(auto, using(tree::proofs::PartWalk::part_steps))]
fn parts_break(node: Node, label: &str) -> bool
    ensures { result ≡ some (BreakOf label.now) (parts_of (node_tree node.entry)) }
{
    for index in 0..node.part_count() {
        if let Some(part) = node.part(index) {
            if breaks(part, label) {
                return true;
            }
        }
    }
    false
}
