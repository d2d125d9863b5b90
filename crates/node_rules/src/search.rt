//! Searches in a node and all below it, but not in the functions there.

ghost use Rattle.std.specs.Prelude.{◌≡◌, option_map};
ghost use Rattle.tree.specs.Node.{node_tree};
ghost use Rattle.node_rules.specs.Searches.{has_sought, is_sought, some_in};
ghost use Rattle.node_rules.specs.declared.search.Sought.TheVariants.{Jump};

use crate::words::is_name;
use tree::{Kind, Node};

/// What is looked for.
#[derive(Clone, Copy)]
pub(crate) enum Sought {
    /// A `yield`.
    Yield,
    /// A `break` or `continue` with a label.
    Jump,
}

/// A search: for what, and by which label.
#[derive(Clone, Copy)]
pub(crate) struct Search<'s> {
    pub(crate) sought: Sought,
    pub(crate) label: &'s str,
}

/// Whether a node is what is looked for.
fn is_sought(search: Search, node: Node) -> bool
    ensures { result ≡ is_sought search.entry.sought search.entry.label.now (node_tree node.entry) }
{
    match search.sought {
        Sought::Yield => matches!(node.kind(), Kind::YieldExpression),
        Sought::Jump => is_jump(node, search.label),
    }
}

/// Whether a node is a `break` or `continue` with this label.
fn is_jump(node: Node, label: &str) -> bool
    ensures { result ≡ is_sought Jump label.now (node_tree node.entry) }
{
    match node.kind() {
        Kind::BreakStatement | Kind::ContinueStatement => is_name(node.part(0), label),
        _ => false,
    }
}

/// Whether a node is what is looked for, or one below it that stands in no function there.
#[tactic(auto, using(tree::proofs::PartWalk::part_steps))]
fn some_in(search: Search, node: Node) -> bool
    ensures { result ≡ some_in (is_sought search.entry.sought search.entry.label.now) (node_tree node.entry) }
{
    if is_sought(search, node) {
        return true;
    }
    if node.kind().is_function() {
        return false;
    }
    for index in 0..node.part_count() {
        if let Some(part) = node.part(index) {
            if some_in(search, part) {
                return true;
            }
        }
    }
    false
}

/// The same of a part that may be missing.
pub(crate) fn has_sought(search: Search, part: Option<Node>) -> bool
    ensures { result ≡ has_sought search.entry.sought search.entry.label.now (option_map node_tree part.entry) }
{
    match part {
        Some(node) => some_in(search, node),
        None => false,
    }
}
