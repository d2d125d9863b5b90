//! Whether a tree is another but for the changes that were made.

ghost use Rattle.std.specs.Prelude.{◌≡◌, IfSome, true, option_map};
ghost use Rattle.tree.specs.Node.{node_tree, list_parts};
ghost use Rattle.mending.specs.declared.change.MendRule.TheVariants.{NoUselessReturn};
ghost use Rattle.mending.specs.Changes.{goes};
ghost use Rattle.mending.specs.Mends.{Mends, MendsParts};
ghost use Rattle.mending.specs.Making.{Goes, GoesPart, HasLabel, MendsBoth, MendsPart, TakesPlace, is_made};

use crate::asked::is_asked;
use crate::change::{Change, MendRule};
use crate::label::{Label, label_of};
use crate::rebuilt::{dotted_key, has_dot, has_operator, long_operation};
use crate::replaced::replaced_part;
use crate::tests::{are_flags, has_statements, is_kind};
use crate::wrapped::standing_for;
use tree::{Kind, Node, NodeList, Program};

/// Whether the second tree is the first, places aside, but for these changes, which are in order of their places.
pub(crate) fn mends(before: &Program, after: &Program, changes: &[Change]) -> bool
    ensures { result ≡ true → Mends (is_made changes.now) before.now after.now }
{
    mends_node(before.root(), after.root(), changes)
}

/// Whether a node is another but for the changes.
#[cycle(mends)]
fn mends_node(node: Node, after: Node, changes: &[Change]) -> bool
    ensures { result ≡ true → Mends (is_made changes.now) (node_tree node.entry) (node_tree after.entry) }
{
    if let Some(part) = replaced_part(node, changes) {
        return mends_node(part, after, changes);
    }
    if let Some(key) = dotted_key(node, changes) {
        return has_dot(node, key, after) && mends_both(node.part(0), after.part(0), changes);
    }
    if let Some(operation) = long_operation(node, changes) {
        if !has_operator(node, operation, after)
            || !mends_both(node.part(0), after.part(0), changes)
        {
            return false;
        }
        return mends_both(operation.part(1), after.part(1), changes);
    }
    let label = label_of(node, changes);
    let kind = node.kind();
    if !has_label(after, kind, label) {
        return false;
    }
    let parts = node.parts();
    mends_parts(kind, parts.skip(label.first), after.parts(), changes)
}

/// Whether the parts of a node of this kind are others but for the changes.
#[cycle(mends)]
fn mends_parts(kind: Kind, parts: NodeList, others: NodeList, changes: &[Change]) -> bool
    ensures { result ≡ true → MendsParts (is_made changes.now) kind (list_parts parts.entry) (list_parts others.entry) }
{
    let mut next = 0usize;
    for index in 0..parts.len() {
        let part = parts.get(index);
        if goes_part(kind, part, changes) {
            continue;
        }
        if next >= others.len() {
            return false;
        }
        let other = standing_for(kind, part, others.get(next), changes);
        if !mends_part(part, other, changes) {
            return false;
        }
        next += 1;
    }
    next == others.len()
}

/// Whether a part is another but for the changes, or both are missing.
#[cycle(mends)]
fn mends_part(part: Option<Node>, other: Option<Node>, changes: &[Change]) -> bool
    ensures { result ≡ true → MendsPart changes.now (option_map node_tree part.entry) (option_map node_tree other.entry) }
{
    match (part, other) {
        (Some(node), Some(after)) => mends_node(node, after, changes),
        (None, None) => true,
        _ => false,
    }
}

/// Whether a part is another but for the changes, and neither is missing.
#[cycle(mends)]
fn mends_both(part: Option<Node>, other: Option<Node>, changes: &[Change]) -> bool
    ensures { result ≡ true → MendsBoth changes.now (option_map node_tree part.entry) (option_map node_tree other.entry) }
{
    match (part, other) {
        (Some(node), Some(after)) => mends_node(node, after, changes),
        _ => false,
    }
}

/// Whether a part goes, of a node of this kind.
fn goes_part(kind: Kind, part: Option<Node>, changes: &[Change]) -> bool
    ensures { result ≡ true → GoesPart changes.now kind (option_map node_tree part.entry) }
{
    let Some(node) = part else {
        return false;
    };
    goes(kind, node, changes)
}

/// Whether a node is a `return` without an argument.
fn is_bare_return(node: Node) -> bool
    ensures { result ≡ goes NoUselessReturn (node_tree node.entry) }
{
    match node.kind() {
        Kind::ReturnStatement => node.part(0).is_none(),
        _ => false,
    }
}

/// The rule by whose change a node may go.
fn dropping_rule(node: Node) -> Option<MendRule>
    ensures { IfSome result (λ rule. goes rule (node_tree node.entry) ≡ true) }
{
    if is_bare_return(node) {
        return Some(MendRule::NoUselessReturn);
    }
    match node.kind() {
        Kind::DebuggerStatement => Some(MendRule::NoDebugger),
        Kind::EmptyStatement => Some(MendRule::NoExtraSemi),
        _ => None,
    }
}

/// Whether a node goes, of a list in a node of this kind.
fn goes(kind: Kind, node: Node, changes: &[Change]) -> bool
    ensures { result ≡ true → Goes changes.now kind (node_tree node.entry) }
{
    if !has_statements(kind) {
        return false;
    }
    let Some(rule) = dropping_rule(node) else {
        return false;
    };
    is_asked(rule, node, changes)
}

/// Whether a node has a kind and a label.
fn has_label(node: Node, kind: Kind, label: Label<'_>) -> bool
    ensures { result ≡ true → HasLabel (node_tree node.entry) kind label.entry }
{
    is_kind(kind, node.kind()) && label.text == node.text() && are_flags(label.flags, node.flags())
}
