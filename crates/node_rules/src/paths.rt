//! Names, `this`, `super`, literals, and members of such by such: what two of them say is compared as it is written, places aside.

ghost use Rattle.std.specs.Prelude.{◌≡◌, option_map};
ghost use Rattle.tree.specs.Node.{node_tree};
ghost use Rattle.node_rules.specs.Paths.{are_leaves, are_members, are_same, is_same_key, is_same_leaf, is_same_part, is_same_path};

use crate::kind_sets::{is_literal_kind, is_member_expression, is_name_kind, is_super, is_this};
use tree::{Kind, Node};

/// Whether two kinds are those of two single names, two literals, `this` twice or `super` twice.
fn are_leaves(one: Kind, other: Kind) -> bool
    ensures { result ≡ are_leaves one other }
{
    (is_name_kind(one) && is_name_kind(other))
        || (is_literal_kind(one) && is_literal_kind(other))
        || (is_this(one) && is_this(other))
        || (is_super(one) && is_super(other))
}

/// Whether two nodes are one name, literal, `this` or `super`.
fn is_same_leaf(one: Node, other: Node) -> bool
    ensures { result ≡ is_same_leaf (node_tree one.entry) (node_tree other.entry) }
{
    are_leaves(one.kind(), other.kind()) && one.text() == other.text()
}

/// The same of parts.
fn is_same_part(one: Option<Node>, other: Option<Node>) -> bool
    ensures { result ≡ is_same_part (option_map node_tree one.entry) (option_map node_tree other.entry) }
{
    let Some(first) = one else {
        return false;
    };
    let Some(second) = other else {
        return false;
    };
    is_same_leaf(first, second)
}

/// Whether two members have one key: both in brackets, or neither.
fn is_same_key(one: Node, other: Node) -> bool
    ensures { result ≡ is_same_key (node_tree one.entry) (node_tree other.entry) }
{
    let is_as_written = if one.flags().computed {
        other.flags().computed
    } else {
        !other.flags().computed
    };
    is_as_written && is_same_part(one.part(1), other.part(1))
}

/// Whether two nodes are members.
fn are_members(one: Node, other: Node) -> bool
    ensures { result ≡ are_members (node_tree one.entry) (node_tree other.entry) }
{
    is_member_expression(one.kind()) && is_member_expression(other.kind())
}

/// Whether two nodes say one name, literal, `this` or `super`, or members of such by one key.
#[tactic(auto, using(tree::proofs::PartWalk::part_steps))]
fn is_same_path(one: Node, other: Node) -> bool
    ensures { result ≡ is_same_path (node_tree one.entry) (node_tree other.entry) }
{
    if !are_members(one, other) {
        return is_same_leaf(one, other);
    }
    if !is_same_key(one, other) {
        return false;
    }
    let Some(first) = one.part(0) else {
        return false;
    };
    let Some(second) = other.part(0) else {
        return false;
    };
    is_same_path(first, second)
}

/// The same of parts that may be missing.
pub(crate) fn are_same(one: Option<Node>, other: Option<Node>) -> bool
    ensures { result ≡ are_same (option_map node_tree one.entry) (option_map node_tree other.entry) }
{
    let Some(first) = one else {
        return false;
    };
    let Some(second) = other else {
        return false;
    };
    is_same_path(first, second)
}
