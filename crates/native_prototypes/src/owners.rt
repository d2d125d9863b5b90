//! What has the prototype whose member an assignment has as its target.

ghost use Rattle.std.specs.Prelude.{◌≡◌, option_map};
ghost use Rattle.tree.specs.Node.{node_tree};
ghost use Rattle.name_tables.specs.Sets.{contains};
ghost use Rattle.native_prototypes.specs.Found.{extended_by, is_assignment, is_capital, is_member, is_native, is_prototype, object_of, owner_of};

use name_tables::NameSet;
use reference_rules::is_built_in_for;
use tree::{Kind, Node};

/// Whether it is the kind of a member.
fn is_member(kind: Kind) -> bool
    ensures { result ≡ is_member kind }
{
    matches!(kind, Kind::MemberExpression)
}

/// Whether it is the kind of an assignment.
fn is_assignment(kind: Kind) -> bool
    ensures { result ≡ is_assignment kind }
{
    matches!(kind, Kind::AssignmentExpression)
}

/// Whether a node is the name `prototype`.
fn is_prototype(node: Option<Node>) -> bool
    ensures { result ≡ is_prototype (option_map node_tree node.entry) }
{
    let Some(node) = node else {
        return false;
    };
    node.kind().is_identifier() && node.text() == "prototype"
}

/// The object of a member.
fn object_of<'t, 's>(node: Option<Node<'t, 's>>) -> Option<Node<'t, 's>>
    ensures { option_map node_tree result ≡ object_of (option_map node_tree node.entry) }
{
    let Some(node) = node else {
        return None;
    };
    if is_member(node.kind()) {
        node.part(0)
    } else {
        None
    }
}

/// What has a prototype that stands here.
fn owner_of<'t, 's>(node: Option<Node<'t, 's>>) -> Option<Node<'t, 's>>
    ensures { option_map node_tree result ≡ owner_of (option_map node_tree node.entry) }
{
    let Some(node) = node else {
        return None;
    };
    if !node.flags().computed && is_prototype(node.part(1)) {
        object_of(Some(node))
    } else {
        None
    }
}

/// What has the prototype whose member a node assigns to.
pub(crate) fn extended_by<'t, 's>(node: Node<'t, 's>) -> Option<Node<'t, 's>>
    ensures { option_map node_tree result ≡ extended_by (node_tree node.entry) }
{
    if is_assignment(node.kind()) {
        owner_of(object_of(node.part(0)))
    } else {
        None
    }
}

/// Whether a text begins with a capital.
fn is_capital(text: &str) -> bool
    ensures { result ≡ is_capital text.now }
{
    match text.as_bytes().first() {
        Some(first) => *first >= 65 && *first <= 90,
        None => false,
    }
}

/// Whether a node is the name of a built-in object, and of no binding.
pub(crate) fn is_native(is_2022: bool, bound: &NameSet, node: Option<Node>) -> bool
    ensures { result ≡ is_native is_2022 (contains bound.now) (option_map node_tree node.entry) }
{
    let Some(node) = node else {
        return false;
    };
    let name = node.text();
    node.kind().is_identifier()
        && is_capital(name)
        && is_built_in_for(is_2022, name)
        && !bound.contains(name)
}
