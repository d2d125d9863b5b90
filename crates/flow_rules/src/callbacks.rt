//! Callbacks whose value is used.

ghost use Rattle.std.specs.Prelude.{◌≡◌, option_map};
ghost use Rattle.tree.specs.Node.{node_tree};
ghost use Rattle.flow_rules.specs.Arounds.{callback_of, callback_place, is_array_name, key_name, unchained, uses_callback};

use crate::flow::Place;
use tree::{Kind, Node};

/// Whether it is the name of a method of arrays that uses what its callback returns.
fn uses_callback(name: &str) -> bool
    ensures { result ≡ uses_callback name.now }
{
    name == "every"
        || name == "filter"
        || name == "find"
        || name == "findIndex"
        || name == "flatMap"
        || name == "map"
        || name == "reduce"
        || name == "reduceRight"
        || name == "some"
        || name == "sort"
}

/// Whether a part is the name `Array`.
fn is_array_name(part: Option<Node>) -> bool
    ensures { result ≡ is_array_name (option_map node_tree part.entry) }
{
    let Some(node) = part else {
        return false;
    };
    match node.kind() {
        Kind::Identifier => node.text() == "Array",
        _ => false,
    }
}

/// The name of a key that doesn't stand in brackets; empty for another.
fn key_name<'t, 's>(computed: bool, key: Option<Node<'t, 's>>) -> &'t str
    ensures { result.now ≡ key_name computed (option_map node_tree key.entry) }
{
    let Some(node) = key else {
        return "";
    };
    match node.kind() {
        Kind::Identifier => { if computed { "" } else { node.text() } },
        _ => "",
    }
}

/// Which part of a call is such a callback, by the object and the key of its callee.
fn callback_of(object: Option<Node>, name: &str) -> Place
    ensures { result ≡ callback_of (option_map node_tree object.entry) name.now }
{
    if uses_callback(name) {
        return Place::Second;
    }
    if name == "from" && is_array_name(object) {
        Place::Third
    } else {
        Place::Later
    }
}

/// What stands in a chain, or itself.
pub(crate) fn unchained<'t, 's>(part: Option<Node<'t, 's>>) -> Option<Node<'t, 's>>
    ensures { option_map node_tree result ≡ unchained (option_map node_tree part.entry) }
{
    let Some(node) = part else {
        return None;
    };
    match node.kind() {
        Kind::ChainExpression => node.part(0),
        _ => Some(node),
    }
}

/// Which part of a call is such a callback, by its callee.
pub(crate) fn callback_place(callee: Option<Node>) -> Place
    ensures { result ≡ callback_place (option_map node_tree callee.entry) }
{
    let Some(node) = callee else {
        return Place::Later;
    };
    match node.kind() {
        Kind::MemberExpression => callback_of(
            node.part(0),
            key_name(node.flags().computed, node.part(1)),
        ),
        _ => Place::Later,
    }
}
