//! Changes that make a node of other parts: `a.b` of `a["b"]`, and `a += b` of `a = a + b`.

ghost use Rattle.std.specs.Prelude.{◌≡◌, ◌++◌, IfSome, Some, codes, true};
ghost use Rattle.tree.specs.Node.{node_tree};
ghost use Rattle.mending.specs.Changes.{has_assignment};
ghost use Rattle.mending.specs.Words.{nth};
ghost use Rattle.mending.specs.Making.{BecomesAssignment, BecomesDotted, HasDot, HasOperator, IsName};

use crate::asked::is_asked;
use crate::change::{Change, MendRule};
use crate::tests::{
    are_flags, are_same_name, is_assignment, is_binary, is_kind, is_member, is_name_as_key,
};
use crate::words::inside;
use tree::{Flags, Kind, Node};

/// The key of a member in brackets that a dot comes before by the changes.
pub(crate) fn dotted_key<'t, 's>(node: Node<'t, 's>, changes: &[Change]) -> Option<Node<'t, 's>>
    ensures { IfSome result (λ key. BecomesDotted changes.now (node_tree node.entry) (node_tree key)) }
{
    let Some(key) = node.part(1) else {
        return None;
    };
    if !is_member(node.kind()) || !node.flags().computed {
        return None;
    }
    if !is_name_as_key(key) {
        return None;
    }
    if !is_asked(MendRule::DotNotation, node, changes) {
        return None;
    }
    Some(key)
}

/// Whether a node is a member in brackets whose key is a string that could stand behind a dot.
pub(crate) fn has_dotted_key(node: Node) -> bool {
    match node.part(1) {
        Some(key) => node.flags().computed && is_name_as_key(key),
        None => false,
    }
}

/// Whether a node is the name that a string has between its quotation marks.
fn is_name(node: Node, key: Node) -> bool
    ensures { result ≡ true → IsName (node_tree node.entry) (node_tree key.entry) }
{
    is_kind(Kind::Identifier, node.kind())
        && inside(key.text()) == node.text().as_bytes()
        && are_flags(Flags::PLAIN, node.flags())
        && node.part_count() == 0
}

/// Whether a node is a member with a dot before the name that a key is, and has else the label of another.
pub(crate) fn has_dot(node: Node, key: Node, after: Node) -> bool
    ensures { result ≡ true → HasDot (node_tree node.entry) (node_tree key.entry) (node_tree after.entry) }
{
    let Some(name) = after.part(1) else {
        return false;
    };
    let flags = Flags {
        computed: false,
        ..node.flags()
    };
    is_kind(node.kind(), after.kind())
        && node.text() == after.text()
        && are_flags(flags, after.flags())
        && after.part_count() == 2
        && is_name(name, key)
}

/// The assignment of an operator.
fn assignment_of(operator: &str) -> Option<&'static str>
    ensures word { IfSome result (λ word. word.now ≡ operator.now ++ codes "=") }
    ensures is { IfSome result (λ _. has_assignment operator.now ≡ true) }
{
    match operator {
        "+" => Some("+="),
        "-" => Some("-="),
        "*" => Some("*="),
        "/" => Some("/="),
        "%" => Some("%="),
        "**" => Some("**="),
        "<<" => Some("<<="),
        ">>" => Some(">>="),
        ">>>" => Some(">>>="),
        "&" => Some("&="),
        "|" => Some("|="),
        "^" => Some("^="),
        _ => None,
    }
}

/// Whether a node is an assignment by the operator of an operation, and has else the label of another.
pub(crate) fn has_operator(node: Node, operation: Node, after: Node) -> bool
    ensures { result ≡ true → HasOperator (node_tree node.entry) (node_tree operation.entry) (node_tree after.entry) }
{
    let Some(word) = assignment_of(operation.text()) else {
        return false;
    };
    is_kind(node.kind(), after.kind())
        && word == after.text()
        && are_flags(node.flags(), after.flags())
        && after.part_count() == 2
}

/// The operation of an assignment that becomes one by the operation's operator, by the changes.
pub(crate) fn long_operation<'t, 's>(node: Node<'t, 's>, changes: &[Change]) -> Option<Node<'t, 's>>
    ensures leads { IfSome result (λ operation. BecomesAssignment changes.now (node_tree node.entry) (node_tree operation)) }
    ensures at { IfSome result (λ operation. Some (node_tree operation) ≡ nth 1 (node_tree node.entry)) }
{
    let Some(operation) = node.part(1) else {
        return None;
    };
    if !is_assignment(node.kind()) || node.text() != "=" {
        return None;
    }
    if !is_binary(operation.kind()) {
        return None;
    }
    if !are_same_name(node.part(0), operation.part(0)) {
        return None;
    }
    if !is_asked(MendRule::OperatorAssignment, node, changes) {
        return None;
    }
    Some(operation)
}

/// Whether an assignment of a name has an operation of this name on its left side and an operator with an assignment of its own.
pub(crate) fn has_long_operation(node: Node) -> bool {
    let Some(operation) = node.part(1) else {
        return false;
    };
    node.text() == "="
        && is_binary(operation.kind())
        && are_same_name(node.part(0), operation.part(0))
        && assignment_of(operation.text()).is_some()
}
