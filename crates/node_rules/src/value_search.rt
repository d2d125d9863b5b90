//! Searches in an expression and in those of its parts whose values may be its own.

ghost use Rattle.std.specs.Prelude.{◌≡◌, IfSome, Some, option_map};
ghost use Rattle.tree.specs.Node.{node_tree};
ghost use Rattle.tree.specs.Tree.{kind_of, part_at, part_count, parts_of, text_of};
ghost use Rattle.node_rules.specs.ValueSearches.{given_part, hands_on, has_value, is_last, is_logical_assignment, is_sum, is_value, some_value};
ghost use Rattle.node_rules.specs.declared.value_search.Value.TheVariants.{Chain, Error};

use crate::kind_sets::{is_chain, may_be_error};
use crate::values::is_text;
use tree::{Kind, Node};

/// What is looked for.
#[derive(Clone, Copy)]
pub(crate) enum Value {
    /// A chain.
    Chain,
    /// What may be an Error.
    Error,
    /// What is neither a string nor a template nor a sum.
    NoText,
    /// A string or a template.
    Text,
}

/// Whether an assignment may leave its right side out.
pub(crate) fn is_logical_assignment(operator: &str) -> bool
    ensures { result ≡ is_logical_assignment operator.now }
{
    operator == "&&=" || operator == "||=" || operator == "??="
}

/// Whether the value of the part at a place may be that of a node.
fn hands_on(value: Value, node: Node, place: usize) -> bool
    ensures { result ≡ hands_on value (kind_of (node_tree node.entry)) (text_of (node_tree node.entry)) (part_count (parts_of (node_tree node.entry))) place }
{
    match value {
        Value::Text | Value::NoText => is_sum(node),
        Value::Chain => hands_on_chain(node, place),
        Value::Error => hands_on_error(node, place),
    }
}

/// The same of a chain.
fn hands_on_chain(node: Node, place: usize) -> bool
    ensures { result ≡ hands_on Chain (kind_of (node_tree node.entry)) (text_of (node_tree node.entry)) (part_count (parts_of (node_tree node.entry))) place }
{
    match node.kind() {
        Kind::AwaitExpression => true,
        Kind::LogicalExpression => node.text() == "&&" || place == 1,
        Kind::ConditionalExpression => place != 0,
        Kind::SequenceExpression => is_last(node, place),
        _ => false,
    }
}

/// The same of an Error.
fn hands_on_error(node: Node, place: usize) -> bool
    ensures { result ≡ hands_on Error (kind_of (node_tree node.entry)) (text_of (node_tree node.entry)) (part_count (parts_of (node_tree node.entry))) place }
{
    match node.kind() {
        Kind::LogicalExpression => true,
        Kind::AssignmentExpression => (node.text() == "=" && place == 1)
            || is_logical_assignment(node.text()),
        Kind::ConditionalExpression => place != 0,
        Kind::SequenceExpression => is_last(node, place),
        _ => false,
    }
}

/// Whether a node has no parts behind a place.
fn is_last(node: Node, place: usize) -> bool
    ensures { result ≡ is_last (part_count (parts_of (node_tree node.entry))) place }
{
    let count = node.part_count();
    place < count && place + 1 == count
}

/// Whether a node is a sum.
pub(crate) fn is_sum(node: Node) -> bool
    ensures { result ≡ is_sum (node_tree node.entry) }
{
    match node.kind() {
        Kind::BinaryExpression => node.text() == "+",
        _ => false,
    }
}

/// Whether a node is what is looked for.
fn is_value(value: Value, node: Node) -> bool
    ensures { result ≡ is_value value (node_tree node.entry) }
{
    match value {
        Value::Chain => is_chain(node.kind()),
        Value::Error => may_be_error(node.kind()),
        Value::Text => is_text(Some(node)),
        Value::NoText => !is_sum(node) && !is_text(Some(node)),
    }
}

/// The part at a place, if its value may be that of its node.
fn given_part<'t, 's>(value: Value, node: Node<'t, 's>, place: usize) -> Option<Node<'t, 's>>
    ensures given { option_map node_tree result ≡ given_part value (node_tree node.entry) place }
    ensures part { IfSome result (λ part. Some (node_tree part) ≡ part_at (parts_of (node_tree node.entry)) place) }
{
    if hands_on(value, node, place) {
        node.part(place)
    } else {
        None
    }
}

/// Whether a node is what is looked for, or one whose value may be its own.
#[tactic(auto, using(tree::proofs::PartWalk::part_steps))]
pub(crate) fn some_value(value: Value, node: Node) -> bool
    ensures { result ≡ some_value value (node_tree node.entry) }
{
    if is_value(value, node) {
        return true;
    }
    for index in 0..node.part_count() {
        if let Some(part) = given_part(value, node, index) {
            if some_value(value, part) {
                return true;
            }
        }
    }
    false
}

/// The same of a part that may be missing.
pub(crate) fn has_value(value: Value, part: Option<Node>) -> bool
    ensures { result ≡ has_value value (option_map node_tree part.entry) }
{
    match part {
        Some(node) => some_value(value, node),
        None => false,
    }
}
