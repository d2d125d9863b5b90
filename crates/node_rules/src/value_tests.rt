//! The tests of rules on what expressions are worth, and where jumps go.

ghost use Rattle.std.specs.Prelude.{◌≡◌, option_map};
ghost use Rattle.tree.specs.Node.{node_tree};
ghost use Rattle.node_rules.specs.ValueTests.{assigned, has_assignment, is_commutative, is_constant, is_constant_operation, is_constant_test, is_known, is_long_assignment, is_mixed_sum, is_never_nullish, is_self_assignment, is_simple_target, is_unsafe_chain, is_yielding_loop, leaves_finalizer, operates_on, risked, throws_no_error};

use crate::around::Around;
use crate::kind_sets::{
    destructures, is_literal_kind, is_logical, is_member_expression, is_name_kind, is_object,
    is_spread, makes_object,
};
use crate::paths::are_same;
use crate::search::{Search, Sought, has_sought};
use crate::tests::tested;
use crate::value_search::{Value, has_value, is_logical_assignment, is_sum, some_value};
use crate::values::is_plain_template;
use crate::words::{is_comparison, is_name, is_unary, kind_at, operand, text_at};
use tree::{Kind, Node};

/// Whether what is thrown can be no Error.
pub(crate) fn throws_no_error(node: Node) -> bool
    ensures { result ≡ throws_no_error (node_tree node.entry) }
{
    is_name(node.part(0), "undefined") || !has_value(Value::Error, node.part(0))
}

/// Whether a node is a whole sum, with a text in it and with something else.
pub(crate) fn is_mixed_sum(around: Around, node: Node) -> bool
    ensures { result ≡ is_mixed_sum around (node_tree node.entry) }
{
    is_sum(node)
        && !around.remark.is_sum()
        && some_value(Value::Text, node)
        && some_value(Value::NoText, node)
}

/// The part of a node that throws where it is undefined.
pub(crate) fn risked<'t, 's>(node: Node<'t, 's>) -> Option<Node<'t, 's>>
    ensures { option_map node_tree result ≡ risked (node_tree node.entry) }
{
    match node.kind() {
        Kind::CallExpression | Kind::MemberExpression => {
            if node.flags().optional {
                None
            } else {
                node.part(0)
            }
        }
        Kind::NewExpression | Kind::TaggedTemplateExpression | Kind::SpreadElement => node.part(0),
        Kind::ClassDeclaration | Kind::ClassExpression | Kind::ForOfStatement => node.part(1),
        Kind::BinaryExpression => {
            if node.text() == "in" || node.text() == "instanceof" {
                node.part(1)
            } else {
                None
            }
        }
        Kind::AssignmentExpression | Kind::VariableDeclarator | Kind::AssignmentPattern => {
            if destructures(kind_at(node.part(0))) {
                node.part(1)
            } else {
                None
            }
        }
        _ => None,
    }
}

/// Whether it may be a chain that was cut short; an object takes undefined where it is spread.
pub(crate) fn is_unsafe_chain(around: Around, node: Node) -> bool
    ensures { result ≡ is_unsafe_chain around (node_tree node.entry) }
{
    !(is_spread(node.kind()) && is_object(around.parent)) && has_value(Value::Chain, risked(node))
}

/// Whether something is known of a value by its own text.
fn is_known(part: Option<Node>) -> bool
    ensures { result ≡ is_known (option_map node_tree part.entry) }
{
    is_literal_kind(kind_at(part))
        || makes_object(kind_at(part))
        || is_plain_template(part)
        || is_unary(part, "typeof")
        || is_unary(part, "void")
}

/// The right side of a plain assignment.
fn assigned<'t, 's>(part: Option<Node<'t, 's>>) -> Option<Node<'t, 's>>
    ensures { option_map node_tree result ≡ assigned (option_map node_tree part.entry) }
{
    let Some(node) = part else {
        return None;
    };
    match node.kind() {
        Kind::AssignmentExpression => {
            if node.text() == "=" {
                node.part(1)
            } else {
                None
            }
        }
        _ => None,
    }
}

/// Whether a value is known, perhaps with `!` before it, or an assignment of one.
fn is_constant(part: Option<Node>) -> bool
    ensures { result ≡ is_constant (option_map node_tree part.entry) }
{
    is_known(part)
        || is_known(operand(part, "!"))
        || is_known(operand(operand(part, "!"), "!"))
        || is_known(assigned(part))
}

/// Whether a node is a loop with a `yield` in it.
fn is_yielding_loop(node: Node) -> bool
    ensures { result ≡ is_yielding_loop (node_tree node.entry) }
{
    let search = Search {
        sought: Sought::Yield,
        label: "",
    };
    node.kind().is_loop() && has_sought(search, Some(node))
}

/// Whether a condition is always the same, and no loop that yields has it.
pub(crate) fn is_constant_test(node: Node) -> bool
    ensures { result ≡ is_constant_test (node_tree node.entry) }
{
    is_constant(tested(node)) && !is_yielding_loop(node)
}

/// Whether a value is never null and never undefined.
fn is_never_nullish(part: Option<Node>) -> bool
    ensures { result ≡ is_never_nullish (option_map node_tree part.entry) }
{
    is_known(part)
        && !(is_unary(part, "void") || (is_literal_kind(kind_at(part)) && text_at(part) == "null"))
}

/// Whether a node is a logical operator whose left side decides, or `===` or `!==` with something new on one side.
pub(crate) fn is_constant_operation(node: Node) -> bool
    ensures { result ≡ is_constant_operation (node_tree node.entry) }
{
    if is_logical(node.kind()) {
        if node.text() == "??" {
            is_never_nullish(node.part(0))
        } else {
            is_constant(node.part(0))
        }
    } else {
        (node.text() == "===" || node.text() == "!==")
            && (makes_object(kind_at(node.part(0))) || makes_object(kind_at(node.part(1))))
    }
}

/// Whether a part is a name, or a member.
fn is_simple_target(part: Option<Node>) -> bool
    ensures { result ≡ is_simple_target (option_map node_tree part.entry) }
{
    is_name_kind(kind_at(part)) || is_member_expression(kind_at(part))
}

/// Whether an assignment gives a name or member to itself.
pub(crate) fn is_self_assignment(node: Node) -> bool
    ensures { result ≡ is_self_assignment (node_tree node.entry) }
{
    (node.text() == "=" || is_logical_assignment(node.text()))
        && is_simple_target(node.part(0))
        && are_same(node.part(0), node.part(1))
}

/// Whether an operator has an assignment of its own.
fn has_assignment(operator: &str) -> bool
    ensures { result ≡ has_assignment operator.now }
{
    !(is_comparison(operator) || operator == "in" || operator == "instanceof")
}

/// Whether an operator's sides may change places.
fn is_commutative(operator: &str) -> bool
    ensures { result ≡ is_commutative operator.now }
{
    operator == "*" || operator == "&" || operator == "^" || operator == "|"
}

/// Whether a part is an operator with a target on its left, or on its right where the sides may change places.
fn operates_on(target: Option<Node>, part: Option<Node>) -> bool
    ensures { result ≡ operates_on (option_map node_tree target.entry) (option_map node_tree part.entry) }
{
    let Some(node) = part else {
        return false;
    };
    match node.kind() {
        Kind::BinaryExpression => has_assignment(node.text())
            && (are_same(target, node.part(0))
                || (is_commutative(node.text()) && are_same(target, node.part(1)))),
        _ => false,
    }
}

/// Whether a node is `a = a + b` or its kin.
pub(crate) fn is_long_assignment(node: Node) -> bool
    ensures { result ≡ is_long_assignment (node_tree node.entry) }
{
    node.text() == "=" && is_simple_target(node.part(0)) && operates_on(node.part(0), node.part(1))
}

/// Whether a jump, or a `throw`, leaves a finalizer.
pub(crate) fn leaves_finalizer(around: Around, node: Node) -> bool
    ensures { result ≡ leaves_finalizer around (node_tree node.entry) }
{
    match node.kind() {
        Kind::BreakStatement => {
            if node.part(0).is_some() {
                around.leaving_by_label
            } else {
                around.leaving.has_breaks()
            }
        }
        Kind::ContinueStatement => {
            if node.part(0).is_some() {
                around.leaving_by_label
            } else {
                around.leaving.has_continues()
            }
        }
        _ => around.leaving.has_returns(),
    }
}
