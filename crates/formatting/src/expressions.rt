//! Expressions.

use crate::arguments::{arguments, import_call};
use crate::assignments::assign;
use crate::chains::chain;
use crate::classes::class;
use crate::functions::{arrow, function};
use crate::lists::{array, object, object_pattern};
use crate::literals::{tagged_template, template};
use crate::operators::{binary, conditional, sequence, unary};
use item_builder::{Around, Builder, Hug, is_binary};
use layout_choices::{Assigned, closing_parentheses, meta_property, opening_parentheses};
use layout_items::Item;
use node_parts::{all_parts, class_of, expression_of, function_of, pattern_of, spread_of};
use tree::{Kind, Node, NodeList};
use typed_nodes::{Expression, Pattern};

/// An expression, with the comments before it and the parentheses around it.
#[cycle(items)]
pub(crate) fn expression<'t>(b: &mut Builder<'t>, node: Node<'_, '_>) {
    expression_in(b, node, Around::ALONE);
}

#[cycle(items)]
pub(crate) fn expression_in<'t>(b: &mut Builder<'t>, node: Node<'_, '_>, around: Around) {
    b.lead();
    let count = b.group_count(node);
    if count == 0 {
        bare_expression(b, node, around);
        return;
    }
    let may_break = is_binary(node)
        || matches!(
            node.kind(),
            Kind::ConditionalExpression | Kind::AwaitExpression
        );
    if b.is_behind_comment() || (around.is_soft && may_break) {
        soft_parentheses(b, node, count);
        return;
    }
    opening_parentheses(b, count);
    bare_expression(b, node, Around::hugged(around.hug));
    closing_parentheses(b, count);
}

/// Parentheses with breaks inside.
#[cycle(items)]
fn soft_parentheses<'t>(b: &mut Builder<'t>, node: Node<'_, '_>, count: usize) {
    b.push(Item::GroupStart);
    opening_parentheses(b, count);
    b.push(Item::IndentStart);
    b.line(Item::SoftLine);
    b.lead();
    b.push(Item::GroupStart);
    bare_expression(b, node, Around::INDENTED);
    b.push(Item::GroupEnd);
    b.push_closing(true);
    b.push(Item::IndentEnd);
    b.push(Item::SoftLine);
    closing_parentheses(b, count);
    b.push(Item::GroupEnd);
}

#[cycle(items)]
fn bare_expression<'t>(b: &mut Builder<'t>, node: Node<'_, '_>, around: Around) {
    match node.kind() {
        Kind::BinaryExpression | Kind::LogicalExpression => binary(b, node, around),
        Kind::ConditionalExpression => conditional(b, node, false),
        Kind::SequenceExpression => sequence(b, node, around),
        Kind::FunctionExpression => match function_of(node) {
            Some(f) => function(b, f, around.hug),
            None => b.lose(),
        },
        Kind::ArrowFunctionExpression => match function_of(node) {
            Some(f) => arrow(b, f, around.hug),
            None => b.lose(),
        },
        Kind::ClassExpression => match class_of(node) {
            Some(c) => class(b, c),
            None => b.lose(),
        },
        Kind::SpreadElement | Kind::RestElement => rest(b, node),
        Kind::ArrayPattern | Kind::ObjectPattern | Kind::AssignmentPattern => {
            any_pattern(b, node, around.is_declared)
        }
        Kind::MemberExpression | Kind::CallExpression => chain(b, node, around),
        Kind::ArrayExpression => array(b, all_parts(node), false, around.hug),
        Kind::ObjectExpression => object(b, all_parts(node), around.hug),
        _ => match expression_of(node) {
            Some(found) => any_expression(b, found, node, around),
            None => b.any_token(),
        },
    }
}

#[cycle(items)]
fn any_expression<'t>(
    b: &mut Builder<'t>,
    found: Expression<'_, '_>,
    node: Node<'_, '_>,
    around: Around,
) {
    match found {
        Expression::TemplateLiteral { turns } => template(b, turns),
        Expression::TaggedTemplate { tag, quasi } => tagged_template(b, tag, quasi),
        Expression::New {
            callee,
            arguments: list,
        } => new(b, node, callee, list),
        Expression::MetaProperty { .. } => meta_property(b),
        Expression::Import { source } => import_call(b, source),
        Expression::Chain { expression: inner } => bare_expression(b, inner, around),
        Expression::Update {
            operator,
            prefix,
            argument,
        } => update(b, operator, prefix, argument),
        Expression::Unary { operator, argument } => unary(b, operator, argument),
        Expression::Await { argument } => awaits(b, argument),
        Expression::Assignment {
            operator,
            left,
            right,
        } => {
            pattern(b, left);
            assign(b, operator, right, Assigned::ASSIGNMENT);
        }
        Expression::Yield { argument, delegate } => yields(b, argument, delegate),
        _ => b.any_token(),
    }
}

#[cycle(items)]
fn awaits<'t>(b: &mut Builder<'t>, argument: Node<'_, '_>) {
    b.token("await");
    b.space();
    expression_in(b, argument, Around::SOFT);
}

#[cycle(items)]
fn new<'t>(b: &mut Builder<'t>, node: Node<'_, '_>, callee: Node<'_, '_>, list: NodeList<'_, '_>) {
    b.token("new");
    b.space();
    expression(b, callee);
    if b.is("(") && b.end() < node.span().end {
        arguments(b, node, list);
    } else {
        b.put("(");
        b.put(")");
    }
}

#[cycle(items)]
fn update<'t>(b: &mut Builder<'t>, operator: &str, prefix: bool, argument: Node<'_, '_>) {
    if prefix {
        b.token(operator);
    }
    expression(b, argument);
    if !prefix {
        b.token(operator);
    }
}

#[cycle(items)]
fn yields<'t>(b: &mut Builder<'t>, argument: Option<Node<'_, '_>>, delegate: bool) {
    b.token("yield");
    if delegate {
        b.token("*");
    }
    if let Some(value) = argument {
        b.space();
        expression(b, value);
    }
}

#[cycle(items)]
fn rest<'t>(b: &mut Builder<'t>, node: Node<'_, '_>) {
    b.token("...");
    if let Some(spread) = spread_of(node) {
        expression(b, spread.argument);
        return;
    }
    match pattern_of(node) {
        Some(Pattern::Rest { argument }) => pattern(b, argument),
        _ => b.lose(),
    }
}

/// A pattern or a target, with the comments before it.
#[cycle(items)]
pub(crate) fn pattern<'t>(b: &mut Builder<'t>, node: Node<'_, '_>) {
    pattern_in(b, node, false);
}

/// The same; perhaps that of a declarator.
#[cycle(items)]
pub(crate) fn pattern_in<'t>(b: &mut Builder<'t>, node: Node<'_, '_>, is_declared: bool) {
    match node.kind() {
        Kind::ArrayPattern | Kind::ObjectPattern | Kind::AssignmentPattern | Kind::RestElement => {
            b.lead();
            any_pattern(b, node, is_declared);
        }
        _ => expression(b, node),
    }
}

/// A pattern that is no target.
#[cycle(items)]
fn any_pattern<'t>(b: &mut Builder<'t>, node: Node<'_, '_>, is_declared: bool) {
    match pattern_of(node) {
        Some(Pattern::Array { elements }) => array(b, elements, true, Hug::No),
        Some(Pattern::Object { properties }) => object_pattern(b, properties, is_declared),
        Some(Pattern::Rest { .. }) => rest(b, node),
        Some(Pattern::Assignment { left, right }) => {
            pattern(b, left);
            b.space();
            b.token("=");
            b.space();
            expression(b, right);
        }
        _ => b.lose(),
    }
}
