//! Operators, branches and sequences.

use crate::expressions::{expression, expression_in};
use item_builder::{Around, Builder, is_binary, is_inlined};
use layout_choices::are_one_level;
use layout_items::Item;
use node_parts::{all_parts, get, part};
use tree::{Kind, Node};

/// An operator of two operands.
#[cycle(items)]
pub(crate) fn binary<'t>(b: &mut Builder<'t>, node: Node<'_, '_>, around: Around) {
    let parent = if around.is_test {
        Some(Kind::IfStatement)
    } else {
        around.parent
    };
    if around.is_indented {
        operands(b, node, parent, false);
        return;
    }
    b.push(Item::GroupStart);
    operands(b, node, parent, true);
    b.push(Item::IndentEnd);
    b.push(Item::GroupEnd);
}

/// Its operands; the first isn't indented.
#[cycle(items)]
fn operands<'t>(b: &mut Builder<'t>, node: Node<'_, '_>, parent: Option<Kind>, is_indented: bool) {
    let (Some(left), Some(right)) = (part(node, 0), part(node, 1)) else {
        b.lose();
        return;
    };
    let kind = node.kind();
    let inner = Around::operand(kind);
    if is_binary(left) && b.group_count(left) == 0 && are_one_level(node.text(), left.text()) {
        operands(b, left, Some(kind), is_indented);
    } else {
        expression_in(b, left, inner);
        if is_indented {
            b.push(Item::IndentStart);
        }
    }
    let is_logical_test = parent == Some(Kind::IfStatement) && kind == Kind::LogicalExpression;
    let is_apart = parent != Some(kind)
        && left.kind() != kind
        && right.kind() != kind
        && !is_logical_test;
    if is_apart {
        b.push(Item::GroupStart);
    }
    b.space();
    b.token_before_comments(node.text());
    if is_inlined(node) && !b.has_ended_comment() {
        b.space();
    } else {
        b.line(Item::Line);
    }
    expression_in(b, right, inner);
    if is_apart {
        b.push(Item::GroupEnd);
    }
}

#[cycle(items)]
pub(crate) fn unary<'t>(b: &mut Builder<'t>, operator: &str, argument: Node<'_, '_>) {
    b.token(operator);
    let is_word = matches!(operator, "typeof" | "void" | "delete");
    let is_same_sign = matches!(operator, "+" | "-")
        && b.peek(0).as_bytes().starts_with(operator.as_bytes());
    if is_word || is_same_sign {
        b.space();
    }
    expression_in(b, argument, Around::SOFT);
}

/// `a ? b : c`.
#[cycle(items)]
pub(crate) fn conditional<'t>(b: &mut Builder<'t>, node: Node<'_, '_>, is_nested: bool) {
    let (Some(test), Some(consequent), Some(alternate)) = (
        part(node, 0),
        part(node, 1),
        part(node, 2),
    ) else {
        b.lose();
        return;
    };
    if !is_nested {
        b.push(Item::GroupStart);
    }
    b.push(Item::GroupStart);
    expression_in(b, test, Around::INDENTED);
    b.push(Item::GroupEnd);
    if !is_nested {
        b.push(Item::IndentStart);
    }
    branch(b, "?", consequent, true);
    branch(b, ":", alternate, false);
    if !is_nested {
        b.push(Item::IndentEnd);
        b.push(Item::GroupEnd);
    }
}

#[cycle(items)]
fn branch<'t>(b: &mut Builder<'t>, sign: &str, node: Node<'_, '_>, is_first: bool) {
    b.push_behind_in_line();
    b.line(Item::Line);
    b.token(sign);
    b.space();
    let is_chain = matches!(node.kind(), Kind::ConditionalExpression) && b.group_count(node) == 0;
    if is_chain && !is_first {
        b.lead();
        conditional(b, node, true);
        return;
    }
    b.push(Item::AlignStart);
    if is_chain {
        b.lead();
        conditional(b, node, true);
    } else {
        expression(b, node);
    }
    b.push(Item::AlignEnd);
}

/// `a, b`.
#[cycle(items)]
pub(crate) fn sequence<'t>(b: &mut Builder<'t>, node: Node<'_, '_>, around: Around) {
    let list = all_parts(node);
    b.push(Item::GroupStart);
    for index in 0..list.len() {
        if index > 0 {
            b.token_before_comments(",");
            b.line(Item::Line);
        }
        if let Some(one) = get(list, index) {
            expression(b, one);
        }
        if index == 0 && around.is_statement {
            b.push(Item::IndentStart);
        }
    }
    if around.is_statement {
        b.push(Item::IndentEnd);
    }
    b.push(Item::GroupEnd);
}
