//! What an expression is, as far as the layout around it depends on that.

use tree::{Form, Kind, Node, NodeList};

/// Whether a node is of a kind.
pub fn is_kind(node: Node<'_, '_>, kind: Kind) -> bool {
    node.kind() == kind
}

/// Whether a literal is a string.
pub fn is_string(node: Node<'_, '_>) -> bool {
    is_kind(node, Kind::Literal) && matches!(node.text().as_bytes().first(), Some(b'"' | b'\''))
}

/// Whether a literal is a regular expression.
fn is_regular_expression(node: Node<'_, '_>) -> bool {
    is_kind(node, Kind::Literal) && matches!(node.text().as_bytes().first(), Some(b'/'))
}

/// Whether it is a function that is an expression.
pub fn is_function(node: Node<'_, '_>) -> bool {
    matches!(
        node.kind(),
        Kind::FunctionExpression | Kind::ArrowFunctionExpression
    )
}

/// Whether an operator has two operands.
pub fn is_binary(node: Node<'_, '_>) -> bool {
    matches!(
        node.kind(),
        Kind::BinaryExpression | Kind::LogicalExpression
    )
}

/// Whether the right operand of `&&` and its kin stays on the operator's line.
pub fn is_inlined(node: Node<'_, '_>) -> bool {
    if !is_kind(node, Kind::LogicalExpression) {
        return false;
    }
    match node.part(1) {
        Some(right) => {
            matches!(right.kind(), Kind::ObjectExpression | Kind::ArrayExpression)
                && right.part_count() > 0
        }
        None => false,
    }
}

/// Whether the body of a function is a block.
pub fn has_block_body(node: Node<'_, '_>) -> bool {
    match node.parts().last() {
        Some(body) => is_kind(body, Kind::BlockStatement),
        None => false,
    }
}

/// Whether a template has a line end before its first `${`.
pub fn template_begins_with_lines(node: Node<'_, '_>) -> bool {
    if !is_kind(node, Kind::TemplateLiteral) {
        return false;
    }
    match node.part(0) {
        Some(first) => first.text().as_bytes().contains(&b'\n'),
        None => false,
    }
}

/// Whether a body stays on the line of the `=>`.
pub fn sticks_to_arrow(body: Node<'_, '_>) -> bool {
    matches!(
        body.kind(),
        Kind::BlockStatement
            | Kind::ArrayExpression
            | Kind::ObjectExpression
            | Kind::TaggedTemplateExpression
            | Kind::ArrowFunctionExpression
    ) || template_begins_with_lines(body)
}

/// Whether parentheses may hold an argument.
pub fn could_hug(node: Node<'_, '_>) -> bool {
    match node.kind() {
        Kind::ObjectExpression | Kind::ArrayExpression => node.part_count() > 0,
        Kind::FunctionExpression => true,
        Kind::ArrowFunctionExpression => match node.parts().last() {
            Some(body) => is_held_body(body),
            None => false,
        },
        _ => false,
    }
}

/// Whether an arrow with this body may be held.
fn is_held_body(body: Node<'_, '_>) -> bool {
    matches!(
        body.kind(),
        Kind::BlockStatement
            | Kind::ArrowFunctionExpression
            | Kind::ObjectExpression
            | Kind::ArrayExpression
            | Kind::TemplateLiteral
            | Kind::TaggedTemplateExpression
            | Kind::CallExpression
            | Kind::ConditionalExpression
            | Kind::ChainExpression
    )
}

/// Whether arguments are none, or a name or a literal of at most so many bytes.
pub fn are_short(list: NodeList<'_, '_>, width: usize) -> bool {
    let Some(only) = list.get(0) else {
        return list.len() == 0;
    };
    let is_plain = match only.kind() {
        Kind::Identifier | Kind::ThisExpression => true,
        Kind::Literal => !is_regular_expression(only),
        _ => false,
    };
    list.len() == 1 && is_plain && only.span().end.saturating_sub(only.span().start) <= width
}

/// Whether a callee is `describe`, `it`, `test` or one of their kin.
pub fn is_test_name(callee: Node<'_, '_>) -> bool {
    if is_kind(callee, Kind::Identifier) {
        return matches!(
            callee.text(),
            "describe"
                | "it"
                | "test"
                | "suite"
                | "context"
                | "specify"
                | "before"
                | "after"
                | "beforeEach"
                | "afterEach"
        );
    }
    if !is_kind(callee, Kind::MemberExpression) || callee.flags().computed {
        return false;
    }
    match (callee.part(0), callee.part(1)) {
        (Some(object), Some(property)) => {
            is_kind(object, Kind::Identifier)
                && matches!(object.text(), "describe" | "it" | "test" | "suite")
                && matches!(property.text(), "only" | "skip")
        }
        _ => false,
    }
}

/// Whether an argument is simple: a name, a literal, or made of these, with calls in it to a depth of two.
#[cycle(simple)]
#[tactic(auto, using(crate::proofs::TreeMeasures::tree_measures))]
pub fn is_simple(node: Node<'_, '_>, depth: u8) -> bool {
    match node.kind() {
        Kind::Literal => !is_regular_expression(node) || is_short_expression(node.text()),
        Kind::Identifier | Kind::ThisExpression | Kind::Super | Kind::PrivateIdentifier => true,
        Kind::TemplateLiteral => is_simple_template(node, depth),
        Kind::ObjectExpression => are_simple_properties(node.parts(), depth),
        Kind::ArrayExpression => are_simple(node.parts(), depth),
        Kind::ImportExpression | Kind::ChainExpression => are_simple(node.parts(), depth),
        Kind::CallExpression | Kind::NewExpression => is_simple_call(node, depth),
        Kind::MemberExpression => is_simple_member(node, depth),
        Kind::UnaryExpression => {
            matches!(node.text(), "!" | "-") && are_simple(node.parts(), depth)
        }
        _ => false,
    }
}

/// Whether the pattern of a regular expression has at most five characters.
fn is_short_expression(text: &str) -> bool {
    match text.rfind('/') {
        Some(end) => end <= 6,
        None => false,
    }
}

/// Whether all are simple that are there.
#[cycle(simple)]
#[tactic(auto, using(crate::proofs::TreeMeasures::tree_measures))]
pub fn are_simple(list: NodeList<'_, '_>, depth: u8) -> bool {
    for index in 0..list.len() {
        if let Some(node) = list.get(index) {
            if !is_simple(node, depth) {
                return false;
            }
        }
    }
    true
}

#[cycle(simple)]
#[tactic(auto, using(crate::proofs::TreeMeasures::tree_measures))]
fn is_simple_template(node: Node<'_, '_>, depth: u8) -> bool {
    let list = node.parts();
    for index in 0..list.len() {
        let Some(part) = list.get(index) else {
            return false;
        };
        let is_good = if is_kind(part, Kind::TemplateElement) {
            !part.text().as_bytes().contains(&b'\n')
        } else {
            is_simple(part, depth)
        };
        if !is_good {
            return false;
        }
    }
    true
}

#[cycle(simple)]
#[tactic(auto, using(crate::proofs::TreeMeasures::tree_measures))]
fn are_simple_properties(list: NodeList<'_, '_>, depth: u8) -> bool {
    for index in 0..list.len() {
        match list.get(index) {
            Some(node) if is_simple_property(node, depth) => {}
            _ => return false,
        }
    }
    true
}

#[cycle(simple)]
#[tactic(auto, using(crate::proofs::TreeMeasures::tree_measures))]
fn is_simple_property(node: Node<'_, '_>, depth: u8) -> bool {
    if !is_kind(node, Kind::Property) || node.flags().computed {
        return false;
    }
    match (node.flags().form, node.part(1)) {
        (Form::Shorthand, _) => true,
        (Form::Init, Some(value)) => is_simple(value, depth),
        _ => false,
    }
}

#[cycle(simple)]
#[tactic(auto, using(crate::proofs::TreeMeasures::tree_measures))]
fn is_simple_call(node: Node<'_, '_>, depth: u8) -> bool {
    match node.part(0) {
        Some(callee) => {
            depth < 2
                && is_simple(callee, depth)
                && are_simple(node.parts().skip(1), depth.saturating_add(1))
        }
        None => false,
    }
}

#[cycle(simple)]
#[tactic(auto, using(crate::proofs::TreeMeasures::tree_measures))]
fn is_simple_member(node: Node<'_, '_>, depth: u8) -> bool {
    match (node.part(0), node.part(1)) {
        (Some(object), Some(property)) => {
            is_simple(object, depth) && (!node.flags().computed || is_simple(property, depth))
        }
        _ => false,
    }
}
