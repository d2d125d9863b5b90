//! Where a value stands behind what it is assigned to.

use item_builder::{Builder, are_short, is_binary, is_inlined, is_kind, is_string};
use node_parts::{part, parts_from};
use tree::{Kind, Node};

/// What a value is assigned to.
#[derive(Clone, Copy, PartialEq, Eq)]
pub struct Assigned {
    /// It is a property of an object or a pattern, with its key.
    pub is_property: bool,
    /// The key is no longer than the indentation.
    pub is_short: bool,
    /// It is an assignment itself, not a declarator.
    pub is_assignment: bool,
    /// It is a pattern of an object with several properties and a default.
    pub is_complex: bool,
}

impl Assigned {
    /// A declarator, a field.
    pub const DECLARED: Assigned = Assigned {
        is_property: false,
        is_short: false,
        is_assignment: false,
        is_complex: false,
    };

    pub const ASSIGNMENT: Assigned = Assigned {
        is_assignment: true,
        ..Assigned::DECLARED
    };

    pub fn property(is_short: bool) -> Assigned {
        Assigned {
            is_property: true,
            is_short,
            ..Assigned::DECLARED
        }
    }

    pub fn declarator(is_complex: bool) -> Assigned {
        Assigned {
            is_complex,
            ..Assigned::DECLARED
        }
    }
}

/// Where a value stands behind what it is assigned to.
#[derive(Clone, Copy, PartialEq, Eq)]
pub enum ValuePosition {
    /// On the same line, whatever follows.
    OnLine,
    /// As a whole on the next line, if it doesn't fit.
    Whole,
    /// On the next line, if its beginning doesn't fit.
    Beginning,
    /// On the next line: a comment ends this one.
    NextLine,
}

/// Where the value stands, which follows.
pub fn value_position(b: &Builder<'_>, value: Node<'_, '_>, to: Assigned) -> ValuePosition {
    if b.has_ended_comment() {
        return ValuePosition::NextLine;
    }
    let is_chain = to.is_assignment && is_kind(value, Kind::AssignmentExpression);
    if b.group_count(value) > 0 || is_chain || never_moves(value) {
        return ValuePosition::OnLine;
    }
    if moves_as_whole(value) {
        return ValuePosition::Whole;
    }
    if is_string(value) || is_member_chain(value) {
        return if to.is_short && is_string(value) {
            ValuePosition::OnLine
        } else if to.is_short {
            ValuePosition::Beginning
        } else {
            ValuePosition::Whole
        };
    }
    if to.is_short && is_kind(value, Kind::Identifier) {
        return ValuePosition::OnLine;
    }
    if is_short_call(b, value) {
        return ValuePosition::Whole;
    }
    if to.is_complex {
        return ValuePosition::OnLine;
    }
    ValuePosition::Beginning
}

/// Whether a value stays on the line of what it is assigned to, whatever its width.
fn never_moves(value: Node<'_, '_>) -> bool {
    matches!(
        value.kind(),
        Kind::TemplateLiteral
            | Kind::TaggedTemplateExpression
            | Kind::ClassExpression
            | Kind::FunctionExpression
            | Kind::ObjectExpression
            | Kind::ArrayExpression
            | Kind::ArrowFunctionExpression
    ) || is_require(value)
}

/// Whether it is a call of `require`.
fn is_require(value: Node<'_, '_>) -> bool {
    match (value.kind(), value.part(0)) {
        (Kind::CallExpression, Some(callee)) => {
            is_kind(callee, Kind::Identifier) && callee.text() == "require"
        }
        _ => false,
    }
}

/// Whether a value may go to the next line as a whole, whatever it is assigned to.
fn moves_as_whole(value: Node<'_, '_>) -> bool {
    match value.kind() {
        Kind::BinaryExpression | Kind::LogicalExpression => !is_inlined(value),
        Kind::SequenceExpression => true,
        Kind::ConditionalExpression => match value.part(0) {
            Some(test) => is_binary(test) && !is_inlined(test),
            None => false,
        },
        _ => false,
    }
}

/// What a chain with `?.` in it holds; another node itself.
fn unchained<'n, 's>(node: Node<'n, 's>) -> Node<'n, 's> {
    match (node.kind(), node.part(0)) {
        (Kind::ChainExpression, Some(inner)) => inner,
        _ => node,
    }
}

/// Whether it is a chain of members of a name.
fn is_member_chain(value: Node<'_, '_>) -> bool {
    let mut at = unchained(value);
    if !is_kind(at, Kind::MemberExpression) {
        return false;
    }
    'members: while is_kind(at, Kind::MemberExpression) {
        let Some(object) = part(at, 0) else {
            return false;
        };
        at = object;
    }
    matches!(at.kind(), Kind::Identifier | Kind::ThisExpression)
}

/// Whether it is one call in a chain of members of a name, with no argument or a short one.
fn is_short_call(b: &Builder<'_>, value: Node<'_, '_>) -> bool {
    let width = b.style().width as usize / 4;
    let mut calls = 0u8;
    let mut at = unchained(value);
    'links: while matches!(at.kind(), Kind::CallExpression | Kind::MemberExpression) {
        if is_kind(at, Kind::CallExpression) {
            if calls > 0 || !are_short(parts_from(at, 1), width) {
                return false;
            }
            calls = 1;
        }
        let Some(inner) = part(at, 0) else {
            return false;
        };
        at = inner;
    }
    calls == 1 && matches!(at.kind(), Kind::Identifier | Kind::ThisExpression)
}
