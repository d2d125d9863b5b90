//! Parameters.

use crate::elements::is_object_pattern;
use item_builder::Builder;
use layout_items::Item;
use tree::{Kind, Node, NodeList};

/// Whether the only parameter is a pattern of an object, so that its braces stand beside the parentheses: perhaps with a name or an empty
/// object as its default.
pub fn hugs_pattern(list: NodeList<'_, '_>) -> bool {
    let (1, Some(node)) = (list.len(), list.get(0)) else {
        return false;
    };
    match (node.kind(), node.part(1)) {
        (Kind::ObjectPattern, _) => true,
        (Kind::AssignmentPattern, Some(right)) => is_object_pattern(node)
            && is_empty_default(right),
        _ => false,
    }
}

fn is_empty_default(right: Node<'_, '_>) -> bool {
    match right.kind() {
        Kind::Identifier => true,
        Kind::ObjectExpression => right.part_count() == 0,
        _ => false,
    }
}

/// A parameter that has no parentheses in the text.
pub fn bare_parameter<'t>(b: &mut Builder<'t>) {
    if b.options().bare_arrows {
        b.any_token();
        return;
    }
    b.lead();
    b.put("(");
    b.any_token();
    b.put(")");
}

/// Whether the only parameter is a name, and no comment is in its parentheses.
pub fn has_plain_parameter(b: &Builder<'_>, list: NodeList<'_, '_>) -> bool {
    let (1, Some(node)) = (list.len(), list.get(0)) else {
        return false;
    };
    let ahead = if b.peek(2) == "," { 3 } else { 2 };
    let (Some(open), Some(close)) = (b.row(0), b.row(ahead)) else {
        return false;
    };
    matches!(node.kind(), Kind::Identifier)
        && b.text_of(close) == ")"
        && !b.has_comments_between(open.span.end as usize, close.span.start as usize)
}

/// The end of what is held on lines of its own.
pub fn joined_end<'t>(b: &mut Builder<'t>) {
    if b.options().has_last_arguments_comma() {
        b.push(Item::IfJoined {
            text: ",",
            columns: 1,
        });
    }
    b.push(Item::JoinedSoftLine);
}
