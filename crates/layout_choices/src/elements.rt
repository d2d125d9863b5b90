//! Elements of lists.

use item_builder::{Builder, Hug};
use layout_items::Item;
use tree::{Kind, Node, NodeList};

/// The start of a group that parentheses may hold.
pub fn start_of_group(hug: Hug) -> Item<'static> {
    if hug.is_some() {
        Item::JoinStart
    } else {
        Item::GroupStart
    }
}

/// Between two elements: each break by itself where they are filled.
pub fn element_line<'t>(b: &mut Builder<'t>, is_filled: bool) {
    if !is_filled || b.begins_with_empty_line() {
        b.item_line(Item::Line);
        return;
    }
    b.push_behind();
    b.push(Item::GroupStart);
    b.push(Item::Line);
    b.push(Item::GroupEnd);
}

/// Whether a list has two or more items, all of them objects with several parts, or all arrays with several.
pub fn has_several_parts(elements: NodeList<'_, '_>) -> bool {
    let Some(first) = elements.get(0) else {
        return false;
    };
    let kind = first.kind();
    if elements.len() < 2 || !matches!(kind, Kind::ObjectExpression | Kind::ArrayExpression) {
        return false;
    }
    for index in 0..elements.len() {
        match elements.get(index) {
            Some(node) => {
                if node.kind() != kind || node.part_count() < 2 {
                    return false;
                }
            }
            None => return false,
        }
    }
    true
}

/// Whether a property of a pattern has a pattern of an object, perhaps with its default.
pub fn holds_object_pattern(properties: NodeList<'_, '_>) -> bool {
    for index in 0..properties.len() {
        let value = properties.get(index).and_then(|node| node.part(1));
        if value.is_some_and(is_object_pattern) {
            return true;
        }
    }
    false
}

/// Whether it is a pattern of an object, perhaps with its default.
pub fn is_object_pattern(node: Node<'_, '_>) -> bool {
    match (node.kind(), node.part(0)) {
        (Kind::ObjectPattern, _) => true,
        (Kind::AssignmentPattern, Some(left)) => matches!(left.kind(), Kind::ObjectPattern),
        _ => false,
    }
}

/// Whether a key is no longer than the indentation.
pub fn is_short_key(b: &Builder<'_>, key: Node<'_, '_>) -> bool {
    let span = key.span();
    span.end.saturating_sub(span.start) <= b.style().indent as usize
}
