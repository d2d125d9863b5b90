//! How the arguments of a call are laid out.

use item_builder::{
    Builder, Hug, are_numbers, could_hug, has_block_body, is_function, is_kind, is_simple,
    is_string, is_test_name, template_begins_with_lines,
};
use tree::{Kind, Node, NodeList};

/// How arguments may be laid out.
#[derive(Clone, Copy, PartialEq, Eq)]
pub enum CallShape {
    /// On one line, whatever its width.
    OneLine,
    /// Flat or each on a line of its own.
    Plain,
    /// The parentheses may hold one of them.
    Held(Hug),
}

/// How the arguments of a call are laid out.
pub fn call_shape(b: &Builder<'_>, call: Node<'_, '_>, list: NodeList<'_, '_>) -> CallShape {
    let (Some(callee), Some(first), Some(last)) = (call.part(0), list.get(0), list.last()) else {
        return CallShape::Plain;
    };
    let is_bare = !b.has_comments_between(callee.span().end, first.span().start);
    if is_bare && list.len() == 1 && is_kind(callee, Kind::Identifier) {
        if callee.text() == "require" && is_string(first) {
            return CallShape::OneLine;
        }
    }
    if b.has_comments_between(last.span().end, call.span().end) {
        return CallShape::Plain;
    }
    if is_bare && list.len() == 2 && !b.has_gap_between(first.span().end, last.span().start) {
        if is_test_call(callee, first, last) || is_hook(first, last) {
            return CallShape::OneLine;
        }
    }
    match held_argument(list, first, last) {
        Hug::No if is_bare && list.len() == 1 && template_begins_with_lines(first) => {
            CallShape::OneLine
        }
        Hug::No => CallShape::Plain,
        hug => CallShape::Held(hug),
    }
}

/// Which argument the parentheses may hold.
fn held_argument(list: NodeList<'_, '_>, first: Node<'_, '_>, last: Node<'_, '_>) -> Hug {
    let count = list.len();
    let before = list.without_last().last();
    if may_hold_last(count, before, last) {
        return Hug::Last;
    }
    let is_block_function = is_kind(first, Kind::FunctionExpression)
        || (is_kind(first, Kind::ArrowFunctionExpression) && has_block_body(first));
    let is_short = !is_function(last)
        && !is_kind(last, Kind::ConditionalExpression)
        && !could_hug(last)
        && is_simple(last, 0);
    if count == 2 && is_block_function && is_short {
        return Hug::First;
    }
    Hug::No
}

fn may_hold_last(count: usize, before: Option<Node<'_, '_>>, last: Node<'_, '_>) -> bool {
    if !could_hug(last) {
        return false;
    }
    let Some(before) = before else {
        return true;
    };
    let is_hook = count == 2
        && is_kind(before, Kind::ArrowFunctionExpression)
        && is_kind(last, Kind::ArrayExpression);
    !is_hook && !are_numbers(last) && before.kind() != last.kind()
}

/// Whether it is `describe("a", () => {})` or its kin.
fn is_test_call(callee: Node<'_, '_>, first: Node<'_, '_>, last: Node<'_, '_>) -> bool {
    let is_text = is_string(first) || is_kind(first, Kind::TemplateLiteral);
    is_text
        && is_function(last)
        && has_block_body(last)
        && parameter_count(last) <= 1
        && is_test_name(callee)
}

/// Whether it is `useEffect(() => {}, [a, b])` or its kin.
fn is_hook(first: Node<'_, '_>, last: Node<'_, '_>) -> bool {
    is_kind(first, Kind::ArrowFunctionExpression)
        && has_block_body(first)
        && parameter_count(first) == 0
        && is_kind(last, Kind::ArrayExpression)
        && has_simple_elements(last)
}

fn has_simple_elements(array: Node<'_, '_>) -> bool {
    let list = array.parts();
    for index in 0..list.len() {
        match list.get(index) {
            Some(node) if is_simple(node, 0) => {}
            _ => return false,
        }
    }
    true
}

/// How many parameters a function has.
fn parameter_count(node: Node<'_, '_>) -> usize {
    let others = if is_kind(node, Kind::ArrowFunctionExpression) {
        1
    } else {
        2
    };
    node.part_count().saturating_sub(others)
}

/// Whether the argument at this place is the one that the parentheses may hold.
pub fn hug_of(hug: Hug, index: usize, count: usize) -> Hug {
    match hug {
        Hug::First if index == 0 => hug,
        Hug::Last if count.saturating_sub(1) == index => hug,
        _ => Hug::No,
    }
}
