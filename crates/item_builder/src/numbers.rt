//! Arrays of numbers, whose lines are filled.

use crate::kinds::is_kind;
use tree::{Kind, Node, NodeList};

/// Whether an expression is an array of two or more numbers.
pub fn are_numbers(node: Node<'_, '_>) -> bool {
    is_kind(node, Kind::ArrayExpression) && are_number_elements(node.parts())
}

/// Whether elements are two or more numbers.
pub fn are_number_elements(list: NodeList<'_, '_>) -> bool {
    for index in 0..list.len() {
        match list.get(index) {
            Some(node) if is_signed_number(node) => {}
            _ => return false,
        }
    }
    list.len() > 1
}

fn is_signed_number(node: Node<'_, '_>) -> bool {
    if !is_kind(node, Kind::UnaryExpression) {
        return is_number(node);
    }
    match node.part(0) {
        Some(argument) => matches!(node.text(), "-" | "+") && is_number(argument),
        None => false,
    }
}

fn is_number(node: Node<'_, '_>) -> bool {
    let text = node.text().as_bytes();
    is_kind(node, Kind::Literal)
        && matches!(text.first(), Some(b'0'..=b'9' | b'.'))
        && !matches!(text.last(), Some(b'n'))
}
