//! Words of statements, and what they depend on.

use item_builder::Builder;
use layout_items::Item;
use tree::{Kind, Node, NodeList};
use typed_nodes::VariableDeclarator;

/// `break` or `continue`.
pub fn jump<'t>(b: &mut Builder<'t>, has_label: bool) {
    b.any_token();
    if has_label {
        b.space();
        b.any_token();
    }
    b.semicolon();
}

/// Before a word that goes on behind a body: a space behind a block, else a line end.
pub fn word_behind<'t>(b: &mut Builder<'t>, body: Node<'_, '_>) {
    if matches!(body.kind(), Kind::BlockStatement) && !b.has_ended_comment() {
        b.space();
    } else {
        b.line(Item::HardLine);
    }
}

/// Whether a declarator has an initialiser.
pub fn has_initialiser(list: NodeList<'_, '_>) -> bool {
    for index in 0..list.len() {
        let one = list.get(index).and_then(VariableDeclarator::of);
        if one.is_some_and(|one| one.init.is_some()) {
            return true;
        }
    }
    false
}

/// Whether a pattern of an object has more than two properties, and one with a default.
pub fn is_complex(pattern: Node<'_, '_>) -> bool {
    let list = pattern.parts();
    if !matches!(pattern.kind(), Kind::ObjectPattern) || list.len() <= 2 {
        return false;
    }
    for index in 0..list.len() {
        let value = list.get(index).and_then(|node| node.part(1));
        if value.is_some_and(|node| matches!(node.kind(), Kind::AssignmentPattern)) {
            return true;
        }
    }
    false
}

/// Whether it is a `;` alone.
pub fn is_empty_statement(node: Node<'_, '_>) -> bool {
    matches!(node.kind(), Kind::EmptyStatement)
}
