//! Templates.

use crate::expressions::{expression, expression_in};
use item_builder::{Around, Builder};
use layout_items::Item;
use node_parts::{all_parts, get};
use tree::{Kind, Node, NodeList};

/// A template: its parts as they stand.
#[cycle(items)]
pub(crate) fn template<'t>(b: &mut Builder<'t>, turns: NodeList<'_, '_>) {
    for index in 0..turns.len() {
        if index % 2 == 0 {
            b.template_part();
        } else if let (Some(node), Some(part)) = (get(turns, index), turns.get(index + 1)) {
            substitution(b, node, part.span().start);
        }
    }
}

/// What stands between `${` and `}`: its width is asked only where the text has a line end in it.
#[cycle(items)]
fn substitution<'t>(b: &mut Builder<'t>, node: Node<'_, '_>, end: usize) {
    if b.has_line_end_before(end) {
        expression(b, node);
        return;
    }
    b.lead();
    b.push(Item::WideStart);
    expression(b, node);
    b.push(Item::GroupEnd);
}

#[cycle(items)]
pub(crate) fn tagged_template<'t>(b: &mut Builder<'t>, tag: Node<'_, '_>, quasi: Node<'_, '_>) {
    expression_in(b, tag, Around::SOFT);
    if matches!(quasi.kind(), Kind::TemplateLiteral) {
        template(b, all_parts(quasi));
        return;
    }
    b.lose();
}
