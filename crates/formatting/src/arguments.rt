//! Arguments: flat, held by their parentheses, or each on a line of its own.

use crate::expressions::{expression, expression_in};
use item_builder::{Around, Builder, Hug, empty_brackets};
use layout_choices::{CallShape, call_shape, hug_of};
use layout_items::Item;
use node_parts::get;
use tree::{Node, NodeList};

/// Arguments of a call in their parentheses.
#[cycle(items)]
pub(crate) fn arguments<'t>(b: &mut Builder<'t>, call: Node<'_, '_>, list: NodeList<'_, '_>) {
    if list.len() == 0 {
        b.token("(");
        empty_brackets(b, ")");
        return;
    }
    b.lead();
    match call_shape(b, call, list) {
        CallShape::OneLine => one_line(b, list),
        CallShape::Plain => plain(b, list),
        CallShape::Held(hug) => held(b, list, hug),
    }
}

/// Arguments that never go to lines of their own.
#[cycle(items)]
fn one_line<'t>(b: &mut Builder<'t>, list: NodeList<'_, '_>) {
    b.token("(");
    for index in 0..list.len() {
        if index > 0 {
            b.token_before_comments(",");
            b.space();
        }
        if let Some(node) = get(list, index) {
            expression(b, node);
        }
    }
    if b.is(",") {
        b.skip();
    }
    b.push_closing(true);
    b.token(")");
}

/// Arguments in a group.
#[cycle(items)]
fn plain<'t>(b: &mut Builder<'t>, list: NodeList<'_, '_>) {
    b.push(Item::GroupStart);
    b.token("(");
    b.push(Item::IndentStart);
    b.line(Item::SoftLine);
    for index in 0..list.len() {
        if index > 0 {
            b.token_before_comments(",");
            b.item_line(Item::Line);
        }
        if let Some(node) = get(list, index) {
            expression(b, node);
        }
    }
    let is_allowed = b.options().has_last_arguments_comma();
    b.last_comma(is_allowed);
    b.push_closing(true);
    b.push(Item::IndentEnd);
    b.push(Item::SoftLine);
    b.token(")");
    b.push(Item::GroupEnd);
}

/// Arguments one of which the parentheses may hold.
#[cycle(items)]
fn held<'t>(b: &mut Builder<'t>, list: NodeList<'_, '_>, hug: Hug) {
    let count = list.len();
    b.push(Item::ChoiceStart);
    b.token("(");
    b.push(Item::CutIndentStart);
    b.line(Item::CutSoftLine);
    for index in 0..count {
        if index > 0 {
            b.token_before_comments(",");
            b.item_line(Item::CutLine);
        }
        if let Some(node) = get(list, index) {
            expression_in(b, node, Around::hugged(hug_of(hug, index, count)));
        }
    }
    if b.is(",") {
        b.skip();
    }
    if b.options().has_last_arguments_comma() {
        b.push(Item::IfCut {
            text: ",",
            columns: 1,
        });
    }
    b.push_closing(true);
    b.push(Item::CutIndentEnd);
    b.push(Item::CutSoftLine);
    b.token(")");
    b.push(Item::ChoiceEnd);
}

/// `import(a)`.
#[cycle(items)]
pub(crate) fn import_call<'t>(b: &mut Builder<'t>, source: Node<'_, '_>) {
    b.token("import");
    b.push(Item::GroupStart);
    b.token("(");
    b.push(Item::IndentStart);
    b.line(Item::SoftLine);
    expression(b, source);
    b.push_closing(true);
    b.push(Item::IndentEnd);
    b.push(Item::SoftLine);
    b.token(")");
    b.push(Item::GroupEnd);
}
