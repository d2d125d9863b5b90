//! Classes.

use crate::assignments::assign;
use crate::expressions::expression_in;
use crate::functions::method;
use crate::lists::key;
use crate::statements::block;
use item_builder::{Around, Builder, empty_braces};
use layout_choices::{Assigned, static_word};
use layout_items::Item;
use node_parts::{class_body_of, get, method_of, property_definition_of, static_block_of};
use tree::{Node, NodeList};
use typed_nodes::{Class, PropertyDefinition};

#[cycle(items)]
pub(crate) fn class<'t>(b: &mut Builder<'t>, c: Class<'_, '_>) {
    b.push(Item::GroupStart);
    b.token("class");
    if c.id.is_some() {
        b.space();
        b.any_token();
    }
    if let Some(base) = c.super_class {
        b.space();
        b.token("extends");
        b.space();
        expression_in(b, base, Around::SOFT);
    }
    b.push(Item::GroupEnd);
    b.space();
    b.token("{");
    match class_body_of(c.body) {
        Some(body) => members(b, body.body),
        None => b.lose(),
    }
}

#[cycle(items)]
fn members<'t>(b: &mut Builder<'t>, list: NodeList<'_, '_>) {
    b.skip_semicolons();
    if list.len() == 0 {
        empty_braces(b);
        return;
    }
    b.push(Item::IndentStart);
    b.line(Item::HardLine);
    for index in 0..list.len() {
        if index > 0 {
            b.item_line(Item::HardLine);
        }
        if let Some(node) = get(list, index) {
            member(b, node);
        }
        b.skip_semicolons();
    }
    b.push_closing(true);
    b.push(Item::IndentEnd);
    b.push(Item::HardLine);
    b.token("}");
}

#[cycle(items)]
fn member<'t>(b: &mut Builder<'t>, node: Node<'_, '_>) {
    b.lead();
    if b.is_ignored(node) {
        return;
    }
    if let Some(found) = static_block_of(node) {
        b.token("static");
        b.space();
        block(b, found.body);
        return;
    }
    if let Some(found) = method_of(node) {
        static_word(b, found.is_static);
        method(b, found.key, found.value, found.form, found.computed);
        return;
    }
    match property_definition_of(node) {
        Some(found) => field(b, found),
        None => b.lose(),
    }
}

#[cycle(items)]
fn field<'t>(b: &mut Builder<'t>, found: PropertyDefinition<'_, '_>) {
    static_word(b, found.is_static);
    key(b, found.key, found.computed);
    if let Some(value) = found.value {
        assign(b, "=", value, Assigned::DECLARED);
    }
    b.semicolon();
}
