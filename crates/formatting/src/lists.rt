//! Lists in brackets: arrays and objects.

use crate::assignments::assign;
use crate::expressions::{expression, pattern};
use crate::functions::method;
use item_builder::{Builder, Hug, are_number_elements, empty_brackets};
use layout_choices::{
    Assigned, element_line, has_several_parts, holds_object_pattern, is_short_key, start_of_group,
};
use layout_items::Item;
use node_parts::{get, property_of};
use tree::{Form, Kind, Node, NodeList};

#[cycle(items)]
pub(crate) fn array<'t>(
    b: &mut Builder<'t>,
    elements: NodeList<'_, '_>,
    is_pattern: bool,
    hug: Hug,
) {
    let count = elements.len();
    if count == 0 {
        b.token("[");
        empty_brackets(b, "]");
        return;
    }
    b.push(start_of_group(hug));
    b.token("[");
    if !is_pattern && has_several_parts(elements) {
        b.push(Item::Forced);
    }
    b.push(Item::IndentStart);
    b.line(Item::SoftLine);
    let is_filled = !is_pattern && are_number_elements(elements);
    for index in 0..count {
        if index > 0 {
            element_line(b, is_filled);
        }
        element(b, get(elements, index), is_pattern, index + 1 == count);
    }
    if let Some(last) = elements.last() {
        let is_allowed = !matches!(last.kind(), Kind::RestElement)
            && b.options().has_last_list_comma();
        b.last_comma(is_allowed);
    }
    b.push_closing(true);
    b.push(Item::IndentEnd);
    b.push(Item::SoftLine);
    b.token("]");
    b.push(Item::GroupEnd);
}

/// An element, or a hole, with the comma behind it.
#[cycle(items)]
fn element<'t>(b: &mut Builder<'t>, node: Option<Node<'_, '_>>, is_pattern: bool, is_last: bool) {
    match node {
        Some(node) if is_pattern => pattern(b, node),
        Some(node) => expression(b, node),
        None => {}
    }
    if !is_last || node.is_none() {
        b.token_before_comments(",");
    }
}

/// An object, which stays broken where the text has a line end before its first key.
#[cycle(items)]
pub(crate) fn object<'t>(b: &mut Builder<'t>, properties: NodeList<'_, '_>, hug: Hug) {
    if properties.len() == 0 {
        b.token("{");
        empty_brackets(b, "}");
        return;
    }
    b.push(start_of_group(hug));
    b.token("{");
    if b.has_line_end() {
        b.push(Item::Kept);
    }
    properties_behind_brace(b, properties, false);
    b.push(Item::GroupEnd);
}

/// A pattern of an object; that of a declarator is broken where it holds another one.
#[cycle(items)]
pub(crate) fn object_pattern<'t>(
    b: &mut Builder<'t>,
    properties: NodeList<'_, '_>,
    is_declared: bool,
) {
    if properties.len() == 0 {
        b.token("{");
        empty_brackets(b, "}");
        return;
    }
    b.push(Item::GroupStart);
    b.token("{");
    if is_declared && holds_object_pattern(properties) {
        b.push(Item::Forced);
    }
    properties_behind_brace(b, properties, true);
    b.push(Item::GroupEnd);
}

/// One or more properties, up to the closing brace.
#[cycle(items)]
fn properties_behind_brace<'t>(
    b: &mut Builder<'t>,
    properties: NodeList<'_, '_>,
    is_pattern: bool,
) {
    b.push(Item::IndentStart);
    b.line(Item::Line);
    let mut has_rest = false;
    for index in 0..properties.len() {
        if index > 0 {
            b.token_before_comments(",");
            b.item_line(Item::Line);
        }
        if let Some(node) = get(properties, index) {
            property(b, node, is_pattern);
            has_rest = matches!(node.kind(), Kind::RestElement);
        }
    }
    let is_allowed = !has_rest && b.options().has_last_list_comma();
    b.last_comma(is_allowed);
    b.push_closing(true);
    b.push(Item::IndentEnd);
    b.push(Item::Line);
    b.token("}");
}

#[cycle(items)]
fn property<'t>(b: &mut Builder<'t>, node: Node<'_, '_>, is_pattern: bool) {
    b.lead();
    if b.is_ignored(node) {
        return;
    }
    let Some(found) = property_of(node) else {
        expression(b, node);
        return;
    };
    match found.form {
        Form::Shorthand if is_pattern => pattern(b, found.value),
        Form::Shorthand => expression(b, found.value),
        Form::Init => {
            let is_short = !found.computed && is_short_key(b, found.key);
            key(b, found.key, found.computed);
            assign(b, ":", found.value, Assigned::property(is_short));
        }
        _ => method(b, found.key, found.value, found.form, found.computed),
    }
}

/// A key, in brackets perhaps.
#[cycle(items)]
pub(crate) fn key<'t>(b: &mut Builder<'t>, node: Node<'_, '_>, computed: bool) {
    if !computed {
        b.any_token();
        return;
    }
    b.token("[");
    expression(b, node);
    b.push_closing(true);
    b.token("]");
}
