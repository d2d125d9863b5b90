//! Functions and methods.

use crate::expressions::{expression_in, pattern};
use crate::lists::key;
use crate::statements::statement;
use item_builder::{Around, Builder, Hug, empty_brackets, sticks_to_arrow};
use layout_choices::{bare_parameter, has_plain_parameter, hugs_pattern, joined_end};
use layout_items::Item;
use node_parts::{function_of, get};
use tree::{Form, Kind, Node, NodeList};
use typed_nodes::Function;

/// A function with the word `function`.
#[cycle(items)]
pub(crate) fn function<'t>(b: &mut Builder<'t>, f: Function<'_, '_>, hug: Hug) {
    if f.is_async {
        b.token("async");
        b.space();
    }
    b.token("function");
    if f.generator {
        b.token("*");
    }
    b.space();
    if f.id.is_some() {
        b.any_token();
    }
    parameters(b, f.params, true);
    b.space();
    held_block(b, f.body, hug);
}

/// The body of a function that parentheses may hold.
#[cycle(items)]
fn held_block<'t>(b: &mut Builder<'t>, body: Node<'_, '_>, hug: Hug) {
    if hug.is_some() {
        b.push(Item::JoinStart);
    }
    statement(b, body);
    if hug.is_some() {
        b.push(Item::GroupEnd);
    }
}

/// Parameters in their parentheses.
#[cycle(items)]
pub(crate) fn parameters<'t>(b: &mut Builder<'t>, list: NodeList<'_, '_>, may_end: bool) {
    let count = list.len();
    if count == 0 {
        b.token("(");
        empty_brackets(b, ")");
        return;
    }
    b.lead();
    let hugs = hugs_pattern(list);
    b.push(Item::GroupStart);
    b.token("(");
    if !hugs {
        b.push(Item::IndentStart);
        b.line(Item::SoftLine);
    }
    let mut has_rest = false;
    for index in 0..count {
        if index > 0 {
            b.token_before_comments(",");
            b.line(Item::Line);
        }
        if let Some(node) = get(list, index) {
            pattern(b, node);
            has_rest = matches!(node.kind(), Kind::RestElement);
        }
    }
    let is_allowed = may_end && !hugs && !has_rest && b.options().has_last_arguments_comma();
    b.last_comma(is_allowed);
    b.push_closing(true);
    if !hugs {
        b.push(Item::IndentEnd);
        b.push(Item::SoftLine);
    }
    b.token(")");
    b.push(Item::GroupEnd);
}

#[cycle(items)]
pub(crate) fn arrow<'t>(b: &mut Builder<'t>, f: Function<'_, '_>, hug: Hug) {
    if f.is_async {
        b.token("async");
        b.space();
    }
    arrow_parameters(b, f.params);
    b.space();
    b.token("=>");
    if matches!(f.body.kind(), Kind::BlockStatement) {
        b.space();
        held_block(b, f.body, hug);
        return;
    }
    arrow_body(b, f.body, hug);
}

/// The parameters of an arrow: one plain name is never broken from its parentheses, whether the text has them or not.
#[cycle(items)]
fn arrow_parameters<'t>(b: &mut Builder<'t>, list: NodeList<'_, '_>) {
    if !b.is("(") {
        bare_parameter(b);
        return;
    }
    if !has_plain_parameter(b, list) {
        parameters(b, list, true);
        return;
    }
    if b.options().bare_arrows {
        b.skip();
        b.any_token();
    } else {
        b.token("(");
        b.any_token();
    }
    if b.is(",") {
        b.skip();
    }
    if b.options().bare_arrows {
        b.skip();
    } else {
        b.token(")");
    }
}

/// The body of an arrow that is an expression: on its line, or on the next one if it doesn't fit.
#[cycle(items)]
fn arrow_body<'t>(b: &mut Builder<'t>, body: Node<'_, '_>, hug: Hug) {
    let is_open = b.has_ended_comment();
    if sticks_to_arrow(body) && !is_open {
        b.space();
        expression_in(
            b,
            body,
            Around {
                hug,
                ..Around::ARROW_BODY
            },
        );
        return;
    }
    b.push_behind();
    b.push(if hug.is_some() {
        Item::JoinStart
    } else {
        Item::GroupStart
    });
    b.push(Item::IndentStart);
    b.push(if is_open { Item::HardLine } else { Item::Line });
    expression_in(b, body, Around::ARROW_BODY);
    b.push(Item::IndentEnd);
    if hug == Hug::Last {
        joined_end(b);
    }
    b.push(Item::GroupEnd);
}

/// A method of an object or a class, from its key's words on.
#[cycle(items)]
pub(crate) fn method<'t>(
    b: &mut Builder<'t>,
    name: Node<'_, '_>,
    value: Node<'_, '_>,
    form: Form,
    computed: bool,
) {
    let Some(f) = function_of(value) else {
        b.lose();
        return;
    };
    let is_setter = matches!(form, Form::Set);
    if is_setter || matches!(form, Form::Get) {
        b.any_token();
        b.space();
    }
    if f.is_async {
        b.token("async");
        b.space();
    }
    if f.generator {
        b.token("*");
    }
    key(b, name, computed);
    parameters(b, f.params, !is_setter);
    b.space();
    statement(b, f.body);
}
