//! Assignments, and what is like them: an operator and the value behind it.

use crate::expressions::expression_in;
use item_builder::{Around, Builder, is_binary};
use layout_choices::{Assigned, ValuePosition, value_position};
use layout_items::Item;
use tree::Node;

/// The operator and the value, behind what it is assigned to.
#[cycle(items)]
pub(crate) fn assign<'t>(b: &mut Builder<'t>, operator: &str, value: Node<'_, '_>, to: Assigned) {
    if !to.is_property {
        b.space();
    }
    b.token(operator);
    match value_position(b, value, to) {
        ValuePosition::OnLine => {
            b.space();
            assigned_value(b, value);
        }
        ValuePosition::Whole => whole_value(b, value),
        ValuePosition::Beginning => hanging_value(b, value),
        ValuePosition::NextLine => {
            b.push(Item::IndentStart);
            b.line(Item::HardLine);
            assigned_value(b, value);
            b.push(Item::IndentEnd);
        }
    }
}

/// A value that goes to the next line as a whole.
#[cycle(items)]
fn whole_value<'t>(b: &mut Builder<'t>, value: Node<'_, '_>) {
    b.push_behind();
    b.push(Item::GroupStart);
    b.push(Item::IndentStart);
    b.push(Item::Line);
    assigned_value(b, value);
    b.push(Item::IndentEnd);
    b.push(Item::GroupEnd);
}

/// A value that goes to the next line if its beginning doesn't fit.
#[cycle(items)]
fn hanging_value<'t>(b: &mut Builder<'t>, value: Node<'_, '_>) {
    b.push_behind();
    b.push(Item::GroupStart);
    b.push(Item::IndentStart);
    b.push(Item::Line);
    b.push(Item::IndentEnd);
    b.push(Item::GroupEnd);
    b.push(Item::HangStart);
    assigned_value(b, value);
    b.push(Item::HangEnd);
}

#[cycle(items)]
fn assigned_value<'t>(b: &mut Builder<'t>, value: Node<'_, '_>) {
    if !is_binary(value) {
        expression_in(b, value, Around::INDENTED);
        return;
    }
    b.lead();
    b.push(Item::GroupStart);
    expression_in(b, value, Around::INDENTED);
    b.push(Item::GroupEnd);
}
