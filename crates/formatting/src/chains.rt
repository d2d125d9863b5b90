//! Chains of members and calls.

use crate::arguments::arguments;
use crate::expressions::{expression, expression_in};
use item_builder::{
    Around, Builder, ChainShape, Link, Passed, chain_base_of, chain_shape, is_kind,
    is_literal_member, is_member, link_before, merges_base, survey_of,
};
use layout_choices::is_integer;
use layout_items::Item;
use node_parts::{part, parts_from};
use tree::{Kind, Node};

/// How a chain is written.
#[derive(Clone, Copy)]
struct Plan {
    shape: ChainShape,
    groups_on_line: usize,
    passed: Passed,
    /// Whether lines that begin from here on are indented.
    is_indented: bool,
    /// The number of links.
    links: usize,
    /// What the base is.
    base: Kind,
}

/// A chain of members and calls, from its last link on.
#[cycle(items)]
pub(crate) fn chain<'t>(b: &mut Builder<'t>, node: Node<'_, '_>, around: Around) {
    let Some(base) = chain_base_of(node) else {
        b.lose();
        return;
    };
    let found = survey_of(b, node, false, merges_base(b, base, around));
    let mut plan = Plan {
        shape: chain_shape(node, found),
        groups_on_line: found.groups_on_line(),
        passed: Passed::NOTHING,
        is_indented: false,
        links: found.links,
        base: base.kind(),
    };
    if plan.shape == ChainShape::Choice {
        b.push(Item::ChoiceStart);
    }
    links(b, node, false, &mut plan);
    match plan.shape {
        ChainShape::Choice => {
            if plan.is_indented {
                b.push(Item::CutIndentEnd);
            }
            b.push(Item::ChoiceEnd);
        }
        ChainShape::Lines => {
            if plan.is_indented {
                b.push(Item::IndentEnd);
            }
        }
        ChainShape::Members | ChainShape::OneLine => {}
    }
}

/// The base and the links up to one.
#[cycle(items)]
fn links<'t>(b: &mut Builder<'t>, node: Node<'_, '_>, is_before_member: bool, plan: &mut Plan) {
    match link_before(node) {
        Some(before) => links(b, before, is_member(node), plan),
        None => chain_base(b, node, plan),
    }
    let link = Link {
        is_call: is_kind(node, Kind::CallExpression),
        is_literal: is_literal_member(node),
        is_own: b.has_ended_comment(),
        is_before_member,
    };
    let begins = plan.passed.pass(link);
    if begins && plan.passed.groups > plan.groups_on_line {
        cut(b, plan);
    }
    if is_member(node) {
        member_link(b, node, link, plan);
    } else {
        call_link(b, node);
    }
}

/// Before a group of links that may begin a line.
fn cut<'t>(b: &mut Builder<'t>, plan: &mut Plan) {
    let is_first = !plan.is_indented;
    match plan.shape {
        ChainShape::Choice => {
            b.push_behind_in_line();
            if is_first {
                b.push(Item::CutIndentStart);
            }
            b.push(Item::CutSoftLine);
            plan.is_indented = true;
        }
        ChainShape::Lines => {
            b.push_behind_in_line();
            if is_first {
                b.push(Item::IndentStart);
            }
            b.push(Item::HardLine);
            plan.is_indented = true;
        }
        ChainShape::Members | ChainShape::OneLine => {}
    }
}

/// The base of a chain: a line that must end in it doesn't cut the chain.
#[cycle(items)]
fn chain_base<'t>(b: &mut Builder<'t>, first: Node<'_, '_>, plan: &Plan) {
    let Some(base) = part(first, 0) else {
        b.lose();
        return;
    };
    let is_bare = base.span().start == first.span().start;
    expression_in(b, base, Around::SOFT);
    let flags = first.flags();
    let is_named = is_member(first) && !flags.computed && !flags.optional;
    if is_bare && is_named && is_kind(base, Kind::Literal) && is_integer(base.text()) {
        b.space();
    }
    if plan.shape == ChainShape::Choice {
        b.push(Item::HeadEnd);
    }
}

#[cycle(items)]
fn call_link<'t>(b: &mut Builder<'t>, node: Node<'_, '_>) {
    if node.flags().optional {
        b.token("?.");
    }
    arguments(b, node, parts_from(node, 1));
}

#[cycle(items)]
fn member_link<'t>(b: &mut Builder<'t>, node: Node<'_, '_>, link: Link, plan: &Plan) {
    let flags = node.flags();
    let is_inlined = flags.computed
        || (plan.links == 1 && plan.base == Kind::Identifier)
        || plan.base == Kind::ThisExpression;
    let may_end = plan.shape == ChainShape::Members && (!is_inlined || link.is_own);
    if flags.computed {
        b.push_behind();
    } else {
        b.push_behind_in_line();
    }
    if may_end {
        b.push(Item::IndentStart);
        b.push(Item::GroupStart);
        b.push(if link.is_own {
            Item::HardLine
        } else {
            Item::SoftLine
        });
    }
    if flags.computed {
        computed_member(b, node);
    } else {
        b.token(if flags.optional { "?." } else { "." });
        b.any_token();
    }
    if may_end {
        b.push(Item::GroupEnd);
        b.push(Item::IndentEnd);
    }
}

/// `[a]`.
#[cycle(items)]
fn computed_member<'t>(b: &mut Builder<'t>, node: Node<'_, '_>) {
    let Some(property) = part(node, 1) else {
        b.lose();
        return;
    };
    if node.flags().optional {
        b.token("?.");
    }
    let is_simple = matches!(property.kind(), Kind::Literal | Kind::Identifier)
        && !b.has_comments_between(property.span().end, node.span().end);
    if is_simple && !b.has_comment() {
        b.token("[");
        expression(b, property);
        b.token("]");
        return;
    }
    b.lead();
    b.push(Item::GroupStart);
    b.token("[");
    b.push(Item::IndentStart);
    b.line(Item::SoftLine);
    expression(b, property);
    b.push_closing(true);
    b.push(Item::IndentEnd);
    b.push(Item::SoftLine);
    b.token("]");
    b.push(Item::GroupEnd);
}
