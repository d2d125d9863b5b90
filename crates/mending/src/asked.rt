//! Which changes are made at a node.

ghost use Rattle.std.specs.Prelude.{◌≡◌, ◌≤◌, length, true, IfSome};
ghost use Rattle.tree.specs.Node.{node_tree, list_parts};
ghost use Rattle.mending.specs.declared.change.MendRule.TheVariants.{PreferConst};
ghost use Rattle.mending.specs.Changes.{place};
ghost use Rattle.mending.specs.Making.{is_change, is_made};
ghost use Rattle.mending.specs.Mends.{are_names, is_asked};

use crate::change::{Change, MendRule};
use crate::tests::is_identifier;
use crate::words::{kind_at, span_at, span_of};
use tree::{Node, NodeList, Span};

/// Whether a change is of this rule and at this place.
fn is_change(change: Change, rule: MendRule, span: Span) -> bool
    ensures { result ≡ is_change rule span change }
{
    change.rule.name() == rule.name()
        && change.span.start == span.start
        && change.span.end == span.end
}

/// The number of the first change, of those in order of their places, that doesn't begin before a place.
fn first_from(changes: &[Change], start: usize) -> usize
    ensures { result ≤ length changes.now }
{
    let mut low = 0usize;
    let mut high = changes.len();
    while low < high {
        let middle = low + (high - low) / 2;
        if changes[middle].span.start < start {
            low = middle + 1;
        } else {
            high = middle;
        }
    }
    low
}

/// Whether a change begins at a place, or in it; the changes are in order of their places.
pub(crate) fn begins_in(changes: &[Change], span: Span) -> bool {
    match changes.get(first_from(changes, span.start)) {
        Some(change) => change.span.start <= span.end,
        None => false,
    }
}

/// The number of the change of this rule at a place, if it is made; the changes are in order of their places.
pub(crate) fn find(changes: &[Change], rule: MendRule, span: Span) -> Option<usize>
    ensures { IfSome result (λ _. is_made changes.now rule span ≡ true) }
{
    let first = first_from(changes, span.start);
    for index in first..changes.len() {
        let change = changes[index];
        if change.span.start != span.start {
            return None;
        }
        if is_change(change, rule, span) {
            return Some(index);
        }
    }
    None
}

/// Whether a change of this rule is made at a place.
fn is_made(changes: &[Change], rule: MendRule, span: Span) -> bool
    ensures { result ≡ true → is_made changes.now rule span ≡ true }
{
    match find(changes, rule, span) {
        Some(_) => true,
        None => false,
    }
}

/// Whether each declarator has just a name, which is reported.
fn are_names(declarators: NodeList, changes: &[Change]) -> bool
    ensures { result ≡ true → are_names (is_made changes.now PreferConst) (list_parts declarators.entry) ≡ true }
{
    for index in 0..declarators.len() {
        let Some(declarator) = declarators.get(index) else {
            return false;
        };
        let name = declarator.part(0);
        if !is_identifier(kind_at(name)) {
            return false;
        }
        if !is_made(changes, MendRule::PreferConst, span_at(declarator, name)) {
            return false;
        }
    }
    true
}

/// Where a rule reports a node that it changes.
pub(crate) fn place(rule: MendRule, node: Node) -> Span
    ensures { result ≡ place rule (node_tree node.entry) }
{
    match rule {
        MendRule::DotNotation => span_at(node, node.part(1)),
        MendRule::NoLonelyIf | MendRule::NoUnusedLabels => span_at(node, node.part(0)),
        _ => span_of(node),
    }
}

/// Whether a rule's change is made at a node.
pub(crate) fn is_asked(rule: MendRule, node: Node, changes: &[Change]) -> bool
    ensures { result ≡ true → is_asked (is_made changes.now) rule (node_tree node.entry) ≡ true }
{
    match rule {
        MendRule::PreferConst => are_names(node.parts(), changes),
        _ => is_made(changes, rule, place(rule, node)),
    }
}
