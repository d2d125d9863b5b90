//! How a node is spelled at a position, whatever symbol, In and start it has there.

ghost use Rattle.std.specs.Prelude.{◌≡◌, ◌&&◌, nat_eq, true, Some, option_map, IfSome};
ghost use Rattle.tree.specs.Node.{node_tree};
ghost use Rattle.tree.specs.Tree.{kind_of, parts_of, part_count};
ghost use Rattle.language.specs.Expressions.{has_optional as is_chained_tree, first_has_optional};
ghost use Rattle.spelling_table.specs.Outlines.{role_of, tail_slots, parts_after};
ghost use Rattle.spellings.specs.Remaining.{goes_over as list_goes_over};
ghost use Rattle.spelling_table.specs.Productions.{outline_of};
ghost use Rattle.spelling_table.specs.declared.production.Production.TheVariants;
ghost use Rattle.spellings.specs.Wherever.{IsSpelledWherever, spelled_by, chain_above, spine_first};

use crate::lean::{has_no_flags, is_lean_node};
use crate::leaves::is_leaf_text;
use crate::nodes::production_at;
use crate::walk::list_fits;
use spelling_table::{FixedSlots, Position, Production, Slot, list_of};
use tree::{Kind, Node};

/// The production by which a node is spelled at a position, whatever symbol, In and start it has there; none where it can't be, at no
/// symbol, In and start. `in_chain`: the node is known to be part of a chain, with a `?.` in it or below it.
#[inline(always)]
pub fn node_production(node: Node, position: Position, in_chain: bool) -> Option<Production>
    requires { in_chain ≡ true → is_chained_tree (node_tree node) ≡ true }
    ensures ways { IsSpelledWherever (role_of position) (node_tree node.entry) (option_map (spelled_by node.entry position) result) }
    ensures chain { IfSome result (λ p. (spelled_by node.entry position p).holds_chain ≡ true → first_has_optional (parts_of (node_tree node.entry)) ≡ true) }
{
    let Some(production) = production_at(node, position, in_chain) else {
        return None;
    };
    if !is_lean_node(node) {
        return None;
    }
    if !goes_over(node, production) {
        return None;
    }
    Some(production)
}

/// Whether a node is seen at once to be spelled at a position as a leaf, and has no parts: a name or a literal.
#[inline(always)]
pub fn is_leaf(node: Node, position: Position) -> bool
    ensures spelled { result ≡ true → IsSpelledWherever (role_of position) (node_tree node.entry) (Some (spelled_by node.entry position TheVariants.Leaf)) }
    ensures parts { result ≡ true → part_count (parts_of (node_tree node.entry)) ≡ 0 }
{
    if !is_leaf_text(node.kind(), node.text(), position) {
        return false;
    }
    if !has_no_flags(node.flags()) {
        return false;
    }
    node.part_count() == 0
}

/// Whether the list of a production goes over a node's parts.
#[inline(always)]
fn goes_over(node: Node, production: Production) -> bool
    ensures { result ≡ list_goes_over (tail_slots (outline_of production).tail (parts_after (outline_of production).from (parts_of (node_tree node.entry)))) }
{
    if !production.has_list() {
        return true;
    }
    takes_list(node, production)
}

/// Whether a production with a list takes the node's parts.
#[inline(never)]
fn takes_list(node: Node, production: Production) -> bool
    ensures { result ≡ list_goes_over (tail_slots (outline_of production).tail (parts_after (outline_of production).from (parts_of (node_tree node.entry)))) }
{
    let (tail, from) = list_of(production);
    list_fits(node.parts(), tail, from)
}

/// Whether the first part of a node that is spelled at a position by its production is part of a chain, with a `?.` in it or below it.
pub fn holds_chain(position: Position, kind: Kind, production: Production) -> bool
    ensures { result ≡ chain_above position kind (outline_of production).front }
{
    match position {
        Position::Expression { .. } => matches!(kind, Kind::ChainExpression),
        Position::ChainPart { .. } => begins_with_spine(production.outline().front),
        _ => false,
    }
}

/// Whether the first part is one on which an optional chain goes on.
fn begins_with_spine(front: FixedSlots) -> bool
    ensures { result ≡ spine_first front }
{
    matches!(
        front,
        FixedSlots::One(Slot::LeadSpine) | FixedSlots::Two(Slot::LeadSpine, _)
    )
}

/// Whether the part at a place, counted from 0, is part of a chain, with a `?.` in it or below it, by what is known of the first.
pub fn leads_chain(holds_chain: bool, index: usize) -> bool
    ensures { result ≡ (holds_chain && nat_eq index 0) }
{
    holds_chain && index == 0
}
