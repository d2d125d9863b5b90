//! The walk over a script that notes its steps: where each node stands, and how it is spelled.

ghost use Rattle.std.specs.Prelude.{◌≡◌, true, IfOk};
ghost use Rattle.tree.specs.Node.{node_tree};
ghost use Rattle.tree.specs.Tree.{kind_of, start_of, parts_of};
ghost use Rattle.language.specs.Expressions.{has_optional, first_has_optional};
ghost use Rattle.language.specs.RowPositions.{widest};
ghost use Rattle.language.specs.Pieces.{Role};
ghost use Rattle.spelling_table.specs.Outlines.{role_of, slot_of};
ghost use Rattle.spellings.specs.Remaining.{left};
ghost use Rattle.spellings.specs.Wherever.{spelled_by};
ghost use Rattle.paren_planner.specs.declared.steps.Step.TheVariants.{Leaf};
ghost use Rattle.spelling_table.specs.Productions.{outline_of};
ghost use Rattle.paren_planner.specs.Noted.{IsVisit, Noted, PartsNoted, fixed_outline};
ghost use Rattle.paren_planner.specs.Passing.{Passing, PassingBelow, PassingParts, may_pass, pairs_of};
ghost use Rattle.spellings.specs.Spelled.{settled_roles};
ghost use Rattle.language.specs.declared.Rank.TheVariants.{Primary};
ghost use Rattle.paren_planner.specs.Steps.{nowhere};
ghost use Rattle.cost_table.specs.Weighed.{settled_at, slot_free};

use crate::row_count::row_count;
use crate::steps::{NodeStep, Step, Steps, has_row};
use crate::text_pairs::{TextPairs, is_passed, is_settled};
use cost_table::widest;
use grammar::accepts_rank;
use language::{Rank, Start};
use spelling_table::{Position, Production, Requirements, Slot, WHOLE};
use spellings::{SlotCursor, holds_chain, is_leaf, leads_chain, node_production};
use std::alloc::AllocError;
use tree::{Kind, Node};

/// Where a node stands.
#[derive(Clone, Copy)]
pub(crate) struct NodeContext<'a> {
    /// The widest position of the node above.
    pub(crate) above: &'a Position,
    /// Where it stands in the spelling of that node.
    pub(crate) slot: &'a Slot,
    /// It is known to be part of a chain, with a `?.` in it or below it.
    pub(crate) in_chain: bool,
}

/// Notes the steps of a node where it stands; says whether each is a node that costs nothing. The node's text comes from the place `from`
/// on; where the text's pairs are known, nodes are passed by them.
#[cycle(visiting)]
#[inline(always)]
pub(crate) fn visit_node(
    node: Node,
    context: NodeContext,
    from: usize,
    pairs: &TextPairs,
    steps: &mut Steps,
) -> Result<bool, AllocError>
    requires chain { context.in_chain ≡ true → has_optional (node_tree node) ≡ true }
    requires passing { may_pass pairs.now ≡ true → Passing (pairs_of pairs.now) from node (settled_at (role_of context.above.now) (slot_of context.slot.now)) }
    ensures { IfOk result (λ free. Noted (may_pass pairs.now) (role_of context.entry.above.now) (slot_of context.entry.slot.now) (node_tree node.entry) free steps.old steps.new) }
{
    if may_be_leaf(node.kind()) {
        return visit_atom(node, context, pairs, steps);
    }
    if is_passed(pairs, node, context.slot, from) {
        steps.push(Step::Passed(row_count(node)))?;
        return Ok(true);
    }
    visit_at(
        node,
        context.above,
        context.slot,
        context.in_chain,
        pairs,
        steps,
    )
}

/// Notes the step of an identifier or a literal.
#[cycle(visiting)]
#[inline(always)]
fn visit_atom(
    node: Node,
    context: NodeContext,
    pairs: &TextPairs,
    steps: &mut Steps,
) -> Result<bool, AllocError>
    requires chain { context.in_chain ≡ true → has_optional (node_tree node) ≡ true }
    requires passing { may_pass pairs.now ≡ true → PassingBelow (pairs_of pairs.now) node (settled_at (role_of context.above.now) (slot_of context.slot.now)) }
    ensures { IfOk result (λ free. Noted (may_pass pairs.now) (role_of context.entry.above.now) (slot_of context.entry.slot.now) (node_tree node.entry) free steps.old steps.new) }
{
    if !is_leaf(node, widest_of(context.slot)) {
        return visit_at(
            node,
            context.above,
            context.slot,
            context.in_chain,
            pairs,
            steps,
        );
    }
    if !has_row(context.slot) {
        return Ok(true);
    }
    if !takes_atom(context.slot) {
        return visit_at(
            node,
            context.above,
            context.slot,
            context.in_chain,
            pairs,
            steps,
        );
    }
    steps.push(Step::Free(node.kind(), Rank::Primary))?;
    Ok(true)
}

/// Notes the steps of any node.
#[cycle(visiting)]
#[inline(never)]
fn visit_at(
    node: Node,
    above: &Position,
    slot: &Slot,
    in_chain: bool,
    pairs: &TextPairs,
    steps: &mut Steps,
) -> Result<bool, AllocError>
    requires chain { in_chain ≡ true → has_optional (node_tree node) ≡ true }
    requires passing { may_pass pairs.now ≡ true → PassingBelow (pairs_of pairs.now) node (settled_at (role_of above.now) (slot_of slot.now)) }
    ensures { IfOk result (λ free. Noted (may_pass pairs.now) (role_of above.now) (slot_of slot.now) (node_tree node.entry) free steps.old steps.new) }
{
    let own = widest_of(slot);
    let Some(production) = node_production(node, own, in_chain) else {
        steps.push(Step::Leaf(node_step(node, above, slot, None)))?;
        return Ok(false);
    };
    if is_settled(slot) && has_fixed_slots(&production) {
        return visit_parts(node, &own, &production, pairs, steps);
    }
    let requirements = production.requirements();
    let visit = node_step(node, above, slot, Some(requirements));
    if node.part_count() == 0 {
        steps.push(Step::Leaf(visit))?;
        return Ok(false);
    }
    let index = steps.len();
    steps.push(Step::Enter(visit))?;
    let are_free = visit_parts(node, &own, &production, pairs, steps)?;
    if are_free && visit.is_free(requirements) {
        steps.set(index, Step::Free(visit.kind, requirements.rank));
        return Ok(true);
    }
    steps.push(Step::Leave)?;
    Ok(false)
}

/// Notes the steps of a node's parts at its widest position, by its production; none behind a part that has no position.
#[cycle(visiting)]
#[tactic(auto, using(tree::proofs::PartWalk::part_steps))]
fn visit_parts(
    node: Node,
    own: &Position,
    production: &Production,
    pairs: &TextPairs,
    steps: &mut Steps,
) -> Result<bool, AllocError>
    requires chain { (spelled_by node own.now production.now).holds_chain ≡ true → first_has_optional (parts_of (node_tree node)) ≡ true }
    requires passing { may_pass pairs.now ≡ true → PassingParts (pairs_of pairs.now) node 0 (start_of (node_tree node)) (parts_of (node_tree node)) (settled_roles (role_of own.now) (left (spelled_by node own.now production.now).slots)) }
    ensures { IfOk result (λ free. PartsNoted (may_pass pairs.now) (role_of own.now) (left (spelled_by node.entry own.now production.now).slots) (parts_of (node_tree node.entry)) free steps.old steps.new) }
{
    let is_chain = holds_chain(*own, node.kind(), *production);
    let parts = node.parts();
    let mut slots = SlotCursor::new(*production);
    let mut are_free = true;
    let mut from = node.span().start;
    for index in 0..parts.len() {
        let Some(part) = node.finished_part(index) else {
            continue;
        };
        let Some(slot) = slots.take(parts, part, index) else {
            steps.push(unplaced_step(part))?;
            return Ok(false);
        };
        let in_chain = leads_chain(is_chain, index);
        let context = NodeContext {
            above: own,
            slot: &slot,
            in_chain,
        };
        let is_free = visit_node(part, context, from, pairs, steps)?;
        are_free &= is_free;
        from = part.span().end;
    }
    Ok(are_free)
}

/// Whether a name or a literal may stand at a slot, wherever the node above stands.
fn takes_atom(slot: &Slot) -> bool
    ensures { result ≡ slot_free (slot_of slot.now) Primary }
{
    match slot {
        Slot::Fixed(Position::Expression { rank, .. })
        | Slot::Left(rank)
        | Slot::Lead(rank)
        | Slot::Tail(rank, _) => accepts_rank(*rank, Rank::Primary),
        _ => true,
    }
}

/// Whether a node of this kind may be seen at once to be a leaf.
#[inline(always)]
fn may_be_leaf(kind: Kind) -> bool {
    matches!(kind, Kind::Identifier | Kind::Literal)
}

/// Whether it is seen at once that each slot of a production is a position.
fn has_fixed_slots(production: &Production) -> bool
    ensures { result ≡ true → fixed_outline (outline_of production.now) ≡ true }
{
    matches!(
        production,
        Production::Leaf
            | Production::Keyed {
                is_computed: false,
                ..
            }
            | Production::ShorthandProperty(_)
            | Production::WithDefault(_)
            | Production::Single(_)
            | Production::ClassBody
            | Production::Setter(_)
            | Production::Items { .. }
            | Production::Prologue { .. }
            | Production::Declarators(_)
            | Production::Initialised { .. }
            | Production::If {
                has_else: false,
                ..
            }
            | Production::If { has_else: true, .. }
            | Production::Labeled { .. }
            | Production::DoWhile { .. }
            | Production::While { .. }
            | Production::Switch { .. }
            | Production::Catch { .. }
    )
}

/// The position of a node at a slot, wherever the node above stands, with all that its spelling may depend on left open.
fn widest_of(slot: &Slot) -> Position
    ensures { (a : Role) → role_of result ≡ widest (settled_at a (slot_of slot.now)) }
{
    match slot {
        Slot::Fixed(position) => widest(*position),
        Slot::LeadSpine => Position::ChainPart { start: Start::Any },
        Slot::LeadPattern => {
            Position::Pattern {
                binds: false,
                start: Start::Any,
            }
        }
        Slot::Left(_) | Slot::Lead(_) | Slot::Tail(_, _) | Slot::Callee => WHOLE,
    }
}

/// The step of a node where it stands.
#[inline(always)]
fn node_step(
    node: Node,
    above: &Position,
    slot: &Slot,
    requirements: Option<Requirements>,
) -> NodeStep
    ensures visit { IsVisit (role_of above.now) (slot_of slot.now) (node_tree node.entry) result }
    ensures requirements { result.requirements ≡ requirements }
{
    NodeStep {
        kind: node.kind(),
        above: *above,
        slot: *slot,
        requirements,
    }
}

/// A part that has no position: a node that can't be spelled where it stands.
fn unplaced_step(part: Node) -> Step
    ensures { result ≡ Leaf (nowhere (kind_of (node_tree part.entry))) }
{
    Step::Leaf(NodeStep {
        kind: part.kind(),
        above: Position::Script,
        slot: Slot::Fixed(Position::Script),
        requirements: None,
    })
}
