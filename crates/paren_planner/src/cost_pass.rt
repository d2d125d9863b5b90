//! What the nodes of a script cost, from the last step of a walk to the first: parts before the node that they are parts of.

ghost use Rattle.std.specs.Prelude.{◌≡◌, [], ◌∷◌, ◌++◌, cond, OnOk, IfOk, IfSome};
ghost use Rattle.spelling_table.specs.Outlines.{slot_of};
ghost use Rattle.cost_table.specs.Packed.{free_shape, shaped};
ghost use Rattle.paren_planner.specs.Pending.{here_of, shown_sums, AreHeld};
ghost use Rattle.cost_table.specs.Rows.{row_with};
ghost use Rattle.paren_planner.specs.Steps.{has_row_at, weighed_of, used, row_of_visit, joined, taken, taken_from, at_the_end};
ghost use Rattle.cost_table.specs.Costs.{no_pairs, IsHeld};
ghost use Rattle.paren_planner.specs.declared.steps.Step.TheVariants.{Enter};

use crate::open_sums::OpenSums;
use crate::steps::{NodeStep, Step, Steps, asks_no_more, bare_outline, stands_freely};
use cost_table::{CostTable, Costs, NodeCosts, fitting};
use language::Rank;
use std::alloc::{AllocError, Global};

/// Sets the rows of a script by its steps, and adds up what it costs in all.
pub(crate) fn cost_pass(
    alloc: Global,
    steps: &Steps,
    table: &mut CostTable,
) -> Result<Costs, AllocError>
    requires { table.old.rows.items ≡ [] }
    ensures sums { IfOk result (λ c. c ≡ (taken_from steps.now at_the_end).here) }
    ensures rows { OnOk result (table.new.rows.items ≡ (taken_from steps.now at_the_end).rows) }
{
    let mut pending = OpenSums::new(alloc);
    for index in (0..steps.len()).rev() {
        take_back(steps.at(index), &mut pending, table)?;
    }
    table.reverse_rows();
    Ok(pending.sums())
}

/// One step back. `pending`: the sums over the parts behind it.
fn take_back(step: &Step, pending: &mut OpenSums, table: &mut CostTable) -> Result<(), AllocError>
    requires { AreHeld (shown_sums pending.old table.old.rows.items) }
    ensures { OnOk result (shown_sums pending.new table.new.rows.items ≡ taken step.now (shown_sums pending.old table.old.rows.items)) }
{
    match step {
        Step::Free(kind, rank) => table.push_free(*kind, *rank),
        Step::Passed(_) => Ok(()),
        Step::Leaf(visit) => add_leaf(visit, pending, table),
        Step::Enter(visit) => add_parent(visit, pending, table),
        Step::Leave => pending.enter(),
    }
}

/// The innermost open node, all of whose parts were seen.
fn add_parent(
    visit: &NodeStep,
    pending: &mut OpenSums,
    table: &mut CostTable,
) -> Result<(), AllocError>
    requires { AreHeld (shown_sums pending.old table.old.rows.items) }
    ensures { OnOk result (shown_sums pending.new table.new.rows.items ≡ taken (Enter visit.now) (shown_sums pending.old table.old.rows.items)) }
{
    if pending.is_nothing() {
        pending.leave();
        return add_leaf(visit, pending, table);
    }
    let inner = pending.sums();
    pending.leave();
    add_node(visit, inner, pending, table)
}

/// A node whose parts cost nothing.
fn add_leaf(
    visit: &NodeStep,
    pending: &mut OpenSums,
    table: &mut CostTable,
) -> Result<(), AllocError>
    requires { IsHeld (here_of pending.old) }
    ensures { OnOk result (shown_sums pending.new table.new.rows.items ≡ joined visit.now no_pairs (shown_sums pending.old table.old.rows.items)) }
{
    if let Some(rank) = free_rank(visit) {
        return note_free(visit, rank, table);
    }
    add_node(visit, Costs::same(Some(0u32)), pending, table)
}

/// A node, by the sums over its parts: its row, and what it costs in the node above.
fn add_node(
    visit: &NodeStep,
    inner: Costs,
    pending: &mut OpenSums,
    table: &mut CostTable,
) -> Result<(), AllocError>
    requires { IsHeld (here_of pending.old) }
    ensures { OnOk result (shown_sums pending.new table.new.rows.items ≡ joined visit.now inner (shown_sums pending.old table.old.rows.items)) }
{
    let weighed = weigh(visit, inner);
    note_row(visit, &weighed.costs, table)?;
    pending.add(visit.above, visit.slot, &weighed);
    Ok(())
}

/// The symbol of a node that is seen at once to cost nothing in the node above where its parts cost nothing, wherever that stands.
fn free_rank(visit: &NodeStep) -> Option<Rank>
    ensures used { IfSome result (λ z. used visit.now no_pairs ≡ no_pairs) }
    ensures row { IfSome result (λ z. row_of_visit visit.now no_pairs ≡ cond (has_row_at (slot_of visit.now.slot)) (row_with visit.now.kind (shaped (free_shape z) 0) ∷ []) []) }
{
    let Some(requirements) = visit.requirements else {
        return None;
    };
    if !asks_no_more(requirements) || !stands_freely(requirements, visit.slot) {
        return None;
    }
    Some(requirements.rank)
}

/// The row of a node that costs nothing wherever it may stand, where it has one.
fn note_free(visit: &NodeStep, rank: Rank, table: &mut CostTable) -> Result<(), AllocError>
    ensures { OnOk result (table.new.rows.items ≡ table.old.rows.items ++ cond (has_row_at (slot_of visit.now.slot)) (row_with visit.now.kind (shaped (free_shape rank) 0) ∷ []) []) }
{
    if visit.has_row() {
        return table.push_free(visit.kind, rank);
    }
    Ok(())
}

/// The row of a node, where it has one.
fn note_row(visit: &NodeStep, costs: &Costs, table: &mut CostTable) -> Result<(), AllocError>
    ensures { OnOk result (table.new.rows.items ≡ table.old.rows.items ++ cond (has_row_at (slot_of visit.now.slot)) (row_with visit.now.kind costs.now ∷ []) []) }
{
    if visit.has_row() {
        return table.push_costs(visit.kind, costs);
    }
    Ok(())
}

/// What a node costs, by the costs inside it; it fits nowhere if it can't be spelled.
fn weigh(visit: &NodeStep, inner: Costs) -> NodeCosts
    ensures { result ≡ weighed_of visit.now inner }
{
    let Some(requirements) = visit.requirements else {
        return NodeCosts {
            outline: None,
            costs: Costs::same(None),
        };
    };
    let outline = bare_outline(requirements);
    NodeCosts {
        outline: Some(outline),
        costs: fitting(visit.position(), outline, inner),
    }
}
