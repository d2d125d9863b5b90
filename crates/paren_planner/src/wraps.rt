//! Which nodes of a script are wrapped, and how many, by the pairs of its text: without a row for each node.

ghost use Rattle.std.specs.Prelude.{◌≡◌, ◌≤◌, true, IfOk, Some};
ghost use Rattle.language.specs.Pieces.{script};
ghost use Rattle.language.specs.Cost.{least};
ghost use Rattle.language.specs.RowPositions.{rows};
ghost use Rattle.paren_planner.specs.Noted.{ScriptSteps};
ghost use Rattle.paren_planner.specs.Plans.{AreWraps, IsDerived};

use crate::planner::{Weights, number, weigh_by_pairs};
use crate::text_costs::{PassedNodes, TextCosts};
use crate::text_pairs::TextPairs;
use crate::wrap_pass::wrap_pass;
use std::alloc::{AllocError, Global};
use tree::{Pair, Program};
use wrap_flags::Wraps;

/// Which nodes of a script are wrapped, by the grouping pairs of a text that derives it: of each row, in the order of the rows, whether
/// its node is wrapped. A node whose position is the same wherever the node above stands costs nothing if no pair opens in it or round it,
/// and the walk passes it.
///
/// # Errors
///
/// `AllocError` where memory is refused.
pub fn wraps_by_pairs(
    alloc: Global,
    program: &Program<'_>,
    pairs: &[Pair],
) -> Result<Wraps, AllocError>
    requires { IsDerived program.now pairs.now }
    ensures { IfOk result (λ wraps. AreWraps program.now wraps.flags.items) }
{
    let pairs = TextPairs { known: Some(pairs) };
    let weights = weigh_by_pairs(alloc, program, &pairs)?;
    weighed_wraps(alloc, program, &weights)
}

/// The wrapped nodes, from a script's steps and the rows that they make.
fn weighed_wraps(
    alloc: Global,
    program: &Program<'_>,
    weights: &Weights,
) -> Result<Wraps, AllocError>
    requires made { ScriptSteps true program.now weights.now.steps weights.now.table.rows.items }
    requires few { rows program.now script ≤ 16777216 }
    ensures { IfOk result (λ wraps. AreWraps program.now wraps.flags.items) }
{
    wrap_pass(alloc, &weights.steps, &weights.table, program.node_count())
}

/// The fewest pairs that any text with the tree of a script has, by the grouping pairs of a text that derives it: the total of its plan,
/// without one; and what its nodes cost. The walk passes the nodes that `wraps_by_pairs` passes.
///
/// # Errors
///
/// `AllocError` where memory is refused.
pub fn costs_by_pairs(
    alloc: Global,
    program: &Program<'_>,
    pairs: &[Pair],
) -> Result<TextCosts, AllocError>
    requires { IsDerived program.now pairs.now }
    ensures { IfOk result (λ costs. Some costs.fewest ≡ least program.now script) }
{
    let pairs = TextPairs { known: Some(pairs) };
    let weights = weigh_by_pairs(alloc, program, &pairs)?;
    let passed = PassedNodes::of(alloc, &weights.steps)?;
    Ok(TextCosts {
        fewest: number(weights.total),
        table: weights.table,
        passed,
    })
}
