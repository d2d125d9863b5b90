//! The plan of a script.

ghost use Rattle.std.specs.Prelude.{◌≡◌, false, ◌≤◌, ◌↔◌, Option, Some, IfOk, IfSome, IfNone, IsSome, IsTrue};
ghost use Rattle.language.specs.Pieces.{script, fixed};
ghost use Rattle.language.specs.Cost.{least};
ghost use Rattle.language.specs.RowPositions.{rows};
ghost use Rattle.cost_table.specs.Costs.{capped};
ghost use Rattle.paren_planner.specs.Noted.{Steps};
ghost use Rattle.paren_planner.specs.Plans.{HasPlan, IsPlan};
ghost use Rattle.cost_table.specs.Rows.{table_rows};
ghost use Rattle.std.specs.Prelude.{true};
ghost use Rattle.paren_planner.specs.Noted.{ScriptSteps};
ghost use Rattle.paren_planner.specs.Passing.{ScriptPassing, may_pass, pairs_of};

use crate::cost_pass::cost_pass;
use crate::step_walk::{NodeContext, visit_node};
use crate::steps::Steps;
use crate::text_pairs::TextPairs;
use crate::wrap_pass::wrap_pass;
use crate::wrap_plan::Plan;
use cost_table::CostTable;
use spelling_table::{Position, Slot};
use std::alloc::{AllocError, Global};
use tree::Program;

/// What the nodes of a script cost.
#[derive(Drop)]
pub(crate) struct Weights {
    /// The steps of a walk over it.
    pub(crate) steps: Steps,
    /// A row for each node that has one, and that the walk doesn't pass.
    pub(crate) table: CostTable,
    /// The number of pairs of the whole, where some number spells it.
    pub(crate) total: Option<u32>,
}

/// The steps of a script, its cost table and its total number of pairs.
fn weigh(alloc: Global, program: &Program) -> Result<Weights, AllocError>
    ensures rows { IfOk result (λ w. w.table.rows.items ≡ table_rows program.now script) }
    ensures total { IfOk result (λ w. w.total ≡ capped (least program.now script)) }
    ensures steps { IfOk result (λ w. Steps false script (fixed script) program.now w.steps) }
{
    let pairs = TextPairs { known: None };
    weigh_by_pairs(alloc, program, &pairs)
}

/// Weighs a script where nodes may be passed by the text's pairs: the rows are those that the steps make.
pub(crate) fn weigh_by_pairs(
    alloc: Global,
    program: &Program,
    pairs: &TextPairs,
) -> Result<Weights, AllocError>
    requires { may_pass pairs.now ≡ true → ScriptPassing (pairs_of pairs.now) program.now }
    ensures made { IfOk result (λ w. ScriptSteps (may_pass pairs.now) program.now w.steps w.table.rows.items) }
    ensures total { IfOk result (λ w. w.total ≡ capped (least program.now script)) }
{
    let mut steps = Steps::new(alloc);
    let above = Position::Script;
    let slot = Slot::Fixed(above);
    let context = NodeContext {
        above: &above,
        slot: &slot,
        in_chain: false,
    };
    visit_node(program.finished_root(), context, 0, pairs, &mut steps)?;
    let mut table = CostTable::new(alloc);
    let sums = cost_pass(alloc, &steps, &mut table)?;
    let total = sums.has_in.any;
    Ok(Weights {
        steps,
        table,
        total,
    })
}

/// The plan of a script, from its rows and its total.
fn planned(
    alloc: Global,
    program: &Program,
    weights: Weights,
    total: u32,
) -> Result<Plan, AllocError>
    requires rows { weights.table.rows.items ≡ table_rows program.now script }
    requires steps { Steps false script (fixed script) program.now weights.steps }
    requires few { rows program.now script ≤ 16777216 }
    requires total { Some total ≡ least program.now script }
    ensures { IfOk result (IsPlan program.now) }
{
    let mut table = weights.table;
    table.set_total(total);
    let wraps = wrap_pass(alloc, &weights.steps, &table, table.row_count())?;
    Ok(Plan { table, wraps })
}

/// The plan of a script. Steps and memory grow with the tree.
///
/// # Errors
///
/// `AllocError` where memory is refused.
pub fn plan(alloc: Global, program: &Program) -> Result<Plan, AllocError>
    requires spelled { IsSome (least program.now script) }
    requires few { rows program.now script ≤ 16777216 }
    ensures { IfOk result (IsPlan program.now) }
{
    let weights = weigh(alloc, program)?;
    let total = number(weights.total);
    planned(alloc, program, weights, total)
}

/// The plan of a script that has one: that some number of pairs spells, and that has at most 16,777,216 rows; none of another. Who
/// has a derivation of the script needn't ask.
///
/// # Errors
///
/// `AllocError` where memory is refused.
pub fn plan_if_any(alloc: Global, program: &Program) -> Result<Option<Plan>, AllocError>
    ensures plan { IfOk result (λ made. IfSome made (λ p. HasPlan program.now × IsPlan program.now p)) }
    ensures none { IfOk result (λ made. IfNone made (HasPlan program.now → ⊥)) }
{
    let weights = weigh(alloc, program)?;
    if !is_plannable(weights.total, weights.table.row_count()) {
        return Ok(None);
    }
    let total = number(weights.total);
    let plan = planned(alloc, program, weights, total)?;
    Ok(Some(plan))
}

/// Whether a plan is made: there is a total, and there are at most 16,777,216 rows.
fn is_plannable(total: Option<u32>, row_count: usize) -> bool
    ensures { IsTrue result ↔ (IsSome total × (row_count ≤ 16777216)) }
{
    total.is_some() && row_count <= 16_777_216
}

/// A number that is given.
pub(crate) fn number(given: Option<u32>) -> u32
    ensures { (m : _) → given ≡ Some m → result ≡ m }
{
    match given {
        Some(number) => number,
        None => 0u32,
    }
}
