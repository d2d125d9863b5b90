//! Which nodes are wrapped, from the first step of a walk to the last: from the script inwards.

ghost use Rattle.std.specs.Prelude.{◌≡◌, ◌++◌, [], ◌∷◌, true, false, cond, OnOk, IfOk, drop, slice_get};
ghost use Rattle.language.specs.Layout.{inside as inside_role};
ghost use Rattle.spelling_table.specs.Outlines.{role_of, slot_of};
ghost use Rattle.paren_planner.specs.Steps.{has_row_at, stands_at, others};
ghost use Rattle.paren_planner.specs.Marked.{round, shown_marks, marked, marked_through, at_the_start, flag_at, flag_of, round_at, round_of, rows_after, plain_round, meets as meets_at};
ghost use Rattle.paren_planner.specs.Wrapped.{unwrapped};

use crate::steps::{NodeStep, Step, Steps, bare_outline};
use cost_table::{CostTable, exceeds, is_zero, sum};
use spelling_table::{Position, Requirements, WHOLE, fits, resolve_slot};
use std::alloc::{AllocError, Global};
use wrap_flags::Wraps;

/// Where the steps stand: the position of the innermost open node, as it is with its pair or without, and whether a node in it may be
/// wrapped: all nodes round it are spelled, and what it costs there isn't nothing.
#[derive(Clone, Copy)]
struct WrapContext {
    own: Position,
    may_wrap: bool,
}

/// Which nodes of the rows that were met are wrapped, and the index of the next row in the table, which has no rows of nodes that the walk
/// passes.
#[derive(Drop)]
struct RowFlags {
    wraps: Wraps,
    next_row: usize,
}

impl RowFlags {
    /// Says whether the node of the next row is wrapped.
    fn push(&mut self, table: &CostTable, flag: bool) -> Result<(), AllocError>
        ensures flags { OnOk result (self.new.wraps.flags.items ≡ self.old.wraps.flags.items ++ flag ∷ []) }
        ensures rows { OnOk result (drop self.new.next_row table.now.rows.items ≡ others (drop self.old.next_row table.now.rows.items)) }
    {
        self.wraps.push(flag)?;
        if self.next_row < table.row_count() {
            self.next_row += 1;
        }
        Ok(())
    }

    /// The rows in a node that the walk passes, so many: the table has none of them, and none of their nodes is wrapped.
    fn pass(&mut self, count: u32) -> Result<(), AllocError>
        ensures flags { OnOk result (self.new.wraps.flags.items ≡ self.old.wraps.flags.items ++ unwrapped count) }
        ensures row { self.new.next_row ≡ self.old.next_row }
    {
        self.wraps.push_unwrapped(count)
    }
}

/// Says of each row of a script whether its node is wrapped. `capacity`: how many flags there is room for at first.
pub(crate) fn wrap_pass(
    alloc: Global,
    steps: &Steps,
    table: &CostTable,
    capacity: usize,
) -> Result<Wraps, AllocError>
    ensures { IfOk result (λ wraps. wraps.flags.items ≡ (marked_through steps.now (at_the_start table.now.rows.items)).flags) }
{
    let mut outer = Vec::new(alloc);
    let mut around = WrapContext {
        own: Position::Script,
        may_wrap: true,
    };
    let mut wrapped = RowFlags {
        wraps: Wraps::with_capacity(alloc, capacity)?,
        next_row: 0,
    };
    for index in 0..steps.len() {
        take_step(
            steps.at(index),
            table,
            &mut around,
            &mut outer,
            &mut wrapped,
        )?;
    }
    Ok(wrapped.wraps)
}

/// Takes one step of the walk: chooses for its node, if it has a row, whether it is wrapped.
fn take_step(
    step: &Step,
    table: &CostTable,
    around: &mut WrapContext,
    outer: &mut Vec<WrapContext>,
    wrapped: &mut RowFlags,
) -> Result<(), AllocError>
    ensures { OnOk result (shown_marks table.now.rows.items around.new outer.new.items wrapped.new ≡ marked step.now (shown_marks table.now.rows.items around.old outer.old.items wrapped.old)) }
{
    if !around.may_wrap {
        return pass_step(step, table, around, outer, wrapped);
    }
    match step {
        Step::Free(_, _) => wrapped.push(table, false),
        Step::Passed(count) => wrapped.pass(*count),
        Step::Leaf(visit) => wrap_leaf(visit, table, around.own, wrapped),
        Step::Enter(visit) => {
            outer.push(*around)?;
            wrap_parent(visit, table, around, wrapped)
        }
        Step::Leave => {
            *around = outer.pop().unwrap_or(*around);
            Ok(())
        }
    }
}

/// A step where no node may be wrapped.
fn pass_step(
    step: &Step,
    table: &CostTable,
    around: &mut WrapContext,
    outer: &mut Vec<WrapContext>,
    wrapped: &mut RowFlags,
) -> Result<(), AllocError>
    requires { around.old.may_wrap ≡ false }
    ensures { OnOk result (shown_marks table.now.rows.items around.new outer.new.items wrapped.new ≡ marked step.now (shown_marks table.now.rows.items around.old outer.old.items wrapped.old)) }
{
    match step {
        Step::Free(_, _) => wrapped.push(table, false),
        Step::Passed(count) => wrapped.pass(*count),
        Step::Leaf(visit) => pass_node(visit, table, wrapped),
        Step::Enter(visit) => {
            outer.push(*around)?;
            pass_node(visit, table, wrapped)
        }
        Step::Leave => {
            *around = outer.pop().unwrap_or(*around);
            Ok(())
        }
    }
}

/// A node that isn't wrapped.
fn pass_node(visit: &NodeStep, table: &CostTable, wrapped: &mut RowFlags) -> Result<(), AllocError>
    ensures flags { OnOk result (wrapped.new.wraps.flags.items ≡ wrapped.old.wraps.flags.items ++ cond (has_row_at (slot_of visit.now.slot)) (false ∷ []) []) }
    ensures rows { OnOk result (drop wrapped.new.next_row table.now.rows.items ≡ rows_after visit.now (drop wrapped.old.next_row table.now.rows.items)) }
{
    if !visit.has_row() {
        return Ok(());
    }
    wrapped.push(table, false)
}

/// Says of a node without parts whether it is wrapped, where it has a row.
fn wrap_leaf(
    visit: &NodeStep,
    table: &CostTable,
    own: Position,
    wrapped: &mut RowFlags,
) -> Result<(), AllocError>
    ensures flags { OnOk result (wrapped.new.wraps.flags.items ≡ wrapped.old.wraps.flags.items ++ cond (has_row_at (slot_of visit.now.slot)) (flag_at (slice_get table.now.rows.items wrapped.old.next_row) (stands_at (role_of own) visit.now) visit.now.requirements ∷ []) []) }
    ensures rows { OnOk result (drop wrapped.new.next_row table.now.rows.items ≡ rows_after visit.now (drop wrapped.old.next_row table.now.rows.items)) }
{
    if !visit.has_row() {
        return Ok(());
    }
    let position = resolve_slot(own, visit.slot);
    let wants = wants_pair(visit.requirements, position, table, wrapped.next_row);
    wrapped.push(table, wants)
}

/// Says of a node with parts whether it is wrapped, where it has a row, and what stands around its parts.
fn wrap_parent(
    visit: &NodeStep,
    table: &CostTable,
    around: &mut WrapContext,
    wrapped: &mut RowFlags,
) -> Result<(), AllocError>
    requires { around.old.may_wrap ≡ true }
    ensures around { OnOk result (round around.new ≡ round_of visit.now (round around.old) (slice_get table.now.rows.items wrapped.old.next_row)) }
    ensures flags { OnOk result (wrapped.new.wraps.flags.items ≡ wrapped.old.wraps.flags.items ++ flag_of visit.now (round around.old) (slice_get table.now.rows.items wrapped.old.next_row)) }
    ensures rows { OnOk result (drop wrapped.new.next_row table.now.rows.items ≡ rows_after visit.now (drop wrapped.old.next_row table.now.rows.items)) }
{
    let position = resolve_slot(around.own, visit.slot);
    if !visit.has_row() {
        *around = plain(position, visit.requirements);
        return Ok(());
    }
    let row = wrapped.next_row;
    let wants = wants_pair(visit.requirements, position, table, row);
    wrapped.push(table, wants)?;
    *around = within(wants, position, visit.requirements, table, row);
    Ok(())
}

/// The context inside a node at this position that isn't wrapped.
fn plain(position: Position, requirements: Option<Requirements>) -> WrapContext
    ensures { round result ≡ plain_round (role_of position) requirements }
{
    WrapContext {
        own: position,
        may_wrap: meets(requirements, position),
    }
}

/// What stands around the parts of the node of a row, by the row's index, where it is known whether the node is wrapped.
fn within(
    wants: bool,
    position: Position,
    requirements: Option<Requirements>,
    table: &CostTable,
    row: usize,
) -> WrapContext
    requires { wants ≡ flag_at (slice_get table.now.rows.items row) (role_of position) requirements }
    ensures { round result ≡ round_at (slice_get table.now.rows.items row) (role_of position) requirements }
{
    let own = inside(wants, position);
    WrapContext {
        own,
        may_wrap: row < table.row_count()
            && meets(requirements, own)
            && !is_zero(table.cost_at(row, own)),
    }
}

/// Whether a position meets what a spelling requires, if there is one.
fn meets(requirements: Option<Requirements>, position: Position) -> bool
    ensures { result ≡ meets_at (role_of position) requirements }
{
    match requirements {
        Some(requirements) => fits(position, bare_outline(requirements)),
        None => false,
    }
}

/// The position inside a node, with a pair round it or without.
fn inside(wrapped: bool, position: Position) -> Position
    ensures { role_of result ≡ inside_role wrapped (role_of position) }
{
    if wrapped {
        return WHOLE;
    }
    position
}

/// Whether the node of a row wants a pair round it at a position, by the row's index: where it costs more without one.
fn wants_pair(
    requirements: Option<Requirements>,
    position: Position,
    table: &CostTable,
    row: usize,
) -> bool
    ensures { result ≡ flag_at (slice_get table.now.rows.items row) (role_of position) requirements }
{
    if row >= table.row_count() {
        return false;
    }
    let direct = if meets(requirements, position) {
        table.cost_at(row, position)
    } else {
        None
    };
    exceeds(direct, sum(Some(1u32), table.cost_at(row, WHOLE)))
}
