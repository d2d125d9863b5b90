//! Rows beside their nodes, in one walk from the root: what each may say at most, and what it says.

ghost use Rattle.std.specs.Prelude.{◌≡◌, ◌+◌, ◌≤◌, ◌<◌, suc, true, [], ◌∷◌, ◌++◌, map, slice_get, IfSome};
ghost use Rattle.tree.specs.Node.{node_tree};
ghost use Rattle.tree.specs.Tree.{parts_of, kind_of};
ghost use Rattle.language.specs.Expressions.{has_optional, first_has_optional};
ghost use Rattle.language.specs.RowPositions.{rows, parts_rows, first_roles, widest as widest_role};
ghost use Rattle.language.specs.Claims.{Table};
ghost use Rattle.language.specs.Pieces.{Role};
ghost use Rattle.language.specs.Grammar.{ways};
ghost use Rattle.spelling_table.specs.Outlines.{role_of};
ghost use Rattle.spellings.specs.Remaining.{left};
ghost use Rattle.spellings.specs.Spelled.{settled_roles};
ghost use Rattle.spellings.specs.Wherever.{spelled_by};
ghost use Rattle.language.specs.declared.Rank.TheVariants.{Primary};
ghost use Rattle.cost_table.specs.Rows.{is_expression};
ghost use Rattle.cost_table.specs.Tables.{table_of};
ghost use Rattle.cost_table.specs.Costs.{eight};
ghost use Rattle.cost_table.specs.Weighed.{role_free};
ghost use Rattle.cost_certificate.specs.Checked.{shown_any};
ghost use Rattle.cost_certificate.specs.Faults.{row_fault};
ghost use Rattle.cost_certificate.specs.Walked.{IsPassed, IsBelow, Matched, cells_fault, IsInside, IsBounded, IsFreeLeaf, direct_bounds, bounds_over, inside_of, weight_of, of_symbol as symbol_alone, wide_nodes, parts_wide_nodes};

use crate::cells::{row_at, row_costs, some_is_above, some_lacks};
use crate::check::BadTable;
use crate::types::same_type;
use crate::weighed::{Weighed, weigh_inside, with_part};
use cost_table::{CostTable, Costs, NodeCosts, widest};
use language::Rank;
use source_text::Reason;
use spelling_table::{FirstToken, Outline, Position, Production, resolve_slot};
use spellings::{SlotCursor, holds_chain, is_leaf, leads_chain, node_production};
use tree::{Kind, Node};

/// What was found of rows, from one on.
#[derive(Clone, Copy)]
pub(crate) struct RowCheck {
    /// The index of the row behind them, counted from 0.
    pub next: usize,
    /// The index of the first of them that is missing or of another type.
    pub misshapen: Option<usize>,
    /// The first fault of a cell.
    pub fault: Option<BadTable>,
}

/// A node with the rows in it.
#[derive(Clone, Copy)]
pub(crate) struct CheckedNode {
    /// What it costs at any position, by the table.
    pub weighed: Weighed,
    pub passed: RowCheck,
}

/// The sums over the parts of a node, with the rows in them.
#[derive(Clone, Copy)]
struct CheckedParts {
    sums: Costs,
    passed: RowCheck,
}

/// Judges the rows of a node at a position. `in_chain`: the node is known to be part of a chain, with a `?.` in it or below it.
#[cycle(judging)]
pub(crate) fn check_node(
    node: Node,
    position: Position,
    in_chain: bool,
    table: &CostTable,
    index: usize,
) -> CheckedNode
    requires chain { in_chain ≡ true → has_optional (node_tree node) ≡ true }
    requires few { index + rows (node_tree node) (role_of position) ≤ 16777216 }
    ensures bounds { IsBounded (table_of table.now.rows.items table.now.total) (role_of position) (node_tree node.entry) (suc index) (weight_of result.weighed) }
    ensures passed { IsPassed (table_of table.now.rows.items table.now.total) (wide_nodes (node_tree node.entry) (role_of position)) index result.passed }
{
    if !has_row(position) {
        return check_inside(node, position, in_chain, table, index);
    }
    let inside = check_inside(node, position, in_chain, table, index + 1);
    if let Weighed::Free(rank) = inside.weighed {
        if table.is_free_row(index, node.kind(), rank) {
            return inside;
        }
    }
    check_row(node, &inside, table, index)
}

/// Checks a node without a row of its own.
#[cycle(judging)]
fn check_inside(
    node: Node,
    position: Position,
    in_chain: bool,
    table: &CostTable,
    index: usize,
) -> CheckedNode
    requires chain { in_chain ≡ true → has_optional (node_tree node) ≡ true }
    requires few { index + parts_rows (parts_of (node_tree node)) (first_roles (ways (widest_role (role_of position)) (node_tree node))) ≤ 16777216 }
    ensures bounds { IsInside (table_of table.now.rows.items table.now.total) (role_of position) (node_tree node.entry) (suc index) (inside_of (widest_role (role_of position)) result.weighed) }
    ensures passed { IsPassed (table_of table.now.rows.items table.now.total) (parts_wide_nodes (parts_of (node_tree node.entry)) (first_roles (ways (widest_role (role_of position)) (node_tree node.entry)))) index result.passed }
{
    let own = widest(position);
    let Some(production) = node_production(node, own, in_chain) else {
        return CheckedNode {
            weighed: Weighed::Any(NodeCosts {
                outline: None,
                costs: Costs::same(None),
            }),
            passed: passed_none(index),
        };
    };
    let summed = check_parts(node, own, production, table, index);
    CheckedNode {
        weighed: weigh_inside(own, production, summed.sums),
        passed: summed.passed,
    }
}

/// Judges the rows in the parts of a node, and adds up what they cost in it.
#[cycle(judging)]
#[tactic(auto, using(tree::proofs::PartWalk::part_steps))]
fn check_parts(
    node: Node,
    own: Position,
    production: Production,
    table: &CostTable,
    index: usize,
) -> CheckedParts
    requires chain { (spelled_by node own production).holds_chain ≡ true → first_has_optional (parts_of (node_tree node)) ≡ true }
    requires few { index + parts_rows (parts_of (node_tree node)) (settled_roles (role_of own) (left (spelled_by node own production).slots)) ≤ 16777216 }
    ensures sums { result.sums ≡ bounds_over (table_of table.now.rows.items table.now.total) (parts_of (node_tree node.entry)) (role_of own) (left (spelled_by node.entry own production).slots) (suc index) }
    ensures passed { IsPassed (table_of table.now.rows.items table.now.total) (parts_wide_nodes (parts_of (node_tree node.entry)) (settled_roles (role_of own) (left (spelled_by node.entry own production).slots))) index result.passed }
{
    let is_chain = holds_chain(own, node.kind(), production);
    let parts = node.parts();
    let mut slots = SlotCursor::new(production);
    let mut sums = Costs::same(Some(0u32));
    let mut passed = passed_none(index);
    for place in 0..parts.len() {
        let Some(part) = parts.get(place) else {
            continue;
        };
        let Some(slot) = slots.take(parts, part, place) else {
            return CheckedParts {
                sums: Costs::same(None),
                passed,
            };
        };
        let position = resolve_slot(own, slot);
        if let Some(next) = behind_free_leaf(part, position, table, passed.next) {
            passed.next = next;
            continue;
        }
        let in_chain = leads_chain(is_chain, place);
        let judged = check_node(part, position, in_chain, table, passed.next);
        sums = with_part(sums, own, slot, &judged.weighed);
        passed = joined(passed, judged.passed);
    }
    CheckedParts { sums, passed }
}

/// The index behind the row of a name or a literal that is seen at once to cost nothing; a row says so by zeros alone, and where there is
/// none, the index stays. None where more has to be looked at.
fn behind_free_leaf(
    node: Node,
    position: Position,
    table: &CostTable,
    index: usize,
) -> Option<usize>
    requires { index ≤ 16777216 }
    ensures { IfSome result (λ next. IsFreeLeaf (table_of table.now.rows.items table.now.total) (role_of position) (node_tree node.entry) index next) }
{
    if !is_leaf(node, position) {
        return None;
    }
    if !has_row(position) {
        return Some(index);
    }
    if !takes_leaf(position) {
        return None;
    }
    if table.is_free_row(index, node.kind(), Rank::Primary) {
        return Some(index + 1);
    }
    None
}

/// Whether a name or a literal may stand at a position without a pair round it.
fn takes_leaf(position: Position) -> bool
    ensures { result ≡ role_free (role_of position) Primary }
{
    match position {
        Position::Expression { rank, .. } => !matches!(rank, Rank::Grouped),
        _ => true,
    }
}

/// Judges the row of a node at an expression's position, by what the node costs without it.
#[inline(never)]
fn check_row(node: Node, inside: &CheckedNode, table: &CostTable, index: usize) -> CheckedNode
    requires { index < 16777216 }
    ensures bounds { (a : Role) → is_expression a ≡ true → IsInside (table_of table.now.rows.items table.now.total) a (node_tree node.entry) (suc (index + 1)) (inside_of (widest_role a) inside.now.weighed) → IsBounded (table_of table.now.rows.items table.now.total) a (node_tree node.entry) (suc index) (weight_of result.weighed) }
    ensures passed { (a : Role) (ns : _) → is_expression a ≡ true → IsInside (table_of table.now.rows.items table.now.total) a (node_tree node.entry) (suc (index + 1)) (inside_of (widest_role a) inside.now.weighed) → IsPassed (table_of table.now.rows.items table.now.total) ns (index + 1) inside.now.passed → IsPassed (table_of table.now.rows.items table.now.total) (node_tree node.entry ∷ ns) index result.passed }
{
    let weighed = inside.weighed.costs();
    let row = row_at(table, index);
    let costs = row_costs(row);
    let own = RowCheck {
        next: index + 1,
        misshapen: misshapen(node, row, index),
        fault: fault(costs, weighed.costs, index),
    };
    CheckedNode {
        weighed: Weighed::Any(NodeCosts {
            outline: of_symbol(weighed.outline),
            costs,
        }),
        passed: joined(own, inside.passed),
    }
}

/// No rows.
fn passed_none(index: usize) -> RowCheck
    ensures next { result.next ≡ index }
    ensures passed { (t : _) → IsPassed t [] index result }
{
    RowCheck {
        next: index,
        misshapen: None,
        fault: None,
    }
}

/// Of rows and those behind them.
fn joined(first: RowCheck, second: RowCheck) -> RowCheck
    ensures next { result.next ≡ second.next }
    ensures passed { (t xs ys r : _) → IsPassed t xs r first → IsPassed t ys first.next second → IsPassed t (xs ++ ys) r result }
{
    RowCheck {
        next: second.next,
        misshapen: first.misshapen.or(second.misshapen),
        fault: first.fault.or(second.fault),
    }
}

/// Whether the node has a row at a position.
fn has_row(position: Position) -> bool
    ensures { result ≡ is_expression (role_of position) }
{
    matches!(position, Position::Expression { .. })
}

/// The index, where the row is missing or of another type than the node.
fn misshapen(node: Node, row: Option<(Kind, [Option<u32>; 8])>, index: usize) -> Option<usize>
    requires { index < 16777216 }
    ensures matched { (t : Table) → row ≡ slice_get t.rows index → Matched (map (λ x. x.0) t.rows) (kind_of (node_tree node.entry) ∷ []) index result (index + 1) }
    ensures within { IsBelow result (index + 1) }
{
    if let Some((kind, _)) = row {
        if same_type(kind, node.kind()) {
            return None;
        }
    }
    Some(index)
}

/// What is wrong with a row, by its cells and their bounds.
fn fault(cells: Costs, bounds: Costs, index: usize) -> Option<BadTable>
    requires { index < 16777216 }
    ensures { shown_any result ≡ cells_fault (eight cells) (eight bounds) (suc index) }
{
    let reason = if some_lacks(cells, bounds) {
        Reason::None
    } else if some_is_above(cells, bounds) {
        Reason::High
    } else {
        return None;
    };
    Some(BadTable {
        row: (index + 1) as u32,
        reason,
    })
}

/// The outline of which the symbol alone counts.
fn of_symbol(outline: Option<Outline>) -> Option<Outline>
    ensures { result ≡ symbol_alone outline }
{
    match outline {
        Some(outline) => Some(Outline {
            needs_in: false,
            opens: FirstToken::Other,
            ..outline
        }),
        None => None,
    }
}
