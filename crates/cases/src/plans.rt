//! The plan of a script, and its extra pairs.

ghost use Rattle.std.specs.Prelude.{◌≡◌, ◌≤◌, length, true};

use crate::gauge::Gauge;
use crate::refusals::push_fault;
use cost_certificate::{read_table, write_table};
use cost_table::CostTable;
use paren_planner::{Plan, extra_pairs, plan_if_any};
use source_text::MAX_PIECE;
use spellings::{PairRow, pair_rows};
use std::alloc::{AllocError, Global};
use tree::{Kind, Pair, Program, Span};

/// A cell's number; `-` where it has none.
fn push_cell(out: &mut String, cell: Option<u32>) -> Result<(), AllocError> {
    match cell {
        Some(number) => write!(out, "{number}"),
        None => out.push_str("-"),
    }
}

/// The kind of a row, and its cells.
fn push_row(out: &mut String, kind: Kind, cells: [Option<u32>; 8]) -> Result<(), AllocError> {
    write!(out, "{kind:?} ")?;
    for cell in cells.iter() {
        push_cell(out, *cell)?;
    }
    Ok(())
}

/// The rows of a plan, and which of them are wrapped.
fn push_rows(out: &mut String, table: &CostTable, plan: &Plan) -> Result<(), AllocError> {
    for index in 0..table.row_count() {
        let (kind, cells) = table.row(index + 1);
        push_row(out, kind, cells)?;
        out.push_str(match plan.wrapped(index + 1) {
            true => " wrapped, ",
            false => ", ",
        })?;
    }
    Ok(())
}

/// The rows of a plan, and its total.
fn push_whole(plan: &Plan, out: &mut String) -> Result<(), AllocError> {
    push_rows(out, plan.table(), plan)?;
    write!(out, "total {}", plan.total())
}

/// The plan of a script, if it has one.
pub(crate) fn push_plan(
    alloc: Global,
    program: &Program,
    out: &mut String,
) -> Result<(), AllocError> {
    match plan_if_any(alloc, program)? {
        Some(plan) => push_whole(&plan, out),
        None => Ok(()),
    }
}

/// Whether a table has no more rows than any text may say.
fn is_short(table: &CostTable) -> bool
    ensures { result ≡ true → length table.now.rows.items ≤ 16777216 }
{
    table.row_count() <= 16_777_216
}

/// How many bytes the text of a script's table has, and whether no piece of it that is written has more than 4,096.
pub(crate) fn push_gauged_table(
    alloc: Global,
    program: &Program,
    out: &mut String,
) -> Result<(), AllocError> {
    let mut writer = Gauge::new();
    match plan_if_any(alloc, program)? {
        Some(plan) if is_short(plan.table()) => {
            let written = write_table(program, plan.table(), &mut writer);
            write!(
                out,
                "{:?}",
                (written, writer.bytes, writer.most <= MAX_PIECE)
            )
        }
        _ => Ok(()),
    }
}

/// How many rows the table of a text has, and its total.
pub(crate) fn push_read_table(
    alloc: Global,
    text: &str,
    out: &mut String,
) -> Result<(), AllocError> {
    match read_table(alloc, text.as_bytes()) {
        Ok(table) => write!(out, "{:?}", (table.row_count(), table.total())),
        Err(fault) => push_fault(fault, out),
    }
}

/// A table with one row.
fn table(alloc: Global) -> Result<CostTable, AllocError> {
    let mut table = CostTable::new(alloc);
    let (zero, one, two) = (Some(0u32), Some(1u32), Some(2u32));
    let cells = [zero, None, None, one, None, two, None, None];
    table.push_row(Kind::ObjectExpression, cells)?;
    table.set_total(7u32);
    Ok(table)
}

/// Adds how many rows a table has, its total, and its first row.
fn push_held(table: &CostTable, out: &mut String) -> Result<(), AllocError> {
    write!(out, "{:?} ", (table.row_count(), table.total()))?;
    if table.row_count() == 0 {
        return Ok(());
    }
    let (kind, cells) = table.row(1);
    push_row(out, kind, cells)
}

/// What it holds: how many rows, the total, and the first row.
pub(crate) fn push_table(alloc: Global, out: &mut String) -> Result<(), AllocError> {
    let table = table(alloc)?;
    push_held(&table, out)
}

/// Grouping pairs by their `(` and `)`, with the rows of their nodes.
fn push_groups(out: &mut String, groups: &[PairRow]) -> Result<(), AllocError> {
    for group in groups {
        write!(out, "{}-{} of {}, ", group.left, group.right, group.row)?;
    }
    Ok(())
}

/// Extra pairs, from where to where.
fn push_spans(out: &mut String, spans: &[Span]) -> Result<(), AllocError> {
    for span in spans {
        write!(out, " {}-{}", span.start, span.end)?;
    }
    Ok(())
}

/// Which of these pairs are extra; none where the script has no plan.
pub(crate) fn spans_of(
    alloc: Global,
    program: &Program,
    groups: &[PairRow],
) -> Result<Vec<Span>, AllocError> {
    match plan_if_any(alloc, program)? {
        Some(plan) => extra_pairs(alloc, groups, plan.wraps()),
        None => Ok(Vec::new(alloc)),
    }
}

/// Adds rows of grouping pairs, and the spans of extra ones.
fn push_both(groups: &[PairRow], spans: &[Span], out: &mut String) -> Result<(), AllocError> {
    push_groups(out, groups)?;
    out.push_str("extra")?;
    push_spans(out, spans)
}

/// Grouping pairs, and which of them are extra.
pub(crate) fn push_extra(
    alloc: Global,
    program: &Program,
    pairs: &[Pair],
    out: &mut String,
) -> Result<(), AllocError> {
    let groups = pair_rows(alloc, program, pairs)?;
    let spans = spans_of(alloc, program, &groups)?;
    push_both(&groups, &spans, out)
}

/// The pair of places that a word names.
fn pair(word: &str) -> Pair {
    let (left, right) = word.split_once('-').unwrap_or(("", ""));
    Pair {
        left: left.parse::<usize>().unwrap_or(0),
        right: right.parse::<usize>().unwrap_or(0),
    }
}

/// Pairs that are written down, which the script needn't have, and which of them are extra.
pub(crate) fn push_extra_pairs(
    alloc: Global,
    program: &Program,
    words: &str,
    out: &mut String,
) -> Result<(), AllocError> {
    let mut pairs = Vec::new(alloc);
    for word in words.split(' ') {
        pairs.push(pair(word))?;
    }
    push_extra(alloc, program, &pairs, out)
}
