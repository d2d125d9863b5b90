//! Which node stands in each grouping pair.

ghost use Rattle.std.specs.Prelude.{◌≡◌, ◌<◌, ℕ, suc, cond, length, map, slice_index, IfOk};
ghost use Rattle.spellings.specs.Groupings.{grouping, holds_row, row_starts, row_after, row_at, Passed};

use std::alloc::{AllocError, Global};
use tree::{Pair, Program};

/// A grouping pair, and the row of the node in it.
#[derive(Clone, Copy, Debug, PartialEq, Eq)]
pub struct PairRow {
    /// The offset of its `(`, in bytes.
    pub left: usize,
    /// The offset of its `)`, in bytes.
    pub right: usize,
    /// The number of its node's row, counted from 1; 0 where there is none.
    pub row: usize,
}

/// How far the rows were passed: each row before the index starts at or before the place.
#[derive(Clone, Copy)]
struct Reached {
    place: usize,
    index: usize,
}

/// Each grouping pair of a script with the row of its node: the first row that starts behind the pair's `(`. Steps and memory grow
/// with the tree and the pairs, where these come in order of their `(`.
///
/// # Errors
///
/// `AllocError` where memory is refused.
pub fn pair_rows(
    alloc: Global,
    program: &Program<'_>,
    pairs: &[Pair],
) -> Result<Vec<PairRow>, AllocError>
    ensures { IfOk result (λ found. found.items ≡ map (grouping (row_starts program.now)) pairs.now) }
{
    let starts = starts_by_row(alloc, program)?;
    grouped(alloc, &starts, pairs)
}

/// Where the rows of a script start, by their numbers; 0 behind the last.
fn starts_by_row(alloc: Global, program: &Program<'_>) -> Result<Vec<usize>, AllocError>
    ensures { IfOk result (λ starts. starts.items ≡ row_starts program.now) }
{
    let mut starts = vec![in alloc; 0usize; program.node_count()]?;
    for number in 0..program.node_count() {
        let node = program.node(number);
        set_start(&mut starts, node.row(), node.span().start);
    }
    Ok(starts)
}

/// Sets where a row starts, if a node has one.
fn set_start(starts: &mut Vec<usize>, row: Option<u32>, start: usize)
    ensures length { length starts.new.items ≡ length starts.old.items }
    ensures each { (i : ℕ) → i < length starts.old.items →
        slice_index starts.new.items i ≡ cond (holds_row row (suc i)) start (slice_index starts.old.items i) }
{
    let Some(row) = row else {
        return;
    };
    let row = row as usize;
    if row > 0 && row <= starts.len() {
        starts[row - 1] = start;
    }
}

/// Each pair with the first of the rows, by where they start, that starts behind it.
fn grouped(alloc: Global, starts: &[usize], pairs: &[Pair]) -> Result<Vec<PairRow>, AllocError>
    ensures { IfOk result (λ found. found.items ≡ map (grouping starts.now) pairs.now) }
{
    let mut pair_rows = Vec::with_capacity(alloc, pairs.len())?;
    let mut reached = Reached { place: 0, index: 0 };
    for pair in pairs {
        let index = first_after(starts, resumed(reached, pair.left), pair.left);
        reached = Reached {
            place: pair.left,
            index,
        };
        pair_rows.push(PairRow {
            left: pair.left,
            right: pair.right,
            row: row_number(starts, index),
        })?;
    }
    Ok(pair_rows)
}

/// The index to go on from: the first of all where a place lies before the last one. A script's pairs come in order of their `(`, so
/// the rows are gone over once.
fn resumed(reached: Reached, place: usize) -> usize
    ensures { (starts : _) → Passed starts reached.index reached.place → Passed starts result place }
{
    if place < reached.place {
        return 0;
    }
    reached.index
}

/// The index of the first row that starts behind a place, from an index on; the number of rows where there is none.
fn first_after(starts: &[usize], from: usize, place: usize) -> usize
    requires { Passed starts.now from place }
    ensures passed { Passed starts.now result place }
    ensures row { row_after starts.now place 1 ≡ row_at (length starts.now) result }
{
    for index in from..starts.len() {
        if starts[index] > place {
            return index;
        }
    }
    starts.len()
}

/// The number of the row with an index; 0 where there is none.
fn row_number(starts: &[usize], index: usize) -> usize
    ensures { result ≡ row_at (length starts.now) index }
{
    if index < starts.len() {
        return index + 1;
    }
    0
}
