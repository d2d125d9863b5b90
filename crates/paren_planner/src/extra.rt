//! Which grouping pairs of a text are extra, by which nodes of its script are wrapped.

ghost use Rattle.std.specs.Prelude.{◌≡◌, ◌+◌, ◌<◌, length, drop, IfOk};
ghost use Rattle.paren_planner.specs.Extra.{extra_spans, is_innermost as is_innermost_of, span_of};

use spellings::PairRow;
use std::alloc::{AllocError, Global};
use tree::Span;
use wrap_flags::Wraps;

/// The extra ones of a script's grouping pairs, in their order, each from its `(` to behind its `)`: of each node's pairs the
/// innermost is needed where the node is wrapped, and all others are extra. Of each row, in order, the flags say whether its node is
/// wrapped. The pairs of a node stand one behind another, the innermost last.
///
/// # Errors
///
/// `AllocError` where memory is refused.
pub fn extra_pairs(
    alloc: Global,
    groupings: &[PairRow],
    wraps: &Wraps,
) -> Result<Vec<Span>, AllocError>
    ensures { IfOk result (λ found. found.items ≡ extra_spans wraps.now.flags.items groupings.now) }
{
    let mut spans = Vec::new(alloc);
    for index in 0..groupings.len() {
        let grouping = groupings[index];
        let needed = is_innermost(groupings, index) && wraps.is_wrapped(grouping.row);
        if !needed {
            spans.push(span(grouping))?;
        }
    }
    Ok(spans)
}

/// Whether the pair at a place is the innermost of its node: the next pair, if there is one, stands round another.
fn is_innermost(groupings: &[PairRow], index: usize) -> bool
    requires { index < length groupings.now }
    ensures { result ≡ is_innermost_of (drop index groupings.now) }
{
    let row = groupings[index].row;
    match groupings.get(index + 1) {
        Some(next) => next.row != row,
        None => true,
    }
}

/// From a pair's `(` to behind its `)`, in bytes.
fn span(grouping: PairRow) -> Span
    ensures { result ≡ span_of grouping }
{
    Span {
        start: grouping.left,
        end: grouping.right.saturating_add(1),
    }
}
