//! References that match nothing but the empty String.

ghost use Rattle.std.specs.Prelude.{◌≡◌, [], Some, IfOk};
ghost use Rattle.std.specs.Str.{chars};
ghost use Rattle.pattern_analysis.specs.Marks.{marks_of};
ghost use Rattle.pattern_analysis.specs.ReadReferences.{marks_as, reached_as};
ghost use Rattle.pattern_analysis.specs.UselessReferences.{begin, group_count, has_useless_reference, misses};

use crate::frame::{Frame, outermost};
use crate::marks::{Mark, mark_at};
use crate::opening::Opening;
use crate::reached::{Reached, behind};
use regular_expressions::pattern_of;
use std::alloc::{AllocError, Global};
use tokens::char_at;

/// How many groups a mark begins.
fn group_count_of(mark: Mark) -> usize
    ensures { result ≡ group_count (marks_as mark.entry) }
{
    match mark {
        Mark::Opening(Opening::Capturing) => 1,
        _ => 0,
    }
}

/// How many groups of a pattern are numbered.
fn count_groups(text: &str) -> usize
    ensures { result ≡ group_count (marks_of (chars text.now)) }
{
    let mut count = 0;
    let mut in_class = false;
    let mut at = 0;
    while let Some(first) = char_at(text, at) {
        let read = mark_at(text, in_class, first);
        count += group_count_of(read.mark);
        in_class = read.in_class;
        at = read.end;
    }
    count
}

/// Before the first mark.
fn begin() -> Reached
    ensures { reached_as result [] [] ≡ begin }
{
    Reached {
        frame: outermost(),
        count: 0,
        awaited: 0,
    }
}

/// Whether one of the references of a pattern with so many groups matches nothing. The lists are empty, and room for what is read.
fn misses(
    text: &str,
    groups: usize,
    around: &mut Vec<Frame>,
    kept: &mut Vec<usize>,
) -> Result<bool, AllocError>
    requires around { around.old.items ≡ [] }
    requires kept { kept.old.items ≡ [] }
    ensures { IfOk result (λ b. b ≡ misses groups (Some begin) (marks_of (chars text.now))) }
{
    let mut reached = begin();
    let mut in_class = false;
    let mut at = 0;
    while let Some(first) = char_at(text, at) {
        let read = mark_at(text, in_class, first);
        let Some(next) = behind(groups, reached, around, kept, read.mark)? else {
            return Ok(true);
        };
        reached = next;
        in_class = read.in_class;
        at = read.end;
    }
    Ok(false)
}

/// Whether a reference of a literal's pattern matches nothing but the empty String.
///
/// # Errors
/// `AllocError` where memory is refused.
pub fn has_useless_reference(alloc: Global, literal: &str) -> Result<bool, AllocError>
    ensures { IfOk result (λ b. b ≡ has_useless_reference (chars literal.now)) }
{
    let Some(pattern) = pattern_of(literal) else {
        return Ok(false);
    };
    let mut around = Vec::new(alloc);
    let mut kept = Vec::new(alloc);
    let groups = count_groups(pattern.text);
    misses(pattern.text, groups, &mut around, &mut kept)
}
