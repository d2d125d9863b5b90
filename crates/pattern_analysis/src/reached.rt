//! What was read of a pattern, mark by mark, as far as references ask for it.

ghost use Rattle.std.specs.Prelude.{◌≡◌, ◌++◌, ◌∷◌, ◌+◌, ◌<◌, ◌≤◌, ◌^◌, Some, reverse, IfOk, IfSome};
ghost use Rattle.std.specs.List.Sorted.{IsNonDecreasing};
ghost use Rattle.regular_expressions.specs.Terms.{decimal_value};
ghost use Rattle.pattern_analysis.specs.UselessReferences.{awaiting, barred, captured, closed, in_frame, is_missed, kept_behind, misses, opened, referred};
ghost use Rattle.pattern_analysis.specs.ReadReferences.{IsFront, IsInOrder, marks_as, reached_as, reached_if};

use crate::frame::{Frame, holding};
use crate::kept::{is_among, keep_up_to};
use crate::marks::Mark;
use crate::opening::Opening;
use regular_expressions::number_within;
use std::alloc::AllocError;

/// What was read, but for two lists: the frames around, from the outermost on, and the groups that stand in no negative lookaround that
/// ended, in order.
#[derive(Clone, Copy)]
pub(crate) struct Reached {
    /// The frame that is read.
    pub frame: Frame,
    /// How many groups began.
    pub count: usize,
    /// The last group that a reference in a lookbehind waits for.
    pub awaited: usize,
}

/// Whether a reference misses a group that began, by the innermost frame in which that stands.
fn is_missed(number: usize, frame: Frame, kept: &[usize]) -> bool
    ensures { IsNonDecreasing kept.now → result ≡ is_missed number frame kept.now }
{
    number <= frame.since || frame.is_backward || !is_among(number, kept)
}

/// A reference waits for a group that didn't begin.
fn awaiting(reached: Reached, number: usize) -> Reached
    ensures next { (around : _) (kept : _) → reached_as result around kept ≡ awaiting (reached_as reached around kept) number }
    ensures frame { result.frame ≡ reached.frame }
    ensures count { result.count ≡ reached.count }
{
    let awaited = if number <= reached.awaited {
        reached.awaited
    } else {
        number
    };
    Reached {
        frame: reached.frame,
        count: reached.count,
        awaited,
    }
}

/// Behind a reference to one of the groups; none where it misses it.
fn referred(
    groups: usize,
    reached: Reached,
    around: &[Frame],
    kept: &[usize],
    digits: &str,
) -> Option<Reached>
    ensures next { IsInOrder reached.frame reached.count around.now kept.now → reached_if result (reverse around.now) kept.now ≡ referred groups (reached_as reached (reverse around.now) kept.now) (decimal_value 0 digits.now) }
    ensures frame { IfSome result (λ z. z.frame ≡ reached.frame) }
    ensures count { IfSome result (λ z. z.count ≡ reached.count) }
{
    let Some(number) = number_within(digits, groups) else {
        return Some(reached);
    };
    if number <= reached.count {
        if is_missed(number, holding(number, reached.frame, around), kept) {
            return None;
        }
        return Some(reached);
    }
    if !reached.frame.in_lookbehind {
        return None;
    }
    Some(awaiting(reached, number))
}

/// Forgets the groups of a frame that ends, if it is a negative lookaround.
fn forget(frame: Frame, kept: &mut Vec<usize>)
    ensures same { IsNonDecreasing kept.old.items → kept.new.items ≡ kept_behind frame kept.old.items }
    ensures front { IsFront kept.new.items kept.old.items }
{
    if frame.is_negative {
        keep_up_to(frame.first, kept);
    }
}

/// Behind a `)`; none where a reference waits for a group that comes later still.
fn closed(reached: Reached, around: &mut Vec<Frame>, kept: &mut Vec<usize>) -> Option<Reached>
    ensures next { IsInOrder reached.frame reached.count around.old.items kept.old.items → reached_if result (reverse around.new.items) kept.new.items ≡ closed (reached_as reached (reverse around.old.items) kept.old.items) (reverse around.old.items) }
    ensures order { IfSome result (λ z. IsInOrder reached.frame reached.count around.old.items kept.old.items → IsInOrder z.frame z.count around.new.items kept.new.items) }
    ensures count { IfSome result (λ z. z.count ≡ reached.count) }
{
    let Some(outer) = around.pop() else {
        return Some(reached);
    };
    if !outer.in_lookbehind && reached.count < reached.awaited {
        return None;
    }
    forget(reached.frame, kept);
    Some(Reached {
        frame: outer,
        count: reached.count,
        awaited: reached.awaited,
    })
}

/// In a frame that begins.
fn opened(reached: Reached, frame: Frame, around: &mut Vec<Frame>) -> Result<Reached, AllocError>
    ensures next { IfOk result (λ r. (kept : _) → reached_as r (reverse around.new.items) kept ≡ opened (reached_as reached (reverse around.old.items) kept) frame) }
    ensures order { IfOk result (λ r. (kept : _) → IsInOrder reached.frame reached.count around.old.items kept → reached.frame.first ≤ frame.first → frame.first ≤ reached.count → IsInOrder r.frame r.count around.new.items kept) }
    ensures count { IfOk result (λ r. r.count ≡ reached.count) }
{
    around.push(reached.frame)?;
    Ok(Reached {
        frame,
        count: reached.count,
        awaited: reached.awaited,
    })
}

/// In a group that begins and is numbered.
fn captured(
    reached: Reached,
    around: &mut Vec<Frame>,
    kept: &mut Vec<usize>,
) -> Result<Reached, AllocError>
    requires { reached.count + 1 < 2 ^ 64 }
    ensures next { IfOk result (λ r. reached_as r (reverse around.new.items) kept.new.items ≡ captured (reached_as reached (reverse around.old.items) kept.old.items)) }
    ensures order { IfOk result (λ r. IsInOrder reached.frame reached.count around.old.items kept.old.items → IsInOrder r.frame r.count around.new.items kept.new.items) }
    ensures count { IfOk result (λ r. r.count ≡ reached.count + 1) }
{
    let number = reached.count + 1;
    kept.push(number)?;
    let frame = reached.frame.group(reached.count, number);
    let numbered = Reached {
        frame: reached.frame,
        count: number,
        awaited: reached.awaited,
    };
    opened(numbered, frame, around)
}

/// In a frame that begins with a `(`.
fn in_frame(
    reached: Reached,
    around: &mut Vec<Frame>,
    kept: &mut Vec<usize>,
    opening: Opening,
) -> Result<Reached, AllocError>
    requires { reached.count + 1 < 2 ^ 64 }
    ensures next { IfOk result (λ r. reached_as r (reverse around.new.items) kept.new.items ≡ in_frame (reached_as reached (reverse around.old.items) kept.old.items) opening) }
    ensures order { IfOk result (λ r. IsInOrder reached.frame reached.count around.old.items kept.old.items → IsInOrder r.frame r.count around.new.items kept.new.items) }
    ensures count { IfOk result (λ r. r.count ≤ reached.count + 1) }
{
    let frame = reached.frame;
    let count = reached.count;
    match opening {
        Opening::Capturing => captured(reached, around, kept),
        Opening::Grouping => opened(reached, frame.group(count, count), around),
        Opening::Lookahead(is_negative) => {
            opened(reached, frame.lookaround(count, false, is_negative), around)
        }
        Opening::Lookbehind(is_negative) => {
            opened(reached, frame.lookaround(count, true, is_negative), around)
        }
    }
}

/// In the next alternative.
fn barred(reached: Reached) -> Reached
    ensures next { (around : _) (kept : _) → reached_as result around kept ≡ barred (reached_as reached around kept) }
    ensures first { result.frame.first ≡ reached.frame.first }
    ensures count { result.count ≡ reached.count }
{
    Reached {
        frame: Frame {
            since: reached.count,
            ..reached.frame
        },
        count: reached.count,
        awaited: reached.awaited,
    }
}

/// Behind a mark; none where a reference misses one of the groups.
pub(crate) fn behind(
    groups: usize,
    reached: Reached,
    around: &mut Vec<Frame>,
    kept: &mut Vec<usize>,
    mark: Mark,
) -> Result<Option<Reached>, AllocError>
    requires { reached.count + 1 < 2 ^ 64 }
    ensures next { IfOk result (λ r. IsInOrder reached.frame reached.count around.old.items kept.old.items → (marks : _) → misses groups (Some (reached_as reached (reverse around.old.items) kept.old.items)) (marks_as mark.entry ++ marks) ≡ misses groups (reached_if r (reverse around.new.items) kept.new.items) marks) }
    ensures order { IfOk result (λ r. IfSome r (λ z. IsInOrder reached.frame reached.count around.old.items kept.old.items → IsInOrder z.frame z.count around.new.items kept.new.items)) }
    ensures count { IfOk result (λ r. IfSome r (λ z. z.count ≤ reached.count + 1)) }
{
    match mark {
        Mark::Nothing => Ok(Some(reached)),
        Mark::Opening(opening) => Ok(Some(in_frame(reached, around, kept, opening)?)),
        Mark::Closing => Ok(closed(reached, around, kept)),
        Mark::Bar => Ok(Some(barred(reached))),
        Mark::Reference(digits) => Ok(referred(groups, reached, around, kept, digits)),
    }
}
