//! The gaps before and after a parenthesis that goes, as one gap.

use crate::gap::{Part, PartKind, next_part, push_parts};
use std::alloc::AllocError;

/// Puts the gap after a `(` that goes after the parts before it. The blanks after the `(` go with it, line ends too. A comment on a line
/// of its own stays on one.
pub(crate) fn join_over_opening<'s>(
    parts: &mut Vec<Part<'s>>,
    gap: &'s [u8],
) -> Result<(), AllocError> {
    let Some((first, rest)) = next_part(gap) else {
        return Ok(());
    };
    if !first.is_blank() {
        return push_parts(parts, gap);
    }
    if rest.is_empty() {
        return Ok(());
    }
    if first.is_line_end() {
        drop_last_blank(parts);
        parts.push(first.from_line_end())?;
    }
    push_parts(parts, rest)
}

/// Puts the gap after a `)` that goes after the parts before it. The blanks before the `)` go with it, line ends too but for one that
/// ends a comment.
pub(crate) fn join_over_closing<'s>(
    parts: &mut Vec<Part<'s>>,
    gap: &'s [u8],
) -> Result<(), AllocError> {
    let Some(last) = last_part(parts) else {
        return push_parts(parts, gap);
    };
    if !last.is_blank() {
        return push_parts(parts, gap);
    }
    parts.pop();
    match last_part(parts) {
        Some(comment) if comment.is_line_comment() => end_line(parts, last, gap),
        _ => push_parts(parts, gap),
    }
}

/// Puts a gap after a comment that its line ends, with the line end that stood there, or the gap's own where it begins with one.
fn end_line<'s>(
    parts: &mut Vec<Part<'s>>,
    ending: Part<'s>,
    gap: &'s [u8],
) -> Result<(), AllocError> {
    let Some((first, rest)) = next_part(gap) else {
        parts.push(ending)?;
        return Ok(());
    };
    if first.is_line_end() {
        parts.push(first.from_line_end())?;
        return push_parts(parts, rest);
    }
    parts.push(ending)?;
    if first.is_blank() {
        return push_parts(parts, rest);
    }
    push_parts(parts, gap)
}

/// The last part, if there is one.
pub(crate) fn last_part<'s>(parts: &Vec<Part<'s>>) -> Option<Part<'s>> {
    match parts.last() {
        Some(part) => Some(*part),
        None => None,
    }
}

/// The blanks that stand last go.
fn drop_last_blank(parts: &mut Vec<Part>) {
    match last_part(parts) {
        Some(part) if part.is_blank() => {
            parts.pop();
        }
        _ => {}
    }
}

/// Whether a comment that its line ends stands last of the comments.
pub(crate) fn ends_in_line_comment(parts: &[Part]) -> bool {
    let mut is_last = false;
    for part in parts {
        match part.kind {
            PartKind::Blank => {}
            PartKind::LineComment => is_last = true,
            PartKind::BlockComment => is_last = false,
        }
    }
    is_last
}
