//! The comments in a gap (ECMA-262 11.4).

ghost use Rattle.std.specs.Prelude.{◌≡◌, ◌++◌, true, IfOk};
ghost use Rattle.unwrapping.specs.Keeps.{ends_line};
ghost use Rattle.unwrapping.specs.Readings.{comment_in, comments_in, SaysComments};

use crate::reading::ByteSpan;
use source_text::Source;
use std::alloc::AllocError;
use tokens::{char_at, comment};

/// A comment of a text.
#[derive(Clone, Copy)]
pub struct CommentRow {
    pub span: ByteSpan,
    /// Whether a line terminator is in it.
    pub has_line_end: bool,
}

/// Adds the comments between two places of a text, in bytes, and says whether all that stands there was passed.
///
/// # Errors
///
/// `AllocError` where memory is refused.
pub fn push_comments(
    source: &Source<'_>,
    at: u32,
    stop: u32,
    comments: &mut Vec<CommentRow>,
) -> Result<bool, AllocError>
    ensures { IfOk result (λ passed. passed ≡ true → SaysComments source.now at stop comments.old.items comments.new.items) }
{
    if at == stop {
        return Ok(true);
    }
    let text = source.text();
    let stop = stop as usize;
    let mut place = at as usize;
    if !text.is_char_boundary(place) {
        return Ok(false);
    }
    while place < stop {
        let Some(step) = char_at(text, place) else {
            return Ok(false);
        };
        if step.c != '/' {
            place = step.end;
            continue;
        }
        let Some(comment) = comment(text, step.end) else {
            return Ok(false);
        };
        comments.push(CommentRow {
            span: ByteSpan::of(place, comment.end),
            has_line_end: comment.has_line_break,
        })?;
        place = comment.end;
    }
    if place != stop {
        return Ok(false);
    }
    Ok(true)
}

/// Whether a line ends in a comment or right after it.
pub(crate) fn ends_line(text: &[u8], comment: CommentRow) -> bool
    ensures { result ≡ true → ends_line (comment_in text.now comment) ≡ true }
{
    if comment.has_line_end {
        return true;
    }
    matches!(comment.span.bytes_in(text), Some([b'/', b'/', ..]))
}
