//! Whether a text has the comments of another.

ghost use Rattle.std.specs.Prelude.{◌≡◌, ℕ, List, IfOk, IfSome, length, true};
ghost use Rattle.tree.specs.Tree.{Tree};
ghost use Rattle.tree.specs.declared.kind.Pair.{Pair};
ghost use Rattle.unwrapping.specs.Comparing.{BeginsAlike};
ghost use Rattle.unwrapping.specs.Readings.{IsRead, bytes_in, comments_in};
ghost use Rattle.mending.specs.KeptComments.{KeepsComments};
ghost use Rattle.mending.specs.Making.{HasComments};

use source_text::Source;
use std::alloc::{AllocError, Global};
use tree::{Pair, Program};
use unwrapping::{ByteSpan, CommentRow, TreeReading, push_comments, tree_reading};

/// The bytes of a text in a span, if it is within the text.
fn bytes_in(text: &[u8], span: ByteSpan) -> Option<&[u8]>
    ensures { IfSome result (λ bytes. bytes.now ≡ bytes_in text.now span) }
{
    let start = span.start as usize;
    let end = span.end as usize;
    if start <= end && end <= text.len() {
        return Some(&text[start..end]);
    }
    None
}

/// Whether the same bytes are in two spans.
fn are_same(text: &[u8], span: ByteSpan, other: &[u8], other_span: ByteSpan) -> bool
    ensures { result ≡ true → bytes_in text.now span ≡ bytes_in other.now other_span }
{
    let Some(bytes) = bytes_in(text, span) else {
        return false;
    };
    let Some(others) = bytes_in(other, other_span) else {
        return false;
    };
    bytes == others
}

/// Whether the same bytes stand before the first tokens' beginnings: the line of `#!`, or none.
fn begin_alike(
    source: &Source<'_>,
    reading: &TreeReading,
    next: &Source<'_>,
    again: &TreeReading,
) -> bool
    ensures { result ≡ true → BeginsAlike source.now reading.now.start next.now again.now.start }
{
    let line = ByteSpan {
        start: 0,
        end: reading.start,
    };
    let line_again = ByteSpan {
        start: 0,
        end: again.start,
    };
    let (text, text_again) = (source.text(), next.text());
    are_same(text.as_bytes(), line, text_again.as_bytes(), line_again)
}

/// All comments of a text, in order; nothing where what stands between its tokens isn't only blanks and comments.
fn all_comments(
    alloc: Global,
    source: &Source<'_>,
    reading: &TreeReading,
) -> Result<Option<Vec<CommentRow>>, AllocError>
    ensures { IfOk result (λ found. IfSome found (λ comments. HasComments reading.now.start source.now reading.now.tokens.items comments.items)) }
{
    let mut comments = Vec::new(alloc);
    let mut at = reading.start;
    for row in &reading.tokens {
        let span = row.span;
        if !push_comments(source, at, span.start, &mut comments)? {
            return Ok(None);
        }
        at = span.end;
    }
    Ok(Some(comments))
}

/// Whether two texts have the same comments.
fn are_same_comments(
    text: &[u8],
    comments: &[CommentRow],
    other: &[u8],
    others: &[CommentRow],
) -> bool
    ensures { result ≡ true → comments_in text.now comments.now ≡ comments_in other.now others.now }
{
    if comments.len() != others.len() {
        return false;
    }
    for index in 0..others.len() {
        let (comment, like) = (comments[index], others[index]);
        if comment.has_line_end != like.has_line_end {
            return false;
        }
        if !are_same(text, comment.span, other, like.span) {
            return false;
        }
    }
    true
}

/// Whether two texts, by what was read of them, begin alike and have the same comments.
fn have_same_comments(
    alloc: Global,
    source: &Source<'_>,
    reading: &TreeReading,
    next: &Source<'_>,
    again: &TreeReading,
) -> Result<bool, AllocError>
    ensures { IfOk result (λ have. have ≡ true → (n m : Tree) (pairs others : List Pair) → IsRead source.now n pairs reading.now → IsRead next.now m others again.now → KeepsComments source.now n next.now m) }
{
    if !begin_alike(source, reading, next, again) {
        return Ok(false);
    }
    let Some(comments) = all_comments(alloc, source, reading)? else {
        return Ok(false);
    };
    let Some(others) = all_comments(alloc, next, again)? else {
        return Ok(false);
    };
    Ok(are_same_comments(source.bytes(), &comments, next.bytes(), &others))
}

/// Whether the next text has the comments of a text. `again` is the script that was read of it, and `pairs_again` are its grouping pairs.
pub(crate) fn keeps_comments(
    alloc: Global,
    source: &Source<'_>,
    program: &Program<'_>,
    pairs: &[Pair],
    next: &Source<'_>,
    again: &Program<'_>,
    pairs_again: &[Pair],
) -> Result<bool, AllocError>
    ensures { IfOk result (λ keeps. keeps ≡ true → KeepsComments source.now program.now next.now again.now) }
{
    let Some(reading) = tree_reading(alloc, source, program, pairs)? else {
        return Ok(false);
    };
    let Some(reading_again) = tree_reading(alloc, next, again, pairs_again)? else {
        return Ok(false);
    };
    have_same_comments(alloc, source, &reading, next, &reading_again)
}
