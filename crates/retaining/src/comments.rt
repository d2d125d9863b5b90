//! When two comments are the same.

ghost use Rattle.std.specs.Prelude.{◌≡◌, true, map, IfSome};
ghost use Rattle.std.specs.Str.{trim};
ghost use Rattle.std.specs.Str.Lines.{lines};
ghost use Rattle.unwrapping.specs.Readings.{bytes_in, comment_in, comments_in};
ghost use Rattle.retaining.specs.Retains.{begins_with_star, is_starred, comment_lines, all_lines};

use crate::words::are_same;
use unwrapping::{ByteSpan, CommentRow};

/// Whether two lines are the same.
fn are_alike(line: &str, like: &str) -> bool
    ensures { result ≡ true → line.now ≡ like.now }
{
    line.as_bytes() == like.as_bytes()
}

/// Whether two texts have the same lines, CR LF as LF.
fn have_same_lines(text: &str, other: &str) -> bool
    ensures { result ≡ true → lines text.now ≡ lines other.now }
{
    let mut others = other.lines();
    for line in text.lines() {
        let Some(like) = others.next() else {
            return false;
        };
        if !are_alike(line, like) {
            return false;
        }
    }
    match others.next() {
        Some(_) => false,
        None => true,
    }
}

/// Whether two texts have the same lines, but for blanks at their ends.
fn have_same_words(text: &str, other: &str) -> bool
    ensures { result ≡ true → map trim (lines text.now) ≡ map trim (lines other.now) }
{
    let mut others = other.lines();
    for line in text.lines() {
        let Some(like) = others.next() else {
            return false;
        };
        if !are_alike(line.trim(), like.trim()) {
            return false;
        }
    }
    match others.next() {
        Some(_) => false,
        None => true,
    }
}

/// Whether `*` comes first.
fn begins_with_star(line: &[u8]) -> bool
    ensures { result ≡ true → begins_with_star line.now ≡ true }
{
    matches!(line, [b'*', ..])
}

/// Whether each line but the first begins with `*`, blanks aside.
fn is_starred(text: &str) -> bool
    ensures { result ≡ true → is_starred (lines text.now) ≡ true }
{
    let mut lines = text.lines();
    let Some(_first) = lines.next() else {
        return true;
    };
    for line in lines {
        if !begins_with_star(line.trim().as_bytes()) {
            return false;
        }
    }
    true
}

/// The text in a span, if it is within the text.
fn text_in(text: &str, span: ByteSpan) -> Option<&str>
    ensures { IfSome result (λ part. part.now ≡ bytes_in text.now span) }
{
    text.get(span.start as usize..span.end as usize)
}

/// Whether two comments are the same.
fn is_same(text: &str, comment: CommentRow, other: &str, like: CommentRow) -> bool
    ensures { result ≡ true → comment_lines (comment_in text.now comment) ≡ comment_lines (comment_in other.now like) }
{
    if are_same(text.as_bytes(), comment.span, other.as_bytes(), like.span) {
        return true;
    }
    let Some(words) = text_in(text, comment.span) else {
        return false;
    };
    let Some(others) = text_in(other, like.span) else {
        return false;
    };
    if have_same_lines(words, others) {
        return true;
    }
    if !is_starred(words) {
        return false;
    }
    if !is_starred(others) {
        return false;
    }
    have_same_words(words, others)
}

/// Whether two lists have the same comments, in order.
pub(crate) fn are_same_comments(
    text: &str,
    comments: &[CommentRow],
    other: &str,
    others: &[CommentRow],
) -> bool
    ensures { result ≡ true → all_lines (comments_in text.now comments.now) ≡ all_lines (comments_in other.now others.now) }
{
    if comments.len() != others.len() {
        return false;
    }
    for index in 0..others.len() {
        if !is_same(text, comments[index], other, others[index]) {
            return false;
        }
    }
    true
}
