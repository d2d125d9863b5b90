//! What a text's tokens and comments are by its tree, and whether another text keeps them.

use crate::case::Case;
use crate::refusals::push_refusal;
use parser::{Parsed, parse};
use retaining::retains;
use source_text::{Fault, Source};
use std::alloc::{AllocError, Global};
use tree::TextArena;
use unwrapping::{CommentRow, TreeReading, keeps, push_comments, tree_reading};

/// A script's tokens, the end of the text among them, and its comments.
pub(crate) fn push_reading(
    alloc: Global,
    parsed: &Parsed,
    text: &str,
    out: &mut String,
) -> Result<(), AllocError> {
    match reading_of(alloc, parsed, text) {
        Ok(Some(reading)) => {
            push_rows(&reading, out)?;
            push_comment_spans(alloc, &reading, text, out)
        }
        Ok(None) => out.push_str("no reading"),
        Err(fault) => push_refusal(text, fault, out),
    }
}

/// How a script's tree reads its text, if it tells.
fn reading_of(alloc: Global, parsed: &Parsed, text: &str) -> Result<Option<TreeReading>, Fault> {
    let source = Source::new(text.as_bytes())?;
    match tree_reading(alloc, &source, parsed.program(), parsed.grouping_pairs()) {
        Ok(reading) => Ok(reading),
        Err(AllocError) => Err(Fault::OutOfMemory),
    }
}

/// Where each token stands, `+` before one that is a postfix operator, `(` before a grouping parenthesis.
fn push_rows(reading: &TreeReading, out: &mut String) -> Result<(), AllocError> {
    for token in &reading.tokens {
        out.push_str(if token.is_postfix { " +" } else { " " })?;
        out.push_str(if token.is_grouping { "(" } else { "" })?;
        write!(out, "{}..{}", token.span.start, token.span.end)?;
    }
    Ok(())
}

/// Where each comment before a token stands.
fn push_comment_spans(
    alloc: Global,
    reading: &TreeReading,
    text: &str,
    out: &mut String,
) -> Result<(), AllocError> {
    match comments_of(alloc, reading, text) {
        Ok(comments) => push_spans(&comments, out),
        Err(fault) => push_refusal(text, fault, out),
    }
}

/// The comments before the tokens of a text.
fn comments_of(alloc: Global, reading: &TreeReading, text: &str) -> Result<Vec<CommentRow>, Fault> {
    let source = Source::new(text.as_bytes())?;
    let mut comments = Vec::new(alloc);
    let mut at = 0;
    for token in &reading.tokens {
        match push_comments(&source, at, token.span.start, &mut comments) {
            Ok(_) => at = token.span.end,
            Err(AllocError) => return Err(Fault::OutOfMemory),
        }
    }
    Ok(comments)
}

/// Adds the spans of comments, in bytes, `!` before one that a line terminator is in.
fn push_spans(comments: &[CommentRow], out: &mut String) -> Result<(), AllocError> {
    out.push_str(" ;")?;
    for comment in comments {
        out.push_str(if comment.has_line_end { " !" } else { " " })?;
        write!(out, "{}..{}", comment.span.start, comment.span.end)?;
    }
    Ok(())
}

/// Whether another text keeps a script's tokens, and what stands between them.
pub(crate) fn push_kept(
    alloc: Global,
    parsed: &Parsed,
    row: &Case,
    out: &mut String,
) -> Result<(), AllocError> {
    let other = row.text(2);
    match is_kept(alloc, parsed, row, other) {
        Ok(true) => out.push_str("kept"),
        Ok(false) => out.push_str("changed"),
        Err(fault) => push_refusal(other, fault, out),
    }
}

/// Whether the other text keeps the tokens of the first one, and what stands between them.
fn is_kept(alloc: Global, parsed: &Parsed, row: &Case, other: &str) -> Result<bool, Fault> {
    let text = row.text(1);
    let Some(reading) = reading_of(alloc, parsed, text)? else {
        return Ok(false);
    };
    let source = Source::new(text.as_bytes())?;
    let unwrapped = Source::new(other.as_bytes())?;
    let texts = TextArena::new(alloc);
    let again = parse(alloc, &texts, &unwrapped, row.language())?;
    match keeps(
        alloc,
        &source,
        &reading,
        &unwrapped,
        again.program(),
        again.grouping_pairs(),
    ) {
        Ok(kept) => Ok(kept),
        Err(AllocError) => Err(Fault::OutOfMemory),
    }
}

/// Whether another text, as a formatted one, retains a script's tokens and comments.
pub(crate) fn push_retained(
    alloc: Global,
    parsed: &Parsed,
    row: &Case,
    out: &mut String,
) -> Result<(), AllocError> {
    let other = row.text(2);
    match is_retained(alloc, parsed, row, other) {
        Ok(true) => out.push_str("retained"),
        Ok(false) => out.push_str("changed"),
        Err(fault) => push_refusal(other, fault, out),
    }
}

/// Whether the other text retains the tokens and comments of the first one.
fn is_retained(alloc: Global, parsed: &Parsed, row: &Case, other: &str) -> Result<bool, Fault> {
    let text = row.text(1);
    let Some(reading) = reading_of(alloc, parsed, text)? else {
        return Ok(false);
    };
    let source = Source::new(text.as_bytes())?;
    let formatted = Source::new(other.as_bytes())?;
    let texts = TextArena::new(alloc);
    let again = parse(alloc, &texts, &formatted, row.language())?;
    match retains(
        alloc,
        &source,
        &reading,
        &formatted,
        again.program(),
        again.grouping_pairs(),
    ) {
        Ok(retained) => Ok(retained),
        Err(AllocError) => Err(Fault::OutOfMemory),
    }
}
