//! What stands between two tokens: blanks and comments (ECMA-262 11.2 to 11.4).

ghost use Rattle.std.specs.Prelude.{◌≤◌, ◌<◌, length, IfSome};

use crate::lines::{first_line_end, has_line_end};
use std::alloc::AllocError;

/// What a part of a gap is.
#[derive(Clone, Copy, Debug, PartialEq, Eq)]
pub(crate) enum PartKind {
    /// White space and line ends, as many as stand there.
    Blank,
    /// A comment that ends with its line, which has a line end after it.
    LineComment,
    /// A comment in `/*` and `*/`.
    BlockComment,
}

/// A part of a gap.
#[derive(Clone, Copy)]
pub(crate) struct Part<'s> {
    pub kind: PartKind,
    pub text: &'s [u8],
}

impl<'s> Part<'s> {
    /// Whether it is white space and line ends.
    pub(crate) fn is_blank(self) -> bool {
        matches!(self.kind, PartKind::Blank)
    }

    /// Whether it is a comment that ends with its line.
    pub(crate) fn is_line_comment(self) -> bool {
        matches!(self.kind, PartKind::LineComment)
    }

    /// Whether it is blank, with a line end.
    pub(crate) fn is_line_end(self) -> bool {
        self.is_blank() && has_line_end(self.text)
    }

    /// Whether it is a comment that holds a line end, or needs one after it.
    pub(crate) fn is_broken_comment(self) -> bool {
        match self.kind {
            PartKind::Blank => false,
            PartKind::LineComment => true,
            PartKind::BlockComment => has_line_end(self.text),
        }
    }

    /// This gap from its first line end on.
    pub(crate) fn from_line_end(self) -> Part<'s> {
        let text = self.text;
        let start = first_line_end(text);
        Part {
            kind: self.kind,
            text: &text[start..],
        }
    }

    /// This gap without its line ends: a blank that has some is one space.
    pub(crate) fn on_one_line(self) -> Part<'s> {
        if self.is_line_end() {
            return Part::SPACE;
        }
        self
    }

    /// One space.
    pub(crate) const SPACE: Part<'static> = Part {
        kind: PartKind::Blank,
        text: b" ",
    };
}

/// What the part at the front of a gap is, that has one.
fn kind_of(gap: &[u8]) -> PartKind {
    match gap {
        [b'/', b'/', ..] => PartKind::LineComment,
        [b'/', ..] => PartKind::BlockComment,
        _ => PartKind::Blank,
    }
}

/// Where blanks end.
fn blank_end(gap: &[u8]) -> usize
    ensures { result ≤ length gap.now }
{
    for index in 0..gap.len() {
        if gap[index] == b'/' {
            return index;
        }
    }
    gap.len()
}

/// Where a comment in `/*` and `*/` ends.
fn block_end(gap: &[u8]) -> usize
    ensures { result ≤ length gap.now }
{
    for index in 3..gap.len() {
        if gap[index] == b'/' && gap[index - 1] == b'*' {
            return index + 1;
        }
    }
    gap.len()
}

/// Where the part at the front ends.
fn part_end(gap: &[u8], kind: PartKind) -> usize
    ensures { result ≤ length gap.now }
{
    match kind {
        PartKind::Blank => blank_end(gap),
        PartKind::LineComment => first_line_end(gap),
        PartKind::BlockComment => block_end(gap),
    }
}

/// The part at the front of a gap, and the rest of the gap.
pub(crate) fn next_part<'s>(gap: &'s [u8]) -> Option<(Part<'s>, &'s [u8])>
    ensures { IfSome result (λ found. length found.1.now < length gap.now) }
{
    if gap.is_empty() {
        return None;
    }
    let kind = kind_of(gap);
    let end = part_end(gap, kind).max(1);
    let part = Part {
        kind,
        text: &gap[..end],
    };
    Some((part, &gap[end..]))
}

/// Whether no comment stands in a gap.
pub(crate) fn is_all_blank(gap: &[u8]) -> bool {
    blank_end(gap) == gap.len()
}

/// How many comments stand in a gap.
pub(crate) fn comment_count(gap: &[u8]) -> usize {
    let mut count = 0usize;
    let mut rest = gap;
    while let Some((part, others)) = next_part(rest) {
        if !part.is_blank() {
            count = count.saturating_add(1);
        }
        rest = others;
    }
    count
}

/// Puts the parts of a gap after others.
pub(crate) fn push_parts<'s>(parts: &mut Vec<Part<'s>>, gap: &'s [u8]) -> Result<(), AllocError> {
    let mut rest = gap;
    while let Some((part, others)) = next_part(rest) {
        parts.push(part)?;
        rest = others;
    }
    Ok(())
}
