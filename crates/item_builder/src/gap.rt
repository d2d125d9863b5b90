//! What stands before a token: comments, and the line ends among them.

use crate::gap_part::{PartKind, part_at};
use std::alloc::{AllocError, Global};

/// Whether lines end between two things.
#[derive(Clone, Copy, Debug, PartialEq, Eq)]
pub(crate) enum LineEnds {
    No,
    One,
    /// Two or more: there is an empty line.
    More,
}

impl LineEnds {
    /// One line end more.
    fn with_one(self) -> LineEnds {
        match self {
            LineEnds::No => LineEnds::One,
            _ => LineEnds::More,
        }
    }

    /// What stands where a token between two of them goes.
    fn joined(self, other: LineEnds) -> LineEnds {
        match (self, other) {
            (LineEnds::No, ends) | (ends, LineEnds::No) => ends,
            (LineEnds::One, LineEnds::One) => LineEnds::One,
            _ => LineEnds::More,
        }
    }

    /// Whether there is one.
    pub(crate) fn is_some(self) -> bool {
        !matches!(self, LineEnds::No)
    }
}

/// A comment.
#[derive(Clone, Copy)]
pub(crate) struct Comment<'t> {
    pub text: &'t str,
    /// Between it and what stands before it.
    pub before: LineEnds,
}

impl<'t> Comment<'t> {
    /// Whether it ends with its line.
    pub(crate) fn is_line_comment(self) -> bool {
        self.text.as_bytes().starts_with(b"//")
    }

    /// Whether it asks that what follows stays as it stands.
    pub(crate) fn is_ignoring(self) -> bool {
        let text = match self.text.strip_prefix("//") {
            Some(rest) => rest,
            None => self.text.trim_start_matches("/*").trim_end_matches("*/"),
        };
        text.trim() == "jslint-format-ignore"
    }
}

/// The comments before a token that weren't written yet.
#[derive(Drop)]
pub(crate) struct Gap<'t> {
    /// All that were read since there was nothing left.
    comments: Vec<Comment<'t>>,
    /// How many of them were written.
    written: usize,
    /// Behind the last one.
    pub after: LineEnds,
}

impl<'t> Gap<'t> {
    pub(crate) fn new(alloc: Global) -> Gap<'t> {
        Gap {
            comments: Vec::new(alloc),
            written: 0,
            after: LineEnds::No,
        }
    }

    /// Nothing stands there any more.
    pub(crate) fn clear(&mut self) {
        self.comments.clear();
        self.written = 0;
        self.after = LineEnds::No;
    }

    /// A line begins before what is read next, as at the beginning of a text.
    pub(crate) fn begin_line(&mut self) {
        self.after = LineEnds::One;
    }

    /// How many comments are left.
    pub(crate) fn len(&self) -> usize {
        self.comments.len().saturating_sub(self.written)
    }

    /// Whether there is no comment left.
    pub(crate) fn is_empty(&self) -> bool {
        self.len() == 0
    }

    /// Whether comments were written since there was nothing left.
    pub(crate) fn is_begun(&self) -> bool {
        self.written > 0
    }

    /// One of the comments that are left.
    pub(crate) fn get(&self, index: usize) -> Option<Comment<'t>> {
        self.comments
            .get(self.written.saturating_add(index))
            .copied()
    }

    /// The first comments are written.
    pub(crate) fn pass(&mut self, count: usize) {
        self.written = self.written.saturating_add(count);
    }

    /// Whether a line ends behind a comment of the gap and before a later one, or behind the last.
    pub(crate) fn has_line_end_from(&self, index: usize) -> bool {
        let first = self.written.saturating_add(index);
        self.after.is_some() || self.comments.iter().skip(first).any(|c| c.before.is_some())
    }

    /// Adds what stands between two places of a text, in bytes.
    pub(crate) fn read(&mut self, text: &'t str, from: usize, to: usize) -> Result<(), AllocError> {
        if from == to {
            return Ok(());
        }
        let between = text.get(from..to).unwrap_or("");
        match line_ends_of_blanks(between) {
            Some(ends) => {
                self.after = self.after.joined(ends);
                Ok(())
            }
            None => self.read_between(between),
        }
    }

    /// Adds all of a text that stands between two tokens.
    fn read_between(&mut self, between: &'t str) -> Result<(), AllocError> {
        let mut ends = LineEnds::No;
        let mut joint = self.after;
        let mut place = 0;
        while let Some(part) = part_at(between, place) {
            match part.kind {
                PartKind::Comment => {
                    self.comments.push(Comment {
                        text: between.get(place..part.end).unwrap_or(""),
                        before: joint.joined(ends),
                    })?;
                    ends = LineEnds::No;
                    joint = LineEnds::No;
                }
                PartKind::LineEnd => ends = ends.with_one(),
                PartKind::Blank | PartKind::Other(_) => {}
            }
            place = part.end;
        }
        self.after = joint.joined(ends);
        Ok(())
    }

    /// Whether a line ends in it.
    pub(crate) fn has_line_end(&self) -> bool {
        self.has_line_end_from(0)
    }

    /// Whether the first line end is followed by an empty line.
    pub(crate) fn begins_with_empty_line(&self) -> bool {
        for c in self.comments.iter().skip(self.written) {
            if c.before.is_some() {
                return matches!(c.before, LineEnds::More);
            }
        }
        matches!(self.after, LineEnds::More)
    }

    /// Whether a comment in it ends its line.
    pub(crate) fn has_ended_comment(&self) -> bool {
        !self.is_empty() && self.has_line_end_from(1)
    }

    /// How many comments stand before its first line end.
    pub(crate) fn first_line(&self) -> usize {
        for (index, c) in self.comments.iter().skip(self.written).enumerate() {
            if c.before.is_some() {
                return index;
            }
        }
        self.len()
    }

    /// Takes the line ends out: all comments stand on one line.
    pub(crate) fn join_lines(&mut self) {
        for c in self.comments.iter_mut() {
            c.before = LineEnds::No;
        }
        self.after = LineEnds::No;
    }
}

/// The line ends of a text of nothing but spaces, tabs and line feeds, as most gaps are; none of another one.
fn line_ends_of_blanks(text: &str) -> Option<LineEnds> {
    let mut ends = LineEnds::No;
    for c in text.as_bytes() {
        match *c {
            b'\n' => ends = ends.with_one(),
            b' ' | b'\t' => {}
            _ => return None,
        }
    }
    Some(ends)
}
