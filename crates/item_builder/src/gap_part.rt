//! The parts of what stands between two tokens.

ghost use Rattle.std.specs.Prelude.{◌<◌, IfSome};
ghost use Rattle.source_text.specs.Source.{IsPlace};

use tokens::{char_at, comment};

/// What a part is.
#[derive(Clone, Copy, PartialEq, Eq)]
pub(crate) enum PartKind {
    /// `//` up to the line's end, or `/*` to `*/`.
    Comment,
    /// A line terminator; CR LF is one, its CR a blank.
    LineEnd,
    /// White space.
    Blank,
    /// A character that begins a token.
    Other(char),
}

/// A part, and where it ends, in bytes.
#[derive(Clone, Copy)]
pub(crate) struct GapPart {
    pub kind: PartKind,
    pub end: usize,
}

/// The part that begins at a place of a text, in bytes; none at its end.
pub(crate) fn part_at(text: &str, place: usize) -> Option<GapPart>
    requires { IsPlace text.now place }
    ensures { IfSome result (λ part. (place < part.end) × IsPlace text.now part.end) }
{
    let Some(step) = char_at(text, place) else {
        return None;
    };
    if step.c == '/' {
        if let Some(found) = comment(text, step.end) {
            return Some(GapPart {
                kind: PartKind::Comment,
                end: found.end,
            });
        }
    }
    let is_pair = step.c == '\r' && text.as_bytes().get(step.end) == Some(&b'\n');
    Some(GapPart {
        kind: if is_pair {
            PartKind::Blank
        } else {
            kind_of(step.c)
        },
        end: step.end,
    })
}

/// What a character is.
fn kind_of(c: char) -> PartKind {
    match c {
        '\n' | '\r' | '\u{2028}' | '\u{2029}' => PartKind::LineEnd,
        '\u{feff}' => PartKind::Blank,
        c if c.is_whitespace() => PartKind::Blank,
        c => PartKind::Other(c),
    }
}

/// Whether a comment ends its line before the first token of a text, closing parentheses aside.
pub(crate) fn begins_with_ended_comment(text: &str) -> bool {
    let mut place = 0;
    let mut is_behind_comment = false;
    while let Some(part) = part_at(text, place) {
        match part.kind {
            PartKind::Comment => is_behind_comment = true,
            PartKind::LineEnd if is_behind_comment => return true,
            PartKind::LineEnd | PartKind::Blank => {}
            PartKind::Other(')') => is_behind_comment = false,
            PartKind::Other(_) => return false,
        }
        place = part.end;
    }
    false
}
