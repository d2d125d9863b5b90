//! Whether a reading of what stands between two tokens is in a comment (ECMA-262 11.4).

ghost use Rattle.std.specs.Prelude.{◌≡◌};
ghost use Rattle.text_rules.specs.Spots.{behind_slash, behind_star, is_outside, is_token, spot_after};

use source_text::{is_line_terminator, is_space};

/// Where a reading is.
#[derive(Clone, Copy, Debug, PartialEq, Eq)]
pub enum Spot {
    /// In no comment.
    Outside,
    /// In none, behind a `/`.
    Slash,
    LineComment,
    BlockComment,
    /// In a comment that began with `/*`, behind a `*`.
    Star,
}

/// Where a reading is behind a character.
pub fn spot_after(spot: Spot, c: char) -> Spot
    ensures { result ≡ spot_after spot c }
{
    match spot {
        Spot::Outside if c == '/' => Spot::Slash,
        Spot::Outside => Spot::Outside,
        Spot::Slash => behind_slash(c),
        Spot::LineComment if is_line_terminator(c) => Spot::Outside,
        Spot::LineComment => Spot::LineComment,
        Spot::BlockComment if c == '*' => Spot::Star,
        Spot::BlockComment => Spot::BlockComment,
        Spot::Star => behind_star(c),
    }
}

/// The same where a `/` stands before the character, outside comments.
fn behind_slash(c: char) -> Spot
    ensures { result ≡ behind_slash c }
{
    match c {
        '/' => Spot::LineComment,
        '*' => Spot::BlockComment,
        _ => Spot::Outside,
    }
}

/// The same where a `*` stands before it, in a comment.
fn behind_star(c: char) -> Spot
    ensures { result ≡ behind_star c }
{
    match c {
        '/' => Spot::Outside,
        '*' => Spot::Star,
        _ => Spot::BlockComment,
    }
}

/// Whether a character is outside comments. A line terminator ends a comment and isn't in it.
pub(crate) fn is_outside(spot: Spot, c: char) -> bool
    ensures { result ≡ is_outside spot c }
{
    match spot {
        Spot::Outside => true,
        Spot::Slash => !matches!(c, '/' | '*'),
        Spot::LineComment => is_line_terminator(c),
        Spot::BlockComment | Spot::Star => false,
    }
}

/// Whether a character is a token's, `/` aside, with which a comment may begin.
pub(crate) fn is_token(spot: Spot, c: char) -> bool
    ensures { result ≡ is_token spot c }
{
    is_outside(spot, c) && c != '/' && !is_space(c) && !is_line_terminator(c)
}
