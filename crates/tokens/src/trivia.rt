//! White space, line terminators and comments (ECMA-262 11.2 to 11.4), and the line of `#!` (12.5 of the 14th edition).

ghost use Rattle.std.specs.Prelude.{◌≡◌, ◌==◌, ◌<◌, ◌||◌, false, not, IfSome, IfNone, IsTrue};
ghost use Rattle.source_text.specs.Lines.{is_line_terminator};
ghost use Rattle.source_text.specs.Source.{IsPlace};
ghost use Rattle.source_text.specs.Spaces.{is_white_space};
ghost use Rattle.tokens.specs.Alphabet.{one_of};
ghost use Rattle.tokens.specs.Closers.{is_plain};
ghost use Rattle.std.specs.Str.{chars};
ghost use Rattle.tokens.specs.Comments.{begins_comment, hashbang};
ghost use Rattle.tokens.specs.Tokens.{size};
ghost use Rattle.tokens.specs.Reading.{behind};
ghost use Rattle.tokens.specs.Scanned.{AllPass, IsBlockRest, IsCommentRest, IsGap, IsRun, IsSeparator, IsSolid, NoBlockRest, NoCommentRest};

use crate::character::{ascii_char_at, char_at};
use crate::plain::plain_end;
use source_text::{is_line_terminator, is_space};

/// The place behind separators, and whether a line terminator is among them.
#[derive(Clone, Copy)]
pub struct Trivia {
    pub end: usize,
    pub has_line_break: bool,
}

/// Skips white space, line terminators and comments (11.2 to 11.4); mostly there are none.
#[inline]
pub(crate) fn skip_trivia(text: &str, at: usize) -> Trivia
    requires { IsPlace text.now at }
    ensures gap { IsGap text.now at result.end result.has_line_break }
    ensures solid { IsSolid (behind text.now result.end) }
{
    if is_solid(text, at) {
        return Trivia {
            end: at,
            has_line_break: false,
        };
    }
    skip_all_trivia(text, at)
}

/// Skips white space, line terminators and comments, without the quick test for none.
fn skip_all_trivia(text: &str, at: usize) -> Trivia
    requires { IsPlace text.now at }
    ensures gap { IsGap text.now at result.end result.has_line_break }
    ensures solid { IsSolid (behind text.now result.end) }
{
    let mut gap = blanks(text, at);
    while let Some(next) = separator(text, gap.end) {
        let more = blanks(text, next.end);
        gap = Trivia {
            end: more.end,
            has_line_break: gap.has_line_break | next.has_line_break | more.has_line_break,
        };
    }
    gap
}

/// Skips the white space and line terminators of ASCII.
#[inline(always)]
pub(crate) fn blanks(text: &str, at: usize) -> Trivia
    requires { IsPlace text.now at }
    ensures { IsGap text.now at result.end result.has_line_break }
{
    let mut gap = Trivia {
        end: spaces_end(text, at),
        has_line_break: false,
    };
    while let Some(step) = ascii_char_at(text, gap.end) {
        if !is_ascii_blank(step.c) {
            return gap;
        }
        gap = Trivia {
            end: spaces_end(text, step.end),
            has_line_break: gap.has_line_break | is_line_terminator(step.c),
        };
    }
    gap
}

/// Where the run of spaces and tabs from this place on ends, in bytes.
#[inline(always)]
fn spaces_end(text: &str, at: usize) -> usize
    requires { IsPlace text.now at }
    ensures { IsGap text.now at result false }
{
    let bytes = text.as_bytes();
    let mut end = at;
    while end < bytes.len() && is_space_byte(bytes[end]) {
        end += 1;
    }
    end
}

/// Whether a byte is a space or a tab.
#[inline]
fn is_space_byte(byte: u8) -> bool
    ensures { result ≡ ((byte == 9) || (byte == 32)) }
{
    matches!(byte, b' ' | b'\t')
}

/// Whether a character of ASCII is white space or a line terminator (11.2, 11.3).
#[inline]
fn is_ascii_blank(c: char) -> bool
    requires { c < 128 }
    ensures { result ≡ (is_white_space c || is_line_terminator c) }
{
    if c > ' ' {
        return false;
    }
    matches!(c, ' ' | '\t'..='\r')
}

/// Whether a character of ASCII stands at the place with which no separator begins.
#[inline]
fn is_solid(text: &str, at: usize) -> bool
    requires { IsPlace text.now at }
    ensures { IsTrue result → IsSolid (behind text.now at) }
{
    match ascii_char_at(text, at) {
        Some(step) => separates_none(step.c),
        None => false,
    }
}

/// Whether no separator begins with this character of ASCII.
#[inline]
fn separates_none(c: char) -> bool
    requires { c < 128 }
    ensures { result ≡ not (one_of "/" c || is_white_space c || is_line_terminator c) }
{
    !matches!(c, '/' | ' ' | '\t'..='\r')
}

/// One white space, line terminator or comment at the place; none if there is none.
#[inline]
fn separator(text: &str, at: usize) -> Option<Trivia>
    requires { IsPlace text.now at }
    ensures some { IfSome result (λ g. IsSeparator text.now at g.end g.has_line_break) }
    ensures forward { IfSome result (λ g. at < g.end) }
    ensures none { IfNone result (IsSolid (behind text.now at)) }
{
    if is_solid(text, at) {
        return None;
    }
    any_separator(text, at)
}

/// Finds the next separator, without the quick test for none.
fn any_separator(text: &str, at: usize) -> Option<Trivia>
    requires { IsPlace text.now at }
    ensures some { IfSome result (λ g. IsSeparator text.now at g.end g.has_line_break) }
    ensures forward { IfSome result (λ g. at < g.end) }
    ensures none { IfNone result (IsSolid (behind text.now at)) }
{
    let Some(step) = char_at(text, at) else {
        return None;
    };
    if step.c == '/' {
        return comment(text, step.end);
    }
    let has_line_break = is_line_terminator(step.c);
    if has_line_break | is_space(step.c) {
        return Some(Trivia {
            end: step.end,
            has_line_break,
        });
    }
    None
}

/// The comment whose first `/` stands before this place (11.4); none if there is none.
pub fn comment(text: &str, at: usize) -> Option<Trivia>
    requires { IsPlace text.now at }
    ensures some { IfSome result (λ g. IsCommentRest text.now at g.end g.has_line_break) }
    ensures none { IfNone result (NoCommentRest text.now at) }
{
    let Some(step) = char_at(text, at) else {
        return None;
    };
    match step.c {
        '/' => Some(Trivia {
            end: line_end(text, step.end),
            has_line_break: false,
        }),
        '*' => block_rest(text, step.end),
        _ => None,
    }
}

/// Where the line ends, in bytes: at its line terminator, or at the end of the text.
#[inline(always)]
fn line_end(text: &str, at: usize) -> usize
    requires { IsPlace text.now at }
    ensures { IsRun (λ c. not (is_line_terminator c)) text.now at result }
{
    let mut end = at;
    while let Some(step) = char_at(text, end) {
        if is_line_terminator(step.c) {
            return end;
        }
        end = plain_end(text, step.end);
    }
    end
}

/// Where the line ends, in bytes, that begins a text with `#!` (Hashbang, 12.5 of the 14th edition); 0 if the text begins otherwise.
pub fn hashbang_end(text: &str) -> usize
    ensures value { result ≡ size (hashbang (chars text.now)) }
    ensures place { IsPlace text.now result }
{
    let Some(first) = char_at(text, 0) else {
        return 0;
    };
    if first.c != '#' {
        return 0;
    }
    let Some(second) = char_at(text, first.end) else {
        return 0;
    };
    if second.c != '!' {
        return 0;
    }
    line_end(text, second.end)
}

/// The `plain_end` of the text, but this place itself after a `*`.
#[inline]
fn plain_unless(text: &str, at: usize, starred: bool) -> usize
    requires { IsPlace text.now at }
    ensures plain { AllPass is_plain text.now at result }
    ensures stays { IsTrue starred → result ≡ at }
{
    if starred {
        return at;
    }
    plain_end(text, at)
}

/// The rest of a MultiLineComment (11.4) after its `/*`; none if no `*/` follows.
fn block_rest(text: &str, at: usize) -> Option<Trivia>
    requires { IsPlace text.now at }
    ensures some { IfSome result (λ g. IsBlockRest text.now at g.end g.has_line_break) }
    ensures none { IfNone result (NoBlockRest text.now at) }
{
    let mut gap = Trivia {
        end: at,
        has_line_break: false,
    };
    let mut starred = false;
    while let Some(step) = char_at(text, gap.end) {
        let has_line_break = gap.has_line_break | is_line_terminator(step.c);
        if starred & (step.c == '/') {
            return Some(Trivia {
                end: step.end,
                has_line_break,
            });
        }
        starred = step.c == '*';
        gap = Trivia {
            end: plain_unless(text, step.end, starred),
            has_line_break,
        };
    }
    None
}

/// Whether a comment begins at the place, even one that doesn't end.
#[inline]
pub(crate) fn comment_begins(text: &str, at: usize) -> bool
    requires { IsPlace text.now at }
    ensures { result ≡ begins_comment (behind text.now at) }
{
    let Some(first) = char_at(text, at) else {
        return false;
    };
    if first.c != '/' {
        return false;
    }
    let Some(second) = char_at(text, first.end) else {
        return false;
    };
    second.c == '/' || second.c == '*'
}
