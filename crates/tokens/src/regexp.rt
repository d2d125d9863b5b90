//! Regular expressions (ECMA-262 11.8.5), by how far one has been read.

ghost use Rattle.std.specs.Prelude.{◌≡◌, ◌∷◌, [], IfSome, IfNone, IsTrue, if◌then◌else◌};
ghost use Rattle.source_text.specs.Lines.{is_line_terminator};
ghost use Rattle.source_text.specs.Source.{IsPlace};
ghost use Rattle.tokens.specs.RegularExpressions.{has_flags, next_expression, next_in_body, next_in_brackets, no_expression};
ghost use Rattle.tokens.specs.States.{expression_of, is_over};
ghost use Rattle.tokens.specs.Scanned.{IsFlagsAt, NoFlagsAt, IsWordAt, NoWordAt};

use crate::TokenClass;
use crate::character::char_at;
use crate::name::is_part;
use source_text::is_line_terminator;

/// The state of the automaton that reads a regular expression (11.8.5): what the characters so far are.
#[derive(Clone, Copy)]
enum RegExpState {
    Opened,
    Body,
    Brackets,
    Flags,
    BodyBackslash,
    BracketsBackslash,
    Failed,
}

/// The state after a character in the body, outside brackets.
fn next_in_body(c: char) -> RegExpState
    ensures { expression_of result ≡ next_in_body c }
{
    if is_line_terminator(c) {
        return RegExpState::Failed;
    }
    match c {
        '/' => RegExpState::Flags,
        '\\' => RegExpState::BodyBackslash,
        '[' => RegExpState::Brackets,
        _ => RegExpState::Body,
    }
}

/// The state after a character of a RegularExpressionClass, in brackets.
fn next_in_brackets(c: char) -> RegExpState
    ensures { expression_of result ≡ next_in_brackets c }
{
    if is_line_terminator(c) {
        return RegExpState::Failed;
    }
    match c {
        '\\' => RegExpState::BracketsBackslash,
        ']' => RegExpState::Body,
        _ => RegExpState::Brackets,
    }
}

/// The state after one more character.
fn next_regexp_state(part: RegExpState, c: char) -> RegExpState
    ensures { expression_of result ≡ next_expression (expression_of part) c }
{
    match part {
        RegExpState::Opened => {
            if c == '*' || c == '/' {
                RegExpState::Failed
            } else {
                next_in_body(c)
            }
        }
        RegExpState::Body => next_in_body(c),
        RegExpState::Brackets => next_in_brackets(c),
        RegExpState::Flags => {
            if is_part(c) {
                RegExpState::Flags
            } else {
                RegExpState::Failed
            }
        }
        RegExpState::BodyBackslash => taken(c, RegExpState::Body),
        RegExpState::BracketsBackslash => taken(c, RegExpState::Brackets),
        RegExpState::Failed => RegExpState::Failed,
    }
}

/// This state after a character that follows a backslash; `Failed` if it ends the line.
fn taken(c: char, part: RegExpState) -> RegExpState
    ensures { expression_of result ≡ (if is_line_terminator c then no_expression else expression_of part) }
{
    if is_line_terminator(c) {
        RegExpState::Failed
    } else {
        part
    }
}

/// Where the regular expression at this place ends, in bytes; none if there is none (11.8.5).
pub(crate) fn regexp_end(text: &str, at: usize) -> Option<usize>
    requires { IsPlace text.now at }
    ensures some { IfSome result (λ e. IsWordAt TokenClass.RegularExpressionLiteral text.now at e) }
    ensures none { IfNone result (NoWordAt TokenClass.RegularExpressionLiteral text.now at) }
{
    let Some(first) = char_at(text, at) else {
        return None;
    };
    if first.c == '/' {
        return flags_end(text, first.end);
    }
    None
}

/// Where the flags end, in bytes, of a regular expression whose body begins at this place.
fn flags_end(text: &str, at: usize) -> Option<usize>
    requires { IsPlace text.now at }
    ensures some { IfSome result (λ e. IsFlagsAt text.now at e) }
    ensures none { IfNone result (NoFlagsAt text.now at) }
{
    let mut end = at;
    let mut part = RegExpState::Opened;
    while let Some(step) = char_at(text, end) {
        let next = next_regexp_state(part, step.c);
        if is_over(next) {
            return if has_flags(part) { Some(end) } else { None };
        }
        part = next;
        end = step.end;
    }
    if has_flags(part) { Some(end) } else { None }
}

/// Whether no regular expression goes on from this state.
#[inline]
fn is_over(part: RegExpState) -> bool
    ensures { result ≡ is_over (expression_of part) }
{
    match part {
        RegExpState::Failed => true,
        _ => false,
    }
}

/// Whether a regular expression may end in this state.
#[inline]
fn has_flags(part: RegExpState) -> bool
    ensures { result ≡ has_flags (expression_of part) }
{
    match part {
        RegExpState::Flags => true,
        _ => false,
    }
}
