//! The marks of a pattern: what says which groups there are and which references.

ghost use Rattle.std.specs.Prelude.{◌≡◌};
ghost use Rattle.source_text.specs.Source.{IsPlace};
ghost use Rattle.tokens.specs.Reading.{behind};
ghost use Rattle.pattern_analysis.specs.Marks.{character_marks, is_reference};
ghost use Rattle.pattern_analysis.specs.ReadReferences.{IsClassRead, IsEscapeRead, IsMarkRead, marks_as};

use crate::class_values::behind_character;
use crate::opening::{Opening, opening_at};
use regular_expressions::digits_end;
use tokens::{CharAt, char_at};

/// A mark, if a character is one.
#[derive(Clone, Copy)]
pub(crate) enum Mark<'t> {
    Nothing,
    /// A `(`, and what it begins.
    Opening(Opening),
    /// A `)`.
    Closing,
    /// A `|`.
    Bar,
    /// A reference to a group, by the digits of its number.
    Reference(&'t str),
}

/// What was read, and where to go on.
#[derive(Clone, Copy)]
pub(crate) struct MarkRead<'t> {
    pub mark: Mark<'t>,
    pub in_class: bool,
    pub end: usize,
}

/// Whether a reference stands behind a backslash.
fn is_reference(text: &str, at: usize) -> bool
    requires { IsPlace text.now at }
    ensures { result ≡ is_reference (behind text.now at) }
{
    match char_at(text, at) {
        Some(step) => matches!(step.c, '1'..='9'),
        None => false,
    }
}

/// Behind a backslash that stands in no class.
fn escape_at<'t>(text: &'t str, at: usize) -> MarkRead<'t>
    requires { IsPlace text.now at }
    ensures { IsEscapeRead result.mark result.in_class text.now at result.end }
{
    if !is_reference(text, at) {
        return MarkRead {
            mark: Mark::Nothing,
            in_class: false,
            end: behind_character(text, at),
        };
    }
    let end = digits_end(text, at);
    MarkRead {
        mark: Mark::Reference(&text[at..end]),
        in_class: false,
        end,
    }
}

/// A character that is no backslash and stands in no class.
fn mark_of<'t>(text: &'t str, first: CharAt) -> Mark<'t>
    requires { IsPlace text.now first.end }
    ensures { marks_as result ≡ character_marks first.c (behind text.now first.end) }
{
    match first.c {
        '(' => Mark::Opening(opening_at(text, first.end)),
        ')' => Mark::Closing,
        '|' => Mark::Bar,
        _ => Mark::Nothing,
    }
}

/// A character in a class: where reading goes on.
fn class_end(text: &str, first: CharAt) -> usize
    requires { IsPlace text.now first.end }
    ensures { IsClassRead first.c text.now first.end result }
{
    if first.c == '\\' {
        return behind_character(text, first.end);
    }
    first.end
}

/// A mark by its first character.
pub(crate) fn mark_at<'t>(text: &'t str, in_class: bool, first: CharAt) -> MarkRead<'t>
    requires { IsPlace text.now first.end }
    ensures { IsMarkRead in_class first.c result.mark result.in_class text.now first.end result.end }
{
    if in_class {
        return MarkRead {
            mark: Mark::Nothing,
            in_class: first.c != ']',
            end: class_end(text, first),
        };
    }
    if first.c == '\\' {
        return escape_at(text, first.end);
    }
    MarkRead {
        mark: mark_of(text, first),
        in_class: first.c == '[',
        end: first.end,
    }
}
