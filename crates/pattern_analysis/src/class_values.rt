//! The characters of the classes of a pattern, one after the other.

ghost use Rattle.std.specs.Prelude.{◌≡◌, Some, drop};
ghost use Rattle.source_text.specs.Source.{IsPlace};
ghost use Rattle.tokens.specs.Reading.{behind};
ghost use Rattle.pattern_analysis.specs.ClassValues.{atom_values, behind_atom, caret_length, is_member, is_range_dash};
ghost use Rattle.pattern_analysis.specs.Read.{IsAtomRead, IsRead, IsSkipped, values_of};

use regular_expressions::{Valued, class_atom};
use tokens::{CharAt, char_at};

/// Where a pattern is read.
#[derive(Clone, Copy)]
pub(crate) enum Standing {
    /// In no class.
    Outside,
    /// In a class, behind its `[` or behind a range.
    Fresh,
    /// Behind an atom of a class that may begin a range.
    Member,
    /// Behind the `-` of a range.
    Dashed,
}

/// What is read of a class in one step.
#[derive(Clone, Copy)]
pub(crate) enum Seen {
    Nothing,
    /// What keeps characters apart: the beginning of a class, a class of characters, the `-` of a range.
    Apart,
    Character(u32),
}

/// What was read, and where to go on.
#[derive(Clone, Copy)]
pub(crate) struct ReadStep {
    pub seen: Seen,
    pub standing: Standing,
    pub end: usize,
}

/// Whether the last atom may begin a range.
fn is_member(standing: Standing) -> bool
    ensures { result ≡ is_member standing }
{
    matches!(standing, Standing::Member)
}

/// Behind one more atom.
fn behind_atom(standing: Standing) -> Standing
    ensures { result ≡ behind_atom standing }
{
    match standing {
        Standing::Dashed => Standing::Fresh,
        _ => Standing::Member,
    }
}

/// Behind the next character, if there is one.
pub(crate) fn behind_character(text: &str, at: usize) -> usize
    requires { IsPlace text.now at }
    ensures skipped { IsSkipped 1 text.now at result }
    ensures others { behind text.now result ≡ drop 1 (behind text.now at) }
{
    match char_at(text, at) {
        Some(step) => step.end,
        None => at,
    }
}

/// Behind the `^` that may follow the `[` of a class.
fn behind_caret(text: &str, at: usize) -> usize
    requires { IsPlace text.now at }
    ensures { IsSkipped (caret_length (behind text.now at)) text.now at result }
{
    let Some(step) = char_at(text, at) else {
        return at;
    };
    if step.c == '^' { step.end } else { at }
}

/// A step outside of classes, by its first character.
fn read_outside(text: &str, first: CharAt) -> ReadStep
    requires { IsPlace text.now first.end }
    ensures { (u : _) → IsRead u Standing.Outside first.c result.seen result.standing text.now first.end result.end }
{
    match first.c {
        '[' => ReadStep {
            seen: Seen::Apart,
            standing: Standing::Fresh,
            end: behind_caret(text, first.end),
        },
        '\\' => ReadStep {
            seen: Seen::Nothing,
            standing: Standing::Outside,
            end: behind_character(text, first.end),
        },
        _ => ReadStep {
            seen: Seen::Nothing,
            standing: Standing::Outside,
            end: first.end,
        },
    }
}

/// What an atom stands for.
fn seen_of(atom: Valued) -> Seen
    ensures { (u : _) (rest : _) → values_of u result ≡ atom_values u (Some (atom.value, rest)) }
{
    match atom.value {
        Some(value) => Seen::Character(value),
        None => Seen::Apart,
    }
}

/// An atom of a class, by its first character.
fn read_atom(text: &str, is_unicode: bool, standing: Standing, first: CharAt) -> ReadStep
    requires { IsPlace text.now first.end }
    ensures { IsAtomRead is_unicode standing first.c result.seen result.standing text.now first.end result.end }
{
    match class_atom(text, is_unicode, first) {
        Some(atom) => ReadStep {
            seen: seen_of(atom),
            standing: behind_atom(standing),
            end: atom.end,
        },
        None => ReadStep {
            seen: Seen::Apart,
            standing: behind_atom(standing),
            end: first.end,
        },
    }
}

/// Whether the character is the `-` of a range.
fn is_range_dash(text: &str, standing: Standing, first: CharAt) -> bool
    requires { IsPlace text.now first.end }
    ensures { result ≡ is_range_dash standing first.c (behind text.now first.end) }
{
    if !is_member(standing) || first.c != '-' {
        return false;
    }
    match char_at(text, first.end) {
        Some(next) => next.c != ']',
        None => true,
    }
}

/// A step in a class.
fn read_inside(text: &str, is_unicode: bool, standing: Standing, first: CharAt) -> ReadStep
    requires place { IsPlace text.now first.end }
    requires inside { ¬ (standing ≡ Standing.Outside) }
    ensures { IsRead is_unicode standing first.c result.seen result.standing text.now first.end result.end }
{
    if first.c == ']' {
        return ReadStep {
            seen: Seen::Nothing,
            standing: Standing::Outside,
            end: first.end,
        };
    }
    if is_range_dash(text, standing, first) {
        return ReadStep {
            seen: Seen::Apart,
            standing: Standing::Dashed,
            end: first.end,
        };
    }
    read_atom(text, is_unicode, standing, first)
}

/// A step, by its first character.
pub(crate) fn read_step(text: &str, is_unicode: bool, standing: Standing, first: CharAt) -> ReadStep
    requires { IsPlace text.now first.end }
    ensures { IsRead is_unicode standing first.c result.seen result.standing text.now first.end result.end }
{
    match standing {
        Standing::Outside => read_outside(text, first),
        _ => read_inside(text, is_unicode, standing, first),
    }
}
