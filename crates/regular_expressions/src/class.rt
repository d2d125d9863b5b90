//! CharacterClass (22.2.1): its atoms and ranges.

ghost use Rattle.std.specs.Prelude.{◌≡◌, ◌∷◌, None, Some, IfSome, IfNone};
ghost use Rattle.source_text.specs.Source.{IsPlace};
ghost use Rattle.tokens.specs.Reading.{behind};
ghost use Rattle.regular_expressions.specs.Classes.{class, class_atom, class_behind, class_escape, fresh, in_order, next_atom, next_dash, next_member, next_members, units};
ghost use Rattle.regular_expressions.specs.Scanned.{IsPassed, IsRead, IsStep, ranges_as, ranges_if};

use crate::escape::{Valued, escape_by};
use tokens::{CharAt, char_at};

/// ClassRanges, by the last ClassAtom that may still begin a range: its CharacterValue, or none if it is a class.
#[derive(Clone, Copy)]
enum Ranges {
    Fresh,
    Member(Option<u32>),
    /// Behind its `-`.
    Dashed(Option<u32>),
}

/// Whether a range of these ends is one: no class, and in order.
fn in_order(first: Option<u32>, last: Option<u32>) -> bool
    ensures { result ≡ in_order first last }
{
    let Some(first) = first else {
        return false;
    };
    let Some(last) = last else {
        return false;
    };
    first <= last
}

/// The ranges behind one more ClassAtom; none where a range isn't one.
fn next_member(ranges: Ranges, value: Option<u32>) -> Option<Ranges>
    ensures { ranges_if result ≡ next_member (ranges_as ranges) value }
{
    match ranges {
        Ranges::Fresh | Ranges::Member(_) => Some(Ranges::Member(value)),
        Ranges::Dashed(first) => {
            if in_order(first, value) {
                Some(Ranges::Fresh)
            } else {
                None
            }
        }
    }
}

/// The ranges behind a `-`.
fn next_dash(ranges: Ranges) -> Option<Ranges>
    ensures { ranges_if result ≡ next_dash (ranges_as ranges) }
{
    match ranges {
        Ranges::Member(first) => Some(Ranges::Dashed(first)),
        _ => next_member(ranges, Some(0x2D)),
    }
}

/// The ranges behind a character, which is two units without `u` if it is none of the first plane.
fn next_character(is_unicode: bool, ranges: Ranges, value: u32) -> Option<Ranges>
    ensures { ranges_if result ≡ next_members (Some (ranges_as ranges)) (units is_unicode value) }
{
    if is_unicode || value < 0x1_0000 {
        return next_member(ranges, Some(value));
    }
    let above = value - 0x1_0000;
    let Some(behind_lead) = next_member(ranges, Some(0xD800 + above / 0x400)) else {
        return None;
    };
    next_member(behind_lead, Some(0xDC00 + above % 0x400))
}

/// The ranges behind an atom that isn't a plain `-`.
fn next_atom(is_unicode: bool, ranges: Ranges, value: Option<u32>) -> Option<Ranges>
    ensures { (rest : _) → ranges_if result ≡ next_atom is_unicode (ranges_as ranges) (Some (value, rest)) }
{
    match value {
        Some(value) => next_character(is_unicode, ranges, value),
        None => next_member(ranges, None),
    }
}

/// ClassEscape behind its backslash.
fn class_escape(text: &str, is_unicode: bool, at: usize) -> Option<Valued>
    requires { IsPlace text.now at }
    ensures some { IfSome result (λ r. IsRead (class_escape is_unicode (behind text.now at)) r.value text.now at r.end) }
    ensures none { IfNone result (class_escape is_unicode (behind text.now at) ≡ None) }
{
    let Some(first) = char_at(text, at) else {
        return None;
    };
    if first.c == 'b' {
        return Some(Valued {
            value: Some(0x8),
            end: first.end,
        });
    }
    if is_unicode && first.c == '-' {
        return Some(Valued {
            value: Some(0x2D),
            end: first.end,
        });
    }
    escape_by(text, is_unicode, first.c, first.end)
}

/// ClassAtomNoDash by its first character: what it stands for, and the place behind it; none where no atom stands.
pub fn class_atom(text: &str, is_unicode: bool, first: CharAt) -> Option<Valued>
    requires { IsPlace text.now first.end }
    ensures some { IfSome result (λ r. IsRead (class_atom is_unicode first.c (behind text.now first.end)) r.value text.now first.end r.end) }
    ensures none { IfNone result (class_atom is_unicode first.c (behind text.now first.end) ≡ None) }
{
    if first.c == '\\' {
        return class_escape(text, is_unicode, first.end);
    }
    Some(Valued {
        value: Some(first.c as u32),
        end: first.end,
    })
}

/// ClassRanges and the `]` behind them: the place behind that.
fn ranges_end(text: &str, is_unicode: bool, at: usize) -> Option<usize>
    requires { IsPlace text.now at }
    ensures some { IfSome result (λ e. IsPassed (class_behind is_unicode (Some fresh) 0 (behind text.now at)) text.now at e) }
    ensures none { IfNone result (class_behind is_unicode (Some fresh) 0 (behind text.now at) ≡ None) }
{
    let mut ranges = Ranges::Fresh;
    let mut end = at;
    while let Some(step) = char_at(text, end) {
        if step.c == ']' {
            return Some(step.end);
        }
        let Some(next) = ranges_step(text, is_unicode, ranges, step) else {
            return None;
        };
        ranges = next.ranges;
        end = next.end;
    }
    None
}

/// Ranges, and the place behind them.
#[derive(Clone, Copy)]
struct RangesAt {
    ranges: Ranges,
    end: usize,
}

/// The ranges behind one more atom, a plain `-` too.
fn ranges_step(text: &str, is_unicode: bool, ranges: Ranges, first: CharAt) -> Option<RangesAt>
    requires place { IsPlace text.now first.end }
    requires open { ¬ (first.c ≡ 0x5D) }
    ensures some { IfSome result (λ r. IsStep is_unicode (ranges_as ranges) first.c (ranges_as r.ranges) text.now first.end r.end) }
    ensures none { IfNone result (class_behind is_unicode (Some (ranges_as ranges)) 0 (first.c ∷ behind text.now first.end) ≡ None) }
{
    if first.c == '-' {
        let Some(next) = next_dash(ranges) else {
            return None;
        };
        return Some(RangesAt {
            ranges: next,
            end: first.end,
        });
    }
    let Some(atom) = class_atom(text, is_unicode, first) else {
        return None;
    };
    let Some(next) = next_atom(is_unicode, ranges, atom.value) else {
        return None;
    };
    Some(RangesAt {
        ranges: next,
        end: atom.end,
    })
}

/// CharacterClass behind its `[`: the place behind it.
pub(crate) fn class_end(text: &str, is_unicode: bool, at: usize) -> Option<usize>
    requires { IsPlace text.now at }
    ensures some { IfSome result (λ e. IsPassed (class is_unicode (behind text.now at)) text.now at e) }
    ensures none { IfNone result (class is_unicode (behind text.now at) ≡ None) }
{
    if let Some(first) = char_at(text, at) {
        if first.c == '^' {
            return ranges_end(text, is_unicode, first.end);
        }
    }
    ranges_end(text, is_unicode, at)
}
