//! What a comment asks for.

ghost use Rattle.std.specs.Prelude.{◌≡◌, ◌++◌, [], ◌∷◌, OnOk};
ghost use Rattle.std.specs.Option.{option_map};
ghost use Rattle.suppressions.specs.Suppressions.{for_names, for_rules, suppression};

use crate::words::{Word, begins_reason};
use std::alloc::AllocError;
use std::marker::Model;
use tree::Span;

/// Reports of a rule, or of all, are turned off or on from a place or in a line on.
#[derive(Drop)]
pub(crate) struct Suppression<'s> {
    of: Origin,
    rule: Option<&'s str>,
}

/// What the suppressions of a comment have in common.
#[derive(Clone, Copy, Debug, PartialEq, Eq)]
pub(crate) struct Origin {
    /// The comment.
    pub comment: Span,
    /// From where on: an offset, or the number of a line.
    pub from: usize,
    pub turns_off: bool,
}

impl<'s> Model for Suppression<'s> {
    ghost use Rattle.std.specs.Option.{option_map};
    ghost use Rattle.suppressions.specs.Suppressions.{Suppression, suppression};

    ghost Value = { Suppression };

    ghost view = { λ s. suppression s.of (option_map (λ name. name.now) s.rule) };
}

impl<'s> Suppression<'s> {
    ghost use Rattle.std.specs.Prelude.{◌≡◌};
    ghost use Rattle.std.specs.Option.{option_map};

    /// The comment.
    pub(crate) fn comment(&self) -> Span
        ensures start { result.start ≡ self.now.start }
        ensures end { result.end ≡ self.now.stop }
    {
        self.of.comment
    }

    /// From where on: an offset, or the number of a line.
    pub(crate) fn from(&self) -> usize
        ensures { result ≡ self.now.from }
    {
        self.of.from
    }

    /// Whether reports are turned off, and not on.
    pub(crate) fn turns_off(&self) -> bool
        ensures { result ≡ self.now.turns_off }
    {
        self.of.turns_off
    }

    /// The rule; none where all are meant.
    pub(crate) fn rule(&self) -> Option<&'s str>
        ensures { option_map (λ name. name.now) result ≡ self.now.rule }
    {
        self.rule
    }
}

/// Appends a suppression of a rule, or of all.
fn push_one<'s>(
    of: Origin,
    rule: Option<&'s str>,
    out: &mut Vec<Suppression<'s>>,
) -> Result<(), AllocError>
    ensures { OnOk result (out.new.items ≡ out.old.items ++ suppression of (option_map (λ name. name.now) rule.entry) ∷ []) }
{
    out.push(Suppression { of, rule })?;
    Ok(())
}

/// Appends one for each name, up to the reason.
fn push_named<'s>(
    of: Origin,
    names: &[Word<'s>],
    out: &mut Vec<Suppression<'s>>,
) -> Result<(), AllocError>
    ensures { OnOk result (out.new.items ≡ out.old.items ++ for_names of names.now) }
{
    for name in names {
        let name = name.text();
        if begins_reason(name) {
            return Ok(());
        }
        push_one(of, Some(name), out)?;
    }
    Ok(())
}

/// Appends one for each name, or one for all rules where none is named.
pub(crate) fn push_for_rules<'s>(
    of: Origin,
    names: &[Word<'s>],
    out: &mut Vec<Suppression<'s>>,
) -> Result<(), AllocError>
    ensures { OnOk result (out.new.items ≡ out.old.items ++ for_rules of names.now) }
{
    match names.first() {
        None => push_one(of, None, out),
        Some(name) if begins_reason(name.text()) => push_one(of, None, out),
        Some(_) => push_named(of, names, out),
    }
}
