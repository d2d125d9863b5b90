//! Which rules on the values of literals there are, row by row: a variant, a name, what is reported, the words. A rule has an arm in each
//! table here, and in those of `specs/Rows.antt`.

ghost use Rattle.std.specs.Prelude.{◌≡◌, IfOk};
ghost use Rattle.value_rules.specs.Rows.{holds, is_number, is_pattern, says};

use number_precision::loses_precision;
use pattern_analysis::{has_misleading_class, has_useless_reference};
use std::alloc::{AllocError, Global};

/// A rule on the values of literals.
#[derive(Clone, Copy, Debug, PartialEq, Eq)]
pub enum ValueRule {
    NoLossOfPrecision,
    NoMisleadingCharacterClass,
    NoUselessBackreference,
}

/// The rules, in the order of their names.
pub const VALUE_RULES: [ValueRule; 3] = [
    ValueRule::NoLossOfPrecision,
    ValueRule::NoMisleadingCharacterClass,
    ValueRule::NoUselessBackreference,
];

impl ValueRule {
    ghost use Rattle.std.specs.Prelude.{◌≡◌};
    ghost use Rattle.value_rules.specs.Rows.{called};

    /// What settings and reports call it.
    pub fn name(self) -> &'static str
        ensures { result.now ≡ called self }
    {
        match self {
            ValueRule::NoLossOfPrecision => "no-loss-of-precision",
            ValueRule::NoMisleadingCharacterClass => "no-misleading-character-class",
            ValueRule::NoUselessBackreference => "no-useless-backreference",
        }
    }
}

/// Whether a literal's text is that of a number, and of no bigint.
fn is_number(text: &str) -> bool
    ensures { result ≡ is_number text.now }
{
    let text = text.as_bytes();
    if text.is_empty() {
        return false;
    }
    let first = text[0];
    (first.is_ascii_digit() || first == b'.') && text[text.len() - 1] != b'n'
}

/// Whether a literal's text is that of a regular expression.
fn is_pattern(text: &str) -> bool
    ensures { result ≡ is_pattern text.now }
{
    let text = text.as_bytes();
    if text.is_empty() {
        return false;
    }
    text[0] == b'/'
}

/// Whether a rule reports a literal with this text.
pub(crate) fn holds(alloc: Global, rule: ValueRule, text: &str) -> Result<bool, AllocError>
    ensures { IfOk result (λ b. b ≡ holds rule text.now) }
{
    match rule {
        ValueRule::NoLossOfPrecision => {
            if !is_number(text) {
                return Ok(false);
            }
            loses_precision(alloc, text)
        },
        ValueRule::NoMisleadingCharacterClass => {
            if !is_pattern(text) {
                return Ok(false);
            }
            Ok(has_misleading_class(text))
        },
        ValueRule::NoUselessBackreference => {
            if !is_pattern(text) {
                return Ok(false);
            }
            has_useless_reference(alloc, text)
        },
    }
}

/// What a rule says.
pub(crate) fn words(rule: ValueRule) -> &'static str
    ensures { result.now ≡ says rule }
{
    match rule {
        ValueRule::NoLossOfPrecision => "digits that the number doesn't keep",
        ValueRule::NoMisleadingCharacterClass => "several code points seem to be one character",
        ValueRule::NoUselessBackreference =>
            "a backreference to a group that isn't matched before it",
    }
}
