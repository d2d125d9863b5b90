//! Which rules on the text of literals there are, row by row: a variant, a name, where the text of a literal is begun to be read, what is
//! looked for there, how a report is placed, the words. A rule has an arm in each table here, and in those of `specs/Rows.antt`.

ghost use Rattle.std.specs.Prelude.{◌≡◌};
ghost use Rattle.literal_rules.specs.Rows.{begins_as, from_quote, from_slash, from_any, is_at_mark, is_each, is_marked, says};

use crate::bytes::{byte_at, is_quote};
use crate::escapes::is_useless;
use crate::patterns::{are_spaces, begins_division, begins_script, closes, ends_class, is_control};
use crate::text_state::TextState;

/// A rule on the raw text of literals.
#[derive(Clone, Copy, Debug, PartialEq, Eq)]
pub enum LiteralRule {
    NoControlRegex,
    NoDivRegex,
    NoEmptyCharacterClass,
    NoRegexSpaces,
    NoScriptUrl,
    NoTemplateCurlyInString,
    NoUselessEscape,
}

/// The rules, in the order of their names.
pub const LITERAL_RULES: [LiteralRule; 7] = [
    LiteralRule::NoControlRegex,
    LiteralRule::NoDivRegex,
    LiteralRule::NoEmptyCharacterClass,
    LiteralRule::NoRegexSpaces,
    LiteralRule::NoScriptUrl,
    LiteralRule::NoTemplateCurlyInString,
    LiteralRule::NoUselessEscape,
];

impl LiteralRule {
    ghost use Rattle.std.specs.Prelude.{◌≡◌};
    ghost use Rattle.literal_rules.specs.Rows.{called};

    /// What settings and reports call it.
    pub fn name(self) -> &'static str
        ensures { result.now ≡ called self }
    {
        match self {
            LiteralRule::NoControlRegex => "no-control-regex",
            LiteralRule::NoDivRegex => "no-div-regex",
            LiteralRule::NoEmptyCharacterClass => "no-empty-character-class",
            LiteralRule::NoRegexSpaces => "no-regex-spaces",
            LiteralRule::NoScriptUrl => "no-script-url",
            LiteralRule::NoTemplateCurlyInString => "no-template-curly-in-string",
            LiteralRule::NoUselessEscape => "no-useless-escape",
        }
    }
}

/// The state before a regular expression; none before another literal.
fn from_slash(text: &[u8]) -> Option<TextState>
    ensures { result ≡ from_slash text.now }
{
    if byte_at(text, 0) == b'/' {
        Some(TextState::Slash)
    } else {
        None
    }
}

/// A state before a string; none before another literal.
fn from_quote(text: &[u8], state: TextState) -> Option<TextState>
    ensures { result ≡ from_quote text.now state }
{
    if is_quote(byte_at(text, 0)) {
        Some(state)
    } else {
        None
    }
}

/// The state before a regular expression or a string; none before another literal.
fn from_any(text: &[u8]) -> Option<TextState>
    ensures { result ≡ from_any text.now }
{
    if is_quote(byte_at(text, 0)) {
        Some(TextState::Quote)
    } else {
        from_slash(text)
    }
}

/// The state in which a rule begins to read a literal; none if it asks nothing of it.
pub(crate) fn begins_as(rule: LiteralRule, text: &[u8]) -> Option<TextState>
    ensures { result ≡ begins_as rule text.now }
{
    match rule {
        LiteralRule::NoControlRegex => from_slash(text),
        LiteralRule::NoDivRegex => from_slash(text),
        LiteralRule::NoEmptyCharacterClass => from_slash(text),
        LiteralRule::NoRegexSpaces => from_slash(text),
        LiteralRule::NoScriptUrl => from_quote(text, TextState::Quote),
        LiteralRule::NoTemplateCurlyInString => from_quote(text, TextState::Plain),
        LiteralRule::NoUselessEscape => from_any(text),
    }
}

/// Whether what a rule looks for stands next in a text.
pub(crate) fn is_marked(rule: LiteralRule, state: TextState, rest: &[u8]) -> bool
    ensures { result ≡ is_marked rule state rest.now }
{
    match rule {
        LiteralRule::NoControlRegex => is_control(state, rest),
        LiteralRule::NoDivRegex => begins_division(state, rest),
        LiteralRule::NoEmptyCharacterClass => ends_class(state, rest),
        LiteralRule::NoRegexSpaces => are_spaces(state, rest),
        LiteralRule::NoScriptUrl => begins_script(state, rest),
        LiteralRule::NoTemplateCurlyInString => closes(state, rest),
        LiteralRule::NoUselessEscape => is_useless(state, rest),
    }
}

/// Whether a rule reports each place in a text, and not just the first.
pub(crate) fn is_each(rule: LiteralRule) -> bool
    ensures { result ≡ is_each rule }
{
    matches!(rule, LiteralRule::NoUselessEscape)
}

/// Whether the first place is reported where it is, and not at the node.
pub(crate) fn is_at_mark(rule: LiteralRule) -> bool
    ensures { result ≡ is_at_mark rule }
{
    matches!(rule, LiteralRule::NoRegexSpaces)
}

/// What a rule says.
pub(crate) fn words(rule: LiteralRule) -> &'static str
    ensures { result.now ≡ says rule }
{
    match rule {
        LiteralRule::NoControlRegex => "control character",
        LiteralRule::NoDivRegex => "looks like '/='",
        LiteralRule::NoEmptyCharacterClass => "class without characters",
        LiteralRule::NoRegexSpaces => "several spaces",
        LiteralRule::NoScriptUrl => "code in a URL",
        LiteralRule::NoTemplateCurlyInString => "template in a string",
        LiteralRule::NoUselessEscape => "escape without use",
    }
}
