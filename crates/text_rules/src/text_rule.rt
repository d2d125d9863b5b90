//! Which rules that look at what stands between tokens there are, row by row: a variant, a name, the words, the nodes that a rule looks at,
//! and the characters that it reports. A rule has an arm in each table here, and in those of `specs/Rows.antt`.

ghost use Rattle.std.specs.Prelude.{◌≡◌};
ghost use Rattle.text_rules.specs.Found.{reads_all};
ghost use Rattle.text_rules.specs.Rows.{is_irregular, looks, marks, says};

use crate::reading::{Reading, opens};
use crate::spot::{is_outside, is_token};
use source_text::{is_line_terminator, is_space};
use tree::Kind;

/// A rule that looks at what stands between tokens.
#[derive(Clone, Copy, Debug, PartialEq, Eq)]
pub enum TextRule {
    NoCondAssign,
    NoIrregularWhitespace,
    NoSequences,
    NoUnexpectedMultiline,
}

/// The rules, in the order of their names.
pub const TEXT_RULES: [TextRule; 4] = [
    TextRule::NoCondAssign,
    TextRule::NoIrregularWhitespace,
    TextRule::NoSequences,
    TextRule::NoUnexpectedMultiline,
];

impl TextRule {
    ghost use Rattle.std.specs.Prelude.{◌≡◌};
    ghost use Rattle.text_rules.specs.Rows.{called};

    /// What settings and reports call it.
    pub fn name(self) -> &'static str
        ensures { result.now ≡ called self }
    {
        match self {
            TextRule::NoCondAssign => "no-cond-assign",
            TextRule::NoIrregularWhitespace => "no-irregular-whitespace",
            TextRule::NoSequences => "no-sequences",
            TextRule::NoUnexpectedMultiline => "no-unexpected-multiline",
        }
    }
}

/// What a rule says.
pub(crate) fn words(rule: TextRule) -> &'static str
    ensures { result.now ≡ says rule }
{
    match rule {
        TextRule::NoCondAssign => "assignment as a condition",
        TextRule::NoIrregularWhitespace => "irregular white space",
        TextRule::NoSequences => "comma operator",
        TextRule::NoUnexpectedMultiline => "goes on from the line before",
    }
}

/// Whether a rule reads the whole text outside literals, and no nodes.
pub(crate) fn reads_all(rule: TextRule) -> bool
    ensures { result ≡ reads_all rule }
{
    matches!(rule, TextRule::NoIrregularWhitespace)
}

/// Whether a rule looks at the parts of nodes of a kind.
pub(crate) fn looks(rule: TextRule, kind: Kind) -> bool
    ensures { result ≡ looks rule kind }
{
    match rule {
        TextRule::NoCondAssign => matches!(
            kind,
            Kind::IfStatement | Kind::WhileStatement | Kind::DoWhileStatement | Kind::ForStatement
        ),
        TextRule::NoIrregularWhitespace => false,
        TextRule::NoSequences => true,
        TextRule::NoUnexpectedMultiline => matches!(
            kind,
            Kind::CallExpression | Kind::MemberExpression | Kind::TaggedTemplateExpression
        ),
    }
}

/// Whether a character is white space, but neither a tab nor a space, or a line terminator, but neither LF nor CR.
pub(crate) fn is_irregular(c: char) -> bool
    ensures { result ≡ is_irregular c }
{
    (is_space(c) || is_line_terminator(c)) && !matches!(c, '\t' | '\n' | '\r' | ' ')
}

/// Whether a rule reports a character, where so much is known of what stands before it.
pub(crate) fn marks(rule: TextRule, reading: Reading, c: char) -> bool
    ensures { result ≡ marks rule reading c }
{
    match rule {
        TextRule::NoCondAssign => false,
        TextRule::NoIrregularWhitespace => is_outside(reading.spot, c) && is_irregular(c),
        TextRule::NoSequences => is_token(reading.spot, c) && c == ',',
        TextRule::NoUnexpectedMultiline => {
            is_token(reading.spot, c) && opens(c) && reading.broken && !reading.opened
        }
    }
}
