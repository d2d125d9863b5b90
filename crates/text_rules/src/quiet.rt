//! Texts of which a rule reports no character: told without knowing what is a comment.

ghost use Rattle.std.specs.Prelude.{◌≡◌};
ghost use Rattle.std.specs.List.{list_any};
ghost use Rattle.std.specs.Str.{chars};
ghost use Rattle.source_text.specs.Lines.{is_line_terminator};
ghost use Rattle.source_text.specs.Source.{IsPlace};
ghost use Rattle.tokens.specs.Scanned.{AllPass};
ghost use Rattle.text_rules.specs.Quiet.{is_odd, is_quiet, may_mark};
ghost use Rattle.text_rules.specs.Rows.{is_irregular};

use crate::text_rule::{TextRule, is_irregular};
use source_text::is_line_terminator;
use tokens::char_at;

/// Whether a byte is a character of ASCII, and none of U+000A to U+000D.
#[inline]
fn is_quiet(byte: u8) -> bool
    ensures { result ≡ is_quiet byte }
{
    byte < 128 && !(10 <= byte && byte <= 13)
}

/// Where the run of such characters from this place on ends, in bytes.
#[inline]
fn quiet_end(text: &str, at: usize) -> usize
    requires { IsPlace text.now at }
    ensures { AllPass is_quiet text.now at result }
{
    let bytes = text.as_bytes();
    let mut end = at;
    while end < bytes.len() && is_quiet(bytes[end]) {
        end += 1;
    }
    end
}

/// Whether a byte may belong to irregular white space: it is no character of ASCII, or it is U+000B or U+000C.
#[inline]
fn is_odd(byte: u8) -> bool
    ensures { result ≡ is_odd byte }
{
    byte >= 128 || byte == 11 || byte == 12
}

/// Whether one of these bytes may. All of them are asked, so that many are asked at once.
fn has_odd(bytes: &[u8]) -> bool
    ensures { result ≡ list_any is_odd bytes.now }
{
    let mut found = false;
    for byte in bytes {
        found = found | is_odd(*byte);
    }
    found
}

/// Whether a text has white space that is irregular.
fn has_irregular(text: &str) -> bool
    ensures { result ≡ list_any is_irregular (chars text.now) }
{
    if !has_odd(text.as_bytes()) {
        return false;
    }
    let mut at = quiet_end(text, 0);
    while let Some(step) = char_at(text, at) {
        if is_irregular(step.c) {
            return true;
        }
        at = quiet_end(text, step.end);
    }
    false
}

/// Whether a text has a line terminator.
fn has_line_terminator(text: &str) -> bool
    ensures { result ≡ list_any is_line_terminator (chars text.now) }
{
    let mut at = quiet_end(text, 0);
    while let Some(step) = char_at(text, at) {
        if is_line_terminator(step.c) {
            return true;
        }
        at = quiet_end(text, step.end);
    }
    false
}

/// Whether a rule may report a character of a text: if not, the text needs no reading.
pub(crate) fn may_mark(rule: TextRule, text: &str) -> bool
    ensures { result ≡ may_mark rule (chars text.now) }
{
    match rule {
        TextRule::NoCondAssign => false,
        TextRule::NoIrregularWhitespace => has_irregular(text),
        TextRule::NoSequences => true,
        TextRule::NoUnexpectedMultiline => has_line_terminator(text),
    }
}
