//! Strings (ECMA-262 11.8.4).

ghost use Rattle.std.specs.Prelude.{◌≡◌, ◌==◌, ◌||◌, IfSome, IfNone, IsTrue};
ghost use Rattle.source_text.specs.Source.{IsPlace};
ghost use Rattle.tokens.specs.Alphabet.{one_of};
ghost use Rattle.tokens.specs.Escaped.{IsStringRest, NoStringRest};
ghost use Rattle.tokens.specs.Scanned.{IsWordAt, NoWordAt};

use crate::TokenClass;
use crate::character::char_at;
use crate::escape::character_value;
use crate::plain::plain_end;

/// Where the string at this place ends, in bytes; none if there is none (11.8.4).
pub(crate) fn string_end(text: &str, at: usize) -> Option<usize>
    requires { IsPlace text.now at }
    ensures some { IfSome result (λ e. IsWordAt TokenClass.StringLiteral text.now at e) }
    ensures none { IfNone result (NoWordAt TokenClass.StringLiteral text.now at) }
{
    let Some(first) = char_at(text, at) else {
        return None;
    };
    if first.c == '"' || first.c == '\'' {
        return closed_end(text, first.end, first.c);
    }
    None
}

/// Whether a string may not hold the character unescaped because it ends the line: LF or CR (11.8.4).
#[inline]
fn ends_line(c: char) -> bool
    ensures { result ≡ ((c == 0xA) || (c == 0xD)) }
{
    c == '\n' || c == '\r'
}

/// Where a string ends, in bytes, that was opened by this quote before the place; none if it isn't closed.
fn closed_end(text: &str, at: usize, quote: char) -> Option<usize>
    requires place { IsPlace text.now at }
    requires quote { IsTrue (one_of "'\"" quote) }
    ensures some { IfSome result (λ e. IsStringRest quote text.now at e) }
    ensures none { IfNone result (NoStringRest quote text.now at) }
{
    let mut end = plain_end(text, at);
    while let Some(step) = char_at(text, end) {
        if step.c == quote {
            return Some(step.end);
        }
        if ends_line(step.c) {
            return None;
        }
        let Some(character_value) = character_value(text, step.c, step.end) else {
            return None;
        };
        end = plain_end(text, character_value.end);
    }
    None
}
