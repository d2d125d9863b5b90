//! Names (ECMA-262 11.6.1), and private names (12.6 of the 13th edition).

ghost use Rattle.std.specs.Prelude.{◌≡◌, ◌<◌, ◌&&◌, ◌||◌, [], ◌∷◌, ℕ, IfSome, IfNone, IsFalse};
ghost use Rattle.std.specs.Char.{is_ascii, is_ascii_alphabetic, is_ascii_alphanumeric};
ghost use Rattle.source_text.specs.Source.{IsPlace};
ghost use Rattle.tokens.specs.Alphabet.{begins_with, is_identifier_start, is_identifier_part, one_of};
ghost use Rattle.tokens.specs.Reading.{behind};
ghost use Rattle.tokens.specs.Scanned.{AllPass, IsRun, IsWordAt, NoWordAt, Passed};

use crate::TokenClass;
use crate::character::{CharAt, ascii_char_at, char_at};
use unicode_ident::{is_xid_continue, is_xid_start};

/// The IdentifierPart characters of ASCII, each at its own place: `$`, the digits, the letters and `_`. A comma is at every other place.
static PARTS: [u8; 256] = *b"\
    ,,,,,,,,,,,,,,,,,,,,,,,,,,,,,,,,\
    ,,,,$,,,,,,,,,,,0123456789,,,,,,\
    ,ABCDEFGHIJKLMNOPQRSTUVWXYZ,,,,_\
    ,abcdefghijklmnopqrstuvwxyz,,,,,\
    ,,,,,,,,,,,,,,,,,,,,,,,,,,,,,,,,\
    ,,,,,,,,,,,,,,,,,,,,,,,,,,,,,,,,\
    ,,,,,,,,,,,,,,,,,,,,,,,,,,,,,,,,\
    ,,,,,,,,,,,,,,,,,,,,,,,,,,,,,,,,";

/// Whether a character of ASCII is an IdentifierStart (11.6).
#[inline]
fn is_ascii_start(c: char) -> bool
    ensures { result ≡ (one_of "$_" c || is_ascii_alphabetic c) }
{
    matches!(c, 'a'..='z' | 'A'..='Z' | '$' | '_')
}

/// Whether a character of ASCII is an IdentifierPart (11.6).
#[inline]
fn is_ascii_part(c: char) -> bool
    requires { c < 128 }
    ensures { result ≡ (one_of "$_" c || is_ascii_alphanumeric c) }
{
    PARTS[c as usize] != b','
}

/// Whether a byte is an IdentifierPart character of ASCII (11.6).
#[inline]
fn is_part_byte(byte: u8) -> bool
    ensures { result ≡ (one_of "$_" byte || is_ascii_alphanumeric byte) }
{
    PARTS[byte as usize] != b','
}

/// Whether the character is an IdentifierStart (11.6), escapes aside.
#[inline]
pub(crate) fn is_start(c: char) -> bool
    ensures { result ≡ is_identifier_start c }
{
    if c.is_ascii() {
        return is_ascii_start(c);
    }
    is_xid_start(c)
}

/// Whether the character is an IdentifierPart (11.6), escapes aside.
#[inline]
pub(crate) fn is_part(c: char) -> bool
    ensures { result ≡ is_identifier_part c }
{
    if c.is_ascii() {
        return is_ascii_part(c);
    }
    is_xid_continue(c) || c == '\u{200C}' || c == '\u{200D}'
}

/// Where the name that begins with this character ends, in bytes; none if no name begins with it.
#[inline(always)]
pub(crate) fn name_end(text: &str, first: CharAt) -> Option<usize>
    requires { IsPlace text.now first.end }
    ensures some { (at : ℕ) → Passed text.now at first.end (first.c ∷ []) → IfSome result (λ e. IsWordAt TokenClass.IdentifierName text.now at e) }
    ensures none { (at : ℕ) → Passed text.now at first.end (first.c ∷ []) → IfNone result (NoWordAt TokenClass.IdentifierName text.now at) }
{
    if is_start(first.c) {
        return Some(parts_end(text, first.end));
    }
    None
}

/// Where the private name that begins with this character ends, in bytes: `#` and a name; none if no private name begins with it.
#[inline]
pub(crate) fn private_name_end(text: &str, first: CharAt) -> Option<usize>
    requires { IsPlace text.now first.end }
    ensures some { (at : ℕ) → Passed text.now at first.end (first.c ∷ []) → IfSome result (λ e. IsWordAt TokenClass.PrivateName text.now at e) }
    ensures none { (at : ℕ) → Passed text.now at first.end (first.c ∷ []) → IfNone result (NoWordAt TokenClass.PrivateName text.now at) }
{
    if first.c != '#' {
        return None;
    }
    let Some(second) = char_at(text, first.end) else {
        return None;
    };
    name_end(text, second)
}

/// Where the IdentifierPart characters from this place on end, in bytes.
#[inline(always)]
pub(crate) fn parts_end(text: &str, at: usize) -> usize
    requires { IsPlace text.now at }
    ensures { IsRun is_identifier_part text.now at result }
{
    let mut end = ascii_parts_end(text, at);
    while let Some(step) = char_at(text, end) {
        if !is_part(step.c) {
            return end;
        }
        end = ascii_parts_end(text, step.end);
    }
    end
}

/// Where the run of IdentifierPart characters of ASCII from this place on ends, in bytes.
#[inline]
fn ascii_parts_end(text: &str, at: usize) -> usize
    requires { IsPlace text.now at }
    ensures run { AllPass is_identifier_part text.now at result }
    ensures stops { IsFalse (begins_with (λ c. is_ascii c && is_identifier_part c) (behind text.now result)) }
{
    let bytes = text.as_bytes();
    let mut end = at;
    while end < bytes.len() && is_part_byte(bytes[end]) {
        end += 1;
    }
    end
}

/// Where the IdentifierPart characters from this place on end, in bytes; none where no character of ASCII follows those of ASCII.
#[inline(always)]
pub(crate) fn ascii_run_end(text: &str, at: usize) -> Option<usize>
    requires { IsPlace text.now at }
    ensures { IfSome result (λ e. IsRun is_identifier_part text.now at e) }
{
    let end = ascii_parts_end(text, at);
    match ascii_char_at(text, end) {
        Some(_) => Some(end),
        None => None,
    }
}
