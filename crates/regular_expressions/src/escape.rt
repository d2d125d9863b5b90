//! Escapes behind their backslash (CharacterEscape and CharacterClassEscape of 22.2.1).

ghost use Rattle.std.specs.Prelude.{◌≡◌, ◌∷◌, None, IfSome, IfNone, IsFalse};
ghost use Rattle.source_text.specs.Source.{IsPlace};
ghost use Rattle.tokens.specs.Alphabet.{begins_with, is_decimal_digit, one_of};
ghost use Rattle.tokens.specs.Reading.{behind};
ghost use Rattle.regular_expressions.specs.Characters.{as_character, control_letter, control_value, escape, is_identity_escape};
ghost use Rattle.regular_expressions.specs.Scanned.{IsRead};

use crate::character::is_id_continue;
use crate::count::is_decimal_digit;
use crate::hex::{Number, hex_digits, unicode_escape};
use crate::property::property;
use tokens::char_at;

/// What an atom stands for, the value of a character or, if there is none, a class, and the place behind it.
#[derive(Clone, Copy)]
pub struct Valued {
    pub value: Option<u32>,
    pub end: usize,
}

/// The character of this value.
fn as_character(number: Option<Number>) -> Option<Valued>
    ensures some { IfSome number (λ n. result ≡ Some (record { value = Some n.value; end = n.end })) }
    ensures none { IfNone number (result ≡ None) }
{
    match number {
        Some(number) => Some(Valued {
            value: Some(number.value),
            end: number.end,
        }),
        None => None,
    }
}

/// Whether the character is an IdentityEscape.
fn is_identity_escape(is_unicode: bool, c: char) -> bool
    ensures { result ≡ is_identity_escape is_unicode c }
{
    if is_unicode {
        return matches!(
            c,
            '^' | '$' | '\\' | '.' | '*' | '+' | '?' | '(' | ')' | '[' | ']' | '{' | '}' | '|' | '/'
        );
    }
    !is_id_continue(c)
}

/// The value of a ControlEscape.
fn control_value(c: char) -> u32
    ensures { result ≡ control_value c }
{
    match c {
        't' => 0x9,
        'n' => 0xA,
        'v' => 0xB,
        'f' => 0xC,
        _ => 0xD,
    }
}

/// ControlLetter.
fn control_letter(text: &str, at: usize) -> Option<Valued>
    requires { IsPlace text.now at }
    ensures some { IfSome result (λ r. IsRead (control_letter (behind text.now at)) r.value text.now at r.end) }
    ensures none { IfNone result (control_letter (behind text.now at) ≡ None) }
{
    let Some(step) = char_at(text, at) else {
        return None;
    };
    let value = match step.c {
        'a'..='z' => step.c as u32 - 'a' as u32 + 1,
        'A'..='Z' => step.c as u32 - 'A' as u32 + 1,
        _ => return None,
    };
    Some(Valued {
        value: Some(value),
        end: step.end,
    })
}

/// Whether a decimal digit stands at this place.
fn digit_stands(text: &str, at: usize) -> bool
    requires { IsPlace text.now at }
    ensures { result ≡ begins_with is_decimal_digit (behind text.now at) }
{
    let Some(step) = char_at(text, at) else {
        return false;
    };
    is_decimal_digit(step.c)
}

/// The escape `\0` behind its `0`.
fn null_escape(text: &str, at: usize) -> Option<Valued>
    requires { IsPlace text.now at }
    ensures some { (u : _) → IfSome result (λ r. IsRead (escape u (0x30 ∷ behind text.now at)) r.value text.now at r.end) }
    ensures none { (u : _) → IfNone result (escape u (0x30 ∷ behind text.now at) ≡ None) }
{
    if digit_stands(text, at) {
        return None;
    }
    Some(Valued {
        value: Some(0),
        end: at,
    })
}

/// An escape by its first character that is none of `dDsSwWfnrtvc0xu`, from behind that.
fn other_escape(text: &str, is_unicode: bool, c: char, at: usize) -> Option<Valued>
    requires place { IsPlace text.now at }
    requires other { IsFalse (one_of "dDsSwWfnrtvc0xu" c) }
    ensures some { IfSome result (λ r. IsRead (escape is_unicode (c ∷ behind text.now at)) r.value text.now at r.end) }
    ensures none { IfNone result (escape is_unicode (c ∷ behind text.now at) ≡ None) }
{
    if is_unicode && (c == 'p' || c == 'P') {
        return match property(text, at) {
            Some(end) => Some(Valued { value: None, end }),
            None => None,
        };
    }
    if !is_identity_escape(is_unicode, c) {
        return None;
    }
    Some(Valued {
        value: Some(c as u32),
        end: at,
    })
}

/// An escape by its first character, from behind that.
pub(crate) fn escape_by(text: &str, is_unicode: bool, c: char, at: usize) -> Option<Valued>
    requires { IsPlace text.now at }
    ensures some { IfSome result (λ r. IsRead (escape is_unicode (c ∷ behind text.now at)) r.value text.now at r.end) }
    ensures none { IfNone result (escape is_unicode (c ∷ behind text.now at) ≡ None) }
{
    match c {
        'd' | 'D' | 's' | 'S' | 'w' | 'W' => Some(Valued {
            value: None,
            end: at,
        }),
        'f' | 'n' | 'r' | 't' | 'v' => Some(Valued {
            value: Some(control_value(c)),
            end: at,
        }),
        'c' => control_letter(text, at),
        '0' => null_escape(text, at),
        'x' => as_character(hex_digits(text, at, 2)),
        'u' => as_character(unicode_escape(text, is_unicode, at)),
        _ => other_escape(text, is_unicode, c, at),
    }
}
