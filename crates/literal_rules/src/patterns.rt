//! What is looked for in patterns of regular expressions, and in strings.

ghost use Rattle.std.specs.Prelude.{◌≡◌};
ghost use Rattle.literal_rules.specs.Patterns.{are_spaces, begins_division, begins_script, closes, ends_class, in_pattern, is_control, is_low, is_low_byte, is_low_hex, is_low_unit, is_quantifier};

use crate::bytes::{byte_at, is_hex_digit};
use crate::escapes::begins_escape;
use crate::text_state::TextState;

/// Whether a text is read in a pattern, in a class or outside, and not behind a backslash.
fn in_pattern(state: TextState) -> bool
    ensures { result ≡ in_pattern state }
{
    matches!(
        state,
        TextState::Body | TextState::ClassStart | TextState::Class
    )
}

/// Whether two hexadecimal digits are a value below 32.
fn is_low_byte(first: u8, second: u8) -> bool
    ensures { result ≡ is_low_byte first second }
{
    (first == b'0' || first == b'1') && is_hex_digit(second)
}

/// Whether `x` and such digits stand behind a backslash.
fn is_low_hex(rest: &[u8]) -> bool
    ensures { result ≡ is_low_hex rest.now }
{
    byte_at(rest, 1) == b'x' && is_low_byte(byte_at(rest, 2), byte_at(rest, 3))
}

/// Whether `u00` and such digits stand behind a backslash.
fn is_low_unit(rest: &[u8]) -> bool
    ensures { result ≡ is_low_unit rest.now }
{
    byte_at(rest, 1) == b'u'
        && byte_at(rest, 2) == b'0'
        && byte_at(rest, 3) == b'0'
        && is_low_byte(byte_at(rest, 4), byte_at(rest, 5))
}

/// Whether a character below U+0020 stands next, as itself or by its number.
fn is_low(rest: &[u8]) -> bool
    ensures { result ≡ is_low rest.now }
{
    byte_at(rest, 0) < 32 || (begins_escape(rest) && (is_low_hex(rest) || is_low_unit(rest)))
}

/// Whether such a character stands next in a pattern.
pub(crate) fn is_control(state: TextState, rest: &[u8]) -> bool
    ensures { result ≡ is_control state rest.now }
{
    in_pattern(state) && is_low(rest)
}

/// Whether a regular expression begins with `/=`.
pub(crate) fn begins_division(state: TextState, rest: &[u8]) -> bool
    ensures { result ≡ begins_division state rest.now }
{
    matches!(state, TextState::Slash) && byte_at(rest, 1) == b'='
}

/// Whether the `]` of a class stands next that has nothing in it.
pub(crate) fn ends_class(state: TextState, rest: &[u8]) -> bool
    ensures { result ≡ ends_class state rest.now }
{
    matches!(state, TextState::ClassStart) && byte_at(rest, 0) == b']'
}

/// Whether a byte begins a quantifier.
fn is_quantifier(byte: u8) -> bool
    ensures { result ≡ is_quantifier byte }
{
    matches!(byte, b'*' | b'+' | b'?' | b'{')
}

/// Whether two spaces stand next outside classes, the second of which has no quantifier.
pub(crate) fn are_spaces(state: TextState, rest: &[u8]) -> bool
    ensures { result ≡ are_spaces state rest.now }
{
    matches!(state, TextState::Body)
        && byte_at(rest, 0) == b' '
        && byte_at(rest, 1) == b' '
        && !is_quantifier(byte_at(rest, 2))
}

/// Whether the `}` of what looks like a substitution stands next.
pub(crate) fn closes(state: TextState, rest: &[u8]) -> bool
    ensures { result ≡ closes state rest.now }
{
    matches!(state, TextState::Inside) && byte_at(rest, 0) == b'}'
}

/// Whether a string begins with `javascript:`, in small or capital letters.
pub(crate) fn begins_script(state: TextState, rest: &[u8]) -> bool
    ensures { result ≡ begins_script state rest.now }
{
    if !matches!(state, TextState::Quote) {
        return false;
    }
    match rest.get(1..12) {
        Some(word) => word.eq_ignore_ascii_case(b"javascript:"),
        None => false,
    }
}
