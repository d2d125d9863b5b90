//! Backslashes before what is itself without them.

ghost use Rattle.std.specs.Prelude.{◌≡◌};
ghost use Rattle.literal_rules.specs.Escapes.{begins_escape, ends_line, is_class_escape, is_pattern_escape, is_string_escape, is_syntax, is_useless, is_useless_here, is_useless_in_class, is_useless_in_string, is_useless_in_template};

use crate::bytes::{byte_at, is_digit};
use crate::text_state::TextState;

/// Whether a backslash stands next that has no use.
pub(crate) fn is_useless(state: TextState, rest: &[u8]) -> bool
    ensures { result ≡ is_useless state rest.now }
{
    begins_escape(rest) && is_useless_here(state, rest)
}

/// Whether a backslash stands next.
pub(crate) fn begins_escape(rest: &[u8]) -> bool
    ensures { result ≡ begins_escape rest.now }
{
    byte_at(rest, 0) == b'\\'
}

/// Whether a backslash that stands next has no use there.
fn is_useless_here(state: TextState, rest: &[u8]) -> bool
    ensures { result ≡ is_useless_here state rest.now }
{
    match state {
        TextState::Body => !is_pattern_escape(byte_at(rest, 1)),
        TextState::ClassStart => is_useless_in_class(rest, true),
        TextState::Class => is_useless_in_class(rest, false),
        TextState::Double => is_useless_in_string(rest, b'"'),
        TextState::Single => is_useless_in_string(rest, b'\''),
        TextState::Template => is_useless_in_template(rest, false),
        TextState::TemplateDollar => is_useless_in_template(rest, true),
        _ => false,
    }
}

/// Whether a backslash has a use before a byte, wherever it stands in a pattern.
fn is_class_escape(byte: u8) -> bool
    ensures { result ≡ is_class_escape byte }
{
    is_digit(byte)
        || matches!(
            byte,
            b'\\' | b']' | b'b' | b'c' | b'd' | b'D' | b'f' | b'n' | b'p' | b'P'
        )
        || matches!(
            byte,
            b'r' | b's' | b'S' | b't' | b'v' | b'w' | b'W' | b'x' | b'u'
        )
}

/// Whether a byte is a SyntaxCharacter outside classes, or a `/`.
fn is_syntax(byte: u8) -> bool
    ensures { result ≡ is_syntax byte }
{
    matches!(
        byte,
        b'^' | b'$' | b'.' | b'*' | b'+' | b'?' | b'(' | b')' | b'[' | b'{' | b'}' | b'|' | b'/'
    )
}

/// Whether a backslash has a use before a byte outside classes.
fn is_pattern_escape(byte: u8) -> bool
    ensures { result ≡ is_pattern_escape byte }
{
    is_class_escape(byte) || is_syntax(byte) || byte == b'B' || byte == b'k'
}

/// Whether a backslash in a class has no use: at its start it has one before `^`, elsewhere before a `-` behind which the class goes on.
fn is_useless_in_class(rest: &[u8], is_first: bool) -> bool
    ensures { result ≡ is_useless_in_class rest.now is_first }
{
    let byte = byte_at(rest, 1);
    if is_class_escape(byte) {
        return false;
    }
    if is_first {
        byte != b'^'
    } else {
        byte != b'-' || byte_at(rest, 2) == b']'
    }
}

/// Whether a line end stands behind a backslash.
fn ends_line(rest: &[u8]) -> bool
    ensures { result ≡ ends_line rest.now }
{
    match byte_at(rest, 1) {
        10 | 13 => true,
        0xE2 => {
            let last = byte_at(rest, 3);
            byte_at(rest, 2) == 0x80 && (last == 0xA8 || last == 0xA9)
        },
        _ => false,
    }
}

/// Whether a backslash has a use in strings and templates.
fn is_string_escape(rest: &[u8]) -> bool
    ensures { result ≡ is_string_escape rest.now }
{
    let byte = byte_at(rest, 1);
    ends_line(rest)
        || is_digit(byte)
        || matches!(
            byte,
            b'\\' | b'n' | b'r' | b'v' | b't' | b'b' | b'f' | b'u' | b'x'
        )
}

/// Whether a backslash in a string has no use.
fn is_useless_in_string(rest: &[u8], quote: u8) -> bool
    ensures { result ≡ is_useless_in_string rest.now quote }
{
    !is_string_escape(rest) && byte_at(rest, 1) != quote
}

/// Whether a backslash in a template has no use, perhaps behind a `$`.
fn is_useless_in_template(rest: &[u8], is_behind_dollar: bool) -> bool
    ensures { result ≡ is_useless_in_template rest.now is_behind_dollar }
{
    if is_string_escape(rest) {
        return false;
    }
    match byte_at(rest, 1) {
        b'`' => false,
        b'$' => byte_at(rest, 2) != b'{',
        b'{' => !is_behind_dollar,
        _ => true,
    }
}
