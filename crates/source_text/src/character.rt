//! The characters between tokens (ECMA-262 11.2 and 11.3).

ghost use Rattle.std.specs.Prelude.{◌≡◌};
ghost use Rattle.source_text.specs.Lines.{is_line_terminator};
ghost use Rattle.source_text.specs.Spaces.{is_white_space};

/// Whether the character ends a line: U+000A, U+000D, U+2028 and U+2029 (ECMA-262 11.3).
#[inline]
pub fn is_line_terminator(c: char) -> bool
    ensures { result ≡ is_line_terminator c }
{
    matches!(c, '\n' | '\r' | '\u{2028}' | '\u{2029}')
}

/// Whether the character is white space (ECMA-262 11.2): U+0009, U+000B, U+000C, U+FEFF and the space separators
/// of Unicode. No line terminator is.
#[inline]
pub fn is_space(c: char) -> bool
    ensures { result ≡ is_white_space c }
{
    matches!(
        c,
        '\t' | '\u{B}'
            | '\u{C}'
            | ' '
            | '\u{A0}'
            | '\u{FEFF}'
            | '\u{1680}'
            | '\u{202F}'
            | '\u{205F}'
            | '\u{3000}'
    ) || matches!(c, '\u{2000}'..='\u{200A}')
}
