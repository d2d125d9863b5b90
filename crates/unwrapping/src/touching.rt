//! Where a blank has to come between two tokens that a parenthesis stood between.

use crate::gap::Part;
use crate::writer::Last;
use tokens::TokenClass;

/// What comes next after a token that is written: the first character, and whether it is that of a word with nothing before it.
#[derive(Clone, Copy)]
pub(crate) struct Next {
    first: u8,
    is_word: bool,
}

impl Next {
    /// None where blanks come, or nothing.
    pub(crate) fn of(
        gap: &[Part<'_>],
        is_opened: bool,
        class: TokenClass,
        text: &[u8],
    ) -> Option<Next> {
        if let Some(part) = gap.first() {
            return Next::of_part(*part);
        }
        if is_opened {
            return Some(Next::mark(b'('));
        }
        let Some(first) = text.first() else {
            return None;
        };
        Some(Next {
            first: *first,
            is_word: matches!(class, TokenClass::IdentifierName),
        })
    }

    /// What comes next if this part does: nothing if it is blank, else the `/` of its comment.
    fn of_part(part: Part<'_>) -> Option<Next> {
        if part.is_blank() {
            return None;
        }
        Some(Next::mark(b'/'))
    }

    /// What comes next if it begins with this byte and is no word.
    fn mark(first: u8) -> Next {
        Next {
            first,
            is_word: false,
        }
    }
}

/// Whether a blank has to come between the two where a `(` stood.
pub(crate) fn touch_over_opening(last: Last<'_>, end: u8, next: Next) -> bool {
    let is_word = matches!(last.class, TokenClass::IdentifierName)
        && !last.is_closed
        && next.first != b'(';
    is_word || run_together(last, end, next.first)
}

/// Whether the tokens touch where a `)` stood between them.
pub(crate) fn touch_over_closing(last: Last<'_>, end: u8, next: Next) -> bool {
    (next.is_word && end != b')') || run_together(last, end, next.first)
}

/// Whether characters would be read as another token, or as a comment that browsers know: what is written last, the last character of
/// it, and the next one.
fn run_together(last: Last<'_>, end: u8, first: u8) -> bool {
    match (end, first) {
        (b'+', b'+') | (b'-', b'-') | (b'/', b'/') | (b'<', b'!') => true,
        (b'!', b'-') => last.follows_less,
        (_, b'.') => matches!(last.class, TokenClass::NumericLiteral)
            && is_decimal_integer(last.text),
        _ => false,
    }
}

/// Whether all bytes are decimal digits or `_`.
fn is_decimal_integer(number: &[u8]) -> bool {
    for byte in number {
        if !matches!(*byte, b'0'..=b'9' | b'_') {
            return false;
        }
    }
    true
}
