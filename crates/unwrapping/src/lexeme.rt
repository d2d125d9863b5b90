//! The tokens of a script with what stands before them.

use crate::reading::TokenRow;
use tokens::TokenClass;

/// A token of a script with the gap before it; the last one is the end of the text.
#[derive(Clone, Copy)]
pub(crate) struct Lexeme<'s> {
    pub class: TokenClass,
    pub text: &'s [u8],
    pub start: usize,
    pub end: usize,
    pub gap: &'s [u8],
    pub is_postfix: bool,
    /// It ends an export of the module's own names.
    pub ends_export: bool,
}

impl TokenRow {
    /// The characters of the token; none where the row is of another text.
    pub(crate) fn text(self, bytes: &[u8]) -> &[u8] {
        bytes_between(bytes, self.span.start as usize, self.span.end as usize)
    }
}

impl<'s> Lexeme<'s> {
    /// The token of a row, with the gap from a place on.
    pub(crate) fn of(bytes: &'s [u8], at: usize, row: TokenRow) -> Lexeme<'s> {
        let start = row.span.start as usize;
        let end = row.span.end as usize;
        Lexeme {
            class: row.class,
            text: row.text(bytes),
            start,
            end,
            gap: bytes_between(bytes, at, start),
            is_postfix: row.is_postfix,
            ends_export: row.ends_export,
        }
    }
}

/// The bytes between two places; none where the second comes before the first or after the end.
pub(crate) fn bytes_between(bytes: &[u8], start: usize, end: usize) -> &[u8] {
    if start <= end && end <= bytes.len() {
        return &bytes[start..end];
    }
    &[]
}
