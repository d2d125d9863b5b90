//! Which tokens may go or come, by what comes behind them.

ghost use Rattle.std.specs.Prelude.{◌≡◌, ◌||◌, true, [], ◌∷◌, IsTrue};
ghost use Rattle.tokens.specs.Lexical.{is_one_of_words};
ghost use Rattle.unwrapping.specs.Readings.{bytes_in};
ghost use Rattle.retaining.specs.Retains.{begin_with, is_before_closing, is_behind_import, next_has, is_plain_parameter};
ghost use Rattle.retaining.specs.Comparing.{words_in};

use crate::words::{are_same, bytes_of, is_punctuator};
use unwrapping::{ByteSpan, TokenRow};

/// Whether a token is `(`.
fn is_opening(text: &[u8], span: ByteSpan) -> bool
    ensures { result ≡ true → IsTrue (is_one_of_words ("(" ∷ []) (bytes_in text.now span)) }
{
    matches!(bytes_of(text, span), Some([b'(']))
}

/// Whether a token is `)`.
fn is_closing(text: &[u8], span: ByteSpan) -> bool
    ensures { result ≡ true → IsTrue (is_one_of_words (")" ∷ []) (bytes_in text.now span)) }
{
    matches!(bytes_of(text, span), Some([b')']))
}

/// Whether a token is `=>`.
fn is_arrow(text: &[u8], span: ByteSpan) -> bool
    ensures { result ≡ true → IsTrue (is_one_of_words ("=>" ∷ []) (bytes_in text.now span)) }
{
    matches!(bytes_of(text, span), Some([b'=', b'>']))
}

/// Whether a token is `,`.
pub(crate) fn is_comma(text: &[u8], span: ByteSpan) -> bool
    ensures { result ≡ true → IsTrue (is_one_of_words ("," ∷ []) (bytes_in text.now span)) }
{
    matches!(bytes_of(text, span), Some([b',']))
}

/// Whether a token is `{`.
pub(crate) fn is_opening_brace(text: &[u8], span: ByteSpan) -> bool
    ensures { result ≡ true → IsTrue (is_one_of_words ("{" ∷ []) (bytes_in text.now span)) }
{
    matches!(bytes_of(text, span), Some([b'{']))
}

/// Whether a token is `}`.
pub(crate) fn is_closing_brace(text: &[u8], span: ByteSpan) -> bool
    ensures { result ≡ true → IsTrue (is_one_of_words ("}" ∷ []) (bytes_in text.now span)) }
{
    matches!(bytes_of(text, span), Some([b'}']))
}

/// Whether a token is `from`.
pub(crate) fn is_from(text: &[u8], span: ByteSpan) -> bool
    ensures { result ≡ true → IsTrue (is_one_of_words ("from" ∷ []) (bytes_in text.now span)) }
{
    matches!(bytes_of(text, span), Some([b'f', b'r', b'o', b'm']))
}

/// Whether a token is `as`.
pub(crate) fn is_as(text: &[u8], span: ByteSpan) -> bool
    ensures { result ≡ true → IsTrue (is_one_of_words ("as" ∷ []) (bytes_in text.now span)) }
{
    matches!(bytes_of(text, span), Some([b'a', b's']))
}

/// Whether a token is `import`.
pub(crate) fn is_import(text: &[u8], span: ByteSpan) -> bool
    ensures { result ≡ true → IsTrue (is_one_of_words ("import" ∷ []) (bytes_in text.now span)) }
{
    match bytes_of(text, span) {
        Some(word) => word == b"import".as_slice(),
        None => false,
    }
}

/// Whether a token is `import` or `,`.
pub(crate) fn is_behind_import(text: &[u8], span: ByteSpan) -> bool
    ensures { result ≡ true → is_behind_import (bytes_in text.now span) ≡ true }
{
    is_comma(text, span) || is_import(text, span)
}

/// Whether a closing bracket comes next.
fn is_before_closing(text: &[u8], rows: &[TokenRow]) -> bool
    ensures { result ≡ true → is_before_closing (words_in text.now rows.now) ≡ true }
{
    match rows.first() {
        Some(row) => matches!(bytes_of(text, row.span), Some([b')' | b']' | b'}'])),
        None => false,
    }
}

/// Whether `=>` comes next.
pub(crate) fn is_before_arrow(text: &[u8], rows: &[TokenRow]) -> bool
    ensures { result ≡ true → begin_with ("=>" ∷ []) (words_in text.now rows.now) ≡ true }
{
    match rows.first() {
        Some(row) => is_arrow(text, row.span),
        None => false,
    }
}

/// Whether `from` comes next.
pub(crate) fn is_before_from(text: &[u8], rows: &[TokenRow]) -> bool
    ensures { result ≡ true → begin_with ("from" ∷ []) (words_in text.now rows.now) ≡ true }
{
    match rows.first() {
        Some(row) => is_from(text, row.span),
        None => false,
    }
}

/// Whether `}` and `from` come next.
pub(crate) fn closes_no_names(text: &[u8], rows: &[TokenRow]) -> bool
    ensures { result ≡ true → begin_with ("}" ∷ "from" ∷ []) (words_in text.now rows.now) ≡ true }
{
    match rows {
        [brace, ..] => is_closing_brace(text, brace.span) && is_before_from(text, &rows[1..]),
        _ => false,
    }
}

/// Whether `{`, `}` and `from` come next.
fn has_no_names(text: &[u8], rows: &[TokenRow]) -> bool
    ensures { result ≡ true → begin_with ("{" ∷ "}" ∷ "from" ∷ []) (words_in text.now rows.now) ≡ true }
{
    match rows {
        [brace, ..] => is_opening_brace(text, brace.span) && closes_no_names(text, &rows[1..]),
        _ => false,
    }
}

/// Whether a `,` before these tokens may go or come.
pub(crate) fn is_free_comma(text: &[u8], rows: &[TokenRow]) -> bool
    ensures { result ≡ true → (is_before_closing (words_in text.now rows.now) || begin_with ("{" ∷ "}" ∷ "from" ∷ []) (words_in text.now rows.now)) ≡ true }
{
    is_before_closing(text, rows) || has_no_names(text, rows)
}

/// Whether `)` and `=>` come next.
fn closes_parameter(text: &[u8], rows: &[TokenRow]) -> bool
    ensures { result ≡ true → begin_with (")" ∷ "=>" ∷ []) (words_in text.now rows.now) ≡ true }
{
    match rows {
        [closing, ..] => is_closing(text, closing.span) && is_before_arrow(text, &rows[1..]),
        _ => false,
    }
}

/// Whether `,`, `)` and `=>` come next.
fn closes_parameter_behind_comma(text: &[u8], rows: &[TokenRow]) -> bool
    ensures { result ≡ true → begin_with ("," ∷ ")" ∷ "=>" ∷ []) (words_in text.now rows.now) ≡ true }
{
    match rows {
        [comma, ..] => is_comma(text, comma.span) && closes_parameter(text, &rows[1..]),
        _ => false,
    }
}

/// Whether one plain parameter of an arrow comes, with its `)`.
pub(crate) fn is_plain_parameter(text: &[u8], rows: &[TokenRow]) -> bool
    ensures { result ≡ true → is_plain_parameter (words_in text.now rows.now) ≡ true }
{
    match rows {
        [name, ..] => {
            let others = &rows[1..];
            !is_punctuator(name.class)
                && (closes_parameter(text, others) || closes_parameter_behind_comma(text, others))
        }
        _ => false,
    }
}

/// Whether the next token has the characters of a span.
pub(crate) fn is_before_same(text: &[u8], span: ByteSpan, rows: &[TokenRow]) -> bool
    ensures { result ≡ true → next_has (bytes_in text.now span) (words_in text.now rows.now) ≡ true }
{
    match rows.first() {
        Some(row) => are_same(text, row.span, text, span),
        None => false,
    }
}

/// Whether `()` comes next.
pub(crate) fn begins_call(text: &[u8], rows: &[TokenRow]) -> bool
    ensures { result ≡ true → begin_with ("(" ∷ ")" ∷ []) (words_in text.now rows.now) ≡ true }
{
    match rows {
        [opening, closing, ..] => is_opening(text, opening.span) && is_closing(text, closing.span),
        _ => false,
    }
}
