//! Where a statement ends without its `;` (ECMA-262 11.9.1).

ghost use Rattle.std.specs.Prelude.{◌≡◌, ◌<◌, [], ◌∷◌, true, false, not, ◌&&◌, ◌||◌};
ghost use Rattle.std.specs.Str.{bytes_eq};
ghost use Rattle.tokens.specs.Scanned.{token_of};
ghost use Rattle.language.specs.Token.{as_read, is_mark};
ghost use Rattle.language.specs.Vocabulary.{is};
ghost use Rattle.language.specs.Token.{Token as Read};
ghost use Rattle.language.specs.Edges.{goes_on, value_goes_on, key_goes_on, edge_as_written, may_omit_semicolon, is_sign, is_end, begins, is_semicolon};
ghost use Rattle.token_cursor.specs.StatementEnds.{ending_of, is_later_end, key_word};

use crate::token_tests::{begins_key, is_name_token};
use language::Edge;
use tokens::{Token, TokenClass};

/// What the key of a field without a value may be the first word of instead (15.7 of the 13th edition).
#[derive(Clone, Copy)]
pub enum FieldKey {
    /// `get` or `set`: of an accessor.
    Accessor,
    /// `static`, where the field isn't static: of a static member.
    Static,
    Other,
}

/// The end of a statement, or of a field.
#[derive(Clone, Copy)]
pub enum StatementEnd {
    /// That of a `do`.
    DoWhile,
    /// Behind a node with this right edge, parentheses round it aside.
    AfterExpression(Edge),
    /// Of an export, behind the names of the module's own that it lists.
    AfterExport,
    /// Of a field, behind a value with this right edge.
    AfterValue(Edge),
    /// Of a field without a value.
    AfterKey(FieldKey),
}

/// Whether the token begins with this byte, which is beyond those of line ends.
fn begins_with(token: &Token<'_>, byte: u8) -> bool
    requires { 13 < byte }
    ensures { result ≡ begins (as_read (token_of token.now)) byte }
{
    match token.text.as_bytes().first() {
        Some(first) => *first == byte,
        None => false,
    }
}

/// Whether the token is the punctuator of this one byte.
pub(crate) fn is_punctuator(token: &Token<'_>, mark: u8) -> bool
    ensures { result ≡ is_mark (mark ∷ []) (as_read (token_of token.now)) }
{
    token.class == TokenClass::Punctuator && is_byte(token.text, mark)
}

/// Whether the text is this one byte.
#[inline(always)]
fn is_byte(text: &str, byte: u8) -> bool
    ensures { result ≡ bytes_eq text.now (byte ∷ []) }
{
    match text.as_bytes() {
        [only] => *only == byte,
        _ => false,
    }
}

/// Whether what ends with this right edge goes on with the token, so that a line break between them ends nothing
/// (ECMA-262 11.9.1).
pub fn goes_on(edge: Edge, token: &Token<'_>) -> bool
    ensures { result ≡ goes_on edge (as_read (token_of token.now)) }
{
    match edge {
        Edge::Arrow | Edge::Closed => false,
        Edge::Postfix => is_punctuator(token, b'+')
            || is_punctuator(token, b'-')
            || begins_with(token, b'/'),
        Edge::Other => {
            let opens = is_punctuator(token, b'(') || is_punctuator(token, b'[');
            let adds = is_punctuator(token, b'+') || is_punctuator(token, b'-');
            opens || adds || begins_with(token, b'/') || begins_with(token, b'`')
        }
    }
}

/// Whether the token is `)`.
fn is_closing(token: &Token<'_>) -> bool
    ensures { result ≡ is (as_read (token_of token.now)).text ")" }
{
    is_byte(token.text, b')')
}

/// The right edge as it is written: after a `)`, that of an expression in parentheses.
fn edge_as_written(edge: Edge, last: &Token<'_>) -> Edge
    ensures { result ≡ edge_as_written edge (as_read (token_of last.now)) }
{
    match edge {
        Edge::Arrow | Edge::Postfix if is_closing(last) => Edge::Other,
        _ => edge,
    }
}

/// Whether the `;` between two tokens may be missing (11.9); the second one is no `;`.
pub(crate) fn may_omit_semicolon(ending: StatementEnd, last: &Token<'_>, token: &Token<'_>) -> bool
    requires { is_semicolon (as_read (token_of token.now)) ≡ false }
    ensures { result ≡ may_omit_semicolon (ending_of ending) (as_read (token_of last.now)) (as_read (token_of token.now)) }
{
    if token.class == TokenClass::End || is_punctuator(token, b'}') {
        return true;
    }
    match ending {
        StatementEnd::DoWhile => true,
        StatementEnd::AfterExpression(edge) => token.after_break
            && !goes_on(edge_as_written(edge, last), token),
        _ => token.after_break && !later_end_goes_on(ending, last, token),
    }
}

/// Whether an export of names, or a field, goes on with the token.
#[inline(never)]
fn later_end_goes_on(ending: StatementEnd, last: &Token<'_>, token: &Token<'_>) -> bool
    ensures { let l = as_read (token_of last.now) in
        let t = as_read (token_of token.now) in
        is_later_end ending ≡ true → is_semicolon t ≡ false → may_omit_semicolon (ending_of ending) l t ≡ ((is_end t || (is_sign t && is t.text "}")) || (t.after_break && not result)) }
{
    match ending {
        StatementEnd::AfterValue(edge) => value_goes_on(edge_as_written(edge, last), token),
        StatementEnd::AfterKey(key) => key_goes_on(key, token),
        StatementEnd::AfterExport => is_name_token(token, "from"),
        StatementEnd::DoWhile | StatementEnd::AfterExpression(_) => false,
    }
}

/// Whether a value with this right edge goes on with the token; what begins a member counts too, since no statement begins so.
fn value_goes_on(edge: Edge, token: &Token<'_>) -> bool
    ensures { result ≡ value_goes_on edge (as_read (token_of token.now)) }
{
    if goes_on(edge, token) {
        return true;
    }
    match edge {
        Edge::Arrow | Edge::Closed => false,
        Edge::Postfix | Edge::Other => is_punctuator(token, b'*')
            || is_name_token(token, "in")
            || is_name_token(token, "instanceof"),
    }
}

/// Whether a field without a value goes on with the token, since its key is then the first word of another member.
fn key_goes_on(key: FieldKey, token: &Token<'_>) -> bool
    ensures { result ≡ key_goes_on (key_word key) false (as_read (token_of token.now)) }
{
    match key {
        FieldKey::Accessor => begins_key(token),
        FieldKey::Static => begins_key(token) || is_punctuator(token, b'*'),
        FieldKey::Other => false,
    }
}

/// What a field's key without a value may be the first word of, by the text of a key that is a name.
pub fn field_key(name: &str, is_static: bool) -> FieldKey
    ensures { (t : Read) → key_goes_on (key_word result) false t ≡ key_goes_on name.now is_static t }
{
    match name {
        "get" | "set" => FieldKey::Accessor,
        "static" if !is_static => FieldKey::Static,
        _ => FieldKey::Other,
    }
}
