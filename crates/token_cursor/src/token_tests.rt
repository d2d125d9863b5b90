//! Tests of a token, by its class and its text.

ghost use Rattle.std.specs.Prelude.{◌≡◌, ◌&&◌};
ghost use Rattle.std.specs.Bool.{OnTrue};
ghost use Rattle.std.specs.Str.{bytes_eq};
ghost use Rattle.tokens.specs.Scanned.{token_of};
ghost use Rattle.language.specs.Token.{as_read, same_class, is_token, is_mark};
ghost use Rattle.language.specs.Edges.{begins_key};
ghost use Rattle.token_cursor.specs.Seen.{is_word_class, is_key_class, is_free_name, declares};

use grammar::is_reserved;
use tokens::{Token, TokenClass};

/// Whether two texts are the same; texts of one byte are compared first, since most punctuators have one.
#[inline(always)]
fn is_same_text(text: &str, other: &str) -> bool
    ensures { result ≡ bytes_eq text.now other.now }
{
    match (text.as_bytes(), other.as_bytes()) {
        ([byte], [same]) => byte == same,
        (bytes, others) => bytes.len() == others.len() && text == other,
    }
}

/// Whether the token is this punctuator.
#[inline(always)]
pub fn is_punctuator(token: &Token<'_>, mark: &str) -> bool
    ensures class { OnTrue result (token.now.class ≡ TokenClass.Punctuator) }
    ensures is { result ≡ is_mark mark.now (as_read (token_of token.now)) }
{
    token.class == TokenClass::Punctuator && is_same_text(token.text, mark)
}

/// Whether the token is this name.
#[inline(always)]
pub fn is_name_token(token: &Token<'_>, word: &str) -> bool
    ensures class { OnTrue result (token.now.class ≡ TokenClass.IdentifierName) }
    ensures is { result ≡ is_token TokenClass.IdentifierName word.now (as_read (token_of token.now)) }
{
    token.class == TokenClass::IdentifierName && is_same_text(token.text, word)
}

/// Whether the token is an Identifier (ECMA-262 12.1).
pub fn is_identifier(token: &Token<'_>) -> bool
    ensures class { OnTrue result (token.now.class ≡ TokenClass.IdentifierName) }
    ensures is { result ≡ (same_class TokenClass.IdentifierName token.now.class && is_free_name token.now.text.now) }
{
    token.class == TokenClass::IdentifierName && !is_reserved(token.text)
}

/// Whether the token is an IdentifierName (11.6), one that the language reserves too.
pub fn is_identifier_name(token: &Token<'_>) -> bool
    ensures { result ≡ is_word_class token.now.class }
{
    match token.class {
        TokenClass::IdentifierName | TokenClass::Keyword => true,
        _ => false,
    }
}

/// Whether the token is a keyword that not every language reserves.
#[inline(always)]
pub(crate) fn is_keyword(token: &Token<'_>) -> bool
    ensures { result ≡ same_class TokenClass.Keyword token.now.class }
{
    token.class == TokenClass::Keyword
}

/// Whether the token is a private name (12.6 of the 13th edition).
pub fn is_private_name(token: &Token<'_>) -> bool
    ensures { result ≡ same_class TokenClass.PrivateName token.now.class }
{
    token.class == TokenClass::PrivateName
}

/// Whether a token of this class is a key of an object's property (12.2.6).
pub fn is_key_class(class: TokenClass) -> bool
    ensures { result ≡ is_key_class class }
{
    matches!(
        class,
        TokenClass::IdentifierName
            | TokenClass::Keyword
            | TokenClass::StringLiteral
            | TokenClass::NumericLiteral
    )
}

/// Whether a key of a property or a member begins with the token; only a member's is a private name.
pub fn begins_key(token: &Token<'_>) -> bool
    ensures { result ≡ begins_key (as_read (token_of token.now)) }
{
    is_key_class(token.class) || is_private_name(token) || is_punctuator(token, "[")
}

/// Whether the token declares variables.
pub fn is_declaration_word(token: &Token<'_>) -> bool
    ensures class { OnTrue result (token.now.class ≡ TokenClass.IdentifierName) }
    ensures is { result ≡ (same_class TokenClass.IdentifierName token.now.class && declares token.now.text.now) }
{
    token.class == TokenClass::IdentifierName && is_var_let_const(token.text)
}

/// Whether the word declares variables: `var`, `let` or `const`.
fn is_var_let_const(word: &str) -> bool
    ensures { result ≡ declares word.now }
{
    matches!(word, "var" | "let" | "const")
}
