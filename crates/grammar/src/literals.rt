//! Literals, by their raw text.

ghost use Rattle.std.specs.Prelude.{◌≡◌, [], ◌∷◌};
ghost use Rattle.language.specs.Vocabulary.{literal_class as class_of_literal, among};
ghost use Rattle.grammar.specs.Ranks.{is_spelled_literal};

use tokens::TokenClass;

/// The class of a literal's token, which its first character tells.
pub fn literal_class(raw: &str) -> TokenClass
    ensures { result ≡ class_of_literal raw.now }
{
    match raw.as_bytes() {
        [b'"' | b'\'', ..] => TokenClass::StringLiteral,
        [b'/', ..] => TokenClass::RegularExpressionLiteral,
        [b'.' | b'0'..=b'9', ..] => TokenClass::NumericLiteral,
        _ => TokenClass::IdentifierName,
    }
}

/// Whether a literal's text is one: of the names only `true`, `false` and `null`.
pub fn is_literal(raw: &str) -> bool
    ensures { result ≡ is_spelled_literal raw.now }
{
    match literal_class(raw) {
        TokenClass::IdentifierName => is_word_literal(raw),
        _ => true,
    }
}

/// Whether the text is `true`, `false` or `null`.
fn is_word_literal(raw: &str) -> bool
    ensures { result ≡ among raw.now ("true" ∷ "false" ∷ "null" ∷ []) }
{
    matches!(raw, "true" | "false" | "null")
}
