//! What texts and kinds mean to the table.

ghost use Rattle.std.specs.Prelude.{◌≡◌};
ghost use Rattle.language.specs.Vocabulary.{is};
ghost use Rattle.language.specs.Strings.{literal_units};
ghost use Rattle.language.specs.Statements.{is_string_literal as is_string_of_kind};
ghost use Rattle.spellings.specs.Others.{names_constructor as names_constructor_key};

use grammar::literal_class;
use tokens::{TokenClass, string_is};
use tree::Kind;

/// Whether such a node is a string literal, by its kind and text.
pub(crate) fn is_string_literal(kind: Kind, text: &str) -> bool
    ensures { result ≡ is_string_of_kind kind text.now }
{
    match kind {
        Kind::Literal => matches!(literal_class(text), TokenClass::StringLiteral),
        _ => false,
    }
}

/// Whether a key without brackets has the value `constructor`.
pub(crate) fn names_constructor(kind: Kind, text: &str) -> bool
    ensures { result ≡ names_constructor_key kind text.now }
{
    (kind.is_identifier() && text == "constructor")
        || (is_string_literal(kind, text) && is_constructor_value(text))
}

/// Whether a string literal has the value `constructor`, by its raw text.
fn is_constructor_value(raw: &str) -> bool
    ensures { result ≡ is (literal_units raw.now) "constructor" }
{
    string_is(raw, "constructor")
}
