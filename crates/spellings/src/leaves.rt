//! The outlines of names, keys, parts of templates, and directives' strings (ECMA-262 11.6, 11.8.6, 12.1, 12.2.6, 14.1).

ghost use Rattle.std.specs.Prelude.{◌≡◌, option_map};
ghost use Rattle.spellings.specs.Others.{leaf_if as leaf_when, is_chunk as is_chunk_kind, is_key_class as is_class_of_key, name_outline as outline_of_name, key_outline as outline_of_key, quoted_outline as outline_of_quoted, quasi_outline as outline_of_quasi};
ghost use Rattle.spelling_table.specs.Productions.{outline_of};
ghost use Rattle.spellings.specs.Leaves.{names_at, literal_at as is_literal_at, leaf_at};

use grammar::{is_literal, is_reserved, literal_class};
use spelling_table::{Position, Production};
use tokens::TokenClass;
use tree::Kind;

/// A node without parts at positions, where it may stand.
pub(crate) fn leaf_if(holds: bool) -> Option<Production>
    ensures { option_map outline_of result ≡ leaf_when holds }
{
    if holds {
        return Some(Production::Leaf);
    }
    None
}

/// The production of a binding identifier or a label (12.1); none for a reserved word or another kind.
pub(crate) fn name_production(kind: Kind, name: &str) -> Option<Production>
    ensures { option_map outline_of result ≡ outline_of_name kind name.now }
{
    match kind {
        Kind::Identifier => leaf_if(!is_reserved(name)),
        _ => None,
    }
}

/// A key without brackets: a name, a string or a number.
pub(crate) fn key_production(kind: Kind, text: &str) -> Option<Production>
    ensures { option_map outline_of result ≡ outline_of_key kind text.now }
{
    match kind {
        Kind::Identifier => Some(Production::Leaf),
        Kind::Literal => leaf_if(is_key_class(literal_class(text))),
        _ => None,
    }
}

/// Whether a literal with a token of this class may be a key: a string or a number.
fn is_key_class(class: TokenClass) -> bool
    ensures { result ≡ is_class_of_key class }
{
    !matches!(
        class,
        TokenClass::IdentifierName | TokenClass::RegularExpressionLiteral
    )
}

/// A directive's string.
pub(crate) fn directive_string_production(kind: Kind, raw: &str) -> Option<Production>
    ensures { option_map outline_of result ≡ outline_of_quoted kind raw.now }
{
    match kind {
        Kind::Literal => leaf_if(matches!(literal_class(raw), TokenClass::StringLiteral)),
        _ => None,
    }
}

/// The template behind a tag.
pub(crate) fn quasi_production(kind: Kind) -> Option<Production>
    ensures { option_map outline_of result ≡ outline_of_quasi kind }
{
    match kind {
        Kind::TemplateLiteral => Some(Production::Template),
        _ => None,
    }
}

/// Whether the kind is that of a template's element.
pub(crate) fn is_chunk(kind: Kind) -> bool
    ensures { result ≡ is_chunk_kind kind }
{
    matches!(kind, Kind::TemplateElement)
}

/// Whether a node of this kind and text may stand at a position as a leaf: a name or a literal.
#[inline(always)]
pub(crate) fn is_leaf_text(kind: Kind, text: &str, position: Position) -> bool
    ensures { result ≡ leaf_at position kind text.now }
{
    match kind {
        Kind::Identifier => is_name(text, position),
        Kind::Literal => is_literal_at(text, position),
        _ => false,
    }
}

/// Whether an identifier of this name may stand at a position.
fn is_name(name: &str, position: Position) -> bool
    ensures { result ≡ names_at position name.now }
{
    match position {
        Position::Expression { .. } | Position::Name => !is_reserved(name),
        Position::IdentifierName | Position::PropertyName | Position::ShorthandKey => true,
        _ => false,
    }
}

/// Whether a literal may stand at a position, among expressions and keys.
fn is_literal_at(raw: &str, position: Position) -> bool
    ensures { result ≡ is_literal_at position raw.now }
{
    match position {
        Position::Expression { .. } => is_literal(raw),
        Position::PropertyName => is_key_class(literal_class(raw)),
        _ => false,
    }
}
