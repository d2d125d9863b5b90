//! Words for what rules say of nodes. A part that is missing is none of these.

ghost use Rattle.std.specs.Prelude.{◌≡◌, ◌<◌, ◌&&◌, ◌||◌, length, option_map};
ghost use Rattle.tree.specs.Node.{node_tree};
ghost use Rattle.language.specs.Vocabulary.{is};
ghost use Rattle.node_rules.specs.Words.{is_async_function, is_chain, is_comparison, is_equality, is_from_one, is_identifier, is_key_part, is_member, is_name, is_positive, is_quoted, is_string, is_unary, is_zero, kind_at, object_of, operand, span_at, span_of, text_at, unchained};

use tokens::string_is;
use tree::{Kind, Node, Span};

/// Where a node stands.
pub(crate) fn span_of(node: Node) -> Span
    ensures { result ≡ span_of (node_tree node.entry) }
{
    node.span()
}

/// Where a part stands; where it is missing, where its node does.
pub(crate) fn span_at(node: Node, part: Option<Node>) -> Span
    ensures { result ≡ span_at (node_tree node.entry) (option_map node_tree part.entry) }
{
    match part {
        Some(inner) => span_of(inner),
        None => span_of(node),
    }
}

/// The text of a part, empty where it is missing.
pub(crate) fn text_at<'t, 's>(part: Option<Node<'t, 's>>) -> &'t str
    ensures { result.now ≡ text_at (option_map node_tree part.entry) }
{
    match part {
        Some(node) => node.text(),
        None => "",
    }
}

/// The kind of a part; that of a Program, which is a part of nothing, where it is missing.
pub(crate) fn kind_at(part: Option<Node>) -> Kind
    ensures { result ≡ kind_at (option_map node_tree part.entry) }
{
    match part {
        Some(node) => node.kind(),
        None => Kind::Program,
    }
}

/// Whether a part is a name.
pub(crate) fn is_identifier(part: Option<Node>) -> bool
    ensures { result ≡ is_identifier (option_map node_tree part.entry) }
{
    let Some(node) = part else {
        return false;
    };
    matches!(node.kind(), Kind::Identifier)
}

/// Whether a part is this name.
pub(crate) fn is_name(part: Option<Node>, name: &str) -> bool
    ensures { result ≡ is_name name.now (option_map node_tree part.entry) }
{
    let Some(node) = part else {
        return false;
    };
    match node.kind() {
        Kind::Identifier => node.text() == name,
        _ => false,
    }
}

/// Whether a text begins with a quotation mark.
pub(crate) fn is_quoted(text: &str) -> bool
    ensures { result ≡ is_quoted text.now }
{
    match text.as_bytes().first() {
        Some(first) => *first == 34 || *first == 39,
        None => false,
    }
}

/// Whether a text begins with a digit from 1 to 9.
fn is_from_one(text: &str) -> bool
    ensures { result ≡ is_from_one text.now }
{
    match text.as_bytes().first() {
        Some(first) => *first >= 49 && *first <= 57,
        None => false,
    }
}

/// Whether a part is a string of this value, which isn't empty.
pub(crate) fn is_string(part: Option<Node>, value: &str) -> bool
    requires { 0 < length value.now }
    ensures { result ≡ is_string value.now (option_map node_tree part.entry) }
{
    let Some(node) = part else {
        return false;
    };
    match node.kind() {
        Kind::Literal => is_quoted(node.text()) && string_is(node.text(), value),
        _ => false,
    }
}

/// Whether a part is a member with this key, which isn't empty.
pub(crate) fn is_member(part: Option<Node>, key: &str) -> bool
    requires { 0 < length key.now }
    ensures { result ≡ is_member key.now (option_map node_tree part.entry) }
{
    let Some(node) = part else {
        return false;
    };
    match node.kind() {
        Kind::MemberExpression => is_key_part(node.part(1), node.flags().computed, key),
        _ => false,
    }
}

/// Whether it is this key, which may stand in brackets as a string.
pub(crate) fn is_key_part(property: Option<Node>, computed: bool, key: &str) -> bool
    requires { 0 < length key.now }
    ensures { result ≡ is_key_part key.now computed (option_map node_tree property.entry) }
{
    if computed {
        is_string(property, key)
    } else {
        is_name(property, key)
    }
}

/// Whether it is the kind of a chain.
fn is_chain(kind: Kind) -> bool
    ensures { result ≡ is_chain kind }
{
    matches!(kind, Kind::ChainExpression)
}

/// The object of a member.
pub(crate) fn object_of<'t, 's>(part: Option<Node<'t, 's>>) -> Option<Node<'t, 's>>
    ensures { option_map node_tree result ≡ object_of (option_map node_tree part.entry) }
{
    let Some(node) = part else {
        return None;
    };
    match node.kind() {
        Kind::MemberExpression => node.part(0),
        _ => None,
    }
}

/// What a chain has in it; a part that is none is itself.
pub(crate) fn unchained<'t, 's>(part: Option<Node<'t, 's>>) -> Option<Node<'t, 's>>
    ensures { option_map node_tree result ≡ unchained (option_map node_tree part.entry) }
{
    let Some(node) = part else {
        return None;
    };
    if is_chain(node.kind()) {
        node.part(0)
    } else {
        part
    }
}

/// Whether a part is this unary operator with its operand.
pub(crate) fn is_unary(part: Option<Node>, operator: &str) -> bool
    ensures { result ≡ is_unary operator.now (option_map node_tree part.entry) }
{
    let Some(node) = part else {
        return false;
    };
    match node.kind() {
        Kind::UnaryExpression => node.text() == operator,
        _ => false,
    }
}

/// The operand of this unary operator, if a part is so.
pub(crate) fn operand<'t, 's>(part: Option<Node<'t, 's>>, operator: &str) -> Option<Node<'t, 's>>
    ensures { option_map node_tree result ≡ operand operator.now (option_map node_tree part.entry) }
{
    let Some(node) = part else {
        return None;
    };
    match node.kind() {
        Kind::UnaryExpression => {
            if node.text() == operator {
                node.part(0)
            } else {
                None
            }
        }
        _ => None,
    }
}

/// Whether a part is a literal that says zero in a usual way.
pub(crate) fn is_zero(part: Option<Node>) -> bool
    ensures { result ≡ is_zero (option_map node_tree part.entry) }
{
    let Some(node) = part else {
        return false;
    };
    match node.kind() {
        Kind::Literal => is_zero_text(node.text()),
        _ => false,
    }
}

/// Whether a literal's text says zero in a usual way.
fn is_zero_text(text: &str) -> bool
    ensures { result ≡ (is text.now "0" || (is text.now "0.0" || (is text.now "0." || is text.now ".0"))) }
{
    text == "0" || text == "0.0" || text == "0." || text == ".0"
}

/// Whether a part is a number literal from one on.
pub(crate) fn is_positive(part: Option<Node>) -> bool
    ensures { result ≡ is_positive (option_map node_tree part.entry) }
{
    let Some(node) = part else {
        return false;
    };
    match node.kind() {
        Kind::Literal => is_from_one(node.text()),
        _ => false,
    }
}

/// Whether a part is an async function.
pub(crate) fn is_async_function(part: Option<Node>) -> bool
    ensures { result ≡ is_async_function (option_map node_tree part.entry) }
{
    let Some(node) = part else {
        return false;
    };
    node.kind().is_function() && node.flags().form.is_async()
}

/// Whether an operator says that two values are equal, or that they aren't.
pub(crate) fn is_equality(operator: &str) -> bool
    ensures { result ≡ is_equality operator.now }
{
    operator == "==" || operator == "!=" || operator == "===" || operator == "!=="
}

/// Whether an operator compares two values.
pub(crate) fn is_comparison(operator: &str) -> bool
    ensures { result ≡ is_comparison operator.now }
{
    is_equality(operator)
        || operator == "<"
        || operator == ">"
        || operator == "<="
        || operator == ">="
}
