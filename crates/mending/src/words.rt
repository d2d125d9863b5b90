//! Words for what changes ask of nodes. A part that is missing is none of these.

ghost use Rattle.std.specs.Prelude.{◌≡◌, ◌<◌, length, option_map};
ghost use Rattle.std.specs.List.{list_all};
ghost use Rattle.tree.specs.Node.{node_tree};
ghost use Rattle.mending.specs.Words.{begins_name, inside, is_in_name, is_plain_name, is_quoted, is_string, kind_at, span_at, span_of, text_at};

use tokens::string_is;
use tree::{Kind, Node, Span};

/// Where a node stands.
pub(crate) fn span_of(node: Node) -> Span
    ensures { result ≡ span_of (node_tree node.entry) }
{
    node.span()
}

/// Where a part stands; where it is missing, where its node does.
pub(crate) fn span_at(node: Node, part: Option<Node>) -> Span
    ensures { result ≡ span_at (node_tree node.entry) (option_map node_tree part.entry) }
{
    match part {
        Some(inner) => span_of(inner),
        None => span_of(node),
    }
}

/// The text of a part, empty where it is missing.
pub(crate) fn text_at<'t, 's>(part: Option<Node<'t, 's>>) -> &'t str
    ensures { result.now ≡ text_at (option_map node_tree part.entry) }
{
    match part {
        Some(node) => node.text(),
        None => "",
    }
}

/// The kind of a part; that of a Program, which is a part of nothing, where it is missing.
pub(crate) fn kind_at(part: Option<Node>) -> Kind
    ensures { result ≡ kind_at (option_map node_tree part.entry) }
{
    match part {
        Some(node) => node.kind(),
        None => Kind::Program,
    }
}

/// Whether a text begins with a quotation mark.
pub(crate) fn is_quoted(text: &str) -> bool
    ensures { result ≡ is_quoted text.now }
{
    match text.as_bytes().first() {
        Some(first) => *first == 34 || *first == 39,
        None => false,
    }
}

/// Whether a part is a string of this value, which isn't empty.
pub(crate) fn is_string(part: Option<Node>, value: &str) -> bool
    requires { 0 < length value.now }
    ensures { result ≡ is_string value.now (option_map node_tree part.entry) }
{
    match kind_at(part) {
        Kind::Literal => is_quoted(text_at(part)) && string_is(text_at(part), value),
        _ => false,
    }
}

/// What stands between the quotation marks of a string.
pub(crate) fn inside(text: &str) -> &[u8]
    ensures { result.now ≡ inside text.now }
{
    let bytes = text.as_bytes();
    let end = bytes.len().saturating_sub(1);
    let start = end.min(1);
    &bytes[start..end]
}

/// Whether a character below U+0080 begins a name.
fn begins_name(byte: u8) -> bool
    ensures { result ≡ begins_name byte }
{
    (byte >= 97 && byte <= 122) || (byte >= 65 && byte <= 90) || byte == 36 || byte == 95
}

/// Whether it goes on with one.
pub(crate) fn is_in_name(byte: u8) -> bool
    ensures { result ≡ is_in_name byte }
{
    begins_name(byte) || (byte >= 48 && byte <= 57)
}

/// Whether all are characters of a name.
fn are_in_name(bytes: &[u8]) -> bool
    ensures { result ≡ list_all is_in_name bytes.now }
{
    bytes.iter().all(|byte| is_in_name(*byte))
}

/// Whether all are characters of a name, and the first begins one.
pub(crate) fn is_plain_name(bytes: &[u8]) -> bool
    ensures { result ≡ is_plain_name bytes.now }
{
    match bytes.first() {
        Some(first) => begins_name(*first) && are_in_name(bytes),
        None => false,
    }
}
