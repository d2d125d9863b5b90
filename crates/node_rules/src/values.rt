//! What the tree alone says of values: literals, templates without substitutions, and what is made of them.

ghost use Rattle.std.specs.Prelude.{◌≡◌, option_map};
ghost use Rattle.std.specs.List.{list_all};
ghost use Rattle.tree.specs.Node.{node_tree};
ghost use Rattle.node_rules.specs.Values.{begins_name, begins_number, is_bare_template, is_boolean, is_constant_key, is_empty_text, is_fixed, is_in_name, is_name_as_key, is_number, is_numeric, is_plain_name, is_plain_template, is_quoted_name, is_radix, is_split_string, is_template_of, is_text, makes_number, names_number};

use crate::kind_sets::{is_literal_kind, is_template};
use crate::words::{is_name, is_quoted, kind_at, operand, text_at};
use tree::{Kind, Node};

/// Whether a text begins as a number does: with a digit or a point.
fn begins_number(text: &str) -> bool
    ensures { result ≡ begins_number text.now }
{
    match text.as_bytes().first() {
        Some(first) => *first == 46 || (*first >= 48 && *first <= 57),
        None => false,
    }
}

/// Whether a part is a number, or a bigint.
fn is_number(part: Option<Node>) -> bool
    ensures { result ≡ is_number (option_map node_tree part.entry) }
{
    is_literal_kind(kind_at(part)) && begins_number(text_at(part))
}

/// Whether a character below U+0080 begins a name.
fn begins_name(byte: u8) -> bool
    ensures { result ≡ begins_name byte }
{
    (byte >= 97 && byte <= 122) || (byte >= 65 && byte <= 90) || byte == 36 || byte == 95
}

/// Whether it goes on with one.
fn is_in_name(byte: u8) -> bool
    ensures { result ≡ is_in_name byte }
{
    begins_name(byte) || (byte >= 48 && byte <= 57)
}

/// Whether all are characters of a name.
fn are_in_name(bytes: &[u8]) -> bool
    ensures { result ≡ list_all is_in_name bytes.now }
{
    bytes.iter().all(|byte| is_in_name(*byte))
}

/// Whether all are characters of a name, and the first begins one.
fn is_plain_name(bytes: &[u8]) -> bool
    ensures { result ≡ is_plain_name bytes.now }
{
    match bytes.first() {
        Some(first) => begins_name(*first) && are_in_name(bytes),
        None => false,
    }
}

/// Whether a text is a string with such a name between its quotation marks.
fn is_quoted_name(text: &str) -> bool
    ensures { result ≡ is_quoted_name text.now }
{
    let bytes = text.as_bytes();
    let end = bytes.len().saturating_sub(1);
    let start = end.min(1);
    is_quoted(text) && is_plain_name(&bytes[start..end])
}

/// Whether a key in brackets could stand behind a dot.
pub(crate) fn is_name_as_key(part: Option<Node>) -> bool
    ensures { result ≡ is_name_as_key (option_map node_tree part.entry) }
{
    let Some(node) = part else {
        return false;
    };
    match node.kind() {
        Kind::Literal => is_plain_name(node.text().as_bytes()) || is_quoted_name(node.text()),
        Kind::TemplateLiteral => node.part(1).is_none()
            && is_plain_name(text_at(node.part(0)).as_bytes()),
        _ => false,
    }
}

/// Whether a part is `true` or `false`.
pub(crate) fn is_boolean(part: Option<Node>) -> bool
    ensures { result ≡ is_boolean (option_map node_tree part.entry) }
{
    is_literal_kind(kind_at(part)) && (text_at(part) == "true" || text_at(part) == "false")
}

/// Whether a part is a string, or a number.
pub(crate) fn is_constant_key(part: Option<Node>) -> bool
    ensures { result ≡ is_constant_key (option_map node_tree part.entry) }
{
    is_literal_kind(kind_at(part)) && (is_quoted(text_at(part)) || begins_number(text_at(part)))
}

/// Whether a part is a template without substitutions.
fn is_bare_template(part: Option<Node>) -> bool
    ensures { result ≡ is_bare_template (option_map node_tree part.entry) }
{
    let Some(node) = part else {
        return false;
    };
    match node.kind() {
        Kind::TemplateLiteral => node.part(1).is_none(),
        _ => false,
    }
}

/// Whether a part is a template without substitutions and escapes.
pub(crate) fn is_plain_template(part: Option<Node>) -> bool
    ensures { result ≡ is_plain_template (option_map node_tree part.entry) }
{
    let Some(node) = part else {
        return false;
    };
    match node.kind() {
        Kind::TemplateLiteral => node.part(1).is_none()
            && !text_at(node.part(0)).as_bytes().contains(&b'\\'),
        _ => false,
    }
}

/// Whether a part is a template without substitutions of this raw text.
pub(crate) fn is_template_of(part: Option<Node>, value: &str) -> bool
    ensures { result ≡ is_template_of value.now (option_map node_tree part.entry) }
{
    let Some(node) = part else {
        return false;
    };
    match node.kind() {
        Kind::TemplateLiteral => node.part(1).is_none() && text_at(node.part(0)) == value,
        _ => false,
    }
}

/// Whether a part is a string with nothing in it, or such a template.
pub(crate) fn is_empty_text(part: Option<Node>) -> bool
    ensures { result ≡ is_empty_text (option_map node_tree part.entry) }
{
    (is_literal_kind(kind_at(part)) && (text_at(part) == "\"\"" || text_at(part) == "''"))
        || is_template_of(part, "")
}

/// Whether a part is a string or a template.
pub(crate) fn is_text(part: Option<Node>) -> bool
    ensures { result ≡ is_text (option_map node_tree part.entry) }
{
    is_template(kind_at(part)) || (is_literal_kind(kind_at(part)) && is_quoted(text_at(part)))
}

/// Whether a part is always the same: a literal, a template without substitutions, a number with a minus.
pub(crate) fn is_fixed(part: Option<Node>) -> bool
    ensures { result ≡ is_fixed (option_map node_tree part.entry) }
{
    is_literal_kind(kind_at(part)) || is_bare_template(part) || is_number(operand(part, "-"))
}

/// Whether a part is the name of a function that gives a number.
fn names_number(part: Option<Node>) -> bool
    ensures { result ≡ names_number (option_map node_tree part.entry) }
{
    is_name(part, "Number") || is_name(part, "parseInt") || is_name(part, "parseFloat")
}

/// Whether a part is a call of one.
fn makes_number(part: Option<Node>) -> bool
    ensures { result ≡ makes_number (option_map node_tree part.entry) }
{
    let Some(node) = part else {
        return false;
    };
    match node.kind() {
        Kind::CallExpression => names_number(node.part(0)),
        _ => false,
    }
}

/// Whether a part is a number already.
pub(crate) fn is_numeric(part: Option<Node>) -> bool
    ensures { result ≡ is_numeric (option_map node_tree part.entry) }
{
    is_number(part) || makes_number(part)
}

/// Whether a text is a decimal number from 2 to 36.
pub(crate) fn is_radix(text: &str) -> bool
    ensures { result ≡ is_radix text.now }
{
    match text.as_bytes() {
        [a] => *a >= 50 && *a <= 57,
        [a, b] => (*a >= 49 && *a <= 50 && *b >= 48 && *b <= 57)
            || (*a == 51 && *b >= 48 && *b <= 54),
        _ => false,
    }
}

/// Whether a text is a string with a line end in it.
pub(crate) fn is_split_string(text: &str) -> bool
    ensures { result ≡ is_split_string text.now }
{
    is_quoted(text) && (text.as_bytes().contains(&b'\n') || text.as_bytes().contains(&b'\r'))
}
