//! What keys are compared by: what the tree alone says of their values.

ghost use Rattle.std.specs.Prelude.{◌≡◌, codes, option_map, string_bytes, IfOk};
ghost use Rattle.std.specs.Str.{chars};
ghost use Rattle.tree.specs.Node.{node_tree};
ghost use Rattle.tokens.specs.Templates.{cooked_value};
ghost use Rattle.repetition_rules.specs.Keys.{bare_template, begins_slash, is_quoted, key_label, labelled, literal_label, name_label, number_label, side, template_label, text_of_units, units_label, word_label};

use crate::numbers::{begins_number, is_plain, without_n};
use std::alloc::{AllocError, Global};
use tokens::{quoted_units, template_value};
use tree::{Kind, Node};

/// What stands before the labels of static members, and before those of others.
pub(crate) fn side(is_static: bool) -> &'static str
    ensures { result.now ≡ side is_static }
{
    if is_static { "static " } else { "" }
}

/// The label of a key of a side, if the tree alone says its value.
pub(crate) fn key_label(
    alloc: Global,
    before: &str,
    is_computed: bool,
    key: Option<Node>,
) -> Result<Option<String>, AllocError>
    ensures { IfOk result (λ o. option_map string_bytes o ≡ key_label before.now is_computed (option_map node_tree key.entry)) }
{
    let Some(node) = key else {
        return Ok(None);
    };
    match node.kind() {
        Kind::Identifier => name_label(alloc, before, is_computed, node.text()),
        Kind::Literal => literal_label(alloc, before, node.text()),
        Kind::TemplateLiteral => template_label(alloc, before, bare_template(node)),
        _ => Ok(None),
    }
}

/// That of a name, unless it stands in brackets.
fn name_label(
    alloc: Global,
    before: &str,
    is_computed: bool,
    name: &str,
) -> Result<Option<String>, AllocError>
    ensures { IfOk result (λ o. option_map string_bytes o ≡ name_label before.now is_computed name.now) }
{
    if is_computed {
        return Ok(None);
    }
    let label = labelled(alloc, before, "=", name)?;
    Ok(Some(label))
}

/// That of a literal.
fn literal_label(alloc: Global, before: &str, text: &str) -> Result<Option<String>, AllocError>
    ensures { IfOk result (λ o. option_map string_bytes o ≡ literal_label before.now text.now) }
{
    if is_quoted(text) {
        let units = quoted_units(alloc, text)?;
        return units_label(alloc, before, &units);
    }
    if begins_number(text) {
        let label = number_label(alloc, before, text)?;
        return Ok(Some(label));
    }
    word_label(alloc, before, text)
}

/// That of a literal which is a word; a regular expression has none.
fn word_label(alloc: Global, before: &str, text: &str) -> Result<Option<String>, AllocError>
    ensures { IfOk result (λ o. option_map string_bytes o ≡ word_label before.now text.now) }
{
    if begins_slash(text) {
        return Ok(None);
    }
    let label = labelled(alloc, before, "=", text)?;
    Ok(Some(label))
}

/// That of a number or a bigint.
fn number_label(alloc: Global, before: &str, text: &str) -> Result<String, AllocError>
    ensures { IfOk result (λ s. string_bytes s ≡ number_label before.now text.now) }
{
    let digits = without_n(text);
    if is_plain(digits) {
        labelled(alloc, before, "=", digits)
    } else {
        labelled(alloc, before, "#", text)
    }
}

/// The raw text of a template without substitutions.
fn bare_template<'t>(node: Node<'t, '_>) -> Option<&'t str>
    ensures { option_map (λ t. t.now) result ≡ bare_template (node_tree node.entry) }
{
    if node.part(1).is_some() {
        return None;
    }
    let Some(element) = node.part(0) else {
        return None;
    };
    Some(element.text())
}

/// That of a template, of its raw text.
fn template_label(
    alloc: Global,
    before: &str,
    raw: Option<&str>,
) -> Result<Option<String>, AllocError>
    ensures { IfOk result (λ o. option_map string_bytes o ≡ template_label before.now (option_map (λ t. t.now) raw.entry)) }
{
    let Some(raw) = raw else {
        return Ok(None);
    };
    let (_, cooked) = template_value(alloc, raw)?;
    match cooked {
        Some(units) => units_label(alloc, before, &units),
        None => Ok(None),
    }
}

/// That of a text, of its units of UTF-16.
fn units_label(alloc: Global, before: &str, units: &[u16]) -> Result<Option<String>, AllocError>
    ensures { IfOk result (λ o. option_map string_bytes o ≡ units_label before.now units.now) }
{
    match String::from_utf16(alloc, units)? {
        Ok(text) => {
            let label = labelled(alloc, before, "=", text.as_str())?;
            Ok(Some(label))
        },
        Err(_) => Ok(None),
    }
}

/// A value behind its side and a sign.
fn labelled(alloc: Global, before: &str, sign: &str, value: &str) -> Result<String, AllocError>
    ensures { IfOk result (λ s. string_bytes s ≡ labelled before.now sign.now value.now) }
{
    let mut label = String::from_str(alloc, before)?;
    label.push_str(sign)?;
    label.push_str(value)?;
    Ok(label)
}

/// Whether a text begins with a quotation mark.
fn is_quoted(text: &str) -> bool
    ensures { result ≡ is_quoted text.now }
{
    match text.as_bytes().first() {
        Some(first) => *first == 34 || *first == 39,
        None => false,
    }
}

/// Whether a text begins with a slash, as regular expressions do.
fn begins_slash(text: &str) -> bool
    ensures { result ≡ begins_slash text.now }
{
    match text.as_bytes().first() {
        Some(first) => *first == 47,
        None => false,
    }
}
