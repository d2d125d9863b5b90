//! Values of members, made one by one.

ghost use Rattle.std.specs.Prelude.{◌≡◌, Some, IfOk, OnOk, option_map};
ghost use Rattle.serde_json.specs.Data.{string, put};
ghost use Rattle.serde_json.specs.View.{view, members_view};
ghost use Rattle.tree.specs.Node.{node_tree};
ghost use Rattle.estree_json.specs.Fields.{directive};
ghost use Rattle.estree_json.specs.Json.{label_of};
ghost use Rattle.estree_json.specs.Texts.{literal_value as value_of_literal, literal_regex as regex_of_literal, regex_of, template_value as value_of_template};
ghost use Rattle.estree_json.specs.Table.{option_put};
ghost use Rattle.estree_json.specs.Primitives.{data_of};

use crate::fields::first_text;
use crate::texts::{Primitive, cooked_value, regex_parts, unquoted};
use serde_json::{Map, Value};
use std::alloc::{AllocError, Global};
use tree::Node;

/// A text.
pub(crate) fn text_value(alloc: Global, text: &str) -> Result<Option<Value>, AllocError>
    ensures { IfOk result (λ o. option_map view o ≡ Some (string text.now)) }
{
    Ok(Some(Value::String(String::from_str(alloc, text)?)))
}

/// `value` of a literal: of strings in well-formed UTF-16, booleans and null.
pub(crate) fn literal_value(alloc: Global, raw: &str) -> Result<Option<Value>, AllocError>
    ensures { IfOk result (λ o. option_map view o ≡ value_of_literal raw.now) }
{
    match crate::texts::literal_value(alloc, raw)? {
        Some(value) => Ok(Some(value.into_value())),
        None => Ok(None),
    }
}

/// `regex` of a literal, where it is a regular expression.
pub(crate) fn literal_regex(alloc: Global, raw: &str) -> Result<Option<Value>, AllocError>
    ensures { IfOk result (λ o. option_map view o ≡ regex_of_literal raw.now) }
{
    match raw.strip_prefix('/') {
        Some(rest) => Ok(Some(regex_value(alloc, rest)?)),
        None => Ok(None),
    }
}

/// Flags and pattern of what stands behind the first `/`.
fn regex_value(alloc: Global, rest: &str) -> Result<Value, AllocError>
    ensures { IfOk result (λ v. view v ≡ regex_of rest.now) }
{
    let (pattern, flags) = regex_parts(rest);
    let mut members = Map::new(alloc);
    put_text(&mut members, alloc, "flags", flags)?;
    put_text(&mut members, alloc, "pattern", pattern)?;
    Ok(Value::Object(members))
}

/// `value` of a template's part, of its raw value.
pub(crate) fn template_value(alloc: Global, raw: &str) -> Result<Option<Value>, AllocError>
    ensures { IfOk result (λ o. option_map view o ≡ Some (value_of_template raw.now)) }
{
    let cooked = cooked_value(alloc, raw)?;
    let mut members = Map::new(alloc);
    put_primitive(&mut members, alloc, "cooked", cooked)?;
    put_text(&mut members, alloc, "raw", raw)?;
    Ok(Some(Value::Object(members)))
}

/// The text of a directive, if the node is one.
pub(crate) fn directive_value(alloc: Global, node: Node) -> Result<Option<Value>, AllocError>
    ensures { IfOk result (λ o. option_map view o ≡ directive (label_of (node_tree node.entry))) }
{
    if !node.flags().directive {
        return Ok(None);
    }
    text_value(alloc, unquoted(first_text(node)))
}

/// One more member, a text.
fn put_text(
    members: &mut Map<String, Value>,
    alloc: Global,
    key: &str,
    text: &str,
) -> Result<(), AllocError>
    ensures { OnOk result (members_view members.new.entries ≡ put key.now (string text.now) (members_view members.old.entries)) }
{
    let text = String::from_str(alloc, text)?;
    serde_json::put(members, alloc, key, Value::String(text))
}

/// One more member, a primitive value, or none.
fn put_primitive(
    members: &mut Map<String, Value>,
    alloc: Global,
    key: &str,
    value: Option<Primitive>,
) -> Result<(), AllocError>
    ensures { OnOk result (members_view members.new.entries ≡ option_put key.now (option_map data_of value) (members_view members.old.entries)) }
{
    match value {
        Some(value) => serde_json::put(members, alloc, key, value.into_value()),
        None => Ok(()),
    }
}
