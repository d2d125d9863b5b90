//! The members of an object, one by one. None is inlined, so that a level of the walk needs no room for what a serializer answers. Those
//! that every node has have constant keys, which need no search for escapes.

ghost use Rattle.std.specs.Prelude.{◌≡◌, OnOk, codes, option_map};
ghost use Rattle.serde_json.specs.Data.{Members, boolean, null, number, unsigned, string, member};
ghost use Rattle.tree.specs.Node.{node_tree};
ghost use Rattle.estree_json.specs.Texts.{literal_value as value_of_literal, literal_regex, regex_of, template_value};
ghost use Rattle.estree_json.specs.Fields.{directive};
ghost use Rattle.estree_json.specs.Json.{label_of};
ghost use Rattle.estree_json.specs.Table.{option_member};
ghost use Rattle.estree_json.specs.Primitives.{data_of};
ghost use Rattle.tree.specs.Kinds.{type_name as type_name_of};
ghost use Rattle.estree_json.specs.Sent.{Adds};

use crate::events::{
    SerializeRefused, begin_object, end_object, serialize_boolean, serialize_key, serialize_null,
    serialize_number, serialize_text,
};
use crate::fields::first_text;
use crate::texts::{Primitive, cooked_value, literal_value, regex_parts, unquoted};
use serde::Serializer;
use std::alloc::Global;
use tree::{Kind, Node};

/// A text.
#[inline(never)]
pub(crate) fn text_member<S: Serializer>(
    out: &mut S,
    error: &mut S::Error,
    name: &str,
    text: &str,
) -> Result<(), SerializeRefused>
    ensures { OnOk result (Adds (member name.now (string text.now)) (S.written out.old) (S.written out.new)) }
{
    serialize_key(out, error, name)?;
    serialize_text(out, error, text)
}

/// A boolean.
#[inline(never)]
pub(crate) fn boolean_member<S: Serializer>(
    out: &mut S,
    error: &mut S::Error,
    name: &str,
    flag: bool,
) -> Result<(), SerializeRefused>
    ensures { OnOk result (Adds (member name.now (boolean flag)) (S.written out.old) (S.written out.new)) }
{
    serialize_key(out, error, name)?;
    serialize_boolean(out, error, flag)
}

/// Null.
#[inline(never)]
pub(crate) fn null_member<S: Serializer>(
    out: &mut S,
    error: &mut S::Error,
    name: &str,
) -> Result<(), SerializeRefused>
    ensures { OnOk result (Adds (member name.now null) (S.written out.old) (S.written out.new)) }
{
    serialize_key(out, error, name)?;
    serialize_null(out, error)
}

/// The node's type.
#[inline(never)]
pub(crate) fn type_member<S: Serializer>(
    out: &mut S,
    error: &mut S::Error,
    kind: Kind,
) -> Result<(), SerializeRefused>
    ensures { OnOk result (Adds (member (codes "type") (string (type_name_of kind))) (S.written out.old) (S.written out.new)) }
{
    serialize_key(out, error, "type")?;
    serialize_text(out, error, kind.type_name())
}

/// Where the node begins.
#[inline(never)]
pub(crate) fn start_member<S: Serializer>(
    out: &mut S,
    error: &mut S::Error,
    start: usize,
) -> Result<(), SerializeRefused>
    ensures { OnOk result (Adds (member (codes "start") (number (unsigned start))) (S.written out.old) (S.written out.new)) }
{
    serialize_key(out, error, "start")?;
    serialize_number(out, error, start)
}

/// Where the node ends.
#[inline(never)]
pub(crate) fn end_member<S: Serializer>(
    out: &mut S,
    error: &mut S::Error,
    end: usize,
) -> Result<(), SerializeRefused>
    ensures { OnOk result (Adds (member (codes "end") (number (unsigned end))) (S.written out.old) (S.written out.new)) }
{
    serialize_key(out, error, "end")?;
    serialize_number(out, error, end)
}

/// A primitive value, or nothing.
fn primitive_member<S: Serializer>(
    out: &mut S,
    error: &mut S::Error,
    name: &str,
    value: &Option<Primitive>,
) -> Result<(), SerializeRefused>
    ensures { OnOk result (Adds (option_member name.now (option_map data_of value.now)) (S.written out.old) (S.written out.new)) }
{
    match value {
        Some(Primitive::Null) => null_member(out, error, name),
        Some(Primitive::Boolean(flag)) => boolean_member(out, error, name, *flag),
        Some(Primitive::Text(text)) => text_member(out, error, name, text),
        None => Ok(()),
    }
}

/// `value` of a literal, if it is a string in well-formed UTF-16, a boolean or null.
#[inline(never)]
pub(crate) fn literal_member<S: Serializer>(
    out: &mut S,
    error: &mut S::Error,
    alloc: Global,
    raw: &str,
) -> Result<(), SerializeRefused>
    ensures { OnOk result (Adds (option_member (codes "value") (value_of_literal raw.now)) (S.written out.old) (S.written out.new)) }
{
    let value = literal_value(alloc, raw)?;
    primitive_member(out, error, "value", &value)
}

/// `regex` of a literal, if it is a regular expression.
#[inline(never)]
pub(crate) fn regex_member<S: Serializer>(
    out: &mut S,
    error: &mut S::Error,
    raw: &str,
) -> Result<(), SerializeRefused>
    ensures { OnOk result (Adds (option_member (codes "regex") (literal_regex raw.now)) (S.written out.old) (S.written out.new)) }
{
    match raw.strip_prefix('/') {
        Some(rest) => regex_object(out, error, rest),
        None => Ok(()),
    }
}

/// The flags and the pattern, of what stands behind the first `/`.
fn regex_object<S: Serializer>(
    out: &mut S,
    error: &mut S::Error,
    rest: &str,
) -> Result<(), SerializeRefused>
    ensures { OnOk result (Adds (member (codes "regex") (regex_of rest.now)) (S.written out.old) (S.written out.new)) }
{
    let (pattern, flags) = regex_parts(rest);
    serialize_key(out, error, "regex")?;
    begin_object(out, error)?;
    text_member(out, error, "flags", flags)?;
    text_member(out, error, "pattern", pattern)?;
    end_object(out, error)
}

/// `value` of a template's part, with its cooked and its raw value.
#[inline(never)]
pub(crate) fn template_member<S: Serializer>(
    out: &mut S,
    error: &mut S::Error,
    alloc: Global,
    raw: &str,
) -> Result<(), SerializeRefused>
    ensures { OnOk result (Adds (member (codes "value") (template_value raw.now)) (S.written out.old) (S.written out.new)) }
{
    let cooked = cooked_value(alloc, raw)?;
    serialize_key(out, error, "value")?;
    begin_object(out, error)?;
    primitive_member(out, error, "cooked", &cooked)?;
    text_member(out, error, "raw", raw)?;
    end_object(out, error)
}

/// The text of a directive, if the node is one.
#[inline(never)]
pub(crate) fn directive_member<S: Serializer>(
    out: &mut S,
    error: &mut S::Error,
    node: Node,
) -> Result<(), SerializeRefused>
    ensures { OnOk result (Adds (option_member (codes "directive") (directive (label_of (node_tree node.entry)))) (S.written out.old) (S.written out.new)) }
{
    if !node.flags().directive {
        return Ok(());
    }
    text_member(out, error, "directive", unquoted(first_text(node)))
}
