//! What ESTree says of the texts of literals, directives and templates.

ghost use Rattle.std.specs.Prelude.{◌≡◌, IfOk, option_map};
ghost use Rattle.std.specs.Str.{chars};
ghost use Rattle.serde_json.specs.View.{view};
ghost use Rattle.tokens.specs.Templates.{cooked_value as units_of_template};
ghost use Rattle.estree_json.specs.Texts.{text_of_units, cooked_of_units, before_slash, after_slash, literal_value as value_of_literal, unquoted as contents_of, is_quoted as begins_with_quote, without_first as without_first_quote, without_last as without_last_quote};
ghost use Rattle.estree_json.specs.Primitives.{data_of};

use serde_json::Value;
use std::alloc::{AllocError, Global};
use tokens::quoted_units;

/// A value with nothing in it: null, yes or no, a text.
#[derive(Drop)]
pub enum Primitive {
    Null,
    Boolean(bool),
    Text(String),
}

impl Primitive {
    /// This primitive as a value of JSON.
    pub(crate) fn into_value(self) -> Value
        ensures { view result ≡ data_of self }
    {
        match self {
            Primitive::Null => Value::Null,
            Primitive::Boolean(flag) => Value::Bool(flag),
            Primitive::Text(text) => Value::String(text),
        }
    }
}

/// `value` of a literal: of strings in well-formed UTF-16, booleans and null.
pub(crate) fn literal_value(alloc: Global, raw: &str) -> Result<Option<Primitive>, AllocError>
    ensures { IfOk result (λ o. option_map data_of o ≡ value_of_literal raw.now) }
{
    if is_quoted(raw) {
        let units = quoted_units(alloc, raw)?;
        return text_of(alloc, &units);
    }
    if raw == "true" {
        return Ok(Some(Primitive::Boolean(true)));
    }
    if raw == "false" {
        return Ok(Some(Primitive::Boolean(false)));
    }
    if raw == "null" {
        return Ok(Some(Primitive::Null));
    }
    Ok(None)
}

/// What stands before and behind the last `/`.
pub(crate) fn regex_parts(rest: &str) -> (&str, &str)
    ensures pattern { result.0.now ≡ before_slash rest.now }
    ensures flags { result.1.now ≡ after_slash rest.now }
{
    match rest.rsplit_once('/') {
        Some((pattern, flags)) => (pattern, flags),
        None => ("", ""),
    }
}

/// `cooked` of a template's part: null where an escape is bad, none where it isn't well-formed UTF-16.
pub(crate) fn cooked_value(alloc: Global, raw: &str) -> Result<Option<Primitive>, AllocError>
    ensures { IfOk result (λ o. option_map data_of o ≡ cooked_of_units (units_of_template (chars raw.now))) }
{
    let (_raw, cooked) = tokens::template_value(alloc, raw)?;
    match cooked {
        Some(units) => text_of(alloc, &units),
        None => Ok(Some(Primitive::Null)),
    }
}

/// A directive's text, without the quote at its front and the quote at its end.
pub(crate) fn unquoted(text: &str) -> &str
    ensures { result.now ≡ contents_of text.now }
{
    without_last(without_first(text))
}

/// The text without the quote at its start, if there is one.
fn without_first(text: &str) -> &str
    ensures { result.now ≡ without_first_quote text.now }
{
    if let Some(rest) = text.strip_prefix('"') {
        return rest;
    }
    match text.strip_prefix('\'') {
        Some(rest) => rest,
        None => text,
    }
}

/// The text without the quote at its end, if there is one.
fn without_last(text: &str) -> &str
    ensures { result.now ≡ without_last_quote text.now }
{
    if let Some(rest) = text.strip_suffix('"') {
        return rest;
    }
    match text.strip_suffix('\'') {
        Some(rest) => rest,
        None => text,
    }
}

/// The text of units of UTF-16; none where a surrogate has no partner.
fn text_of(alloc: Global, units: &[u16]) -> Result<Option<Primitive>, AllocError>
    ensures { IfOk result (λ o. option_map data_of o ≡ text_of_units units.now) }
{
    match String::from_utf16(alloc, units)? {
        Ok(text) => Ok(Some(Primitive::Text(text))),
        Err(_) => Ok(None),
    }
}

/// Whether a quote stands first.
fn is_quoted(text: &str) -> bool
    ensures { result ≡ begins_with_quote text.now }
{
    match text.as_bytes() {
        [b'"' | b'\'', ..] => true,
        _ => false,
    }
}
