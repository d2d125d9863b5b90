//! What the scanner reads of texts, and the values of strings and templates.

use crate::case::Case;
use source_text::Source;
use std::alloc::{AllocError, Global};
use tokens::{Goal, Token, TokenClass, scan, string_is, string_units, template_value};

/// The lexical goal that a word names.
pub(crate) fn goal(word: &str) -> Goal {
    match word {
        "RegExp" => Goal::RegExp,
        "TemplateTail" => Goal::TemplateTail,
        _ => Goal::Div,
    }
}

/// The class of a token, from where to where it stands, its text, and whether a line break stands before it.
fn push_seen(token: &Token, out: &mut String) -> Result<(), AllocError> {
    write!(out, "{:?} {}-{} ", token.class, token.start, token.end)?;
    out.push_str(token.text)?;
    out.push_str(match token.after_break {
        true => ", behind a line break",
        false => "",
    })
}

/// The token that a goal reads at a place of the text, or where the fault is.
pub(crate) fn push_token(source: &Source, row: &Case, out: &mut String) -> Result<(), AllocError> {
    let at = row.number(2);
    if !source.text().is_char_boundary(at) {
        return out.push_str("no place");
    }
    match scan(source, at, goal(row.text(3))) {
        Ok(token) => push_seen(&token, out),
        Err(fault) => write!(out, "fault {}", fault.at),
    }
}

/// Adds UTF-16 units in hexadecimal.
fn push_all(units: &[u16], out: &mut String) -> Result<(), AllocError> {
    for unit in units {
        write!(out, " {unit:X}")?;
    }
    Ok(())
}

/// The units of the string that the text begins with.
pub(crate) fn push_units(
    alloc: Global,
    source: &Source,
    out: &mut String,
) -> Result<(), AllocError> {
    if !source.text().is_char_boundary(0) {
        return Ok(());
    }
    let Ok(token) = scan(source, 0, Goal::Div) else {
        return Ok(());
    };
    match token.class {
        TokenClass::StringLiteral => push_all(&string_units(alloc, token.text)?, out),
        _ => Ok(()),
    }
}

/// Adds the cooked value of a template's part.
fn push_cooked(units: &[u16], out: &mut String) -> Result<(), AllocError> {
    out.push_str(" is")?;
    push_all(units, out)
}

/// The raw value of a part of a template, and the units of the cooked one.
pub(crate) fn push_template(alloc: Global, text: &str, out: &mut String) -> Result<(), AllocError> {
    let (raw, cooked) = template_value(alloc, text)?;
    out.push_str(raw.as_str())?;
    match cooked {
        Some(units) => push_cooked(&units, out),
        None => out.push_str(" has no value"),
    }
}

/// Whether a string's value is `get`.
pub(crate) fn push_get(text: &str, out: &mut String) -> Result<(), AllocError> {
    write!(out, "{:?}", string_is(text, "get"))
}
