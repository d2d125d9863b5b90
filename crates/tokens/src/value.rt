//! The values of strings and templates (ECMA-262 11.8.4 and 11.8.6.1).

ghost use Rattle.std.specs.Prelude.{◌≡◌, ◌<◌, ◌≤◌, ◌++◌, [], length, take, unwrap_or, option_map, encode_utf8_all, IsTrue, IfOk, IfSome, IfNone};
ghost use Rattle.std.specs.Cow.{IsBorrowedStr, cow_str_bytes};
ghost use Rattle.std.specs.Str.{bytes_eq, chars};
ghost use Rattle.std.specs.String.{string_bytes};
ghost use Rattle.tokens.specs.Escaped.{units_of, IsOther};
ghost use Rattle.tokens.specs.Escapes.{unescaped};
ghost use Rattle.tokens.specs.Strings.{is_string, string_contents, string_units};
ghost use Rattle.tokens.specs.Templates.{IsSettled, cooked_value, line_end_turned, raw_value};

use crate::character::char_at;
use crate::escape::character_value;
use std::alloc::{AllocError, Global};
use std::borrow::CowStr;

/// The UTF-16 units of a string (SV), of its token's text.
pub fn string_units(alloc: Global, text: &str) -> Result<Vec<u16>, AllocError>
    requires { IsTrue (is_string (chars text.now)) }
    ensures { IfOk result (λ v. v.items ≡ string_units (chars text.now)) }
{
    match units(alloc, &text[1..text.len() - 1])? {
        Some(units) => Ok(units),
        None => Ok(Vec::new(alloc)),
    }
}

/// The UTF-16 units of what stands between the first and the last character of any text, none where an escape
/// is bad.
pub fn quoted_units(alloc: Global, text: &str) -> Result<Vec<u16>, AllocError>
    ensures { IfOk result (λ v. v.items ≡ string_units (chars text.now)) }
{
    let Some(value) = units(alloc, contents(text))? else {
        return Ok(Vec::new(alloc));
    };
    Ok(value)
}

/// Whether those units are the bytes of a word, which isn't empty; takes no memory.
pub fn string_is(text: &str, word: &str) -> bool
    requires { 0 < length word.now }
    ensures { result ≡ bytes_eq (string_units (chars text.now)) word.now }
{
    units_are(contents(text), word)
}

/// The text without its first and its last character.
fn contents(text: &str) -> &str
    ensures { chars result.now ≡ string_contents (chars text.now) }
{
    let mut inner = text.chars();
    inner.next();
    inner.next_back();
    inner.as_str()
}

/// Whether the UTF-16 units of a text with escapes are the bytes of a word, one for one; no if an escape is bad.
fn units_are(text: &str, word: &str) -> bool
    requires { 0 < length word.now }
    ensures { result ≡ bytes_eq (unwrap_or (unescaped (chars text.now)) []) word.now }
{
    let mut at = 0;
    let mut matched = 0;
    while let Some(step) = char_at(text, at) {
        let Some(character_value) = character_value(text, step.c, step.end) else {
            return false;
        };
        let Some(more) = matched_by(word, matched, character_value.value) else {
            return false;
        };
        matched = more;
        at = character_value.end;
    }
    matched == word.len()
}

/// How many bytes of a word match after one more value; none if the value isn't the next byte.
fn matched_by(word: &str, matched: usize, value: Option<u32>) -> Option<usize>
    requires { matched ≤ length word.now }
    ensures some { IfSome result (λ n. (n ≤ length word.now) × (take n word.now ≡ take matched word.now ++ units_of value)) }
    ensures none { IfNone result (IsOther word.now matched (units_of value)) }
{
    let Some(value) = value else {
        return Some(matched);
    };
    let bytes = word.as_bytes();
    if matched == bytes.len() {
        return None;
    }
    if u32::from(bytes[matched]) != value {
        return None;
    }
    Some(matched + 1)
}

/// The raw value (TRV) of a part of a template, given without its delimiters, and the UTF-16 units of its cooked
/// value (TV), which there is unless an escape is bad. The raw value is the text itself where nothing changes. A raw
/// value gives the same two.
pub fn template_value<'s>(
    alloc: Global,
    text: &'s str,
) -> Result<(CowStr<'s>, Option<Vec<u16>>), AllocError>
    ensures raw { IfOk result (λ r. cow_str_bytes r.0 ≡ encode_utf8_all (raw_value (chars text.now))) }
    ensures borrowed { IfOk result (λ r. raw_value (chars text.now) ≡ chars text.now → IsBorrowedStr r.0) }
    ensures cooked { IfOk result (λ r. option_map (λ v. v.items) r.1 ≡ cooked_value (chars text.now)) }
    ensures again { IfOk result (λ r. IsSettled (chars text.now) (chars (cow_str_bytes r.0))) }
{
    if text.as_bytes().contains(&b'\r') {
        let raw = turned(alloc, text)?;
        let cooked = units(alloc, raw.as_str())?;
        return Ok((CowStr::Owned(raw), cooked));
    }
    let cooked = units(alloc, text)?;
    Ok((CowStr::Borrowed(text), cooked))
}

/// The text with each CR LF and each CR as LF (11.8.6.1).
fn turned(alloc: Global, text: &str) -> Result<String, AllocError>
    ensures { IfOk result (λ s. string_bytes s ≡ encode_utf8_all (raw_value (chars text.now))) }
{
    let mut out = String::with_capacity(alloc, text.len())?;
    let mut at = 0;
    let mut returned = false;
    while let Some(step) = char_at(text, at) {
        push_turned(&mut out, step.c, returned)?;
        returned = step.c == '\r';
        at = step.end;
    }
    Ok(out)
}

/// Adds a character with CR LF and CR as LF; `returned` says that a CR stands before it.
#[inline]
fn push_turned(out: &mut String, c: char, returned: bool) -> Result<(), AllocError>
    ensures { IfOk result (λ _. string_bytes out.new ≡ string_bytes out.old ++ encode_utf8_all (line_end_turned returned c)) }
{
    if returned && c == '\n' {
        return Ok(());
    }
    if c == '\r' {
        out.push('\n')
    } else {
        out.push(c)
    }
}

/// The UTF-16 units of a text with escapes; none if an escape is bad.
fn units(alloc: Global, text: &str) -> Result<Option<Vec<u16>>, AllocError>
    ensures { IfOk result (λ o. option_map (λ v. v.items) o ≡ unescaped (chars text.now)) }
{
    let mut out = Vec::with_capacity(alloc, text.len())?;
    let mut at = 0;
    while let Some(step) = char_at(text, at) {
        let Some(character_value) = character_value(text, step.c, step.end) else {
            return Ok(None);
        };
        push_units(&mut out, character_value.value)?;
        at = character_value.end;
    }
    Ok(Some(out))
}

/// Adds the UTF16Encoding of a code point (10.1.1), if there is one.
#[inline]
fn push_units(out: &mut Vec<u16>, value: Option<u32>) -> Result<(), AllocError>
    requires { IfSome value (λ v. v < 0x11_0000) }
    ensures { IfOk result (λ _. out.new.items ≡ out.old.items ++ units_of value) }
{
    let Some(value) = value else {
        return Ok(());
    };
    if value < 0x1_0000 {
        out.push(value as u16)?;
        return Ok(());
    }
    let over = value - 0x1_0000;
    out.push((0xD800 + over / 0x400) as u16)?;
    out.push((0xDC00 + over % 0x400) as u16)?;
    Ok(())
}
