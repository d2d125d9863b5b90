//! Names of groups (GroupName of 22.2.1).

ghost use Rattle.std.specs.Prelude.{◌≡◌, None, is_some, true, IfOk, IfSome, IfNone, IsTrue};
ghost use Rattle.std.specs.List.{list_any};
ghost use Rattle.std.specs.Str.{chars};
ghost use Rattle.std.specs.String.{string_bytes};
ghost use Rattle.source_text.specs.Source.{IsPlace};
ghost use Rattle.tokens.specs.Alphabet.{one_of};
ghost use Rattle.tokens.specs.Reading.{behind};
ghost use Rattle.tokens.specs.Scanned.{IsRun};
ghost use Rattle.regular_expressions.specs.Names.{group_name, is_no_end, name_character, name_from};
ghost use Rattle.regular_expressions.specs.Scanned.{IsRead, spelled};

use crate::character::stands_in_name;
use crate::hex::{Number, unicode_escape};
use std::alloc::{AllocError, Global};
use tokens::{CharAt, char_at};
use tree::TextArena;

/// A character of a name, with its escape.
fn name_character(text: &str, first: CharAt) -> Option<Number>
    requires { IsPlace text.now first.end }
    ensures some { IfSome result (λ r. IsRead (name_character first.c (behind text.now first.end)) r.value text.now first.end r.end) }
    ensures none { IfNone result (name_character first.c (behind text.now first.end) ≡ None) }
{
    if first.c != '\\' {
        return Some(Number {
            value: first.c as u32,
            end: first.end,
        });
    }
    let Some(second) = char_at(text, first.end) else {
        return None;
    };
    if second.c != 'u' {
        return None;
    }
    unicode_escape(text, true, second.end)
}

/// Whether the text is a RegExpIdentifierName.
fn is_name(word: &str) -> bool
    ensures { result ≡ is_some (name_from true 0 (chars word.now)) }
{
    let mut is_first = true;
    let mut at = 0;
    while let Some(step) = char_at(word, at) {
        let Some(character) = name_character(word, step) else {
            return false;
        };
        if !stands_in_name(is_first, character.value) {
            return false;
        }
        is_first = false;
        at = character.end;
    }
    !is_first
}

/// Whether the character may stand before the `>`.
fn is_no_end(c: char) -> bool
    ensures { result ≡ is_no_end c }
{
    c != '>'
}

/// Where the text before the next `>` ends.
fn word_end(text: &str, at: usize) -> usize
    requires { IsPlace text.now at }
    ensures { IsRun is_no_end text.now at result }
{
    let mut end = at;
    while let Some(step) = char_at(text, end) {
        if !is_no_end(step.c) {
            return end;
        }
        end = step.end;
    }
    end
}

/// A name as it is written, and the place behind its `>`.
#[derive(Clone, Copy)]
pub(crate) struct NameAt<'t> {
    pub word: &'t str,
    pub end: usize,
}

/// GroupName behind its `<`.
pub(crate) fn group_name<'t>(text: &'t str, at: usize) -> Option<NameAt<'t>>
    requires { IsPlace text.now at }
    ensures some { IfSome result (λ r. IsRead (group_name (behind text.now at)) (spelled r.word.now) text.now at r.end) }
    ensures none { IfNone result (group_name (behind text.now at) ≡ None) }
{
    let end = word_end(text, at);
    let Some(close) = char_at(text, end) else {
        return None;
    };
    let word = &text[at..end];
    if !is_name(word) {
        return None;
    }
    Some(NameAt {
        word,
        end: close.end,
    })
}

/// Whether an escape stands in the text.
fn has_escape(word: &str) -> bool
    ensures { result ≡ list_any (one_of "\\") (chars word.now) }
{
    let mut at = 0;
    while let Some(step) = char_at(word, at) {
        if step.c == '\\' {
            return true;
        }
        at = step.end;
    }
    false
}

/// The name that is written so: the text itself where it has no escapes.
pub(crate) fn spelled<'t>(
    alloc: Global,
    texts: &'t TextArena,
    word: &'t str,
) -> Result<&'t str, AllocError>
    ensures { IfOk result (λ name. name.now ≡ spelled word.now) }
{
    if !is_name(word) {
        return Ok("");
    }
    if !has_escape(word) {
        return Ok(word);
    }
    let name = unescaped(alloc, word)?;
    texts.keep(name.as_str())
}

/// The characters that a name with escapes stands for.
fn unescaped(alloc: Global, word: &str) -> Result<String, AllocError>
    requires { IsTrue (is_some (name_from true 0 (chars word.now))) }
    ensures { IfOk result (λ name. string_bytes name ≡ spelled word.now) }
{
    let mut name = String::new(alloc);
    let mut at = 0;
    while let Some(step) = char_at(word, at) {
        let Some(character) = name_character(word, step) else {
            return Ok(name);
        };
        let Some(c) = char::from_u32(character.value) else {
            return Ok(name);
        };
        name.push(c)?;
        at = character.end;
    }
    Ok(name)
}
