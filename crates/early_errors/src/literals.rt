//! Templates and regular expressions.

ghost use Rattle.std.specs.Prelude.{◌≡◌, ◌≤◌, ◌&&◌, ◌||◌, [], drop, length, option_map, IfOk};
ghost use Rattle.tree.specs.Node.{node_tree};
ghost use Rattle.tree.specs.Tree.{kind_of, parts_of};
ghost use Rattle.language.specs.Vocabulary.{is_string, literal_class};
ghost use Rattle.early_errors.specs.Early.{own_errors};
ghost use Rattle.early_errors.specs.Literals.{are_among, flags_part, good_flags_in, has_pattern_fault, holds, is_reg_exp, known_flags, some_uncooked};
ghost use Rattle.early_errors.specs.Owns.{Beside, is_element, own_of, round, uncooked_at};
ghost use Rattle.early_errors.specs.Walk.{after};
ghost use Rattle.early_errors.specs.declared.own.OwnErrors.{OwnErrors};

use crate::EarlyError;
use crate::around::Context;
use crate::found::{FirstError, with_error_if};
use grammar::literal_class;
use regular_expressions::first_fault;
use std::alloc::{AllocError, Global};
use tokens::{TokenClass, template_value};
use tree::{Kind, Node};

/// An untagged template with a part that has no cooked value (ECMA-262 12.2.9.1).
pub(crate) fn template_errors(
    alloc: Global,
    node: Node,
    around: Context,
    found: FirstError,
) -> Result<FirstError, AllocError>
    requires { own_of (kind_of (node_tree node)) ≡ OwnErrors.Template }
    ensures { IfOk result (λ e. (r : Beside) → e ≡ after found (own_errors (round around r) (node_tree node.entry))) }
{
    let is_uncooked = some_uncooked(alloc, node)?;
    Ok(with_error_if(
        both(!around.tagged, is_uncooked),
        found,
        EarlyError::UncookedTemplate,
        node.span().start,
    ))
}

/// Whether both hold.
pub(crate) fn both(first: bool, second: bool) -> bool
    ensures { result ≡ (first && second) }
{
    first && second
}

/// Whether one of them holds.
pub(crate) fn either(first: bool, second: bool) -> bool
    ensures { result ≡ (first || second) }
{
    first || second
}

/// Whether a part of this template has a bad escape.
fn some_uncooked(alloc: Global, node: Node) -> Result<bool, AllocError>
    ensures { IfOk result (λ b. b ≡ some_uncooked (parts_of (node_tree node.entry))) }
{
    for index in 0..node.part_count() {
        if is_uncooked(alloc, node.part(index))? {
            return Ok(true);
        }
    }
    Ok(false)
}

/// Whether the part is a template's element with a bad escape.
fn is_uncooked(alloc: Global, part: Option<Node>) -> Result<bool, AllocError>
    ensures { IfOk result (λ b. b ≡ uncooked_at (option_map node_tree part.entry)) }
{
    let Some(part) = part else {
        return Ok(false);
    };
    if !is_element(part.kind()) {
        return Ok(false);
    }
    let (_, cooked) = template_value(alloc, part.text())?;
    Ok(cooked.is_none())
}

/// Whether the kind is that of a template's element.
fn is_element(kind: Kind) -> bool
    ensures { result ≡ is_element kind }
{
    match kind {
        Kind::TemplateElement => true,
        _ => false,
    }
}

/// Flags of a regular expression that aren't known, or stand twice (ECMA-262 12.2.8.1); a pattern that isn't one (13th edition, 13.2.7.1).
pub(crate) fn literal_errors(
    alloc: Global,
    node: Node,
    is_2022: bool,
    found: FirstError,
) -> Result<FirstError, AllocError>
    requires { own_of (kind_of (node_tree node)) ≡ OwnErrors.Literal }
    ensures { IfOk result (λ e. (z : _) → z.of_2022 ≡ is_2022 → e ≡ after found (own_errors z (node_tree node.entry))) }
{
    let text = node.text();
    let start = node.span().start;
    let found = with_error_if(
        !has_good_flags(text, is_2022),
        found,
        EarlyError::RegExpFlags,
        start,
    );
    let is_wrong = has_wrong_pattern(alloc, text, is_2022)?;
    Ok(with_error_if(is_wrong, found, EarlyError::RegExpPattern, start))
}

/// Whether a literal is a regular expression whose pattern has a fault, in the language of 2022.
fn has_wrong_pattern(alloc: Global, text: &str, is_2022: bool) -> Result<bool, AllocError>
    ensures { IfOk result (λ b. b ≡ (is_2022 && (is_reg_exp (literal_class text.now) && has_pattern_fault text.now))) }
{
    if !is_2022 {
        return Ok(false);
    }
    if !begins_with_slash(text) {
        return Ok(false);
    }
    let fault = first_fault(alloc, text)?;
    Ok(fault.is_some())
}

/// Whether a literal is no regular expression, or one whose flags are each one of `g i m s u y`, in 2022 also `d`, and stand once.
fn has_good_flags(text: &str, is_2022: bool) -> bool
    ensures { result ≡ good_flags_in is_2022 text.now }
{
    if !begins_with_slash(text) {
        return true;
    }
    let bytes = text.as_bytes();
    are_flags(&bytes[flags_start(bytes)..], is_2022)
}

/// Whether a literal's text is that of a string.
pub(crate) fn begins_with_quote(text: &str) -> bool
    ensures { result ≡ is_string (literal_class text.now) }
{
    matches!(literal_class(text), TokenClass::StringLiteral)
}

/// Whether a literal's text is that of a regular expression.
pub(crate) fn begins_with_slash(text: &str) -> bool
    ensures { result ≡ is_reg_exp (literal_class text.now) }
{
    matches!(literal_class(text), TokenClass::RegularExpressionLiteral)
}

/// The place behind the last `/`, the end where there is none.
fn flags_start(bytes: &[u8]) -> usize
    ensures flags { drop result bytes.now ≡ flags_part [] bytes.now }
    ensures within { result ≤ length bytes.now }
{
    let mut start = bytes.len();
    for index in 0..bytes.len() {
        if bytes[index] == b'/' {
            start = index + 1;
        }
    }
    start
}

/// Whether each byte is a flag, and none stands twice.
fn are_flags(flags: &[u8], is_2022: bool) -> bool
    ensures { result ≡ are_among (known_flags is_2022) flags.now }
{
    for index in 0..flags.len() {
        let flag = flags[index];
        if !both(is_flag(flag, is_2022), !holds(&flags[index + 1..], flag)) {
            return false;
        }
    }
    true
}

/// Whether the byte is a flag of regular expressions: one of `gimsuy`, in 2022 also `d`.
fn is_flag(byte: u8, is_2022: bool) -> bool
    ensures { result ≡ holds (known_flags is_2022) byte }
{
    if byte == b'd' {
        return is_2022;
    }
    byte == b'g' || byte == b'i' || byte == b'm' || byte == b's' || byte == b'u' || byte == b'y'
}

/// Whether the byte is among these.
fn holds(bytes: &[u8], byte: u8) -> bool
    ensures { result ≡ holds bytes.now byte }
{
    bytes.contains(&byte)
}
