//! The characters of templates (ECMA-262 clause 12.2.9).

ghost use Rattle.std.specs.Prelude.{nat_eq, slice_index_or, ◌≡◌, ℕ, ◌+◌, ◌<◌, ◌≤◌, Bool, List, [], ◌∷◌, ◌++◌, length, IfOk, IfErr, true, false};
ghost use Rattle.tokens.specs.Templates.{raw_value};
ghost use Rattle.tokens.specs.Scanned.{token_of};
ghost use Rattle.language.specs.Token.{as_read};
ghost use Rattle.parser_tables.specs.Tests.{is_later_part};
ghost use Rattle.language.specs.Later.{has_later};
ghost use Rattle.recursive_descent.specs.TemplateElements.{front, back, Holds, part_node};
ghost use Rattle.token_cursor.specs.Refusals.{IsLimit};
ghost use Rattle.tree.specs.Tree.{push};

use covers::ListItem;
use productions::MeasuredNode;
use source_text::Fault;
use std::alloc::Global;
use tokens::{Token, TokenClass, template_value};
use tree::{Kind, Span, TreeBuilder};

/// Whether the token begins with `}`.
fn is_after_brace(token: &Token<'_>) -> bool
    ensures { result ≡ nat_eq (slice_index_or (as_read (token_of token.now)).text 0 0) 125 }
{
    match token.text.as_bytes().first() {
        Some(first) => *first == b'}',
        None => false,
    }
}

/// Whether it is a part of a template that isn't the first.
pub(crate) fn is_later_part(token: &Token<'_>) -> bool
    ensures { result ≡ is_later_part (as_read (token_of token.now)) }
{
    token.class == TokenClass::Template && is_after_brace(token)
}

/// The text after this ASCII character, with which it begins.
fn after_delimiter(text: &str, first: char) -> &str
    requires { first < 128 }
    ensures { (rest : List ℕ) → text.now ≡ first ∷ rest → result.now ≡ rest }
{
    match text.strip_prefix(first) {
        Some(rest) => rest,
        None => text,
    }
}

/// The text before this ASCII character, with which it ends.
fn before_delimiter(text: &str, last: char) -> &str
    requires { last < 128 }
    ensures { (word : List ℕ) → text.now ≡ word ++ last ∷ [] → result.now ≡ word }
{
    match text.strip_suffix(last) {
        Some(word) => word,
        None => text,
    }
}

/// The text after the first delimiter, which is `` ` `` or `}`.
fn after_front(text: &str) -> &str
    ensures { (first : Bool) (rest : List ℕ) → text.now ≡ front first ++ rest → result.now ≡ rest }
{
    match text.strip_prefix('`') {
        Some(rest) => rest,
        None => after_delimiter(text, '}'),
    }
}

/// The text before the last delimiter, and whether that is the `` ` `` that ends the template.
fn before_back(text: &str) -> (&str, bool)
    ensures { (last : Bool) (word : List ℕ) → text.now ≡ word ++ back last → (result.0.now ≡ word) × (result.1 ≡ last) }
{
    match text.strip_suffix('`') {
        Some(word) => (word, true),
        None => (before_delimiter(before_delimiter(text, '{'), '$'), false),
    }
}

/// The characters between the delimiters of a template's part, and whether it is the last part.
fn without_delimiters(text: &str) -> (&str, bool)
    ensures { (first last : Bool) (word : List ℕ) → Holds text.now first last word → (result.0.now ≡ word) × (result.1 ≡ last) }
{
    before_back(after_front(text))
}

/// The span of the text after the token's first delimiter, which is one byte; in bytes.
fn span_inside(token: &Token<'_>, text: &str) -> Span
    ensures { token.now.start + 1 + length text.now ≤ token.now.end → result ≡ record { start = token.now.start + 1; end = token.now.start + 1 + length text.now } }
{
    let start = token.start.saturating_add(1);
    Span {
        start,
        end: start.saturating_add(text.len()).min(token.end),
    }
}

/// The raw value (11.8.6.1) of a template's part: the characters themselves unless there is a CR among them.
fn raw_of<'s>(alloc: Global, tree: &TreeBuilder<'s>, text: &'s str) -> Result<&'s str, Fault>
    ensures raw { IfOk result (λ raw. raw.now ≡ raw_value text.now) }
    ensures refused { IfErr result (λ fault. fault ≡ Fault.OutOfMemory) }
{
    if !text.contains('\r') {
        return Ok(text);
    }
    let (raw, _cooked) = template_value(alloc, text)?;
    Ok(tree.keep(raw.as_str())?)
}

/// The node of a part of a template, marked where it is the last.
///
/// # Errors
/// `TooDeep` where `high` is 0, `OutOfMemory`.
pub(crate) fn template_element<'s>(
    tree: &mut TreeBuilder<'s>,
    alloc: Global,
    token: Token<'s>,
    high: u32,
) -> Result<ListItem, Fault>
    ensures made { IfOk result (λ item. (first last : Bool) (word : List ℕ) → Holds token.entry.text.now first last word → token.entry.end ≡ token.entry.start + length token.entry.text.now → (item.node ≡ part_node token.entry.start word) × (item.is_flagged ≡ last)) }
    ensures plain { IfOk result (λ item. (item.shape.is_expression ≡ true) × (item.spreads ≡ false)) }
    ensures own { IfOk result (λ item. has_later item.node ≡ false) }
    ensures waits { IfOk result (λ item. tree.new ≡ push tree.old item.node) }
    ensures deep { IfErr result (λ fault. fault ≡ Fault.TooDeep → high ≡ 0) }
    ensures refused { IfErr result IsLimit }
{
    let (text, is_tail) = without_delimiters(token.text);
    let span = span_inside(&token, text);
    let raw = raw_of(alloc, tree, text)?;
    let kind = Kind::TemplateElement;
    let mut item = ListItem::plain(MeasuredNode::leaf(tree, kind, raw, span, high)?);
    item.is_flagged = is_tail;
    Ok(item)
}
