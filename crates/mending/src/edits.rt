//! The edits of a rule's change at a node. There are none where anything but blanks stands beside what goes: a comment, a parenthesis.

use crate::bytes::{
    blank_end, blank_start, byte_at, byte_before, end_behind, is_apart, is_only, is_quote_at,
    space_between, token_start, word_end,
};
use crate::change::MendRule;
use crate::splice::Edit;
use crate::tests::is_literal;
use crate::words::{is_in_name, is_quoted};
use tree::{Kind, Node, Span};

/// One edit, or two.
#[derive(Clone, Copy)]
pub(crate) struct Edits {
    pub first: Edit,
    pub second: Option<Edit>,
}

/// Bytes that go, and what comes in their place.
fn edit(start: usize, end: usize, text: &'static str) -> Edit {
    Edit { start, end, text }
}

/// One edit.
fn one(first: Edit) -> Option<Edits> {
    Some(Edits {
        first,
        second: None,
    })
}

/// Two edits.
fn two(first: Edit, second: Edit) -> Option<Edits> {
    Some(Edits {
        first,
        second: Some(second),
    })
}

/// Where the spans of two parts of a node stand, if it has both.
fn two_spans(node: Node) -> Option<(Span, Span)> {
    let Some(first) = node.part(0) else {
        return None;
    };
    let Some(second) = node.part(1) else {
        return None;
    };
    Some((first.span(), second.span()))
}

/// Where an operator begins that stands behind blanks and `)`.
fn operator_start(text: &[u8], at: usize) -> usize {
    for index in at..text.len() {
        if !matches!(text[index], b' ' | b'\t' | b'\n' | b'\r' | b')') {
            return index;
        }
    }
    at
}

/// `=` behind `==` or `!=`.
fn strict_edits(text: &[u8], node: Node) -> Option<Edits> {
    let Some((left, _)) = two_spans(node) else {
        return None;
    };
    match word_end(text, operator_start(text, left.end), node.text()) {
        Some(end) => one(edit(end, end, "=")),
        None => None,
    }
}

/// `const` in the place of `let`.
fn const_edits(text: &[u8], node: Node) -> Option<Edits> {
    let start = node.span().start;
    match word_end(text, start, "let") {
        Some(end) => one(edit(start, end, "const")),
        None => None,
    }
}

/// The first of two parts goes, with the word between them.
fn drop_first(text: &[u8], node: Node, word: &str) -> Option<Edits> {
    let Some((first, second)) = two_spans(node) else {
        return None;
    };
    if !is_only(text, first.end, second.start, word) {
        return None;
    }
    one(edit(first.start, second.start, ""))
}

/// A label goes with its `:`.
fn label_edits(text: &[u8], node: Node) -> Option<Edits> {
    match node.part(1) {
        Some(body) if is_quote_at(text, body.span().start) => None,
        _ => drop_first(text, node, ":"),
    }
}

/// A name that is said twice goes once.
fn rename_edits(text: &[u8], node: Node) -> Option<Edits> {
    match node.kind() {
        Kind::Property => drop_first(text, node, ":"),
        _ => drop_first(text, node, "as"),
    }
}

/// Where the bracket before a key begins, and the one behind it ends.
fn brackets(text: &[u8], key: Span) -> Option<(usize, usize)> {
    let start = blank_start(text, key.start);
    if byte_before(text, start) != b'[' || start == 0 {
        return None;
    }
    match end_behind(text, key.end, "]") {
        Some(end) => Some((start - 1, end)),
        None => None,
    }
}

/// The brackets of a key go.
fn key_edits(text: &[u8], node: Node) -> Option<Edits> {
    let Some(key) = node.part(0) else {
        return None;
    };
    let key = key.span();
    let Some((start, end)) = brackets(text, key) else {
        return None;
    };
    let space = space_between(text, start, key.start);
    two(edit(start, key.start, space), edit(key.end, end, ""))
}

/// Whether a dot behind a node would be one of its number.
fn is_before_point(node: Node) -> bool {
    is_literal(node.kind()) && !is_quoted(node.text())
}

/// A dot in the place of a string's brackets and quotation marks.
fn dot_edits(text: &[u8], node: Node) -> Option<Edits> {
    let Some(object) = node.part(0) else {
        return None;
    };
    let Some(key) = node.part(1) else {
        return None;
    };
    let key = key.span();
    let Some((start, end)) = brackets(text, key) else {
        return None;
    };
    if is_before_point(object) || key.end <= key.start {
        return None;
    }
    let dot = if node.flags().optional { "" } else { "." };
    let space = if is_in_name(byte_at(text, end)) {
        " "
    } else {
        ""
    };
    two(
        edit(start, key.start.saturating_add(1), dot),
        edit(key.end - 1, end, space),
    )
}

/// The two `!` go.
fn cast_edits(text: &[u8], node: Node) -> Option<Edits> {
    let start = node.span().start;
    let Some(end) = word_end(text, start, "!") else {
        return None;
    };
    match end_behind(text, end, "!") {
        Some(end) => one(edit(start, end, space_between(text, start, end))),
        None => None,
    }
}

/// Whether what stands behind a place can't go on with the statement that ends at another, which may have no `;` of its own.
fn is_ended(text: &[u8], inner_end: usize, end: usize) -> bool {
    if matches!(byte_before(text, inner_end), b';' | b'}') {
        return true;
    }
    matches!(byte_at(text, end), b'\n' | b'\r') && is_apart(text, inner_end, end)
}

/// Whether `else` comes behind a place.
fn is_before_else(text: &[u8], at: usize) -> bool {
    word_end(text, token_start(text, at), "else").is_some()
}

/// The braces round an `if` go.
fn lonely_edits(text: &[u8], node: Node) -> Option<Edits> {
    let Some(inner) = node.part(0) else {
        return None;
    };
    let (block, inner) = (node.span(), inner.span());
    if !is_only(text, block.start, inner.start, "{") || !is_only(text, inner.end, block.end, "}") {
        return None;
    }
    if !is_ended(text, inner.end, block.end) || is_before_else(text, block.end) {
        return None;
    }
    let space = space_between(text, block.start, inner.start);
    two(
        edit(block.start, inner.start, space),
        edit(inner.end, block.end, ""),
    )
}

/// A statement that is a word and its own `;`, or a `;` alone, goes.
fn statement_edits(text: &[u8], node: Node, word: &str) -> Option<Edits> {
    let span = node.span();
    let Some(end) = word_end(text, span.start, word) else {
        return None;
    };
    let Some(stop) = end_behind(text, end, ";") else {
        return None;
    };
    if stop != span.end || !is_apart(text, span.start, span.end) {
        return None;
    }
    if is_quote_at(text, token_start(text, span.end)) {
        return None;
    }
    one(edit(span.start, span.end, ""))
}

/// `= a` goes, and `=` comes behind the operator.
fn assignment_edits(text: &[u8], node: Node) -> Option<Edits> {
    let Some(target) = node.part(0) else {
        return None;
    };
    let Some(operation) = node.part(1) else {
        return None;
    };
    let Some((left, right)) = two_spans(operation) else {
        return None;
    };
    let target = target.span();
    if !is_only(text, target.end, left.start, "=") {
        return None;
    }
    let start = blank_end(text, target.end);
    let from = blank_end(text, left.end);
    let Some(end) = word_end(text, from, operation.text()) else {
        return None;
    };
    if right.start < end {
        return None;
    }
    two(edit(start, from, ""), edit(end, end, "="))
}

/// Braces come round a body.
fn brace_edits(node: Node) -> Option<Edits> {
    let span = node.span();
    two(
        edit(span.start, span.start, "{ "),
        edit(span.end, span.end, " }"),
    )
}

/// The edits of a rule's change at a node, if they can be made.
pub(crate) fn edits_of(rule: MendRule, text: &[u8], node: Node) -> Option<Edits> {
    match rule {
        MendRule::Curly => brace_edits(node),
        MendRule::DotNotation => dot_edits(text, node),
        MendRule::EqEqEq => strict_edits(text, node),
        MendRule::NoDebugger => statement_edits(text, node, "debugger"),
        MendRule::NoExtraSemi => statement_edits(text, node, ""),
        MendRule::NoExtraBooleanCast => cast_edits(text, node),
        MendRule::NoLonelyIf => lonely_edits(text, node),
        MendRule::NoUnusedLabels => label_edits(text, node),
        MendRule::NoUselessComputedKey => key_edits(text, node),
        MendRule::NoUselessRename | MendRule::ObjectShorthand => rename_edits(text, node),
        MendRule::NoUselessReturn => statement_edits(text, node, "return"),
        MendRule::OperatorAssignment => assignment_edits(text, node),
        MendRule::PreferConst => const_edits(text, node),
    }
}
