//! The text of a script outside literals and parts of templates.

ghost use Rattle.std.specs.Prelude.{◌≡◌, ◌++◌, IfOk, OnOk};
ghost use Rattle.std.specs.Str.{chars};
ghost use Rattle.tree.specs.Node.{node_tree};
ghost use Rattle.tree.specs.Flat.{post_order};
ghost use Rattle.rule_words.specs.Appends.{Grows};
ghost use Rattle.text_rules.specs.Found.{has_mark, is_opaque, opening, outside, passed, up_to};

use crate::gap::{Look, push_between};
use rule_words::Report;
use std::alloc::AllocError;
use tokens::{char_at, hashbang_end};
use tree::{Kind, Node, Program};

/// Whether a text begins with a byte order mark.
fn has_mark(source: &str) -> bool
    ensures { result ≡ has_mark (chars source.now) }
{
    match char_at(source, 0) {
        Some(first) => first.c == '\u{FEFF}',
        None => false,
    }
}

/// Where what is read begins: behind a byte order mark, or the line of `#!`.
pub fn opening(source: &str) -> usize
    ensures { result ≡ opening (chars source.now) }
{
    if has_mark(source) {
        3
    } else {
        hashbang_end(source)
    }
}

/// Whether white space in a node is a character of its text.
pub fn is_opaque(kind: Kind) -> bool
    ensures { result ≡ is_opaque kind }
{
    matches!(kind, Kind::Literal | Kind::TemplateElement)
}

/// Appends what a rule reports up to a node, if its text isn't read, and answers where reading goes on.
fn push_up_to(
    look: Look,
    from: usize,
    node: Node,
    out: &mut Vec<Report>,
) -> Result<usize, AllocError>
    ensures found { OnOk result (out.new.items ≡ out.old.items ++ up_to look.entry.source.now look.entry.rule from (node_tree node.entry)) }
    ensures place { IfOk result (λ place. place ≡ passed from (node_tree node.entry)) }
    ensures kept { Grows out.old.items out.new.items }
{
    if !is_opaque(node.kind()) {
        return Ok(from);
    }
    let span = node.span();
    push_between(look, from, span.start, out)?;
    Ok(span.end)
}

/// Appends what a rule reports of the text outside literals and parts of templates.
pub(crate) fn push_outside(
    look: Look,
    program: &Program,
    out: &mut Vec<Report>,
) -> Result<(), AllocError>
    ensures found { OnOk result (out.new.items ≡ out.old.items ++ outside look.entry.source.now look.entry.rule (opening (chars look.entry.source.now)) (post_order program.now)) }
    ensures kept { Grows out.old.items out.new.items }
{
    let mut from = opening(look.source);
    for number in 0..program.node_count() {
        from = push_up_to(look, from, program.node(number), out)?;
    }
    let end = look.source.len();
    push_between(look, from, end, out)?;
    Ok(())
}
