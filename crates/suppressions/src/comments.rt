//! The comments of a script (ECMA-262 11.4).

ghost use Rattle.std.specs.Prelude.{◌≡◌, ◌++◌, ◌+◌, ◌<◌, ◌^◌, length, IfOk, OnOk};
ghost use Rattle.std.specs.Str.{chars};
ghost use Rattle.tree.specs.Node.{node_tree};
ghost use Rattle.text_rules.specs.declared.spot.Spot.TheVariants.{Outside};
ghost use Rattle.text_rules.specs.Found.{passed};
ghost use Rattle.suppressions.specs.Comments.{begun_after, comments_between, comments_from, comments_of, comments_up_to, end_at, ended, last_end};

use source_text::is_line_terminator;
use std::alloc::{AllocError, Global};
use text_rules::{Spot, is_opaque, opening, piece, spot_after};
use tokens::char_at;
use tree::{Node, Program, Span};

/// Where the comment begins that may be read behind a character at a place.
fn begun_after(spot: Spot, begun: usize, at: usize) -> usize
    ensures { result ≡ begun_after spot begun at }
{
    match spot {
        Spot::Outside => at,
        _ => begun,
    }
}

/// Where a comment ends, if it does before or with a character that stands from one place to another.
fn end_at(spot: Spot, c: char, at: usize, stop: usize) -> Option<usize>
    ensures { result ≡ end_at spot c at stop }
{
    match spot {
        Spot::LineComment if is_line_terminator(c) => Some(at),
        Spot::Star if c == '/' => Some(stop),
        _ => None,
    }
}

/// Where it ends, if what is read ends at a place.
fn last_end(spot: Spot, at: usize) -> Option<usize>
    ensures { result ≡ last_end spot at }
{
    match spot {
        Spot::LineComment => Some(at),
        _ => None,
    }
}

/// Appends a comment, if it ended.
fn push_ended(begun: usize, end: Option<usize>, out: &mut Vec<Span>) -> Result<(), AllocError>
    ensures { OnOk result (out.new.items ≡ out.old.items ++ ended begun end) }
{
    if let Some(end) = end {
        out.push(Span { start: begun, end })?;
    }
    Ok(())
}

/// Appends the comment that ends before or with a character, if one does.
fn push_ending(
    spot: Spot,
    begun: usize,
    c: char,
    at: usize,
    stop: usize,
    out: &mut Vec<Span>,
) -> Result<(), AllocError>
    ensures { OnOk result (out.new.items ≡ out.old.items ++ ended begun (end_at spot c at stop)) }
{
    push_ended(begun, end_at(spot, c, at, stop), out)
}

/// Appends the comment that ends with what is read, if one does.
fn push_last(spot: Spot, begun: usize, at: usize, out: &mut Vec<Span>) -> Result<(), AllocError>
    ensures { OnOk result (out.new.items ≡ out.old.items ++ ended begun (last_end spot at)) }
{
    push_ended(begun, last_end(spot, at), out)
}

/// Appends the comments that stand between two places of a text.
fn push_between(source: &str, from: usize, to: usize, out: &mut Vec<Span>) -> Result<(), AllocError>
    ensures { OnOk result (out.new.items ≡ out.old.items ++ comments_between source.now from to) }
{
    push_comments(from, piece(source, from, to), out)
}

/// Appends the comments of a text that stands at a place, outside all comments.
fn push_comments(from: usize, text: &str, out: &mut Vec<Span>) -> Result<(), AllocError>
    requires { from + length text.now < 2 ^ 64 }
    ensures { OnOk result (out.new.items ≡ out.old.items ++ comments_from Outside from from (chars text.now)) }
{
    let mut spot = Spot::Outside;
    let mut begun = from;
    let mut at = 0;
    while let Some(step) = char_at(text, at) {
        let (here, stop) = (from + at, from + step.end);
        push_ending(spot, begun, step.c, here, stop, out)?;
        begun = begun_after(spot, begun, here);
        spot = spot_after(spot, step.c);
        at = step.end;
    }
    push_last(spot, begun, from + at, out)?;
    Ok(())
}

/// Appends the comments from a place on up to a node, if that is a literal or a part of a template, and answers where reading goes on.
fn push_up_to(
    source: &str,
    from: usize,
    node: Node,
    out: &mut Vec<Span>,
) -> Result<usize, AllocError>
    ensures found { OnOk result (out.new.items ≡ out.old.items ++ comments_up_to source.now from (node_tree node.entry)) }
    ensures place { IfOk result (λ place. place ≡ passed from (node_tree node.entry)) }
{
    if !is_opaque(node.kind()) {
        return Ok(from);
    }
    let span = node.span();
    push_between(source, from, span.start, out)?;
    Ok(span.end)
}

/// The comments of a script.
pub(crate) fn comments_of(
    alloc: Global,
    source: &str,
    program: &Program,
) -> Result<Vec<Span>, AllocError>
    ensures { IfOk result (λ comments. comments.items ≡ comments_of source.now program.now) }
{
    let mut out = Vec::new(alloc);
    let mut from = opening(source);
    for number in 0..program.node_count() {
        from = push_up_to(source, from, program.node(number), &mut out)?;
    }
    let end = source.len();
    push_between(source, from, end, &mut out)?;
    Ok(out)
}
