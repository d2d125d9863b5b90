//! What rules report of the parts of a node, each with its place among them, and where the part before it ends.

ghost use Rattle.std.specs.Prelude.{◌≡◌, ◌++◌, option_map, IfOk, OnOk};
ghost use Rattle.tree.specs.Node.{node_tree};
ghost use Rattle.tree.specs.Tree.{parts_of, start_of};
ghost use Rattle.rule_words.specs.Appends.{Grows};
ghost use Rattle.text_rules.specs.Found.{of_node, of_parts, of_place};
ghost use Rattle.text_rules.specs.Rows.{are_too_few, before_part, behind_part, condition, first_comma, has_pair, lacks_pair, of_part, second_part, sequence};

use crate::gap::{Look, piece, push_between, push_if};
use crate::pairs::Pairs;
use crate::reading::read_through;
use crate::text_rule::{TextRule, looks};
use rule_words::Report;
use std::alloc::AllocError;
use tree::{Kind, Node};

/// Whether the first expression of a node has the pair of a head, or is to have one pair more than others.
fn has_pair(kind: Kind) -> bool
    ensures { result ≡ has_pair kind }
{
    matches!(
        kind,
        Kind::IfStatement
            | Kind::WhileStatement
            | Kind::DoWhileStatement
            | Kind::SwitchStatement
            | Kind::ArrowFunctionExpression
    )
}

/// Whether so many pairs leave an expression in such a node without one of its own.
fn are_too_few(kind: Kind, pairs: Pairs) -> bool
    ensures { result ≡ are_too_few kind pairs }
{
    match pairs {
        Pairs::NoPair => true,
        Pairs::OnePair => has_pair(kind),
        Pairs::MorePairs => false,
    }
}

/// Whether a part that begins at `to` has no pair of its own, and is neither the first nor the last of a `for`.
fn lacks_pair(source: &str, kind: Kind, index: usize, from: usize, to: usize) -> bool
    ensures { result ≡ lacks_pair source.now kind index from to }
{
    if matches!(kind, Kind::ForStatement) && index != 1 {
        return false;
    }
    are_too_few(kind, read_through(piece(source, from, to)).pairs)
}

/// The place behind a part that may be missing.
fn behind_part(from: usize, part: Option<Node>) -> usize
    ensures { result ≡ behind_part from (option_map node_tree part.entry) }
{
    match part {
        Some(part) => part.span().end,
        None => from,
    }
}

/// The place before it.
fn before_part(to: usize, part: Option<Node>) -> usize
    ensures { result ≡ before_part to (option_map node_tree part.entry) }
{
    match part {
        Some(part) => part.span().start,
        None => to,
    }
}

/// Appends what is reported of the first comma of a sequence.
fn push_first_comma(look: Look, node: Node, out: &mut Vec<Report>) -> Result<(), AllocError>
    ensures found { OnOk result (out.new.items ≡ out.old.items ++ first_comma look.entry.source.now look.entry.rule (node_tree node.entry)) }
    ensures kept { Grows out.old.items out.new.items }
{
    let span = node.span();
    let from = behind_part(span.start, node.part(0));
    let to = before_part(span.end, node.part(1));
    push_between(look, from, to, out)
}

/// Appends what is reported of a template behind its tag, or of the bracket behind the first part, unless `?.` stands there.
fn push_second_part(
    look: Look,
    node: Node,
    from: usize,
    part: Node,
    out: &mut Vec<Report>,
) -> Result<(), AllocError>
    ensures found { OnOk result (out.new.items ≡ out.old.items ++ second_part look.entry.source.now look.entry.rule (node_tree node.entry) from (node_tree part.entry)) }
    ensures kept { Grows out.old.items out.new.items }
{
    let span = part.span();
    if matches!(node.kind(), Kind::TaggedTemplateExpression) {
        let is_broken = read_through(piece(look.source, from, span.start)).broken;
        return push_if(is_broken, look, span, out);
    }
    if node.flags().optional {
        return Ok(());
    }
    push_between(look, from, span.start, out)
}

/// Appends what is reported of an assignment without a pair.
fn push_condition(
    look: Look,
    node: Node,
    index: usize,
    from: usize,
    part: Node,
    out: &mut Vec<Report>,
) -> Result<(), AllocError>
    ensures found { OnOk result (out.new.items ≡ out.old.items ++ condition look.entry.source.now look.entry.rule (node_tree node.entry) index from (node_tree part.entry)) }
    ensures kept { Grows out.old.items out.new.items }
{
    let span = part.span();
    let is_bare = matches!(part.kind(), Kind::AssignmentExpression)
        && lacks_pair(look.source, node.kind(), index, from, span.start);
    push_if(is_bare, look, span, out)
}

/// Appends what is reported of a sequence without a pair.
fn push_sequence(
    look: Look,
    node: Node,
    index: usize,
    from: usize,
    part: Node,
    out: &mut Vec<Report>,
) -> Result<(), AllocError>
    ensures found { OnOk result (out.new.items ≡ out.old.items ++ sequence look.entry.source.now look.entry.rule (node_tree node.entry) index from (node_tree part.entry)) }
    ensures kept { Grows out.old.items out.new.items }
{
    if matches!(part.kind(), Kind::SequenceExpression)
        && lacks_pair(look.source, node.kind(), index, from, part.span().start)
    {
        push_first_comma(look, part, out)
    } else {
        Ok(())
    }
}

/// Appends what a rule reports of a part.
fn push_of_part(
    look: Look,
    node: Node,
    index: usize,
    from: usize,
    part: Node,
    out: &mut Vec<Report>,
) -> Result<(), AllocError>
    ensures found { OnOk result (out.new.items ≡ out.old.items ++ of_part look.entry.source.now look.entry.rule (node_tree node.entry) index from (node_tree part.entry)) }
    ensures kept { Grows out.old.items out.new.items }
{
    match look.rule {
        TextRule::NoCondAssign => push_condition(look, node, index, from, part, out),
        TextRule::NoIrregularWhitespace => Ok(()),
        TextRule::NoSequences => push_sequence(look, node, index, from, part, out),
        TextRule::NoUnexpectedMultiline if index == 1 => {
            push_second_part(look, node, from, part, out)
        }
        TextRule::NoUnexpectedMultiline => Ok(()),
    }
}

/// Appends what a rule reports of a part that may be missing, and answers where what follows it begins.
fn push_part(
    look: Look,
    node: Node,
    index: usize,
    from: usize,
    part: Option<Node>,
    out: &mut Vec<Report>,
) -> Result<usize, AllocError>
    ensures found { OnOk result (out.new.items ≡ out.old.items ++ of_place look.entry.source.now look.entry.rule (node_tree node.entry) index from (option_map node_tree part.entry)) }
    ensures place { IfOk result (λ place. place ≡ behind_part from (option_map node_tree part.entry)) }
    ensures kept { Grows out.old.items out.new.items }
{
    let Some(part) = part else {
        return Ok(from);
    };
    push_of_part(look, node, index, from, part, out)?;
    Ok(part.span().end)
}

/// Appends what a rule reports of the parts of a node.
fn push_parts(look: Look, node: Node, out: &mut Vec<Report>) -> Result<(), AllocError>
    ensures found { OnOk result (out.new.items ≡ out.old.items ++ of_parts look.entry.source.now look.entry.rule (node_tree node.entry) 0 (start_of (node_tree node.entry)) (parts_of (node_tree node.entry))) }
    ensures kept { Grows out.old.items out.new.items }
{
    let mut from = node.span().start;
    for index in 0..node.part_count() {
        from = push_part(look, node, index, from, node.part(index), out)?;
    }
    Ok(())
}

/// Appends what a rule reports of a node, if it looks at it.
pub(crate) fn push_of_node(look: Look, node: Node, out: &mut Vec<Report>) -> Result<(), AllocError>
    ensures found { OnOk result (out.new.items ≡ out.old.items ++ of_node look.entry.source.now look.entry.rule (node_tree node.entry)) }
    ensures kept { Grows out.old.items out.new.items }
{
    if looks(look.rule, node.kind()) {
        push_parts(look, node, out)
    } else {
        Ok(())
    }
}
