//! One walk over the nodes of a script, for any list of rules.

ghost use Rattle.std.specs.Prelude.{◌≡◌, ◌++◌, option_map, IfOk, OnOk};
ghost use Rattle.tree.specs.Node.{node_tree};
ghost use Rattle.tree.specs.Tree.{parts_of};
ghost use Rattle.name_tables.specs.BoundNames.{each_part};
ghost use Rattle.name_tables.specs.PatternParts.{at_part};
ghost use Rattle.rule_words.specs.Appends.{Grows};
ghost use Rattle.repetition_rules.specs.Bare.{has_if, is_bare, is_compared};
ghost use Rattle.repetition_rules.specs.Found.{each, found_by_rules};
ghost use Rattle.repetition_rules.specs.Rows.{entries_of, of_node, of_parts};

use crate::again::push_reported;
use crate::else_if::{is_if, push_chains_below};
use crate::entry::Entry;
use crate::repetition_rule::{RepetitionRule, looks, push_entry};
use rule_words::Report;
use std::alloc::{AllocError, Global};
use tree::{Kind, Node, Program};

/// Appends what rules report of all nodes of a script.
///
/// # Errors
///
/// `AllocError` where memory is refused: then what stood in `out` still stands in front, perhaps with some reports behind it.
pub fn push_found(
    alloc: Global,
    rules: &[RepetitionRule],
    program: &Program,
    out: &mut Vec<Report>,
) -> Result<(), AllocError>
    ensures found { OnOk result (out.new.items ≡ out.old.items ++ found_by_rules rules.now program.now) }
    ensures kept { Grows out.old.items out.new.items }
{
    if rules.is_empty() {
        return Ok(());
    }
    for number in 0..program.node_count() {
        push_of_node(alloc, rules, program.node(number), out)?;
    }
    Ok(())
}

/// Appends what rules report of a node, rule after rule.
fn push_of_node(
    alloc: Global,
    rules: &[RepetitionRule],
    node: Node,
    out: &mut Vec<Report>,
) -> Result<(), AllocError>
    ensures found { OnOk result (out.new.items ≡ out.old.items ++ each (λ rule. of_node rule (node_tree node.entry)) rules.now) }
    ensures kept { Grows out.old.items out.new.items }
{
    if is_bare(node) {
        return Ok(());
    }
    for rule in rules {
        push_by_rule(alloc, *rule, node, out)?;
    }
    Ok(())
}

/// Whether a rule compares parts of nodes of this kind.
#[inline]
fn is_compared(kind: Kind) -> bool
    ensures { result ≡ is_compared kind }
{
    matches!(
        kind,
        Kind::ClassBody | Kind::ObjectExpression | Kind::SwitchStatement
    )
}

/// Whether an `if` stands among a node's parts.
#[inline]
#[tactic(auto, using(tree::proofs::PartWalk::part_steps))]
fn has_if(node: Node) -> bool
    ensures { result ≡ has_if (parts_of (node_tree node.entry)) }
{
    let parts = node.parts();
    for index in 0..parts.len() {
        if let Some(part) = parts.get(index) {
            if is_if(part.kind()) {
                return true;
            }
        }
    }
    false
}

/// Whether no rule says anything of a node, as of most: none compares its parts, and no `if` is one of them.
#[inline]
fn is_bare(node: Node) -> bool
    ensures { result ≡ is_bare (node_tree node.entry) }
{
    !is_compared(node.kind()) && !has_if(node)
}

/// Appends what a rule reports of a node.
fn push_by_rule(
    alloc: Global,
    rule: RepetitionRule,
    node: Node,
    out: &mut Vec<Report>,
) -> Result<(), AllocError>
    ensures found { OnOk result (out.new.items ≡ out.old.items ++ of_node rule (node_tree node.entry)) }
    ensures kept { Grows out.old.items out.new.items }
{
    match rule {
        RepetitionRule::NoDupeElseIf => push_chains_below(alloc, rule, node, out),
        RepetitionRule::NoDupeClassMembers
        | RepetitionRule::NoDupeKeys
        | RepetitionRule::NoDuplicateCase => push_again(alloc, rule, node, out),
    }
}

/// Appends what a rule reports that compares parts of a node.
fn push_again(
    alloc: Global,
    rule: RepetitionRule,
    node: Node,
    out: &mut Vec<Report>,
) -> Result<(), AllocError>
    ensures found { OnOk result (out.new.items ≡ out.old.items ++ of_parts rule (node_tree node.entry)) }
    ensures kept { Grows out.old.items out.new.items }
{
    if !looks(rule, node.kind()) {
        return Ok(());
    }
    let entries = entries_in(alloc, rule, node)?;
    push_reported(alloc, rule, &entries, out)
}

/// What a rule compares of a node's parts.
fn entries_in(alloc: Global, rule: RepetitionRule, node: Node) -> Result<Vec<Entry>, AllocError>
    ensures { IfOk result (λ v. v.items ≡ each_part (entries_of rule) (parts_of (node_tree node.entry))) }
{
    let mut entries = Vec::new(alloc);
    let parts = node.parts();
    for index in 0..parts.len() {
        push_part(alloc, rule, parts.get(index), &mut entries)?;
    }
    Ok(entries)
}

/// Appends what a rule compares of a part.
fn push_part(
    alloc: Global,
    rule: RepetitionRule,
    part: Option<Node>,
    entries: &mut Vec<Entry>,
) -> Result<(), AllocError>
    ensures { OnOk result (entries.new.items ≡ entries.old.items ++ at_part (entries_of rule) (option_map node_tree part.entry)) }
{
    let Some(part) = part else {
        return Ok(());
    };
    push_entry(alloc, rule, part, entries)
}
