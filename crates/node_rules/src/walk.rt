//! One walk over the tree, in the order of the source, for any list of rules.

ghost use Rattle.std.specs.Prelude.{◌≡◌, ◌++◌, OnOk, true};
ghost use Rattle.tree.specs.Node.{list_parts, node_tree};
ghost use Rattle.tree.specs.Tree.{parts_of};
ghost use Rattle.rule_words.specs.Appends.{Grows};
ghost use Rattle.node_rules.specs.Arounds.{at_place};
ghost use Rattle.node_rules.specs.Due.{are_silent, is_silent, of_due};
ghost use Rattle.node_rules.specs.Found.{found_by_rules};
ghost use Rattle.node_rules.specs.Over.{over_nodes, over_parts};
ghost use Rattle.node_rules.specs.Rows.{of_node, of_rules};

use crate::around::Around;
use crate::due_rules::DueRules;
use crate::node_rule::{NodeOptions, NodeRule, holds, looks, place, words};
use rule_words::{Report, push_fixed_report};
use std::alloc::{AllocError, Global};
use tree::{Node, NodeList, Program};

/// A walk over nodes: which rules look at which kinds, what they ask of the settings, the script's text, and where reports take their memory from.
#[derive(Clone, Copy)]
struct NodeWalk<'w> {
    due: &'w DueRules,
    options: NodeOptions,
    source: &'w str,
    alloc: Global,
}

/// Appends what rules report of all nodes of a script, whose text is `source`.
///
/// # Errors
///
/// `AllocError` where memory is refused: then what stood in `out` still stands in front, perhaps with some reports behind it.
pub fn push_found(
    alloc: Global,
    options: NodeOptions,
    source: &str,
    rules: &[NodeRule],
    program: &Program,
    out: &mut Vec<Report>,
) -> Result<(), AllocError>
    ensures found { OnOk result (out.new.items ≡ out.old.items ++ found_by_rules options source.now rules.now program.now) }
    ensures kept { Grows out.old.items out.new.items }
{
    if rules.is_empty() {
        return Ok(());
    }
    let due = DueRules::of(alloc, rules)?;
    let walk = NodeWalk {
        due: &due,
        options,
        source,
        alloc,
    };
    let around = Around::root();
    push_nodes(&walk, &around, 0, program.root(), out)
}

/// Appends what rules report of a node and of all nodes below it. The node is the part at this place of what stands round it.
#[cycle(walking)]
#[inline(always)]
fn push_nodes(
    walk: &NodeWalk,
    around: &Around,
    place: usize,
    node: Node,
    out: &mut Vec<Report>,
) -> Result<(), AllocError>
    ensures found { OnOk result (out.new.items ≡ out.old.items ++ over_nodes (of_due walk.now.options walk.now.source.now walk.now.due.now) (at_place around.now place) (node_tree node.entry)) }
    ensures kept { Grows out.old.items out.new.items }
{
    push_due(walk, around, place, node, out)?;
    if are_passed(walk.due, node.parts()) {
        return Ok(());
    }
    let inner = around.inside(place, node);
    push_below(walk, &inner, node, out)
}

/// Appends what they report of the nodes below a node, by what stands round its parts.
#[cycle(walking)]
#[tactic(auto, using(tree::proofs::PartWalk::part_steps))]
fn push_below(
    walk: &NodeWalk,
    around: &Around,
    node: Node,
    out: &mut Vec<Report>,
) -> Result<(), AllocError>
    ensures found { OnOk result (out.new.items ≡ out.old.items ++ over_parts (of_due walk.now.options walk.now.source.now walk.now.due.now) around.now 0 (parts_of (node_tree node.entry))) }
    ensures kept { Grows out.old.items out.new.items }
{
    for place in 0..node.part_count() {
        if let Some(part) = node.part(place) {
            push_nodes(walk, around, place, part, out)?;
        }
    }
    Ok(())
}

/// Whether a node has no parts, and no rule looks at it.
#[inline]
fn is_silent_leaf(due: &DueRules, node: Node) -> bool
    ensures { result ≡ true → is_silent due.now (node_tree node.entry) ≡ true }
{
    if node.part_count() > 0 {
        return false;
    }
    due.at(node.kind()).is_empty()
}

/// Whether none of these parts has parts, and no rule looks at one.
#[inline]
#[tactic(auto, using(tree::proofs::PartWalk::part_steps))]
fn are_silent_leaves(due: &DueRules, parts: NodeList) -> bool
    ensures { result ≡ true → are_silent due.now (list_parts parts.entry) ≡ true }
{
    for index in 0..parts.len() {
        if let Some(part) = parts.get(index) {
            if !is_silent_leaf(due, part) {
                return false;
            }
        }
    }
    true
}

/// Whether no rule looks at a node, nor at its parts, none of which has parts, as in a member of a name.
#[inline]
fn is_passed(due: &DueRules, node: Node) -> bool
    ensures { result ≡ true → is_silent due.now (node_tree node.entry) ≡ true }
{
    if !due.at(node.kind()).is_empty() {
        return false;
    }
    are_silent_leaves(due, node.parts())
}

/// Whether the walk passes by all of these parts.
#[inline]
#[tactic(auto, using(tree::proofs::PartWalk::part_steps))]
fn are_passed(due: &DueRules, parts: NodeList) -> bool
    ensures { result ≡ true → are_silent due.now (list_parts parts.entry) ≡ true }
{
    for index in 0..parts.len() {
        if let Some(part) = parts.get(index) {
            if !is_passed(due, part) {
                return false;
            }
        }
    }
    true
}

/// Appends what the rules that look at a node report of it.
#[inline]
fn push_due(
    walk: &NodeWalk,
    around: &Around,
    place: usize,
    node: Node,
    out: &mut Vec<Report>,
) -> Result<(), AllocError>
    ensures found { OnOk result (out.new.items ≡ out.old.items ++ of_due walk.now.options walk.now.source.now walk.now.due.now (at_place around.now place) (node_tree node.entry)) }
    ensures kept { Grows out.old.items out.new.items }
{
    let due = walk.due.at(node.kind());
    if due.is_empty() {
        return Ok(());
    }
    push_each(walk, due, around.at_place(place), node, out)
}

/// Appends what rules report of a node, rule after rule.
fn push_each(
    walk: &NodeWalk,
    rules: &[NodeRule],
    around: Around,
    node: Node,
    out: &mut Vec<Report>,
) -> Result<(), AllocError>
    ensures found { OnOk result (out.new.items ≡ out.old.items ++ of_rules walk.now.options walk.now.source.now rules.now around (node_tree node.entry)) }
    ensures kept { Grows out.old.items out.new.items }
{
    for rule in rules {
        push_one(walk, *rule, around, node, out)?;
    }
    Ok(())
}

/// Appends what one rule reports of a node.
fn push_one(
    walk: &NodeWalk,
    rule: NodeRule,
    around: Around,
    node: Node,
    out: &mut Vec<Report>,
) -> Result<(), AllocError>
    ensures found { OnOk result (out.new.items ≡ out.old.items ++ of_node walk.now.options walk.now.source.now rule around (node_tree node.entry)) }
    ensures kept { Grows out.old.items out.new.items }
{
    if looks(rule, node.kind()) && holds(walk.options, walk.source, rule, around, node) {
        push_fixed_report(
            walk.alloc,
            rule.name(),
            place(rule, node),
            words(rule, node),
            out,
        )
    } else {
        Ok(())
    }
}
