//! One walk over the literals of a script, for any list of rules.

ghost use Rattle.std.specs.Prelude.{◌≡◌, ◌++◌, OnOk};
ghost use Rattle.tree.specs.Node.{node_tree};
ghost use Rattle.rule_words.specs.Appends.{Grows};
ghost use Rattle.value_rules.specs.Found.{each, found_by_rules, is_literal, of_literal, of_node};

use crate::value_rule::{ValueRule, holds, words};
use rule_words::{Report, push_fixed_report};
use std::alloc::{AllocError, Global};
use tree::{Kind, Node, Program};

/// Appends what rules report of all literals of a script.
///
/// # Errors
///
/// `AllocError` where memory is refused: then what stood in `out` still stands in front, perhaps with some reports behind it.
pub fn push_found(
    alloc: Global,
    rules: &[ValueRule],
    program: &Program,
    out: &mut Vec<Report>,
) -> Result<(), AllocError>
    ensures found { OnOk result (out.new.items ≡ out.old.items ++ found_by_rules rules.now program.now) }
    ensures kept { Grows out.old.items out.new.items }
{
    if rules.is_empty() {
        return Ok(());
    }
    for number in 0..program.node_count() {
        push_of_node(alloc, rules, program.node(number), out)?;
    }
    Ok(())
}

/// Appends what rules report of a node, rule after rule.
fn push_of_node(
    alloc: Global,
    rules: &[ValueRule],
    node: Node,
    out: &mut Vec<Report>,
) -> Result<(), AllocError>
    ensures found { OnOk result (out.new.items ≡ out.old.items ++ each (λ rule. of_node rule (node_tree node.entry)) rules.now) }
    ensures kept { Grows out.old.items out.new.items }
{
    for rule in rules {
        push_by_rule(alloc, *rule, node, out)?;
    }
    Ok(())
}

/// Whether it is the kind of a literal.
fn is_literal(kind: Kind) -> bool
    ensures { result ≡ is_literal kind }
{
    matches!(kind, Kind::Literal)
}

/// Appends what a rule reports of a node.
fn push_by_rule(
    alloc: Global,
    rule: ValueRule,
    node: Node,
    out: &mut Vec<Report>,
) -> Result<(), AllocError>
    ensures found { OnOk result (out.new.items ≡ out.old.items ++ of_node rule (node_tree node.entry)) }
    ensures kept { Grows out.old.items out.new.items }
{
    if !is_literal(node.kind()) {
        return Ok(());
    }
    push_of_literal(alloc, rule, node, out)
}

/// Appends what a rule reports of a literal.
fn push_of_literal(
    alloc: Global,
    rule: ValueRule,
    node: Node,
    out: &mut Vec<Report>,
) -> Result<(), AllocError>
    ensures found { OnOk result (out.new.items ≡ out.old.items ++ of_literal rule (node_tree node.entry)) }
    ensures kept { Grows out.old.items out.new.items }
{
    if !holds(alloc, rule, node.text())? {
        return Ok(());
    }
    push_fixed_report(alloc, rule.name(), node.span(), words(rule), out)
}
