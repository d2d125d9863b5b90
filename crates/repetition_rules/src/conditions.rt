//! What tests ask: the operands of `||`, and of each the operands of `&&`, as they are written.

ghost use Rattle.std.specs.Prelude.{◌≡◌, ◌++◌, map, option_map, string_bytes, codes, Some, IfOk, IfSome, OnOk};
ghost use Rattle.std.specs.List.{list_all, list_any};
ghost use Rattle.std.specs.Str.{bytes_eq};
ghost use Rattle.name_tables.specs.Sets.{contains};
ghost use Rattle.tree.specs.Node.{node_tree};
ghost use Rattle.tree.specs.Tree.{part_at, parts_of};
ghost use Rattle.repetition_rules.specs.Tests.{asked, choices, is_among, split};
ghost use Rattle.repetition_rules.specs.Chains.{both_trees, operands};

use crate::written::written;
use name_tables::{KeyBuilder, NameSet};
use std::alloc::{AllocError, Global};
use std::marker::Model;
use tree::{Kind, Node};

/// What holds together where a test holds: the operands of `&&`, as they are written. Contracts see all of them, the last one behind the
/// others.
#[derive(Drop)]
pub(crate) struct Choice {
    others: Vec<String>,
    last: String,
}

impl Model for Choice {
    ghost use Rattle.std.specs.Prelude.{ℕ, List, [], ◌∷◌, ◌++◌, map, string_bytes};

    ghost Value = { List (List ℕ) };

    ghost view = { λ c. map string_bytes c.others.items ++ string_bytes c.last ∷ [] };
}

/// The choices of which one holds where an expression does. Contracts see them as a list.
#[derive(Drop)]
pub(crate) struct Condition {
    choices: Vec<Choice>,
}

impl Model for Condition {
    ghost use Rattle.std.specs.Prelude.{ℕ, List};

    ghost Value = { List (List (List ℕ)) };

    ghost view = { λ c. c.choices.items };
}

/// The two operands of a logical expression.
#[derive(Clone, Copy)]
struct Sides<'t, 's> {
    left: Node<'t, 's>,
    right: Node<'t, 's>,
}

impl Choice {
    ghost use Rattle.std.specs.Prelude.{◌≡◌};
    ghost use Rattle.std.specs.List.{list_any};
    ghost use Rattle.name_tables.specs.Sets.{contains};
    ghost use Rattle.repetition_rules.specs.Tests.{is_among, is_covered_by};
    ghost use Rattle.repetition_rules.specs.Chains.{last_of};

    /// The last operand.
    fn last(&self) -> &str
        ensures { result.now ≡ last_of self.now }
    {
        self.last.as_str()
    }

    /// Whether an operand is among its own.
    fn has(&self, label: &str) -> bool
        ensures { result ≡ is_among self.now label.now }
    {
        self.last.as_str() == label || has_text(&self.others, label)
    }

    /// Whether one of these labels is among its operands.
    pub(crate) fn has_any_of(&self, labels: &NameSet) -> bool
        ensures { result ≡ list_any (contains labels.now) self.now }
    {
        labels.contains(self.last()) || has_one_of(&self.others, labels)
    }

    /// Whether all operands of another one are among its own.
    fn has_all(&self, earlier: &Choice) -> bool
        ensures { result ≡ is_covered_by self.now earlier.now }
    {
        self.has(earlier.last()) && has_each(self, &earlier.others)
    }
}

/// Whether a text is among some.
fn has_text(texts: &[String], label: &str) -> bool
    ensures { result ≡ list_any (λ other. bytes_eq (string_bytes other) label.now) texts.now }
{
    texts.iter().any(|other| other.as_str() == label)
}

/// Whether one of some texts is in a set.
fn has_one_of(texts: &[String], labels: &NameSet) -> bool
    ensures { result ≡ list_any (λ other. contains labels.now (string_bytes other)) texts.now }
{
    texts.iter().any(|other| labels.contains(other.as_str()))
}

/// Whether each of some texts is an operand of a choice.
fn has_each(choice: &Choice, texts: &[String]) -> bool
    ensures { result ≡ list_all (λ label. is_among choice.now (string_bytes label)) texts.now }
{
    texts.iter().all(|label| choice.has(label.as_str()))
}

impl Condition {
    ghost use Rattle.std.specs.Prelude.{◌≡◌, ◌||◌, ℕ, List, OnOk};
    ghost use Rattle.name_tables.specs.Sets.{contains};
    ghost use Rattle.repetition_rules.specs.Tests.{is_covered};
    ghost use Rattle.repetition_rules.specs.Chains.{is_last_of};

    /// Its choices.
    pub(crate) fn choices(&self) -> &[Choice]
        ensures { result.now ≡ self.now }
    {
        self.choices.as_slice()
    }

    /// Whether one of its choices holds wherever another one does.
    pub(crate) fn covers(&self, choice: &Choice) -> bool
        ensures { result ≡ is_covered self.now choice.now }
    {
        self.choices.iter().any(|earlier| choice.has_all(earlier))
    }

    /// Draws the last operand of each choice.
    pub(crate) fn add_lasts(&self, builder: &mut KeyBuilder) {
        for choice in &self.choices {
            builder.add(choice.last());
        }
    }

    /// Puts the last operand of each choice into a set.
    pub(crate) fn put_lasts<'t>(&'t self, lasts: &mut NameSet<'t>) -> Result<(), AllocError>
        ensures { OnOk result ((w : List ℕ) → contains lasts.new w ≡ (contains lasts.old w || is_last_of self.now w)) }
    {
        for choice in &self.choices {
            lasts.insert(choice.last())?;
        }
        Ok(())
    }
}

/// The operands of a node, if it is a logical expression with this operator.
fn operands<'t, 's>(node: Node<'t, 's>, operator: &str) -> Option<Sides<'t, 's>>
    ensures both { option_map both_trees result ≡ operands operator.now (node_tree node.entry) }
    ensures left { IfSome result (λ both. Some (node_tree both.left) ≡ part_at (parts_of (node_tree node.entry)) 0) }
    ensures right { IfSome result (λ both. Some (node_tree both.right) ≡ part_at (parts_of (node_tree node.entry)) 1) }
{
    if !matches!(node.kind(), Kind::LogicalExpression) || node.text() != operator {
        return None;
    }
    let Some(left) = node.part(0) else {
        return None;
    };
    let Some(right) = node.part(1) else {
        return None;
    };
    Some(Sides { left, right })
}

/// Appends the operands of `&&`, as they are written.
#[tactic(auto, using(tree::proofs::PartWalk::part_steps))]
fn push_labels(alloc: Global, node: Node, out: &mut Vec<String>) -> Result<(), AllocError>
    ensures { OnOk result (map string_bytes out.new.items ≡ map string_bytes out.old.items ++ asked (node_tree node.entry)) }
{
    match operands(node, "&&") {
        Some(both) => {
            push_labels(alloc, both.left, out)?;
            push_labels(alloc, both.right, out)
        },
        None => {
            let label = written(alloc, node)?;
            out.push(label)?;
            Ok(())
        },
    }
}

/// The operands of `&&` behind others.
#[tactic(auto, using(tree::proofs::PartWalk::part_steps))]
fn choice_behind(alloc: Global, mut others: Vec<String>, node: Node) -> Result<Choice, AllocError>
    ensures { IfOk result (λ c. c ≡ map string_bytes others.items ++ asked (node_tree node.entry)) }
{
    match operands(node, "&&") {
        Some(both) => {
            push_labels(alloc, both.left, &mut others)?;
            choice_behind(alloc, others, both.right)
        },
        None => {
            let last = written(alloc, node)?;
            Ok(Choice { others, last })
        },
    }
}

/// Appends what the operands of `||` ask.
#[tactic(auto, using(tree::proofs::PartWalk::part_steps))]
fn push_choices(alloc: Global, node: Node, out: &mut Vec<Choice>) -> Result<(), AllocError>
    ensures { OnOk result (out.new.items ≡ out.old.items ++ choices (node_tree node.entry)) }
{
    match operands(node, "||") {
        Some(both) => {
            push_choices(alloc, both.left, out)?;
            push_choices(alloc, both.right, out)
        },
        None => {
            let choice = choice_behind(alloc, Vec::new(alloc), node)?;
            out.push(choice)?;
            Ok(())
        },
    }
}

/// What an expression asks.
pub(crate) fn condition_of(alloc: Global, node: Node) -> Result<Condition, AllocError>
    ensures { IfOk result (λ c. c ≡ choices (node_tree node.entry)) }
{
    let mut choices = Vec::new(alloc);
    push_choices(alloc, node, &mut choices)?;
    Ok(Condition { choices })
}

/// Appends what the operands of `&&` ask, each by itself.
#[tactic(auto, using(tree::proofs::PartWalk::part_steps))]
pub(crate) fn push_conditions(
    alloc: Global,
    node: Node,
    out: &mut Vec<Condition>,
) -> Result<(), AllocError>
    ensures { OnOk result (out.new.items ≡ out.old.items ++ map choices (split (codes "&&") (node_tree node.entry))) }
{
    match operands(node, "&&") {
        Some(both) => {
            push_conditions(alloc, both.left, out)?;
            push_conditions(alloc, both.right, out)
        },
        None => {
            let condition = condition_of(alloc, node)?;
            out.push(condition)?;
            Ok(())
        },
    }
}
