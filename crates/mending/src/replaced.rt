//! Parts that take the place of their nodes.

ghost use Rattle.std.specs.Prelude.{◌≡◌, ◌<◌, IfSome, Some, option_map, true};
ghost use Rattle.tree.specs.Node.{node_tree};
ghost use Rattle.tree.specs.Tree.{node_total};
ghost use Rattle.mending.specs.declared.change.MendRule.TheVariants.{NoExtraBooleanCast, NoLonelyIf, NoUnusedLabels};
ghost use Rattle.mending.specs.Changes.{change, first_of, lonely_if, twice_negated};
ghost use Rattle.mending.specs.Making.{TakesPlace};

use crate::asked::is_asked;
use crate::change::{Change, MendRule};
use crate::tests::{is_if, is_not};
use crate::words::kind_at;
use tree::{Kind, Node};

/// The first part of a part.
fn first_of<'t, 's>(part: Option<Node<'t, 's>>) -> Option<Node<'t, 's>>
    ensures { option_map node_tree result ≡ first_of (option_map node_tree part.entry) }
{
    let Some(node) = part else {
        return None;
    };
    node.part(0)
}

/// What `!!` stands before.
#[tactic(auto, using(crate::proofs::MendSteps::part_steps))]
fn twice_negated<'t, 's>(node: Node<'t, 's>) -> Option<Node<'t, 's>>
    ensures is { option_map node_tree result ≡ twice_negated (node_tree node.entry) }
    ensures smaller { IfSome result (λ part. node_total (node_tree part) < node_total (node_tree node.entry)) }
{
    let inner = node.part(0);
    if is_not(Some(node)) && is_not(inner) {
        return first_of(inner);
    }
    None
}

/// The only statement of a block, if it is an `if`.
#[tactic(auto, using(crate::proofs::MendSteps::part_steps))]
fn lonely_if<'t, 's>(node: Node<'t, 's>) -> Option<Node<'t, 's>>
    ensures is { option_map node_tree result ≡ lonely_if (node_tree node.entry) }
    ensures smaller { IfSome result (λ part. node_total (node_tree part) < node_total (node_tree node.entry)) }
{
    let inner = node.part(0);
    match node.kind() {
        Kind::BlockStatement => {}
        _ => return None,
    }
    if is_if(kind_at(inner)) && node.part(1).is_none() {
        return inner;
    }
    None
}

/// The rule that may put a part of a node of this kind in its place.
fn part_rule(kind: Kind) -> Option<MendRule> {
    match kind {
        Kind::BlockStatement => Some(MendRule::NoLonelyIf),
        Kind::LabeledStatement => Some(MendRule::NoUnusedLabels),
        Kind::UnaryExpression => Some(MendRule::NoExtraBooleanCast),
        _ => None,
    }
}

/// The part of a node that a rule's change puts in its place.
#[tactic(auto, using(crate::proofs::MendSteps::part_steps))]
pub(crate) fn part_by<'t, 's>(rule: MendRule, node: Node<'t, 's>) -> Option<Node<'t, 's>>
    ensures is { IfSome result (λ part. Some (node_tree part) ≡ change rule (node_tree node.entry)) }
    ensures smaller { IfSome result (λ part. node_total (node_tree part) < node_total (node_tree node.entry)) }
{
    match rule {
        MendRule::NoExtraBooleanCast => twice_negated(node),
        MendRule::NoLonelyIf => lonely_if(node),
        MendRule::NoUnusedLabels => match node.kind() {
            Kind::LabeledStatement => node.part(1),
            _ => None,
        },
        _ => None,
    }
}

/// The part that takes a node's place by the changes.
pub(crate) fn replaced_part<'t, 's>(node: Node<'t, 's>, changes: &[Change]) -> Option<Node<'t, 's>>
    ensures { IfSome result (λ part. TakesPlace changes.now (node_tree node.entry) (node_tree part)) }
{
    let Some(rule) = part_rule(node.kind()) else {
        return None;
    };
    if !is_asked(rule, node, changes) {
        return None;
    }
    part_by(rule, node)
}
