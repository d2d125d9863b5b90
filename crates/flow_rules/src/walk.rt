//! One walk over the nodes of a script, for any list of rules.

ghost use Rattle.std.specs.Prelude.{◌≡◌, ◌++◌, option_map, IfOk, OnOk};
ghost use Rattle.tree.specs.Node.{node_tree};
ghost use Rattle.rule_words.specs.Appends.{Grows};
ghost use Rattle.flow_rules.specs.Arounds.{round_root};
ghost use Rattle.flow_rules.specs.Flows.{flow_of};
ghost use Rattle.flow_rules.specs.Found.{found_by_rules};
ghost use Rattle.flow_rules.specs.Over.{over_nodes};
ghost use Rattle.flow_rules.specs.Rows.{of_node, of_rules};
ghost use Rattle.flow_rules.specs.Steps.{around_behind, over_part, sums_behind};

use crate::around::Around;
use crate::completion::flow_by;
use crate::flow::{Flow, Sums};
use crate::flow_rule::{FlowRule, holds, place, words};
use crate::plain::{is_passed, is_silent};
use rule_words::{Report, push_fixed_report};
use std::alloc::{AllocError, Global};
use tree::{Node, Program};

/// A walk over nodes: which rules look, the script's text, and where reports take their memory from.
#[derive(Clone, Copy)]
struct FlowWalk<'w> {
    rules: &'w [FlowRule],
    source: &'w str,
    alloc: Global,
}

/// What is known of the parts of a node before one of them: what stands round that one, and what the others say.
#[derive(Clone, Copy)]
struct Before {
    around: Around,
    sums: Sums,
}

impl Before {
    ghost use Rattle.std.specs.Prelude.{◌≡◌};
    ghost use Rattle.tree.specs.Node.{node_tree};
    ghost use Rattle.flow_rules.specs.Arounds.{behind};
    ghost use Rattle.flow_rules.specs.Flows.{with_part};

    /// Goes on to the next part, behind the one that stands here.
    #[inline]
    fn pass(&mut self, flow: Flow, node: Node)
        ensures around { self.new.around ≡ behind self.old.around flow (node_tree node.entry) }
        ensures sums { self.new.sums ≡ with_part self.old.sums self.old.around.place flow (node_tree node.entry) }
    {
        self.sums.add(self.around.place, flow, node);
        self.around.pass(flow, node);
    }
}

/// Appends what rules report of all nodes of a script, whose text is `source`.
///
/// # Errors
///
/// `AllocError` where memory is refused: then what stood in `out` still stands in front, perhaps with some reports behind it.
pub fn push_found(
    alloc: Global,
    source: &str,
    rules: &[FlowRule],
    program: &Program,
    out: &mut Vec<Report>,
) -> Result<(), AllocError>
    ensures found { OnOk result (out.new.items ≡ out.old.items ++ found_by_rules source.now rules.now program.now) }
    ensures kept { Grows out.old.items out.new.items }
{
    if rules.is_empty() {
        return Ok(());
    }
    let walk = FlowWalk {
        rules,
        source,
        alloc,
    };
    push_nodes(&walk, &Around::root(), program.root(), out)?;
    Ok(())
}

/// Appends what rules report of a node and of all nodes below it; answers what is known of the node.
#[cycle(walking)]
#[tactic(auto, using(tree::proofs::PartWalk::part_steps))]
fn push_nodes(
    walk: &FlowWalk,
    around: &Around,
    node: Node,
    out: &mut Vec<Report>,
) -> Result<Flow, AllocError>
    ensures flow { IfOk result (λ f. f ≡ flow_of (node_tree node.entry)) }
    ensures found { OnOk result (out.new.items ≡ out.old.items ++ over_nodes (of_rules walk.now.source.now walk.now.rules.now) around.now (node_tree node.entry)) }
    ensures kept { Grows out.old.items out.new.items }
{
    let mut before = Before {
        around: around.inside(node),
        sums: Sums::none(),
    };
    for index in 0..node.part_count() {
        push_part(walk, &mut before, node.part(index), out)?;
    }
    let flow = flow_by(node, before.sums);
    push_each(*walk, *around, flow, node, out)?;
    Ok(flow)
}

/// The same of a part, which may be missing, and what is known before the next one.
#[cycle(walking)]
fn push_part(
    walk: &FlowWalk,
    before: &mut Before,
    part: Option<Node>,
    out: &mut Vec<Report>,
) -> Result<(), AllocError>
    ensures around { OnOk result (before.new.around ≡ around_behind before.old.around (option_map node_tree part.entry)) }
    ensures sums { OnOk result (before.new.sums ≡ sums_behind before.old.around before.old.sums (option_map node_tree part.entry)) }
    ensures found { OnOk result (out.new.items ≡ out.old.items ++ over_part (of_rules walk.now.source.now walk.now.rules.now) before.old.around (option_map node_tree part.entry)) }
    ensures kept { Grows out.old.items out.new.items }
{
    let Some(part) = part else {
        before.around.pass_gap();
        return Ok(());
    };
    if is_passed(before.around, part) {
        before.pass(Flow::plain(), part);
        return Ok(());
    }
    let flow = push_nodes(walk, &before.around, part, out)?;
    before.pass(flow, part);
    Ok(())
}

/// Appends what rules report of a node, rule after rule.
fn push_each(
    walk: FlowWalk,
    around: Around,
    flow: Flow,
    node: Node,
    out: &mut Vec<Report>,
) -> Result<(), AllocError>
    ensures found { OnOk result (out.new.items ≡ out.old.items ++ of_rules walk.entry.source.now walk.entry.rules.now around flow (node_tree node.entry)) }
    ensures kept { Grows out.old.items out.new.items }
{
    if is_silent(around, flow, node) {
        return Ok(());
    }
    for rule in walk.rules {
        push_one(walk, *rule, around, flow, node, out)?;
    }
    Ok(())
}

/// Appends what one rule reports of a node.
fn push_one(
    walk: FlowWalk,
    rule: FlowRule,
    around: Around,
    flow: Flow,
    node: Node,
    out: &mut Vec<Report>,
) -> Result<(), AllocError>
    ensures found { OnOk result (out.new.items ≡ out.old.items ++ of_node walk.entry.source.now rule around flow (node_tree node.entry)) }
    ensures kept { Grows out.old.items out.new.items }
{
    if holds(walk.source, rule, around, flow, node) {
        push_fixed_report(
            walk.alloc,
            rule.name(),
            place(rule, around, node),
            words(rule, node),
            out,
        )
    } else {
        Ok(())
    }
}
