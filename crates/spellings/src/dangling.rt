//! What a statement's own position doesn't show: an `if` without `else` at its end, and a second `default` (ECMA-262 13.6, 13.12).

ghost use Rattle.std.specs.Prelude.{◌≡◌, ◌<◌, not, nat_le, option_map};
ghost use Rattle.tree.specs.Node.{node_tree};
ghost use Rattle.tree.specs.Tree.{parts_of};
ghost use Rattle.language.specs.FirstPart.{others};
ghost use Rattle.language.specs.Edges.{trails as trails_kind, ends_in_if as ends_in_if_tree};
ghost use Rattle.language.specs.Statements.{defaults};
ghost use Rattle.spellings.specs.Entries.{dangles_at, is_gap as is_gap_entry, entry_at};

use crate::parts::{PartAt, part_at};
use tree::{Kind, Node};

/// Whether the statement at a place among a node's parts ends in an `if` without `else`.
#[tactic(auto, using(crate::proofs::LastParts::dangles_some, crate::proofs::LastParts::dangles_none))]
pub(crate) fn dangles(node: Node, index: usize) -> bool
    ensures { result ≡ dangles_at (parts_of (node_tree node.entry)) index }
{
    match node.part(index) {
        Some(part) => ends_in_if(part),
        None => false,
    }
}

/// Whether a statement ends in an `if` without `else`: a walk along last parts.
#[tactic(auto, using(tree::proofs::PartWalk::part_steps))]
fn ends_in_if(node: Node) -> bool
    ensures { result ≡ ends_in_if_tree (node_tree node.entry) }
{
    if !trails(node.kind()) {
        return false;
    }
    let count = node.part_count();
    if count == 0 {
        return true;
    }
    match node.part(count - 1) {
        Some(last) => ends_in_if(last),
        None => true,
    }
}

/// Whether such a statement ends as its last part does.
fn trails(kind: Kind) -> bool
    ensures { result ≡ trails_kind kind }
{
    matches!(
        kind,
        Kind::IfStatement
            | Kind::LabeledStatement
            | Kind::WhileStatement
            | Kind::ForStatement
            | Kind::ForInStatement
            | Kind::ForOfStatement
    )
}

/// Whether more than one case of a switch has no test.
pub(crate) fn has_two_defaults(node: Node) -> bool
    ensures { result ≡ not (nat_le (defaults (others (parts_of (node_tree node.entry)))) 1) }
{
    let mut found = false;
    for index in 1..node.part_count() {
        let Some(case) = node.part(index) else {
            continue;
        };
        if !is_gap(part_at(case, 0)) {
            continue;
        }
        if found {
            return true;
        }
        found = true;
    }
    false
}

/// Whether a part is missing there, as a gap.
fn is_gap(entry: PartAt) -> bool
    ensures { result ≡ is_gap_entry entry }
{
    matches!(entry, PartAt::Gap)
}
