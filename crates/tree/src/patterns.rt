//! Expressions as the patterns that they cover (ECMA-262 clause 12.15.5), in place: a pattern has the nodes of what it covers, some with
//! another kind and no text.

ghost use Rattle.std.specs.Prelude.{◌≡◌, ◌<◌, length};
ghost use Rattle.tree.specs.Flat.{AreBefore, AreLinked};
ghost use Rattle.tree.specs.Building.{AreNodesOf, IsSound};
ghost use Rattle.tree.specs.Repatterned.{IsPatternOf, KeepsParts, MakesPattern, MakesPatterns, first_made};
ghost use Rattle.tree.specs.Patterns.{pattern_parts};
ghost use Rattle.tree.specs.Tree.{Parts, all_but, last_parts, join};

use crate::flat_builder::FlatBuilder;
use crate::flat_list::section;
use crate::flat_node::{FlatNode, FlatNodes};
use crate::kind::Kind;
use crate::part_number::PartNumber;

/// The last so many parts that wait become their patterns; all where there are no more.
pub(crate) fn make_last_patterns(building: &mut FlatBuilder<'_>, count: usize)
    requires { IsSound building.old }
    ensures { (w : Parts) → AreNodesOf building.old w → AreNodesOf building.new (join (all_but count w) (pattern_parts 0 (last_parts count w))) }
{
    let kept = building.waiting.len().saturating_sub(count);
    let run = &building.waiting[kept..];
    make_patterns(&mut building.nodes, &building.parts, run, 0);
}

/// A node becomes its pattern.
#[cycle(patterns)]
fn make_pattern(nodes: &mut FlatNodes<'_>, pool: &[PartNumber], number: usize)
    requires there { number < length nodes.old.items }
    requires linked { AreLinked pool.now 0 nodes.old.items }
    ensures shape { KeepsParts nodes.old.items nodes.new.items }
    ensures made { MakesPattern pool.now nodes.old.items nodes.new.items number }
{
    let node = &mut nodes[number];
    let made = first_pattern(node.kind);
    let first = node.first as usize;
    let count = node.count as usize;
    relabel(node);
    if let Some(from) = made {
        make_patterns(nodes, pool, section(pool, first, count), from);
    }
}

/// Parts from a place on become their patterns.
#[cycle(patterns)]
fn make_patterns(nodes: &mut FlatNodes<'_>, pool: &[PartNumber], run: &[PartNumber], from: usize)
    requires before { AreBefore (length nodes.old.items) run.now }
    requires linked { AreLinked pool.now 0 nodes.old.items }
    ensures shape { KeepsParts nodes.old.items nodes.new.items }
    ensures made { MakesPatterns pool.now nodes.old.items nodes.new.items run.now from }
{
    for index in from..run.len() {
        if let Some(part) = run[index].number() {
            make_pattern(nodes, pool, part.number as usize);
        }
    }
}

/// From which of a node's parts on they become patterns too; none where none does.
fn first_pattern(kind: Kind) -> Option<usize>
    ensures { result ≡ first_made kind }
{
    match kind {
        Kind::ArrayExpression | Kind::ObjectExpression | Kind::SpreadElement => Some(0),
        Kind::Property => Some(1),
        _ => None,
    }
}

/// The kind and the text of the pattern: of an array, an object, an assignment, or the rest of a spread. Another node keeps its own.
fn relabel(node: &mut FlatNode<'_>)
    ensures { IsPatternOf node.old node.new }
{
    match node.kind {
        Kind::ArrayExpression => node.kind = Kind::ArrayPattern,
        Kind::ObjectExpression => node.kind = Kind::ObjectPattern,
        Kind::AssignmentExpression => {
            node.kind = Kind::AssignmentPattern;
            node.text = "";
        }
        Kind::SpreadElement => node.kind = Kind::RestElement,
        _ => {}
    }
}
