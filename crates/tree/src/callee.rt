//! A node before others that are there already.

ghost use Rattle.std.specs.Prelude.{◌≡◌, ℕ, ◌≤◌, ◌++◌, length, map, take, drop, IfErr, IfOk};
ghost use Rattle.tree.specs.Building.{AreInOrder, AreNodesOf, IsSound, given_label, most};
ghost use Rattle.tree.specs.Flat.{AreBefore, numbers_of};
ghost use Rattle.tree.specs.Moved.{labelled, moved_up};
ghost use Rattle.tree.specs.TooLarge.{Overflows};
ghost use Rattle.tree.specs.Tree.{Parts, all_but, join, last_parts, part, parts_total};
ghost use Rattle.tree.specs.declared.build_error.BuildError.TheVariants.{TooLarge};

use crate::build_error::BuildError;
use crate::flat_builder::{FlatBuilder, MAX_NUMBER, NodeLabel, flat_node, is_too_late};
use crate::flat_node::{FlatNode, NodeNumber};
use crate::part_number::PartNumber;

/// One more node without parts, which waits before the last so many parts; before all where there are no more. The nodes of these parts
/// move up by one.
#[cold]
#[inline(never)]
pub(crate) fn push_before<'s>(
    building: &mut FlatBuilder<'s>,
    label: NodeLabel<'s>,
    count: usize,
) -> Result<(), BuildError>
    requires { IsSound building.old }
    ensures pushed { IfOk result (λ _. (w : Parts) → AreNodesOf building.old w → AreNodesOf building.new (join (all_but count w) (part (labelled (given_label label.entry)) (last_parts count w)))) }
    ensures refused { IfErr result (λ error. error ≡ TooLarge → Overflows building.old (given_label label.entry) 0) }
{
    let kept = building.waiting.len().saturating_sub(count);
    let number = node_count(&building.waiting[..kept]);
    if building.nodes.len() >= MAX_NUMBER || is_too_late(label.span) {
        return Err(BuildError::TooLarge);
    }
    let first = parts_before(&building.nodes, &building.parts, number);
    let node = flat_node(label, first, 0);
    move_up(&mut building.parts, first);
    move_up(&mut building.waiting, kept);
    // (a `?` here gets no proof, since a node is refused with the memory for it)
    if let Err(_) = building.nodes.insert(number, node) {
        return Err(BuildError::Memory);
    }
    let own = NodeNumber {
        number: number as u32,
    };
    building.waiting.insert(kept, PartNumber::of(own))?;
    Ok(())
}

/// Where the parts of the nodes from a number on begin in the list of all.
fn parts_before(nodes: &[FlatNode<'_>], parts: &[PartNumber], number: usize) -> usize
    requires { AreInOrder (length parts.now) 0 nodes.now }
    ensures within { result ≤ length parts.now }
    ensures front { AreInOrder result 0 (take number nodes.now) }
    ensures behind { AreInOrder (length parts.now) result (drop number nodes.now) }
{
    match nodes.get(number) {
        Some(node) => node.first as usize,
        None => parts.len(),
    }
}

/// How many nodes the parts have that wait so, from the first on.
fn node_count(waiting: &[PartNumber]) -> usize
    ensures within { (n : ℕ) → AreBefore n waiting.now → result ≤ n }
    ensures all { (w : Parts) → waiting.now ≡ numbers_of 0 w → result ≡ parts_total w }
{
    for index in (0..waiting.len()).rev() {
        if let Some(last) = waiting[index].number() {
            return last.number as usize + 1;
        }
    }
    0
}

/// The nodes of the parts from a place on move up by one.
fn move_up(parts: &mut [PartNumber], from: usize)
    requires before { AreBefore most parts.old }
    requires inside { from ≤ length parts.old }
    ensures { parts.new ≡ take from parts.old ++ map moved_up (drop from parts.old) }
{
    for index in from..parts.len() {
        parts[index] = parts[index].moved_up();
    }
}
