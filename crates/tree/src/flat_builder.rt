//! The vectors of the finished tree while they are filled.

ghost use Rattle.std.specs.Prelude.{◌≡◌, ◌+◌, ◌-◌, ◌≤◌, ◌<◌, ◌++◌, length, max, min, nat_lt, IfErr, IfOk};
ghost use Rattle.tree.specs.Building.{Adds, AddsGap, Finishes, given_label, most};
ghost use Rattle.tree.specs.Labels.{node_label};
ghost use Rattle.tree.specs.TooLarge.{Overflows};
ghost use Rattle.tree.specs.declared.build_error.BuildError.TheVariants.{Memory, TooLarge};

use crate::build_error::BuildError;
use crate::flag_bits::FlagBits;
use crate::flat_node::{FlatNode, FlatNodes, NodeNumber};
use crate::kind::{Flags, Kind, Span};
use crate::part_number::PartNumber;
use crate::row_number::RowNumber;
use std::alloc::AllocError;

/// The most nodes or parts of a tree, and its greatest place: four bytes hold one more.
pub(crate) const MAX_NUMBER: usize = 4_294_967_294;

/// Nodes so far, each behind its parts; the parts of all of them; and the parts that wait for their node.
#[derive(Drop)]
pub(crate) struct FlatBuilder<'s> {
    pub nodes: FlatNodes<'s>,
    pub parts: Vec<PartNumber>,
    pub waiting: Vec<PartNumber>,
}

/// A node but for its parts.
#[derive(Clone, Copy)]
pub(crate) struct NodeLabel<'s> {
    pub kind: Kind,
    pub text: &'s str,
    pub flags: Flags,
    pub span: Span,
}

/// One more node without parts, which waits for its own.
#[inline(always)]
pub(crate) fn push_leaf<'s>(
    building: &mut FlatBuilder<'s>,
    label: NodeLabel<'s>,
) -> Result<(), BuildError>
    requires { length building.old.parts.items ≤ most }
    ensures pushed { IfOk result (λ _. Finishes building.old building.new (given_label label.entry) (length building.old.waiting.items)) }
    ensures refused { IfErr result (λ error. error ≡ TooLarge → Overflows building.old (given_label label.entry) 0) }
{
    let first = building.parts.len();
    push_node(building, label, first, 0)
}

/// A hole, or what is missing, waits.
#[inline(always)]
pub(crate) fn push_hole(building: &mut FlatBuilder<'_>) -> Result<(), BuildError>
    ensures pushed { IfOk result (λ _. AddsGap building.old building.new) }
    ensures refused { IfErr result (λ error. error ≡ Memory) }
{
    building.waiting.reserve(1)?;
    building.waiting.push_reserved(PartNumber::gap());
    Ok(())
}

/// One more node, whose parts are the last so many that wait; it waits in their place. All are its parts where there are no more.
#[inline(always)]
pub(crate) fn push_parent<'s>(
    building: &mut FlatBuilder<'s>,
    label: NodeLabel<'s>,
    count: usize,
) -> Result<(), BuildError>
    ensures pushed { IfOk result (λ _. Finishes building.old building.new (given_label label.entry) (length building.old.waiting.items - count)) }
    ensures refused { IfErr result (λ error. error ≡ TooLarge → Overflows building.old (given_label label.entry) (min count (length building.old.waiting.items))) }
{
    let first = building.parts.len();
    let kept = building.waiting.len().saturating_sub(count);
    let count = building.waiting.len() - kept;
    append(&mut building.parts, &building.waiting[kept..])?;
    building.waiting.truncate(kept);
    if building.parts.len() > MAX_NUMBER {
        return Err(BuildError::TooLarge);
    }
    push_node(building, label, first, count)
}

/// One more node, whose parts stand from a place on in the list of all; it waits.
#[inline(always)]
fn push_node<'s>(
    building: &mut FlatBuilder<'s>,
    label: NodeLabel<'s>,
    first: usize,
    count: usize,
) -> Result<(), BuildError>
    requires { first + count ≤ most }
    ensures pushed { IfOk result (λ _. Adds building.old building.new (given_label label.entry) first count) }
    ensures refused { IfErr result (λ error. error ≡ TooLarge → Overflows building.old (given_label label.entry) 0) }
{
    let number = building.nodes.len();
    if number >= MAX_NUMBER || is_too_late(label.span) {
        return Err(BuildError::TooLarge);
    }
    building.nodes.reserve(1)?;
    building.waiting.reserve(1)?;
    let node = flat_node(label, first, count);
    let own = NodeNumber {
        number: number as u32,
    };
    building.waiting.push_reserved(PartNumber::of(own));
    building.nodes.push_reserved(node);
    Ok(())
}

/// Whether a span begins or ends past what four bytes hold.
#[inline(always)]
pub(crate) fn is_too_late(span: Span) -> bool
    ensures { result ≡ nat_lt most (max span.start span.end) }
{
    span.start.max(span.end) > MAX_NUMBER
}

/// The node with this label, whose parts stand from a place on in the list of all. It has no row yet.
#[inline(always)]
pub(crate) fn flat_node<'s>(label: NodeLabel<'s>, first: usize, count: usize) -> FlatNode<'s>
    requires parts { first + count ≤ most }
    requires early { max label.span.start label.span.end ≤ most }
    ensures label { node_label result ≡ given_label label.entry }
    ensures places { (result.first ≡ first) × (result.count ≡ count) }
{
    let NodeLabel {
        kind,
        text,
        flags,
        span,
    } = label;
    FlatNode {
        kind,
        flags: FlagBits::of(flags),
        row: RowNumber::none(),
        text,
        start: span.start as u32,
        end: span.end as u32,
        first: first as u32,
        count: count as u32,
    }
}

/// Adds a node's parts to those of all. They are few: one by one takes less than a copy of them all.
#[inline(always)]
fn append(parts: &mut Vec<PartNumber>, waiting: &[PartNumber]) -> Result<(), AllocError>
    ensures { IfOk result (λ _. parts.new.items ≡ parts.old.items ++ waiting.now) }
{
    parts.reserve(waiting.len())?;
    for part in waiting {
        parts.push_reserved(*part);
    }
    Ok(())
}
