//! A tail over parts.

ghost use Rattle.std.specs.Prelude.{◌≡◌};
ghost use Rattle.tree.specs.Node.{node_tree, list_parts};
ghost use Rattle.tree.specs.Tree.{Parts, part_count};
ghost use Rattle.spelling_table.specs.Outlines.{part_of_tail, parts_after, tail_slots};
ghost use Rattle.spellings.specs.Remaining.{goes_over, are_whole, are_plain};

use spelling_table::{
    ListSlots, Next, Slot, is_of_arguments, is_over, may_end, next_slot, skips_gap, takes_all,
};
use tree::{Node, NodeList};

/// The position of a part that so many stand behind, and how they go on behind it.
pub(crate) fn slot_of_part(part: Node, tail: ListSlots, behind: usize) -> Option<(Slot, ListSlots)>
    ensures { (ps : Parts) → part_count ps ≡ behind → result ≡ part_of_tail tail (node_tree part.entry) ps }
{
    let next = Next {
        kind: part.kind(),
        is_directive: part.flags().directive,
        is_last: behind == 0,
        is_before_last: behind == 1,
    };
    next_slot(tail, next)
}

/// Whether a tail goes over the parts from a place on.
pub(crate) fn list_fits(parts: NodeList, tail: ListSlots, from: usize) -> bool
    ensures { result ≡ goes_over (tail_slots tail (parts_after from (list_parts parts.entry))) }
{
    if takes_all(tail) {
        return is_whole(parts, from);
    }
    if is_of_arguments(tail) {
        if has_plain(parts, from) {
            return true;
        }
    }
    list_fits_by_part(parts, tail, from)
}

/// Whether no gap stands from a place on.
#[tactic(auto, using(crate::proofs::PartsAfter::whole_steps))]
fn is_whole(parts: NodeList, from: usize) -> bool
    ensures { result ≡ are_whole (parts_after from (list_parts parts.entry)) }
{
    for index in from..parts.len() {
        let Some(_) = parts.get(index) else {
            return false;
        };
    }
    true
}

/// Whether neither a gap nor a rest stands from a place on.
#[tactic(auto, using(crate::proofs::PartsAfter::whole_steps))]
fn has_plain(parts: NodeList, from: usize) -> bool
    ensures { result ≡ are_plain (parts_after from (list_parts parts.entry)) }
{
    for index in from..parts.len() {
        let Some(part) = parts.get(index) else {
            return false;
        };
        if part.kind().is_rest() {
            return false;
        }
    }
    true
}

/// Whether a tail goes over the parts from a place on, one by one.
fn list_fits_by_part(parts: NodeList, tail: ListSlots, from: usize) -> bool
    ensures { result ≡ goes_over (tail_slots tail (parts_after from (list_parts parts.entry))) }
{
    let mut tail = tail;
    let count = parts.len();
    for index in from..count {
        if is_over(tail) {
            return true;
        }
        let Some(part) = parts.get(index) else {
            if !skips_gap(tail) {
                return false;
            }
            continue;
        };
        let Some((_, rest)) = slot_of_part(part, tail, count - index - 1) else {
            return false;
        };
        tail = rest;
    }
    may_end(tail)
}
