//! Which nodes a walk passes: those in which no pair of the text opens, and that none stands round.

ghost use Rattle.std.specs.Prelude.{◌≡◌, true, false, ltb};
ghost use Rattle.std.specs.List.Sorted.{IsPartitionPoint};
ghost use Rattle.tree.specs.Node.{node_tree};
ghost use Rattle.tree.specs.Tree.{stop_of};
ghost use Rattle.spelling_table.specs.Outlines.{slot_of};
ghost use Rattle.paren_planner.specs.Noted.{is_fixed, is_settled_slot};
ghost use Rattle.pairless_laws.specs.Pairless.{IsPairless};
ghost use Rattle.paren_planner.specs.Passing.{AreOrdered, may_pass, pairs_of};

use spelling_table::{Position, Slot};
use tree::{Node, Pair};

/// The pairs of the text that a script was read from, in order of their `(`, where they are known and a walk may pass nodes by them.
#[derive(Clone, Copy)]
pub(crate) struct TextPairs<'t> {
    pub(crate) known: Option<&'t [Pair]>,
}

/// Whether a node at a slot is passed: where the pairs are known, the slot is the same position wherever the node above stands, and no
/// pair opens from `from`, where the node's text may begin, up to its end.
#[inline(always)]
pub(crate) fn is_passed(pairs: &TextPairs, node: Node, slot: &Slot, from: usize) -> bool
    ensures known { result ≡ true → may_pass pairs.now ≡ true }
    ensures fixed { result ≡ true → is_fixed (slot_of slot.now) ≡ true }
    ensures pairless { result ≡ true → AreOrdered (pairs_of pairs.now) → IsPairless (pairs_of pairs.now) from (stop_of (node_tree node.entry)) }
{
    let Some(known) = pairs.known else {
        return false;
    };
    is_fixed(slot) && is_pairless(known, from, node.span().end)
}

/// Whether a slot is the same position wherever the node above stands.
fn is_fixed(slot: &Slot) -> bool
    ensures { result ≡ is_fixed (slot_of slot.now) }
{
    matches!(slot, Slot::Fixed(_))
}

/// Whether a slot is a position that hands on no symbol, In and start of its own, and takes whatever is spelled there.
pub(crate) fn is_settled(slot: &Slot) -> bool
    ensures { result ≡ is_settled_slot (slot_of slot.now) }
{
    match slot {
        Slot::Fixed(
            Position::Expression { .. } | Position::ChainPart { .. } | Position::Pattern { .. },
        ) => false,
        Slot::Fixed(_) => true,
        _ => false,
    }
}

/// Whether no pair opens from a place on and before an end, of pairs in order of their `(`.
fn is_pairless(pairs: &[Pair], from: usize, end: usize) -> bool
    ensures { result ≡ true → AreOrdered pairs.now → IsPairless pairs.now from end }
{
    match pairs.get(first_from(pairs, from)) {
        Some(pair) => end <= pair.left,
        None => true,
    }
}

/// The index of the first pair whose `(` doesn't stand before a place.
fn first_from(pairs: &[Pair], place: usize) -> usize
    ensures { AreOrdered pairs.now → IsPartitionPoint (λ p. ltb p.left place ≡ true) (λ p. ltb p.left place ≡ false) pairs.now result }
{
    pairs.partition_point(|pair| pair.left < place)
}
