//! Parts of a list, by reference.
#![tactic(auto, using(crate::proofs::PartLemmas::part_lemmas))]

ghost use Rattle.std.specs.Prelude.{◌≡◌, ℕ, option_map};
ghost use Rattle.tree.specs.Tree.{part_at};
ghost use Rattle.tree.specs.Node.{node_tree};
ghost use Rattle.std.specs.Prelude.{IfSome};
ghost use Rattle.tree.specs.Tree.{parts_of};
ghost use Rattle.tree.specs.Places.{run_parts, place_tree};
ghost use Rattle.tree.specs.HeldRows.{PlaceHoldsRows, PlaceHoldsRowsFrom, HoldsRows, HoldsRowsFrom, use_below, row_below};
ghost use Rattle.tree.specs.declared.node_use.NodeUse.{NodeUse};

use crate::flat_list::FlatList;
use crate::flat_ref::FlatRef;
use crate::node::Node;

/// A part of the finished tree.
pub(crate) fn flat_at<'t, 's>(run: FlatList<'t, 's>, index: usize) -> Option<Node<'t, 's>>
    ensures { option_map node_tree result ≡ part_at (run_parts run.entry) index }
{
    match run.get(index) {
        Some(place) => Some(Node::at(place)),
        None => None,
    }
}

/// The part of a node of the finished tree at a place.
pub(crate) fn flat_part<'t, 's>(place: FlatRef<'t, 's>, index: usize) -> Option<Node<'t, 's>>
    ensures tree { option_map node_tree result ≡ part_at (parts_of (place_tree place.entry)) index }
    ensures rows { IfSome result (λ part. (a : NodeUse) → PlaceHoldsRows a place.entry → HoldsRows (use_below a (place_tree place.entry) index (node_tree part)) part) }
    ensures numbered { IfSome result (λ part. (a : NodeUse) (r : ℕ) → PlaceHoldsRowsFrom a r place.entry → HoldsRowsFrom (use_below a (place_tree place.entry) index (node_tree part)) (row_below a r (place_tree place.entry) index) part) }
{
    match place.part(index) {
        Some(part) => Some(Node::at(part)),
        None => None,
    }
}
