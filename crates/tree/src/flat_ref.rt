//! A node of the finished tree, by reference.

ghost use Rattle.std.specs.Prelude.{◌≡◌, ◌<◌, length, slice_index_or};
ghost use Rattle.tree.specs.Flat.{IsLinked};
ghost use Rattle.tree.specs.Linked.{IsLinked-prop};

use crate::flat_list::{FlatList, section};
use crate::flat_node::FlatNode;
use crate::flat_tree::FlatTree;
use crate::kind::{Flags, Kind, Span};

/// A node of the finished tree, by reference, beside the tree that its parts are in.
#[derive(Clone, Copy)]
pub(crate) struct FlatRef<'t, 's> {
    tree: &'t FlatTree<'s>,
    node: &'t FlatNode<'s>,
    ghost linked: { IsLinked tree.now.parts.items (length tree.now.nodes.items) node.now } by { IsLinked-prop tree.now.parts.items (length tree.now.nodes.items) node.now },
}

impl<'t, 's> FlatRef<'t, 's> {
    ghost use Rattle.std.specs.Prelude.{◌≡◌, ◌<◌, ℕ, length};
    ghost use Rattle.tree.specs.Tree.{kind_of, text_of, flags_of, start_of, stop_of, parts_of, part_count};
    ghost use Rattle.tree.specs.Flat.{tree_at};
    ghost use Rattle.tree.specs.Growth.{row_at};
    ghost use Rattle.std.specs.Prelude.{option_map, slice_index_or, IfSome};
    ghost use Rattle.tree.specs.Tree.{part_at};
    ghost use Rattle.tree.specs.Flat.{run_of};
    ghost use Rattle.tree.specs.Places.{place_tree, place_row, run_parts};
    ghost use Rattle.tree.specs.HeldRows.{PlaceHoldsRows, PlaceHoldsRowsFrom, use_below, row_below};
    ghost use Rattle.tree.specs.declared.node_use.NodeUse.{NodeUse};

    /// The node with a number.
    pub(crate) fn new(tree: &'t FlatTree<'s>, number: usize) -> FlatRef<'t, 's>
        requires { number < length tree.now.nodes.items }
        ensures tree { place_tree result ≡ tree_at tree.now.parts.items tree.now.nodes.items number }
        ensures row { place_row result ≡ row_at tree.now.nodes.items number }
        ensures within { result.tree.now ≡ tree.now }
        ensures node { result.node.now ≡ slice_index_or tree.now.nodes.items number result.node.now }
    {
        let node = &tree.nodes[number];
        FlatRef { tree, node }
    }

    /// The node's kind.
    pub(crate) fn kind(self) -> Kind
        ensures { result ≡ kind_of (place_tree self.entry) }
    {
        let node = self.node;
        node.kind
    }

    /// The node's text.
    pub(crate) fn text(self) -> &'t str
        ensures { result.now ≡ text_of (place_tree self.entry) }
    {
        let node = self.node;
        node.text
    }

    /// The node's flags.
    pub(crate) fn flags(self) -> Flags
        ensures { result ≡ flags_of (place_tree self.entry) }
    {
        let node = self.node;
        node.flags.flags()
    }

    /// The node's place in the source, in bytes.
    pub(crate) fn span(self) -> Span
        ensures starts { result.start ≡ start_of (place_tree self.entry) }
        ensures ends { result.end ≡ stop_of (place_tree self.entry) }
    {
        let node = self.node;
        Span {
            start: node.start as usize,
            end: node.end as usize,
        }
    }

    /// Its row, if it has one.
    pub(crate) fn row(self) -> Option<u32>
        ensures { result ≡ place_row self.entry }
    {
        let node = self.node;
        node.row.number()
    }

    /// All its parts.
    pub(crate) fn parts(self) -> FlatList<'t, 's>
        ensures parts { run_parts result ≡ parts_of (place_tree self.entry) }
        ensures within { result.tree.now ≡ self.entry.tree.now }
        ensures run { result.parts.now ≡ run_of self.entry.tree.now.parts.items self.entry.node.now }
    {
        let tree = self.tree;
        let node = self.node;
        let first = node.first as usize;
        let count = node.count as usize;
        FlatList::new(tree, section(&tree.parts, first, count))
    }

    /// The number of its parts, gaps included.
    pub(crate) fn part_count(self) -> usize
        ensures { result ≡ part_count (parts_of (place_tree self.entry)) }
    {
        let parts = self.parts();
        parts.len()
    }

    /// The part at a place, counted from 0 in source order; none for a gap and past the end.
    pub(crate) fn part(self, index: usize) -> Option<FlatRef<'t, 's>>
        ensures tree { option_map place_tree result ≡ part_at (parts_of (place_tree self.entry)) index }
        ensures rows { IfSome result (λ q. (a : NodeUse) → PlaceHoldsRows a self.entry → PlaceHoldsRows (use_below a (place_tree self.entry) index (place_tree q)) q) }
        ensures numbered { IfSome result (λ q. (a : NodeUse) (r : ℕ) → PlaceHoldsRowsFrom a r self.entry → PlaceHoldsRowsFrom (use_below a (place_tree self.entry) index (place_tree q)) (row_below a r (place_tree self.entry) index) q) }
    {
        let parts = self.parts();
        parts.get(index)
    }
}
