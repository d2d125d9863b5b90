//! A run of a node's parts, by reference.
#![tactic(auto, using(crate::proofs::PartLemmas::part_lemmas), unfolding(crate::specs::Node::node_tree, crate::specs::Node::list_parts))]

ghost use Rattle.std.specs.Prelude.{◌≡◌, option_map};

use crate::flat_list::FlatList;
use crate::node::Node;
use crate::part_access::flat_at;

/// Parts of a node that stand one behind the other, by reference: a list in it.
#[derive(Clone, Copy)]
pub struct NodeList<'t, 's> {
    run: FlatList<'t, 's>,
}

impl<'t, 's> NodeList<'t, 's> {
    ghost use Rattle.std.specs.Prelude.{◌≡◌, option_map};
    ghost use Rattle.tree.specs.Tree.{part_count, part_at, parts_drop, parts_take, parts_with_gaps};
    ghost use Rattle.tree.specs.Node.{node_tree, list_parts};
    ghost use Rattle.tree.specs.Places.{run_parts};
    ghost use Rattle.tree.specs.Fields.{last_part, before_last};

    /// The list of a node's parts in a finished tree.
    pub(crate) fn of_run(run: FlatList<'t, 's>) -> NodeList<'t, 's>
        ensures { list_parts result ≡ run_parts run.entry }
    {
        NodeList { run }
    }

    /// How many they are, gaps included.
    pub fn len(self) -> usize
        ensures { result ≡ part_count (list_parts self.entry) }
    {
        let run = self.run;
        run.len()
    }

    /// The part at a place, counted from 0 in source order; none for a gap and past the end.
    pub fn get(self, index: usize) -> Option<Node<'t, 's>>
        ensures { option_map node_tree result ≡ part_at (list_parts self.entry) index }
    {
        let run = self.run;
        flat_at(run, index)
    }

    /// The part that stands last; none for a gap and where there are none.
    pub fn last(self) -> Option<Node<'t, 's>>
        ensures { option_map node_tree result ≡ last_part (list_parts self.entry) }
    {
        let count = self.len();
        self.get(count.saturating_sub(1))
    }

    /// All but the last.
    pub fn without_last(self) -> NodeList<'t, 's>
        ensures { list_parts result ≡ before_last (list_parts self.entry) }
    {
        let count = self.len();
        self.take(count.saturating_sub(1))
    }

    /// Those from a place on; none where there are no more.
    pub fn skip(self, count: usize) -> NodeList<'t, 's>
        ensures { list_parts result ≡ parts_drop count (list_parts self.entry) }
    {
        let run = self.run;
        NodeList::of_run(run.skip(count))
    }

    /// The first of them, so many; all where there are no more.
    pub fn take(self, count: usize) -> NodeList<'t, 's>
        ensures { list_parts result ≡ parts_take count (list_parts self.entry) }
    {
        let run = self.run;
        NodeList::of_run(run.take(count))
    }
}
