//! A run of parts in the finished tree, by reference.

ghost use Rattle.std.specs.Prelude.{◌≡◌, ◌+◌, ◌≤◌, length, take, drop};
ghost use Rattle.tree.specs.Flat.{AreBefore};
ghost use Rattle.tree.specs.Linked.{AreBefore-prop};

use crate::flat_ref::FlatRef;
use crate::flat_tree::FlatTree;
use crate::part_number::PartNumber;

/// Parts of a node of the finished tree that stand one behind the other, by reference.
#[derive(Clone, Copy)]
pub(crate) struct FlatList<'t, 's> {
    tree: &'t FlatTree<'s>,
    parts: &'t [PartNumber],
    ghost before: { AreBefore (length tree.now.nodes.items) parts.now } by { AreBefore-prop (length tree.now.nodes.items) parts.now },
}

impl<'t, 's> FlatList<'t, 's> {
    ghost use Rattle.std.specs.Prelude.{◌≡◌, [], length, option_map, map};
    ghost use Rattle.tree.specs.Tree.{part_count, part_at, parts_drop, parts_take, parts_with_gaps};
    ghost use Rattle.tree.specs.Flat.{AreBefore, trees, named};
    ghost use Rattle.std.specs.Prelude.{IfSome};
    ghost use Rattle.tree.specs.Places.{place_tree, run_parts};
    ghost use Rattle.tree.specs.HeldRows.{IsNamed};

    /// The parts with these numbers in a finished tree.
    pub(crate) fn new(tree: &'t FlatTree<'s>, parts: &'t [PartNumber]) -> FlatList<'t, 's>
        requires { AreBefore (length tree.now.nodes.items) parts.now }
        ensures parts { run_parts result ≡ parts_with_gaps (map (named (trees tree.now.parts.items [] tree.now.nodes.items)) parts.now) }
        ensures within { result.tree.now ≡ tree.now }
        ensures run { result.parts.now ≡ parts.now }
    {
        FlatList { tree, parts }
    }

    /// How many parts there are, gaps counted too.
    pub(crate) fn len(self) -> usize
        ensures { result ≡ part_count (run_parts self.entry) }
    {
        self.parts.len()
    }

    /// The part at a place; none for a gap and past the end.
    pub(crate) fn get(self, index: usize) -> Option<FlatRef<'t, 's>>
        ensures tree { option_map place_tree result ≡ part_at (run_parts self.entry) index }
        ensures found { IfSome result (λ q. IsNamed self.entry index q) }
    {
        match self.parts.get(index) {
            Some(part) => {
                match part.number() {
                    Some(part) => Some(FlatRef::new(self.tree, part.number as usize)),
                    None => None,
                }
            }
            None => None,
        }
    }

    /// Those from a place on; none where there are no more.
    pub(crate) fn skip(self, count: usize) -> FlatList<'t, 's>
        ensures { run_parts result ≡ parts_drop count (run_parts self.entry) }
    {
        let parts = self.parts;
        if count < parts.len() {
            return FlatList::new(self.tree, &parts[count..]);
        }
        FlatList::new(self.tree, &parts[parts.len()..])
    }

    /// The first of them, so many; all where there are no more.
    pub(crate) fn take(self, count: usize) -> FlatList<'t, 's>
        ensures { run_parts result ≡ parts_take count (run_parts self.entry) }
    {
        let parts = self.parts;
        if count < parts.len() {
            return FlatList::new(self.tree, &parts[..count]);
        }
        self
    }
}

/// So many items from a place on.
pub(crate) fn section(parts: &[PartNumber], first: usize, count: usize) -> &[PartNumber]
    requires { first + count ≤ length parts.now }
    ensures { result.now ≡ take count (drop first parts.now) }
{
    let rest = &parts[first..];
    &rest[..count]
}
