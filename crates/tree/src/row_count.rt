//! How many rows are in a node of the finished tree: its first and its last row say it.

ghost use Rattle.std.specs.Prelude.{◌≡◌, ℕ};
ghost use Rattle.tree.specs.NodeUses.{rows_in};
ghost use Rattle.tree.specs.Places.{place_tree};
ghost use Rattle.tree.specs.HeldRows.{PlaceHoldsRows, PlaceHoldsRowsFrom, first_number, last_number};
ghost use Rattle.tree.specs.declared.node_use.NodeUse.{NodeUse};

use crate::flat_ref::FlatRef;

/// How many nodes in it have rows, itself included.
pub(crate) fn row_count(place: FlatRef) -> usize
    ensures { (a : NodeUse) → PlaceHoldsRows a place.entry → result ≡ rows_in a (place_tree place.entry) }
{
    let Some(first) = first_row(place) else {
        return 0;
    };
    let Some(last) = last_row(place) else {
        return 0;
    };
    last.saturating_sub(first) as usize + 1
}

/// The first row in it, if there is one: its own, or else that of the first part that has one.
fn first_row(place: FlatRef) -> Option<u32>
    ensures { (a : NodeUse) (r : ℕ) → PlaceHoldsRowsFrom a r place.entry → result ≡ first_number r (rows_in a (place_tree place.entry)) }
{
    let own = place.row();
    if own.is_some() {
        return own;
    }
    let count = place.part_count();
    for index in 0..count {
        if let Some(part) = place.part(index) {
            let first = first_row(part);
            if first.is_some() {
                return first;
            }
        }
    }
    None
}

/// The last row in it, if there is one: that of the last part that has one, or else its own.
fn last_row(place: FlatRef) -> Option<u32>
    ensures { (a : NodeUse) (r : ℕ) → PlaceHoldsRowsFrom a r place.entry → result ≡ last_number r (rows_in a (place_tree place.entry)) }
{
    let count = place.part_count();
    for index in (0..count).rev() {
        if let Some(part) = place.part(index) {
            let last = last_row(part);
            if last.is_some() {
                return last;
            }
        }
    }
    place.row()
}
