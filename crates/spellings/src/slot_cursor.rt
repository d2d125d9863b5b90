//! The slots of a node's parts, one by one, read off its production.

ghost use Rattle.std.specs.Prelude.{◌≡◌, Some};
ghost use Rattle.tree.specs.Node.{node_tree, list_parts};
ghost use Rattle.tree.specs.Tree.{part_at};
ghost use Rattle.spelling_table.specs.Outlines.{parts_after};
ghost use Rattle.spellings.specs.Remaining.{slots_left};
ghost use Rattle.spellings.specs.Cursors.{cursor_of, left_by, TakesSlot};

use crate::walk::slot_of_part;
use spelling_table::{
    ListSlots, Production, Slot, SlotIndex, first_slot, is_over, list_of, skips_gap, steady_slot,
};
use tree::{Node, NodeList};

/// What is left of the slots of a node's parts, in source order: from which of the first ones on, and how they go on behind those, from
/// which part on.
#[derive(Clone, Copy)]
pub struct SlotCursor {
    production: Production,
    ordinal: SlotIndex,
    tail: ListSlots,
    from: usize,
}

impl SlotCursor {
    /// All slots of a node with this production.
    #[inline(always)]
    pub fn new(production: Production) -> SlotCursor
        ensures { result ≡ cursor_of production }
    {
        let (tail, from) = list_of(production);
        SlotCursor {
            production,
            ordinal: SlotIndex::First,
            tail,
            from,
        }
    }

    /// Takes the slot of a node's next part, which stands at an index; none where no slot is left.
    #[inline(always)]
    pub fn take(&mut self, parts: NodeList, part: Node, index: usize) -> Option<Slot>
        requires { Some (node_tree part) ≡ part_at (list_parts parts) index }
        ensures { TakesSlot (left_by self.old (list_parts parts.entry)) result (left_by self.new (list_parts parts.entry)) }
    {
        if let Some(slot) = first_slot(&self.production, self.ordinal) {
            self.ordinal = self.ordinal.next();
            return Some(slot);
        }
        if self.from == index {
            return self.take_of_list(parts, part, index);
        }
        self.take_after(parts)
    }

    /// Takes the slot of the part that the list goes on with.
    #[inline(always)]
    fn take_of_list(&mut self, parts: NodeList, part: Node, index: usize) -> Option<Slot>
        requires here { Some (node_tree part) ≡ part_at (list_parts parts) index }
        requires next { slots_left self.old.tail (parts_after self.old.from (list_parts parts)) ≡ slots_left self.old.tail (parts_after index (list_parts parts)) }
        ensures taken { TakesSlot (slots_left self.old.tail (parts_after self.old.from (list_parts parts.entry))) result (slots_left self.new.tail (parts_after self.new.from (list_parts parts.entry))) }
        ensures production { self.new.production ≡ self.old.production }
        ensures ordinal { self.new.ordinal ≡ self.old.ordinal }
    {
        if is_over(self.tail) {
            return None;
        }
        let count = parts.len();
        if let Some(slot) = steady_slot(self.tail, part.kind()) {
            self.from = index + 1;
            return Some(slot);
        }
        let Some((slot, tail)) = slot_of_part(part, self.tail, count - index - 1) else {
            return None;
        };
        self.tail = tail;
        self.from = index + 1;
        Some(slot)
    }

    /// The next slot of a part that stands elsewhere.
    #[inline(never)]
    fn take_after(&mut self, parts: NodeList) -> Option<Slot>
        ensures taken { TakesSlot (slots_left self.old.tail (parts_after self.old.from (list_parts parts.entry))) result (slots_left self.new.tail (parts_after self.new.from (list_parts parts.entry))) }
        ensures production { self.new.production ≡ self.old.production }
        ensures ordinal { self.new.ordinal ≡ self.old.ordinal }
    {
        if is_over(self.tail) {
            return None;
        }
        for index in self.from..parts.len() {
            if let Some(part) = parts.get(index) {
                return self.take_of_list(parts, part, index);
            }
            if !skips_gap(self.tail) {
                return None;
            }
        }
        None
    }
}
