//! The sums over the parts of open nodes. Most are nothing, and those take no room.

ghost use Rattle.std.specs.Prelude.{◌≡◌, [], ◌∷◌, true, reverse, OnOk};
ghost use Rattle.spelling_table.specs.Outlines.{role_of, slot_of};
ghost use Rattle.cost_table.specs.Costs.{sums as sums_of, no_pairs, IsHeld};
ghost use Rattle.paren_planner.specs.Pending.{here_of, outer_of};
ghost use Rattle.paren_planner.specs.Steps.{innermost, others};
ghost use Rattle.cost_table.specs.Weighed.{uses as uses_of};

use cost_table::{Costs, NodeCosts, is_free, uses};
use spelling_table::{Position, Slot};
use std::alloc::{AllocError, Global};

/// The sums over the parts of the innermost open node that were seen, and of those round it.
#[derive(Drop)]
pub(crate) struct OpenSums {
    /// Of the innermost, where they count; else they are nothing.
    here: Costs,
    counts: bool,
    /// Whether those of each node round it count, the innermost last.
    outer_counts: Vec<bool>,
    /// Those that do.
    outer: Vec<Costs>,
}

impl OpenSums {
    /// Of one open node, none of whose parts was seen.
    pub(crate) fn new(alloc: Global) -> OpenSums
        ensures here { here_of result ≡ no_pairs }
        ensures outer { outer_of result ≡ [] }
    {
        OpenSums {
            here: Costs::same(Some(0u32)),
            counts: false,
            outer_counts: Vec::new(alloc),
            outer: Vec::new(alloc),
        }
    }

    /// The sums of the innermost node.
    pub(crate) fn sums(&self) -> Costs
        ensures { result ≡ here_of self.now }
    {
        if self.counts {
            return self.here;
        }
        Costs::same(Some(0u32))
    }

    /// Whether they are seen at once to be nothing.
    pub(crate) fn is_nothing(&self) -> bool
        ensures { result ≡ true → here_of self.now ≡ no_pairs }
    {
        !self.counts
    }

    /// One more open node, inside.
    pub(crate) fn enter(&mut self) -> Result<(), AllocError>
        ensures here { OnOk result (here_of self.new ≡ no_pairs) }
        ensures outer { OnOk result (outer_of self.new ≡ here_of self.old ∷ outer_of self.old) }
    {
        if self.counts {
            return self.keep();
        }
        self.outer_counts.push(false)?;
        Ok(())
    }

    /// One more open node, inside, where the sums of the innermost count.
    fn keep(&mut self) -> Result<(), AllocError>
        ensures here { OnOk result (here_of self.new ≡ no_pairs) }
        ensures outer { OnOk result (outer_of self.new ≡ self.old.here ∷ outer_of self.old) }
    {
        self.outer.push(self.here)?;
        self.outer_counts.push(true)?;
        self.counts = false;
        Ok(())
    }

    /// Back to the node round the innermost, whose sums are let go.
    pub(crate) fn leave(&mut self)
        ensures here { here_of self.new ≡ innermost (outer_of self.old) }
        ensures outer { outer_of self.new ≡ others (outer_of self.old) }
    {
        match self.outer_counts.pop() {
            Some(true) => self.take_back(),
            Some(false) => self.counts = false,
            None => self.counts = false,
        }
    }

    /// Takes the sums of the innermost node from those that are kept.
    fn take_back(&mut self)
        ensures here { here_of self.new ≡ innermost (reverse self.old.outer.items) }
        ensures outer { reverse self.new.outer.items ≡ others (reverse self.old.outer.items) }
        ensures marks { self.new.outer_counts.items ≡ self.old.outer_counts.items }
    {
        match self.outer.pop() {
            Some(sums) => {
                self.here = sums;
                self.counts = true;
            }
            None => self.counts = false,
        }
    }

    /// Adds what one more part costs in the innermost node, by that node's widest position and the part's slot.
    pub(crate) fn add(&mut self, own: Position, slot: Slot, part: &NodeCosts)
        requires { IsHeld (here_of self.old) }
        ensures here { here_of self.new ≡ sums_of (here_of self.old) (uses_of (role_of own) (slot_of slot) part.now) }
        ensures outer { outer_of self.new ≡ outer_of self.old }
    {
        if is_free(slot, part) {
            return;
        }
        let more = uses(own, slot, part);
        if more.is_nothing() {
            return;
        }
        self.here = self.sums().plus(&more);
        self.counts = true;
    }
}
