//! The steps of a walk over a script: its nodes in source order, a node before its parts, and what the planner has to know of each.

ghost use Rattle.std.specs.Prelude.{◌≡◌, true};
ghost use Rattle.spelling_table.specs.Outlines.{role_of, slot_of};
ghost use Rattle.paren_planner.specs.Steps.{outline_of, place_of, has_row_at};
ghost use Rattle.cost_table.specs.Weighed.{is_plain_outline, role_free, slot_free};

use cost_table::{is_plain_outline, widest};
use grammar::accepts_rank;
use language::Rank;
use segmented_vec::SegmentedVec;
use spelling_table::{Outline, Position, Requirements, Slot, resolve_slot};
use tree::Kind;

/// An outline that requires the same, of no parts.
pub(crate) fn bare_outline(requirements: Requirements) -> Outline
    ensures { result ≡ outline_of requirements }
{
    Outline {
        needs_in: requirements.needs_in,
        opens: requirements.opens,
        ..Outline::leaf(requirements.rank)
    }
}

/// Whether no In is required, and no brace and no word opens the spelling.
pub(crate) fn asks_no_more(requirements: Requirements) -> bool
    ensures { result ≡ is_plain_outline (outline_of requirements) }
{
    is_plain_outline(bare_outline(requirements))
}

/// Whether what asks for no more than its symbol may stand at a slot, wherever the node above stands.
pub(crate) fn stands_freely(requirements: Requirements, slot: Slot) -> bool
    ensures { result ≡ slot_free (slot_of slot) requirements.rank }
{
    match slot {
        Slot::Fixed(position) => stands_freely_at(requirements, position),
        Slot::Left(rank) | Slot::Lead(rank) | Slot::Tail(rank, _) => {
            accepts_rank(rank, requirements.rank)
        }
        Slot::Callee => accepts_rank(Rank::Member, requirements.rank),
        _ => true,
    }
}

/// Whether a node's symbol may stand at the position, all else aside.
fn stands_freely_at(requirements: Requirements, position: Position) -> bool
    ensures { result ≡ role_free (role_of position) requirements.rank }
{
    match position {
        Position::Expression { rank, .. } => accepts_rank(rank, requirements.rank),
        _ => true,
    }
}

/// A node, and where it stands.
#[derive(Clone, Copy)]
pub(crate) struct NodeStep {
    pub kind: Kind,
    /// The widest position of the node that it is a part of.
    pub above: Position,
    /// Where it stands in the spelling of that node.
    pub slot: Slot,
    /// What its spelling requires of its position; none where it can't be spelled there.
    pub requirements: Option<Requirements>,
}

impl NodeStep {
    /// Where the node stands, with all that its spelling may depend on left open.
    pub(crate) fn position(self) -> Position
        ensures { role_of result ≡ place_of self }
    {
        widest(resolve_slot(self.above, self.slot))
    }

    /// Whether the node has a row, and is seen at once to cost nothing in the node above where its parts cost nothing, wherever that stands.
    pub(crate) fn is_free(self, requirements: Requirements) -> bool
        ensures row { result ≡ true → has_row_at (slot_of self.slot) ≡ true }
        ensures plain { result ≡ true → is_plain_outline (outline_of requirements) ≡ true }
        ensures slot { result ≡ true → slot_free (slot_of self.slot) requirements.rank ≡ true }
    {
        self.has_row() && asks_no_more(requirements) && stands_freely(requirements, self.slot)
    }

    /// Whether the node has a row: it stands at an expression's position.
    pub(crate) fn has_row(self) -> bool
        ensures { result ≡ has_row_at (slot_of self.slot) }
    {
        has_row(&self.slot)
    }
}

/// Whether a node at a slot has a row.
pub(crate) fn has_row(slot: &Slot) -> bool
    ensures { result ≡ has_row_at (slot_of slot.now) }
{
    match slot {
        Slot::Fixed(position) => matches!(position, Position::Expression { .. }),
        Slot::LeadSpine | Slot::LeadPattern => false,
        _ => true,
    }
}

/// A step: a node without parts at positions, a node before its parts, or back to the node above.
#[derive(Clone, Copy)]
pub(crate) enum Step {
    /// A node at this symbol with a row, which costs nothing wherever it may stand. The steps of its parts, where it has any, are such too,
    /// and none goes back to it.
    Free(Kind, Rank),
    /// A node that the walk passes, and how many rows there are in it: it costs nothing, and no node in it is wrapped.
    Passed(u32),
    Leaf(NodeStep),
    Enter(NodeStep),
    Leave,
}

/// All steps of a walk in their order, in segments of 1,024.
pub(crate) type Steps = SegmentedVec<Step, 1024>;
