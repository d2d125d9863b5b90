//! What a node costs by a table: in few bytes where it costs nothing.

ghost use Rattle.std.specs.Prelude.{◌≡◌, ◌&&◌, not, Some};
ghost use Rattle.spelling_table.specs.Outlines.{role_of, slot_of};
ghost use Rattle.spelling_table.specs.Productions.{outline_of};
ghost use Rattle.cost_table.specs.Costs.{same_everywhere, sums as sums_of};
ghost use Rattle.cost_table.specs.Weighed.{fitting as fitting_costs, is_otherwise, uses as uses_of};
ghost use Rattle.cost_certificate.specs.declared.weighed.Weighed.TheVariants as known;
ghost use Rattle.cost_certificate.specs.Walked.{inside_of, weight_of, IsFitted};

use cost_table::{Costs, NodeCosts, added, fitting, slot_takes};
use language::Rank;
use spelling_table::{FirstToken, Position, Production, Requirements, Slot};

/// What a node costs, wherever it stands.
#[derive(Clone, Copy)]
pub(crate) enum Weighed {
    /// Nothing, wherever its symbol may stand.
    Free(Rank),
    /// These numbers.
    Any(NodeCosts),
}

impl Weighed {
    /// What it costs, in numbers.
    pub(crate) fn costs(&self) -> NodeCosts
        ensures { result ≡ weight_of self.now }
    {
        match self {
            Weighed::Free(rank) => NodeCosts::free(*rank),
            Weighed::Any(costs) => *costs,
        }
    }
}

/// What a node costs without its own row, at its widest position, by its production and the sums over its parts.
pub(crate) fn weigh_inside(own: Position, production: Production, sums: Costs) -> Weighed
    ensures { IsFitted (role_of own) (outline_of production) sums (inside_of (role_of own) result) }
{
    let requirements = production.requirements();
    if asks_no_more(requirements) {
        if sums.is_nothing() {
            return Weighed::Free(requirements.rank);
        }
    }
    in_numbers(own, production, sums)
}

/// Whether what a node requires of its position is no more than the symbol.
fn asks_no_more(requirements: Requirements) -> bool
    ensures { result ≡ (not requirements.needs_in && is_otherwise requirements.opens) }
{
    !requirements.needs_in && matches!(requirements.opens, FirstToken::Other)
}

/// What a node costs in numbers, whatever it requires of its position.
#[inline(never)]
fn in_numbers(own: Position, production: Production, sums: Costs) -> Weighed
    ensures { result ≡ known.Any (record { outline = Some (outline_of production); costs = fitting_costs (role_of own) (outline_of production) sums }) }
{
    let outline = production.outline();
    Weighed::Any(NodeCosts {
        outline: Some(outline),
        costs: fitting(own, outline, sums),
    })
}

/// The sums with what one more part costs in a node, wherever that stands.
#[inline(always)]
pub(crate) fn with_part(sums: Costs, own: Position, slot: Slot, part: &Weighed) -> Costs
    requires { sums_of sums (same_everywhere (Some 0)) ≡ sums }
    ensures { result ≡ sums_of sums (uses_of (role_of own) (slot_of slot) (weight_of part.now)) }
{
    if let Weighed::Free(rank) = part {
        if slot_takes(slot, *rank) {
            return sums;
        }
    }
    added(sums, own, slot, part.costs())
}
