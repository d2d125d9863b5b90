//! A node that is weighed: what it costs at any position.

ghost use Rattle.std.specs.Prelude.{◌≡◌, true, None, Some, cond};
ghost use Rattle.language.specs.Pieces.{Role};
ghost use Rattle.language.specs.RowPositions.{widest as widest_role};
ghost use Rattle.spelling_table.specs.Outlines.{role_of, slot_of};
ghost use Rattle.spelling_table.specs.Requirements.{fits_outline};
ghost use Rattle.spellings.specs.Wherever.{with_own as role_with_own};
ghost use Rattle.cost_table.specs.Costs.{each_start, started_at, same_everywhere, sums as sums_of};
ghost use Rattle.cost_table.specs.Packed.{free_node};
ghost use Rattle.cost_table.specs.Weighed.{cost_of, direct_cost, least_of, settled_at, uses as uses_of, fitting as fitting_costs, is_plain_outline, slot_free};

use crate::costs::{Costs, StartCosts};
use crate::pair_count::{is_zero, lesser, sum};
use grammar::accepts_rank;
use language::{Rank, Start};
use spelling_table::{FirstToken, Outline, Position, Slot, fits, resolve_slot};

/// A node's outline, none where it can't be spelled, and what it costs.
#[derive(Clone, Copy)]
pub struct NodeCosts {
    pub outline: Option<Outline>,
    pub costs: Costs,
}

impl NodeCosts {
    /// Those of a node at a symbol which costs nothing wherever it may stand.
    pub fn free(rank: Rank) -> NodeCosts
        ensures { result ≡ free_node rank }
    {
        NodeCosts {
            outline: Some(Outline::leaf(rank)),
            costs: Costs::free(rank),
        }
    }
}

/// The position with another symbol, In and start, where it has them.
pub(crate) fn with_own(position: Position, rank: Rank, has_in: bool, start: Start) -> Position
    ensures { role_of result ≡ role_with_own rank has_in start (role_of position) }
{
    match position {
        Position::Expression { .. } => Position::Expression {
            rank,
            has_in,
            start,
        },
        Position::ChainPart { .. } => Position::ChainPart { start },
        Position::Pattern { binds, .. } => Position::Pattern { binds, start },
        _ => position,
    }
}

/// The position with all that a spelling may depend on left open.
pub fn widest(position: Position) -> Position
    ensures { role_of result ≡ widest_role (role_of position) }
{
    with_own(position, Rank::Expression, true, Start::Any)
}

/// The number that counts for a node at a position.
pub(crate) fn cost_at(costs: &Costs, position: Position) -> Option<u32>
    ensures { result ≡ cost_of costs.now (role_of position) }
{
    match position {
        Position::Expression {
            rank,
            has_in,
            start,
        } => costs.number(rank, has_in, start),
        Position::ChainPart { start } | Position::Pattern { start, .. } => {
            costs.number(Rank::Expression, true, start)
        }
        _ => costs.has_in.any,
    }
}

/// The least number of pairs of a node at a position, with a pair round it or without.
pub fn least(part: NodeCosts, position: Position) -> Option<u32>
    ensures { result ≡ least_of part (role_of position) }
{
    least_at(&part, position)
}

/// The least number of pairs of a part at a position: a pair around it is allowed only where expressions stand.
fn least_at(part: &NodeCosts, position: Position) -> Option<u32>
    ensures { result ≡ least_of part.now (role_of position) }
{
    let direct = direct_cost(part, position);
    match position {
        Position::Expression { .. } => { lesser(direct, sum(Some(1u32), part.costs.has_in.any)) }
        _ => direct,
    }
}

/// The number of pairs of a node at a position without a pair round it.
fn direct_cost(part: &NodeCosts, position: Position) -> Option<u32>
    ensures { result ≡ direct_cost part.now (role_of position) }
{
    match part.outline {
        Some(outline) if fits(position, outline) => cost_at(&part.costs, position),
        _ => None,
    }
}

/// Whether what asks for no more than its symbol may stand at a slot, wherever the node above stands.
pub fn slot_takes(slot: Slot, rank: Rank) -> bool
    ensures { result ≡ slot_free (slot_of slot) rank }
{
    match slot {
        Slot::Fixed(Position::Expression { rank: own, .. }) => accepts_rank(own, rank),
        Slot::Left(own) | Slot::Lead(own) | Slot::Tail(own, _) => accepts_rank(own, rank),
        Slot::Callee => accepts_rank(Rank::Member, rank),
        _ => true,
    }
}

/// Whether a part is seen at once to cost nothing at a slot, wherever its node stands: at a fixed position by its number there,
/// elsewhere as its symbol may stand there, it asks for no more, and it has no pairs inside.
pub fn is_free(slot: Slot, part: &NodeCosts) -> bool
    ensures { result ≡ true → (a : Role) → uses_of a (slot_of slot) part.now ≡ same_everywhere (Some 0) }
{
    if is_plainly_free(slot, part) {
        return true;
    }
    match slot {
        Slot::Fixed(position) => is_zero(least_at(part, position)),
        _ => false,
    }
}

/// Whether a part at this slot is seen at once to cost nothing, wherever its node stands.
fn is_plainly_free(slot: Slot, part: &NodeCosts) -> bool
    ensures { result ≡ true → (a : Role) → uses_of a (slot_of slot) part.now ≡ same_everywhere (Some 0) }
{
    let Some(outline) = &part.outline else {
        return false;
    };
    if !asks_no_more(outline) || !slot_takes(slot, outline.rank) {
        return false;
    }
    part.costs.is_free(outline.rank)
}

/// The sums with what one more part costs in a node, wherever that stands.
pub fn added(sums: Costs, own: Position, slot: Slot, part: NodeCosts) -> Costs
    requires { sums_of sums (same_everywhere (Some 0)) ≡ sums }
    ensures { result ≡ sums_of sums (uses_of (role_of own) (slot_of slot) part) }
{
    if is_free(slot, &part) {
        return sums;
    }
    sums.plus(&uses(own, slot, &part))
}

/// What a part costs in a node, wherever that stands.
pub fn uses(own: Position, slot: Slot, part: &NodeCosts) -> Costs
    ensures { result ≡ uses_of (role_of own) (slot_of slot) part.now }
{
    if let Slot::Fixed(position) = slot {
        return Costs::same(least_at(part, position));
    }
    Costs {
        has_in: started_uses(own, Rank::Expression, true, slot, part),
        without_in: started_uses(own, Rank::Expression, false, slot, part),
        at_member: started_uses(own, Rank::Member, true, slot, part),
    }
}

/// What a part costs at this slot, for each start at which its node may stand with this symbol and In.
fn started_uses(own: Position, rank: Rank, has_in: bool, slot: Slot, part: &NodeCosts) -> StartCosts
    ensures { result ≡ each_start (λ f. least_of part.now (settled_at (role_with_own rank has_in f (role_of own)) (slot_of slot))) }
{
    StartCosts {
        any: use_at(with_own(own, rank, has_in, Start::Any), slot, part),
        no_brace: use_at(with_own(own, rank, has_in, Start::NoBrace), slot, part),
        statement: use_at(with_own(own, rank, has_in, Start::Statement), slot, part),
    }
}

/// What a part costs at this slot of a node at position `own`.
fn use_at(own: Position, slot: Slot, part: &NodeCosts) -> Option<u32>
    ensures { result ≡ least_of part.now (settled_at (role_of own) (slot_of slot)) }
{
    least_at(part, resolve_slot(own, slot))
}

/// What a node costs, of the sums over its parts: none where its spelling doesn't fit.
pub fn fitting(own: Position, outline: Outline, costs: Costs) -> Costs
    ensures { result ≡ fitting_costs (role_of own) outline costs }
{
    if is_plain_outline(outline) {
        return plainly_fitting(own, outline, costs);
    }
    Costs {
        has_in: started_fitting(own, Rank::Expression, true, outline, costs.has_in),
        without_in: started_fitting(own, Rank::Expression, false, outline, costs.without_in),
        at_member: started_fitting(own, Rank::Member, true, outline, costs.at_member),
    }
}

/// Whether a spelling asks for no In, and opens with no brace and no word: it may stand wherever its symbol may.
pub fn is_plain_outline(outline: Outline) -> bool
    ensures { result ≡ is_plain_outline outline }
{
    asks_no_more(&outline)
}

/// Whether a node with this outline requires no more of its position than the symbol: no In, no start.
fn asks_no_more(outline: &Outline) -> bool
    ensures { result ≡ is_plain_outline outline.now }
{
    !outline.needs_in && matches!(outline.opens, FirstToken::Other)
}

/// The costs of a plain spelling where they fit: it fits at each start, or at none.
fn plainly_fitting(own: Position, outline: Outline, costs: Costs) -> Costs
    requires { is_plain_outline outline ≡ true }
    ensures { result ≡ fitting_costs (role_of own) outline costs }
{
    if fits(with_own(own, Rank::Member, true, Start::Any), outline) {
        return costs;
    }
    Costs {
        at_member: StartCosts::same(None),
        ..costs
    }
}

/// The costs at the starts where a node with this outline may stand, with this symbol and In; none at the others.
fn started_fitting(
    own: Position,
    rank: Rank,
    has_in: bool,
    outline: Outline,
    costs: StartCosts,
) -> StartCosts
    ensures { result ≡ each_start (λ f. cond (fits_outline (role_with_own rank has_in f (role_of own)) outline) (started_at costs f) None) }
{
    StartCosts {
        any: fitted(with_own(own, rank, has_in, Start::Any), outline, costs.any),
        no_brace: fitted(
            with_own(own, rank, has_in, Start::NoBrace),
            outline,
            costs.no_brace,
        ),
        statement: fitted(
            with_own(own, rank, has_in, Start::Statement),
            outline,
            costs.statement,
        ),
    }
}

/// This cost if a node with this outline may stand at the position, else none.
fn fitted(position: Position, outline: Outline, cost: Option<u32>) -> Option<u32>
    ensures { result ≡ cond (fits_outline (role_of position) outline) cost None }
{
    if fits(position, outline) {
        return cost;
    }
    None
}
