//! A row in few bytes: one number for all cells that have any, and which of them have it.

ghost use Rattle.std.specs.Prelude.{◌≡◌, true, cond, Some, IfSome};
ghost use Rattle.cost_table.specs.declared.packed_row.FilledStarts.TheVariants.{Each, Nowhere};
ghost use Rattle.spelling_table.specs.Outlines.{role_of};
ghost use Rattle.cost_table.specs.Costs.{started_at, eight, cost_at as cost_of_costs};
ghost use Rattle.cost_table.specs.Packed.{filled, free_shape, shaped, index_of};
ghost use Rattle.cost_table.specs.Weighed.{cost_of};

use crate::costs::{Costs, StartCosts};
use grammar::{accepts_rank, precedence_of};
use language::{Rank, Start};
use spelling_table::Position;
use tree::Kind;

/// The starts at which a number stands; at the others there is none.
#[derive(Clone, Copy)]
pub(crate) enum FilledStarts {
    Each,
    NotStatement,
    OnlyAny,
    Nowhere,
}

impl FilledStarts {
    /// What stands at a start.
    pub(crate) fn at(self, number: u32, start: Start) -> Option<u32>
        ensures { result ≡ started_at (filled self number) start }
    {
        match (self, start) {
            (FilledStarts::Each, _) => Some(number),
            (FilledStarts::NotStatement, Start::Any) => Some(number),
            (FilledStarts::NotStatement, Start::NoBrace) => Some(number),
            (FilledStarts::OnlyAny, Start::Any) => Some(number),
            _ => None,
        }
    }

    /// All starts if `stands`, else no start.
    fn each_if(stands: bool) -> FilledStarts
        ensures { result ≡ cond stands Each Nowhere }
    {
        if stands {
            return FilledStarts::Each;
        }
        FilledStarts::Nowhere
    }

    /// The starts at which this number stands, where nothing else does.
    fn of(starts: &StartCosts, number: u32) -> Option<FilledStarts>
        ensures { IfSome result (λ f. starts.now ≡ filled f number) }
    {
        if !is_number(starts.any, number) {
            return if_nowhere(starts);
        }
        if !is_number(starts.no_brace, number) {
            return if_only_any(starts);
        }
        if is_number(starts.statement, number) {
            return Some(FilledStarts::Each);
        }
        if starts.statement.is_none() {
            return Some(FilledStarts::NotStatement);
        }
        None
    }
}

/// The form of starts that all have no number; none for others.
fn if_nowhere(starts: &StartCosts) -> Option<FilledStarts>
    ensures { (m : _) → IfSome result (λ f. starts.now ≡ filled f m) }
{
    if starts.any.is_none() && starts.no_brace.is_none() && starts.statement.is_none() {
        return Some(FilledStarts::Nowhere);
    }
    None
}

/// The form of starts of which only the unrestricted one may have a number; none for others.
fn if_only_any(starts: &StartCosts) -> Option<FilledStarts>
    ensures { (m : _) → starts.now.any ≡ Some m → IfSome result (λ f. starts.now ≡ filled f m) }
{
    if starts.no_brace.is_none() && starts.statement.is_none() {
        return Some(FilledStarts::OnlyAny);
    }
    None
}

/// Whether it is this number.
fn is_number(cell: Option<u32>, number: u32) -> bool
    ensures { result ≡ true → cell ≡ Some number }
{
    match cell {
        Some(given) => given == number,
        None => false,
    }
}

/// The cells of a row that have its number: with In, without In, and where only what is at Member may stand.
#[derive(Clone, Copy)]
pub(crate) struct CellShape {
    pub has_in: FilledStarts,
    pub without_in: FilledStarts,
    pub at_member: FilledStarts,
}

impl CellShape {
    /// That of a node at a symbol which costs nothing wherever it may stand.
    pub(crate) fn free(rank: Rank) -> CellShape
        ensures { result ≡ free_shape rank }
    {
        CellShape {
            has_in: FilledStarts::Each,
            without_in: FilledStarts::Each,
            at_member: FilledStarts::each_if(accepts_rank(Rank::Member, rank)),
        }
    }

    /// The shape of numbers, where this one is the only one.
    pub(crate) fn of(costs: &Costs, number: u32) -> Option<CellShape>
        ensures { IfSome result (λ s. costs.now ≡ shaped s number) }
    {
        let Some(has_in) = FilledStarts::of(&costs.has_in, number) else {
            return None;
        };
        let Some(without_in) = FilledStarts::of(&costs.without_in, number) else {
            return None;
        };
        let Some(at_member) = FilledStarts::of(&costs.at_member, number) else {
            return None;
        };
        Some(CellShape {
            has_in,
            without_in,
            at_member,
        })
    }

    /// Where the number stands at a symbol and In.
    fn at(self, rank: Rank, has_in: bool) -> FilledStarts
        ensures { (m f : _) → started_at (filled result m) f ≡ cost_of_costs (shaped self m) rank has_in f }
    {
        if precedence_of(rank) >= precedence_of(Rank::Member) {
            return self.at_member;
        }
        if has_in {
            return self.has_in;
        }
        self.without_in
    }

    /// Whether the cells of a row are those of a node at a symbol which costs the same wherever it may stand.
    pub(crate) fn fills_row(self, rank: Rank) -> bool
        ensures { result ≡ true → (m : _) → eight (shaped self m) ≡ eight (shaped (free_shape rank) m) }
    {
        if !matches!(self.has_in, FilledStarts::Each) {
            return false;
        }
        if !matches!(
            self.without_in,
            FilledStarts::Each | FilledStarts::NotStatement
        ) {
            return false;
        }
        if accepts_rank(Rank::Member, rank) {
            return matches!(self.at_member, FilledStarts::Each);
        }
        matches!(self.at_member, FilledStarts::Nowhere)
    }

    /// The eight cells of a row.
    pub(crate) fn cells(self, number: u32) -> [Option<u32>; 8]
        ensures { result ≡ eight (shaped self number) }
    {
        [
            self.has_in.at(number, Start::Any),
            self.has_in.at(number, Start::NoBrace),
            self.has_in.at(number, Start::Statement),
            self.without_in.at(number, Start::Any),
            self.without_in.at(number, Start::NoBrace),
            self.at_member.at(number, Start::Any),
            self.at_member.at(number, Start::NoBrace),
            self.at_member.at(number, Start::Statement),
        ]
    }

    /// The number that counts at a position.
    pub(crate) fn cost_at(self, number: u32, position: Position) -> Option<u32>
        ensures { result ≡ cost_of (shaped self number) (role_of position) }
    {
        match position {
            Position::Expression {
                rank,
                has_in,
                start,
            } => self.at(rank, has_in).at(number, start),
            Position::ChainPart { start } | Position::Pattern { start, .. } => {
                self.has_in.at(number, start)
            }
            _ => self.has_in.at(number, Start::Any),
        }
    }
}

/// A place in a list, in two halves: a row with one takes twelve bytes, where a `usize` would make it sixteen.
#[derive(Clone, Copy)]
pub(crate) struct Place {
    high: u32,
    low: u32,
}

impl Place {
    /// The place with this index, counted from 0.
    pub(crate) fn of(index: usize) -> Place
        ensures { index_of result ≡ index }
    {
        Place {
            high: (index / HALF) as u32,
            low: (index % HALF) as u32,
        }
    }

    /// The index, counted from 0.
    pub(crate) fn index(self) -> usize
        ensures { result ≡ index_of self }
    {
        self.high as usize * HALF + self.low as usize
    }
}

/// How many places have the same upper half.
const HALF: usize = 4_294_967_296;

/// A row, packed: the node's kind, and what it costs.
#[derive(Clone, Copy)]
pub(crate) enum PackedRow {
    /// One number, in a shape.
    Same(Kind, CellShape, u32),
    /// The place of its numbers among those that stand apart.
    Apart(Kind, Place),
}
