//! What a node costs, at each symbol, In and start that matters.

ghost use Rattle.std.specs.Prelude.{◌≡◌, true, Option, Some, None};
ghost use Rattle.cost_table.specs.Packed.{free_shape, shaped};
ghost use Rattle.cost_table.specs.Costs.{cost_at, started_at, each_start, sums, same_everywhere, capped_sum, eight, of_cells};

use crate::pair_count::{is_zero, sum};
use grammar::{accepts_rank, precedence_of};
use language::{Rank, Start};

/// The numbers at the three starts.
#[derive(Clone, Copy)]
pub struct StartCosts {
    pub any: Option<u32>,
    pub no_brace: Option<u32>,
    pub statement: Option<u32>,
}

impl StartCosts {
    /// One number at each start.
    pub(crate) fn same(number: Option<u32>) -> StartCosts
        ensures { result ≡ each_start (λ f. number) }
    {
        StartCosts {
            any: number,
            no_brace: number,
            statement: number,
        }
    }

    /// Whether each is 0.
    fn is_nothing(&self) -> bool
        ensures { result ≡ true → self.now ≡ each_start (λ f. Some 0) }
    {
        is_zero(self.any) && is_zero(self.no_brace) && is_zero(self.statement)
    }

    /// Whether there is none.
    fn is_none(&self) -> bool
        ensures { result ≡ true → self.now ≡ each_start (λ f. None) }
    {
        self.any.is_none() && self.no_brace.is_none() && self.statement.is_none()
    }

    /// The number at this start; none if the node can't begin there.
    fn at(&self, start: Start) -> Option<u32>
        ensures { result ≡ started_at self.now start }
    {
        match start {
            Start::Any => self.any,
            Start::NoBrace => self.no_brace,
            Start::Statement => self.statement,
        }
    }

    /// The sums of the numbers, start by start.
    fn plus(&self, other: &StartCosts) -> StartCosts
        ensures { result ≡ each_start (λ f. capped_sum (started_at self.now f) (started_at other.now f)) }
    {
        StartCosts {
            any: sum(self.any, other.any),
            no_brace: sum(self.no_brace, other.no_brace),
            statement: sum(self.statement, other.statement),
        }
    }
}

/// The pairs inside a node, spelled directly: with In, without In, and where only what is at Member may stand; none where it can't be.
#[derive(Clone, Copy)]
pub struct Costs {
    pub has_in: StartCosts,
    pub without_in: StartCosts,
    pub at_member: StartCosts,
}

impl Costs {
    /// One number everywhere.
    pub fn same(number: Option<u32>) -> Costs
        ensures { result ≡ same_everywhere number }
    {
        Costs {
            has_in: StartCosts::same(number),
            without_in: StartCosts::same(number),
            at_member: StartCosts::same(number),
        }
    }

    /// Those of a node at a symbol which costs nothing wherever it may stand.
    pub(crate) fn free(rank: Rank) -> Costs
        ensures { result ≡ shaped (free_shape rank) 0 }
    {
        let nothing = StartCosts::same(Some(0u32));
        let at_member = if accepts_rank(Rank::Member, rank) {
            nothing
        } else {
            StartCosts::same(None)
        };
        Costs {
            has_in: nothing,
            without_in: nothing,
            at_member,
        }
    }

    /// Whether each number is 0.
    pub fn is_nothing(&self) -> bool
        ensures { result ≡ true → self.now ≡ same_everywhere (Some 0) }
    {
        self.has_in.is_nothing() && self.without_in.is_nothing() && self.at_member.is_nothing()
    }

    /// Whether they are those of a node at a symbol which costs nothing wherever it may stand.
    pub(crate) fn is_free(&self, rank: Rank) -> bool
        ensures { result ≡ true → self.now ≡ shaped (free_shape rank) 0 }
    {
        if !self.has_in.is_nothing() || !self.without_in.is_nothing() {
            return false;
        }
        if accepts_rank(Rank::Member, rank) {
            return self.at_member.is_nothing();
        }
        self.at_member.is_none()
    }

    /// The number that counts at a symbol, In and start.
    pub fn at(self, rank: Rank, has_in: bool, start: Start) -> Option<u32>
        ensures { result ≡ cost_at self rank has_in start }
    {
        self.number(rank, has_in, start)
    }

    /// The number at this symbol, In and start; none if the node can't stand there without a pair around it.
    pub(crate) fn number(&self, rank: Rank, has_in: bool, start: Start) -> Option<u32>
        ensures { result ≡ cost_at self.now rank has_in start }
    {
        if precedence_of(rank) >= precedence_of(Rank::Member) {
            return self.at_member.at(start);
        }
        if has_in {
            return self.has_in.at(start);
        }
        self.without_in.at(start)
    }

    /// The sums, one by one.
    pub fn plus(&self, other: &Costs) -> Costs
        ensures { result ≡ sums self.now other.now }
    {
        Costs {
            has_in: self.has_in.plus(&other.has_in),
            without_in: self.without_in.plus(&other.without_in),
            at_member: self.at_member.plus(&other.at_member),
        }
    }

    /// The eight numbers of a row.
    pub(crate) fn cells(&self) -> [Option<u32>; 8]
        ensures { result ≡ eight self.now }
    {
        [
            self.has_in.any,
            self.has_in.no_brace,
            self.has_in.statement,
            self.without_in.any,
            self.without_in.no_brace,
            self.at_member.any,
            self.at_member.no_brace,
            self.at_member.statement,
        ]
    }

    /// The numbers of a row's eight cells; none for a statement without In, where no row has one.
    pub(crate) fn from_cells(cells: [Option<u32>; 8]) -> Costs
        ensures { result ≡ of_cells cells }
    {
        Costs {
            has_in: StartCosts {
                any: cells[0],
                no_brace: cells[1],
                statement: cells[2],
            },
            without_in: StartCosts {
                any: cells[3],
                no_brace: cells[4],
                statement: None,
            },
            at_member: StartCosts {
                any: cells[5],
                no_brace: cells[6],
                statement: cells[7],
            },
        }
    }
}
