//! Positions in an expression, and the parser itself.

ghost use Rattle.std.specs.Prelude.{◌≡◌};

use language::{Rank, Start};

/// Where an expression stands: its symbol, whether `in` may be an operator in it, and what it may begin with.
#[derive(Clone, Copy)]
pub struct ExpressionContext {
    pub rank: Rank,
    pub has_in: bool,
    pub start: Start,
}

impl ExpressionContext {
    /// Expression, with In.
    pub const EXPRESSION: ExpressionContext = ExpressionContext {
        rank: Rank::Expression,
        has_in: true,
        start: Start::Any,
    };

    /// AssignmentExpression, with In.
    pub const ASSIGNMENT: ExpressionContext = ExpressionContext {
        rank: Rank::Assignment,
        has_in: true,
        start: Start::Any,
    };

    /// Expression, as a statement.
    pub const STATEMENT: ExpressionContext = ExpressionContext {
        rank: Rank::Expression,
        has_in: true,
        start: Start::Statement,
    };

    /// A symbol, with this In.
    pub fn at(rank: Rank, has_in: bool) -> ExpressionContext
        ensures { result ≡ record { rank = rank; has_in = has_in; start = Start.Any } }
    {
        let start = Start::Any;
        ExpressionContext {
            rank,
            has_in,
            start,
        }
    }

    /// AssignmentExpression as the body of an arrow, with this In.
    pub fn concise_body(has_in: bool) -> ExpressionContext
        ensures { result ≡ record { rank = Rank.Assignment; has_in = has_in; start = Start.NoBrace } }
    {
        ExpressionContext {
            rank: Rank::Assignment,
            has_in,
            start: Start::NoBrace,
        }
    }
}
