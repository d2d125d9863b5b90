//! The order of the symbols, and which of them a position takes.

ghost use Rattle.std.specs.Prelude.{◌≡◌};
ghost use Rattle.language.specs.Vocabulary.{precedence, takes};

use language::Rank;

/// The symbol's place in the order, the loosest first.
pub fn precedence_of(rank: Rank) -> u8
    ensures { result ≡ precedence rank }
{
    match rank {
        Rank::Expression => 0,
        Rank::Assignment => 1,
        Rank::Conditional => 2,
        Rank::ShortCircuit => 3,
        Rank::Coalesce => 4,
        Rank::LogicalOr => 5,
        Rank::LogicalAnd => 6,
        Rank::BitwiseOr => 7,
        Rank::BitwiseXor => 8,
        Rank::BitwiseAnd => 9,
        Rank::Equality => 10,
        Rank::Relational => 11,
        Rank::Shift => 12,
        Rank::Additive => 13,
        Rank::Multiplicative => 14,
        Rank::Exponentiation => 15,
        Rank::Unary => 16,
        Rank::Update => 17,
        Rank::LeftHandSide => 18,
        Rank::New => 19,
        Rank::Call => 20,
        Rank::Member => 21,
        Rank::Primary => 22,
        Rank::Grouped => 23,
    }
}

/// Whether a position takes what stands at a symbol.
pub fn accepts_rank(position: Rank, symbol: Rank) -> bool
    ensures { result ≡ takes position symbol }
{
    match (position, symbol) {
        (Rank::Coalesce, Rank::LogicalOr | Rank::LogicalAnd) => false,
        (Rank::New, Rank::Call) => false,
        _ => precedence_of(position) <= precedence_of(symbol),
    }
}
