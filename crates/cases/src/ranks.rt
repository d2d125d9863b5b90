//! Symbols of the expression grammar by their words.

use language::Rank;

/// Symbols by their names, those that rows name.
static RANKS: [(&str, Rank); 13] = [
    ("Expression", Rank::Expression),
    ("Assignment", Rank::Assignment),
    ("Coalesce", Rank::Coalesce),
    ("LogicalOr", Rank::LogicalOr),
    ("LogicalAnd", Rank::LogicalAnd),
    ("BitwiseOr", Rank::BitwiseOr),
    ("Multiplicative", Rank::Multiplicative),
    ("Exponentiation", Rank::Exponentiation),
    ("Unary", Rank::Unary),
    ("New", Rank::New),
    ("Call", Rank::Call),
    ("Member", Rank::Member),
    ("Grouped", Rank::Grouped),
];

/// The symbol of this name; Primary for all others.
pub(crate) fn rank(name: &str) -> Rank {
    for (each, rank) in &RANKS {
        if *each == name {
            return *rank;
        }
    }
    Rank::Primary
}
