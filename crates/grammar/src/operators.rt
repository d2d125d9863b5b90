//! Operators, by their text.

ghost use Rattle.std.specs.Prelude.{◌≡◌};
ghost use Rattle.language.specs.Vocabulary.{is_prefix, is_update_operator as is_step_text, is_assignment as is_assignment_text, operator_of};
ghost use Rattle.language.specs.Grammar.{production_rank};
ghost use Rattle.grammar.specs.Ranks.{binary_symbol, logical_symbol};
ghost use Rattle.grammar.specs.Operations.{operation_at, operation_by, operation_by_sign, rank_of_binary, rank_of_logical};

use crate::infix::{BinaryOperator, InfixOperator, infix_of};
use language::Rank;
use tree::Kind;

/// Whether the text is `++` or `--`.
pub fn is_update_operator(operator: &str) -> bool
    ensures { result ≡ is_step_text operator.now }
{
    matches!(operator, "++" | "--")
}

/// Whether the text is an assignment operator.
pub fn is_assignment(operator: &str) -> bool
    ensures { result ≡ is_assignment_text operator.now }
{
    match infix_of(operator) {
        Some(found) => found.is_assignment(),
        None => false,
    }
}

/// Whether the text is that of an operator before its operand.
pub fn is_prefix_operator(operator: &str) -> bool
    ensures { result ≡ is_prefix operator.now }
{
    matches!(
        operator,
        "delete" | "void" | "typeof" | "+" | "-" | "~" | "!"
    )
}

/// What an operator between two operands makes.
#[derive(Clone, Copy)]
pub enum Operation {
    /// A node of this symbol, which is that of its left side.
    Binds {
        is_logical: bool,
        own: Rank,
        right: Rank,
    },
    Powers,
    Other,
}

/// What an operator between two operands makes.
pub fn operation_of(operator: &str) -> Operation
    ensures { result ≡ operation_at operator.now }
{
    match infix_of(operator) {
        Some(found) => operation_by(found),
        None => Operation::Other,
    }
}

/// What an infix operator does, as far as its node's spelling depends on it.
fn operation_by(operator: InfixOperator) -> Operation
    ensures { result ≡ operation_by operator }
{
    match operator {
        InfixOperator::Binary(sign) => operation_by_sign(sign),
        _ => Operation::Other,
    }
}

/// What a binary or logical operator does; only `**` has a left side at the symbol of UpdateExpression.
fn operation_by_sign(sign: BinaryOperator) -> Operation
    ensures { result ≡ operation_by_sign sign }
{
    let BinaryOperator {
        kind,
        own,
        left,
        right,
    } = sign;
    match left {
        Rank::Update => Operation::Powers,
        _ => Operation::Binds {
            is_logical: matches!(kind, Kind::LogicalExpression),
            own,
            right,
        },
    }
}

/// The symbol of the node that a binary operator makes (12.6 to 12.12).
pub(crate) fn binary_rank(operator: &str) -> Option<Rank>
    ensures { result ≡ binary_symbol (operator_of operator.now) }
{
    rank_of_binary(operation_of(operator))
}

/// The symbol of a binary expression with this operation; none if it isn't a binary one.
fn rank_of_binary(operation: Operation) -> Option<Rank>
    ensures { result ≡ rank_of_binary operation }
{
    match operation {
        Operation::Binds {
            is_logical: true,
            ..
        } => None,
        Operation::Binds { own, .. } => Some(production_rank(own)),
        Operation::Powers => Some(Rank::Exponentiation),
        Operation::Other => None,
    }
}

/// The symbol of the node that a logical operator makes (12.13).
pub(crate) fn logical_rank(operator: &str) -> Option<Rank>
    ensures { result ≡ logical_symbol (operator_of operator.now) }
{
    rank_of_logical(operation_of(operator))
}

/// The symbol of a logical expression with this operation; none if it isn't a logical one.
fn rank_of_logical(operation: Operation) -> Option<Rank>
    ensures { result ≡ rank_of_logical operation }
{
    match operation {
        Operation::Binds {
            is_logical: true,
            own,
            ..
        } => Some(production_rank(own)),
        _ => None,
    }
}

/// The symbol at which the left side of `??` stands by itself is that of its node.
fn production_rank(symbol: Rank) -> Rank
    ensures { result ≡ production_rank symbol }
{
    match symbol {
        Rank::Coalesce => Rank::ShortCircuit,
        other => other,
    }
}
