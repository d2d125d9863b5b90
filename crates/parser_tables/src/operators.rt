//! What a token makes of the expression before it, and whether it goes on with it (ECMA-262 12.3 to 12.16).
#![tactic(auto, using(crate::proofs::Refusals::refusals))]

ghost use Rattle.std.specs.Prelude.{◌≡◌, ◌≢◌, ◌&&◌, ◌||◌, not, codes, IfSome};
ghost use Rattle.tokens.specs.Scanned.{token_of};
ghost use Rattle.language.specs.Token.{as_read, is_token};
ghost use Rattle.language.specs.Vocabulary.{takes};
ghost use Rattle.language.specs.Continuations.{operation, holds};
ghost use Rattle.grammar.specs.Infix.{coded_operator};

use crate::expression_context::ExpressionContext;
use crate::token_tests::is_template_head;
use grammar::{InfixOperator, accepts_rank, infix_of_punctuator, infix_of_word, precedence_of};
use language::{Edge, Rank};
use token_cursor::is_name_token;
use tokens::{Token, TokenClass};

/// The operator that a token is behind an expression.
pub fn infix_operator_of(token: &Token<'_>) -> Option<InfixOperator>
    ensures real { IfSome result (λ _. token.now.class ≢ TokenClass.End) }
    ensures coded { result ≡ coded_operator (operation (as_read (token_of token.now))) token.now.text.now }
{
    match token.class {
        TokenClass::Punctuator => infix_of_punctuator(token.text),
        TokenClass::IdentifierName => infix_of_word(token.text),
        TokenClass::Template => match is_template_head(token) {
            true => Some(InfixOperator::TemplateHead),
            false => None,
        },
        _ => None,
    }
}

/// Whether what ends with this right edge can be the left part of a node at the symbol.
pub(crate) fn edge_allows(edge: Edge, symbol: Rank) -> bool
    ensures { result ≡ holds edge symbol }
{
    match edge {
        Edge::Arrow => matches!(symbol, Rank::Expression),
        Edge::Postfix => match symbol {
            Rank::Assignment => false,
            _ => precedence_of(symbol) <= precedence_of(Rank::Exponentiation),
        },
        Edge::Other => true,
        Edge::Closed => false,
    }
}

/// Whether the token can't go on with what stands at the position with this right edge, where it would make a node at the symbol.
pub fn cannot_continue(
    position: ExpressionContext,
    edge: Edge,
    token: &Token<'_>,
    symbol: Rank,
) -> bool
    ensures { result ≡ ((is_token TokenClass.IdentifierName (codes "in") (as_read (token_of token.now)) && not position.has_in) || (not (takes position.rank symbol) || not (holds edge symbol))) }
{
    let is_shut = is_name_token(token, "in") && !position.has_in;
    is_shut || !accepts_rank(position.rank, symbol) || !edge_allows(edge, symbol)
}
