//! What a token makes of the expression before it, and whether it goes on with it (ECMA-262 12.3 to 12.16).
#![tactic(auto, using(parser_tables::proofs::Refusals::refusals, crate::proofs::reading::AdvancedTokens::moves))]

ghost use Rattle.std.specs.Prelude.{◌≡◌, ◌≢◌, false, IfSome, IfNone};
ghost use Rattle.token_cursor.specs.CursorState.{IsAhead};
ghost use Rattle.tokens.specs.Scanned.{token_of};
ghost use Rattle.language.specs.Token.{as_read};
ghost use Rattle.language.specs.Continuations.{operation};
ghost use Rattle.grammar.specs.Infix.{coded_operator};
ghost use Rattle.parser_tables.specs.Operators.{stops_by, StopsHere};

use crate::parser::Parser;
use grammar::InfixOperator;
use language::Edge;
use parser_tables::{ExpressionContext, cannot_continue, infix_operator_of};
use tokens::{Goal, Token, TokenClass};

/// An operator that stands ahead.
#[derive(Clone, Copy)]
pub(crate) struct NextOperator<'s> {
    pub(crate) token: Token<'s>,
    pub(crate) operator: InfixOperator,
}

impl<'t, 's> Parser<'t, 's> {
    /// The token that goes on with what stands at the position, with its right edge, and what it makes.
    pub(crate) fn peek_infix(
        &self,
        position: ExpressionContext,
        edge: Edge,
    ) -> Option<NextOperator<'s>>
        ensures ahead { IfSome result (λ next. IsAhead Goal.Div self.now.cursor.text self.now.cursor.last.stop (token_of next.token)) }
        ensures real { IfSome result (λ next. next.token.class ≢ TokenClass.End) }
        ensures coded { IfSome result (λ next. coded_operator (operation (as_read (token_of next.token))) next.token.text.now ≡ Some next.operator) }
        ensures goes { IfSome result (λ next. stops_by position edge (as_read (token_of next.token)) ≡ false) }
        ensures none { IfNone result (StopsHere self.now.cursor.text position edge self.now.cursor.last) }
    {
        let Some(token) = self.cursor.peek(Goal::Div) else {
            return None;
        };
        let Some(operator) = infix_operator_of(&token) else {
            return None;
        };
        let Some(symbol) = operator.rank(token.after_break) else {
            return None;
        };
        if cannot_continue(position, edge, &token, symbol) {
            return None;
        }
        Some(NextOperator { token, operator })
    }
}
