//! Private names (ECMA-262, 13th edition, 12.6, 13.3, 13.10, 15.7), and the names behind a dot.
#![tactic(auto, using(parser_tables::proofs::Refusals::refusals, crate::proofs::reading::AdvancedTokens::moves))]

ghost use Rattle.std.specs.Prelude.{◌≡◌, ◌≤◌, ◌||◌, true, false, codes, IfOk, IfErr};
ghost use Rattle.token_cursor.specs.CursorState.{Passes};
ghost use Rattle.token_cursor.specs.Refusals.{IsLimit, IsRefusal};
ghost use Rattle.tree.specs.Tree.{height, push};
ghost use Rattle.tokens.specs.Scanned.{token_of};
ghost use Rattle.language.specs.Token.{Token as Read, same_class};
ghost use Rattle.token_cursor.specs.SourceText.{SeenNext};
ghost use Rattle.recursive_descent.specs.Spelled.{OfLanguage};
ghost use Rattle.productions.specs.Made.{Makes};
ghost use Rattle.token_cursor.specs.Seen.{is_word_class, ReadsHere};
ghost use Rattle.parser_tables.specs.Tokens.{key_node, single_node};
ghost use Rattle.recursive_descent.specs.Soundness.{Adds, WordedAt};
ghost use Rattle.recursive_descent.specs.Complete.{KeywordExpressionComplete};
ghost use Rattle.recursive_descent.specs.Later.{MemberNameAt, NoMemberName};

use crate::parser::Parser;
use crate::primary::token_node;
use crate::token_tests::span_from;
use language::{Edge, Rank};
use parser_tables::{ExpressionContext, ExpressionStart, Operand};
use productions::{MeasuredNode, MeasuredParts, finish_node};
use source_text::Fault;
use token_cursor::{is_private_name, is_punctuator};
use tokens::{Goal, Token, TokenClass};
use tree::{Flags, Kind, TreeBuilder};

/// The kind of the node of a name behind a dot.
#[inline(always)]
pub(crate) fn member_kind(name: &Token<'_>) -> Kind
    ensures { (is_word_class name.now.class || same_class TokenClass.PrivateName name.now.class) ≡ true → single_node result (token_of name.now) ≡ key_node (token_of name.now) }
{
    match name.class {
        TokenClass::PrivateName => Kind::PrivateIdentifier,
        _ => Kind::Identifier,
    }
}

/// A node of one token on a way that few texts go, where a call costs less than its room.
#[inline(never)]
pub(crate) fn rare_token_node<'s>(
    tree: &mut TreeBuilder<'s>,
    kind: Kind,
    token: Token<'s>,
    high: u32,
) -> Result<MeasuredNode, Fault>
    ensures made { Makes (single_node kind (token_of token.entry)) high result }
    ensures waits { IfOk result (λ n. tree.new ≡ push tree.old n) }
    ensures refused { IfErr result IsLimit }
{
    token_node(tree, kind, token, high)
}

impl<'t, 's> Parser<'t, 's> {
    /// Takes the name behind a `.` or `?.` that was passed: an IdentifierName or a private name.
    #[inline(always)]
    pub(crate) fn member_name(&mut self) -> Result<Token<'s>, Fault>
        ensures text { self.new.cursor.text ≡ self.old.cursor.text }
        ensures forward { self.old.cursor.last.stop ≤ self.new.cursor.last.stop }
        ensures same_tree { self.new.tree ≡ self.old.tree }
        ensures passes { IfOk result (λ _. Passes self.old.cursor self.new.cursor) }
        ensures same_open { self.new.cursor.opened ≡ self.old.cursor.opened }
        ensures same_pairs { self.new.pairs.items ≡ self.old.pairs.items }
        ensures named { IfOk result (λ name. (is_word_class name.class || same_class TokenClass.PrivateName name.class) ≡ true) }
        ensures derived { IfOk result (λ name. MemberNameAt self.old.cursor self.new.cursor (key_node (token_of name))) }
        ensures own { IfOk result (λ name. OfLanguage self.old.cursor.text (key_node (token_of name))) }
        ensures none { IfErr result (λ _. NoMemberName self.old.cursor) }
        ensures refused { IfErr result (IsRefusal self.new.cursor.text) }
    {
        let Some(token) = self.cursor.peek(Goal::Div) else {
            return Err(self.syntax_error());
        };
        match token.class {
            TokenClass::IdentifierName | TokenClass::Keyword => {}
            TokenClass::PrivateName if self.cursor.is_of_2022() => {}
            _ => return Err(self.syntax_error()),
        }
        self.advance(token);
        Ok(token)
    }

    /// Refuses a private name behind a `.` that stands ahead: `super` has none. In its brackets and arguments one may stand first.
    pub(crate) fn refuse_private_name(&self) -> Result<(), Fault>
        ensures none { IfOk result (λ _. (u m e : Read) → ReadsHere self.now.cursor.text TokenClass.Punctuator (codes ".") self.now.cursor.last m → SeenNext self.now.cursor.text m u e → same_class TokenClass.PrivateName u.class ≡ false) }
        ensures private { IfErr result (λ _. (u : Read) × (m : Read) × (e : Read) × ReadsHere self.now.cursor.text TokenClass.Punctuator (codes ".") self.now.cursor.last m × SeenNext self.now.cursor.text m u e × (u.class ≡ TokenClass.PrivateName)) }
        ensures refused { IfErr result (IsRefusal self.now.cursor.text) }
    {
        let Some(dot) = self.cursor.peek(Goal::Div) else {
            return Ok(());
        };
        if !is_punctuator(&dot, ".") {
            return Ok(());
        }
        match self.cursor.peek_behind(&dot) {
            Some(second) if is_private_name(&second) => Err(Fault::Syntax(second.start)),
            _ => Ok(()),
        }
    }

    /// Reads the rest of `#x in a` after its private name (13.10).
    #[cycle(grammar)]
    #[inline(never)]
    pub(crate) fn private_in(
        &mut self,
        token: Token<'s>,
        position: ExpressionContext,
        high: u32,
    ) -> Result<Operand, Fault>
        ensures text { self.new.cursor.text ≡ self.old.cursor.text }
        ensures forward { self.old.cursor.last.stop ≤ self.new.cursor.last.stop }
        ensures waits { IfOk result (λ part. self.new.tree ≡ push self.old.tree part.cover.node) }
        ensures derived { IfOk result (λ part. Adds self.old.cursor self.new.cursor self.old.pairs.items self.new.pairs.items (WordedAt self.old.cursor.text position token.entry ExpressionStart.PrivateName part)) }
        ensures low { IfOk result (λ part. height part.cover.node ≤ high) }
        ensures complete { KeywordExpressionComplete self.old.cursor self.new.cursor self.old.pairs.items self.new.pairs.items high token.entry ExpressionStart.PrivateName position result }
        ensures refused { IfErr result (IsRefusal self.new.cursor.text) }
    {
        let inner = high.saturating_sub(1);
        let left = rare_token_node(&mut self.tree, Kind::PrivateIdentifier, token, inner)?;
        self.expect_word("in")?;
        let right = self.expression(ExpressionContext::at(Rank::Shift, position.has_in), inner)?;
        let edge = right.edge;
        let nodes = MeasuredParts::two(left, self.into_expression(right)?);
        let span = span_from(&self.cursor, token.start);
        let node = finish_node(
            &mut self.tree,
            Kind::BinaryExpression,
            "in",
            Flags::PLAIN,
            span,
            nodes,
            high,
        )?;
        Ok(Operand::plain(node, Rank::Relational, edge))
    }
}
