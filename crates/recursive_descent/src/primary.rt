//! What the first token of an expression begins (ECMA-262 12.2 to 12.5, 14.1, 14.2, 14.6).
#![tactic(auto, using(parser_tables::proofs::Refusals::refusals, crate::proofs::reading::AdvancedTokens::moves))]

ghost use Rattle.recursive_descent.specs.Complete.{OperandComplete, KeywordExpressionComplete, ParenthesizedComplete};
ghost use Rattle.std.specs.Prelude.{◌≡◌, ◌≢◌, ◌⊎◌, ◌≤◌, ◌<◌, ◌+◌, ◌-◌, [], ◌∷◌, ◌++◌, vec_len, set, IfOk, IfErr, IfSome, IfNone, true, codes};
ghost use Rattle.token_cursor.specs.CursorState.{IsAhead};
ghost use Rattle.language.specs.Languages.{is_of_2022};
ghost use Rattle.source_text.specs.Source.{IsPlace};
ghost use Rattle.language.specs.Token.{as_read};
ghost use Rattle.language.specs.Vocabulary.{is_identifier};
ghost use Rattle.language.specs.ExpressionStart.{expression_start};
ghost use Rattle.language.specs.Claims.{max_open};
ghost use Rattle.parser_tables.specs.ExpressionStarts.{coded_in, opens_at, MetaAhead, OpensNothing};
ghost use Rattle.std.specs.Bool.{OnTrue, OnFalse};
ghost use Rattle.tokens.specs.Scanned.{token_of};
ghost use Rattle.tokens.specs.declared.token.Goal.TheVariants.{Div};
ghost use Rattle.tree.specs.Tree.{height, push};
ghost use Rattle.productions.specs.Made.{Makes};
ghost use Rattle.token_cursor.specs.Seen.{SeesBy, MissesBy};
ghost use Rattle.parser_tables.specs.Tests.{continues_super};
ghost use Rattle.token_cursor.specs.CursorState.{Passes};
ghost use Rattle.parser_tables.specs.Moves.{BeginsList};
ghost use Rattle.recursive_descent.specs.Follows.{target_node, NotTarget};
ghost use Rattle.token_cursor.specs.Seen.{ReadsHere};
ghost use Rattle.parser_tables.specs.Outcomes.{BeginsBy, RefusedUnder};
ghost use Rattle.token_cursor.specs.CursorState.{IsPlaceHere};
ghost use Rattle.parser_tables.specs.Operands.{plain_part};
ghost use Rattle.recursive_descent.specs.Soundness.{Adds, ReadAt, WordedAt};
ghost use Rattle.token_cursor.specs.Refusals.{IsLimit, IsRefusal};
ghost use Rattle.parser_tables.specs.Tokens.{single_node, single_text};
ghost use Rattle.recursive_descent.specs.Spelled.{OfLanguage};

use crate::expressions::prefix_operand;
use crate::parser::Parser;
use crate::token_tests::span_from;
use covers::{ListBuilder, ListKind};
use grammar::accepts_rank;
use language::{Edge, Rank};
use parser_tables::{
    ExpressionContext, ExpressionStart, FunctionOrClass, Operand, continues_super,
    expression_start_of, finish_group, finish_list, grouping_pair, may_start, span_of,
    token_node_text, unclosed_pair,
};
use productions::{MeasuredNode, MeasuredParts, finish_plain};
use source_text::Fault;
use token_cursor::{is_name_token, is_punctuator};
use tokens::{Goal, Token, TokenClass};
use tree::{Form, Kind, TreeBuilder};

impl<'t, 's> Parser<'t, 's> {
    /// The token ahead and what it begins; none if no expression at the position begins with it.
    fn peek_start(&self, position: ExpressionContext) -> Option<(Token<'s>, ExpressionStart)>
        ensures ahead { IfSome result (λ found. IsAhead Goal.RegExp self.now.cursor.text self.now.cursor.last.stop (token_of found.0)) }
        ensures real { IfSome result (λ found. found.0.class ≢ TokenClass.End) }
        ensures list { IfSome result (λ found. BeginsList found.1) }
        ensures coded { IfSome result (λ found. coded_in self.now.cursor.text.language (as_read (token_of found.0)) ≡ Some found.1) }
        ensures stands { IfSome result (λ found. (opens_at position (as_read (token_of found.0)) ≡ true) ⊎ ((found.1 ≡ ExpressionStart.Import) × (is_of_2022 self.now.cursor.text.language ≡ true) × MetaAhead self.now.cursor.text self.now.cursor.last)) }
        ensures none { IfNone result (OpensNothing self.now.cursor.text position self.now.cursor.last) }
    {
        let Some(token) = self.cursor.peek(Goal::RegExp) else {
            return None;
        };
        let Some(opening) = expression_start_of(&token, self.cursor.language()) else {
            return None;
        };
        match may_start(position, opening) || self.begins_import_meta(&token) {
            true => Some((token, opening)),
            false => None,
        }
    }

    /// Whether the token ahead begins `import.meta`, which stands also where no call does (13.3.12 of the 13th edition).
    #[inline(never)]
    fn begins_import_meta(&self, token: &Token<'s>) -> bool
        requires { IsAhead Goal.RegExp self.now.cursor.text self.now.cursor.last.stop (token_of token.now) }
        ensures seen { OnTrue result ((is_of_2022 self.now.cursor.text.language ≡ true) × MetaAhead self.now.cursor.text self.now.cursor.last) }
        ensures missed { OnFalse result (is_of_2022 self.now.cursor.text.language ≡ true → MetaAhead self.now.cursor.text self.now.cursor.last → ⊥) }
    {
        if !is_name_token(token, "import") || !self.cursor.is_of_2022() {
            return false;
        }
        match self.cursor.peek_behind(token) {
            Some(second) => is_punctuator(&second, "."),
            None => false,
        }
    }

    /// What the first token begins at a position, up to where something may go on with it.
    #[cycle(grammar)]
    #[inline(never)]
    pub(crate) fn leftmost_operand(
        &mut self,
        position: ExpressionContext,
        high: u32,
    ) -> Result<Operand, Fault>
        ensures text { self.new.cursor.text ≡ self.old.cursor.text }
        ensures forward { self.old.cursor.last.stop ≤ self.new.cursor.last.stop }
        ensures waits { IfOk result (λ part. self.new.tree ≡ push self.old.tree part.cover.node) }
        ensures passes { IfOk result (λ _. Passes self.old.cursor self.new.cursor) }
        ensures derived { IfOk result (λ part. Adds self.old.cursor self.new.cursor self.old.pairs.items self.new.pairs.items (ReadAt self.old.cursor.text position part)) }
        ensures low { IfOk result (λ part. height part.cover.node ≤ high) }
        ensures own { IfOk result (λ part. OfLanguage self.old.cursor.text part.cover.node) }
        ensures complete { OperandComplete self.old.cursor self.new.cursor self.old.pairs.items self.new.pairs.items high position result }
        ensures refused { IfErr result (IsRefusal self.new.cursor.text) }
    {
        let Some((token, opening)) = self.peek_start(position) else {
            return Err(self.syntax_error());
        };
        if high == 0 {
            return Err(Fault::TooDeep);
        }
        match opening {
            ExpressionStart::List(what) => self.bracketed_list(token, what, position, high),
            ExpressionStart::Parenthesis => self.parenthesized(position, high),
            ExpressionStart::Prefix(own, side) => self.prefix_expression(
                token, own, side, position, high,
            ),
            ExpressionStart::OneToken(kind) => self.one_token(token, kind, position, high),
            _ => {
                self.advance(token);
                self.keyword_expression(token, opening, position, high)
            }
        }
    }

    /// Reads an array, an object or a template, whose first token stands ahead (12.2.5, 12.2.6, 12.2.9).
    #[cycle(grammar)]
    #[inline(never)]
    fn bracketed_list(
        &mut self,
        token: Token<'s>,
        what: ListKind,
        position: ExpressionContext,
        high: u32,
    ) -> Result<Operand, Fault>
        requires ahead { IsAhead Goal.RegExp self.old.cursor.text self.old.cursor.last.stop (token_of token) }
        requires list { BeginsList (ExpressionStart.List what) }
        requires coded { coded_in self.old.cursor.text.language (as_read (token_of token)) ≡ Some (ExpressionStart.List what) }
        requires stands { opens_at position (as_read (token_of token)) ≡ true }
        ensures text { self.new.cursor.text ≡ self.old.cursor.text }
        ensures forward { self.old.cursor.last.stop ≤ self.new.cursor.last.stop }
        ensures waits { IfOk result (λ part. self.new.tree ≡ push self.old.tree part.cover.node) }
        ensures passes { IfOk result (λ _. Passes self.old.cursor self.new.cursor) }
        ensures derived { IfOk result (λ part. Adds self.old.cursor self.new.cursor self.old.pairs.items self.new.pairs.items (ReadAt self.old.cursor.text position part)) }
        ensures low { IfOk result (λ part. height part.cover.node ≤ high) }
        ensures own { IfOk result (λ part. OfLanguage self.old.cursor.text part.cover.node) }
        ensures complete { OperandComplete self.old.cursor self.new.cursor self.old.pairs.items self.new.pairs.items high position result }
        ensures refused { IfErr result (IsRefusal self.new.cursor.text) }
    {
        let list = self.open(what, high.saturating_sub(1))?;
        let list = self.list(list, high.saturating_sub(1))?;
        finish_list(&mut self.tree, list, high)
    }

    /// Reads what is one token, which stands ahead: a name, a literal, `this` (12.1, 12.2). A name before `=>` is an arrow function's parameter.
    #[cycle(grammar)]
    #[inline(always)]
    fn one_token(
        &mut self,
        token: Token<'s>,
        kind: Kind,
        position: ExpressionContext,
        high: u32,
    ) -> Result<Operand, Fault>
        requires ahead { IsAhead Goal.RegExp self.old.cursor.text self.old.cursor.last.stop (token_of token) }
        requires real { token.class ≢ TokenClass.End }
        requires coded { coded_in self.old.cursor.text.language (as_read (token_of token)) ≡ Some (ExpressionStart.OneToken kind) }
        ensures text { self.new.cursor.text ≡ self.old.cursor.text }
        ensures forward { self.old.cursor.last.stop ≤ self.new.cursor.last.stop }
        ensures waits { IfOk result (λ part. self.new.tree ≡ push self.old.tree part.cover.node) }
        ensures passes { IfOk result (λ _. Passes self.old.cursor self.new.cursor) }
        ensures derived { IfOk result (λ part. Adds self.old.cursor self.new.cursor self.old.pairs.items self.new.pairs.items (ReadAt self.old.cursor.text position part)) }
        ensures low { IfOk result (λ part. height part.cover.node ≤ high) }
        ensures own { IfOk result (λ part. OfLanguage self.old.cursor.text part.cover.node) }
        ensures complete { OperandComplete self.old.cursor self.new.cursor self.old.pairs.items self.new.pairs.items high position result }
        ensures refused { IfErr result (IsRefusal self.new.cursor.text) }
    {
        self.advance(token);
        let node = token_node(&mut self.tree, kind, token, high)?;
        if is_name(kind) && self.sees_arrow() && accepts_rank(position.rank, Rank::Assignment) {
            let parameter = MeasuredParts::one(node);
            let start = token.start;
            return self.arrow_function(parameter, start, Form::Init, position.has_in, high);
        }
        Ok(Operand::plain(node, Rank::Primary, Edge::Other))
    }

    /// Reads a prefix operator, which stands ahead, with its operand (12.4, 12.5).
    #[cycle(grammar)]
    #[inline(never)]
    fn prefix_expression(
        &mut self,
        token: Token<'s>,
        own: Rank,
        side: Rank,
        position: ExpressionContext,
        high: u32,
    ) -> Result<Operand, Fault>
        requires ahead { IsAhead Goal.RegExp self.old.cursor.text self.old.cursor.last.stop (token_of token) }
        requires real { token.class ≢ TokenClass.End }
        requires coded { coded_in self.old.cursor.text.language (as_read (token_of token)) ≡ Some (ExpressionStart.Prefix own side) }
        requires stands { opens_at position (as_read (token_of token)) ≡ true }
        ensures text { self.new.cursor.text ≡ self.old.cursor.text }
        ensures forward { self.old.cursor.last.stop ≤ self.new.cursor.last.stop }
        ensures waits { IfOk result (λ part. self.new.tree ≡ push self.old.tree part.cover.node) }
        ensures passes { IfOk result (λ _. Passes self.old.cursor self.new.cursor) }
        ensures derived { IfOk result (λ part. Adds self.old.cursor self.new.cursor self.old.pairs.items self.new.pairs.items (ReadAt self.old.cursor.text position part)) }
        ensures low { IfOk result (λ part. height part.cover.node ≤ high) }
        ensures own { IfOk result (λ part. OfLanguage self.old.cursor.text part.cover.node) }
        ensures complete { OperandComplete self.old.cursor self.new.cursor self.old.pairs.items self.new.pairs.items high position result }
        ensures refused { IfErr result (IsRefusal self.new.cursor.text) }
    {
        self.advance(token);
        let place = ExpressionContext::at(side, true);
        let operand = self.expression(place, high.saturating_sub(1))?;
        prefix_operand(
            &self.cursor,
            &mut self.tree,
            operand,
            token.text,
            token.start,
            high,
        )
    }

    /// Whether a member of `super` stands ahead, or its arguments if a call may stand here (12.3.7).
    fn sees_super_continuation(&self, takes_call: bool) -> bool
        ensures seen { OnTrue result (SeesBy self.now.cursor.text Div (continues_super takes_call) self.now.cursor.last) }
        ensures missed { OnFalse result (MissesBy self.now.cursor.text Div (continues_super takes_call) self.now.cursor.last) }
    {
        match self.cursor.peek(Goal::Div) {
            Some(token) => continues_super(&token, takes_call),
            None => false,
        }
    }

    /// Reads the rest of an expression after `function`, `class`, `super`, `new` or `import` (12.3, 14.1, 14.6).
    #[cycle(grammar)]
    #[inline(never)]
    fn keyword_expression(
        &mut self,
        token: Token<'s>,
        opening: ExpressionStart,
        position: ExpressionContext,
        high: u32,
    ) -> Result<Operand, Fault>
        ensures text { self.new.cursor.text ≡ self.old.cursor.text }
        ensures forward { self.old.cursor.last.stop ≤ self.new.cursor.last.stop }
        ensures waits { IfOk result (λ part. self.new.tree ≡ push self.old.tree part.cover.node) }
        ensures derived { IfOk result (λ part. Adds self.old.cursor self.new.cursor self.old.pairs.items self.new.pairs.items (WordedAt self.old.cursor.text position token.entry opening part)) }
        ensures low { IfOk result (λ part. height part.cover.node ≤ high) }
        ensures own { IfOk result (λ part. coded_in self.old.cursor.text.language (as_read (token_of token.entry)) ≡ Some opening → OfLanguage self.old.cursor.text part.cover.node) }
        ensures complete { KeywordExpressionComplete self.old.cursor self.new.cursor self.old.pairs.items self.new.pairs.items high token.entry opening position result }
        ensures refused { IfErr result (IsRefusal self.new.cursor.text) }
    {
        let start = token.start;
        match opening {
            ExpressionStart::Function => {
                let closure = FunctionOrClass::Function(self.starred(Form::Init));
                let node = self.function_or_class(closure, start, high)?;
                Ok(Operand::plain(node, Rank::Primary, Edge::Other))
            }
            ExpressionStart::Class => {
                let node = self.function_or_class(FunctionOrClass::Class, start, high)?;
                Ok(Operand::plain(node, Rank::Primary, Edge::Other))
            }
            ExpressionStart::Super => self.super_expression(token, position, high),
            ExpressionStart::New => self.new_expression(token, position, high),
            ExpressionStart::Import => self.import_call(token, position, high),
            ExpressionStart::Async => self.async_expression(position, high),
            ExpressionStart::Yield => self.yield_expression(token, position, high),
            ExpressionStart::PrivateName => self.private_in(token, position, high),
            _ => Err(self.syntax_error()),
        }
    }

    /// Reads a member of `super`, or its call, after `super` (12.3.7).
    #[cycle(grammar)]
    #[inline(never)]
    fn super_expression(
        &mut self,
        token: Token<'s>,
        position: ExpressionContext,
        high: u32,
    ) -> Result<Operand, Fault>
        ensures text { self.new.cursor.text ≡ self.old.cursor.text }
        ensures forward { self.old.cursor.last.stop ≤ self.new.cursor.last.stop }
        ensures waits { IfOk result (λ part. self.new.tree ≡ push self.old.tree part.cover.node) }
        ensures derived { IfOk result (λ part. Adds self.old.cursor self.new.cursor self.old.pairs.items self.new.pairs.items (WordedAt self.old.cursor.text position token.entry ExpressionStart.Super part)) }
        ensures low { IfOk result (λ part. height part.cover.node ≤ high) }
        ensures own { IfOk result (λ part. OfLanguage self.old.cursor.text part.cover.node) }
        ensures complete { KeywordExpressionComplete self.old.cursor self.new.cursor self.old.pairs.items self.new.pairs.items high token.entry ExpressionStart.Super position result }
        ensures refused { IfErr result (IsRefusal self.new.cursor.text) }
    {
        if !self.sees_super_continuation(accepts_rank(position.rank, Rank::Call)) {
            return Err(self.syntax_error());
        }
        if self.cursor.is_of_2022() {
            self.refuse_private_name()?;
        }
        let node = token_node(&mut self.tree, Kind::Super, token, high.saturating_sub(1))?;
        self.subscript(Operand::plain(node, Rank::Primary, Edge::Other), high)
    }

    /// Reads what stands after `new`: a callee with its arguments, or `.target` (12.3.5, 12.3.12).
    #[cycle(grammar)]
    #[inline(never)]
    fn new_expression(
        &mut self,
        token: Token<'s>,
        position: ExpressionContext,
        high: u32,
    ) -> Result<Operand, Fault>
        ensures text { self.new.cursor.text ≡ self.old.cursor.text }
        ensures forward { self.old.cursor.last.stop ≤ self.new.cursor.last.stop }
        ensures waits { IfOk result (λ part. self.new.tree ≡ push self.old.tree part.cover.node) }
        ensures derived { IfOk result (λ part. Adds self.old.cursor self.new.cursor self.old.pairs.items self.new.pairs.items (WordedAt self.old.cursor.text position token.entry ExpressionStart.New part)) }
        ensures low { IfOk result (λ part. height part.cover.node ≤ high) }
        ensures own { IfOk result (λ part. coded_in self.old.cursor.text.language (as_read (token_of token.entry)) ≡ Some ExpressionStart.New → OfLanguage self.old.cursor.text part.cover.node) }
        ensures complete { KeywordExpressionComplete self.old.cursor self.new.cursor self.old.pairs.items self.new.pairs.items high token.entry ExpressionStart.New position result }
        ensures refused { IfErr result (IsRefusal self.new.cursor.text) }
    {
        if self.accept_punctuator(".") {
            return self.meta_property(token, "target", high);
        }
        let inner = high.saturating_sub(1);
        let callee = self.expression(ExpressionContext::at(Rank::New, true), inner)?;
        let mut nodes = MeasuredParts::one(self.into_expression(callee)?);
        let mut rank = Rank::New;
        if self.sees_punctuator("(") {
            nodes.append(self.arguments(inner)?)?;
            rank = Rank::Member;
        }
        let span = span_from(&self.cursor, token.start);
        let node = finish_plain(&mut self.tree, Kind::NewExpression, span, nodes, high)?;
        Ok(Operand::plain(node, rank, Edge::Other))
    }

    /// Reads an ImportCall after `import` (12.3.10).
    #[cycle(grammar)]
    #[inline(never)]
    fn import_call(
        &mut self,
        token: Token<'s>,
        position: ExpressionContext,
        high: u32,
    ) -> Result<Operand, Fault>
        ensures text { self.new.cursor.text ≡ self.old.cursor.text }
        ensures forward { self.old.cursor.last.stop ≤ self.new.cursor.last.stop }
        ensures waits { IfOk result (λ part. self.new.tree ≡ push self.old.tree part.cover.node) }
        ensures derived { IfOk result (λ part. Adds self.old.cursor self.new.cursor self.old.pairs.items self.new.pairs.items (WordedAt self.old.cursor.text position token.entry ExpressionStart.Import part)) }
        ensures low { IfOk result (λ part. height part.cover.node ≤ high) }
        ensures own { IfOk result (λ part. OfLanguage self.old.cursor.text part.cover.node) }
        ensures complete { KeywordExpressionComplete self.old.cursor self.new.cursor self.old.pairs.items self.new.pairs.items high token.entry ExpressionStart.Import position result }
        ensures refused { IfErr result (IsRefusal self.new.cursor.text) }
    {
        if self.cursor.is_of_2022() && self.accept_punctuator(".") {
            return self.meta_property(token, "meta", high);
        }
        let inner = high.saturating_sub(1);
        self.expect_punctuator("(")?;
        let source = self.expression(ExpressionContext::ASSIGNMENT, inner)?;
        let nodes = MeasuredParts::one(self.into_expression(source)?);
        self.expect_punctuator(")")?;
        let span = span_from(&self.cursor, token.start);
        let node = finish_plain(&mut self.tree, Kind::ImportExpression, span, nodes, high)?;
        Ok(Operand::plain(node, Rank::Call, Edge::Other))
    }

    /// Reads the rest of `new.target` (12.3.12), or of `import.meta` (13.3.12 of the 13th edition), after its `.`.
    fn meta_property(
        &mut self,
        first: Token<'s>,
        name: &'static str,
        high: u32,
    ) -> Result<Operand, Fault>
        ensures text { self.new.cursor.text ≡ self.old.cursor.text }
        ensures forward { self.old.cursor.last.stop ≤ self.new.cursor.last.stop }
        ensures waits { IfOk result (λ part. self.new.tree ≡ push self.old.tree part.cover.node) }
        ensures same_open { self.new.cursor.opened ≡ self.old.cursor.opened }
        ensures same_pairs { self.new.pairs.items ≡ self.old.pairs.items }
        ensures target { IfOk result (λ part. ReadsHere self.old.cursor.text TokenClass.IdentifierName name.now self.old.cursor.last self.new.cursor.last × (part ≡ plain_part (target_node (token_of first.entry) self.new.cursor.last) Rank.Member Edge.Other) × (2 ≤ high)) }
        ensures no_target { IfErr result (NotTarget self.old.cursor name.now high) }
        ensures refused { IfErr result (IsRefusal self.new.cursor.text) }
    {
        let second = self.expect_word(name)?;
        let inner = high.saturating_sub(1);
        let meta = token_node(&mut self.tree, Kind::Identifier, first, inner)?;
        let property = token_node(&mut self.tree, Kind::Identifier, second, inner)?;
        let nodes = MeasuredParts::two(meta, property);
        let span = span_from(&self.cursor, first.start);
        let node = finish_plain(&mut self.tree, Kind::MetaProperty, span, nodes, high)?;
        Ok(Operand::plain(node, Rank::Member, Edge::Other))
    }

    /// Where what stands ahead begins, where an operand may: by its goal.
    pub(crate) fn operand_start(&self) -> usize
        ensures { BeginsBy self.now.cursor result }
    {
        match self.cursor.peek(Goal::RegExp) {
            Some(token) => token.start,
            None => self.cursor.next_start(),
        }
    }

    /// Reads an expression in parentheses, or an arrow function whose parameters they hold (12.2.10, 14.2).
    #[cycle(grammar)]
    #[inline(never)]
    fn parenthesized(&mut self, position: ExpressionContext, high: u32) -> Result<Operand, Fault>
        ensures text { self.new.cursor.text ≡ self.old.cursor.text }
        ensures forward { self.old.cursor.last.stop ≤ self.new.cursor.last.stop }
        ensures waits { IfOk result (λ part. self.new.tree ≡ push self.old.tree part.cover.node) }
        ensures passes { IfOk result (λ _. Passes self.old.cursor self.new.cursor) }
        ensures derived { IfOk result (λ part. Adds self.old.cursor self.new.cursor self.old.pairs.items self.new.pairs.items (ReadAt self.old.cursor.text position part)) }
        ensures low { IfOk result (λ part. height part.cover.node ≤ high) }
        ensures own { IfOk result (λ part. OfLanguage self.old.cursor.text part.cover.node) }
        ensures complete { ParenthesizedComplete self.old.cursor self.new.cursor self.old.pairs.items self.new.pairs.items high position result }
        ensures refused { IfErr result (IsRefusal self.new.cursor.text) }
    {
        let (place, start) = self.enter()?;
        let list = self.open(ListKind::ParenthesizedItems, high)?;
        let list = self.list(list, high)?;
        let at = self.leave();
        let end = self.cursor.last_end().saturating_sub(1);
        if self.sees_arrow() && accepts_rank(position.rank, Rank::Assignment) {
            let parameters = list.into_parameters(&mut self.tree, at)?;
            return self.arrow_function(parameters, start, Form::Init, position.has_in, high);
        }
        self.close_pair(place, start, end);
        finish_group(&mut self.tree, list, at, high)
    }

    /// Opens the parenthesis that stands ahead, with a pair that doesn't group yet: answers the pair's index and the
    /// place of the parenthesis in bytes.
    fn enter(&mut self) -> Result<(usize, usize), Fault>
        ensures text { self.new.cursor.text ≡ self.old.cursor.text }
        ensures same_tree { self.new.tree ≡ self.old.tree }
        ensures last { self.new.cursor.last ≡ self.old.cursor.last }
        ensures opened { IfOk result (λ _. (self.old.cursor.opened < max_open) × (self.new.cursor.opened ≡ self.old.cursor.opened + 1)) }
        ensures place { IfOk result (λ places. (places.0 ≡ vec_len self.old.pairs) × IsPlaceHere self.old.cursor places.1) }
        ensures pairs { IfOk result (λ places. self.new.pairs.items ≡ self.old.pairs.items ++ (record { left = places.1; right = places.1 }) ∷ []) }
        ensures too_deep { IfErr result (RefusedUnder self.old.cursor.opened) }
        ensures refused { IfErr result (IsRefusal self.new.cursor.text) }
    {
        self.cursor.enter()?;
        let place = self.pairs.len();
        let start = self.cursor.next_start();
        self.pairs.push(unclosed_pair(start))?;
        Ok((place, start))
    }

    /// Counts the last open parenthesis as closed, and answers where the next token begins, in bytes.
    fn leave(&mut self) -> usize
        ensures text { self.new.cursor.text ≡ self.old.cursor.text }
        ensures same_tree { self.new.tree ≡ self.old.tree }
        ensures last { self.new.cursor.last ≡ self.old.cursor.last }
        ensures place { IsPlace self.new.cursor.text.bytes result }
        ensures here { IsPlaceHere self.new.cursor result }
        ensures closed { self.new.cursor.opened ≡ self.old.cursor.opened - 1 }
        ensures same_pairs { self.new.pairs.items ≡ self.old.pairs.items }
    {
        self.cursor.leave();
        self.cursor.next_start()
    }

    /// Makes the pair at this index a grouping pair, with the places of its parentheses in bytes.
    fn close_pair(&mut self, place: usize, left: usize, right: usize)
        ensures cursor { self.new.cursor ≡ self.old.cursor }
        ensures same_tree { self.new.tree ≡ self.old.tree }
        ensures pairs { place < vec_len self.old.pairs → self.new.pairs.items ≡ set self.old.pairs.items place (record { left = left; right = right }) }
    {
        if place < self.pairs.len() {
            self.pairs[place] = grouping_pair(left, right);
        }
    }
}

/// A node that is one token; `this` has no text.
#[inline(always)]
pub(crate) fn token_node<'s>(
    tree: &mut TreeBuilder<'s>,
    kind: Kind,
    token: Token<'s>,
    high: u32,
) -> Result<MeasuredNode, Fault>
    ensures made { Makes (single_node kind (token_of token.entry)) high result }
    ensures waits { IfOk result (λ n. tree.new ≡ push tree.old n) }
    ensures refused { IfErr result IsLimit }
{
    MeasuredNode::leaf(
        tree,
        kind,
        token_node_text(kind, token.text),
        span_of(&token),
        high,
    )
}

/// Whether the kind is Identifier.
fn is_name(kind: Kind) -> bool
    ensures { result ≡ is_identifier kind }
{
    matches!(kind, Kind::Identifier)
}
