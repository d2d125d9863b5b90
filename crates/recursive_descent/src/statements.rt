//! Statements and declarations (ECMA-262 clause 13, 14.1, 14.6), by the first token.
#![tactic(auto, using(parser_tables::proofs::Refusals::refusals, crate::proofs::reading::AdvancedTokens::moves))]

ghost use Rattle.recursive_descent.specs.Complete.{StatementsComplete, StatementComplete};
ghost use Rattle.recursive_descent.specs.Later.{ForAwaitAt, ForAwaitComplete};
ghost use Rattle.std.specs.Prelude.{◌≡◌, ◌≢◌, ◌≤◌, ◌&&◌, true, IfOk, IfErr, ◌<◌, ◌⊎◌, false, codes};
ghost use Rattle.std.specs.Bool.{OnTrue, OnFalse};
ghost use Rattle.token_cursor.specs.CursorState.{IsAhead};
ghost use Rattle.language.specs.Languages.{is_of_2022};
ghost use Rattle.tokens.specs.declared.token.Goal.TheVariants.{Div};
ghost use Rattle.language.specs.Token.{as_read};
ghost use Rattle.language.specs.StatementStart.{statement_start};
ghost use Rattle.token_cursor.specs.Seen.{Sees, Misses, SeesBy, MissesBy};
ghost use Rattle.parser_tables.specs.Tests.{ends};
ghost use Rattle.parser_tables.specs.StatementStarts.{coded_statement_start, NothingBegins, NotBegun, KindFollowed, KindUnfollowed, BegunWith, AsyncFunctionAhead, NoAsyncFunction};
ghost use Rattle.tokens.specs.Scanned.{token_of};
ghost use Rattle.token_cursor.specs.CursorState.{Passes};
ghost use Rattle.parser_tables.specs.Moves.{IfKind};
ghost use Rattle.recursive_descent.specs.Soundness.{Adds};
ghost use Rattle.recursive_descent.specs.SoundnessOfStatements.{StatementsAt, StatementAt, context_role};
ghost use Rattle.token_cursor.specs.Refusals.{IsRefusal};
ghost use Rattle.parser_tables.specs.Operands.{is_group, is_lone_string};
ghost use Rattle.parser_tables.specs.StatementNodes.{expression_statement_node, expression_statement_height, NoExpressionStatement};
ghost use Rattle.token_cursor.specs.StatementEnds.{IsEnd};
ghost use Rattle.tree.specs.Tree.{kind_of, height, parts_height, Parts, push, join};
ghost use Rattle.recursive_descent.specs.Spelled.{OfLanguage, AllOfLanguage};

use crate::parser::Parser;
use crate::token_tests::span_from;
use parser_tables::{
    ExpressionContext, FunctionOrClass, Operand, PartialStatement, StatementContext, StatementKind,
    StatementListEnd, StatementStart, ends_statements, statement_start_of, statement_symbols,
};
use productions::{MeasuredNode, MeasuredParts, finish_node};
use source_text::Fault;
use token_cursor::{StatementEnd, is_name_token};
use tokens::{Goal, Token, TokenClass};
use tree::{Flags, Form, Kind};

impl<'t, 's> Parser<'t, 's> {
    /// Whether the token ahead ends this list of statements.
    pub(crate) fn sees_end(&self, until: StatementListEnd) -> bool
        ensures seen { OnTrue result (SeesBy self.now.cursor.text Div (ends until) self.now.cursor.last) }
        ensures missed { OnFalse result (MissesBy self.now.cursor.text Div (ends until) self.now.cursor.last) }
    {
        match self.cursor.peek(Goal::Div) {
            Some(token) => ends_statements(until, &token),
            None => false,
        }
    }

    /// StatementList (13.2), up to where it ends, with its directives (14.1.1).
    #[cycle(grammar)]
    #[inline(never)]
    pub(crate) fn statements(
        &mut self,
        until: StatementListEnd,
        context: StatementContext,
        high: u32,
    ) -> Result<MeasuredParts, Fault>
        ensures text { self.new.cursor.text ≡ self.old.cursor.text }
        ensures forward { self.old.cursor.last.stop ≤ self.new.cursor.last.stop }
        ensures waits { IfOk result (λ nodes. self.new.tree ≡ join self.old.tree nodes) }
        ensures derived { IfOk result (λ nodes. Adds self.old.cursor self.new.cursor self.old.pairs.items self.new.pairs.items (StatementsAt self.old.cursor.text context nodes)) }
        ensures ended { IfOk result (λ _. SeesBy self.new.cursor.text Div (ends until) self.new.cursor.last) }
        ensures low { IfOk result (λ nodes. parts_height nodes ≤ high) }
        ensures own { IfOk result (λ nodes. AllOfLanguage self.old.cursor.text nodes) }
        ensures complete { StatementsComplete self.old.cursor self.new.cursor self.old.pairs.items self.new.pairs.items high until context result }
        ensures refused { IfErr result (IsRefusal self.new.cursor.text) }
    {
        let mut context = context;
        let mut nodes = MeasuredParts::new();
        'statements: while !self.sees_end(until) {
            let statement = self.statement(context, high)?;
            context.is_prologue = context.is_prologue && statement.is_directive();
            nodes.push(statement)?;
        }
        Ok(nodes)
    }

    /// Statement or StatementListItem (13).
    #[cycle(grammar)]
    #[inline(never)]
    pub(crate) fn statement(
        &mut self,
        context: StatementContext,
        high: u32,
    ) -> Result<MeasuredNode, Fault>
        ensures text { self.new.cursor.text ≡ self.old.cursor.text }
        ensures forward { self.old.cursor.last.stop ≤ self.new.cursor.last.stop }
        ensures waits { IfOk result (λ n. self.new.tree ≡ push self.old.tree n) }
        ensures passes { IfOk result (λ _. Passes self.old.cursor self.new.cursor) }
        ensures derived { IfOk result (λ n. Adds self.old.cursor self.new.cursor self.old.pairs.items self.new.pairs.items (StatementAt self.old.cursor.text (context_role context) n)) }
        ensures low { IfOk result (λ n. height n ≤ high) }
        ensures own { IfOk result (λ n. OfLanguage self.old.cursor.text n) }
        ensures complete { StatementComplete self.old.cursor self.new.cursor self.old.pairs.items self.new.pairs.items high context result }
        ensures refused { IfErr result (IsRefusal self.new.cursor.text) }
    {
        let (token, beginning) = self.peek_statement_start(context, high)?;
        let inner = high.saturating_sub(1);
        let mut built = PartialStatement::new();
        let mut what = match beginning {
            StatementStart::OfKind(what) => {
                self.advance(token);
                if what == StatementKind::For && self.cursor.sees_await() {
                    return self.for_await(token.start, context, high);
                }
                what
            }
            StatementStart::FunctionOrClass(closure) => {
                self.advance(token);
                let closure = self.function_words(closure)?;
                return self.function_or_class(closure, token.start, high);
            }
            StatementStart::Expression => {
                let part = self.expression(ExpressionContext::STATEMENT, inner)?;
                if !self.is_label(&part) {
                    return self.expression_statement(part, context, high);
                }
                built.nodes.push(part.cover.node)?;
                StatementKind::Label
            }
        };
        self.read_symbols(
            statement_symbols(what, context.returns),
            &mut built,
            context,
            inner,
        )?;
        if what == StatementKind::For {
            what = self.for_kind()?;
            self.read_symbols(
                statement_symbols(what, context.returns),
                &mut built,
                context,
                inner,
            )?;
        }
        let text = match what {
            StatementKind::Variable => token.text,
            _ => "",
        };
        let span = span_from(&self.cursor, token.start);
        finish_node(
            &mut self.tree,
            what.kind(),
            text,
            Flags::PLAIN,
            span,
            built.nodes,
            high,
        )
    }

    /// Reads a `for await` (14.7.5 of the 13th edition) behind its `for`, where `await` stands ahead.
    #[cycle(grammar)]
    #[inline(never)]
    fn for_await(
        &mut self,
        start: usize,
        context: StatementContext,
        high: u32,
    ) -> Result<MeasuredNode, Fault>
        ensures text { self.new.cursor.text ≡ self.old.cursor.text }
        ensures forward { self.old.cursor.last.stop ≤ self.new.cursor.last.stop }
        ensures waits { IfOk result (λ n. self.new.tree ≡ push self.old.tree n) }
        ensures derived { IfOk result (λ n. Adds self.old.cursor self.new.cursor self.old.pairs.items self.new.pairs.items (ForAwaitAt self.old.cursor.text context.returns start n)) }
        ensures low { IfOk result (λ n. height n ≤ high) }
        ensures own { IfOk result (λ n. OfLanguage self.old.cursor.text n) }
        ensures complete { ForAwaitComplete self.old.cursor self.new.cursor self.old.pairs.items self.new.pairs.items high context.returns start result }
        ensures refused { IfErr result (IsRefusal self.new.cursor.text) }
    {
        if !self.cursor.accept_await() {
            return Err(self.syntax_error());
        }
        let inner = high.saturating_sub(1);
        let mut built = PartialStatement::new();
        let head = statement_symbols(StatementKind::For, context.returns);
        self.read_symbols(head, &mut built, context, inner)?;
        let rest = statement_symbols(StatementKind::ForOf, context.returns);
        self.read_symbols(rest, &mut built, context, inner)?;
        let mut flags = Flags::PLAIN;
        flags.form = Form::Async;
        let span = span_from(&self.cursor, start);
        finish_node(
            &mut self.tree,
            Kind::ForOfStatement,
            "",
            flags,
            span,
            built.nodes,
            high,
        )
    }

    /// The token ahead and the statement that it begins; refused if no height is left for a node.
    fn peek_statement_start(
        &self,
        context: StatementContext,
        high: u32,
    ) -> Result<(Token<'s>, StatementStart), Fault>
        ensures ahead { IfOk result (λ found. IsAhead Goal.RegExp self.now.cursor.text self.now.cursor.last.stop (token_of found.0)) }
        ensures real { IfOk result (λ found. IfKind found.1 (found.0.class ≢ TokenClass.End)) }
        ensures coded { IfOk result (λ found. BegunWith self.now.cursor.text self.now.cursor.last context.is_item (coded_statement_start (statement_start context.is_item context.returns (as_read (token_of found.0)))) found.1) }
        ensures room { IfOk result (λ _. 0 < high) }
        ensures none { IfErr result (λ _. (high ≡ 0) ⊎ NothingBegins self.now.cursor.text self.now.cursor.last) }
        ensures failed { IfErr result (NotBegun self.now.cursor high) }
        ensures refused { IfErr result (IsRefusal self.now.cursor.text) }
    {
        let Some(token) = self.cursor.peek(Goal::RegExp) else {
            return Err(self.syntax_error());
        };
        if high == 0 {
            return Err(Fault::TooDeep);
        }
        let beginning = statement_start_of(&token, context);
        if matches!(beginning, StatementStart::Expression) && self.begins_async_function(context) {
            let closure = FunctionOrClass::FunctionDeclaration(Form::Async);
            return Ok((token, StatementStart::FunctionOrClass(closure)));
        }
        Ok((token, beginning))
    }

    /// Whether an async function begins ahead that may be declared here (15.8 of the 13th edition).
    #[inline(always)]
    fn begins_async_function(&self, context: StatementContext) -> bool
        ensures begins { OnTrue result ((is_of_2022 self.now.cursor.text.language ≡ true) × (context.is_item ≡ true) × AsyncFunctionAhead self.now.cursor.text self.now.cursor.last) }
        ensures other { OnFalse result (is_of_2022 self.now.cursor.text.language ≡ true → context.is_item ≡ true → NoAsyncFunction self.now.cursor.text self.now.cursor.last) }
    {
        self.cursor.is_of_2022() && context.is_item && self.sees_async_function()
    }

    /// Whether `async` stands ahead, with `function` behind it on the same line.
    #[inline(never)]
    pub(crate) fn sees_async_function(&self) -> bool
        ensures begins { OnTrue result (AsyncFunctionAhead self.now.cursor.text self.now.cursor.last) }
        ensures other { OnFalse result (NoAsyncFunction self.now.cursor.text self.now.cursor.last) }
    {
        let Some(token) = self.cursor.peek(Goal::Div) else {
            return false;
        };
        if !is_name_token(&token, "async") {
            return false;
        }
        match self.cursor.peek_behind(&token) {
            Some(second) => is_name_token(&second, "function") && !second.after_break,
            None => false,
        }
    }

    /// Whether what was read is a label (13.13): a name without parentheses, with a `:` ahead.
    fn is_label(&self, part: &Operand) -> bool
        ensures label { OnTrue result ((kind_of part.now.cover.node ≡ Kind.Identifier) × (is_group part.now.rank ≡ false) × Sees self.now.cursor.text TokenClass.Punctuator (codes ":") self.now.cursor.last) }
        ensures no_label { OnFalse result (kind_of part.now.cover.node ≡ Kind.Identifier → is_group part.now.rank ≡ false → Misses self.now.cursor.text TokenClass.Punctuator (codes ":") self.now.cursor.last) }
    {
        if !part.is_ungrouped(Kind::Identifier) {
            return false;
        }
        self.sees_punctuator(":")
    }

    /// Reads the end of an ExpressionStatement (13.5) after its expression; it is a directive where one may stand
    /// (14.1.1).
    fn expression_statement(
        &mut self,
        part: Operand,
        context: StatementContext,
        high: u32,
    ) -> Result<MeasuredNode, Fault>
        ensures text { self.new.cursor.text ≡ self.old.cursor.text }
        ensures forward { self.old.cursor.last.stop ≤ self.new.cursor.last.stop }
        ensures waits { (base : Parts) → self.old.tree ≡ push base part.cover.node → IfOk result (λ n. self.new.tree ≡ push base n) }
        ensures same_open { self.new.cursor.opened ≡ self.old.cursor.opened }
        ensures same_pairs { self.new.pairs.items ≡ self.old.pairs.items }
        ensures made { IfOk result (λ n. n ≡ expression_statement_node (context.is_item && (context.is_prologue && is_lone_string part)) part.start self.new.cursor.last.stop part.cover.node) }
        ensures fits { IfOk result (λ n. (part.cover.shape.is_expression ≡ true) × (expression_statement_height part ≤ high)) }
        ensures ends { IfOk result (λ _. IsEnd self.old.cursor.text (StatementEnd.AfterExpression part.edge) self.old.cursor.last self.new.cursor.last) }
        ensures failed { IfErr result (NoExpressionStatement self.old.cursor part high) }
        ensures refused { IfErr result (IsRefusal self.new.cursor.text) }
    {
        let start = part.start;
        let edge = part.edge;
        let mut flags = Flags::PLAIN;
        flags.directive = context.is_item && context.is_prologue && part.is_lone_string();
        let nodes = MeasuredParts::one(self.into_expression(part)?);
        self.cursor.semicolon(StatementEnd::AfterExpression(edge))?;
        let span = span_from(&self.cursor, start);
        finish_node(
            &mut self.tree,
            Kind::ExpressionStatement,
            "",
            flags,
            span,
            nodes,
            high,
        )
    }

    /// Which `for` it is, by the token after what stands first in its parentheses (13.7).
    fn for_kind(&self) -> Result<StatementKind, Fault>
        ensures followed { IfOk result (KindFollowed self.now.cursor.text self.now.cursor.last) }
        ensures unfollowed { IfErr result (λ _. KindUnfollowed self.now.cursor.text self.now.cursor.last) }
        ensures refused { IfErr result (IsRefusal self.now.cursor.text) }
    {
        if self.sees_punctuator(";") {
            return Ok(StatementKind::ForLoop);
        }
        if self.sees_word("in") {
            return Ok(StatementKind::ForIn);
        }
        if self.sees_word("of") {
            return Ok(StatementKind::ForOf);
        }
        Err(self.syntax_error())
    }
}
