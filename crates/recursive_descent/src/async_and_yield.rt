//! What begins with `async` or `yield` (ECMA-262, 13th edition, 15.5, 15.8, 15.9).
#![tactic(auto, using(parser_tables::proofs::Refusals::refusals, crate::proofs::reading::AdvancedTokens::moves))]

ghost use Rattle.std.specs.Prelude.{◌≡◌, ◌≤◌, false, codes, IfOk, IfErr};
ghost use Rattle.token_cursor.specs.CursorState.{IsPlaceHere, Passes};
ghost use Rattle.token_cursor.specs.Refusals.{IsRefusal};
ghost use Rattle.tree.specs.Tree.{height, none, push, Parts, join};
ghost use Rattle.language.specs.declared.Rank.TheVariants.{Call};
ghost use Rattle.language.specs.declared.Edge.TheVariants.{Other};
ghost use Rattle.parser_tables.specs.Operands.{plain_part};
ghost use Rattle.std.specs.Bool.{OnTrue, OnFalse};
ghost use Rattle.tokens.specs.Scanned.{token_of};
ghost use Rattle.language.specs.Token.{Token as Read, as_read};
ghost use Rattle.token_cursor.specs.CursorState.{IsAhead};
ghost use Rattle.language.specs.Edges.{begins_no_operand};
ghost use Rattle.token_cursor.specs.Seen.{ReadsHere, SeesBy, MissesBy};
ghost use Rattle.token_cursor.specs.SourceText.{SeenNext};
ghost use Rattle.recursive_descent.specs.Soundness.{Adds, ArrowAt, WordedAt};
ghost use Rattle.recursive_descent.specs.Later.{AsyncAt, AsyncBegun, AsyncComplete, AsyncCallComplete, MaySeeOperand, NamedAsync, SeesNoOperand, async_call_node};
ghost use Rattle.parser_tables.specs.Outcomes.{YieldsWhere};
ghost use Rattle.recursive_descent.specs.Complete.{ArrowComplete, KeywordExpressionComplete};

use crate::parser::Parser;
use crate::private_names::rare_token_node;
use crate::token_tests::span_from;
use covers::{ListBuilder, ListKind};
use grammar::accepts_rank;
use language::{Edge, Rank, Start};
use parser_tables::{
    ExpressionContext, ExpressionStart, FunctionOrClass, Operand, begins_no_operand, span_of,
};
use productions::{MeasuredNode, MeasuredParts, finish_node, finish_plain};
use source_text::Fault;
use token_cursor::{Cursor, is_identifier, is_name_token, is_punctuator};
use tokens::{Goal, Token, TokenClass};
use tree::{Flags, Form, Kind, TreeBuilder};

/// What an expression is that begins with `async`.
#[derive(Clone, Copy)]
enum AsyncStart {
    // `function` stands behind it.
    Function,
    // The parameter of an arrow function, and its `=>`.
    Parameter,
    // Parentheses: of an arrow function's parameters, or of a call.
    Parentheses,
    // It is a name.
    Name,
}

impl<'t, 's> Parser<'t, 's> {
    /// What begins at a position with an `async` that was passed.
    fn async_start(&self, position: ExpressionContext) -> AsyncStart
        ensures { AsyncBegun self.now.cursor.text position self.now.cursor.last result }
    {
        let Some(token) = self.cursor.peek(Goal::Div) else {
            return AsyncStart::Name;
        };
        if token.after_break {
            return AsyncStart::Name;
        }
        if is_name_token(&token, "function") && !matches!(position.start, Start::Statement) {
            return AsyncStart::Function;
        }
        if !accepts_rank(position.rank, Rank::Assignment) {
            return AsyncStart::Name;
        }
        if is_punctuator(&token, "(") {
            return AsyncStart::Parentheses;
        }
        match is_identifier(&token) && self.is_before_arrow(&token) {
            true => AsyncStart::Parameter,
            false => AsyncStart::Name,
        }
    }

    /// Whether `=>` stands behind the token ahead, on its line.
    fn is_before_arrow(&self, token: &Token<'s>) -> bool
        requires { IsAhead Goal.Div self.now.cursor.text self.now.cursor.last.stop (token_of token.now) }
        ensures seen { OnTrue result ((m : Read) × (e : Read) × SeenNext self.now.cursor.text self.now.cursor.last (as_read (token_of token.now)) m × ReadsHere self.now.cursor.text TokenClass.Punctuator (codes "=>") m e × (e.after_break ≡ false)) }
        ensures missed { OnFalse result ((m e : Read) → SeenNext self.now.cursor.text self.now.cursor.last (as_read (token_of token.now)) m → ReadsHere self.now.cursor.text TokenClass.Punctuator (codes "=>") m e → e.after_break ≡ false → ⊥) }
    {
        match self.cursor.peek_behind(token) {
            Some(second) => is_punctuator(&second, "=>") && !second.after_break,
            None => false,
        }
    }

    /// Reads what begins with an `async` that was passed: an async function, an arrow function, a call, or the name alone.
    #[cycle(grammar)]
    #[inline(never)]
    pub(crate) fn async_expression(
        &mut self,
        position: ExpressionContext,
        high: u32,
    ) -> Result<Operand, Fault>
        ensures text { self.new.cursor.text ≡ self.old.cursor.text }
        ensures forward { self.old.cursor.last.stop ≤ self.new.cursor.last.stop }
        ensures waits { IfOk result (λ made. self.new.tree ≡ push self.old.tree made.cover.node) }
        ensures derived { IfOk result (λ made. Adds self.old.cursor self.new.cursor self.old.pairs.items self.new.pairs.items (NamedAsync self.old.cursor.text position made)) }
        ensures low { IfOk result (λ made. height made.cover.node ≤ high) }
        ensures complete { AsyncComplete self.old.cursor self.new.cursor self.old.pairs.items self.new.pairs.items high position result }
        ensures refused { IfErr result (IsRefusal self.new.cursor.text) }
    {
        let token = self.cursor.last_token();
        let start = token.start;
        match self.async_start(position) {
            AsyncStart::Function => {
                let closure = FunctionOrClass::Function(self.function_form(Form::Async)?);
                let node = self.function_or_class(closure, start, high)?;
                Ok(Operand::plain(node, Rank::Primary, Edge::Other))
            }
            AsyncStart::Parameter => {
                let name = self.identifier()?;
                let parameter = rare_token_node(&mut self.tree, Kind::Identifier, name, high)?;
                self.arrow_of_name(parameter, start, Form::Async, position.has_in, high)
            }
            AsyncStart::Parentheses => self.async_call(token, position, high),
            AsyncStart::Name => {
                let node = rare_token_node(&mut self.tree, Kind::Identifier, token, high)?;
                if self.sees_arrow() && accepts_rank(position.rank, Rank::Assignment) {
                    return self.arrow_of_name(node, start, Form::Init, position.has_in, high);
                }
                Ok(Operand::plain(node, Rank::Primary, Edge::Other))
            }
        }
    }

    /// An arrow function of one parameter, a name, from its `=>` on. It owns the list of parameters, so that `async_expression` has a small
    /// frame.
    #[cycle(grammar)]
    #[inline(never)]
    fn arrow_of_name(
        &mut self,
        parameter: MeasuredNode,
        start: usize,
        form: Form,
        has_in: bool,
        high: u32,
    ) -> Result<Operand, Fault>
        ensures text { self.new.cursor.text ≡ self.old.cursor.text }
        ensures forward { self.old.cursor.last.stop ≤ self.new.cursor.last.stop }
        ensures waits { (base : Parts) → self.old.tree ≡ push base parameter → IfOk result (λ made. self.new.tree ≡ push base made.cover.node) }
        ensures passes { IfOk result (λ _. Passes self.old.cursor self.new.cursor) }
        ensures derived { IfOk result (λ made. Adds self.old.cursor self.new.cursor self.old.pairs.items self.new.pairs.items (ArrowAt self.old.cursor.text form has_in (push none parameter) start made)) }
        ensures low { IfOk result (λ made. height made.cover.node ≤ high) }
        ensures complete { ArrowComplete self.old.cursor self.new.cursor self.old.pairs.items self.new.pairs.items high (push none parameter) start form has_in result }
        ensures refused { IfErr result (IsRefusal self.new.cursor.text) }
    {
        let parameters = MeasuredParts::one(parameter);
        self.arrow_function(parameters, start, form, has_in, high)
    }

    /// Reads the parentheses behind an `async` that was passed: an arrow function's parameters, with the function, or a call's arguments
    /// (CoverCallExpressionAndAsyncArrowHead, 15.9).
    #[cycle(grammar)]
    #[inline(never)]
    fn async_call(
        &mut self,
        token: Token<'s>,
        position: ExpressionContext,
        high: u32,
    ) -> Result<Operand, Fault>
        ensures text { self.new.cursor.text ≡ self.old.cursor.text }
        ensures forward { self.old.cursor.last.stop ≤ self.new.cursor.last.stop }
        ensures waits { IfOk result (λ made. self.new.tree ≡ push self.old.tree made.cover.node) }
        ensures passes { IfOk result (λ _. Passes self.old.cursor self.new.cursor) }
        ensures derived { IfOk result (λ made. Adds self.old.cursor self.new.cursor self.old.pairs.items self.new.pairs.items (AsyncAt self.old.cursor.text position token.entry made)) }
        ensures low { IfOk result (λ made. height made.cover.node ≤ high) }
        ensures complete { AsyncCallComplete self.old.cursor self.new.cursor self.old.pairs.items self.new.pairs.items high token.entry position result }
        ensures refused { IfErr result (IsRefusal self.new.cursor.text) }
    {
        let inner = high.saturating_sub(1);
        let list = self.open(ListKind::AsyncArguments, inner)?;
        let list = self.list(list, inner)?;
        if self.sees_arrow() {
            let at = self.cursor.next_start();
            let parameters = list.into_parameters(&mut self.tree, at)?;
            let has_in = position.has_in;
            return self.arrow_function(parameters, token.start, Form::Async, has_in, high);
        }
        call_of_async(&self.cursor, &mut self.tree, token, list, high)
    }

    /// Whether behind `yield` no operand begins ahead, whichever goal reads the token there.
    fn sees_no_operand(&self) -> bool
        ensures seen { OnTrue result (SeesNoOperand self.now.cursor.text self.now.cursor.last) }
        ensures missed { OnFalse result (MaySeeOperand self.now.cursor.text self.now.cursor.last) }
    {
        if self.reads_no_operand(Goal::Div) {
            return true;
        }
        if self.reads_no_operand(Goal::RegExp) {
            return true;
        }
        self.reads_no_operand(Goal::TemplateTail)
    }

    /// Whether the token that the goal reads ahead begins no operand.
    fn reads_no_operand(&self, goal: Goal) -> bool
        ensures seen { OnTrue result (SeesBy self.now.cursor.text goal begins_no_operand self.now.cursor.last) }
        ensures missed { OnFalse result (MissesBy self.now.cursor.text goal begins_no_operand self.now.cursor.last) }
    {
        match self.cursor.peek(goal) {
            Some(token) => begins_no_operand(&token),
            None => false,
        }
    }

    /// Reads the rest of a YieldExpression after `yield` (15.5).
    #[cycle(grammar)]
    #[inline(never)]
    pub(crate) fn yield_expression(
        &mut self,
        token: Token<'s>,
        position: ExpressionContext,
        high: u32,
    ) -> Result<Operand, Fault>
        ensures text { self.new.cursor.text ≡ self.old.cursor.text }
        ensures forward { self.old.cursor.last.stop ≤ self.new.cursor.last.stop }
        ensures waits { IfOk result (λ made. self.new.tree ≡ push self.old.tree made.cover.node) }
        ensures derived { IfOk result (λ made. Adds self.old.cursor self.new.cursor self.old.pairs.items self.new.pairs.items (WordedAt self.old.cursor.text position token.entry ExpressionStart.Yield made)) }
        ensures low { IfOk result (λ made. height made.cover.node ≤ high) }
        ensures complete { KeywordExpressionComplete self.old.cursor self.new.cursor self.old.pairs.items self.new.pairs.items high token.entry ExpressionStart.Yield position result }
        ensures refused { IfErr result (IsRefusal self.new.cursor.text) }
    {
        let kind = Kind::YieldExpression;
        let mut nodes = MeasuredParts::new();
        if self.sees_no_operand() {
            nodes.push_gap(&mut self.tree)?;
            let span = span_from(&self.cursor, token.start);
            let node = finish_plain(&mut self.tree, kind, span, nodes, high)?;
            return Ok(Operand::plain(node, Rank::Assignment, Edge::Arrow));
        }
        let mut flags = Flags::PLAIN;
        flags.form = self.starred(Form::Init);
        let place = ExpressionContext::at(Rank::Assignment, position.has_in);
        let operand = self.expression(place, high.saturating_sub(1))?;
        let edge = operand.edge;
        nodes.push(self.into_expression(operand)?)?;
        let span = span_from(&self.cursor, token.start);
        let node = finish_node(&mut self.tree, kind, "", flags, span, nodes, high)?;
        Ok(Operand::plain(node, Rank::Assignment, edge))
    }
}

/// The call of a function that is called `async`, with these arguments (13.3.6).
fn call_of_async<'s>(
    cursor: &Cursor<'_, 's>,
    tree: &mut TreeBuilder<'s>,
    token: Token<'s>,
    list: ListBuilder,
    high: u32,
) -> Result<Operand, Fault>
    ensures made { let call = async_call_node (token_of token.entry) cursor.now.last.stop list.nodes in YieldsWhere (plain_part call Call Other) (IsPlaceHere cursor.now) list.seen.shape.is_expression (height call) high result }
    ensures waits { (base : Parts) → tree.old ≡ join base list.nodes → IfOk result (λ part. tree.new ≡ push base part.cover.node) }
    ensures refused { IfErr result (IsRefusal cursor.now.text) }
{
    if !list.seen.shape.is_expression {
        return Err(cursor.syntax_error());
    }
    let inner = high.saturating_sub(1);
    let arguments = list.nodes;
    let text = token.text;
    let kind = Kind::Identifier;
    let at = span_of(&token);
    let callee = MeasuredNode::leaf_before(tree, &arguments, kind, text, at, inner)?;
    let mut nodes = MeasuredParts::one(callee);
    nodes.append(arguments)?;
    let span = span_from(cursor, token.start);
    let node = finish_plain(tree, Kind::CallExpression, span, nodes, high)?;
    Ok(Operand::plain(node, Rank::Call, Edge::Other))
}
