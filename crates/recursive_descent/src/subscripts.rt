//! Members, calls, tagged templates and optional chains (ECMA-262 12.3.2 to 12.3.11).
#![tactic(auto, using(parser_tables::proofs::Refusals::refusals, crate::proofs::reading::AdvancedTokens::moves))]

ghost use Rattle.recursive_descent.specs.Complete.{SubscriptComplete, ArgumentsComplete, ChainComplete};
ghost use Rattle.std.specs.Prelude.{◌≡◌, ◌≤◌, IfOk, IfErr, IfSome, Bool, codes, false};
ghost use Rattle.std.specs.Bool.{OnTrue, OnFalse};
ghost use Rattle.tokens.specs.Scanned.{token_of};
ghost use Rattle.tokens.specs.declared.token.Goal.TheVariants.{Div};
ghost use Rattle.language.specs.Token.{as_read};
ghost use Rattle.token_cursor.specs.CursorState.{Passes};
ghost use Rattle.recursive_descent.specs.Follows.{LinkedAt, NotLinked};
ghost use Rattle.recursive_descent.specs.Subscripts.{link_kind, link_flags, link_rank, link_by};
ghost use Rattle.token_cursor.specs.Seen.{SeesBy, MissesBy, Sees};
ghost use Rattle.parser_tables.specs.Tests.{is_link, is_template};
ghost use Rattle.recursive_descent.specs.Soundness.{Adds, Links, ArgumentsAt, GoesOn};
ghost use Rattle.tree.specs.Tree.{height, parts_height, Parts, push, join};
ghost use Rattle.token_cursor.specs.Refusals.{IsRefusal};
ghost use Rattle.recursive_descent.specs.Spelled.{OfLanguage, AllOfLanguage};

use crate::parser::Parser;
use crate::primary::token_node;
use crate::private_names::member_kind;
use crate::token_tests::span_from;
use covers::ListKind;
use grammar::accepts_rank;
use language::{Edge, Rank};
use parser_tables::{ExpressionContext, Operand, finish_list, infix_operator_of};
use productions::{MeasuredParts, finish_node, finish_plain};
use source_text::Fault;
use tokens::{Goal, Token, TokenClass};
use tree::{Flags, Kind};

/// What follows the object of a member, a callee or a tag.
#[derive(Clone, Copy)]
enum Subscript {
    // A name behind a `.` or `?.` that was passed.
    Name,
    Index,
    Arguments,
    Quasi,
}

impl Subscript {
    /// The kind of its node.
    fn kind(self) -> Kind
        ensures { result ≡ link_kind self }
    {
        match self {
            Subscript::Arguments => Kind::CallExpression,
            Subscript::Quasi => Kind::TaggedTemplateExpression,
            _ => Kind::MemberExpression,
        }
    }

    /// The flags of its node.
    fn flags(self, optional: bool) -> Flags
        ensures { result ≡ link_flags self optional }
    {
        let mut flags = Flags::PLAIN;
        flags.computed = matches!(self, Subscript::Index);
        flags.optional = optional;
        flags
    }

    /// The symbol of its node: a call's if the node begins with a call (`is_call`), else a member's.
    fn rank(self, is_call: bool) -> Rank
        ensures { result ≡ link_rank self is_call }
    {
        match self {
            Subscript::Arguments => Rank::Call,
            _ if is_call => Rank::Call,
            _ => Rank::Member,
        }
    }
}

/// What the token begins after an object, if anything; a name stands after a `.` or `?.` that was passed.
fn subscript_of(token: &Token<'_>) -> Option<Subscript>
    ensures { result ≡ link_by token.now.class token.now.text.now }
{
    match token.class {
        TokenClass::Template => Some(Subscript::Quasi),
        TokenClass::Punctuator => match token.text.as_bytes() {
            b"(" => Some(Subscript::Arguments),
            b"[" => Some(Subscript::Index),
            _ => None,
        },
        TokenClass::IdentifierName | TokenClass::Keyword | TokenClass::PrivateName => Some(
            Subscript::Name,
        ),
        _ => None,
    }
}

/// Whether the token goes on with an optional chain (12.3.9).
fn is_chain_part(token: &Token<'_>) -> bool
    ensures { result ≡ is_link (as_read (token_of token.now)) }
{
    match infix_operator_of(token) {
        Some(operator) => operator.continues_chain(),
        None => false,
    }
}

/// Whether the token is of the class of templates.
fn is_template(token: &Token<'_>) -> bool
    ensures { result ≡ is_template (as_read (token_of token.now)) }
{
    match token.class {
        TokenClass::Template => true,
        _ => false,
    }
}

impl<'t, 's> Parser<'t, 's> {
    /// Whether the token ahead goes on with an optional chain (12.3.9).
    fn sees_chain_part(&self) -> bool
        ensures seen { OnTrue result (SeesBy self.now.cursor.text Div is_link self.now.cursor.last) }
        ensures missed { OnFalse result (MissesBy self.now.cursor.text Div is_link self.now.cursor.last) }
    {
        match self.cursor.peek(Goal::Div) {
            Some(token) => is_chain_part(&token),
            None => false,
        }
    }

    /// What stands ahead, if it is arguments or an index.
    fn peek_enclosed(&self) -> Option<Subscript>
        ensures linked { IfSome result (λ found. LinkedAt self.now.cursor self.now.cursor found false) }
    {
        let Some(token) = self.cursor.peek(Goal::Div) else {
            return None;
        };
        let Some(found) = subscript_of(&token) else {
            return None;
        };
        match found {
            Subscript::Arguments | Subscript::Index => Some(found),
            _ => None,
        }
    }

    /// Goes past a `.` or `?.`: answers what follows the object, and whether a `?.` stood before it.
    fn subscript_start(&mut self) -> Result<(Subscript, bool), Fault>
        ensures text { self.new.cursor.text ≡ self.old.cursor.text }
        ensures forward { self.old.cursor.last.stop ≤ self.new.cursor.last.stop }
        ensures same_tree { self.new.tree ≡ self.old.tree }
        ensures same_open { self.new.cursor.opened ≡ self.old.cursor.opened }
        ensures same_pairs { self.new.pairs.items ≡ self.old.pairs.items }
        ensures linked { IfOk result (λ found. LinkedAt self.old.cursor self.new.cursor found.0 found.1) }
        ensures failed { IfErr result (NotLinked self.old.cursor self.new.cursor) }
        ensures refused { IfErr result (IsRefusal self.new.cursor.text) }
    {
        let optional = self.accept_punctuator("?.");
        if !optional && self.accept_punctuator(".") {
            return Ok((Subscript::Name, false));
        }
        let Some(token) = self.cursor.peek(Goal::Div) else {
            return Err(self.syntax_error());
        };
        match subscript_of(&token) {
            Some(Subscript::Quasi) if optional => Err(self.syntax_error()),
            Some(Subscript::Name) if !optional => Err(self.syntax_error()),
            Some(found) => Ok((found, optional)),
            None => Err(self.syntax_error()),
        }
    }

    /// What was read with a member, arguments or a template behind it, which stand ahead.
    #[cycle(grammar)]
    #[inline(never)]
    pub(crate) fn subscript(&mut self, left: Operand, high: u32) -> Result<Operand, Fault>
        ensures text { self.new.cursor.text ≡ self.old.cursor.text }
        ensures forward { self.old.cursor.last.stop ≤ self.new.cursor.last.stop }
        ensures waits { (base : Parts) → self.old.tree ≡ push base left.cover.node → IfOk result (λ part. self.new.tree ≡ push base part.cover.node) }
        ensures passes { IfOk result (λ _. Passes self.old.cursor self.new.cursor) }
        ensures derived { IfOk result (λ part. Adds self.old.cursor self.new.cursor self.old.pairs.items self.new.pairs.items (Links self.old.cursor.text left part)) }
        ensures low { IfOk result (λ part. height part.cover.node ≤ high) }
        ensures own { IfOk result (λ part. OfLanguage self.old.cursor.text left.cover.node → OfLanguage self.old.cursor.text part.cover.node) }
        ensures complete { SubscriptComplete self.old.cursor self.new.cursor self.old.pairs.items self.new.pairs.items high left result }
        ensures refused { IfErr result (IsRefusal self.new.cursor.text) }
    {
        if self.sees_punctuator(".") {
            return self.dot_member(left, high);
        }
        match self.peek_enclosed() {
            Some(Subscript::Arguments) => self.call_expression(left, high),
            Some(Subscript::Index) => self.index_member(left, high),
            _ => self.other_subscript(left, high),
        }
    }

    /// Reads a member by name (12.3.2), with its `.` ahead, from the object before it.
    #[inline(never)]
    pub(crate) fn dot_member(&mut self, left: Operand, high: u32) -> Result<Operand, Fault>
        requires dot { Sees self.old.cursor.text TokenClass.Punctuator (codes ".") self.old.cursor.last }
        ensures text { self.new.cursor.text ≡ self.old.cursor.text }
        ensures forward { self.old.cursor.last.stop ≤ self.new.cursor.last.stop }
        ensures waits { (base : Parts) → self.old.tree ≡ push base left.cover.node → IfOk result (λ part. self.new.tree ≡ push base part.cover.node) }
        ensures passes { IfOk result (λ _. Passes self.old.cursor self.new.cursor) }
        ensures derived { IfOk result (λ part. Adds self.old.cursor self.new.cursor self.old.pairs.items self.new.pairs.items (Links self.old.cursor.text left part)) }
        ensures low { IfOk result (λ part. height part.cover.node ≤ high) }
        ensures own { IfOk result (λ part. OfLanguage self.old.cursor.text left.cover.node → OfLanguage self.old.cursor.text part.cover.node) }
        ensures complete { SubscriptComplete self.old.cursor self.new.cursor self.old.pairs.items self.new.pairs.items high left result }
        ensures refused { IfErr result (IsRefusal self.new.cursor.text) }
    {
        if !accepts_rank(Rank::Call, left.rank) {
            return Err(self.syntax_error());
        }
        let start = left.start;
        let is_call = matches!(left.rank, Rank::Call);
        let inner = high.saturating_sub(1);
        let mut nodes = MeasuredParts::one(self.into_expression(left)?);
        self.expect_punctuator(".")?;
        let name = self.member_name()?;
        nodes.push(token_node(&mut self.tree, member_kind(&name), name, inner)?)?;
        let span = span_from(&self.cursor, start);
        let flags = Subscript::Name.flags(false);
        let node = finish_node(
            &mut self.tree,
            Kind::MemberExpression,
            "",
            flags,
            span,
            nodes,
            high,
        )?;
        Ok(Operand::plain(node, Subscript::Name.rank(is_call), Edge::Other))
    }

    /// Reads a call (12.3.6), with its `(` ahead, from the callee before it.
    #[cycle(grammar)]
    #[inline(never)]
    pub(crate) fn call_expression(&mut self, left: Operand, high: u32) -> Result<Operand, Fault>
        requires calls { LinkedAt self.old.cursor self.old.cursor Subscript.Arguments false }
        ensures text { self.new.cursor.text ≡ self.old.cursor.text }
        ensures forward { self.old.cursor.last.stop ≤ self.new.cursor.last.stop }
        ensures waits { (base : Parts) → self.old.tree ≡ push base left.cover.node → IfOk result (λ part. self.new.tree ≡ push base part.cover.node) }
        ensures passes { IfOk result (λ _. Passes self.old.cursor self.new.cursor) }
        ensures derived { IfOk result (λ part. Adds self.old.cursor self.new.cursor self.old.pairs.items self.new.pairs.items (Links self.old.cursor.text left part)) }
        ensures low { IfOk result (λ part. height part.cover.node ≤ high) }
        ensures own { IfOk result (λ part. OfLanguage self.old.cursor.text left.cover.node → OfLanguage self.old.cursor.text part.cover.node) }
        ensures complete { SubscriptComplete self.old.cursor self.new.cursor self.old.pairs.items self.new.pairs.items high left result }
        ensures refused { IfErr result (IsRefusal self.new.cursor.text) }
    {
        if !accepts_rank(Rank::Call, left.rank) {
            return Err(self.syntax_error());
        }
        let start = left.start;
        let callee = self.into_expression(left)?;
        let arguments = self.arguments(high.saturating_sub(1))?;
        let mut nodes = MeasuredParts::one(callee);
        nodes.append(arguments)?;
        let span = span_from(&self.cursor, start);
        let node = finish_plain(&mut self.tree, Kind::CallExpression, span, nodes, high)?;
        Ok(Operand::plain(node, Rank::Call, Edge::Other))
    }

    /// Reads a member by index (12.3.2), with its `[` ahead, from the object before it.
    #[cycle(grammar)]
    #[inline(never)]
    fn index_member(&mut self, left: Operand, high: u32) -> Result<Operand, Fault>
        requires indexes { LinkedAt self.old.cursor self.old.cursor Subscript.Index false }
        ensures text { self.new.cursor.text ≡ self.old.cursor.text }
        ensures forward { self.old.cursor.last.stop ≤ self.new.cursor.last.stop }
        ensures waits { (base : Parts) → self.old.tree ≡ push base left.cover.node → IfOk result (λ part. self.new.tree ≡ push base part.cover.node) }
        ensures passes { IfOk result (λ _. Passes self.old.cursor self.new.cursor) }
        ensures derived { IfOk result (λ part. Adds self.old.cursor self.new.cursor self.old.pairs.items self.new.pairs.items (Links self.old.cursor.text left part)) }
        ensures low { IfOk result (λ part. height part.cover.node ≤ high) }
        ensures own { IfOk result (λ part. OfLanguage self.old.cursor.text left.cover.node → OfLanguage self.old.cursor.text part.cover.node) }
        ensures complete { SubscriptComplete self.old.cursor self.new.cursor self.old.pairs.items self.new.pairs.items high left result }
        ensures refused { IfErr result (IsRefusal self.new.cursor.text) }
    {
        if !accepts_rank(Rank::Call, left.rank) {
            return Err(self.syntax_error());
        }
        let start = left.start;
        let is_call = matches!(left.rank, Rank::Call);
        let inner = high.saturating_sub(1);
        let mut nodes = MeasuredParts::one(self.into_expression(left)?);
        self.expect_punctuator("[")?;
        let index = self.expression(ExpressionContext::EXPRESSION, inner)?;
        nodes.push(self.into_expression(index)?)?;
        self.expect_punctuator("]")?;
        let span = span_from(&self.cursor, start);
        let flags = Subscript::Index.flags(false);
        let node = finish_node(
            &mut self.tree,
            Kind::MemberExpression,
            "",
            flags,
            span,
            nodes,
            high,
        )?;
        Ok(Operand::plain(node, Subscript::Index.rank(is_call), Edge::Other))
    }

    /// Reads a tagged template, what stands after `?.`, or another member or call, from the expression before it.
    #[cycle(grammar)]
    #[inline(never)]
    fn other_subscript(&mut self, left: Operand, high: u32) -> Result<Operand, Fault>
        ensures text { self.new.cursor.text ≡ self.old.cursor.text }
        ensures forward { self.old.cursor.last.stop ≤ self.new.cursor.last.stop }
        ensures waits { (base : Parts) → self.old.tree ≡ push base left.cover.node → IfOk result (λ part. self.new.tree ≡ push base part.cover.node) }
        ensures passes { IfOk result (λ _. Passes self.old.cursor self.new.cursor) }
        ensures derived { IfOk result (λ part. Adds self.old.cursor self.new.cursor self.old.pairs.items self.new.pairs.items (Links self.old.cursor.text left part)) }
        ensures low { IfOk result (λ part. height part.cover.node ≤ high) }
        ensures own { IfOk result (λ part. OfLanguage self.old.cursor.text left.cover.node → OfLanguage self.old.cursor.text part.cover.node) }
        ensures complete { SubscriptComplete self.old.cursor self.new.cursor self.old.pairs.items self.new.pairs.items high left result }
        ensures refused { IfErr result (IsRefusal self.new.cursor.text) }
    {
        if !accepts_rank(Rank::Call, left.rank) {
            return Err(self.syntax_error());
        }
        let start = left.start;
        let is_call = matches!(left.rank, Rank::Call);
        let mut nodes = MeasuredParts::one(self.into_expression(left)?);
        let inner = high.saturating_sub(1);
        let (found, optional) = self.subscript_start()?;
        match found {
            Subscript::Name => {
                let name = self.member_name()?;
                nodes.push(token_node(&mut self.tree, member_kind(&name), name, inner)?)?;
            }
            Subscript::Index => {
                self.expect_punctuator("[")?;
                let index = self.expression(ExpressionContext::EXPRESSION, inner)?;
                nodes.push(self.into_expression(index)?)?;
                self.expect_punctuator("]")?;
            }
            Subscript::Arguments => nodes.append(self.arguments(inner)?)?,
            Subscript::Quasi => {
                let list = self.open(ListKind::Template, inner.saturating_sub(1))?;
                let list = self.list(list, inner.saturating_sub(1))?;
                nodes.push(finish_list(&mut self.tree, list, inner)?.cover.node)?;
            }
        }
        let span = span_from(&self.cursor, start);
        let node = finish_node(
            &mut self.tree,
            found.kind(),
            "",
            found.flags(optional),
            span,
            nodes,
            high,
        )?;
        Ok(Operand::plain(node, found.rank(is_call), Edge::Other))
    }

    /// Arguments in their parentheses, which stand ahead (12.3.8).
    #[cycle(grammar)]
    #[inline(never)]
    pub(crate) fn arguments(&mut self, high: u32) -> Result<MeasuredParts, Fault>
        ensures text { self.new.cursor.text ≡ self.old.cursor.text }
        ensures forward { self.old.cursor.last.stop ≤ self.new.cursor.last.stop }
        ensures waits { IfOk result (λ nodes. self.new.tree ≡ join self.old.tree nodes) }
        ensures passes { IfOk result (λ _. Passes self.old.cursor self.new.cursor) }
        ensures derived { IfOk result (λ nodes. Adds self.old.cursor self.new.cursor self.old.pairs.items self.new.pairs.items (ArgumentsAt self.old.cursor.text nodes)) }
        ensures low { IfOk result (λ nodes. parts_height nodes ≤ high) }
        ensures own { IfOk result (λ nodes. AllOfLanguage self.old.cursor.text nodes) }
        ensures complete { ArgumentsComplete self.old.cursor self.new.cursor self.old.pairs.items self.new.pairs.items high result }
        ensures refused { IfErr result (IsRefusal self.new.cursor.text) }
    {
        let list = self.open(ListKind::Arguments, high)?;
        Ok(self.list(list, high)?.nodes)
    }

    /// An optional chain (12.3.9) from what stands before its first `?.`, which stands ahead.
    #[cycle(grammar)]
    #[inline(never)]
    pub(crate) fn optional_chain(&mut self, left: Operand, high: u32) -> Result<Operand, Fault>
        requires chains { Sees self.old.cursor.text TokenClass.Punctuator (codes "?.") self.old.cursor.last }
        ensures text { self.new.cursor.text ≡ self.old.cursor.text }
        ensures forward { self.old.cursor.last.stop ≤ self.new.cursor.last.stop }
        ensures waits { (base : Parts) → self.old.tree ≡ push base left.cover.node → IfOk result (λ part. self.new.tree ≡ push base part.cover.node) }
        ensures passes { IfOk result (λ _. Passes self.old.cursor self.new.cursor) }
        ensures derived { IfOk result (λ part. Adds self.old.cursor self.new.cursor self.old.pairs.items self.new.pairs.items (λ o m e Q. (i : Bool) → GoesOn self.old.cursor.text i left part o m e Q)) }
        ensures rank { IfOk result (λ part. part.rank ≡ Rank.LeftHandSide) }
        ensures low { IfOk result (λ part. height part.cover.node ≤ high) }
        ensures own { IfOk result (λ part. OfLanguage self.old.cursor.text left.cover.node → OfLanguage self.old.cursor.text part.cover.node) }
        ensures complete { ChainComplete self.old.cursor self.new.cursor self.old.pairs.items self.new.pairs.items high left result }
        ensures refused { IfErr result (IsRefusal self.new.cursor.text) }
    {
        let start = left.start;
        let inner = high.saturating_sub(1);
        let mut part = self.subscript(left, inner)?;
        'links: while self.sees_chain_part() {
            if self.sees_template() {
                return Err(self.syntax_error());
            }
            part = self.subscript(part, inner)?;
        }
        let nodes = MeasuredParts::one(self.into_expression(part)?);
        let span = span_from(&self.cursor, start);
        let node = finish_plain(&mut self.tree, Kind::ChainExpression, span, nodes, high)?;
        Ok(Operand::plain(node, Rank::LeftHandSide, Edge::Other))
    }

    /// Whether a template stands ahead.
    fn sees_template(&self) -> bool
        ensures seen { OnTrue result (SeesBy self.now.cursor.text Div is_template self.now.cursor.last) }
        ensures missed { OnFalse result (MissesBy self.now.cursor.text Div is_template self.now.cursor.last) }
    {
        match self.cursor.peek(Goal::Div) {
            Some(token) => is_template(&token),
            None => false,
        }
    }
}
