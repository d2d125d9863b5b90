//! Lists (ECMA-262 12.2 to 12.16, 13.3, 13.12, 14.1, 14.6): one loop for all of them, and what each of them lists.
#![tactic(auto, using(parser_tables::proofs::Refusals::refusals, crate::proofs::reading::AdvancedTokens::moves))]

ghost use Rattle.recursive_descent.specs.Complete.{ListComplete, DeclaratorComplete, ItemComplete};
ghost use Rattle.std.specs.Prelude.{◌⊎◌, codes, ◌≡◌, ◌≤◌, ◌&&◌, IfOk, IfErr, true, false, ◌++◌, List as ListOf};
ghost use Rattle.std.specs.Bool.{OnTrue, OnFalse};
ghost use Rattle.token_cursor.specs.CursorState.{IsAhead};
ghost use Rattle.token_cursor.specs.CursorState.{Passes};
ghost use Rattle.parser_tables.specs.Moves.{IsOpened, IsUnseparated};
ghost use Rattle.parser_tables.specs.Items.{after_item, element_item, element_levels};
ghost use Rattle.parser_tables.specs.Outcomes.{BecomesHere, BeginsBy, Yields};
ghost use Rattle.token_cursor.specs.CursorState.{IsSyntaxHere};
ghost use Rattle.tokens.specs.declared.token.Goal.TheVariants.{Div, TemplateTail};
ghost use Rattle.tokens.specs.Scanned.{token_of};
ghost use Rattle.language.specs.Token.{as_read, Token as Read};
ghost use Rattle.tree.specs.Tree.{part_count, height, parts_height, Parts, push, join};
ghost use Rattle.covers.specs.Lists.{is_ended};
ghost use Rattle.parser_tables.specs.Tests.{is_later_part, is_template};
ghost use Rattle.token_cursor.specs.Seen.{ReadsHere, Sees, Misses, MissesBy, SeesBy, TokenHere};
ghost use Rattle.parser_tables.specs.StatementStarts.{case_word};
ghost use Rattle.recursive_descent.specs.Follows.{Semicolons, PassedBefore, MissesEnd, SeesEnd, end_before, NoChunk, ChunkAt, FirstChunkAt, TemplateAt, BegunAt, NotBegun, CommaAt, NoTemplate, FirstMisses, Unopened};
ghost use Rattle.recursive_descent.specs.Arms.{is_apart};
ghost use Rattle.recursive_descent.specs.Soundness.{Adds};
ghost use Rattle.recursive_descent.specs.SoundnessOfLists.{SoFarAt, ListAt, ItemAt, ItemReads, SeenRight};
ghost use Rattle.language.specs.declared.Start.{Start};
ghost use Rattle.tree.specs.declared.kind.Pair.{Pair};
ghost use Rattle.token_cursor.specs.Refusals.{IsLimit, IsRefusal};
ghost use Rattle.tree.specs.Patterns.{pattern_tree};
ghost use Rattle.covers.specs.Shapes.{is_pattern};
ghost use Rattle.recursive_descent.specs.Spelled.{OfLanguage, AllOfLanguage};

use crate::parser::Parser;
use crate::template_elements::{is_later_part, template_element};
use crate::token_tests::span_from;
use covers::{ListBuilder, ListItem, ListKind};
use language::{Edge, Rank};
use parser_tables::{ExpressionContext, Operand, PartialStatement, StatementContext, case_symbols};
use productions::{MeasuredNode, MeasuredParts, finish_plain};
use source_text::Fault;
use token_cursor::Cursor;
use tokens::{Goal, Token, TokenClass};
use tree::{Kind, TreeBuilder};

impl<'t, 's> Parser<'t, 's> {
    /// Goes past what stands before the first item, which is no higher than `high`.
    pub(crate) fn open(&mut self, listed: ListKind, high: u32) -> Result<ListBuilder, Fault>
        ensures text { self.new.cursor.text ≡ self.old.cursor.text }
        ensures forward { self.old.cursor.last.stop ≤ self.new.cursor.last.stop }
        ensures waits { IfOk result (λ list. self.new.tree ≡ join self.old.tree list.nodes) }
        ensures passes { IfOk result (λ _. IsOpened listed → Passes self.old.cursor self.new.cursor) }
        ensures same_open { self.new.cursor.opened ≡ self.old.cursor.opened }
        ensures same_pairs { self.new.pairs.items ≡ self.old.pairs.items }
        ensures listed { IfOk result (λ list. list.listed ≡ listed) }
        ensures begun { IfOk result (BegunAt self.old.cursor self.new.cursor) }
        ensures template { IfOk result (TemplateAt self.old.cursor self.new.cursor) }
        ensures own { IfOk result (λ list. AllOfLanguage self.old.cursor.text list.nodes) }
        ensures not_begun { IfErr result (NotBegun listed self.old.cursor high) }
        ensures untemplated { IfErr result (NoTemplate listed self.old.cursor) }
        ensures unopened { IfErr result (Unopened listed) }
        ensures refused { IfErr result (IsRefusal self.new.cursor.text) }
    {
        let start = self.cursor.next_start();
        let mut list = ListBuilder::new(listed, start);
        match listed.opener() {
            Some(mark) => {
                self.expect_punctuator(mark)?;
            }
            None if matches!(listed, ListKind::Template) => {
                list.push(self.first_template_element(high)?, start)?;
            }
            None => {}
        }
        Ok(list)
    }

    /// Goes past all `;` that stand ahead.
    fn pass_semicolons(&mut self)
        ensures text { self.new.cursor.text ≡ self.old.cursor.text }
        ensures forward { self.old.cursor.last.stop ≤ self.new.cursor.last.stop }
        ensures same_tree { self.new.tree ≡ self.old.tree }
        ensures same_open { self.new.cursor.opened ≡ self.old.cursor.opened }
        ensures same_pairs { self.new.pairs.items ≡ self.old.pairs.items }
        ensures passed { Semicolons self.old.cursor.text self.old.cursor.last self.new.cursor.last }
        ensures missed { Misses self.new.cursor.text TokenClass.Punctuator (codes ";") self.new.cursor.last }
    {
        'empty: while self.accept_punctuator(";") {}
    }

    /// Whether another item stands ahead; in a class body it goes past each `;` before it (14.6).
    fn has_item(&mut self, list: &ListBuilder) -> bool
        ensures text { self.new.cursor.text ≡ self.old.cursor.text }
        ensures forward { self.old.cursor.last.stop ≤ self.new.cursor.last.stop }
        ensures same_tree { self.new.tree ≡ self.old.tree }
        ensures same_open { self.new.cursor.opened ≡ self.old.cursor.opened }
        ensures same_pairs { self.new.pairs.items ≡ self.old.pairs.items }
        ensures passed { PassedBefore list.now.listed self.old.cursor self.new.cursor }
        ensures item { OnTrue result ((is_ended list.now.listed list.now.seen (part_count list.now.nodes) ≡ false) × MissesEnd (end_before list.now.listed) self.new.cursor) }
        ensures first { FirstMisses self.new.cursor.text list.now.listed self.new.cursor.last }
        ensures no_item { OnFalse result ((is_ended list.now.listed list.now.seen (part_count list.now.nodes) ≡ true) ⊎ SeesEnd (end_before list.now.listed) self.new.cursor) }
    {
        if list.is_ended() {
            return false;
        }
        match list.listed {
            ListKind::Members => {
                self.pass_semicolons();
                !self.sees_punctuator("}")
            }
            ListKind::OneParameter => true,
            listed => match listed.closer() {
                Some(mark) => !self.sees_punctuator(mark),
                None => true,
            },
        }
    }

    /// Whether another item may follow the last; it goes past the comma between them.
    fn is_separated(&mut self, list: &mut ListBuilder) -> bool
        ensures text { self.new.cursor.text ≡ self.old.cursor.text }
        ensures forward { self.old.cursor.last.stop ≤ self.new.cursor.last.stop }
        ensures same_tree { self.new.tree ≡ self.old.tree }
        ensures passes { OnTrue result ((IsUnseparated list.old.listed → ⊥) → Passes self.old.cursor self.new.cursor) }
        ensures listed { list.new.listed ≡ list.old.listed }
        ensures separated { list.new ≡ after_item list.old result }
        ensures same_open { self.new.cursor.opened ≡ self.old.cursor.opened }
        ensures same_pairs { self.new.pairs.items ≡ self.old.pairs.items }
        ensures comma { CommaAt self.old.cursor self.new.cursor list.old result }
    {
        if list.is_ended() {
            return false;
        }
        match list.listed {
            ListKind::Members | ListKind::Cases { .. } | ListKind::Template => true,
            _ => {
                let has_comma = self.accept_punctuator(",");
                list.separate(has_comma);
                has_comma
            }
        }
    }

    /// The items of a list, the first of which stands ahead, and what stands behind the last.
    #[cycle(grammar)]
    #[inline(never)]
    pub(crate) fn list(&mut self, list: ListBuilder, high: u32) -> Result<ListBuilder, Fault>
        ensures text { self.new.cursor.text ≡ self.old.cursor.text }
        ensures forward { self.old.cursor.last.stop ≤ self.new.cursor.last.stop }
        ensures waits { (base : Parts) → self.old.tree ≡ join base list.nodes → IfOk result (λ whole. self.new.tree ≡ join base whole.nodes) }
        ensures derived { IfOk result (λ whole. Adds self.old.cursor self.new.cursor self.old.pairs.items self.new.pairs.items (λ o m e Q. (f : Start) (s : Read) (P : ListOf Pair) → SoFarAt self.old.cursor.text f list o s m P → ListAt self.old.cursor.text f whole o s e (P ++ Q))) }
        ensures seen { IfOk result (λ whole. SeenRight list → SeenRight whole) }
        ensures inside { IfOk result (λ whole. list.listed ≡ ListKind.ParenthesizedItems → BeginsBy self.old.cursor whole.inside.start) }
        ensures same { IfOk result (λ whole. (whole.listed ≡ list.listed) × (whole.span.start ≡ list.span.start)) }
        ensures low { IfOk result (λ whole. parts_height list.nodes ≤ high → parts_height whole.nodes ≤ high) }
        ensures own { IfOk result (λ whole. AllOfLanguage self.old.cursor.text list.nodes → AllOfLanguage self.old.cursor.text whole.nodes) }
        ensures complete { ListComplete self.old.cursor self.new.cursor self.old.pairs.items self.new.pairs.items high list result }
        ensures refused { IfErr result (IsRefusal self.new.cursor.text) }
    {
        let mut list = list;
        if !matches!(list.listed, ListKind::Sequence { .. }) {
            list.inside = span_from(&self.cursor, self.operand_start());
        }
        'items: while self.has_item(&list) {
            self.item(&mut list, high)?;
            list.inside = span_from(&self.cursor, list.inside.start);
            if !self.is_separated(&mut list) {
                break;
            }
        }
        if let Some(mark) = list.listed.closer() {
            self.expect_punctuator(mark)?;
        }
        list.span = span_from(&self.cursor, list.span.start);
        Ok(list)
    }

    /// Reads one item onto the list. `special_item` reads items of other kinds, so that this one, on each level, takes
    /// little of the stack.
    #[cycle(grammar)]
    #[inline(never)]
    fn item(&mut self, list: &mut ListBuilder, high: u32) -> Result<(), Fault>
        ensures text { self.new.cursor.text ≡ self.old.cursor.text }
        ensures forward { self.old.cursor.last.stop ≤ self.new.cursor.last.stop }
        ensures waits { (base : Parts) → self.old.tree ≡ join base list.old.nodes → IfOk result (λ _. self.new.tree ≡ join base list.new.nodes) }
        ensures passes { IfOk result (λ _. IsUnseparated list.old.listed → Passes self.old.cursor self.new.cursor) }
        ensures listed { list.new.listed ≡ list.old.listed }
        ensures derived { IfOk result (λ _. Adds self.old.cursor self.new.cursor self.old.pairs.items self.new.pairs.items (ItemAt self.old.cursor.text list.old list.new)) }
        ensures low { IfOk result (λ _. parts_height list.old.nodes ≤ high → parts_height list.new.nodes ≤ high) }
        ensures own { IfOk result (λ _. AllOfLanguage self.old.cursor.text list.old.nodes → AllOfLanguage self.old.cursor.text list.new.nodes) }
        ensures complete { ItemComplete self.old.cursor self.new.cursor self.old.pairs.items self.new.pairs.items high list.old list.new result }
        ensures refused { IfErr result (IsRefusal self.new.cursor.text) }
    {
        let start = self.cursor.next_start();
        match list.listed {
            ListKind::Elements if self.sees_punctuator(",") => list.push_hole(&mut self.tree),
            ListKind::Properties
            | ListKind::Members
            | ListKind::Template
            | ListKind::Declarators { .. }
            | ListKind::Cases { .. }
            | ListKind::Sequence { .. } => self.special_item(list, high),
            _ => {
                if self.sees_punctuator("...") {
                    return self.spread_item(list, high);
                }
                let part = self.expression(ExpressionContext::ASSIGNMENT, high)?;
                let item = element(&self.cursor, &mut self.tree, part, false, start, high)?;
                list.push(item, self.cursor.next_start())
            }
        }
    }

    /// Reads one item of a list whose items aren't elements alone: properties, members, cases and the like.
    #[cycle(grammar)]
    #[inline(never)]
    fn special_item(&mut self, list: &mut ListBuilder, high: u32) -> Result<(), Fault>
        requires apart { is_apart list.old.listed ≡ true }
        ensures text { self.new.cursor.text ≡ self.old.cursor.text }
        ensures forward { self.old.cursor.last.stop ≤ self.new.cursor.last.stop }
        ensures waits { (base : Parts) → self.old.tree ≡ join base list.old.nodes → IfOk result (λ _. self.new.tree ≡ join base list.new.nodes) }
        ensures passes { IfOk result (λ _. IsUnseparated list.old.listed → Passes self.old.cursor self.new.cursor) }
        ensures listed { list.new.listed ≡ list.old.listed }
        ensures derived { IfOk result (λ _. Adds self.old.cursor self.new.cursor self.old.pairs.items self.new.pairs.items (ItemAt self.old.cursor.text list.old list.new)) }
        ensures low { IfOk result (λ _. parts_height list.old.nodes ≤ high → parts_height list.new.nodes ≤ high) }
        ensures own { IfOk result (λ _. AllOfLanguage self.old.cursor.text list.old.nodes → AllOfLanguage self.old.cursor.text list.new.nodes) }
        ensures complete { ItemComplete self.old.cursor self.new.cursor self.old.pairs.items self.new.pairs.items high list.old list.new result }
        ensures refused { IfErr result (IsRefusal self.new.cursor.text) }
    {
        let start = self.cursor.next_start();
        let inner = high.saturating_sub(1);
        match list.listed {
            ListKind::Properties => {
                let item = self.property_or_member(false, high)?;
                list.push(item, self.cursor.next_start())
            }
            ListKind::Members => {
                let item = self.property_or_member(true, high)?;
                list.push(item, self.cursor.next_start())
            }
            ListKind::Template => {
                let part = self.expression(ExpressionContext::EXPRESSION, high)?;
                list.push(ListItem::plain(self.into_expression(part)?), start)?;
                list.push(self.next_template_element(high)?, start)
            }
            ListKind::Declarators { has_in } => {
                let item = self.declarator(has_in, high)?;
                list.push(item, self.cursor.next_start())
            }
            ListKind::Cases { returns } => {
                let is_default = self.is_default()?;
                let mut built = PartialStatement::new();
                if is_default {
                    built.nodes.push_gap(&mut self.tree)?;
                }
                let context = StatementContext::item(returns);
                self.read_symbols(case_symbols(is_default), &mut built, context, inner)?;
                let span = span_from(&self.cursor, start);
                let mut item = ListItem::plain(finish_plain(
                    &mut self.tree,
                    Kind::SwitchCase,
                    span,
                    built.nodes,
                    high,
                )?);
                item.is_flagged = is_default;
                list.push(item, start)
            }
            ListKind::Sequence { has_in } => {
                let part = self.expression(ExpressionContext::at(Rank::Assignment, has_in), high)?;
                let item = element(&self.cursor, &mut self.tree, part, false, start, high)?;
                list.push(item, self.cursor.next_start())
            }
            _ => Err(self.syntax_error()),
        }
    }

    /// Reads an item that begins with `...`, which stands ahead.
    #[cycle(grammar)]
    #[inline(never)]
    fn spread_item(&mut self, list: &mut ListBuilder, high: u32) -> Result<(), Fault>
        requires element { is_apart list.old.listed ≡ false }
        requires spreads { Sees self.old.cursor.text TokenClass.Punctuator (codes "...") self.old.cursor.last }
        ensures text { self.new.cursor.text ≡ self.old.cursor.text }
        ensures forward { self.old.cursor.last.stop ≤ self.new.cursor.last.stop }
        ensures waits { (base : Parts) → self.old.tree ≡ join base list.old.nodes → IfOk result (λ _. self.new.tree ≡ join base list.new.nodes) }
        ensures passes { IfOk result (λ _. IsUnseparated list.old.listed → Passes self.old.cursor self.new.cursor) }
        ensures listed { list.new.listed ≡ list.old.listed }
        ensures derived { IfOk result (λ _. Adds self.old.cursor self.new.cursor self.old.pairs.items self.new.pairs.items (ItemAt self.old.cursor.text list.old list.new)) }
        ensures low { IfOk result (λ _. parts_height list.old.nodes ≤ high → parts_height list.new.nodes ≤ high) }
        ensures own { IfOk result (λ _. AllOfLanguage self.old.cursor.text list.old.nodes → AllOfLanguage self.old.cursor.text list.new.nodes) }
        ensures complete { ItemComplete self.old.cursor self.new.cursor self.old.pairs.items self.new.pairs.items high list.old list.new result }
        ensures refused { IfErr result (IsRefusal self.new.cursor.text) }
    {
        let start = self.cursor.next_start();
        self.expect_punctuator("...")?;
        let part = self.expression(ExpressionContext::ASSIGNMENT, high.saturating_sub(1))?;
        let item = element(&self.cursor, &mut self.tree, part, true, start, high)?;
        list.push(item, self.cursor.next_start())
    }

    /// Reads a declarator (13.3): what is bound, and its value or a gap.
    #[cycle(grammar)]
    #[inline(never)]
    fn declarator(&mut self, has_in: bool, high: u32) -> Result<ListItem, Fault>
        ensures text { self.new.cursor.text ≡ self.old.cursor.text }
        ensures forward { self.old.cursor.last.stop ≤ self.new.cursor.last.stop }
        ensures waits { IfOk result (λ item. self.new.tree ≡ push self.old.tree item.node) }
        ensures passes { IfOk result (λ _. Passes self.old.cursor self.new.cursor) }
        ensures derived { IfOk result (λ item. Adds self.old.cursor self.new.cursor self.old.pairs.items self.new.pairs.items (ItemReads self.old.cursor.text (ListKind.Declarators has_in) item)) }
        ensures low { IfOk result (λ item. height item.node ≤ high) }
        ensures own { IfOk result (λ item. OfLanguage self.old.cursor.text item.node) }
        ensures complete { DeclaratorComplete self.old.cursor self.new.cursor self.old.pairs.items self.new.pairs.items high has_in result }
        ensures refused { IfErr result (IsRefusal self.new.cursor.text) }
    {
        let start = self.cursor.next_start();
        let inner = high.saturating_sub(1);
        let part = self.leftmost_operand(ExpressionContext::at(Rank::Primary, true), inner)?;
        let is_name = part.is_ungrouped(Kind::Identifier);
        let name = bound(&self.cursor, &mut self.tree, part)?;
        let mut nodes = MeasuredParts::one(name);
        let has_value = self.accept_punctuator("=");
        let mut edge = Edge::Closed;
        if has_value {
            let value = self.expression(ExpressionContext::at(Rank::Assignment, has_in), inner)?;
            edge = value.edge;
            nodes.push(self.into_expression(value)?)?;
        } else {
            nodes.push_gap(&mut self.tree)?;
        }
        let span = span_from(&self.cursor, start);
        let node = finish_plain(&mut self.tree, Kind::VariableDeclarator, span, nodes, high)?;
        let mut item = ListItem::plain(node);
        item.is_flagged = !is_name && !has_value;
        item.edge = edge;
        Ok(item)
    }

    /// Goes past `default` or `case`, and answers whether it was `default`.
    fn is_default(&mut self) -> Result<bool, Fault>
        ensures text { self.new.cursor.text ≡ self.old.cursor.text }
        ensures forward { self.old.cursor.last.stop ≤ self.new.cursor.last.stop }
        ensures same_tree { self.new.tree ≡ self.old.tree }
        ensures passes { IfOk result (λ _. Passes self.old.cursor self.new.cursor) }
        ensures refused { IfErr result (IsRefusal self.new.cursor.text) }
        ensures same_open { self.new.cursor.opened ≡ self.old.cursor.opened }
        ensures same_pairs { self.new.pairs.items ≡ self.old.pairs.items }
        ensures accepted { IfOk result (λ default. ReadsHere self.old.cursor.text TokenClass.IdentifierName (case_word default) self.old.cursor.last self.new.cursor.last) }
        ensures missed { IfErr result (λ _. Misses self.old.cursor.text TokenClass.IdentifierName (case_word true) self.old.cursor.last × Misses self.old.cursor.text TokenClass.IdentifierName (case_word false) self.old.cursor.last × (self.new.cursor.last ≡ self.old.cursor.last)) }
    {
        if self.accept_word("default") {
            return Ok(true);
        }
        self.expect_word("case")?;
        Ok(false)
    }

    /// Reads the first part of a template (12.2.9).
    fn first_template_element(&mut self, high: u32) -> Result<ListItem, Fault>
        ensures text { self.new.cursor.text ≡ self.old.cursor.text }
        ensures forward { self.old.cursor.last.stop ≤ self.new.cursor.last.stop }
        ensures waits { IfOk result (λ item. self.new.tree ≡ push self.old.tree item.node) }
        ensures passes { IfOk result (λ _. Passes self.old.cursor self.new.cursor) }
        ensures same_open { self.new.cursor.opened ≡ self.old.cursor.opened }
        ensures same_pairs { self.new.pairs.items ≡ self.old.pairs.items }
        ensures plain { IfOk result (λ item. (item.shape.is_expression ≡ true) × (item.spreads ≡ false)) }
        ensures own { IfOk result (λ item. OfLanguage self.old.cursor.text item.node) }
        ensures read { IfOk result (λ item. SeesBy self.old.cursor.text Div is_template self.old.cursor.last → FirstChunkAt self.old.cursor.text self.old.cursor.last self.new.cursor.last item.node item.is_flagged) }
        ensures not_begun { IfErr result (NotBegun ListKind.Template self.old.cursor high) }
        ensures untemplated { IfErr result (NoTemplate ListKind.Template self.old.cursor) }
        ensures refused { IfErr result (IsRefusal self.new.cursor.text) }
    {
        let token = self.cursor.take(Goal::Div)?;
        template_element(&mut self.tree, self.alloc, token, high)
    }

    /// Takes the token of the next part of a template, which begins with `}` (11.8.6).
    fn template_element_token(&mut self) -> Result<Token<'s>, Fault>
        ensures text { self.new.cursor.text ≡ self.old.cursor.text }
        ensures forward { self.old.cursor.last.stop ≤ self.new.cursor.last.stop }
        ensures same_tree { self.new.tree ≡ self.old.tree }
        ensures same_open { self.new.cursor.opened ≡ self.old.cursor.opened }
        ensures same_pairs { self.new.pairs.items ≡ self.old.pairs.items }
        ensures ahead { IfOk result (λ token. IsAhead Goal.TemplateTail self.old.cursor.text self.old.cursor.last.stop (token_of token)) }
        ensures accepted { IfOk result (λ token. TokenHere self.old.cursor.text TemplateTail is_later_part self.old.cursor.last self.new.cursor.last × (self.new.cursor.last ≡ as_read (token_of token))) }
        ensures missed { IfErr result (λ _. MissesBy self.old.cursor.text TemplateTail is_later_part self.old.cursor.last × (self.new.cursor.last ≡ self.old.cursor.last)) }
        ensures here { IfErr result (IsSyntaxHere self.new.cursor) }
        ensures refused { IfErr result (IsRefusal self.new.cursor.text) }
    {
        let Some(token) = self.cursor.peek(Goal::TemplateTail) else {
            return Err(self.syntax_error());
        };
        if !is_later_part(&token) {
            return Err(self.syntax_error());
        }
        self.advance(token);
        Ok(token)
    }

    /// Reads the next part of a template (12.2.9), after an expression in it.
    fn next_template_element(&mut self, high: u32) -> Result<ListItem, Fault>
        ensures text { self.new.cursor.text ≡ self.old.cursor.text }
        ensures forward { self.old.cursor.last.stop ≤ self.new.cursor.last.stop }
        ensures waits { IfOk result (λ item. self.new.tree ≡ push self.old.tree item.node) }
        ensures same_open { self.new.cursor.opened ≡ self.old.cursor.opened }
        ensures same_pairs { self.new.pairs.items ≡ self.old.pairs.items }
        ensures plain { IfOk result (λ item. (item.shape.is_expression ≡ true) × (item.spreads ≡ false)) }
        ensures own { IfOk result (λ item. OfLanguage self.old.cursor.text item.node) }
        ensures read { IfOk result (λ item. ChunkAt self.old.cursor.text self.old.cursor.last self.new.cursor.last item.node item.is_flagged) }
        ensures no_chunk { IfErr result (NoChunk self.old.cursor high) }
        ensures refused { IfErr result (IsRefusal self.new.cursor.text) }
    {
        let token = self.template_element_token()?;
        template_element(&mut self.tree, self.alloc, token, high)
    }
}

/// The item that an expression between commas makes: a SpreadElement if `...` stood before it.
pub(crate) fn element(
    cursor: &Cursor<'_, '_>,
    tree: &mut TreeBuilder<'_>,
    part: Operand,
    spreads: bool,
    start: usize,
    high: u32,
) -> Result<ListItem, Fault>
    ensures made { Yields (element_item spreads start cursor.now.last.stop part) (element_levels spreads part.cover.node) high result }
    ensures waits { (base : Parts) → tree.old ≡ push base part.cover.node → IfOk result (λ item. tree.new ≡ push base item.node) }
    ensures refused { IfErr result IsLimit }
{
    let shape = part.cover.shape;
    let edge = part.edge;
    let mut node = part.cover.node;
    if spreads {
        let nodes = MeasuredParts::one(node);
        let span = span_from(cursor, start);
        node = finish_plain(tree, Kind::SpreadElement, span, nodes, high)?;
    }
    Ok(ListItem {
        node,
        shape,
        spreads,
        is_flagged: false,
        edge,
    })
}

/// What was read, as what is bound.
pub(crate) fn bound(
    cursor: &Cursor<'_, '_>,
    tree: &mut TreeBuilder<'_>,
    part: Operand,
) -> Result<MeasuredNode, Fault>
    ensures bound { BecomesHere (pattern_tree part.cover.node) (part.cover.shape.binds && is_pattern part.cover.shape.assigned) cursor.now result }
    ensures waits { (base : Parts) → tree.old ≡ push base part.cover.node → IfOk result (λ n. tree.new ≡ push base n) }
    ensures refused { IfErr result (IsRefusal cursor.now.text) }
{
    part.cover.to_binding(tree, cursor.next_start())
}
