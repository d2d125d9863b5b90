//! Fields and static blocks of classes (ECMA-262, 13th edition, 15.7).
#![tactic(auto, using(parser_tables::proofs::Refusals::refusals, crate::proofs::reading::AdvancedTokens::moves))]

ghost use Rattle.std.specs.Prelude.{◌≡◌, ◌≤◌, true, false, codes, IfOk, IfErr};
ghost use Rattle.token_cursor.specs.CursorState.{Passes};
ghost use Rattle.token_cursor.specs.Refusals.{IsRefusal};
ghost use Rattle.tree.specs.Tree.{height, Parts, push};
ghost use Rattle.std.specs.Bool.{OnTrue, OnFalse};
ghost use Rattle.language.specs.Token.{Token as Read};
ghost use Rattle.language.specs.Edges.{key_goes_on};
ghost use Rattle.token_cursor.specs.StatementEnds.{key_word};
ghost use Rattle.language.specs.Languages.{is_of_2022};
ghost use Rattle.token_cursor.specs.Seen.{ReadsHere, Misses};
ghost use Rattle.parser_tables.specs.Outcomes.{BeginsBy};
ghost use Rattle.recursive_descent.specs.Soundness.{Adds};
ghost use Rattle.recursive_descent.specs.SoundnessOfLists.{ItemReads, defined};
ghost use Rattle.recursive_descent.specs.Complete.{PropertyOrMemberComplete};
ghost use Rattle.recursive_descent.specs.Later.{FieldAt, FieldComplete, field_word, BeginsStaticBlock};
ghost use Rattle.recursive_descent.specs.Spelled.{OfLanguage};

use crate::parser::Parser;
use crate::properties::PropertyName;
use crate::token_tests::span_from;
use covers::ListItem;
use parser_tables::{ExpressionContext, StatementContext, StatementListEnd, property_flags};
use productions::{MeasuredParts, finish_node, finish_plain};
use source_text::Fault;
use token_cursor::{FieldKey, StatementEnd, field_key, is_name_token, is_punctuator};
use tokens::{Goal, TokenClass};
use tree::{Form, Kind};

/// What the key of a field without a value may be the first word of instead.
fn key_of_field(key: &PropertyName<'_>, is_static: bool) -> FieldKey
    ensures { (t : Read) → key_goes_on (key_word result) false t ≡ key_goes_on (field_word key.now.token) is_static t }
{
    match key.token {
        Some(token) if token.class == TokenClass::IdentifierName => {
            field_key(token.text, is_static)
        }
        _ => FieldKey::Other,
    }
}

impl<'t, 's> Parser<'t, 's> {
    /// Whether a static block begins ahead.
    pub(crate) fn begins_static_block(&self) -> bool
        ensures begins { OnTrue result (BeginsStaticBlock self.now.cursor.text self.now.cursor.last) }
        ensures other { OnFalse result (is_of_2022 self.now.cursor.text.language ≡ true → (m : Read) → ReadsHere self.now.cursor.text TokenClass.IdentifierName (codes "static") self.now.cursor.last m → Misses self.now.cursor.text TokenClass.Punctuator (codes "{") m) }
    {
        if !self.cursor.is_of_2022() {
            return false;
        }
        let Some(token) = self.cursor.peek(Goal::Div) else {
            return false;
        };
        if !is_name_token(&token, "static") {
            return false;
        }
        match self.cursor.peek_behind(&token) {
            Some(second) => is_punctuator(&second, "{"),
            None => false,
        }
    }

    /// Reads a static block, which stands ahead.
    #[cycle(grammar)]
    #[inline(never)]
    pub(crate) fn static_block(&mut self, start: usize, high: u32) -> Result<ListItem, Fault>
        requires here { BeginsBy self.old.cursor start }
        requires ahead { BeginsStaticBlock self.old.cursor.text self.old.cursor.last }
        ensures text { self.new.cursor.text ≡ self.old.cursor.text }
        ensures forward { self.old.cursor.last.stop ≤ self.new.cursor.last.stop }
        ensures waits { IfOk result (λ item. self.new.tree ≡ push self.old.tree item.node) }
        ensures passes { IfOk result (λ _. Passes self.old.cursor self.new.cursor) }
        ensures derived { IfOk result (λ item. Adds self.old.cursor self.new.cursor self.old.pairs.items self.new.pairs.items (ItemReads self.old.cursor.text (defined true) item)) }
        ensures low { IfOk result (λ item. height item.node ≤ high) }
        ensures own { IfOk result (λ item. OfLanguage self.old.cursor.text item.node) }
        ensures complete { PropertyOrMemberComplete self.old.cursor self.new.cursor self.old.pairs.items self.new.pairs.items high true result }
        ensures refused { IfErr result (IsRefusal self.new.cursor.text) }
    {
        self.expect_word("static")?;
        self.expect_punctuator("{")?;
        let context = StatementContext::item(false);
        let inner = high.saturating_sub(1);
        let items = self.statements(StatementListEnd::ClosingBrace, context, inner)?;
        self.expect_punctuator("}")?;
        let span = span_from(&self.cursor, start);
        let node = finish_plain(&mut self.tree, Kind::StaticBlock, span, items, high)?;
        Ok(ListItem::plain(node))
    }

    /// Reads a field from behind its key on.
    #[cycle(grammar)]
    #[inline(never)]
    pub(crate) fn field(
        &mut self,
        key: PropertyName<'s>,
        is_static: bool,
        start: usize,
        high: u32,
    ) -> Result<ListItem, Fault>
        requires { is_of_2022 self.old.cursor.text.language ≡ true }
        ensures text { self.new.cursor.text ≡ self.old.cursor.text }
        ensures forward { self.old.cursor.last.stop ≤ self.new.cursor.last.stop }
        ensures waits { (base : Parts) → self.old.tree ≡ push base key.entry.node → IfOk result (λ item. self.new.tree ≡ push base item.node) }
        ensures derived { IfOk result (λ item. Adds self.old.cursor self.new.cursor self.old.pairs.items self.new.pairs.items (FieldAt self.old.cursor.text key.entry is_static start item)) }
        ensures low { IfOk result (λ item. height item.node ≤ high) }
        ensures own { IfOk result (λ item. OfLanguage self.old.cursor.text key.entry.node → OfLanguage self.old.cursor.text item.node) }
        ensures complete { FieldComplete self.old.cursor self.new.cursor self.old.pairs.items self.new.pairs.items high key.entry is_static start result }
        ensures refused { IfErr result (IsRefusal self.new.cursor.text) }
    {
        let flags = property_flags(key.computed, is_static, Form::Init);
        let mut ending = StatementEnd::AfterKey(key_of_field(&key, is_static));
        let mut nodes = MeasuredParts::one(key.node);
        if self.accept_punctuator("=") {
            let inner = high.saturating_sub(1);
            let value = self.expression(ExpressionContext::ASSIGNMENT, inner)?;
            ending = StatementEnd::AfterValue(value.edge);
            nodes.push(self.into_expression(value)?)?;
        } else {
            nodes.push_gap(&mut self.tree)?;
        }
        self.cursor.semicolon(ending)?;
        let span = span_from(&self.cursor, start);
        let node = finish_node(
            &mut self.tree,
            Kind::PropertyDefinition,
            "",
            flags,
            span,
            nodes,
            high,
        )?;
        Ok(ListItem::plain(node))
    }
}
