//! Expressions (ECMA-262 12.3 to 12.16): what the first token begins, then turn by turn what goes on with it.
#![tactic(auto, using(parser_tables::proofs::Refusals::refusals, crate::proofs::reading::AdvancedTokens::moves))]

ghost use Rattle.recursive_descent.specs.Complete.{ExpressionComplete, BinaryRestComplete};
ghost use Rattle.recursive_descent.specs.Stages.{InfixComplete};
ghost use Rattle.std.specs.Prelude.{◌≡◌, ◌≢◌, ◌≤◌, true, false, IfOk, IfErr, ◌&&◌, ◌⊎◌, not};
ghost use Rattle.tree.specs.Tree.{height, Parts, push};
ghost use Rattle.tree.specs.Patterns.{pattern_tree};
ghost use Rattle.covers.specs.Shapes.{is_target};
ghost use Rattle.token_cursor.specs.CursorState.{IsAhead};
ghost use Rattle.tokens.specs.Scanned.{token_of};
ghost use Rattle.token_cursor.specs.CursorState.{Passes};
ghost use Rattle.parser_tables.specs.Items.{item_from, list_from, with_item};
ghost use Rattle.parser_tables.specs.Outcomes.{BecomesHere, RefusedUnless, YieldsWhere};
ghost use Rattle.token_cursor.specs.CursorState.{IsPlaceHere};
ghost use Rattle.recursive_descent.specs.Soundness.{Adds, ReadAt, ReadsOn, GoesOn};
ghost use Rattle.language.specs.Continuations.{operation, rank_made_by};
ghost use Rattle.language.specs.Token.{as_read};
ghost use Rattle.language.specs.Vocabulary.{is, takes};
ghost use Rattle.grammar.specs.Infix.{coded_operator, meant};
ghost use Rattle.parser_tables.specs.Operators.{stops_by};
ghost use Rattle.token_cursor.specs.Refusals.{IsRefusal};
ghost use Rattle.recursive_descent.specs.LeftOperands.{left_of, left_rank, takes_left, operator_text_of, is_prefix_update, takes_operand, prefixed_node, prefixed_part};
ghost use Rattle.recursive_descent.specs.Spelled.{OfLanguage};

use crate::next_operator::NextOperator;
use crate::parser::Parser;
use crate::token_tests::span_from;
use covers::{Cover, CoverShape, ListBuilder, ListItem, ListKind};
use grammar::{InfixOperator, accepts_rank};
use language::{Edge, Rank};
use parser_tables::{ExpressionContext, Operand};
use productions::{MeasuredNode, MeasuredParts, finish_node, finish_plain};
use source_text::Fault;
use token_cursor::Cursor;
use tokens::{Goal, TokenClass};
use tree::{Flags, Kind, TreeBuilder};

/// The flags of `++` or `--` before its operand.
const PREFIX: Flags = Flags {
    prefix: true,
    ..Flags::PLAIN
};

/// The left side of an operator, as a part of its node: with the node's kind and symbol, the symbol of its right side,
/// and what the node may become.
#[derive(Drop)]
struct LeftOperand {
    node: MeasuredNode,
    kind: Kind,
    own: Rank,
    right: Rank,
    shape: CoverShape,
}

impl<'t, 's> Parser<'t, 's> {
    /// What was read, as an expression.
    pub(crate) fn into_expression(&self, part: Operand) -> Result<MeasuredNode, Fault>
        ensures settled { BecomesHere part.cover.node part.cover.shape.is_expression self.now.cursor result }
        ensures refused { IfErr result (IsRefusal self.now.cursor.text) }
    {
        part.into_expression(self.cursor.next_start())
    }

    /// An expression at a position, up to where nothing goes on with it.
    #[cycle(grammar)]
    #[inline(never)]
    pub(crate) fn expression(
        &mut self,
        position: ExpressionContext,
        high: u32,
    ) -> Result<Operand, Fault>
        ensures text { self.new.cursor.text ≡ self.old.cursor.text }
        ensures forward { self.old.cursor.last.stop ≤ self.new.cursor.last.stop }
        ensures waits { IfOk result (λ part. self.new.tree ≡ push self.old.tree part.cover.node) }
        ensures passes { IfOk result (λ _. Passes self.old.cursor self.new.cursor) }
        ensures derived { IfOk result (λ part. Adds self.old.cursor self.new.cursor self.old.pairs.items self.new.pairs.items (ReadAt self.old.cursor.text position part)) }
        ensures low { IfOk result (λ part. height part.cover.node ≤ high) }
        ensures own { IfOk result (λ part. OfLanguage self.old.cursor.text part.cover.node) }
        ensures complete { ExpressionComplete self.old.cursor self.new.cursor self.old.pairs.items self.new.pairs.items high position result }
        ensures refused { IfErr result (IsRefusal self.new.cursor.text) }
    {
        let mut part = self.leftmost_operand(position, high)?;
        'turns: while let Some(next) = self.peek_infix(position, part.edge) {
            part = self.infix(part, next, position, high)?;
        }
        Ok(part)
    }

    /// Reads what the operator that stands ahead makes of the expression before it.
    #[cycle(grammar)]
    #[inline(never)]
    fn infix(
        &mut self,
        left: Operand,
        next: NextOperator<'s>,
        position: ExpressionContext,
        high: u32,
    ) -> Result<Operand, Fault>
        requires ahead { IsAhead Goal.Div self.old.cursor.text self.old.cursor.last.stop (token_of next.token) }
        requires real { next.token.class ≢ TokenClass.End }
        requires coded { coded_operator (operation (as_read (token_of next.token))) next.token.text.now ≡ Some next.operator }
        requires goes { stops_by position left.edge (as_read (token_of next.token)) ≡ false }
        ensures text { self.new.cursor.text ≡ self.old.cursor.text }
        ensures forward { self.old.cursor.last.stop ≤ self.new.cursor.last.stop }
        ensures waits { (base : Parts) → self.old.tree ≡ push base left.cover.node → IfOk result (λ part. self.new.tree ≡ push base part.cover.node) }
        ensures passes { IfOk result (λ _. Passes self.old.cursor self.new.cursor) }
        ensures derived { IfOk result (λ part. Adds self.old.cursor self.new.cursor self.old.pairs.items self.new.pairs.items (ReadsOn self.old.cursor.text position left part)) }
        ensures low { IfOk result (λ part. height part.cover.node ≤ high) }
        ensures own { IfOk result (λ part. OfLanguage self.old.cursor.text left.cover.node → OfLanguage self.old.cursor.text part.cover.node) }
        ensures complete { InfixComplete self.old.cursor self.new.cursor self.old.pairs.items self.new.pairs.items high position left result }
        ensures refused { IfErr result (IsRefusal self.new.cursor.text) }
    {
        match next.operator {
            InfixOperator::Binary(_) | InfixOperator::Assign { .. } | InfixOperator::Question => {
                self.binary_rest(left, next, position.has_in, high)
            }
            InfixOperator::PostUpdate | InfixOperator::Comma => self.update_or_comma(
                left, next, position, high,
            ),
            InfixOperator::Dot => self.dot_member(left, high),
            InfixOperator::OpenParen => self.call_expression(left, high),
            InfixOperator::OpenBracket | InfixOperator::TemplateHead => self.subscript(left, high),
            InfixOperator::QuestionDot => self.optional_chain(left, high),
            InfixOperator::FatArrow => Err(self.syntax_error()),
        }
    }

    /// Reads a postfix update (12.4), or a sequence from its first comma on (12.16), from the expression before it.
    #[cycle(grammar)]
    #[inline(never)]
    fn update_or_comma(
        &mut self,
        left: Operand,
        next: NextOperator<'s>,
        position: ExpressionContext,
        high: u32,
    ) -> Result<Operand, Fault>
        requires other { (next.operator ≡ InfixOperator.PostUpdate) ⊎ (next.operator ≡ InfixOperator.Comma) }
        requires ahead { IsAhead Goal.Div self.old.cursor.text self.old.cursor.last.stop (token_of next.token) }
        requires real { next.token.class ≢ TokenClass.End }
        requires coded { coded_operator (operation (as_read (token_of next.token))) next.token.text.now ≡ Some next.operator }
        requires goes { stops_by position left.edge (as_read (token_of next.token)) ≡ false }
        ensures text { self.new.cursor.text ≡ self.old.cursor.text }
        ensures forward { self.old.cursor.last.stop ≤ self.new.cursor.last.stop }
        ensures waits { (base : Parts) → self.old.tree ≡ push base left.cover.node → IfOk result (λ part. self.new.tree ≡ push base part.cover.node) }
        ensures passes { IfOk result (λ _. Passes self.old.cursor self.new.cursor) }
        ensures derived { IfOk result (λ part. Adds self.old.cursor self.new.cursor self.old.pairs.items self.new.pairs.items (ReadsOn self.old.cursor.text position left part)) }
        ensures low { IfOk result (λ part. height part.cover.node ≤ high) }
        ensures own { IfOk result (λ part. OfLanguage self.old.cursor.text left.cover.node → OfLanguage self.old.cursor.text part.cover.node) }
        ensures complete { InfixComplete self.old.cursor self.new.cursor self.old.pairs.items self.new.pairs.items high position left result }
        ensures refused { IfErr result (IsRefusal self.new.cursor.text) }
    {
        let start = left.start;
        match next.operator {
            InfixOperator::PostUpdate => {
                let operand = update_target(&self.cursor, &mut self.tree, left)?;
                self.advance(next.token);
                let nodes = MeasuredParts::one(operand);
                let span = span_from(&self.cursor, start);
                let text = next.token.text;
                let node = finish_node(
                    &mut self.tree,
                    Kind::UpdateExpression,
                    text,
                    Flags::PLAIN,
                    span,
                    nodes,
                    high,
                )?;
                Ok(Operand::plain(node, Rank::Update, Edge::Postfix))
            }
            InfixOperator::Comma => {
                let list = self.sequence(left, position.has_in)?;
                self.advance(next.token);
                let list = self.list(list, high.saturating_sub(1))?;
                let edge = list.seen.edge;
                let span = span_from(&self.cursor, start);
                let node = finish_plain(
                    &mut self.tree,
                    Kind::SequenceExpression,
                    span,
                    list.nodes,
                    high,
                )?;
                Ok(Operand::plain(node, Rank::Expression, edge))
            }
            _ => Err(self.syntax_error()),
        }
    }

    /// Reads the rest of a binary or logical expression, an assignment or a conditional, from its operator on (12.6 to
    /// 12.15).
    #[cycle(grammar)]
    #[inline(never)]
    fn binary_rest(
        &mut self,
        left: Operand,
        next: NextOperator<'s>,
        has_in: bool,
        high: u32,
    ) -> Result<Operand, Fault>
        requires ahead { IsAhead Goal.Div self.old.cursor.text self.old.cursor.last.stop (token_of next.token) }
        requires real { next.token.class ≢ TokenClass.End }
        requires coded { coded_operator (operation (as_read (token_of next.token))) next.token.text.now ≡ Some next.operator }
        requires has_in { (is next.token.text.now "in" && not has_in) ≡ false }
        ensures text { self.new.cursor.text ≡ self.old.cursor.text }
        ensures forward { self.old.cursor.last.stop ≤ self.new.cursor.last.stop }
        ensures waits { (base : Parts) → self.old.tree ≡ push base left.cover.node → IfOk result (λ part. self.new.tree ≡ push base part.cover.node) }
        ensures passes { IfOk result (λ _. Passes self.old.cursor self.new.cursor) }
        ensures derived { IfOk result (λ part. Adds self.old.cursor self.new.cursor self.old.pairs.items self.new.pairs.items (GoesOn self.old.cursor.text has_in left part)) }
        ensures rank { IfOk result (λ part. rank_made_by (meant next.entry.operator) next.entry.token.after_break ≡ Some part.rank) }
        ensures low { IfOk result (λ part. height part.cover.node ≤ high) }
        ensures own { IfOk result (λ part. OfLanguage self.old.cursor.text left.cover.node → OfLanguage self.old.cursor.text part.cover.node) }
        ensures complete { BinaryRestComplete self.old.cursor self.new.cursor self.old.pairs.items self.new.pairs.items high left next.entry.token next.entry.operator has_in result }
        ensures refused { IfErr result (IsRefusal self.new.cursor.text) }
    {
        let start = left.start;
        let inner = high.saturating_sub(1);
        let left = left_operand(&self.cursor, &mut self.tree, left, next.operator)?;
        self.advance(next.token);
        let mut nodes = MeasuredParts::one(left.node);
        if let InfixOperator::Question = next.operator {
            let part = self.expression(ExpressionContext::ASSIGNMENT, inner)?;
            nodes.push(self.into_expression(part)?)?;
            self.expect_punctuator(":")?;
        }
        let right = self.expression(ExpressionContext::at(left.right, has_in), inner)?;
        let edge = right.edge;
        nodes.push(self.into_expression(right)?)?;
        let span = span_from(&self.cursor, start);
        let node = finish_node(
            &mut self.tree,
            left.kind,
            operator_text(left.kind, next.token.text),
            Flags::PLAIN,
            span,
            nodes,
            high,
        )?;
        let cover = Cover {
            node,
            shape: left.shape,
        };
        Ok(Operand {
            cover,
            start,
            rank: left.own,
            edge,
        })
    }

    /// A list for a sequence (12.16) that holds its first expression; refused if that is no AssignmentExpression.
    #[tactic(auto, using(parser_tables::proofs::Refusals::refusals, crate::proofs::reading::AdvancedTokens::moves, crate::proofs::sound_lists::ListRefusals::unless_taken))]
    fn sequence(&self, first: Operand, has_in: bool) -> Result<ListBuilder, Fault>
        ensures listed { IfOk result (λ list. list.listed ≡ ListKind.Sequence has_in) }
        ensures begun { IfOk result (λ list. (list ≡ with_item (list_from (ListKind.Sequence has_in) first.start) (item_from first.cover.node first.cover.shape false first.edge)) × ((takes Rank.Assignment first.rank && first.cover.shape.is_expression) ≡ true)) }
        ensures failed { IfErr result (RefusedUnless (IsPlaceHere self.now.cursor) (takes Rank.Assignment first.rank && first.cover.shape.is_expression)) }
        ensures refused { IfErr result (IsRefusal self.now.cursor.text) }
    {
        let at = self.cursor.next_start();
        if !accepts_rank(Rank::Assignment, first.rank) {
            return Err(self.syntax_error());
        }
        let start = first.start;
        let mut list = ListBuilder::new(ListKind::Sequence { has_in }, start);
        let item = ListItem {
            node: first.cover.node,
            shape: first.cover.shape,
            spreads: false,
            is_flagged: false,
            edge: first.edge,
        };
        list.push(item, at)?;
        Ok(list)
    }
}

/// The expression before an operator as its left side; refused if its symbol or shape doesn't fit there.
fn left_operand(
    cursor: &Cursor<'_, '_>,
    tree: &mut TreeBuilder<'_>,
    left: Operand,
    operator: InfixOperator,
) -> Result<LeftOperand, Fault>
    ensures taken { BecomesHere (left_of operator left) (takes_left operator left) cursor.now result }
    ensures waits { (base : Parts) → tree.old ≡ push base left.cover.node → IfOk result (λ found. tree.new ≡ push base found.node) }
    ensures refused { IfErr result (IsRefusal cursor.now.text) }
{
    let at = cursor.next_start();
    if !accepts_rank(left_rank(operator), left.rank) {
        return Err(cursor.syntax_error());
    }
    let shape = left.cover.shape;
    match operator {
        InfixOperator::Binary(sign) => Ok(LeftOperand {
            node: left.into_expression(at)?,
            kind: sign.kind,
            own: sign.own,
            right: sign.right,
            shape: CoverShape::VALUE,
        }),
        InfixOperator::Question => Ok(LeftOperand {
            node: left.into_expression(at)?,
            kind: Kind::ConditionalExpression,
            own: Rank::Conditional,
            right: Rank::Assignment,
            shape: CoverShape::VALUE,
        }),
        InfixOperator::Assign { is_plain: true } => Ok(LeftOperand {
            node: left.cover.to_pattern(tree, at)?,
            kind: Kind::AssignmentExpression,
            own: Rank::Assignment,
            right: Rank::Assignment,
            shape: shape.defaulted(),
        }),
        InfixOperator::Assign { is_plain: false } => Ok(LeftOperand {
            node: left.cover.to_target(tree, at)?,
            kind: Kind::AssignmentExpression,
            own: Rank::Assignment,
            right: Rank::Assignment,
            shape: CoverShape::VALUE,
        }),
        _ => Err(cursor.syntax_error()),
    }
}

/// The operand of a postfix `++` or `--` as a target of assignment (12.4); refused if it can't be one.
fn update_target(
    cursor: &Cursor<'_, '_>,
    tree: &mut TreeBuilder<'_>,
    operand: Operand,
) -> Result<MeasuredNode, Fault>
    ensures target { BecomesHere (pattern_tree operand.cover.node) (is_target operand.cover.shape.assigned) cursor.now result }
    ensures waits { (base : Parts) → tree.old ≡ push base operand.cover.node → IfOk result (λ n. tree.new ≡ push base n) }
    ensures refused { IfErr result (IsRefusal cursor.now.text) }
{
    operand.target(tree, cursor.next_start())
}

/// What stands behind a prefix operator that was passed, with it (12.4, 12.5).
pub(crate) fn prefix_operand<'s>(
    cursor: &Cursor<'_, 's>,
    tree: &mut TreeBuilder<'s>,
    operand: Operand,
    text: &'s str,
    start: usize,
    high: u32,
) -> Result<Operand, Fault>
    ensures made { let steps = is_prefix_update text.now in
        let end = cursor.now.last.stop in
        YieldsWhere (prefixed_part steps text.now start end operand) (IsPlaceHere cursor.now) (takes_operand steps operand.cover.shape) (height (prefixed_node steps text.now start end operand.cover.node)) high result }
    ensures waits { (base : Parts) → tree.old ≡ push base operand.cover.node → IfOk result (λ part. tree.new ≡ push base part.cover.node) }
    ensures refused { IfErr result (IsRefusal cursor.now.text) }
{
    let at = cursor.next_start();
    let span = span_from(cursor, start);
    let edge = operand.edge;
    if matches!(text, "++" | "--") {
        let nodes = MeasuredParts::one(operand.target(tree, at)?);
        let node = finish_node(
            tree,
            Kind::UpdateExpression,
            text,
            PREFIX,
            span,
            nodes,
            high,
        )?;
        return Ok(Operand::plain(node, Rank::Update, Edge::Other));
    }
    let nodes = MeasuredParts::one(operand.into_expression(at)?);
    if text == "await" {
        let node = finish_plain(tree, Kind::AwaitExpression, span, nodes, high)?;
        return Ok(Operand::plain(node, Rank::Unary, edge));
    }
    let node = finish_node(
        tree,
        Kind::UnaryExpression,
        text,
        Flags::PLAIN,
        span,
        nodes,
        high,
    )?;
    Ok(Operand::plain(node, Rank::Unary, edge))
}

/// The symbol that an operator requires of its left side.
fn left_rank(operator: InfixOperator) -> Rank
    ensures { result ≡ left_rank operator }
{
    match operator {
        InfixOperator::Binary(sign) => sign.left,
        InfixOperator::Question => Rank::ShortCircuit,
        _ => Rank::LeftHandSide,
    }
}

/// The text that the node of an operator holds: none for a conditional.
fn operator_text(kind: Kind, text: &str) -> &str
    ensures { result.now ≡ operator_text_of kind text.now }
{
    match kind {
        Kind::ConditionalExpression => "",
        _ => text,
    }
}
