//! Statements, functions, classes and their parts as lists of pieces (ECMA-262 clauses 13 and 14).
#![tactic(auto, using(parser_tables::proofs::Refusals::refusals, crate::proofs::reading::AdvancedTokens::moves))]

ghost use Rattle.recursive_descent.specs.Complete.{SymbolsComplete};
ghost use Rattle.std.specs.Prelude.{◌≡◌, ◌≤◌, true, IfOk, IfErr, IfSome, map};
ghost use Rattle.std.specs.Bool.{OnTrue, OnFalse};
ghost use Rattle.tokens.specs.declared.token.Goal.TheVariants.{Div, RegExp};
ghost use Rattle.token_cursor.specs.CursorState.{Passes};
ghost use Rattle.recursive_descent.specs.Handlers.{IfHandler};
ghost use Rattle.token_cursor.specs.Seen.{SeesBy, MissesBy};
ghost use Rattle.parser_tables.specs.Tests.{ends_word, is_each};
ghost use Rattle.parser_tables.specs.StatementSymbols.{piece_of, CatchParts};
ghost use Rattle.recursive_descent.specs.Soundness.{Adds};
ghost use Rattle.recursive_descent.specs.SoundnessOfStatements.{BuiltAt};
ghost use Rattle.token_cursor.specs.Refusals.{IsRefusal};
ghost use Rattle.parser_tables.specs.Outcomes.{BecomesHere, RefusedUnless, RefusedWhere};
ghost use Rattle.token_cursor.specs.CursorState.{IsPlaceHere};
ghost use Rattle.parser_tables.specs.StatementNodes.{fits_head, head_levels, head_node, list_levels, put_node, takes_head, takes_list, takes_put, with_list, with_part};
ghost use Rattle.recursive_descent.specs.Expectations.{expected_if, expected_always, ExpectedAt, NotExpected, LabelAt, NotLabel, TokensAt, NotTokens, WordedAt, NotWorded, ElseAt, FinallyAt, CatchAt, NoCatch, HeritageAt, HeadAt};
ghost use Rattle.tree.specs.Tree.{parts_height, Parts, push, join};
ghost use Rattle.recursive_descent.specs.Spelled.{AllOfLanguage};

use crate::lists::bound;
use crate::parser::Parser;
use crate::primary::token_node;
use crate::token_tests::span_from;
use covers::{ListBuilder, ListKind};
use language::Rank;
use parser_tables::{
    ExpressionContext, Operand, PartialStatement, StatementContext, StatementListEnd, Symbol,
    ends_operand, fits_for_head, is_in_or_of, list_node_height,
};
use productions::{MeasuredNode, finish_node, finish_plain};
use source_text::Fault;
use token_cursor::{Cursor, StatementEnd};
use tokens::Goal;
use tree::{Flags, Kind, TreeBuilder};

/// What is to be read for a symbol of a statement, once its own tokens are passed.
#[derive(Clone, Copy)]
enum Expected {
    Nothing,
    // A part that is missing.
    Gap,
    Expression(ExpressionContext),
    Statement,
    Block(StatementContext),
    Binding,
    // What is done with what was thrown, from this place on.
    Handler(usize),
    Items(StatementListEnd),
    List(ListKind),
}

/// An expression at this position if it is there, else a gap.
fn expected_where(is_there: bool, position: ExpressionContext) -> Expected
    ensures handler { IfHandler result ⊥ }
    ensures is { result ≡ expected_if is_there position }
{
    match is_there {
        true => Expected::Expression(position),
        false => Expected::Gap,
    }
}

/// What a symbol requires whatever stands ahead; none if that depends on what stands there.
fn expected_always(piece: Symbol, context: StatementContext) -> Option<Expected>
    ensures handler { IfSome result (λ want. IfHandler want ⊥) }
    ensures is { result ≡ expected_always piece context.returns }
{
    match piece {
        Symbol::Expression => Some(Expected::Expression(ExpressionContext::EXPRESSION)),
        Symbol::Assignment => Some(Expected::Expression(ExpressionContext::ASSIGNMENT)),
        Symbol::Binding => Some(Expected::Binding),
        Symbol::Statement => Some(Expected::Statement),
        Symbol::Block => Some(Expected::Block(StatementContext::item(context.returns))),
        Symbol::FunctionBody => Some(Expected::Block(StatementContext::BODY)),
        Symbol::StatementList => Some(Expected::Items(StatementListEnd::ClosingBrace)),
        Symbol::CaseStatements => Some(Expected::Items(StatementListEnd::NextCase)),
        Symbol::List(listed) => Some(Expected::List(listed)),
        _ => None,
    }
}

impl<'t, 's> Parser<'t, 's> {
    /// Whether the token ahead may begin the argument of `return` (13.10): it doesn't end the statement.
    fn sees_argument(&self) -> bool
        ensures given { OnTrue result (MissesBy self.now.cursor.text RegExp ends_word self.now.cursor.last) }
        ensures missing { OnFalse result (SeesBy self.now.cursor.text RegExp ends_word self.now.cursor.last) }
    {
        match self.cursor.peek(Goal::RegExp) {
            Some(token) => !ends_operand(&token),
            None => true,
        }
    }

    /// Whether `in` or `of` stands ahead.
    fn sees_in_or_of(&self) -> bool
        ensures seen { OnTrue result (SeesBy self.now.cursor.text Div is_each self.now.cursor.last) }
        ensures missed { OnFalse result (MissesBy self.now.cursor.text Div is_each self.now.cursor.last) }
    {
        match self.cursor.peek(Goal::Div) {
            Some(token) => is_in_or_of(&token),
            None => false,
        }
    }

    /// Reads the label of `break` or `continue` if it stands on the same line, else adds a gap (13.8, 13.9).
    fn label_symbol(&mut self, built: &mut PartialStatement<'s>, high: u32) -> Result<(), Fault>
        ensures text { self.new.cursor.text ≡ self.old.cursor.text }
        ensures forward { self.old.cursor.last.stop ≤ self.new.cursor.last.stop }
        ensures waits { (base : Parts) → self.old.tree ≡ join base built.old.nodes → IfOk result (λ _. self.new.tree ≡ join base built.new.nodes) }
        ensures same_open { self.new.cursor.opened ≡ self.old.cursor.opened }
        ensures same_pairs { self.new.pairs.items ≡ self.old.pairs.items }
        ensures read { IfOk result (λ _. LabelAt self.old.cursor self.new.cursor built.old built.new high) }
        ensures failed { IfErr result (NotLabel self.old.cursor high) }
        ensures refused { IfErr result (IsRefusal self.new.cursor.text) }
    {
        if !self.sees_identifier() || self.sees_line_break() {
            return built.nodes.push_gap(&mut self.tree);
        }
        let label = self.identifier()?;
        let name = token_node(&mut self.tree, Kind::Identifier, label, high)?;
        built.nodes.push(name)
    }

    /// Reads a symbol that consists of tokens alone: a mark, a word, a semicolon, a label.
    fn token_symbol(
        &mut self,
        piece: Symbol,
        built: &mut PartialStatement<'s>,
        high: u32,
    ) -> Result<(), Fault>
        ensures text { self.new.cursor.text ≡ self.old.cursor.text }
        ensures forward { self.old.cursor.last.stop ≤ self.new.cursor.last.stop }
        ensures waits { (base : Parts) → self.old.tree ≡ join base built.old.nodes → IfOk result (λ _. self.new.tree ≡ join base built.new.nodes) }
        ensures same_open { self.new.cursor.opened ≡ self.old.cursor.opened }
        ensures same_pairs { self.new.pairs.items ≡ self.old.pairs.items }
        ensures read { IfOk result (λ _. TokensAt piece self.old.cursor self.new.cursor built.old built.new high) }
        ensures failed { IfErr result (NotTokens piece self.old.cursor built.old.edge high) }
        ensures refused { IfErr result (IsRefusal self.new.cursor.text) }
    {
        match piece {
            Symbol::PunctuatorToken(mark) => {
                self.expect_punctuator(mark)?;
                Ok(())
            }
            Symbol::KeywordToken(word) => {
                self.expect_word(word)?;
                Ok(())
            }
            Symbol::DoWhileSemicolon => self.cursor.semicolon(StatementEnd::DoWhile),
            Symbol::Semicolon => self
                .cursor
                .semicolon(StatementEnd::AfterExpression(built.edge)),
            Symbol::Label => self.label_symbol(built, high),
            Symbol::NoLineTerminator => match self.sees_line_break() {
                true => Err(self.syntax_error()),
                false => Ok(()),
            },
            _ => Ok(()),
        }
    }

    /// Goes past `else`, after which a statement is to be read; a gap if there is none (13.6).
    fn else_symbol(&mut self) -> Expected
        ensures text { self.new.cursor.text ≡ self.old.cursor.text }
        ensures forward { self.old.cursor.last.stop ≤ self.new.cursor.last.stop }
        ensures same_tree { self.new.tree ≡ self.old.tree }
        ensures same_open { self.new.cursor.opened ≡ self.old.cursor.opened }
        ensures same_pairs { self.new.pairs.items ≡ self.old.pairs.items }
        ensures handler { IfHandler result ⊥ }
        ensures read { ElseAt self.old.cursor self.new.cursor result }
    {
        match self.accept_word("else") {
            true => Expected::Statement,
            false => Expected::Gap,
        }
    }

    /// Goes past `finally`, after which a block is to be read; a gap if there is none (13.15).
    fn finally_symbol(&mut self, context: StatementContext) -> Expected
        ensures text { self.new.cursor.text ≡ self.old.cursor.text }
        ensures forward { self.old.cursor.last.stop ≤ self.new.cursor.last.stop }
        ensures same_tree { self.new.tree ≡ self.old.tree }
        ensures same_open { self.new.cursor.opened ≡ self.old.cursor.opened }
        ensures same_pairs { self.new.pairs.items ≡ self.old.pairs.items }
        ensures handler { IfHandler result ⊥ }
        ensures read { FinallyAt context.returns self.old.cursor self.new.cursor result }
    {
        match self.accept_word("finally") {
            true => Expected::Block(StatementContext::item(context.returns)),
            false => Expected::Gap,
        }
    }

    /// Goes past `catch`, after which a handler is to be read; a gap before `finally`, else refused (13.15).
    fn catch_symbol(&mut self) -> Result<Expected, Fault>
        ensures text { self.new.cursor.text ≡ self.old.cursor.text }
        ensures forward { self.old.cursor.last.stop ≤ self.new.cursor.last.stop }
        ensures same_tree { self.new.tree ≡ self.old.tree }
        ensures same_open { self.new.cursor.opened ≡ self.old.cursor.opened }
        ensures same_pairs { self.new.pairs.items ≡ self.old.pairs.items }
        ensures handler { IfOk result (λ want. IfHandler want (Passes self.old.cursor self.new.cursor)) }
        ensures read { IfOk result (CatchAt self.old.cursor self.new.cursor) }
        ensures missed { IfErr result (NoCatch self.old.cursor) }
        ensures refused { IfErr result (IsRefusal self.new.cursor.text) }
    {
        let start = self.cursor.next_start();
        if self.accept_word("catch") {
            return Ok(Expected::Handler(start));
        }
        match self.sees_word("finally") {
            true => Ok(Expected::Gap),
            false => Err(self.syntax_error()),
        }
    }

    /// Goes past `extends`, after which a superclass is to be read; a gap if there is none (14.6).
    fn heritage_symbol(&mut self) -> Expected
        ensures text { self.new.cursor.text ≡ self.old.cursor.text }
        ensures forward { self.old.cursor.last.stop ≤ self.new.cursor.last.stop }
        ensures same_tree { self.new.tree ≡ self.old.tree }
        ensures same_open { self.new.cursor.opened ≡ self.old.cursor.opened }
        ensures same_pairs { self.new.pairs.items ≡ self.old.pairs.items }
        ensures handler { IfHandler result ⊥ }
        ensures read { HeritageAt self.old.cursor self.new.cursor result }
    {
        match self.accept_word("extends") {
            true => Expected::Expression(ExpressionContext::at(Rank::LeftHandSide, true)),
            false => Expected::Gap,
        }
    }

    /// What is to be read for a symbol that begins with `else`, `finally`, `catch` or `extends`.
    fn keyword_symbol(
        &mut self,
        piece: Symbol,
        context: StatementContext,
    ) -> Result<Expected, Fault>
        ensures text { self.new.cursor.text ≡ self.old.cursor.text }
        ensures forward { self.old.cursor.last.stop ≤ self.new.cursor.last.stop }
        ensures same_tree { self.new.tree ≡ self.old.tree }
        ensures handler { IfOk result (λ want. IfHandler want (Passes self.old.cursor self.new.cursor)) }
        ensures same_open { self.new.cursor.opened ≡ self.old.cursor.opened }
        ensures same_pairs { self.new.pairs.items ≡ self.old.pairs.items }
        ensures read { IfOk result (WordedAt piece context.returns self.old.cursor self.new.cursor) }
        ensures missed { IfErr result (NotWorded piece self.old.cursor) }
        ensures refused { IfErr result (IsRefusal self.new.cursor.text) }
    {
        match piece {
            Symbol::Else => Ok(self.else_symbol()),
            Symbol::Finally => Ok(self.finally_symbol(context)),
            Symbol::Catch => self.catch_symbol(),
            Symbol::ClassHeritage => Ok(self.heritage_symbol()),
            _ => Ok(Expected::Gap),
        }
    }

    /// What is to be read first in the parentheses of a `for` (13.7): a declaration's list, an expression, or a gap.
    fn for_head_symbol(&mut self, built: &mut PartialStatement<'s>) -> Expected
        ensures text { self.new.cursor.text ≡ self.old.cursor.text }
        ensures forward { self.old.cursor.last.stop ≤ self.new.cursor.last.stop }
        ensures same_tree { self.new.tree ≡ self.old.tree }
        ensures handler { IfHandler result ⊥ }
        ensures same_open { self.new.cursor.opened ≡ self.old.cursor.opened }
        ensures same_pairs { self.new.pairs.items ≡ self.old.pairs.items }
        ensures read { HeadAt self.old.cursor self.new.cursor result built.new.word }
        ensures built { built.new ≡ record built.old { word = built.new.word } }
    {
        if self.sees_punctuator(";") {
            return Expected::Gap;
        }
        built.word = self.declaration_word();
        match built.word.is_some() {
            true => Expected::List(ListKind::Declarators { has_in: false }),
            false => Expected::Expression(ExpressionContext::at(Rank::Expression, false)),
        }
    }

    /// What is to be read for a symbol; it goes past the symbol's own tokens.
    fn expected(
        &mut self,
        piece: Symbol,
        built: &mut PartialStatement<'s>,
        context: StatementContext,
        high: u32,
    ) -> Result<Expected, Fault>
        ensures text { self.new.cursor.text ≡ self.old.cursor.text }
        ensures forward { self.old.cursor.last.stop ≤ self.new.cursor.last.stop }
        ensures waits { (base : Parts) → self.old.tree ≡ join base built.old.nodes → IfOk result (λ _. self.new.tree ≡ join base built.new.nodes) }
        ensures same_open { self.new.cursor.opened ≡ self.old.cursor.opened }
        ensures same_pairs { self.new.pairs.items ≡ self.old.pairs.items }
        ensures handler { IfOk result (λ want. IfHandler want (Passes self.old.cursor self.new.cursor)) }
        ensures read { IfOk result (ExpectedAt piece context.returns self.old.cursor self.new.cursor built.old built.new high) }
        ensures failed { IfErr result (NotExpected piece self.old.cursor built.old.edge high) }
        ensures refused { IfErr result (IsRefusal self.new.cursor.text) }
    {
        if let Some(want) = expected_always(piece, context) {
            return Ok(want);
        }
        match piece {
            Symbol::Test => Ok(expected_where(
                !self.sees_punctuator(";"),
                ExpressionContext::EXPRESSION,
            )),
            Symbol::Update => Ok(expected_where(
                !self.sees_punctuator(")"),
                ExpressionContext::EXPRESSION,
            )),
            Symbol::Argument => Ok(expected_where(
                self.sees_argument(),
                ExpressionContext::EXPRESSION,
            )),
            Symbol::ForHead => Ok(self.for_head_symbol(built)),
            Symbol::PunctuatorToken(_)
            | Symbol::KeywordToken(_)
            | Symbol::NoLineTerminator
            | Symbol::Label => {
                self.token_symbol(piece, built, high)?;
                Ok(Expected::Nothing)
            }
            Symbol::Semicolon | Symbol::DoWhileSemicolon => {
                self.token_symbol(piece, built, high)?;
                Ok(Expected::Nothing)
            }
            _ => self.keyword_symbol(piece, context),
        }
    }

    /// The symbols of a handler after `catch` (13.15): with a parameter if `(` stands ahead.
    fn catch_symbols(&self) -> &'static [Symbol]
        ensures { CatchParts self.now.cursor.text self.now.cursor.last (map piece_of result.now) }
    {
        match self.sees_punctuator("(") {
            true => &[
                Symbol::PunctuatorToken("("),
                Symbol::Binding,
                Symbol::PunctuatorToken(")"),
                Symbol::Block,
            ],
            false => &[Symbol::NoCatchParameter, Symbol::Block],
        }
    }

    /// Pieces, one behind the other; `high` is the greatest height of a part.
    #[cycle(grammar)]
    #[inline(never)]
    pub(crate) fn read_symbols(
        &mut self,
        pieces: &[Symbol],
        built: &mut PartialStatement<'s>,
        context: StatementContext,
        high: u32,
    ) -> Result<(), Fault>
        ensures text { self.new.cursor.text ≡ self.old.cursor.text }
        ensures forward { self.old.cursor.last.stop ≤ self.new.cursor.last.stop }
        ensures waits { (base : Parts) → self.old.tree ≡ join base built.old.nodes → IfOk result (λ _. self.new.tree ≡ join base built.new.nodes) }
        ensures derived { IfOk result (λ _. Adds self.old.cursor self.new.cursor self.old.pairs.items self.new.pairs.items (BuiltAt self.old.cursor.text context.returns (map piece_of pieces.now) built.old built.new)) }
        ensures low { IfOk result (λ _. parts_height built.old.nodes ≤ high → parts_height built.new.nodes ≤ high) }
        ensures own { IfOk result (λ _. AllOfLanguage self.old.cursor.text built.old.nodes → AllOfLanguage self.old.cursor.text built.new.nodes) }
        ensures complete { SymbolsComplete self.old.cursor self.new.cursor self.old.pairs.items self.new.pairs.items high (map piece_of pieces.now) context.returns built.old built.new result }
        ensures refused { IfErr result (IsRefusal self.new.cursor.text) }
    {
        let inner = high.saturating_sub(1);
        'each: for piece in pieces {
            match self.expected(*piece, built, context, high)? {
                Expected::Nothing => {}
                Expected::Gap => built.nodes.push_gap(&mut self.tree)?,
                Expected::Expression(position) => {
                    let part = self.expression(position, high)?;
                    let each = self.sees_in_or_of();
                    add_expression(&self.cursor, &mut self.tree, built, *piece, each, part)?;
                }
                Expected::Binding => {
                    let part = self.leftmost_operand(
                        ExpressionContext::at(Rank::Primary, true),
                        high,
                    )?;
                    add_expression(&self.cursor, &mut self.tree, built, *piece, false, part)?;
                }
                Expected::Statement => {
                    built.nodes.push(self.statement(context.inside(), high)?)?;
                }
                Expected::Block(context) => {
                    let left = self.expect_punctuator("{")?;
                    let list = self.statements(StatementListEnd::ClosingBrace, context, inner)?;
                    self.expect_punctuator("}")?;
                    let span = span_from(&self.cursor, left);
                    let kind = Kind::BlockStatement;
                    let block = finish_plain(&mut self.tree, kind, span, list, high)?;
                    built.nodes.push(block)?;
                }
                Expected::Handler(start) => {
                    let mut caught = PartialStatement::new();
                    self.read_symbols(self.catch_symbols(), &mut caught, context, inner)?;
                    let span = span_from(&self.cursor, start);
                    let kind = Kind::CatchClause;
                    let handler = finish_plain(&mut self.tree, kind, span, caught.nodes, high)?;
                    built.nodes.push(handler)?;
                }
                Expected::Items(until) => {
                    let context = StatementContext::item(context.returns);
                    built.nodes.append(self.statements(until, context, high)?)?;
                }
                Expected::List(listed) => {
                    let limit = high.saturating_sub(list_node_height(listed));
                    let list = self.open(listed, limit)?;
                    let list = self.list(list, limit)?;
                    let each = self.sees_in_or_of();
                    add_list(&self.cursor, &mut self.tree, built, list, each, high)?;
                }
            }
        }
        Ok(())
    }
}

/// The node that a symbol makes of its expression: a pattern in the head of a `for` with `in` or `of` ahead
/// (`each`), or a binding.
fn symbol_node(
    cursor: &Cursor<'_, '_>,
    tree: &mut TreeBuilder<'_>,
    piece: Symbol,
    each: bool,
    part: Operand,
) -> Result<MeasuredNode, Fault>
    ensures made { BecomesHere (put_node piece each part.cover.node) (takes_put piece each part.cover.shape) cursor.now result }
    ensures waits { (base : Parts) → tree.old ≡ push base part.cover.node → IfOk result (λ n. tree.new ≡ push base n) }
    ensures refused { IfErr result (IsRefusal cursor.now.text) }
{
    match piece {
        Symbol::ForHead if each => part.cover.to_pattern(tree, cursor.next_start()),
        Symbol::Binding => bound(cursor, tree, part),
        _ => part.into_expression(cursor.next_start()),
    }
}

/// Adds the expression that was read for a symbol.
fn add_expression(
    cursor: &Cursor<'_, '_>,
    tree: &mut TreeBuilder<'_>,
    built: &mut PartialStatement<'_>,
    piece: Symbol,
    each: bool,
    part: Operand,
) -> Result<(), Fault>
    ensures put { IfOk result (λ _. built.new ≡ with_part built.old (put_node piece each part.cover.node) part.edge) }
    ensures fits { IfOk result (λ _. takes_put piece each part.cover.shape ≡ true) }
    ensures failed { IfErr result (RefusedUnless (IsPlaceHere cursor.now) (takes_put piece each part.cover.shape)) }
    ensures waits { (base : Parts) → tree.old ≡ push (join base built.old.nodes) part.cover.node → IfOk result (λ _. tree.new ≡ join base built.new.nodes) }
    ensures refused { IfErr result (IsRefusal cursor.now.text) }
{
    built.edge = part.edge;
    let node = symbol_node(cursor, tree, piece, each, part)?;
    built.nodes.push(node)
}

/// Adds the list that was read for a symbol; no part may be higher than `high`.
fn add_list<'s>(
    cursor: &Cursor<'_, 's>,
    tree: &mut TreeBuilder<'s>,
    built: &mut PartialStatement<'s>,
    list: ListBuilder,
    each: bool,
    high: u32,
) -> Result<(), Fault>
    ensures put { IfOk result (λ _. built.new ≡ with_list built.old list cursor.now.last.stop) }
    ensures fits { IfOk result (λ _. (takes_list built.old.word each list ≡ true) × (list_levels list ≤ high)) }
    ensures failed { IfErr result (RefusedWhere (IsPlaceHere cursor.now) (takes_list built.old.word each list) (list_levels list) high) }
    ensures waits { (base : Parts) → tree.old ≡ join (join base built.old.nodes) list.nodes → IfOk result (λ _. tree.new ≡ join base built.new.nodes) }
    ensures refused { IfErr result (IsRefusal cursor.now.text) }
{
    built.edge = list.seen.edge;
    let at = cursor.next_start();
    match list.listed {
        ListKind::Declarators { has_in: true } if list.seen.is_flagged => Err(
            cursor.syntax_error(),
        ),
        ListKind::Declarators { has_in: false } => add_for_declaration(
            cursor, tree, built, list, each, high,
        ),
        ListKind::Parameters | ListKind::NoParameter | ListKind::OneParameter => {
            built.nodes.append(list.into_parameters(tree, at)?)
        }
        ListKind::Members => {
            let body = finish_plain(tree, Kind::ClassBody, list.span, list.nodes, high)?;
            built.nodes.push(body)
        }
        ListKind::Declarators { .. } | ListKind::Cases { .. } => built.nodes.append(list.nodes),
        _ => Err(cursor.syntax_error()),
    }
}

/// Adds the declaration in the head of a `for` (13.7.4, 13.7.5).
fn add_for_declaration<'s>(
    cursor: &Cursor<'_, 's>,
    tree: &mut TreeBuilder<'s>,
    built: &mut PartialStatement<'s>,
    list: ListBuilder,
    each: bool,
    high: u32,
) -> Result<(), Fault>
    ensures put { IfOk result (λ _. built.new ≡ with_part built.old (head_node built.old.word cursor.now.last.stop list.nodes) built.old.edge) }
    ensures fits { IfOk result (λ _. (takes_head built.old.word each list ≡ true) × (head_levels list.nodes ≤ high)) }
    ensures failed { IfErr result (RefusedWhere (IsPlaceHere cursor.now) (takes_head built.old.word each list) (head_levels list.nodes) high) }
    ensures waits { (base : Parts) → tree.old ≡ join (join base built.old.nodes) list.nodes → IfOk result (λ _. tree.new ≡ join base built.new.nodes) }
    ensures refused { IfErr result (IsRefusal cursor.now.text) }
{
    let Some(word) = built.word else {
        return Err(cursor.syntax_error());
    };
    if !fits_for_head(each, &list) {
        return Err(cursor.syntax_error());
    }
    let span = span_from(cursor, word.start);
    let kind = Kind::VariableDeclaration;
    let node = finish_node(tree, kind, word.text, Flags::PLAIN, span, list.nodes, high)?;
    built.nodes.push(node)
}
