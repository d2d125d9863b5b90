//! Statements, functions, classes and their parts as lists of pieces (ECMA-262 clauses 13 and 14).
#![tactic(auto, using(crate::proofs::Refusals::refusals))]

ghost use Rattle.std.specs.Prelude.{◌≡◌, true, false, map};
ghost use Rattle.tokens.specs.Scanned.{token_of};
ghost use Rattle.language.specs.Token.{as_read};
ghost use Rattle.language.specs.Edges.{begins_no_operand};
ghost use Rattle.parser_tables.specs.Tests.{ends_word, is_each};
ghost use Rattle.parser_tables.specs.StatementSymbols.{is_for, piece_of, statement_parts, loop_parts, switch_parts, case_parts, class_parts, parameters_and_body, body_parts};
ghost use Rattle.parser_tables.specs.StatementNodes.{partial_of, listed_depth, fits_head};
ghost use Rattle.tree.specs.Tree.{none};

use crate::statements::StatementKind;
use covers::{ListBuilder, ListKind};
use language::Edge;
use productions::MeasuredParts;
use token_cursor::is_punctuator;
use tokens::{Token, TokenClass};

/// What was read of a statement, a case, a handler, a function or a class.
#[derive(Drop)]
pub struct PartialStatement<'s> {
    pub nodes: MeasuredParts,
    /// The right edge of the last part.
    pub edge: Edge,
    /// The word that declares in the head of a `for`.
    pub word: Option<Token<'s>>,
}

impl<'s> PartialStatement<'s> {
    /// No parts.
    pub fn new() -> PartialStatement<'s>
        ensures { result ≡ partial_of none }
    {
        PartialStatement::of(MeasuredParts::new())
    }

    /// These parts.
    pub fn of(nodes: MeasuredParts) -> PartialStatement<'s>
        ensures { result ≡ partial_of nodes }
    {
        PartialStatement {
            nodes,
            edge: Edge::Closed,
            word: None,
        }
    }
}

/// A piece of a statement, a function or a class.
#[derive(Clone, Copy, PartialEq, Eq)]
pub enum Symbol {
    /// This punctuator.
    PunctuatorToken(&'static str),
    /// This name.
    KeywordToken(&'static str),
    /// No line break stands here.
    NoLineTerminator,
    /// A label on the same line, or nothing.
    Label,
    /// The `;` of a `do`, or where it may be missing.
    DoWhileSemicolon,
    /// The `;` behind the last part, or where it may be missing.
    Semicolon,
    /// An Expression, with In.
    Expression,
    /// An AssignmentExpression, with In.
    Assignment,
    /// The test of a `for`, or nothing before `;`.
    Test,
    /// What a `for` does behind each turn, or nothing before `)`.
    Update,
    /// An expression on the same line, or nothing where the statement ends.
    Argument,
    /// `extends` and a superclass, or nothing.
    ClassHeritage,
    /// A name or pattern that is bound.
    Binding,
    Statement,
    /// `else` and a statement, or nothing.
    Else,
    Block,
    /// `finally` and a block, or nothing.
    Finally,
    /// The body of a function.
    FunctionBody,
    /// What is done with what was thrown, or nothing.
    Catch,
    /// The statements of a block, up to its `}`.
    StatementList,
    /// The statements of a case.
    CaseStatements,
    List(ListKind),
    /// What stands first in the parentheses of a `for`.
    ForHead,
    /// The parameter of a handler that has none.
    NoCatchParameter,
}

/// The pieces of a statement, behind its first token; `returns`: `return` may stand in it.
pub fn statement_symbols(headed: StatementKind, returns: bool) -> &'static [Symbol]
    ensures { map piece_of result.now ≡ statement_parts headed returns }
{
    match headed {
        StatementKind::Block => &[Symbol::StatementList, Symbol::PunctuatorToken("}")],
        StatementKind::Empty => &[],
        StatementKind::Variable => &[
            Symbol::List(ListKind::Declarators { has_in: true }),
            Symbol::Semicolon,
        ],
        StatementKind::If => &[
            Symbol::PunctuatorToken("("),
            Symbol::Expression,
            Symbol::PunctuatorToken(")"),
            Symbol::Statement,
            Symbol::Else,
        ],
        StatementKind::Continue | StatementKind::Break => &[Symbol::Label, Symbol::Semicolon],
        StatementKind::Return => &[Symbol::Argument, Symbol::Semicolon],
        StatementKind::Throw => &[
            Symbol::NoLineTerminator,
            Symbol::Expression,
            Symbol::Semicolon,
        ],
        StatementKind::Switch => switch_symbols(returns),
        StatementKind::Try => &[Symbol::Block, Symbol::Catch, Symbol::Finally],
        StatementKind::Debugger => &[Symbol::Semicolon],
        StatementKind::Label => &[Symbol::PunctuatorToken(":"), Symbol::Statement],
        StatementKind::Do | StatementKind::While => loop_symbols(headed),
        _ => for_symbols(headed),
    }
}

/// The symbols of a `do` or `while` after its word (13.7).
fn loop_symbols(headed: StatementKind) -> &'static [Symbol]
    ensures { is_for headed ≡ false → map piece_of result.now ≡ loop_parts headed }
{
    match headed {
        StatementKind::Do => &[
            Symbol::Statement,
            Symbol::KeywordToken("while"),
            Symbol::PunctuatorToken("("),
            Symbol::Expression,
            Symbol::PunctuatorToken(")"),
            Symbol::DoWhileSemicolon,
        ],
        _ => &[
            Symbol::PunctuatorToken("("),
            Symbol::Expression,
            Symbol::PunctuatorToken(")"),
            Symbol::Statement,
        ],
    }
}

/// The symbols of a `for` after its word, and after what stands first in its parentheses (13.7.4, 13.7.5).
fn for_symbols(headed: StatementKind) -> &'static [Symbol]
    ensures { is_for headed ≡ true → map piece_of result.now ≡ loop_parts headed }
{
    match headed {
        StatementKind::ForLoop => &[
            Symbol::PunctuatorToken(";"),
            Symbol::Test,
            Symbol::PunctuatorToken(";"),
            Symbol::Update,
            Symbol::PunctuatorToken(")"),
            Symbol::Statement,
        ],
        StatementKind::ForIn => &[
            Symbol::KeywordToken("in"),
            Symbol::Expression,
            Symbol::PunctuatorToken(")"),
            Symbol::Statement,
        ],
        StatementKind::ForOf => &[
            Symbol::KeywordToken("of"),
            Symbol::Assignment,
            Symbol::PunctuatorToken(")"),
            Symbol::Statement,
        ],
        _ => &[Symbol::PunctuatorToken("("), Symbol::ForHead],
    }
}

/// The symbols of a `switch` after its word (13.12).
fn switch_symbols(returns: bool) -> &'static [Symbol]
    ensures { map piece_of result.now ≡ switch_parts returns }
{
    match returns {
        true => &[
            Symbol::PunctuatorToken("("),
            Symbol::Expression,
            Symbol::PunctuatorToken(")"),
            Symbol::List(ListKind::Cases { returns: true }),
        ],
        false => &[
            Symbol::PunctuatorToken("("),
            Symbol::Expression,
            Symbol::PunctuatorToken(")"),
            Symbol::List(ListKind::Cases { returns: false }),
        ],
    }
}

/// The pieces of a case behind its word (13.12).
pub fn case_symbols(is_default: bool) -> &'static [Symbol]
    ensures { map piece_of result.now ≡ case_parts is_default }
{
    match is_default {
        true => &[Symbol::PunctuatorToken(":"), Symbol::CaseStatements],
        false => &[
            Symbol::Expression,
            Symbol::PunctuatorToken(":"),
            Symbol::CaseStatements,
        ],
    }
}

/// The pieces of a class behind its name (14.6).
pub(crate) fn class_symbols() -> &'static [Symbol]
    ensures { map piece_of result.now ≡ class_parts }
{
    &[Symbol::ClassHeritage, Symbol::List(ListKind::Members)]
}

/// The pieces of a function from its parameters on (14.1, 14.3).
pub(crate) fn function_symbols(parameters: ListKind) -> &'static [Symbol]
    ensures { map piece_of result.now ≡ parameters_and_body parameters }
{
    match parameters {
        ListKind::NoParameter => &[Symbol::List(ListKind::NoParameter), Symbol::FunctionBody],
        ListKind::OneParameter => &[Symbol::List(ListKind::OneParameter), Symbol::FunctionBody],
        _ => &[Symbol::List(ListKind::Parameters), Symbol::FunctionBody],
    }
}

/// The pieces of a body (14.1, 14.2).
pub fn body_symbols() -> &'static [Symbol]
    ensures { map piece_of result.now ≡ body_parts }
{
    &[Symbol::FunctionBody]
}

/// Whether behind a word no argument begins with the token.
pub fn ends_operand(token: &Token<'_>) -> bool
    ensures { result ≡ ends_word (as_read (token_of token.now)) }
{
    token.after_break
        || token.class == TokenClass::End
        || is_punctuator(token, ";")
        || is_punctuator(token, "}")
}

/// Whether behind `yield` no operand begins with the token: it stands on another line, or closes what `yield` stands in (15.5 of the 13th
/// edition).
pub fn begins_no_operand(token: &Token<'_>) -> bool
    ensures { result ≡ begins_no_operand (as_read (token_of token.now)) }
{
    if token.after_break || token.class == TokenClass::End {
        return true;
    }
    match token.text.as_bytes() {
        [b'}', ..] => true,
        [b')' | b']' | b',' | b';' | b':'] => token.class == TokenClass::Punctuator,
        _ => false,
    }
}

/// Whether the token is `in` or `of`.
pub fn is_in_or_of(token: &Token<'_>) -> bool
    ensures { result ≡ is_each (as_read (token_of token.now)) }
{
    token.class == TokenClass::IdentifierName && matches!(token.text, "in" | "of")
}

/// Whether the declarators may stand in the head of a `for`: before `in` or `of` (`each`) one without a value, before `;` none that is a pattern
/// without one.
pub fn fits_for_head(each: bool, list: &ListBuilder) -> bool
    ensures { result ≡ fits_head each list.now }
{
    match each {
        true => list.nodes.len() == 1 && matches!(list.seen.edge, Edge::Closed),
        false => !list.seen.is_flagged,
    }
}

/// How many levels of height the node takes that a list is put into before it gets its place in the statement: 1 for a class body and for the
/// declaration in the head of a `for`, else 0.
pub fn list_node_height(listed: ListKind) -> u32
    ensures { result ≡ listed_depth listed }
{
    match listed {
        ListKind::Members | ListKind::Declarators { has_in: false } => 1,
        _ => 0,
    }
}
