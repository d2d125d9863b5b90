//! Statements and declarations (ECMA-262 clause 13, 14.1, 14.6), by the first token.
#![tactic(auto, using(crate::proofs::Refusals::refusals))]

ghost use Rattle.std.specs.Prelude.{◌≡◌, ◌≢◌, true, ◌<◌, Bool, false, codes};
ghost use Rattle.language.specs.Token.{as_read};
ghost use Rattle.language.specs.StatementStart.{statement_start, statement_start_by, statement_start_among, statement_words};
ghost use Rattle.grammar.specs.OperatorRows.{begins_with, only_texts};
ghost use Rattle.parser_tables.specs.Tests.{ends};
ghost use Rattle.parser_tables.specs.StatementStarts.{coded_statement_start};
ghost use Rattle.tokens.specs.Scanned.{token_of};
ghost use Rattle.parser_tables.specs.Moves.{IfKind};
ghost use Rattle.parser_tables.specs.StatementNodes.{statement_node_kind, item_context, inner_context};

use crate::functions_and_classes::FunctionOrClass;
use grammar::first_byte;
use token_cursor::{is_name_token, is_punctuator};
use tokens::{Token, TokenClass};
use tree::{Form, Kind};

/// What a statement is by its first token, or by what its head holds.
#[derive(Clone, Copy, Debug, PartialEq, Eq)]
pub enum StatementKind {
    Block,
    Empty,
    Variable,
    If,
    Do,
    While,
    /// Of whatever kind, before that is known.
    For,
    ForLoop,
    ForIn,
    ForOf,
    Continue,
    Break,
    Return,
    Throw,
    Switch,
    Try,
    Debugger,
    Label,
}

impl StatementKind {
    /// The kind of its node.
    pub fn kind(self) -> Kind
        ensures { result ≡ statement_node_kind self }
    {
        match self {
            StatementKind::Block => Kind::BlockStatement,
            StatementKind::Empty => Kind::EmptyStatement,
            StatementKind::Variable => Kind::VariableDeclaration,
            StatementKind::If => Kind::IfStatement,
            StatementKind::Do => Kind::DoWhileStatement,
            StatementKind::While => Kind::WhileStatement,
            StatementKind::For | StatementKind::ForLoop => Kind::ForStatement,
            StatementKind::ForIn => Kind::ForInStatement,
            StatementKind::ForOf => Kind::ForOfStatement,
            StatementKind::Continue => Kind::ContinueStatement,
            StatementKind::Break => Kind::BreakStatement,
            StatementKind::Return => Kind::ReturnStatement,
            StatementKind::Throw => Kind::ThrowStatement,
            StatementKind::Switch => Kind::SwitchStatement,
            StatementKind::Try => Kind::TryStatement,
            StatementKind::Debugger => Kind::DebuggerStatement,
            StatementKind::Label => Kind::LabeledStatement,
        }
    }
}

/// Where a statement stands.
#[derive(Clone, Copy)]
pub struct StatementContext {
    /// Declarations may stand there too.
    pub is_item: bool,
    /// All statements before it, from the beginning of the script or body, are directives.
    pub is_prologue: bool,
    /// `return` may stand there.
    pub returns: bool,
}

impl StatementContext {
    /// Of the first item of a script.
    pub const SCRIPT: StatementContext = StatementContext {
        is_item: true,
        is_prologue: true,
        returns: false,
    };

    /// Of the first item of a function's body.
    pub const BODY: StatementContext = StatementContext {
        is_item: true,
        is_prologue: true,
        returns: true,
    };

    /// Of an item of a block or a case.
    pub fn item(returns: bool) -> StatementContext
        ensures { result ≡ item_context returns }
    {
        StatementContext {
            is_item: true,
            is_prologue: false,
            returns,
        }
    }

    /// Of a statement in a statement there.
    pub fn inside(self) -> StatementContext
        ensures { result ≡ inner_context self.returns }
    {
        StatementContext {
            is_item: false,
            is_prologue: false,
            returns: self.returns,
        }
    }
}

/// Where a list of statements ends.
#[derive(Clone, Copy, PartialEq, Eq)]
pub enum StatementListEnd {
    /// Before `}`.
    ClosingBrace,
    /// Before `case`, `default` or `}`.
    NextCase,
    /// At the end of the text.
    EndOfText,
}

/// What a statement begins with.
#[derive(Clone, Copy)]
pub enum StatementStart {
    OfKind(StatementKind),
    /// A function or a class that is declared.
    FunctionOrClass(FunctionOrClass),
    Expression,
}

/// What a word begins where a declaration may stand too, by its first letter.
fn start_of_item(word: &str, returns: bool) -> StatementStart
    ensures { result ≡ coded_statement_start (statement_start_by true returns TokenClass.IdentifierName word.now) }
{
    match first_byte(word) {
        b'c' | b'f' | b'l' => start_of_declaration(word, returns),
        _ => start_of_statement_word(word, returns),
    }
}

/// What a word begins where a declaration may stand, if its first letter is that of one.
fn start_of_declaration(word: &str, returns: bool) -> StatementStart
    ensures { result ≡ coded_statement_start (statement_start_by true returns TokenClass.IdentifierName word.now) }
{
    match word {
        "function" => StatementStart::FunctionOrClass(FunctionOrClass::FunctionDeclaration(
            Form::Init,
        )),
        "class" => StatementStart::FunctionOrClass(FunctionOrClass::ClassDeclaration),
        "let" | "const" => StatementStart::OfKind(StatementKind::Variable),
        _ => start_of_statement_word(word, returns),
    }
}

/// What a word begins where only a statement may stand, by its first letter, which few names share with a keyword.
fn start_of_statement_word(word: &str, returns: bool) -> StatementStart
    ensures { result ≡ coded_statement_start (statement_start_by false returns TokenClass.IdentifierName word.now) }
{
    match first_byte(word) {
        b'b' | b'd' | b'i' => start_with_bdi(word),
        b'c' | b'f' | b'v' => start_with_cfv(word),
        b'r' | b't' => start_with_rt(word, returns),
        b's' | b'w' => start_with_sw(word),
        _ => StatementStart::Expression,
    }
}

/// What a word that begins with `b`, `d` or `i` begins as a statement.
fn start_with_bdi(word: &str) -> StatementStart
    ensures { result ≡ coded_statement_start (statement_start_among word.now (only_texts (begins_with (codes "bdi")) (statement_words true))) }
{
    StatementStart::OfKind(match word {
        "if" => StatementKind::If,
        "do" => StatementKind::Do,
        "break" => StatementKind::Break,
        "debugger" => StatementKind::Debugger,
        _ => return StatementStart::Expression,
    })
}

/// What a word that begins with `c`, `f` or `v` begins as a statement.
fn start_with_cfv(word: &str) -> StatementStart
    ensures { result ≡ coded_statement_start (statement_start_among word.now (only_texts (begins_with (codes "cfv")) (statement_words true))) }
{
    StatementStart::OfKind(match word {
        "var" => StatementKind::Variable,
        "for" => StatementKind::For,
        "continue" => StatementKind::Continue,
        _ => return StatementStart::Expression,
    })
}

/// What a word that begins with `r` or `t` begins as a statement; `return` only if `returns`.
fn start_with_rt(word: &str, returns: bool) -> StatementStart
    ensures { result ≡ coded_statement_start (statement_start_among word.now (only_texts (begins_with (codes "rt")) (statement_words returns))) }
{
    StatementStart::OfKind(match word {
        "return" if returns => StatementKind::Return,
        "throw" => StatementKind::Throw,
        "try" => StatementKind::Try,
        _ => return StatementStart::Expression,
    })
}

/// What a word that begins with `s` or `w` begins as a statement.
fn start_with_sw(word: &str) -> StatementStart
    ensures { result ≡ coded_statement_start (statement_start_among word.now (only_texts (begins_with (codes "sw")) (statement_words true))) }
{
    StatementStart::OfKind(match word {
        "while" => StatementKind::While,
        "switch" => StatementKind::Switch,
        _ => return StatementStart::Expression,
    })
}

/// What a word begins in this context.
fn start_of_name(word: &str, context: StatementContext) -> StatementStart
    ensures { result ≡ coded_statement_start (statement_start_by context.is_item context.returns TokenClass.IdentifierName word.now) }
{
    match context.is_item {
        true => start_of_item(word, context.returns),
        false => start_of_statement_word(word, context.returns),
    }
}

/// What a punctuator begins where a statement may stand: a block, an empty statement or an expression.
fn start_of_statement_punctuator(mark: &str) -> StatementStart
    ensures { (item returns : Bool) → result ≡ coded_statement_start (statement_start_by item returns TokenClass.Punctuator mark.now) }
{
    match mark.as_bytes() {
        b"{" => StatementStart::OfKind(StatementKind::Block),
        b";" => StatementStart::OfKind(StatementKind::Empty),
        _ => StatementStart::Expression,
    }
}

/// What a token begins where a statement may stand.
pub fn statement_start_of(token: &Token<'_>, context: StatementContext) -> StatementStart
    ensures real { IfKind result (token.now.class ≢ TokenClass.End) }
    ensures coded { result ≡ coded_statement_start (statement_start context.is_item context.returns (as_read (token_of token.now))) }
{
    match token.class {
        TokenClass::IdentifierName => start_of_name(token.text, context),
        TokenClass::Punctuator => start_of_statement_punctuator(token.text),
        _ => StatementStart::Expression,
    }
}

/// Whether a list of statements ends before the token.
pub fn ends_statements(until: StatementListEnd, token: &Token<'_>) -> bool
    ensures { result ≡ ends until (as_read (token_of token.now)) }
{
    match until {
        StatementListEnd::ClosingBrace => is_punctuator(token, "}"),
        StatementListEnd::NextCase => is_punctuator(token, "}")
            || is_name_token(token, "case")
            || is_name_token(token, "default"),
        StatementListEnd::EndOfText => token.class == TokenClass::End,
    }
}
