//! What the first token of an expression begins (ECMA-262 12.2 to 12.5, 14.1, 14.2, 14.6).
#![tactic(auto, using(crate::proofs::Refusals::refusals))]

ghost use Rattle.std.specs.Prelude.{◌≡◌, ◌≢◌, ◌<◌, ◌+◌, ◌-◌, IfErr, IfOk, IfSome, true};
ghost use Rattle.language.specs.Token.{as_read};
ghost use Rattle.language.specs.ExpressionStart.{expression_start_by, expression_start};
ghost use Rattle.parser_tables.specs.ExpressionStarts.{coded_start, coded_in, coded_name, coded_word, stood};
ghost use Rattle.tokens.specs.Scanned.{token_of};
ghost use Rattle.tree.specs.Tree.{Parts, height, push, join};
ghost use Rattle.parser_tables.specs.Tests.{continues_super};
ghost use Rattle.parser_tables.specs.Moves.{BeginsList};
ghost use Rattle.parser_tables.specs.Items.{listed_kind, listed_node, listed_part, is_grouped, group_levels, list_group};
ghost use Rattle.parser_tables.specs.Outcomes.{MakesAs, YieldsWhere};
ghost use Rattle.parser_tables.specs.Operands.{group_part};
ghost use Rattle.token_cursor.specs.Refusals.{IsLimit, IsStop};
ghost use Rattle.parser_tables.specs.Tokens.{single_text, without_hash};

use crate::expression_context::ExpressionContext;
use crate::operand::Operand;
use crate::token_tests::is_template_head;
use covers::{Cover, CoverShape, ListBuilder, ListKind};
use grammar::{accepts_rank, is_reserved};
use language::{Edge, Language, Rank, Start};
use productions::{MeasuredNode, finish_plain};
use source_text::Fault;
use token_cursor::is_punctuator;
use tokens::{Token, TokenClass};
use tree::{Kind, Pair, TreeBuilder};

/// What an expression begins with.
#[derive(Clone, Copy)]
pub enum ExpressionStart {
    /// One token: a name, a literal or `this`.
    OneToken(Kind),
    /// An array, an object or a template.
    List(ListKind),
    Function,
    Class,
    Parenthesis,
    Super,
    New,
    Import,
    /// `async`, as a name or before a function (15.8, 15.9 of the 13th edition).
    Async,
    /// `yield` (15.5 of the 13th edition).
    Yield,
    /// A private name, before `in` (13.10 of the 13th edition).
    PrivateName,
    /// An operator, by the symbols of its node and of its operand.
    Prefix(Rank, Rank),
}

/// What a word begins where an expression may stand; none for a reserved word that begins nothing.
fn start_of_word(word: &str, language: Language) -> Option<ExpressionStart>
    ensures list { IfSome result BeginsList }
    ensures coded { result ≡ coded_word language word.now }
{
    if !is_reserved(word) {
        return Some(start_of_name(word, language));
    }
    Some(match word {
        "this" => ExpressionStart::OneToken(Kind::ThisExpression),
        "function" => ExpressionStart::Function,
        "true" | "false" | "null" => ExpressionStart::OneToken(Kind::Literal),
        "class" => ExpressionStart::Class,
        "super" => ExpressionStart::Super,
        "new" => ExpressionStart::New,
        "import" => ExpressionStart::Import,
        "yield" if language != Language::Base => ExpressionStart::Yield,
        "delete" | "void" | "typeof" => ExpressionStart::Prefix(Rank::Unary, Rank::Unary),
        _ => return None,
    })
}

/// What a name begins that isn't reserved.
#[inline(always)]
fn start_of_name(name: &str, language: Language) -> ExpressionStart
    ensures { result ≡ coded_name language name.now }
{
    match language != Language::Base && name == "async" {
        true => ExpressionStart::Async,
        false => ExpressionStart::OneToken(Kind::Identifier),
    }
}

/// What a punctuator begins where an expression may stand; none if it begins nothing.
fn start_of_punctuator(mark: &str) -> Option<ExpressionStart>
    ensures list { IfSome result BeginsList }
    ensures coded { result ≡ coded_start (expression_start_by TokenClass.Punctuator mark.now) }
{
    Some(match mark.as_bytes() {
        b"[" => ExpressionStart::List(ListKind::Elements),
        b"{" => ExpressionStart::List(ListKind::Properties),
        b"(" => ExpressionStart::Parenthesis,
        b"++" | b"--" => ExpressionStart::Prefix(Rank::Update, Rank::LeftHandSide),
        b"+" | b"-" | b"~" | b"!" => ExpressionStart::Prefix(Rank::Unary, Rank::Unary),
        _ => return None,
    })
}

/// What an expression begins with in a text of this language, by its first token.
pub fn expression_start_of(token: &Token<'_>, language: Language) -> Option<ExpressionStart>
    ensures list { IfSome result BeginsList }
    ensures real { IfSome result (λ _. token.now.class ≢ TokenClass.End) }
    ensures coded { result ≡ coded_in language (as_read (token_of token.now)) }
{
    match token.class {
        TokenClass::IdentifierName => start_of_word(token.text, language),
        TokenClass::Punctuator => start_of_punctuator(token.text),
        TokenClass::NumericLiteral
        | TokenClass::StringLiteral
        | TokenClass::RegularExpressionLiteral => Some(ExpressionStart::OneToken(Kind::Literal)),
        TokenClass::Template => match is_template_head(token) {
            true => Some(ExpressionStart::List(ListKind::Template)),
            false => None,
        },
        TokenClass::PrivateName if language != Language::Base => Some(ExpressionStart::PrivateName),
        TokenClass::PrivateName => None,
        TokenClass::Keyword => start_of_keyword(token.text),
        TokenClass::End => None,
    }
}

/// What a name begins that only the language of the text reserves: `await` is an operator.
fn start_of_keyword(word: &str) -> Option<ExpressionStart>
    ensures list { IfSome result BeginsList }
    ensures coded { result ≡ coded_start (expression_start_by TokenClass.Keyword word.now) }
{
    match word {
        "await" => Some(ExpressionStart::Prefix(Rank::Unary, Rank::Unary)),
        _ => None,
    }
}

/// Whether it may stand at the position.
pub fn may_start(position: ExpressionContext, opening: ExpressionStart) -> bool
    ensures { result ≡ stood position.rank position.has_in position.start opening }
{
    match opening {
        ExpressionStart::List(ListKind::Properties) => matches!(position.start, Start::Any),
        ExpressionStart::Function | ExpressionStart::Class => !matches!(
            position.start,
            Start::Statement
        ),
        ExpressionStart::Prefix(own, _) => accepts_rank(position.rank, own),
        ExpressionStart::Import => accepts_rank(position.rank, Rank::Call),
        ExpressionStart::Yield => accepts_rank(position.rank, Rank::Assignment),
        ExpressionStart::PrivateName => {
            accepts_rank(position.rank, Rank::Relational) && position.has_in
        }
        _ => true,
    }
}

/// Whether the token goes on with `super`, where that may be a call or may not.
pub fn continues_super(token: &Token<'_>, takes_call: bool) -> bool
    ensures { result ≡ continues_super takes_call (as_read (token_of token.now)) }
{
    is_punctuator(token, ".")
        || is_punctuator(token, "[")
        || (takes_call && is_punctuator(token, "("))
}

/// The kind of what is listed.
fn list_node_kind(list: ListKind) -> Kind
    ensures { result ≡ listed_kind list }
{
    match list {
        ListKind::Elements => Kind::ArrayExpression,
        ListKind::Properties => Kind::ObjectExpression,
        _ => Kind::TemplateLiteral,
    }
}

/// An array, an object or a template (12.2.5, 12.2.6, 12.2.9), or the pattern that it covers; `high` is the greatest height.
pub fn finish_list(
    tree: &mut TreeBuilder<'_>,
    list: ListBuilder,
    high: u32,
) -> Result<Operand, Fault>
    ensures made { MakesAs (listed_part list) (height (listed_node list)) high result }
    ensures refused { IfErr result IsLimit }
    ensures waits { (base : Parts) → tree.old ≡ join base list.nodes → IfOk result (λ part. tree.new ≡ push base part.cover.node) }
{
    let shape = match list.listed {
        ListKind::Template => CoverShape::VALUE,
        _ => list.seen.shape,
    };
    let kind = list_node_kind(list.listed);
    let node = finish_plain(tree, kind, list.span, list.nodes, high)?;
    Ok(Operand::primary(node, shape))
}

/// The text of a private name's node: without its `#` (12.6 of the 13th edition).
#[inline(never)]
fn private_name_text(text: &str) -> &str
    ensures { result.now ≡ without_hash text.now }
{
    match text.strip_prefix('#') {
        Some(name) => name,
        None => text,
    }
}

/// The text of a node that is one token: `this` and `super` have none, and a private name's has no `#`.
#[inline(always)]
pub fn token_node_text(kind: Kind, text: &str) -> &str
    ensures { result.now ≡ single_text kind text.now }
{
    match kind {
        Kind::ThisExpression | Kind::Super => "",
        Kind::PrivateIdentifier => private_name_text(text),
        _ => text,
    }
}

/// What parentheses group (12.2.10): an expression, or several with commas between them.
pub fn finish_group(
    tree: &mut TreeBuilder<'_>,
    list: ListBuilder,
    at: usize,
    high: u32,
) -> Result<Operand, Fault>
    ensures made { YieldsWhere (list_group list) (λ place. place ≡ at) (is_grouped list) (group_levels list.nodes) high result }
    ensures refused { IfErr result (IsStop at) }
    ensures waits { (base : Parts) → tree.old ≡ join base list.nodes → IfOk result (λ part. tree.new ≡ push base part.cover.node) }
{
    let start = list.span.start;
    let seen = list.seen;
    let count = list.nodes.len();
    if count == 0 || seen.has_comma || !seen.shape.is_expression {
        return Err(Fault::Syntax(at));
    }
    if count > 1 {
        let node = finish_plain(
            tree,
            Kind::SequenceExpression,
            list.inside,
            list.nodes,
            high,
        )?;
        return Ok(group_operand(node, CoverShape::VALUE, start));
    }
    match list.nodes.into_only() {
        Some(node) => Ok(group_operand(node, seen.last.grouped(), start)),
        None => Err(Fault::Syntax(at)),
    }
}

/// The operand that parentheses from this place on hold, in bytes (12.2.10).
fn group_operand(node: MeasuredNode, shape: CoverShape, start: usize) -> Operand
    ensures { result ≡ group_part node shape start }
{
    Operand {
        cover: Cover { node, shape },
        start,
        rank: Rank::Grouped,
        edge: Edge::Other,
    }
}

/// The pair of a parenthesis from this place on, until it is known to group: both its ends are there.
pub fn unclosed_pair(start: usize) -> Pair
    ensures { result ≡ record { left = start; right = start } }
{
    Pair {
        left: start,
        right: start,
    }
}

/// The pair of parentheses that group, from one place to the other.
pub fn grouping_pair(left: usize, right: usize) -> Pair
    ensures { result ≡ record { left = left; right = right } }
{
    Pair { left, right }
}
