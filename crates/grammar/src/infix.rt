//! Operators behind an expression: the one table of their texts, and what each makes (ECMA-262 12.3 to 12.16).

ghost use Rattle.std.specs.Prelude.{◌≡◌, codes, true, false, [], ◌∷◌};
ghost use Rattle.tokens.specs.declared.token.TokenClass.TheVariants.{IdentifierName, Punctuator};
ghost use Rattle.language.specs.Vocabulary.{is_assign_op, op_binary, op_power, operator_among, operator_of};
ghost use Rattle.language.specs.Continuations.{of_class, rank_made_by};
ghost use Rattle.grammar.specs.OperatorRows.{begins_with, only_texts};
ghost use Rattle.grammar.specs.Infix.{coded_operator, meant, links, short_operators, long_operators};

use crate::byte_text::first_byte;
use language::Rank;
use tree::Kind;

/// An operator between two expressions: the kind of its node, and the symbols of that and of its two sides.
#[derive(Clone, Copy)]
pub struct BinaryOperator {
    pub kind: Kind,
    pub own: Rank,
    pub left: Rank,
    pub right: Rank,
}

/// What a token makes of the expression that it goes on with.
#[derive(Clone, Copy)]
pub enum InfixOperator {
    /// A binary or logical operator.
    Binary(BinaryOperator),
    /// `=`, or another operator of an assignment.
    Assign { is_plain: bool },
    /// `++` or `--`.
    PostUpdate,
    /// The `,` of a sequence.
    Comma,
    /// The `?` of a conditional.
    Question,
    /// `.`
    Dot,
    /// `(`
    OpenParen,
    /// `[`
    OpenBracket,
    /// `?.`
    QuestionDot,
    /// `=>`
    FatArrow,
    /// The first part of a template.
    TemplateHead,
}

impl InfixOperator {
    /// The symbol of the node that it makes; behind a line break (`after_break`) `++`, `--` and `=>` make none.
    pub fn rank(self, after_break: bool) -> Option<Rank>
        ensures { result ≡ rank_made_by (meant self) after_break }
    {
        match self {
            InfixOperator::Binary(sign) => Some(sign.own),
            InfixOperator::PostUpdate if after_break => None,
            InfixOperator::FatArrow if after_break => None,
            InfixOperator::PostUpdate => Some(Rank::Update),
            InfixOperator::Assign { .. } | InfixOperator::FatArrow => Some(Rank::Assignment),
            InfixOperator::Comma => Some(Rank::Expression),
            InfixOperator::Question => Some(Rank::Conditional),
            InfixOperator::OpenParen => Some(Rank::Call),
            InfixOperator::QuestionDot => Some(Rank::LeftHandSide),
            InfixOperator::Dot | InfixOperator::OpenBracket | InfixOperator::TemplateHead => Some(
                Rank::Member,
            ),
        }
    }

    /// Whether it assigns.
    pub(crate) fn is_assignment(self) -> bool
        ensures { result ≡ is_assign_op (meant self) }
    {
        matches!(self, InfixOperator::Assign { .. })
    }

    /// Whether it goes on with a part of a chain (12.3.9), or would, if it were no template.
    pub fn continues_chain(self) -> bool
        ensures { result ≡ links (meant self) }
    {
        match self {
            InfixOperator::Dot | InfixOperator::OpenParen | InfixOperator::OpenBracket => true,
            InfixOperator::QuestionDot | InfixOperator::TemplateHead => true,
            _ => false,
        }
    }
}

/// A binary operator with these symbols, whose left side has its own symbol.
fn binary(own: Rank, right: Rank) -> Option<InfixOperator>
    ensures { result ≡ coded_operator (op_binary false own right) [] }
{
    Some(InfixOperator::Binary(BinaryOperator {
        kind: Kind::BinaryExpression,
        own,
        left: own,
        right,
    }))
}

/// A logical operator with these symbols, whose left side has its own symbol.
fn logical(own: Rank, right: Rank) -> Option<InfixOperator>
    ensures { result ≡ coded_operator (op_binary true own right) [] }
{
    Some(InfixOperator::Binary(BinaryOperator {
        kind: Kind::LogicalExpression,
        own,
        left: own,
        right,
    }))
}

/// The operator `**`, whose left side must be an UpdateExpression (12.6).
fn power() -> Option<InfixOperator>
    ensures { result ≡ coded_operator op_power [] }
{
    Some(InfixOperator::Binary(BinaryOperator {
        kind: Kind::BinaryExpression,
        own: Rank::Exponentiation,
        left: Rank::Update,
        right: Rank::Exponentiation,
    }))
}

/// The operator that a punctuator is behind an expression.
pub fn infix_of_punctuator(text: &str) -> Option<InfixOperator>
    ensures { result ≡ coded_operator (of_class Punctuator text.now) text.now }
{
    match text.len() {
        1 => infix_of_one(first_byte(text)),
        _ => infix_of_more(text),
    }
}

/// The operator that a word is behind an expression.
pub fn infix_of_word(text: &str) -> Option<InfixOperator>
    ensures { result ≡ coded_operator (of_class IdentifierName text.now) text.now }
{
    match text {
        "in" | "instanceof" => binary(Rank::Relational, Rank::Shift),
        _ => None,
    }
}

/// The operator that a word or a punctuator is behind an expression.
pub(crate) fn infix_of(text: &str) -> Option<InfixOperator>
    ensures { result ≡ coded_operator (operator_of text.now) text.now }
{
    match infix_of_word(text) {
        Some(operator) => Some(operator),
        None => infix_of_punctuator(text),
    }
}

/// The operator that is this one byte; none if there is none.
fn infix_of_one(mark: u8) -> Option<InfixOperator>
    ensures { result ≡ coded_operator (operator_among (mark ∷ []) short_operators) (mark ∷ []) }
{
    match mark {
        b'|' => binary(Rank::BitwiseOr, Rank::BitwiseXor),
        b'^' => binary(Rank::BitwiseXor, Rank::BitwiseAnd),
        b'&' => binary(Rank::BitwiseAnd, Rank::Equality),
        b'<' | b'>' => binary(Rank::Relational, Rank::Shift),
        b'+' | b'-' => binary(Rank::Additive, Rank::Multiplicative),
        b'*' | b'/' | b'%' => binary(Rank::Multiplicative, Rank::Exponentiation),
        b'=' => Some(InfixOperator::Assign { is_plain: true }),
        b',' => Some(InfixOperator::Comma),
        b'?' => Some(InfixOperator::Question),
        b'.' => Some(InfixOperator::Dot),
        b'(' => Some(InfixOperator::OpenParen),
        b'[' => Some(InfixOperator::OpenBracket),
        _ => None,
    }
}

/// The operator of two bytes or more with this text; none if there is none. The first byte chooses the list.
fn infix_of_more(text: &str) -> Option<InfixOperator>
    ensures { result ≡ coded_operator (operator_among text.now long_operators) text.now }
{
    match first_byte(text) {
        b'!' | b'=' => equality_of(text),
        b'<' | b'>' => comparison_of(text),
        b'&' | b'?' | b'|' => logical_of(text),
        b'+' | b'-' => sum_of(text),
        b'%' | b'*' | b'/' | b'^' => product_of(text),
        _ => None,
    }
}

/// The operator with this text, which begins with `!` or `=`.
fn equality_of(text: &str) -> Option<InfixOperator>
    ensures { result ≡ coded_operator (operator_among text.now (only_texts (begins_with (codes "!=")) long_operators)) text.now }
{
    match text.as_bytes() {
        b"==" | b"!=" | b"===" | b"!==" => binary(Rank::Equality, Rank::Relational),
        b"=>" => Some(InfixOperator::FatArrow),
        _ => None,
    }
}

/// The operator with this text, which begins with `<` or `>`.
fn comparison_of(text: &str) -> Option<InfixOperator>
    ensures { result ≡ coded_operator (operator_among text.now (only_texts (begins_with (codes "<>")) long_operators)) text.now }
{
    match text.as_bytes() {
        b"<=" | b">=" => binary(Rank::Relational, Rank::Shift),
        b"<<" | b">>" | b">>>" => binary(Rank::Shift, Rank::Additive),
        b"<<=" | b">>=" | b">>>=" => Some(InfixOperator::Assign { is_plain: false }),
        _ => None,
    }
}

/// The operator with this text, which begins with `&`, `?` or `|`.
fn logical_of(text: &str) -> Option<InfixOperator>
    ensures { result ≡ coded_operator (operator_among text.now (only_texts (begins_with (codes "&?|")) long_operators)) text.now }
{
    match text.as_bytes() {
        b"&&" => logical(Rank::LogicalAnd, Rank::BitwiseOr),
        b"||" => logical(Rank::LogicalOr, Rank::LogicalAnd),
        b"??" => logical(Rank::Coalesce, Rank::BitwiseOr),
        b"?." => Some(InfixOperator::QuestionDot),
        b"&=" | b"|=" => Some(InfixOperator::Assign { is_plain: false }),
        b"&&=" | b"||=" | b"??=" => Some(InfixOperator::Assign { is_plain: false }),
        _ => None,
    }
}

/// The operator with this text, which begins with `+` or `-`.
fn sum_of(text: &str) -> Option<InfixOperator>
    ensures { result ≡ coded_operator (operator_among text.now (only_texts (begins_with (codes "+-")) long_operators)) text.now }
{
    match text.as_bytes() {
        b"++" | b"--" => Some(InfixOperator::PostUpdate),
        b"+=" | b"-=" => Some(InfixOperator::Assign { is_plain: false }),
        _ => None,
    }
}

/// The operator with this text, which begins with `%`, `*`, `/` or `^`.
fn product_of(text: &str) -> Option<InfixOperator>
    ensures { result ≡ coded_operator (operator_among text.now (only_texts (begins_with (codes "%*/^")) long_operators)) text.now }
{
    match text.as_bytes() {
        b"**" => power(),
        b"*=" | b"/=" | b"%=" | b"**=" | b"^=" => Some(InfixOperator::Assign { is_plain: false }),
        _ => None,
    }
}
