//! The positions of a node's parts.

use crate::ranks::rank;
use language::{Rank, Start};
use spelling_table::{Position, Production, admits, fits, resolve_slot};
use spellings::{SlotCursor, holds_chain, is_leaf, node_production};
use std::alloc::AllocError;
use tree::{Form, Node};

/// Positions by their words.
static POSITIONS: [(&str, Position); 33] = [
    (
        "expression",
        Position::Expression {
            rank: Rank::Expression,
            has_in: true,
            start: Start::Any,
        },
    ),
    ("name", Position::Name),
    ("word", Position::IdentifierName),
    ("key", Position::PropertyName),
    ("echo", Position::ShorthandKey),
    ("base", Position::Super),
    ("quoted", Position::DirectiveString),
    ("quasi", Position::TaggedQuasi),
    ("spread", Position::Spread),
    ("property", Position::Property),
    ("body", Position::Body),
    ("class body", Position::ClassBody),
    ("member", Position::Member),
    ("getter", Position::Method(Form::Get)),
    ("setter", Position::Method(Form::Set)),
    ("method", Position::Method(Form::Method)),
    (
        "first chunk",
        Position::TemplateElement {
            is_first: true,
            is_last: false,
        },
    ),
    ("spine", Position::ChainPart { start: Start::Any }),
    (
        "pattern",
        Position::Pattern {
            binds: true,
            start: Start::Any,
        },
    ),
    (
        "pattern without brace",
        Position::Pattern {
            binds: true,
            start: Start::NoBrace,
        },
    ),
    (
        "pattern property",
        Position::PatternProperty { binds: true },
    ),
    ("element", Position::Element { binds: true }),
    (
        "rest",
        Position::Rest {
            binds: true,
            of_object: false,
        },
    ),
    (
        "rest of object",
        Position::Rest {
            binds: true,
            of_object: true,
        },
    ),
    (
        "declarator",
        Position::Declarator {
            has_in: false,
            initialised: false,
        },
    ),
    ("head", Position::ForDeclaration { initialised: false }),
    ("statement", Position::Statement { returns: false }),
    (
        "statement of function",
        Position::Statement { returns: true },
    ),
    ("item", Position::StatementListItem { returns: false }),
    ("opening", Position::PrologueItem { returns: false }),
    ("block", Position::Block { returns: false }),
    ("case", Position::SwitchCase { returns: false }),
    ("handler", Position::CatchClause { returns: false }),
];

/// The position of these words; that of a script for all others.
fn position(words: &str) -> Position {
    for (each, position) in &POSITIONS {
        if *each == words {
            return *position;
        }
    }
    Position::Script
}

/// What a position is called here, of those that rows name.
fn called(position: Position) -> &'static str {
    match position {
        Position::Expression { rank, .. } => called_by(rank),
        Position::ChainPart { .. } => "spine",
        Position::Name => "name",
        Position::IdentifierName => "word",
        Position::PropertyName => "key",
        Position::DirectiveString => "quoted",
        Position::TemplateElement { .. } => "chunk",
        Position::Pattern { .. } => "pattern",
        Position::PatternProperty { .. } => "pattern property",
        Position::Element { .. } => "element",
        Position::Method(_) => "method",
        Position::Member => "member",
        _ => called_statement(position),
    }
}

/// The word for a position of a statement or a part of one.
fn called_statement(position: Position) -> &'static str {
    match position {
        Position::Body => "body",
        Position::Statement { .. } => "statement",
        Position::StatementListItem { .. } => "item",
        Position::PrologueItem { .. } => "opening",
        Position::Block { .. } => "block",
        Position::ForDeclaration { .. } => "head",
        Position::Declarator { .. } => "declarator",
        Position::SwitchCase { .. } => "case",
        Position::CatchClause { .. } => "handler",
        _ => "another",
    }
}

/// What the symbol of an expression is called here.
fn called_by(rank: Rank) -> &'static str {
    match rank {
        Rank::Additive => "sum",
        Rank::Multiplicative => "product",
        _ => "expression",
    }
}

/// What the positions of a node's parts are called, one by one.
fn push_slots(
    own: Position,
    node: Node,
    production: Production,
    out: &mut String,
) -> Result<(), AllocError> {
    let parts = node.parts();
    let mut slots = SlotCursor::new(production);
    for index in 0..parts.len() {
        let Some(part) = parts.get(index) else {
            continue;
        };
        let Some(slot) = slots.take(parts, part, index) else {
            return Ok(());
        };
        out.push_str(called(resolve_slot(own, slot)))?;
        out.push_str(", ")?;
    }
    Ok(())
}

/// What the positions of a node's parts are called, if it can be spelled at its own.
fn push_spelled(own: Position, node: Node, out: &mut String) -> Result<(), AllocError> {
    match node_production(node, own, false) {
        Some(production) if fits(own, production.outline()) => {
            push_slots(own, node, production, out)
        }
        _ => out.push_str("none"),
    }
}

/// What the positions of a node's parts are called, if its outline admits the node at its own.
fn push_produced(own: Position, node: Node, out: &mut String) -> Result<(), AllocError> {
    let Some(production) = node_production(node, own, false) else {
        return out.push_str("none");
    };
    let outline = production.outline();
    if !admits(own, outline.rank, outline.needs_in, outline.opens) {
        return out.push_str("none");
    }
    push_slots(own, node, production, out)
}

/// What the positions of a node's parts are called, if its production admits the node at its own: behind `chain` where the first part is
/// one's, and `leaf` alone where the node is seen at once to be one.
fn push_taken(own: Position, node: Node, out: &mut String) -> Result<(), AllocError> {
    if is_leaf(node, own) {
        return out.push_str("leaf");
    }
    let Some(production) = node_production(node, own, false) else {
        return out.push_str("none");
    };
    let asks = production.requirements();
    if !admits(own, asks.rank, asks.needs_in, asks.opens) {
        return out.push_str("none");
    }
    if holds_chain(own, node.kind(), production) {
        out.push_str("chain, ")?;
    }
    push_slots(own, node, production, out)
}

/// At what positions the parts of a node stand that stands at a position, or behind `at` at a symbol, if it can be spelled there;
/// behind `by` by what its outline says, behind `along` by what its production requires.
pub(crate) fn push_places(words: &str, node: Node, out: &mut String) -> Result<(), AllocError> {
    if let Some(words) = words.strip_prefix("by ") {
        return push_produced(position(words), node, out);
    }
    if let Some(words) = words.strip_prefix("along ") {
        return push_taken(position(words), node, out);
    }
    let own = match words.strip_prefix("at ") {
        Some(symbol) => Position::Expression {
            rank: rank(symbol),
            has_in: true,
            start: Start::Any,
        },
        None => position(words),
    };
    push_spelled(own, node, out)
}
