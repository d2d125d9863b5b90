//! The definitions of the language: the table of spellings, derivations, costs, layout; and the laws that they keep.
//! - May touch: nothing. Its code is limits and words that code shares with the definitions, and laws, whose bodies do
//!   nothing.
//! - Contract: the laws of `laws.rt`: among them, no text with a script's tree has fewer pairs than its computed cost.
//! - Begin at: `specs/Grammar.antt`, `spellings`; then `specs/Derivation.antt` and `specs/Claims.antt`.
#![tactic(auto)]

pub mod laws;
pub mod limits;

/// What a text is read as.
#[derive(Clone, Copy, Debug, PartialEq, Eq)]
pub enum Language {
    /// A script of the base profile.
    Base,
    /// A strict script of ECMAScript 2022.
    Script,
    /// A module of ECMAScript 2022.
    Module,
}

/// The symbols of the expression grammar, loosest first.
#[derive(Clone, Copy, Debug, PartialEq, Eq)]
pub enum Rank {
    Expression,
    Assignment,
    Conditional,
    ShortCircuit,
    Coalesce,
    LogicalOr,
    LogicalAnd,
    BitwiseOr,
    BitwiseXor,
    BitwiseAnd,
    Equality,
    Relational,
    Shift,
    Additive,
    Multiplicative,
    Exponentiation,
    Unary,
    Update,
    LeftHandSide,
    New,
    Call,
    Member,
    Primary,
    Grouped,
}

/// What the first token may not be.
#[derive(Copy, Clone)]
pub enum Start {
    Any,
    NoBrace,
    Statement,
}

/// What stands at the right edge of an ending.
#[derive(Copy, Clone)]
pub enum Edge {
    Arrow,
    Postfix,
    Other,
    Closed,
}
