//! The pieces of a pattern (22.2.1): what stands in a Disjunction, one after the other.

/// A piece of a pattern.
#[derive(Clone, Copy)]
pub(crate) enum Piece<'t> {
    /// `|`.
    Bar,
    /// The `)` that ends a group or a lookaround.
    Closing,
    /// `^`, `$`, `\b`, `\B`.
    Assertion,
    /// The beginning of a lookahead or a lookbehind.
    Looking,
    /// `(?:`.
    Grouping,
    /// The `(` of a group without a name.
    Capturing,
    /// `(?<name>`: the name as it is written.
    Naming(&'t str),
    /// A Quantifier.
    Repeating,
    /// An Atom that is no group.
    Atom,
    /// A DecimalEscape: its digits.
    Reference(&'t str),
    /// `\k<name>`: the name as it is written.
    NameReference(&'t str),
}

/// A piece, and the place behind it.
#[derive(Clone, Copy)]
pub(crate) struct PieceAt<'t> {
    pub piece: Piece<'t>,
    pub end: usize,
}
