//! Where an expression stands, as far as its layout depends on that.

use tree::Kind;

/// Which argument of a call an expression is, if the call's parentheses may hold it.
#[derive(Clone, Copy, Debug, PartialEq, Eq)]
pub enum Hug {
    No,
    First,
    Last,
}

impl Hug {
    /// Whether the parentheses may hold it.
    pub fn is_some(self) -> bool {
        !matches!(self, Hug::No)
    }
}

/// Where an expression stands.
#[derive(Clone, Copy)]
pub struct Around {
    /// It is a statement of its own.
    pub is_statement: bool,
    /// It is the test of a statement.
    pub is_test: bool,
    /// What is around it is indented already.
    pub is_indented: bool,
    /// Parentheses around operators have breaks inside.
    pub is_soft: bool,
    /// It is the pattern of a declarator.
    pub is_declared: bool,
    pub hug: Hug,
    /// The kind of the operator that it is an operand of.
    pub parent: Option<Kind>,
}

impl Around {
    /// Nothing around it says how it is laid out.
    pub const ALONE: Around = Around {
        is_statement: false,
        is_test: false,
        is_indented: false,
        is_soft: false,
        is_declared: false,
        hug: Hug::No,
        parent: None,
    };

    /// A statement of its own.
    pub const STATEMENT: Around = Around {
        is_statement: true,
        ..Around::ALONE
    };

    /// The test of a statement, in its parentheses.
    pub const TEST: Around = Around {
        is_test: true,
        is_indented: true,
        ..Around::ALONE
    };

    /// In what is indented already.
    pub const INDENTED: Around = Around {
        is_indented: true,
        ..Around::ALONE
    };

    /// Where parentheses around operators have breaks inside.
    pub const SOFT: Around = Around {
        is_soft: true,
        ..Around::ALONE
    };

    /// The body of an arrow.
    pub const ARROW_BODY: Around = Around {
        is_soft: true,
        is_indented: true,
        ..Around::ALONE
    };

    /// The pattern of a declarator.
    pub const DECLARED: Around = Around {
        is_declared: true,
        ..Around::ALONE
    };

    /// An argument that parentheses may hold.
    pub fn hugged(hug: Hug) -> Around {
        Around {
            hug,
            ..Around::ALONE
        }
    }

    /// An operand of an operator of this kind.
    pub fn operand(kind: Kind) -> Around {
        Around {
            parent: Some(kind),
            ..Around::ALONE
        }
    }
}
