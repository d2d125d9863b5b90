//! What stands for parts in proofs.

ghost use Rattle.std.specs.Prelude.{◌≡◌};
ghost use Rattle.tree.specs.Tree.{Parts};
ghost use Rattle.tree.specs.TreeCode.{parts_code};
ghost use base.Fml.{ftrue};

use crate::kind::{Flags, Kind, Span};
use std::marker::Model;

/// It stands for parts that are kept elsewhere, so that a contract can name them. It has no bytes.
#[derive(Drop)]
pub struct Witness {
    ghost parts: { Parts } by { parts_code },
}

impl Model for Witness {
    ghost also_owns = { λ _. ftrue };
}

/// What a witness comes from.
#[derive(Clone, Copy, Drop)]
pub enum Witnessing<'a> {
    /// No parts.
    Nothing,
    /// One node, of the parts of another.
    Node {
        kind: Kind,
        text: &'a str,
        flags: Flags,
        span: Span,
        parts: &'a Witness,
    },
    /// Those of one, and a node behind them.
    Push {
        before: &'a Witness,
        node: &'a Witness,
    },
    /// Those of one, and a gap behind them.
    PushGap {
        before: &'a Witness,
    },
    /// Those of two.
    Join {
        before: &'a Witness,
        behind: &'a Witness,
    },
    /// All of another's but the last so many.
    AllBut {
        count: usize,
        of: &'a Witness,
    },
    /// The last so many of another's; all where there are no more.
    Last {
        count: usize,
        of: &'a Witness,
    },
    /// The patterns that another's become.
    Patterns {
        of: &'a Witness,
    },
}

impl Witness {
    ghost use Rattle.tree.specs.Witness.{witnessed};

    /// The witness that comes from others; it does nothing.
    #[inline(always)]
    pub fn of(_how: &Witnessing<'_>) -> Witness
        ensures { result.parts ≡ witnessed _how.now }
    {
        Witness {}
    }
}
