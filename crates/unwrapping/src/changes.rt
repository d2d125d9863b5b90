//! Which parentheses of a text go, and which come.

use std::alloc::Global;
use tree::Pair;

/// What comes after a node.
#[derive(Clone, Copy, Debug, PartialEq, Eq)]
pub enum Addition {
    /// The `)` of a pair.
    Parenthesis,
    /// `()`, the arguments of a `new`.
    Arguments,
}

/// What comes after the node that ends at a place, in bytes.
#[derive(Clone, Copy, Debug, PartialEq, Eq)]
pub struct Closing {
    pub at: usize,
    pub addition: Addition,
}

/// Which parentheses of a script's text go, and which come.
#[derive(Drop)]
pub struct Changes {
    /// The grouping pairs that go, in order of their `(`.
    pub removed: Vec<Pair>,
    /// Where the nodes begin that get a `(`, in order.
    pub opened: Vec<usize>,
    /// What comes after nodes, in order, of those that end alike the inner one first.
    pub closed: Vec<Closing>,
}

impl Changes {
    /// None; no memory.
    pub(crate) fn new(alloc: Global) -> Changes {
        Changes {
            removed: Vec::new(alloc),
            opened: Vec::new(alloc),
            closed: Vec::new(alloc),
        }
    }
}
