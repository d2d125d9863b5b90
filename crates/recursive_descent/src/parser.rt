//! Positions in an expression, and the parser itself.

use std::alloc::Global;
use token_cursor::Cursor;
use tree::{Pair, TreeBuilder};

/// A place in a text, with the parentheses so far that may group, in order of their `(`; one that doesn't, or doesn't
/// yet, has its `(` for its right end.
#[derive(Drop)]
pub(crate) struct Parser<'t, 's> {
    pub(crate) cursor: Cursor<'t, 's>,
    pub(crate) pairs: Vec<Pair>,
    /// The nodes so far: those that aren't a part yet wait in it, in the order in which they were read.
    pub(crate) tree: TreeBuilder<'s>,
    pub(crate) alloc: Global,
}
