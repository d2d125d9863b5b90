//! A script's text without its unnecessary pairs.

use crate::choice::changes_of;
use crate::reading::TreeReading;
use crate::writer::rewritten;
use paren_planner::TextCosts;
use source_text::Source;
use std::alloc::{AllocError, Global};
use tree::{Pair, Program};

/// A script with what its nodes cost.
#[derive(Clone, Copy)]
pub struct PlannedScript<'o, 's> {
    pub source: &'o Source<'s>,
    /// What was read of its text.
    pub reading: &'o TreeReading,
    pub program: &'o Program<'s>,
    /// Its grouping pairs, in order of their `(`.
    pub pairs: &'o [Pair],
    pub costs: &'o TextCosts,
}

/// The text of a script as it is, with pairs just round the nodes that want them: each where the text has it, if that costs no more.
/// Comments stay, and so do blanks and lines where no parenthesis goes.
///
/// # Errors
///
/// `AllocError` where memory is refused, and nothing else.
pub fn unwrapped(alloc: Global, script: PlannedScript<'_, '_>) -> Result<Vec<u8>, AllocError> {
    let changes = changes_of(alloc, script.program, script.pairs, script.costs)?;
    rewritten(alloc, script.source, script.reading, &changes)
}
