//! Parts that are put together, and taken apart.

use crate::case::Case;
use crate::print::show;
use crate::refusals::push_fault;
use crate::sketch::{parts, program};
use productions::finish_plain;
use source_text::Fault;
use std::alloc::{AllocError, Global};
use tree::{Kind, Program, Span, TextArena, TreeBuilder};

/// The span of each node that is made here.
const HERE: Span = Span { start: 3, end: 5 };

/// A script of the array of parts and others behind them, this high at most.
fn joined<'s>(alloc: Global, texts: &'s TextArena, row: &'s Case) -> Result<Program<'s>, Fault> {
    let first = parts(alloc, TreeBuilder::new(alloc, texts), row.text(1), u32::MAX)?;
    let further = parts(alloc, first.tree, row.text(2), u32::MAX)?;
    let mut nodes = first.nodes;
    nodes.append(further.nodes)?;
    let mut tree = further.tree;
    let high = row.text(3).parse::<u32>().unwrap_or(0);
    finish_plain(&mut tree, Kind::ArrayExpression, HERE, nodes, high)?;
    program(tree, HERE)
}

/// The line of the array.
pub(crate) fn push_joined(alloc: Global, row: &Case, out: &mut String) -> Result<(), AllocError> {
    let texts = TextArena::new(alloc);
    match joined(alloc, &texts, row) {
        Ok(script) => match script.root().part(0) {
            Some(array) => show(array, out),
            None => Ok(()),
        },
        Err(fault) => push_fault(fault, out),
    }
}

/// The height of the only part, if there is one alone.
fn only_height(alloc: Global, text: &str) -> Result<Option<u32>, Fault> {
    let texts = TextArena::new(alloc);
    let sketch = parts(alloc, TreeBuilder::new(alloc, &texts), text, u32::MAX)?;
    match sketch.nodes.into_only() {
        Some(only) => Ok(Some(only.height())),
        None => Ok(None),
    }
}

/// Adds the height of the only part that a text draws, none if it draws no part or more, or the fault.
pub(crate) fn push_only(alloc: Global, text: &str, out: &mut String) -> Result<(), AllocError> {
    match only_height(alloc, text) {
        Ok(height) => write!(out, "{height:?}"),
        Err(fault) => push_fault(fault, out),
    }
}
