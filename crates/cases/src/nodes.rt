//! What calls answer for trees that are written down.

use crate::case::Case;
use crate::finished::{push_difference, push_nodes, push_row_counts};
use crate::placed::push_places;
use crate::print::show;
use crate::refusals::push_refusal;
use crate::seen::push_views;
use crate::sketch::script;
use early_errors::first_early_error;
use grammar::{has_optional, rank_of};
use std::alloc::{AllocError, Global};
use tree::{Node, Program, TextArena, height, same_tree, try_copy};

/// What a call answers for a tree, each node of which is as high at most as the second text says, if that is a number.
pub(crate) fn push_of_tree(
    alloc: Global,
    call: &str,
    row: &Case,
    out: &mut String,
) -> Result<(), AllocError> {
    let high = row.text(2).parse::<u32>().unwrap_or(u32::MAX);
    let texts = TextArena::new(alloc);
    match script(alloc, &texts, row.text(1), high) {
        Ok(program) => {
            push_difference(alloc, &program, out)?;
            push_tree(alloc, call, row, &program, out)
        }
        Err(fault) => push_refusal(row.text(1), fault, out),
    }
}

/// Adds what a call answers of a tree.
fn push_tree(
    alloc: Global,
    call: &str,
    row: &Case,
    program: &Program,
    out: &mut String,
) -> Result<(), AllocError> {
    match call {
        "line" => show(program.root(), out),
        "numbers" => push_nodes(program, out),
        "row counts" => push_row_counts(program, out),
        "height" => push_height(program, out),
        "copy" => push_copy(alloc, program, out),
        "same" => push_same(alloc, row.text(2), program, out),
        "error" => push_error(alloc, program, out),
        _ => match program.root().part(0) {
            Some(node) => push_first(call, row, node, out),
            None => Ok(()),
        },
    }
}

/// Adds the height of a tree.
fn push_height(program: &Program, out: &mut String) -> Result<(), AllocError> {
    write!(out, "{}", height(program))
}

/// Adds the first early error of a tree.
fn push_error(alloc: Global, program: &Program, out: &mut String) -> Result<(), AllocError> {
    let error = first_early_error(alloc, program)?;
    write!(out, "{error:?}")
}

/// Whether a tree is the same as another, whichever comes first.
fn push_compared(program: &Program, other: &Program, out: &mut String) -> Result<(), AllocError> {
    let found = (same_tree(program, other), same_tree(other, program));
    write!(out, "{found:?}")
}

/// A copy, and whether the tree is the same as it.
pub(crate) fn push_copy(
    alloc: Global,
    program: &Program,
    out: &mut String,
) -> Result<(), AllocError> {
    let copy = try_copy(alloc, program)?;
    push_copied(program, &copy, out)
}

/// Adds how a copy compares with its tree, and the copy.
fn push_copied(program: &Program, copy: &Program, out: &mut String) -> Result<(), AllocError> {
    push_compared(program, copy, out)?;
    show(copy.root(), out)
}

/// The line of a script.
fn line(alloc: Global, program: &Program) -> Result<String, AllocError> {
    let mut out = String::new(alloc);
    show(program.root(), &mut out)?;
    Ok(out)
}

/// Whether a copy is the same tree, and whether its line is the same, places included.
pub(crate) fn push_equal_copy(
    alloc: Global,
    program: &Program,
    out: &mut String,
) -> Result<(), AllocError> {
    let copy = try_copy(alloc, program)?;
    push_compared(program, &copy, out)?;
    let is_equal = line(alloc, program)?.as_str() == line(alloc, &copy)?.as_str();
    write!(out, "{is_equal}")
}

/// Adds whether the tree of another text is the same.
fn push_same(
    alloc: Global,
    text: &str,
    program: &Program,
    out: &mut String,
) -> Result<(), AllocError> {
    let texts = TextArena::new(alloc);
    match script(alloc, &texts, text, u32::MAX) {
        Ok(other) => push_compared(program, &other, out),
        Err(fault) => push_refusal(text, fault, out),
    }
}

/// What a call answers for a node.
fn push_first(call: &str, row: &Case, node: Node, out: &mut String) -> Result<(), AllocError> {
    match call {
        "rank" => push_rank(node, out),
        "places" => push_places(row.text(2), node, out),
        _ => push_views(call, node, out),
    }
}

/// The symbol of a node, and whether it is part of a chain.
fn push_rank(node: Node, out: &mut String) -> Result<(), AllocError> {
    write!(out, "{:?}", (rank_of(node), has_optional(Some(node))))
}
