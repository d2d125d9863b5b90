//! The layouts of scripts, as texts and to writers that take little, or fail.

use crate::case::Case;
use crate::devices::{plan, push_answer};
use crate::gauge::Gauge;
use language::Language;
use paren_planner::plan_if_any;
use parser::{Parsed, parse};
use printer::{print, print_text};
use source_text::{FailurePlan, Fault, MAX_PIECE, MemorySink, Source};
use std::alloc::{AllocError, Global};
use tree::TextArena;
use wrap_flags::Wraps;

/// The calls of a writer that fail one after the other, from the first; behind them those near a full piece.
const FAILURES: usize = 300;

/// Which nodes of a layout are wrapped, by a character for each row: `(` says that its node is.
fn wraps_of(alloc: Global, rows: &str) -> Result<Wraps, AllocError> {
    let mut wraps = Wraps::with_capacity(alloc, rows.len())?;
    for byte in rows.bytes() {
        wraps.push(byte == b'(')?;
    }
    Ok(wraps)
}

/// The layout of the tree.
pub(crate) fn push_layout(
    alloc: Global,
    parsed: &Parsed,
    wrapped: &str,
    out: &mut String,
) -> Result<(), AllocError> {
    let wraps = wraps_of(alloc, wrapped)?;
    let text = print_text(alloc, parsed.program(), &wraps)?;
    out.push_str(&text)?;
    if !is_alike(alloc, parsed, &wraps, &text)? {
        out.push_str(" written otherwise")?;
    }
    Ok(())
}

/// How many bytes the layout has, and whether no piece of it that is written has more than 4,096.
pub(crate) fn push_gauged_layout(
    alloc: Global,
    parsed: &Parsed,
    wrapped: &str,
    out: &mut String,
) -> Result<(), AllocError> {
    let wraps = wraps_of(alloc, wrapped)?;
    let mut writer = Gauge::new();
    let written = print(parsed.program(), &wraps, &mut writer);
    write!(
        out,
        "{:?}",
        (written, writer.bytes, writer.most <= MAX_PIECE)
    )
}

/// What is written of the layout where there is so much room.
pub(crate) fn push_written(
    alloc: Global,
    parsed: &Parsed,
    row: &Case,
    out: &mut String,
) -> Result<(), AllocError> {
    let wraps = wraps_of(alloc, row.text(2))?;
    let mut writer = MemorySink::new(alloc, row.number(3), plan(row.text(4)))?;
    let written = print(parsed.program(), &wraps, &mut writer);
    push_answer(&written, writer.bytes(), out)
}

/// Whether a writer that takes a byte a call gets the whole text.
fn is_alike(alloc: Global, parsed: &Parsed, wraps: &Wraps, text: &str) -> Result<bool, AllocError> {
    let plan = FailurePlan {
        per_call: 1,
        fails_at: None,
    };
    let mut writer = MemorySink::new(alloc, text.len(), plan)?;
    let written = print(parsed.program(), wraps, &mut writer);
    Ok(written.is_ok() && writer.bytes() == text.as_bytes())
}

/// Whether a writer that takes a byte a call, and fails behind so many, has this beginning of the text.
fn is_beginning(
    alloc: Global,
    parsed: &Parsed,
    wraps: &Wraps,
    text: &str,
    taken: usize,
) -> Result<bool, AllocError> {
    let plan = FailurePlan {
        per_call: 1,
        fails_at: Some((taken as u64).saturating_add(1)),
    };
    let mut writer = MemorySink::new(alloc, text.len(), plan)?;
    let written = print(parsed.program(), wraps, &mut writer);
    let beginning = text.as_bytes().get(..taken).unwrap_or(b"");
    Ok(written.is_err() && writer.bytes() == beginning && beginning.len() == taken)
}

/// Whether a writer is let fail behind so many bytes: up to 300, and next to each full piece.
fn is_tried(taken: usize) -> bool {
    let behind = taken % MAX_PIECE;
    taken < FAILURES || behind < 3 || behind > MAX_PIECE - 3
}

/// How many bytes the layout has, and behind how many of them a writer failed that got each its beginning.
pub(crate) fn push_pieces(
    alloc: Global,
    parsed: &Parsed,
    wrapped: &str,
    out: &mut String,
) -> Result<(), AllocError> {
    let wraps = wraps_of(alloc, wrapped)?;
    let text = print_text(alloc, parsed.program(), &wraps)?;
    let mut beginnings = 0usize;
    for taken in 0..text.len() {
        if is_tried(taken) && is_beginning(alloc, parsed, &wraps, &text, taken)? {
            beginnings = beginnings.saturating_add(1);
        }
    }
    let is_alike = is_alike(alloc, parsed, &wraps, &text)?;
    write!(out, "{:?}", (text.len(), beginnings, is_alike))
}

/// Whether a script's plan has this text printed, to a writer that takes a byte a call.
pub(crate) fn is_fixed(
    alloc: Global,
    texts: &TextArena,
    source: &Source,
    language: Language,
    text: &str,
) -> Result<bool, Fault> {
    let parsed = parse(alloc, texts, source, language)?;
    let Some(plan) = plan_if_any(alloc, parsed.program())? else {
        return Ok(false);
    };
    Ok(is_alike(alloc, &parsed, plan.wraps(), text)?)
}
