//! What each call answers for a row's texts.

use crate::case::Case;
use crate::finished::push_difference_of_source;
use crate::refusals::push_refusal;
use crate::{
    cursors, devices, embedded, formatted, heights, lexemes, nodes, parsed, plans, refusals,
    reports, runs, words,
};
use source_text::Source;
use std::alloc::{AllocError, Global};
use tree::TextArena;

/// What the row's call answers for its texts; a refusal in words.
pub(crate) fn answer(alloc: Global, row: &Case) -> Result<String, AllocError> {
    let mut out = String::new(alloc);
    of_words(alloc, row, &mut out)?;
    Ok(out)
}

/// Calls on words.
fn of_words(alloc: Global, row: &Case, out: &mut String) -> Result<(), AllocError> {
    match row.text(0) {
        "character" => words::push_character(row.text(1), out),
        "word" => words::push_word(row.text(1), out),
        "literal" => words::push_literal(row.text(1), out),
        "kind" => words::push_kind(row.text(1), out),
        "takes" => words::push_takes(row, out),
        "tightness" => words::push_tightness(row.text(1), out),
        "number" => words::push_number(row.text(1), out),
        "command line" => words::push_command_line(alloc, row.text(1), out),
        "escaped" => words::push_escaped(alloc, row, out),
        "unread" => words::push_unread(alloc, row, out),
        _ => of_devices(alloc, row, out),
    }
}

/// Calls on bytes and devices, and refusals.
fn of_devices(alloc: Global, row: &Case, out: &mut String) -> Result<(), AllocError> {
    match row.text(0) {
        "message" => refusals::push_message(row, out),
        "refuse" => refusals::push_line(alloc, row, out),
        "source" => devices::push_source(alloc, row, out),
        "write" => devices::push_written(alloc, row, out),
        "write device" => devices::push_device(row.text(1), out),
        "read" => devices::push_read(alloc, row, out),
        "read device" => devices::push_read_device(alloc, row.text(1), out),
        _ => of_commands(alloc, row, out),
    }
}

/// Runs of the commands.
fn of_commands(alloc: Global, row: &Case, out: &mut String) -> Result<(), AllocError> {
    match row.text(0) {
        "run" => runs::push_run(alloc, row, row.text(2).as_bytes(), out),
        "run bytes" => runs::push_run_bytes(alloc, row, out),
        "check" | "spans" | "mend" | "cost" | "verify" | "same" => runs::push_command(
            alloc, row, out,
        ),
        "check bytes" => runs::push_second_bytes(alloc, row, out),
        "check by ten" | "spans by ten" => runs::push_with_tenth(alloc, row, out),
        "gauged run" => runs::push_gauged(alloc, row, out),
        "embedded" => embedded::push_embedded(alloc, row, out),
        _ => of_trees(alloc, row, out),
    }
}

/// Calls on nodes that are written down, and on what needs no text.
fn of_trees(alloc: Global, row: &Case, out: &mut String) -> Result<(), AllocError> {
    match row.text(0) {
        "joined" => heights::push_joined(alloc, row, out),
        "only" => heights::push_only(alloc, row.text(1), out),
        "table" => plans::push_table(alloc, out),
        "read table" => plans::push_read_table(alloc, row.text(1), out),
        "settings" => reports::push_settings(alloc, row.text(1), out),
        "template" => lexemes::push_template(alloc, row.text(1), out),
        "get" => lexemes::push_get(row.text(1), out),
        _ => of_call(alloc, row, out),
    }
}

/// Calls on trees that are written down have the word `node` before them; all others are on sources.
fn of_call(alloc: Global, row: &Case, out: &mut String) -> Result<(), AllocError> {
    match row.text(0).strip_prefix("node ") {
        Some(call) => nodes::push_of_tree(alloc, call, row, out),
        None => of_text(alloc, row, out),
    }
}

/// Adds the answer of a call that takes a text, or how the text is refused as a source.
fn of_text(alloc: Global, row: &Case, out: &mut String) -> Result<(), AllocError> {
    match Source::new(row.text(1).as_bytes()) {
        Ok(source) => of_source(alloc, row, &TextArena::new(alloc), &source, out),
        Err(fault) => push_refusal(row.text(1), fault, out),
    }
}

/// Calls on sources. Of each that is a script the finished tree is held against the nodes that it is made of.
fn of_source(
    alloc: Global,
    row: &Case,
    texts: &TextArena,
    source: &Source,
    out: &mut String,
) -> Result<(), AllocError> {
    push_difference_of_source(alloc, texts, source, row.language(), out)?;
    match row.text(0) {
        "token" => lexemes::push_token(source, row, out),
        "units" => lexemes::push_units(alloc, source, out),
        "place" => devices::push_place(source, row, out),
        "cursor" => cursors::push_steps(source, row, out),
        "begins" => runs::push_beginnings(alloc, row, out),
        "early" => parsed::push_accepted(alloc, row, texts, source, out),
        "fix" => parsed::push_fixed(alloc, row, texts, source, out),
        "fixes" => parsed::push_fixes(alloc, row, source, out),
        "unwrap" => parsed::push_unwrapped(alloc, row, source, out),
        call if call.starts_with("format") => formatted::push_formatted(alloc, row, source, out),
        _ => parsed::push_parsed(alloc, row, texts, source, out),
    }
}
