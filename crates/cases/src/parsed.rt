//! What calls answer for texts that are scripts.

use crate::case::Case;
use crate::devices::{plan, push_answer};
use crate::finished::{push_nodes, push_row_counts};
use crate::kept::{push_kept, push_reading, push_retained};
use crate::mended::push_mended;
use crate::node_rule_rows::push_node_rule;
use crate::nodes::{push_copy, push_equal_copy};
use crate::plans::{push_extra, push_extra_pairs, push_gauged_table, push_plan};
use crate::printing::{is_fixed, push_gauged_layout, push_layout, push_pieces, push_written};
use crate::reference_rule_rows::push_name_rule;
use crate::refusals::push_refusal;
use crate::reports::{push_rules, push_scopes};
use crate::rule_alone_rows::push_rule_alone;
use crate::runs::is_written;
use commands::Command;
use estree_json::{to_value, tree_text, write_tree};
use language::Language;
use lint::{fix_text, read_script, unwrap_text};
use parser::{Parsed, parse};
use serde_json::Value;
use source_text::{Fault, MemorySink, Source};
use std::alloc::{AllocError, Global};
use tree::{Program, TextArena, same_tree};

/// That the text is accepted.
pub(crate) fn push_accepted(
    alloc: Global,
    row: &Case,
    texts: &TextArena,
    source: &Source,
    out: &mut String,
) -> Result<(), AllocError> {
    match read_script(alloc, texts, source, row.language()) {
        Ok(_) => out.push_str("accepted"),
        Err(fault) => push_refusal(source.text(), fault, out),
    }
}

/// That a text is fixed.
pub(crate) fn push_fixes(
    alloc: Global,
    row: &Case,
    source: &Source,
    out: &mut String,
) -> Result<(), AllocError> {
    match fix_text(alloc, source, row.language()) {
        Ok(_) => out.push_str("fixed"),
        Err(fault) => push_refusal(source.text(), fault, out),
    }
}

/// What a text is fixed to, which is fixed to itself.
pub(crate) fn push_fixed(
    alloc: Global,
    row: &Case,
    texts: &TextArena,
    source: &Source,
    out: &mut String,
) -> Result<(), AllocError> {
    match fix_text(alloc, source, row.language()) {
        Ok(text) => {
            push_again(&text, "fixed", fixed(alloc, &text, row.language()), out)?;
            push_unless_written(alloc, row, texts, source, &text, out)?;
            push_unless_run(alloc, Command::Fix, row, &text, out)
        }
        Err(fault) => push_refusal(source.text(), fault, out),
    }
}

/// That a run of a command over devices that pass a byte a call writes another text, if it does.
fn push_unless_run(
    alloc: Global,
    command: Command,
    row: &Case,
    text: &str,
    out: &mut String,
) -> Result<(), AllocError> {
    match is_written(alloc, command, row, text)? {
        true => Ok(()),
        false => out.push_str(" run otherwise"),
    }
}

/// That a script's fixed text is written otherwise, if it is.
fn push_unless_written(
    alloc: Global,
    row: &Case,
    texts: &TextArena,
    source: &Source,
    text: &str,
    out: &mut String,
) -> Result<(), AllocError> {
    match is_fixed(alloc, texts, source, row.language(), text) {
        Ok(true) => Ok(()),
        Ok(false) => out.push_str(" written otherwise"),
        Err(fault) => push_refusal(source.text(), fault, out),
    }
}

/// A text, and what the call that made it makes of it again, if that is another. `made` is the word for what the call does.
fn push_again(
    text: &str,
    made: &str,
    again: Result<String, Fault>,
    out: &mut String,
) -> Result<(), AllocError> {
    out.push_str(text)?;
    match again {
        Ok(again) if again.as_str() == text => Ok(()),
        Ok(again) => write!(out, " {} again: {}", made, again.as_str()),
        Err(fault) => {
            out.push_str(" refused: ")?;
            push_refusal(text, fault, out)
        }
    }
}

/// What a text is fixed to.
fn fixed(alloc: Global, text: &str, language: Language) -> Result<String, Fault> {
    let source = Source::new(text.as_bytes())?;
    fix_text(alloc, &source, language)
}

/// A script without its unnecessary pairs, which is unwrapped to itself, and which a run of `unwrap` writes too.
pub(crate) fn push_unwrapped(
    alloc: Global,
    row: &Case,
    source: &Source,
    out: &mut String,
) -> Result<(), AllocError> {
    match unwrap_text(alloc, source, row.language()) {
        Ok(text) => {
            push_again(
                &text,
                "unwrapped",
                unwrapped(alloc, &text, row.language()),
                out,
            )?;
            push_unless_run(alloc, Command::Unwrap, row, &text, out)
        }
        Err(fault) => push_refusal(source.text(), fault, out),
    }
}

/// What a text is unwrapped to.
fn unwrapped(alloc: Global, text: &str, language: Language) -> Result<String, Fault> {
    let source = Source::new(text.as_bytes())?;
    unwrap_text(alloc, &source, language)
}

/// What is answered of the script that is read.
pub(crate) fn push_parsed(
    alloc: Global,
    row: &Case,
    texts: &TextArena,
    source: &Source,
    out: &mut String,
) -> Result<(), AllocError> {
    match parse(alloc, texts, source, row.language()) {
        Ok(parsed) => push_shown(alloc, row, &parsed, out),
        Err(fault) => push_refusal(source.text(), fault, out),
    }
}

/// What the row's call shows of a script.
fn push_shown(
    alloc: Global,
    row: &Case,
    parsed: &Parsed,
    out: &mut String,
) -> Result<(), AllocError> {
    let program = parsed.program();
    match row.text(0) {
        "pairs" => push_count(parsed.grouping_pairs().len(), out),
        "items" => push_count(program.root().part_count(), out),
        "extra" => push_extra(alloc, program, parsed.grouping_pairs(), out),
        "rules" | "refused rule" | "rule on nodes" => push_rules(alloc, row, parsed, out),
        "rule alone" => push_node_rule(alloc, row, parsed, out),
        "name rule" => push_name_rule(alloc, row, program, out),
        "flow rule" | "literal rule" | "repetition rule" | "text rule" | "value rule" => {
            push_rule_alone(alloc, row, program, out)
        },
        "alike" => push_alike(alloc, program, row, out),
        "mended" => push_mended(alloc, row, parsed, out),
        "kept" => push_kept(alloc, parsed, row, out),
        "retained" => push_retained(alloc, parsed, row, out),
        "reading" => push_reading(alloc, parsed, row.text(1), out),
        _ => push_printed(alloc, row, parsed, out),
    }
}

/// What the row's call prints of a script.
fn push_printed(
    alloc: Global,
    row: &Case,
    parsed: &Parsed,
    out: &mut String,
) -> Result<(), AllocError> {
    match row.text(0) {
        "layout" => push_layout(alloc, parsed, row.text(2), out),
        "written" => push_written(alloc, parsed, row, out),
        "pieces" => push_pieces(alloc, parsed, row.text(2), out),
        "gauged layout" => push_gauged_layout(alloc, parsed, row.text(2), out),
        "gauged table" => push_gauged_table(alloc, parsed.program(), out),
        _ => push_json_of(alloc, row, parsed.program(), out),
    }
}

/// What the row's call makes of a script's JSON.
fn push_json_of(
    alloc: Global,
    row: &Case,
    program: &Program,
    out: &mut String,
) -> Result<(), AllocError> {
    match row.text(0) {
        "tree" => push_json(alloc, program, row, out),
        "json" => push_json_to(alloc, program, row.text(2), out),
        "value" => push_values(alloc, program, out),
        "value text" => push_value_text(alloc, program, out),
        _ => push_tree(alloc, row, program, out),
    }
}

/// What the row's call shows of a script's tree.
fn push_tree(
    alloc: Global,
    row: &Case,
    program: &Program,
    out: &mut String,
) -> Result<(), AllocError> {
    match row.text(0) {
        "extra of" => push_extra_pairs(alloc, program, row.text(2), out),
        "plan" => push_plan(alloc, program, out),
        "scopes" => push_scopes(alloc, program, out),
        "copied" => push_copy(alloc, program, out),
        "equal copy" => push_equal_copy(alloc, program, out),
        "numbers" => push_nodes(program, out),
        "row counts" => push_row_counts(program, out),
        call => write!(out, "no call {call}"),
    }
}

/// Adds a number.
fn push_count(count: usize, out: &mut String) -> Result<(), AllocError> {
    write!(out, "{count}")
}

/// Whether a text has this tree too.
fn is_alike(alloc: Global, program: &Program, row: &Case) -> Result<bool, Fault> {
    let source = Source::new(row.text(2).as_bytes())?;
    let texts = TextArena::new(alloc);
    let other = parse(alloc, &texts, &source, row.language())?;
    Ok(same_tree(program, other.program()))
}

/// Adds whether another text has the same tree.
fn push_alike(
    alloc: Global,
    program: &Program,
    row: &Case,
    out: &mut String,
) -> Result<(), AllocError> {
    match is_alike(alloc, program, row) {
        Ok(true) => out.push_str("same"),
        Ok(false) => out.push_str("other"),
        Err(fault) => push_refusal(row.text(2), fault, out),
    }
}

/// A script's JSON, which a run of `tree` writes too, and a line feed behind it.
fn push_json(
    alloc: Global,
    program: &Program,
    row: &Case,
    out: &mut String,
) -> Result<(), AllocError> {
    let mut text = tree_text(alloc, program)?;
    out.push_str(&text)?;
    text.push('\n')?;
    push_unless_run(alloc, Command::Tree, row, &text, out)
}

/// What is written of the JSON to a device.
fn push_json_to(
    alloc: Global,
    program: &Program,
    writes: &str,
    out: &mut String,
) -> Result<(), AllocError> {
    let mut writer = MemorySink::new(alloc, 2_000_000, plan(writes))?;
    match write_tree(alloc, program, &mut writer) {
        Err(Fault::OutOfMemory) if writer.bytes().is_empty() => Err(AllocError),
        written => push_answer(&written, writer.bytes(), out),
    }
}

/// The value of a script's first literal, and where the script ends.
fn values(value: &Value) -> (Option<bool>, Option<u64>) {
    let literal = value.pointer("/body/0/expression/value");
    let end = value.pointer("/end");
    (
        literal.and_then(|value| value.as_bool()),
        end.and_then(|value| value.as_u64()),
    )
}

/// Adds the value of the first statement's literal if it is a boolean, and the script's end, as the tree's JSON has
/// them.
fn push_values(alloc: Global, program: &Program, out: &mut String) -> Result<(), AllocError> {
    let value = to_value(alloc, program)?;
    write!(out, "{:?}", values(&value))
}

/// The text of a script's value.
fn push_value_text(alloc: Global, program: &Program, out: &mut String) -> Result<(), AllocError> {
    let value = to_value(alloc, program)?;
    let text = value.to_string(alloc)?;
    out.push_str(&text)
}
