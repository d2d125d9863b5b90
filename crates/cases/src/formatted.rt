//! What `format` answers: the row's call has its words.

use crate::case::Case;
use crate::runs::push_alone;
use command_line::command_line;
use commands::{CommaChoice, Command, FormatChoice};
use formatting::{LastCommas, Options};
use language::Language;
use layout_items::Style;
use lint::format_text;
use source_text::{Fault, Source};
use std::alloc::{AllocError, Global};

/// The choice that the words of a call are, if they are words of `format`.
fn choice_of(alloc: Global, call: &str) -> Result<Option<FormatChoice>, AllocError> {
    let mut words = Vec::new(alloc);
    words.push("jslint")?;
    for word in call.split(' ') {
        words.push(word)?;
    }
    words.push("a.js")?;
    match command_line(alloc, &words) {
        Ok(line) => Ok(chosen(line.command)),
        Err(_) => Ok(None),
    }
}

/// The choice of `format`.
fn chosen(command: Command) -> Option<FormatChoice> {
    match command {
        Command::Format(choice) => Some(choice),
        _ => None,
    }
}

/// What a text is formatted to.
fn formatted(
    alloc: Global,
    source: &Source,
    language: Language,
    choice: FormatChoice,
) -> Result<String, Fault> {
    let style = Style {
        width: choice.width,
        indent: choice.indent,
        tabs: choice.tabs,
    };
    let last_commas = match choice.commas {
        CommaChoice::Nowhere => LastCommas::Nowhere,
        CommaChoice::Lists => LastCommas::Lists,
        CommaChoice::Everywhere => LastCommas::Everywhere,
    };
    let options = Options {
        last_commas,
        bare_arrows: choice.bare_arrows,
    };
    format_text(alloc, source, language, style, options)
}

/// What `format_text` answers, where that isn't what a run wrote. It has the text's own pairs.
fn push_other_text(
    alloc: Global,
    row: &Case,
    source: &Source,
    choice: FormatChoice,
    out: &mut String,
) -> Result<(), AllocError> {
    let Ok(text) = formatted(alloc, source, row.language(), choice) else {
        return Ok(());
    };
    match out.as_str().strip_prefix("0 ") {
        Some(written) if written == text.as_str() || text.len() >= 1000 => Ok(()),
        _ => write!(out, " format_text: {}", text.as_str()),
    }
}

/// What `format` answers, also by single bytes, and `format_text`, if it is something else.
pub(crate) fn push_formatted(
    alloc: Global,
    row: &Case,
    source: &Source,
    out: &mut String,
) -> Result<(), AllocError> {
    let Some(choice) = choice_of(alloc, row.text(0))? else {
        return out.push_str("no words of format");
    };
    push_alone(alloc, Command::Format(choice), row, out)?;
    if choice.fewest || choice.check {
        return Ok(());
    }
    push_other_text(alloc, row, source, choice, out)
}
