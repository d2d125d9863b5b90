//! What words and characters are, and the words of the command line.

use crate::case::Case;
use crate::devices::{plan, push_answer};
use crate::kinds::kind;
use crate::ranks::rank;
use clap::error::ErrorKind;
use command_line::{Line, ReadFailure, command_line, explain_unread, write_escaped};
use commands::{AskedLanguage, LanguageChoice};
use early_errors::{EarlyError, number_of};
use grammar::{
    accepts_rank, is_assignment, is_literal, is_prefix_operator, is_reserved, is_update_operator,
    literal_class, precedence_of,
};
use source_text::{MemorySink, is_line_terminator, is_space};
use std::alloc::{AllocError, Global};

/// Whether the character of a number, in sixteens, ends a line, and whether it is white space.
pub(crate) fn push_character(word: &str, out: &mut String) -> Result<(), AllocError> {
    let number = u32::from_str_radix(word, 16).unwrap_or(0);
    let character = char::from_u32(number).unwrap_or('a');
    write!(
        out,
        "{:?}",
        (is_line_terminator(character), is_space(character))
    )
}

/// Whether a text is a prefix operator, a step, an assignment and reserved.
pub(crate) fn push_word(text: &str, out: &mut String) -> Result<(), AllocError> {
    let (prefix, step) = (is_prefix_operator(text), is_update_operator(text));
    let found = (prefix, step, is_assignment(text), is_reserved(text));
    write!(out, "{found:?}")
}

/// A literal's class by its text, and whether it is a literal.
pub(crate) fn push_literal(raw: &str, out: &mut String) -> Result<(), AllocError> {
    write!(out, "{:?}", (literal_class(raw), is_literal(raw)))
}

/// Whether a kind is a target, a pattern and a link of a chain.
pub(crate) fn push_kind(word: &str, out: &mut String) -> Result<(), AllocError> {
    let kind = kind(word);
    let found = (kind.is_target(), kind.is_pattern(), kind.is_chain_part());
    write!(out, "{found:?}")
}

/// Whether a position takes a symbol.
pub(crate) fn push_takes(row: &Case, out: &mut String) -> Result<(), AllocError> {
    let takes = accepts_rank(rank(row.text(1)), rank(row.text(2)));
    write!(out, "{takes}")
}

/// How tight a symbol is.
pub(crate) fn push_tightness(word: &str, out: &mut String) -> Result<(), AllocError> {
    write!(out, "{}", precedence_of(rank(word)))
}

/// The early error that a word names.
fn early_error(word: &str) -> EarlyError {
    match word {
        "EvalOrArguments" => EarlyError::EvalOrArguments,
        "LexicalNameIsVar" => EarlyError::LexicalNameIsVar,
        "CatchParameterConflict" => EarlyError::CatchParameterConflict,
        _ => EarlyError::RegExpFlags,
    }
}

/// The number of an early error, of those that rows name.
pub(crate) fn push_number(word: &str, out: &mut String) -> Result<(), AllocError> {
    write!(out, "{}", number_of(early_error(word)))
}

/// The kind of a refusal. A row whose call was refused memory has no answer.
fn push_mistake(kind: ErrorKind, out: &mut String) -> Result<(), AllocError> {
    match kind {
        ErrorKind::OutOfMemory => Err(AllocError),
        kind => write!(out, "{kind:?}"),
    }
}

/// The language that a line asks for, where it says something of it.
fn push_language(line: Line, out: &mut String) -> Result<(), AllocError> {
    match line.language() {
        Ok(AskedLanguage::Said(LanguageChoice::Unsaid)) => Ok(()),
        Ok(AskedLanguage::Said(choice)) => write!(out, " {choice:?}"),
        Ok(AskedLanguage::Any) => out.push_str(" Any"),
        Err(mistake) => write!(out, " wrong {mistake:?}"),
    }
}

/// The command and the files of a line, and behind them the language that it asks for, and whether its file is a list.
fn push_line(line: Line, out: &mut String) -> Result<(), AllocError> {
    write!(out, "{:?}", (line.command, line.file, line.second))?;
    push_language(line, out)?;
    if line.is_list {
        out.push_str(" list")?;
    }
    Ok(())
}

/// What a command line asks for, or the kind of its refusal.
fn push_asked(alloc: Global, words: &[&str], out: &mut String) -> Result<(), AllocError> {
    match command_line(alloc, words) {
        Ok(line) => push_line(line, out),
        Err(error) => push_mistake(error.kind(), out),
    }
}

/// What a command line of a text's words asks for, or the kind of its refusal.
pub(crate) fn push_command_line(
    alloc: Global,
    text: &str,
    out: &mut String,
) -> Result<(), AllocError> {
    let mut words = Vec::new(alloc);
    for word in text.split(' ') {
        words.push(word)?;
    }
    push_asked(alloc, &words, out)
}

/// Whether a text is written whole as a terminal is shown it, and what is written.
pub(crate) fn push_escaped(alloc: Global, row: &Case, out: &mut String) -> Result<(), AllocError> {
    let mut writer = MemorySink::new(alloc, 65536, plan(row.text(2)))?;
    let is_whole = write_escaped(row.text(1), &mut writer).is_ok();
    push_answer(&is_whole, writer.bytes(), out)
}

/// Why a file can't be read, by a word for it.
fn failure(word: &str) -> ReadFailure {
    match word {
        "Missing" => ReadFailure::Missing,
        "Folder" => ReadFailure::Folder,
        "NotPermitted" => ReadFailure::NotPermitted,
        "LinkCircle" => ReadFailure::LinkCircle,
        "Twice" => ReadFailure::Twice,
        "InList" => ReadFailure::InList,
        "NotUtf8" => ReadFailure::NotUtf8,
        _ => ReadFailure::Other,
    }
}

/// The status for a file that can't be read, and what is written of its line.
pub(crate) fn push_unread(alloc: Global, row: &Case, out: &mut String) -> Result<(), AllocError> {
    let mut writer = MemorySink::new(alloc, 65536, plan(row.text(3)))?;
    let status = explain_unread(row.text(1), failure(row.text(2)), &mut writer);
    push_answer(&status, writer.bytes(), out)
}
