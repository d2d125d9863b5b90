//! Refusals: by their words, in words, and as lines that are written.

use crate::case::Case;
use crate::devices::{plan, push_answer};
use commands::{Hint, Refused, write_refusal};
use source_text::{Fault, MemorySink, Reason};
use std::alloc::{AllocError, Global};

/// A refusal in words. A row whose call was refused memory has no answer.
pub(crate) fn push_fault(fault: Fault, out: &mut String) -> Result<(), AllocError> {
    match fault {
        Fault::OutOfMemory => Err(AllocError),
        fault => write!(out, "{fault}"),
    }
}

/// A refusal in words: of a syntax error whether its place is one of the text; of an early error its number and its place.
pub(crate) fn push_refusal(text: &str, fault: Fault, out: &mut String) -> Result<(), AllocError> {
    match fault {
        Fault::Syntax(at) if text.is_char_boundary(at) => out.push_str("syntax"),
        Fault::Syntax(at) => write!(out, "syntax in a character at {at}"),
        Fault::Early(number, at) => write!(out, "E{number} {at}"),
        fault => push_fault(fault, out),
    }
}

/// The reason that a word names.
fn reason(word: &str) -> Reason {
    match word {
        "Form" => Reason::Form,
        "Shape" => Reason::Shape,
        "None" => Reason::None,
        "High" => Reason::High,
        _ => Reason::Total,
    }
}

/// The refusal of this name, with a number behind it and what else it has; Usage for all others.
fn fault(name: &str, number: &str, word: &str) -> Fault {
    match name {
        "NotUtf8" => Fault::NotUtf8(number.parse::<usize>().unwrap_or(0)),
        "Syntax" => Fault::Syntax(number.parse::<usize>().unwrap_or(0)),
        "Early" => Fault::Early(
            number.parse::<u8>().unwrap_or(0),
            word.parse::<usize>().unwrap_or(0),
        ),
        "BadTable" => Fault::BadTable(number.parse::<u32>().unwrap_or(0), reason(word)),
        _ => plain_fault(name),
    }
}

/// The fault without a place that a word names.
fn plain_fault(name: &str) -> Fault {
    match name {
        "TooLong" => Fault::TooLong,
        "TooDeep" => Fault::TooDeep,
        "OutOfMemory" => Fault::OutOfMemory,
        "BadSettings" => Fault::BadSettings,
        "WriteFailed" => Fault::WriteFailed,
        "ReadFailed" => Fault::ReadFailed,
        "UnwrapFailed" => Fault::UnwrapFailed,
        "FormatFailed" => Fault::FormatFailed,
        _ => Fault::Usage,
    }
}

/// The fault that a row names.
fn fault_of(row: &Case) -> Fault {
    fault(row.text(1), row.text(2), row.text(3))
}

/// The hint that a word names.
fn hint(word: &str) -> Hint {
    match word {
        "2022" => Hint::Edition2022,
        "module" => Hint::Module,
        "unknown" => Hint::Unknown,
        "in base" => Hint::InBase,
        "in script" => Hint::InScript,
        "in module" => Hint::InModule,
        _ => Hint::Nothing,
    }
}

/// The message of a refusal.
pub(crate) fn push_message(row: &Case, out: &mut String) -> Result<(), AllocError> {
    write!(out, "{}", fault_of(row))
}

/// The status of a refusal, and what is written of its line where its place is 12:4294967295.
pub(crate) fn push_line(alloc: Global, row: &Case, out: &mut String) -> Result<(), AllocError> {
    let fault = fault_of(row);
    if let Fault::Usage = fault {
        return Ok(());
    }
    let (line, column) = (12, u32::MAX);
    let mut writer = MemorySink::new(alloc, 128, plan(row.text(4)))?;
    let status = write_refusal(
        &Refused {
            fault,
            in_second: row.text(5) == "second",
            line,
            column,
            hint: hint(row.text(6)),
        },
        &mut writer,
    );
    push_answer(&status, writer.bytes(), out)
}
