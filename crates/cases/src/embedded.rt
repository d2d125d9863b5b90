//! What the commands answer for bytes in memory.

use crate::case::Case;
use crate::devices::push_bytes;
use crate::runs::{asked, command};
use commands::{Refused, status};
use embedding::{refusal_text, run_on_bytes};
use source_text::Fault;
use std::alloc::{AllocError, Global};

/// The exit status of a refusal, and its line. A row whose call was refused memory has no answer.
fn push_refused(alloc: Global, refused: &Refused, out: &mut String) -> Result<(), AllocError> {
    match refused.fault {
        Fault::OutOfMemory | Fault::Usage => Err(AllocError),
        fault => {
            write!(out, "{} ", status(fault))?;
            push_bytes(&refusal_text(alloc, refused)?, out)
        }
    }
}

/// What a command, by its word, answers for a text and a second one: the exit status and what it writes, or a refusal.
pub(crate) fn push_embedded(alloc: Global, row: &Case, out: &mut String) -> Result<(), AllocError> {
    let (text, second) = (row.text(2).as_bytes(), row.text(3).as_bytes());
    match run_on_bytes(alloc, command(row.text(1)), asked(row), text, second) {
        Ok(output) => {
            write!(out, "{} ", output.status)?;
            push_bytes(&output.bytes, out)
        }
        Err(refused) => push_refused(alloc, &refused, out),
    }
}
