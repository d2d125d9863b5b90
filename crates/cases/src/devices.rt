//! Bytes, and devices that take or give little, or fail.

use crate::case::Case;
use crate::refusals::push_fault;
use commands::read_up_to;
use source_text::{Device, FailurePlan, Fault, MemoryFeed, MemorySink, Source, write_text};
use std::alloc::{AllocError, Global};
use std::fmt::Debug;
use std::str::from_utf8;

/// A plan: how many bytes pass in a call, all of them where it doesn't say, and behind a space the call that fails.
pub(crate) fn plan(text: &str) -> FailurePlan {
    let mut words = text.split(' ');
    let per_call = words.next().unwrap_or("");
    let fails_at = words.next().unwrap_or("");
    FailurePlan {
        per_call: per_call.parse::<usize>().unwrap_or(65536),
        fails_at: fails_at.parse::<u64>().ok(),
    }
}

/// What a call answers, and what is written: of long texts how many bytes, and the last 49.
pub(crate) fn push_answer(
    answer: &impl Debug,
    bytes: &[u8],
    out: &mut String,
) -> Result<(), AllocError> {
    write!(out, "{answer:?} ")?;
    push_bytes(bytes, out)
}

/// Bytes that are a text: of a long one how many, and the last 49.
pub(crate) fn push_bytes(bytes: &[u8], out: &mut String) -> Result<(), AllocError> {
    let text = from_utf8(bytes).unwrap_or("no text");
    if text.len() < 1000 {
        return out.push_str(text);
    }
    let last = text.get(text.len() - 49..).unwrap_or("");
    write!(out, "{:?}", (text.len(), last))
}

/// Bytes, each a word of two digits of sixteen.
fn push_digits(text: &str, bytes: &mut Vec<u8>) -> Result<(), AllocError> {
    for word in text.split_whitespace() {
        bytes.push(u8::from_str_radix(word, 16).unwrap_or(0))?;
    }
    Ok(())
}

/// The bytes that are written so.
pub(crate) fn bytes_of(alloc: Global, text: &str) -> Result<Vec<u8>, AllocError> {
    let mut bytes = Vec::new(alloc);
    push_digits(text, &mut bytes)?;
    Ok(bytes)
}

/// Why bytes are no source, if they are none.
pub(crate) fn push_source(alloc: Global, row: &Case, out: &mut String) -> Result<(), AllocError> {
    let bytes = bytes_of(alloc, row.text(1))?;
    write!(out, "{:?}", Source::new(&bytes).err())
}

/// The line and the column of a place of a text, its length, and whether it is empty.
pub(crate) fn push_place(source: &Source, row: &Case, out: &mut String) -> Result<(), AllocError> {
    let at = row.number(2);
    if !source.text().is_char_boundary(at) {
        return out.push_str("no place");
    }
    let (line, column) = source.line_column(at);
    write!(out, "{:?}", (line, column, source.len(), source.is_empty()))
}

/// Whether a text is written whole where there is so much room, and what is written.
pub(crate) fn push_written(alloc: Global, row: &Case, out: &mut String) -> Result<(), AllocError> {
    let mut writer = MemorySink::new(alloc, row.number(2), plan(row.text(3)))?;
    let is_whole = write_text(row.text(1).as_bytes(), &mut writer).is_ok();
    push_answer(&is_whole, writer.bytes(), out)
}

/// Whether a text is written whole to a writer of std with room for three bytes, and what is written.
pub(crate) fn push_device(text: &str, out: &mut String) -> Result<(), AllocError> {
    let mut room = [0u8; 3];
    let mut writer = Device::of_writer(room.as_mut_slice());
    let is_whole = write_text(text.as_bytes(), &mut writer).is_ok();
    push_answer(&is_whole, &room, out)
}

/// Bytes that were read, or why none were.
fn push_got(got: Result<Vec<u8>, Fault>, out: &mut String) -> Result<(), AllocError> {
    match got {
        Ok(bytes) => push_bytes(&bytes, out),
        Err(fault) => push_fault(fault, out),
    }
}

/// What is read of a text up to a limit, of 9 bytes at most.
pub(crate) fn push_read(alloc: Global, row: &Case, out: &mut String) -> Result<(), AllocError> {
    let mut reader = MemoryFeed::new(row.text(1).as_bytes(), plan(row.text(3)));
    push_got(read_up_to(alloc, &mut reader, row.number(2).min(9)), out)
}

/// What is read of a text by a reader of std.
pub(crate) fn push_read_device(
    alloc: Global,
    text: &str,
    out: &mut String,
) -> Result<(), AllocError> {
    let mut reader = Device::of_reader(text.as_bytes());
    push_got(read_up_to(alloc, &mut reader, 9), out)
}
