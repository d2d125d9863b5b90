//! Comments that move over a token, since no line may end where they stood.

use crate::gap::Part;
use crate::lines::{character_count, first_line_end, indentation, last_line, line_end};
use std::alloc::AllocError;

/// Where the last line of a text has its indentation.
#[derive(Clone, Copy)]
pub(crate) struct Indent {
    start: usize,
    end: usize,
    characters: usize,
}

impl Indent {
    /// The indentation of the last line of a text.
    pub(crate) fn of_last_line(text: &[u8]) -> Indent {
        let start = last_line(text);
        let line = &text[start..];
        let bytes = indentation(line);
        Indent {
            start,
            end: start + bytes,
            characters: character_count(&line[..bytes]),
        }
    }

    /// Writes it after the text.
    fn write(self, out: &mut Vec<u8>) -> Result<(), AllocError> {
        for index in self.start..self.end {
            if let Some(byte) = byte_at(out, index) {
                out.push(byte)?;
            }
        }
        Ok(())
    }

    /// Writes blanks that end a line, and then this indentation, or their own if that is less.
    fn write_line_end(self, blanks: &[u8], out: &mut Vec<u8>) -> Result<(), AllocError> {
        let own = last_line(blanks);
        if character_count(&blanks[own..]) < self.characters {
            return out.extend_from_slice(blanks);
        }
        out.extend_from_slice(&blanks[..own])?;
        self.write(out)
    }

    /// Writes a part; if blanks in it end a line, with this indentation after them.
    fn write_part(self, part: Part<'_>, out: &mut Vec<u8>) -> Result<(), AllocError> {
        if part.is_line_end() {
            return self.write_line_end(part.text, out);
        }
        out.extend_from_slice(part.text)
    }

    /// Writes comments before a word: all parts up to an index but blanks in front, and then the line end that the next part begins with
    /// and this indentation, or a space.
    pub(crate) fn write_lifted(
        self,
        parts: &[Part<'_>],
        last: usize,
        out: &mut Vec<u8>,
    ) -> Result<(), AllocError> {
        for index in 0..parts.len() {
            let part = parts[index];
            if index > last || (index == 0 && part.is_blank()) {
                continue;
            }
            self.write_part(part, out)?;
        }
        self.write_ending(parts.get(last.saturating_add(1)), out)
    }

    /// Writes what ends the lifted comments: the next part's line end and this indentation, or a space.
    fn write_ending(self, next: Option<&Part<'_>>, out: &mut Vec<u8>) -> Result<(), AllocError> {
        match next {
            Some(part) if part.is_line_end() => {
                out.extend_from_slice(line_end_of(part.text))?;
                self.write(out)
            }
            _ => {
                out.push(b' ')?;
                Ok(())
            }
        }
    }
}

/// The byte at an index of what was written, if there is one.
fn byte_at(out: &Vec<u8>, index: usize) -> Option<u8> {
    out.get(index).copied()
}

/// The first line end in some bytes.
fn line_end_of(bytes: &[u8]) -> &[u8] {
    let rest = &bytes[first_line_end(bytes)..];
    &rest[..line_end(rest)]
}

/// The last comment that holds a line end or needs one.
pub(crate) fn last_broken(parts: &[Part<'_>]) -> Option<usize> {
    let mut found = None;
    for index in 0..parts.len() {
        if parts[index].is_broken_comment() {
            found = Some(index);
        }
    }
    found
}

/// Where the parts begin that can't stand before a token which no line end may stand before: the first comment that holds a line end or
/// needs one, with the blanks before it. The number of parts where there is none.
pub(crate) fn first_broken(parts: &[Part<'_>]) -> usize {
    for index in 0..parts.len() {
        if !parts[index].is_broken_comment() {
            continue;
        }
        if index > 0 && parts[index - 1].is_blank() {
            return index - 1;
        }
        return index;
    }
    parts.len()
}
