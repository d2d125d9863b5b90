//! Checked source text.

ghost use Rattle.std.specs.Prelude.{◌≡◌, ◌≤◌, ◌<◌, ◌==◌, ◌↔◌, ℕ, length, IfOk, IfErr, IsOk, IsErrOf};
ghost use Rattle.std.specs.Str.{IsUtf8};
ghost use Rattle.source_text.specs.Lines.{line_column};
ghost use Rattle.source_text.specs.Source.{IsPlace, IsRefusal};

use crate::Fault;
use crate::line_walker::LineWalker;
use std::marker::Model;
use std::str::from_utf8;

/// The most bytes a text may have.
pub const MAX_BYTES: usize = 16_777_216;

/// The text of a script: UTF-8, and at most `MAX_BYTES` bytes.
#[derive(Drop)]
pub struct Source<'s> {
    checked: &'s str,
}

impl<'s> Model for Source<'s> {
    ghost use Rattle.std.specs.Prelude.{ℕ, List, ◌≤◌, length};

    ghost Value = { List ℕ };

    ghost view = { λ s. s.checked.now };

    ghost invariant = { λ s. length s.checked.now ≤ 16777216 };
}

impl<'s> Source<'s> {
    /// Checks the bytes of a text; they are not copied.
    ///
    /// # Errors
    /// `TooLong` over `MAX_BYTES` bytes; else `NotUtf8` with the first byte that begins no UTF-8 sequence.
    pub fn new(bytes: &'s [u8]) -> Result<Source<'s>, Fault>
        ensures ok { IfOk result (λ s. (s ≡ bytes.now) × IsUtf8 bytes.now × (length bytes.now ≤ MAX_BYTES)) }
        ensures accepts { IsUtf8 bytes.now → length bytes.now ≤ MAX_BYTES → IsOk result }
        ensures refused { IfErr result (IsRefusal bytes.now) }
        ensures too_long { IsErrOf result Fault.TooLong ↔ (MAX_BYTES < length bytes.now) }
    {
        if bytes.len() > MAX_BYTES {
            return Err(Fault::TooLong);
        }
        match from_utf8(bytes) {
            Ok(checked) => Ok(Source { checked }),
            Err(error) => Err(Fault::NotUtf8(error.valid_up_to())),
        }
    }

    /// The text.
    pub fn text(&self) -> &'s str
        ensures value { result.now ≡ self.now }
        ensures utf8 { IsUtf8 self.now }
        ensures short { length self.now ≤ MAX_BYTES }
    {
        self.checked
    }

    /// The bytes of the text.
    pub fn bytes(&self) -> &'s [u8]
        ensures value { result.now ≡ self.now }
        ensures utf8 { IsUtf8 self.now }
        ensures short { length self.now ≤ MAX_BYTES }
    {
        self.text().as_bytes()
    }

    /// The number of bytes.
    pub fn len(&self) -> usize
        ensures value { result ≡ length self.now }
        ensures short { result ≤ MAX_BYTES }
    {
        self.bytes().len()
    }

    /// Whether there are no bytes.
    pub fn is_empty(&self) -> bool
        ensures { result ≡ (length self.now == 0) }
    {
        self.bytes().is_empty()
    }

    /// The line and the column of a place, a byte offset between two characters. Both count from 1, columns in
    /// characters.
    ///
    /// Lines end with U+000A, U+000D, U+2028 and U+2029; U+000D U+000A is one line end (ECMA-262 11.3).
    pub fn line_column(&self, offset: usize) -> (u32, u32)
        requires { IsPlace self.now offset }
        ensures { result ≡ line_column self.now offset }
    {
        let walker = LineWalker::first().moved(self, offset);
        (walker.line, walker.column)
    }
}
