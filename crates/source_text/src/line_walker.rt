//! Lines and columns of places, in one walk over the text.

ghost use Rattle.std.specs.Prelude.{◌≡◌, ◌≤◌, ◌<◌, ◌+◌, ℕ, length, slice_index, IfSome, IfNone};
ghost use Rattle.source_text.specs.LineBytes.{continues, ends_line_at, IsNextLine, NoLineEnds};
ghost use Rattle.source_text.specs.Lines.{line_column};
ghost use Rattle.source_text.specs.Located.{IsLocated};
ghost use Rattle.source_text.specs.Source.{IsPlace};

use crate::{MAX_BYTES, Source};
use memchr::memchr3;

/// A place of a text, with its line and column, which count from 1, columns in characters. From there it walks on to later places, so ascending
/// places cost one walk over the text.
///
/// Lines end with U+000A, U+000D, U+2028 and U+2029; U+000D U+000A is one line end (ECMA-262 11.3).
#[derive(Clone, Copy)]
pub struct LineWalker {
    /// The place, an offset in bytes.
    pub at: usize,
    /// Its line.
    pub line: u32,
    /// Its column.
    pub column: u32,
}

impl LineWalker {
    /// Before the first character.
    pub fn first() -> LineWalker
        ensures { result ≡ record { at = 0; line = 1; column = 1 } }
    {
        LineWalker {
            at: 0,
            line: 1,
            column: 1,
        }
    }

    /// From where to go on to a place: from the beginning where the place lies before this one.
    pub fn resumed(self, place: usize) -> LineWalker
        ensures ahead { result.at ≤ place }
        ensures there { (text : _) → IsLocated text self → IsLocated text result }
    {
        if place < self.at {
            return LineWalker::first();
        }
        self
    }

    /// A later place of the text, by a walk over what stands between the two.
    pub fn moved(self, source: &Source<'_>, place: usize) -> LineWalker
        requires here { IsLocated source.now self }
        requires ahead { self.at ≤ place }
        requires within { place ≤ length source.now }
        ensures there { IsLocated source.now result }
        ensures place { result.at ≡ place }
        ensures value { IsPlace source.now place → ◌≡◌ {A = ℕ × ℕ} (result.line, result.column) (line_column source.now place) }
    {
        let bytes = source.bytes();
        let mut here = self;
        while let Some(at) = next_line(bytes, here.at, place) {
            here = LineWalker {
                at,
                line: here.line + 1,
                column: 1,
            };
        }
        here.along(bytes, place)
    }

    /// A later place of the same line.
    fn along(self, bytes: &[u8], place: usize) -> LineWalker
        requires here { IsLocated bytes.now self }
        requires ahead { self.at ≤ place }
        requires within { place ≤ length bytes.now }
        requires short { length bytes.now ≤ MAX_BYTES }
        requires same_line { NoLineEnds bytes.now self.at place }
        ensures there { IsLocated bytes.now result }
        ensures place { result.at ≡ place }
    {
        let mut column = self.column;
        for i in self.at..place {
            if !continues_character(bytes[i]) {
                column += 1;
            }
        }
        LineWalker {
            at: place,
            line: self.line,
            column,
        }
    }
}

/// The place behind the first line end from one place on, up to another; none if no line ends there.
#[inline]
fn next_line(bytes: &[u8], from: usize, to: usize) -> Option<usize>
    requires ordered { from ≤ to }
    requires within { to ≤ length bytes.now }
    ensures some { IfSome result (λ at. IsNextLine bytes.now from at) }
    ensures until { IfSome result (λ at. at ≤ to) }
    ensures none { IfNone result (NoLineEnds bytes.now from to) }
{
    let mut seen = from;
    while let Some(passed) = memchr3(b'\n', b'\r', 0xE2, &bytes[seen..to]) {
        let at = seen + passed;
        seen = at + 1;
        if ends_line(bytes, at) {
            return Some(seen);
        }
    }
    None
}

/// Whether a byte of UTF-8 begins no character.
#[inline]
fn continues_character(byte: u8) -> bool
    ensures { result ≡ continues byte }
{
    matches!(byte, 0x80..=0xBF)
}

/// Whether the character that begins at `at` ends a line.
#[inline]
fn ends_line(bytes: &[u8], at: usize) -> bool
    requires { at < length bytes.now }
    ensures { result ≡ ends_line_at (slice_index bytes.now at) (slice_index bytes.now (at + 1)) (slice_index bytes.now (at + 2)) }
{
    match bytes[at] {
        b'\n' => true,
        b'\r' => at + 1 >= bytes.len() || bytes[at + 1] != b'\n',
        0xE2 => at + 2 < bytes.len()
            && bytes[at + 1] == 0x80
            && matches!(bytes[at + 2], 0xA8 | 0xA9),
        _ => false,
    }
}
