//! What a text is written to.

ghost use Rattle.std.specs.Prelude.{◌≡◌, ℕ, List, [], IfOk, false};
ghost use Rattle.std.specs.String.{string_bytes};
ghost use Rattle.printer.specs.Standings.{Standing, Puts, of_writer, of_text};

use source_text::{DeviceFault, OutputBuffer, Sink, write_text};
use std::alloc::{AllocError, Global};

/// What a text is put into, bit by bit. Once it has failed, nothing more is put into it.
pub trait TextSink {
    /// What was put into it and what waits in the room, and whether it has failed.
    ghost stands: { Self → List ℕ → Standing };

    /// Puts in what follows.
    fn put(&mut self, room: &mut OutputBuffer, text: &str)
        ensures { Puts (stands self.old room.old) (stands self.new room.new) text.now };

    /// Puts in what waits.
    fn finish(&mut self, room: &mut OutputBuffer)
        ensures done { Puts (stands self.old room.old) (stands self.new room.new) [] }
        ensures empty { room.new ≡ [] };
}

impl<W: Sink> TextSink for W {
    ghost stands = { λ w room. of_writer (W.taken w) (W.failed w) room };

    /// Adds the text to what waits in the room; if it doesn't fit there, writes what waits first.
    fn put(&mut self, room: &mut OutputBuffer, text: &str) {
        let bytes = text.as_bytes();
        if room.fits(bytes.len()) {
            room.push_bytes(bytes);
            return;
        }
        put_beyond(self, room, bytes);
    }

    /// Writes what waits in the room, unless the writer has failed.
    fn finish(&mut self, room: &mut OutputBuffer) {
        flush(self, room);
    }
}

/// Puts in what has no room behind what waits.
#[inline(never)]
fn put_beyond<W: Sink>(writer: &mut W, room: &mut OutputBuffer, bytes: &[u8])
    ensures { Puts (of_writer (W.taken writer.old) (W.failed writer.old) room.old) (of_writer (W.taken writer.new) (W.failed writer.new) room.new) bytes.now }
{
    flush(writer, room);
    if room.fits(bytes.len()) {
        room.push_bytes(bytes);
        return;
    }
    write_on(writer, bytes);
}

/// Writes what waits, unless the writer has failed.
fn flush<W: Sink>(writer: &mut W, room: &mut OutputBuffer)
    ensures done { Puts (of_writer (W.taken writer.old) (W.failed writer.old) room.old) (of_writer (W.taken writer.new) (W.failed writer.new) []) [] }
    ensures empty { room.new ≡ [] }
{
    write_on(writer, room.as_bytes());
    room.clear();
}

/// Writes these bytes, which wait, unless the writer has failed.
fn write_on<W: Sink>(writer: &mut W, waiting: &[u8])
    ensures { Puts (of_writer (W.taken writer.old) (W.failed writer.old) waiting.now) (of_writer (W.taken writer.new) (W.failed writer.new) []) [] }
{
    if writer.has_failed() {
        return;
    }
    match write_text(waiting, writer) {
        Ok(()) => {}
        Err(DeviceFault) => {}
    }
}

/// A text that grows, until memory is refused.
#[derive(Drop)]
pub struct TextBuffer {
    string: String,
    is_refused: bool,
}

impl TextBuffer {
    /// With nothing in it, and room for so many bytes.
    pub(crate) fn new(alloc: Global, room: usize) -> Result<TextBuffer, AllocError>
        ensures empty { IfOk result (λ t. string_bytes t.string ≡ []) }
        ensures given { IfOk result (λ t. t.is_refused ≡ false) }
    {
        Ok(TextBuffer {
            string: String::with_capacity(alloc, room)?,
            is_refused: false,
        })
    }

    /// The whole of it.
    ///
    /// # Errors
    /// Memory was refused.
    pub(crate) fn into_string(self) -> Result<String, AllocError>
        ensures { IfOk result (λ s. (string_bytes s ≡ string_bytes self.string) × (self.is_refused ≡ false)) }
    {
        if self.is_refused {
            return Err(AllocError);
        }
        Ok(self.string)
    }
}

impl TextSink for TextBuffer {
    ghost stands = { λ t room. of_text (string_bytes t.string) t.is_refused };

    /// Adds the text, unless memory was refused before.
    fn put(&mut self, _room: &mut OutputBuffer, text: &str) {
        if self.is_refused {
            return;
        }
        match self.string.push_str(text) {
            Ok(()) => {}
            Err(AllocError) => self.is_refused = true,
        }
    }

    /// Clears the room, in which nothing waits for a text.
    fn finish(&mut self, room: &mut OutputBuffer) {
        room.clear();
    }
}
