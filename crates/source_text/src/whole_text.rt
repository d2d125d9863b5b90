//! Whole texts to a sink.

ghost use Rattle.std.specs.Prelude.{◌≡◌, false};
ghost use Rattle.source_text.specs.Writing.{WritesText};

use crate::sink::{DeviceFault, Sink};

/// The most bytes that one `put` is handed.
pub const MAX_PIECE: usize = 4096;

/// Writes the whole text, in pieces of at most `MAX_PIECE` bytes, each behind what was taken of the one before. So what was
/// written is always a beginning of the text. It takes no memory.
///
/// # Errors
///
/// A `DeviceFault` where the writer fails; it is not asked again.
pub fn write_text<W: Sink>(text: &[u8], writer: &mut W) -> Result<(), DeviceFault>
    requires { W.failed writer.old ≡ false }
    ensures { WritesText text.now result (W.taken writer.old) (W.taken writer.new) (W.failed writer.new) }
{
    let mut at = 0;
    while at < text.len() {
        let end = if text.len() - at < MAX_PIECE {
            text.len()
        } else {
            at + MAX_PIECE
        };
        let count = writer.put(&text[at..end])?;
        at += count;
    }
    Ok(())
}
