//! Texts of the user, written so that a terminal shows them and doesn't obey them.

ghost use Rattle.std.specs.Prelude.{◌≡◌, ◌≤◌, ◌++◌, OnOk, false, length};
ghost use Rattle.source_text.specs.Writing.{WritesText};
ghost use Rattle.command_line.specs.Sent.{HandsOn};
ghost use Rattle.command_line.specs.Shown.{escaped, shown_text};

use crate::shown::push_shown;
use source_text::{DeviceFault, MAX_PIECE, OutputBuffer, Sink, write_text};

/// More than anything has that is put behind what waits at once.
const ROOM: usize = 32;

/// Writes what waits where there isn't room for more.
pub(crate) fn make_room<W: Sink>(
    waiting: &mut OutputBuffer,
    writer: &mut W,
) -> Result<(), DeviceFault>
    requires ready { W.failed writer.old ≡ false }
    ensures written { HandsOn (W.taken writer.old) (W.taken writer.new) waiting.new waiting.old result (W.failed writer.new) }
    ensures room { OnOk result (length waiting.new ≤ 4064) }
{
    if waiting.len() <= MAX_PIECE - ROOM {
        return Ok(());
    }
    if let Err(fault) = write_text(waiting.as_bytes(), writer) {
        return Err(fault);
    }
    waiting.clear();
    Ok(())
}

/// Puts a text behind what waits, each character as it is shown, and writes what waits where there isn't room. A line feed stays where
/// the text may have lines.
pub(crate) fn push_escaped<W: Sink>(
    waiting: &mut OutputBuffer,
    text: &str,
    has_lines: bool,
    writer: &mut W,
) -> Result<(), DeviceFault>
    requires { W.failed writer.old ≡ false }
    ensures { HandsOn (W.taken writer.old) (W.taken writer.new) waiting.new (waiting.old ++ shown_text has_lines text.now) result (W.failed writer.new) }
{
    for c in text.chars() {
        if let Err(fault) = make_room(waiting, writer) {
            return Err(fault);
        }
        push_shown(waiting, c, has_lines);
    }
    Ok(())
}

/// Writes the text with `\x1b` and the like in place of each control character but the line feed, and `\u{202e}` and the like in place
/// of each character that turns a text round, or separates lines or paragraphs. It takes no memory.
///
/// # Errors
///
/// A `DeviceFault` where the writer fails, which has a beginning of that then and is not asked again.
pub fn write_escaped<W: Sink>(text: &str, writer: &mut W) -> Result<(), DeviceFault>
    requires { W.failed writer.old ≡ false }
    ensures { WritesText (escaped text.now) result (W.taken writer.old) (W.taken writer.new) (W.failed writer.new) }
{
    let mut waiting = OutputBuffer::new();
    if let Err(fault) = push_escaped(&mut waiting, text, true, writer) {
        return Err(fault);
    }
    write_text(waiting.as_bytes(), writer)
}
