//! The text of a tree's JSON, to a writer.

ghost use Rattle.std.specs.Prelude.{◌≡◌, false};
ghost use Rattle.source_text.specs.Writing.{WritesMade};
ghost use Rattle.estree_json.specs.Json.{json_text};

use crate::text::tree_text;
use source_text::{DeviceFault, Fault, Sink, write_text};
use std::alloc::Global;
use tree::Program;

/// Writes the value of a script as JSON without spaces. The whole text is made before the first byte is written, and what was written is
/// always a beginning of it.
///
/// # Errors
///
/// `OutOfMemory`, with nothing written, and `WriteFailed` where the writer fails, which is not asked again.
pub fn write_tree<W: Sink>(alloc: Global, program: &Program, writer: &mut W) -> Result<(), Fault>
    requires { W.failed writer.old ≡ false }
    ensures { WritesMade (json_text program.now) result (W.taken writer.old) (W.taken writer.new) (W.failed writer.new) }
{
    let text = tree_text(alloc, program)?;
    match write_text(text.as_bytes(), writer) {
        Ok(()) => Ok(()),
        Err(DeviceFault) => Err(Fault::WriteFailed),
    }
}
