//! What is said of a file that can't be opened or read.

ghost use Rattle.std.specs.Prelude.{◌≡◌, ◌≤◌, false, length};
ghost use Rattle.source_text.specs.Writing.{WritesText};
ghost use Rattle.commands.specs.Refusal.{WritesLine};
ghost use Rattle.command_line.specs.Unread.{failure_words, unread_line};

use crate::escaped::{make_room, push_escaped};
use source_text::{DeviceFault, OutputBuffer, Sink, write_text};

/// Why a file can't be opened or read, as far as the system tells.
#[derive(Clone, Copy, Debug, PartialEq, Eq)]
pub enum ReadFailure {
    /// There is no such file.
    Missing,
    /// It is a folder.
    Folder,
    /// The system doesn't permit it.
    NotPermitted,
    /// Its name leads from link to link without end.
    LinkCircle,
    /// It is standard input, and so is the other file.
    Twice,
    /// It is standard input, and a list has it.
    InList,
    /// Its name isn't UTF-8.
    NotUtf8,
    /// Any other reason, or none is told.
    Other,
}

/// What is said behind the name.
pub fn failure_words(failure: ReadFailure) -> &'static str
    ensures words { result.now ≡ failure_words failure }
    ensures short { length result.now ≤ 31 }
{
    match failure {
        ReadFailure::Missing => ": missing",
        ReadFailure::Folder => ": a folder",
        ReadFailure::NotPermitted => ": not permitted",
        ReadFailure::LinkCircle => ": links in a circle",
        ReadFailure::Twice => ": both files are standard input",
        ReadFailure::InList => ": standard input in a list",
        ReadFailure::NotUtf8 => ": the name is not UTF-8",
        ReadFailure::Other => "",
    }
}

/// Writes the line, as `explain_unread` does.
fn write_unread<W: Sink>(
    name: &str,
    failure: ReadFailure,
    errors: &mut W,
) -> Result<(), DeviceFault>
    requires { W.failed errors.old ≡ false }
    ensures { WritesText (unread_line name.now failure) result (W.taken errors.old) (W.taken errors.new) (W.failed errors.new) }
{
    let mut waiting = OutputBuffer::new();
    waiting.push_text("jslint: read failed: ");
    if let Err(fault) = push_escaped(&mut waiting, name, false, errors) {
        return Err(fault);
    }
    if let Err(fault) = make_room(&mut waiting, errors) {
        return Err(fault);
    }
    waiting.push_text(failure_words(failure));
    waiting.push(b'\n');
    write_text(waiting.as_bytes(), errors)
}

/// Says that the file of this name can't be opened or read, and why, in a line: each hidden character of the name is escaped, line feeds
/// too. It takes no memory. Answers the exit status.
pub fn explain_unread<W: Sink>(name: &str, failure: ReadFailure, errors: &mut W) -> u8
    requires { W.failed errors.old ≡ false }
    ensures status { result ≡ 2 }
    ensures line { WritesLine (unread_line name.now failure) (W.taken errors.old) (W.taken errors.new) (W.failed errors.new) }
{
    let _ = write_unread(name, failure, errors);
    2
}
