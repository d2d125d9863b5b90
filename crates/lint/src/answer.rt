//! What a run is to write.

ghost use Rattle.std.specs.Prelude.{◌≡◌, false};
ghost use Rattle.source_text.specs.Writing.{WritesText};
ghost use Rattle.lint.specs.Steps.{output_of, status_of, IsWritable};

use crate::fix_command::write_fixed;
use cost_certificate::write_table;
use paren_planner::Plan;
use parser::Parsed;
use source_text::{DeviceFault, Sink, write_text};
use wrap_flags::Wraps;

/// What is to be written, and the exit status behind it.
#[derive(Drop)]
pub enum Answer<'s> {
    /// A text that is made, and its status.
    Text(String, u8),
    /// A script's own text, which isn't copied; status 0.
    Unchanged(&'s str),
    /// The fixed text of a script, which is made as it is written by which nodes are wrapped; status 0.
    Fixed(Parsed<'s>, Wraps),
    /// The text of a script's cost table, which is made as it is written; status 0.
    Table(Parsed<'s>, Plan),
}

impl<'s> Answer<'s> {
    /// The exit status.
    pub fn status(&self) -> u8
        ensures { result ≡ status_of self.now }
    {
        match self {
            Answer::Text(_, status) => *status,
            Answer::Unchanged(..) | Answer::Fixed(..) | Answer::Table(..) => 0,
        }
    }

    /// Writes it. No memory; what was written is always a beginning of it.
    ///
    /// # Errors
    ///
    /// A `DeviceFault` where the writer fails; it is not asked again.
    pub fn write<W: Sink>(&self, writer: &mut W) -> Result<(), DeviceFault>
        requires ready { W.failed writer.old ≡ false }
        requires writable { IsWritable self.now }
        ensures { WritesText (output_of self.now) result (W.taken writer.old) (W.taken writer.new) (W.failed writer.new) }
    {
        match self {
            Answer::Text(text, _) => write_text(text.as_bytes(), writer),
            Answer::Unchanged(text) => write_text(text.as_bytes(), writer),
            Answer::Fixed(parsed, wraps) => write_fixed(parsed, wraps, writer),
            Answer::Table(parsed, plan) => match write_table(
                parsed.program(),
                plan.table(),
                writer,
            ) {
                Ok(()) => Ok(()),
                Err(_) => Err(DeviceFault),
            },
        }
    }
}
