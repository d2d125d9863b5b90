#![tactic(auto)]

//! Whole calls over a script: `read_script`, `read_any`, `fix`, `fix_text`, `unwrap_text`, `mend_text`, `format_text`, and `run`, a run
//! of a command.
//! - May touch: two readers and a writer. All is read and judged before the first byte is written; no memory is taken
//!   after it.
//! - Contract: `run`: if the devices report their bytes, the whole of the command's output for what was read was
//!   written.
//! - Begin at: `run.rt`, `run`; `script_reader.rt`, `read_script`; `any_language.rt`, `read_any`, where each language is tried; a file for each command. Definitions:
//!   `specs/Run.antt`.

mod answer;
mod any_answers;
mod any_language;
mod check_command;
mod command_answers;
mod cost_commands;
mod fix_command;
mod format;
mod format_command;
mod hints;
mod languages;
mod mend;
mod mend_command;
mod refusals;
pub mod run;
mod same_command;
mod script_reader;
mod unwrap;

pub use any_language::{RefusedIn, ScriptIn, read_any};
pub use fix_command::{fix, fix_text};
pub use format::format_text;
pub use mend::mend_text;
pub use script_reader::read_script;
pub use unwrap::unwrap_text;
