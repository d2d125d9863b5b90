#![tactic(auto)]

//! The words of the command line, its help and version, and what is said in place of a command.
//! - May touch: the words, by clap, which no other crate loads, and the two streams.
//! - Contract: `command_line` answers the command, the files and what is said of the language, by clap's own definition of the words.
//! - Begin at: `line.rt`, `command_line`; `asked_language.rt`; `mistake.rt`, `explain`; `unread.rt`, `explain_unread`; `shown.rt` for what is escaped.

mod asked_language;
mod escaped;
mod help;
mod line;
mod mistake;
mod shown;
mod unread;

pub use asked_language::{OptionMistake, explain_option};
pub use escaped::write_escaped;
pub use line::{Line, command_line};
pub use mistake::{explain, explain_not_utf8};
pub use shown::{shown_bytes, shown_name};
pub use unread::{ReadFailure, explain_unread, failure_words};
