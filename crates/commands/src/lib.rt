#![tactic(auto)]

//! The commands and the languages that a call may ask for, whole texts from a reader, and refusals in words. It knows no JavaScript.
//! - May touch: a reader up to a limit, and a writer for one line.
//! - Contract: `write_refusal` writes the line of a refusal, or a prefix of it if the writer fails, and answers its
//!   status.
//! - Begin at: `command.rt`, `Command`, `FormatChoice`; `language_choice.rt`, `LanguageChoice`; `asked_language.rt`, `AskedLanguage`; `hint.rt`, `Hint`; `refusal.rt`, `write_refusal`; `bounded_read.rt`, `read_up_to`.

mod asked_language;
mod bounded_read;
mod command;
mod hint;
mod language_choice;
mod refusal;
mod refused;

pub use asked_language::AskedLanguage;
pub use bounded_read::{ROOM, read_up_to};
pub use command::{CommaChoice, Command, FormatChoice, ReportForm};
pub use hint::Hint;
pub use language_choice::LanguageChoice;
pub use refusal::{status, write_refusal};
pub use refused::Refused;
