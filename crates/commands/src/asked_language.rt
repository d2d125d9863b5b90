//! How a call says in which language its script is read.

use crate::language_choice::LanguageChoice;

/// The language in which the script of a call is read.
#[derive(Clone, Copy, Debug, PartialEq, Eq)]
pub enum AskedLanguage {
    /// That of what the call says of it.
    Said(LanguageChoice),
    /// The first that accepts the script, of the base profile, scripts of 2022 and modules, whatever settings say.
    Any,
}
