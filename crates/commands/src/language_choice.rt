//! The language that a call asks for.

/// What a call says of the language of its scripts.
#[derive(Clone, Copy, Debug, PartialEq, Eq)]
pub enum LanguageChoice {
    /// Nothing: that of the base profile, unless settings say another one.
    Unsaid,
    /// That of the base profile.
    Edition2020,
    /// ECMAScript 2022: strict scripts, unless settings say that they are modules.
    Edition2022,
    /// Modules of ECMAScript 2022.
    Module,
}
