//! What a refusal of a text says of languages.

/// Which later language takes a text that is refused in an earlier one; or, where each was tried, of which one the refusal is.
#[derive(Clone, Copy, Debug, PartialEq, Eq)]
pub enum Hint {
    /// None does, or the refusal speaks of no text that one might take.
    Nothing,
    /// Scripts of ECMAScript 2022 do.
    Edition2022,
    /// Modules of ECMAScript 2022 do, and no scripts of a later language.
    Module,
    /// Memory was refused while they were asked.
    Unknown,
    /// Each was tried, and none takes it. The refusal is that of the base profile.
    InBase,
    /// The same, and it is that of scripts of ECMAScript 2022.
    InScript,
    /// The same, and it is that of modules.
    InModule,
}
