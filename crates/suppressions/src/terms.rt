//! What is asked for.

/// Which comments count, and what is told of them.
#[derive(Clone, Copy, Debug, PartialEq, Eq)]
pub struct Terms {
    /// Whether ESLint's own words count too: `eslint-disable` and its kin.
    pub takes_eslint: bool,
    /// Whether a comment that turns no report off is reported.
    pub tells_unused: bool,
}
