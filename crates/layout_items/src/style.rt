//! What a layout is asked to be.

/// How wide lines may be, and how they are indented.
#[derive(Clone, Copy, Debug, PartialEq, Eq)]
pub struct Style {
    /// The columns of a line.
    pub width: u16,
    /// The columns of a level of indentation.
    pub indent: u8,
    /// Whether a level is one tab, in place of spaces.
    pub tabs: bool,
}
