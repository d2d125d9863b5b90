//! What decides about a report.

/// A suppression that decides about reports, by its index among others.
#[derive(Clone, Copy, Debug, PartialEq, Eq)]
pub(crate) struct Decision {
    pub index: usize,
    /// From where on: an offset, or the number of a line.
    pub from: usize,
    pub turns_off: bool,
}
