//! What may be chosen.

/// Where a broken list has a last comma.
#[derive(Clone, Copy, Debug, PartialEq, Eq)]
pub enum LastCommas {
    Nowhere,
    /// In lists other than arguments and parameters.
    Lists,
    Everywhere,
}

/// What may be chosen beside the style.
#[derive(Clone, Copy, Debug, PartialEq, Eq)]
pub struct Options {
    pub last_commas: LastCommas,
    /// Whether one plain parameter of an arrow has no parentheses.
    pub bare_arrows: bool,
}

impl Options {
    /// Whether arguments and parameters may have a last comma.
    pub fn has_last_arguments_comma(self) -> bool {
        matches!(self.last_commas, LastCommas::Everywhere)
    }

    /// Whether other lists may have one.
    pub fn has_last_list_comma(self) -> bool {
        !matches!(self.last_commas, LastCommas::Nowhere)
    }
}
