//! What stands between two pieces.

ghost use Rattle.std.specs.Prelude.{◌≡◌};
ghost use Rattle.layout_items.specs.Gaps.{spaced, ended, parted};

/// The widest of what was asked for since the last piece.
#[derive(Clone, Copy, Debug, PartialEq, Eq)]
pub(crate) enum Gap {
    Nothing,
    Space,
    LineEnd,
    EmptyLine,
    /// Before the first piece: nothing, whatever is asked for.
    Beginning,
}

impl Gap {
    /// A space is asked for.
    pub(crate) fn spaced(self) -> Gap
        ensures { result ≡ spaced self }
    {
        match self {
            Gap::Nothing => Gap::Space,
            other => other,
        }
    }

    /// A line end is asked for.
    pub(crate) fn ended(self) -> Gap
        ensures { result ≡ ended self }
    {
        match self {
            Gap::Nothing | Gap::Space => Gap::LineEnd,
            other => other,
        }
    }

    /// An empty line is asked for.
    pub(crate) fn parted(self) -> Gap
        ensures { result ≡ parted self }
    {
        match self {
            Gap::Beginning => Gap::Beginning,
            _ => Gap::EmptyLine,
        }
    }
}
