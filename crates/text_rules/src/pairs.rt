//! How many parentheses open right before a place.

ghost use Rattle.std.specs.Prelude.{◌≡◌};
ghost use Rattle.text_rules.specs.Readings.{more};

/// How many `(` stand one behind the other, with nothing but white space and comments between.
#[derive(Clone, Copy, Debug, PartialEq, Eq)]
pub enum Pairs {
    NoPair,
    OnePair,
    MorePairs,
}

impl Pairs {
    ghost use Rattle.std.specs.Prelude.{◌≡◌};
    ghost use Rattle.text_rules.specs.Readings.{more};

    /// One more.
    pub(crate) fn with_one(self) -> Pairs
        ensures { result ≡ more self }
    {
        match self {
            Pairs::NoPair => Pairs::OnePair,
            Pairs::OnePair | Pairs::MorePairs => Pairs::MorePairs,
        }
    }
}
