//! Refusals of a run, with the line and the column that they speak of.

ghost use Rattle.std.specs.Prelude.{◌≡◌};
ghost use Rattle.commands.specs.Refused.{at_no_place};

use crate::hint::Hint;
use source_text::Fault;
use std::alloc::{AllocError, AllocFailed};

/// A refusal, the place that it speaks of, its line and its column from 1, both 0 where there is none, and its hint.
#[derive(Clone, Copy, Debug, PartialEq, Eq)]
pub struct Refused {
    pub fault: Fault,
    /// Whether it speaks of the text of the second script.
    pub in_second: bool,
    pub line: u32,
    pub column: u32,
    /// Which later language takes the text, or of which one the refusal is.
    pub hint: Hint,
}

impl Refused {
    /// A refusal that speaks of no place, without a hint.
    pub fn at_no_place(fault: Fault) -> Refused
        ensures { result ≡ at_no_place fault }
    {
        Refused {
            fault,
            in_second: false,
            line: 0,
            column: 0,
            hint: Hint::Nothing,
        }
    }
}

impl From<AllocError> for Refused {
    ghost use Rattle.std.specs.Prelude.{◌≡◌};
    ghost use Rattle.commands.specs.Refused.{no_memory};

    ghost from_gives = { λ _ e. e ≡ no_memory };

    /// Refused memory, as a refusal without a place.
    fn from(_error: AllocError) -> Refused {
        Refused::at_no_place(Fault::OutOfMemory)
    }
}

impl<T: Drop> From<AllocFailed<T>> for Refused {
    ghost use Rattle.std.specs.Prelude.{◌≡◌};
    ghost use Rattle.commands.specs.Refused.{no_memory};

    ghost from_gives = { λ _ e. e ≡ no_memory };

    /// Refused memory for a value, as a refusal without a place.
    fn from(_error: AllocFailed<T>) -> Refused {
        Refused::at_no_place(Fault::OutOfMemory)
    }
}
