//! Why a script is not built.

use std::alloc::{AllocError, AllocFailed};

/// Why a script is not built.
#[derive(Clone, Copy, Debug, PartialEq, Eq)]
pub enum BuildError {
    /// Memory is refused.
    Memory,
    /// The script has more nodes or parts, or a later place, than four bytes number.
    TooLarge,
}

impl From<AllocError> for BuildError {
    ghost use Rattle.std.specs.Prelude.{◌≡◌};
    ghost use Rattle.tree.specs.declared.build_error.BuildError.TheVariants.{Memory};

    ghost from_gives = { λ _ e. e ≡ Memory };

    /// Refused memory, as an error of building a tree.
    fn from(_error: AllocError) -> BuildError {
        BuildError::Memory
    }
}

impl<T: Drop> From<AllocFailed<T>> for BuildError {
    ghost use Rattle.std.specs.Prelude.{◌≡◌};
    ghost use Rattle.tree.specs.declared.build_error.BuildError.TheVariants.{Memory};

    ghost from_gives = { λ _ e. e ≡ Memory };

    /// Refused memory for a value, as an error of building a tree.
    fn from(_error: AllocFailed<T>) -> BuildError {
        BuildError::Memory
    }
}
