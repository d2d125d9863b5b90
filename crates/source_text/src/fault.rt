//! Refusals.

use std::alloc::{AllocError, AllocFailed};
use thiserror::Error;

/// What is wrong with a row of a table.
#[derive(Clone, Copy, Debug, PartialEq, Eq)]
pub enum Reason {
    Form,
    Shape,
    None,
    High,
    Total,
}

/// Why a call refuses. Places are byte offsets into the text, from 0.
#[derive(Clone, Copy, Debug, PartialEq, Eq, Error)]
pub enum Fault {
    /// The first byte that begins no UTF-8 sequence.
    #[error("not UTF-8 at byte {0}")]
    NotUtf8(usize),
    #[error("longer than 16777216 bytes")]
    TooLong,
    /// The place where reading stopped.
    #[error("syntax error at byte {0}")]
    Syntax(usize),
    #[error("nested too deep")]
    TooDeep,
    /// The number of an early error, and its place.
    #[error("early error E{0} at byte {1}")]
    Early(u8, usize),
    #[error("out of memory")]
    OutOfMemory,
    #[error("bad settings")]
    BadSettings,
    /// The row of a table, from 1, and what is wrong with it.
    #[error("bad table row {0} {1:?}")]
    BadTable(u32, Reason),
    #[error("write failed")]
    WriteFailed,
    #[error("read failed")]
    ReadFailed,
    /// What was made of a script in unwrapping it isn't the same script with the fewest pairs. No such script is known.
    #[error("can't be unwrapped")]
    UnwrapFailed,
    /// What was made of a script in formatting it isn't the same script in its layout. No such script is known.
    #[error("can't be formatted")]
    FormatFailed,
    #[error("usage")]
    Usage,
}

impl From<AllocError> for Fault {
    ghost use Rattle.std.specs.Prelude.{◌≡◌};
    ghost use Rattle.source_text.specs.declared.fault.Fault.TheVariants.{OutOfMemory};

    ghost from_gives = { λ _ e. e ≡ OutOfMemory };

    /// Refused memory, as a fault.
    fn from(_error: AllocError) -> Fault {
        Fault::OutOfMemory
    }
}

impl<T: Drop> From<AllocFailed<T>> for Fault {
    ghost use Rattle.std.specs.Prelude.{◌≡◌};
    ghost use Rattle.source_text.specs.declared.fault.Fault.TheVariants.{OutOfMemory};

    ghost from_gives = { λ _ e. e ≡ OutOfMemory };

    /// Refused memory for a value, as a fault.
    fn from(_error: AllocFailed<T>) -> Fault {
        Fault::OutOfMemory
    }
}
