//! Why settings are refused.

use crate::settings_fault::SettingsFault;
use std::alloc::{AllocError, AllocFailed};

/// Why settings are refused.
#[derive(Clone, Copy)]
pub enum SettingsError {
    /// Memory is refused.
    Memory,
    /// The text is no TOML document; the place of the error, a byte offset from 0.
    NotToml(usize),
    /// The text is too long.
    TooLong,
    /// The text has another key, another rule, another option, another set, another environment or a value of another kind, or names a rule
    /// twice: the first such key, and why it doesn't fit.
    Unfit(SettingsFault),
}

impl From<AllocError> for SettingsError {
    ghost use Rattle.std.specs.Prelude.{◌≡◌};
    ghost use Rattle.rules.specs.declared.settings_error.SettingsError.TheVariants.{Memory};

    ghost from_gives = { λ _ e. e ≡ Memory };

    /// Refused memory, as an error of settings.
    fn from(_error: AllocError) -> SettingsError {
        SettingsError::Memory
    }
}

/// Why no value is read at a key.
#[derive(Clone, Copy, Debug, PartialEq, Eq)]
pub(crate) enum ValueError {
    /// Memory is refused.
    Memory,
    /// What stands there doesn't fit.
    Unfit,
}

impl From<AllocError> for ValueError {
    ghost use Rattle.std.specs.Prelude.{◌≡◌};
    ghost use Rattle.rules.specs.declared.settings_error.ValueError.TheVariants.{Memory};

    ghost from_gives = { λ _ e. e ≡ Memory };

    /// Refused memory, as an error of a value.
    fn from(_error: AllocError) -> ValueError {
        ValueError::Memory
    }
}

impl<T: Drop> From<AllocFailed<T>> for ValueError {
    ghost use Rattle.std.specs.Prelude.{◌≡◌};
    ghost use Rattle.rules.specs.declared.settings_error.ValueError.TheVariants.{Memory};

    ghost from_gives = { λ _ e. e ≡ Memory };

    /// Refused memory for a value, as an error of a value.
    fn from(_error: AllocFailed<T>) -> ValueError {
        ValueError::Memory
    }
}
