//! Texts that were made.

ghost use Rattle.std.specs.Prelude.{◌≡◌, IfOk};

use bumpalo::Bump;
use std::alloc::{AllocError, Global};

/// Texts that were made while a script was read, and that no slice of its source is. They stay where they are, and outlive the trees
/// whose nodes have them.
#[derive(Drop)]
pub struct TextArena {
    bump: Bump,
}

impl TextArena {
    /// No texts; no memory.
    pub fn new(alloc: Global) -> TextArena {
        TextArena {
            bump: Bump::new(alloc),
        }
    }

    /// A copy of a text.
    ///
    /// # Errors
    /// `AllocError` where memory is refused.
    pub fn keep(&self, text: &str) -> Result<&str, AllocError>
        ensures { IfOk result (λ kept. kept.now ≡ text.now) }
    {
        self.bump.try_alloc_str(text)
    }
}
