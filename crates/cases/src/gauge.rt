//! A writer that takes all that it is handed, and remembers how much that was at most in one call.

use source_text::{DeviceFault, Sink};

/// A writer that counts the bytes that it is handed, and keeps none.
#[derive(Drop)]
pub(crate) struct Gauge {
    /// How many bytes it was handed.
    pub(crate) bytes: usize,
    /// The most that it was handed in one call.
    pub(crate) most: usize,
}

impl Gauge {
    /// A gauge that was handed nothing.
    pub(crate) fn new() -> Gauge {
        Gauge { bytes: 0, most: 0 }
    }
}

impl Sink for Gauge {
    ghost use Rattle.std.specs.Prelude.{None, false};

    ghost taken = { λ _. None };

    ghost failed = { λ _. false };

    /// Counts the bytes of a call.
    fn put(&mut self, piece: &[u8]) -> Result<usize, DeviceFault> {
        self.bytes = self.bytes.saturating_add(piece.len());
        self.most = self.most.max(piece.len());
        Ok(piece.len())
    }

    /// It never fails.
    fn has_failed(&self) -> bool {
        false
    }
}
