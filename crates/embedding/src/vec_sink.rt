//! A writer into memory that grows.

ghost use Rattle.std.specs.Prelude.{◌≡◌, [], Some, false};

use source_text::{DeviceFault, Sink};
use std::alloc::Global;

/// All the bytes that were written. It fails where memory is refused.
#[derive(Drop)]
pub struct VecSink {
    bytes: Vec<u8>,
    has_failed: bool,
}

impl VecSink {
    /// No bytes.
    pub fn new(alloc: Global) -> VecSink
        ensures empty { result.bytes.items ≡ [] }
        ensures ready { result.has_failed ≡ false }
    {
        VecSink {
            bytes: Vec::new(alloc),
            has_failed: false,
        }
    }

    /// The bytes.
    pub fn into_bytes(self) -> Vec<u8>
        ensures { result.items ≡ self.bytes.items }
    {
        self.bytes
    }
}

impl Sink for VecSink {
    ghost taken = { λ s. Some s.bytes.items };

    ghost failed = { λ s. s.has_failed };

    /// Adds all bytes; fails if memory is refused.
    fn put(&mut self, piece: &[u8]) -> Result<usize, DeviceFault> {
        match self.bytes.extend_from_slice(piece) {
            Ok(()) => Ok(piece.len()),
            Err(_) => {
                self.has_failed = true;
                Err(DeviceFault)
            }
        }
    }

    /// Whether memory was refused.
    fn has_failed(&self) -> bool {
        self.has_failed
    }
}
