//! A reader of bytes in memory.

ghost use Rattle.std.specs.Prelude.{◌≡◌, Some, false};

use source_text::{DeviceFault, Feed};

/// The bytes that are left. It never fails.
#[derive(Drop)]
pub struct BytesFeed<'b> {
    rest: &'b [u8],
}

impl<'b> BytesFeed<'b> {
    /// A reader of these bytes.
    pub fn new(bytes: &'b [u8]) -> BytesFeed<'b>
        ensures { result.rest.now ≡ bytes.now }
    {
        BytesFeed { rest: bytes }
    }
}

impl<'b> Feed for BytesFeed<'b> {
    ghost left = { λ f. Some f.rest.now };

    ghost failed = { λ _. false };

    /// Gives the next bytes, as many as the room takes.
    fn get(&mut self, room: &mut [u8]) -> Result<usize, DeviceFault> {
        let count = room.len().min(self.rest.len());
        let (front, rest) = self.rest.split_at(count);
        room[..count].copy_from_slice(front);
        self.rest = rest;
        Ok(count)
    }

    /// It never fails.
    fn has_failed(&self) -> bool {
        false
    }
}
