//! What takes bytes and what gives them.

ghost use Rattle.std.specs.Prelude.{◌≡◌, ◌<◌, List, ℕ, Bool, true, false, length, Option};
ghost use Rattle.source_text.specs.Io.{GivesBytes, TakesBytes};

/// A device failed. It is not asked again.
#[derive(Clone, Copy, Debug, PartialEq, Eq)]
pub struct DeviceFault;

/// Something that bytes are written to.
pub trait Sink {
    /// The bytes that were taken so far, where the device tells them.
    ghost taken: { Self → Option (List ℕ) };

    /// Whether a call has failed.
    ghost failed: { Self → Bool };

    /// Takes bytes from the front of the piece and says how many: at least one of a piece that has any.
    ///
    /// # Errors
    ///
    /// A `DeviceFault` where the device fails. Nothing was taken by that call, and no call may follow.
    fn put(&mut self, piece: &[u8]) -> Result<usize, DeviceFault>
        requires { failed self.old ≡ false }
        ensures { TakesBytes piece.now result (taken self.old) (taken self.new) (failed self.new) };

    /// Whether a call has failed.
    fn has_failed(&self) -> bool
        ensures { result ≡ failed self.now };
}

/// Something that bytes are read from.
pub trait Feed {
    /// The bytes that are left to give, where the device tells them.
    ghost left: { Self → Option (List ℕ) };

    /// Whether a call has failed.
    ghost failed: { Self → Bool };

    /// Puts the next bytes at the front of the room and says how many: 0 at the end alone.
    ///
    /// # Errors
    ///
    /// A `DeviceFault` where the device fails. Nothing was given by that call, and no call may follow.
    fn get(&mut self, room: &mut [u8]) -> Result<usize, DeviceFault>
        requires ready { failed self.old ≡ false }
        requires room { 0 < length room.old }
        ensures { GivesBytes room.new result (left self.old) (left self.new) (failed self.new) };

    /// Whether a call has failed.
    fn has_failed(&self) -> bool
        ensures { result ≡ failed self.now };
}
