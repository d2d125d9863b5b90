//! Devices made of std's readers and writers.

ghost use Rattle.std.specs.Prelude.{◌≡◌, ◌<◌, false, length};
ghost use Rattle.source_text.specs.Io.{GivesBytes, TakesBytes, TellsRead, TellsWrite};

use crate::inner::{Reader, Writer};
use crate::sink::{DeviceFault, Feed, Sink};

/// A reader or a writer of std as a device: the first error of `read` or `write` is its failure, and so is a
/// `write` that takes none of the bytes that it is handed.
#[derive(Drop)]
pub struct Device<T> {
    inner: T,
    has_failed: bool,
}

impl<T> Device<T> {
    /// A device that has not failed.
    fn new(inner: T) -> Device<T>
        ensures same { result.inner ≡ inner }
        ensures ready { result.has_failed ≡ false }
    {
        Device {
            inner,
            has_failed: false,
        }
    }
}

impl<T: Writer> Device<T> {
    /// The writer as a device that has not failed.
    pub fn of_writer(inner: T) -> Device<T>
        ensures same { ⟦<Device<T> as Sink>⟧.taken result ≡ T.contents inner }
        ensures ready { ⟦<Device<T> as Sink>⟧.failed result ≡ false }
    {
        Device::new(inner)
    }
}

impl<T: Reader> Device<T> {
    /// The reader as a device that has not failed.
    pub fn of_reader(inner: T) -> Device<T>
        ensures same { ⟦<Device<T> as Feed>⟧.left result ≡ T.remaining inner }
        ensures ready { ⟦<Device<T> as Feed>⟧.failed result ≡ false }
    {
        Device::new(inner)
    }
}

impl<T: Writer> Sink for Device<T> {
    ghost taken = { λ d. T.contents d.inner };

    ghost failed = { λ d. d.has_failed };

    /// Writes bytes and answers how many; a `write` that takes none of them is a failure.
    fn put(&mut self, piece: &[u8]) -> Result<usize, DeviceFault>
        requires { self.old.has_failed ≡ false }
        ensures bytes { TakesBytes piece.now result (T.contents self.old.inner) (T.contents self.new.inner) self.new.has_failed }
        ensures told { TellsWrite (λ answer. T.may_answer self.old.inner piece.now answer self.new.inner) piece.now result }
    {
        match self.inner.ask(piece) {
            Ok(count) if count > 0 || piece.is_empty() => Ok(count),
            _ => {
                self.has_failed = true;
                Err(DeviceFault)
            }
        }
    }

    /// Whether a write has failed.
    fn has_failed(&self) -> bool {
        self.has_failed
    }
}

impl<T: Reader> Feed for Device<T> {
    ghost left = { λ d. T.remaining d.inner };

    ghost failed = { λ d. d.has_failed };

    /// Reads bytes into the room and answers how many; 0 at the end.
    fn get(&mut self, room: &mut [u8]) -> Result<usize, DeviceFault>
        requires ready { self.old.has_failed ≡ false }
        requires room { 0 < length room.old }
        ensures bytes { GivesBytes room.new result (T.remaining self.old.inner) (T.remaining self.new.inner) self.new.has_failed }
        ensures told { TellsRead (λ answer. T.may_answer self.old.inner room.new answer self.new.inner) result }
    {
        match self.inner.ask(room) {
            Ok(count) => Ok(count),
            Err(_) => {
                self.has_failed = true;
                Err(DeviceFault)
            }
        }
    }

    /// Whether a read has failed.
    fn has_failed(&self) -> bool {
        self.has_failed
    }
}
