//! Devices in memory, for tests and for text that stays in the program.

ghost use Rattle.std.specs.Prelude.{◌≡◌, ◌<◌, Some, [], false, true, IfOk, IsErr, length};
ghost use Rattle.source_text.specs.Io.{GivesBytes, TakesBytes};
ghost use Rattle.source_text.specs.Memory.{Gets, Puts, is_chosen, next_number};

use crate::sink::{DeviceFault, Feed, Sink};
use std::alloc::{AllocError, Global};
use std::marker::Model;

/// How a device in memory behaves.
#[derive(Clone, Copy, Debug, PartialEq, Eq)]
pub struct FailurePlan {
    /// The most bytes that pass in one call.
    pub per_call: usize,
    /// The call that fails, counted from 1, if any does.
    pub fails_at: Option<u64>,
}

/// The calls that were made of a device.
#[derive(Drop)]
struct Calls {
    plan: FailurePlan,
    made: u64,
    has_failed: bool,
}

impl Calls {
    /// No call was made yet of a device with this plan.
    fn new(plan: FailurePlan) -> Calls
        ensures { result ≡ record { plan = plan; made = 0; has_failed = false } }
    {
        Calls {
            plan,
            made: 0,
            has_failed: false,
        }
    }

    /// Counts a call, and says whether it is the one that fails.
    fn next_fails(&mut self) -> bool
        ensures chosen { result ≡ is_chosen self.old.plan.fails_at (next_number self.old.made) }
        ensures counted { self.new ≡ record self.old { made = next_number self.old.made } }
    {
        self.made = self.made.saturating_add(1);
        match self.plan.fails_at {
            Some(number) => number == self.made,
            None => false,
        }
    }
}

/// A writer with room in memory. Once it is made it takes no more.
#[derive(Drop)]
pub struct MemorySink {
    bytes: Vec<u8>,
    room: usize,
    calls: Calls,
}

impl Model for MemorySink {
    ghost use Rattle.std.specs.Prelude.{◌≤◌, vec_len, vec_capacity};
    ghost use Rattle.source_text.specs.Memory.{Stored};

    ghost Value = { Stored };

    ghost view = { λ s. record { bytes = s.bytes.items; room = s.room; plan = s.calls.plan; made = s.calls.made; failed = s.calls.has_failed } };

    ghost invariant = { λ s. (vec_len s.bytes ≤ s.room) × (s.room ≤ vec_capacity s.bytes) };
}

impl MemorySink {
    /// An empty writer with room for so many bytes. It fails once they are used up.
    pub fn new(alloc: Global, room: usize, plan: FailurePlan) -> Result<MemorySink, AllocError>
        ensures { IfOk result (λ s. s ≡ record { bytes = []; room = room; plan = plan; made = 0; failed = false }) }
    {
        Ok(MemorySink {
            bytes: Vec::with_capacity(alloc, room)?,
            room,
            calls: Calls::new(plan),
        })
    }

    /// What was written.
    pub fn bytes(&self) -> &[u8]
        ensures { result.now ≡ self.now.bytes }
    {
        &self.bytes
    }

    /// Marks the device as failed, and answers that.
    fn fail(&mut self) -> Result<usize, DeviceFault>
        ensures failed { self.new ≡ record self.old { failed = true } }
        ensures answer { IsErr result }
    {
        self.calls.has_failed = true;
        Err(DeviceFault)
    }
}

impl Sink for MemorySink {
    ghost taken = { λ s. Some s.bytes };

    ghost failed = { λ s. s.failed };

    /// Takes as many bytes as the plan allows in one call and as there is room for.
    fn put(&mut self, piece: &[u8]) -> Result<usize, DeviceFault>
        requires { self.old.failed ≡ false }
        ensures bytes { TakesBytes piece.now result (Some self.old.bytes) (Some self.new.bytes) self.new.failed }
        ensures exact { Puts self.old piece.now result self.new }
    {
        if self.calls.next_fails() {
            return self.fail();
        }
        let left = self.room - self.bytes.len();
        let count = piece.len().min(self.calls.plan.per_call).min(left);
        if count == 0 && !piece.is_empty() {
            return self.fail();
        }
        self.bytes.extend_from_slice(&piece[..count]).unwrap();
        Ok(count)
    }

    /// Whether a call has failed.
    fn has_failed(&self) -> bool {
        self.calls.has_failed
    }
}

/// A reader over bytes in memory. It gives at least one byte a call until the end.
#[derive(Drop)]
pub struct MemoryFeed<'b> {
    rest: &'b [u8],
    calls: Calls,
}

impl<'b> Model for MemoryFeed<'b> {
    ghost use Rattle.source_text.specs.Memory.{Unread};

    ghost Value = { Unread };

    ghost view = { λ f. record { left = f.rest.now; plan = f.calls.plan; made = f.calls.made; failed = f.calls.has_failed } };
}

impl<'b> MemoryFeed<'b> {
    /// A reader of these bytes.
    pub fn new(bytes: &'b [u8], plan: FailurePlan) -> MemoryFeed<'b>
        ensures { result ≡ record { left = bytes.now; plan = plan; made = 0; failed = false } }
    {
        MemoryFeed {
            rest: bytes,
            calls: Calls::new(plan),
        }
    }
}

impl<'b> Feed for MemoryFeed<'b> {
    ghost left = { λ f. Some f.left };

    ghost failed = { λ f. f.failed };

    /// Gives as many bytes as the plan allows in one call and as are left.
    fn get(&mut self, room: &mut [u8]) -> Result<usize, DeviceFault>
        requires ready { self.old.failed ≡ false }
        requires room { 0 < length room.old }
        ensures bytes { GivesBytes room.new result (Some self.old.left) (Some self.new.left) self.new.failed }
        ensures exact { Gets self.old (length room.old) result self.new }
    {
        if self.calls.next_fails() {
            self.calls.has_failed = true;
            return Err(DeviceFault);
        }
        let most = self.calls.plan.per_call.max(1);
        let count = room.len().min(most).min(self.rest.len());
        let (front, rest) = self.rest.split_at(count);
        room[..count].copy_from_slice(front);
        self.rest = rest;
        Ok(count)
    }

    /// Whether a call has failed.
    fn has_failed(&self) -> bool {
        self.calls.has_failed
    }
}
