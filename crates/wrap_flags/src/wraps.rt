//! Flags for the rows of a script.

ghost use Rattle.std.specs.Prelude.{◌≡◌, ◌++◌, ◌∷◌, [], false, drop, replicate, get_or, IfOk, OnOk};
ghost use Rattle.wrap_flags.specs.Flags.{is_flagged};

use std::alloc::{AllocError, Global};

/// Of the rows of a script, in their order, whether the node of each is wrapped in a pair. Behind the last row that has a flag none is.
#[derive(Drop)]
pub struct Wraps {
    flags: Vec<bool>,
}

impl Wraps {
    /// No flags, with room for so many.
    ///
    /// # Errors
    ///
    /// `AllocError` where memory is refused.
    pub fn with_capacity(alloc: Global, capacity: usize) -> Result<Wraps, AllocError>
        ensures { IfOk result (λ made. made.flags.items ≡ []) }
    {
        let flags = Vec::with_capacity(alloc, capacity)?;
        Ok(Wraps { flags })
    }

    /// Says whether the node of the next row is wrapped.
    ///
    /// # Errors
    ///
    /// `AllocError` where memory is refused.
    #[inline(always)]
    pub fn push(&mut self, is_wrapped: bool) -> Result<(), AllocError>
        ensures { OnOk result (self.new.flags.items ≡ self.old.flags.items ++ is_wrapped ∷ []) }
    {
        self.flags.push(is_wrapped)?;
        Ok(())
    }

    /// Says that the nodes of the next rows, so many, aren't wrapped.
    ///
    /// # Errors
    ///
    /// `AllocError` where memory is refused.
    #[inline(always)]
    pub fn push_unwrapped(&mut self, count: u32) -> Result<(), AllocError>
        ensures { OnOk result (self.new.flags.items ≡ self.old.flags.items ++ replicate count false) }
    {
        self.flags.resize(self.flags.len() + count as usize, false)
    }

    /// Whether the node of a row is wrapped, by the row's number, counted from 1.
    #[inline(always)]
    pub fn is_wrapped(&self, row: usize) -> bool
        ensures { result ≡ is_flagged self.now.flags.items row }
    {
        if row < 1 {
            return false;
        }
        flag_at(&self.flags, row - 1)
    }

    /// All rows, from the first on.
    #[inline(always)]
    pub fn rows(&self) -> WrapCursor<'_>
        ensures { result.flags.now ≡ self.now.flags.items }
    {
        WrapCursor { flags: &self.flags }
    }
}

/// The rows from one on, to be asked one after the other.
#[derive(Clone, Copy)]
pub struct WrapCursor<'w> {
    flags: &'w [bool],
}

impl<'w> WrapCursor<'w> {
    /// Whether the node of the next row is wrapped.
    #[inline(always)]
    pub fn is_wrapped(&self) -> bool
        ensures { result ≡ is_flagged self.now.flags.now 1 }
    {
        flag_at(self.flags, 0)
    }

    /// Whether the next row is wrapped; goes on to the row behind it.
    #[inline(always)]
    pub fn take(&mut self) -> bool
        ensures flag { result ≡ is_flagged self.old.flags.now 1 }
        ensures others { self.new.flags.now ≡ drop 1 self.old.flags.now }
    {
        let Some((first, others)) = self.flags.split_first() else {
            return false;
        };
        self.flags = others;
        *first
    }
}

/// Whether there is a flag at an index, counted from 0, and it says that its node is wrapped.
#[inline(always)]
fn flag_at(flags: &[bool], index: usize) -> bool
    ensures { result ≡ get_or flags.now index false }
{
    match flags.get(index) {
        Some(is_wrapped) => *is_wrapped,
        None => false,
    }
}
