//! A list in chunks.

ghost use Rattle.std.specs.Prelude.{◌≡◌, ◌+◌, ◌<◌, ◌≤◌, OnOk, OnErr};
ghost use Rattle.segmented_vec.specs.SegmentedVec.{HasBegun, most_in_all};

use std::alloc::{AllocError, Global};
use std::marker::Model;

/// The most bytes that a `Vec` may hold, and so the most items.
const MAX_ITEMS: usize = 9_223_372_036_854_775_807;

/// Some items, one behind the other.
#[derive(Drop)]
struct Segment<T> {
    items: Vec<T>,
}

/// A list that is kept in chunks with room for `N` items each, which contracts see as one list. It grows without moving what it holds. A small
/// chunk fits where other memory was let go.
#[derive(Drop)]
pub struct SegmentedVec<T, const N: usize> {
    chunks: Vec<Segment<T>>,
    count: usize,
    alloc: Global,
}

impl<T, const N: usize> Model for SegmentedVec<T, N> {
    ghost use Rattle.std.specs.Prelude.{◌≡◌, ◌*◌, ◌≤◌, ◌<◌, List, length};
    ghost use Rattle.segmented_vec.specs.SegmentedVec.{joined, AllButTheLastAreFull, HaveRoom, most_in_all};

    ghost Value = { List T };

    ghost view = { λ ns. joined ns.chunks.items };

    ghost invariant = { λ ns. (0 < N) × (AllButTheLastAreFull N ns.chunks.items × (HaveRoom N ns.chunks.items × ((ns.count ≡ length (joined ns.chunks.items)) × (length ns.chunks.items * N ≤ most_in_all)))) };
}

impl<T: Drop, const N: usize> SegmentedVec<T, N> {
    ghost use Rattle.std.specs.Prelude.{◌≡◌, ◌<◌, ◌∷◌, ◌++◌, [], length, set, slice_index_or, OnOk, OnErr};

    /// No items; no memory.
    pub fn new(alloc: Global) -> SegmentedVec<T, N>
        requires { 0 < N }
        ensures { result ≡ [] }
    {
        SegmentedVec {
            chunks: Vec::new(alloc),
            count: 0,
            alloc,
        }
    }

    /// How many items it has.
    #[inline(always)]
    pub fn len(&self) -> usize
        ensures value { result ≡ length self.now }
        ensures few { result ≤ most_in_all }
    {
        self.count
    }

    /// The item with an index, counted from 0.
    #[inline(always)]
    pub fn at(&self, index: usize) -> &T
        requires { index < length self.now }
        ensures { result.now ≡ slice_index_or self.now index result.now }
    {
        let chunk = &self.chunks[index / N];
        &chunk.items[index % N]
    }

    /// Puts an item in the place of the one with an index, counted from 0.
    #[inline(always)]
    pub fn set(&mut self, index: usize, item: T)
        requires { index < length self.old }
        ensures { self.new ≡ set self.old index item }
    {
        let chunk = &mut self.chunks[index / N];
        chunk.items[index % N] = item;
    }

    /// One more item behind the others; as it was where memory is refused.
    ///
    /// # Errors
    ///
    /// `AllocError` where memory is refused. Where there would be more items than a `Vec` may hold, room for all of them is asked for, as a `Vec`
    /// of them would do.
    #[inline(always)]
    pub fn push(&mut self, item: T) -> Result<(), AllocError>
        ensures items { OnOk result (self.new ≡ self.old ++ item ∷ []) }
        ensures kept { OnErr result (self.new ≡ self.old) }
    {
        let place = self.count / N;
        if self.chunks.len() <= place {
            push_segment::<T, N>(&mut self.chunks, self.count, self.alloc)?;
        }
        let chunk = &mut self.chunks[place];
        chunk.items.push_reserved(item);
        self.count += 1;
        Ok(())
    }
}

/// How many items the chunk behind `count` others is to have room for: as many as any chunk. Where all items would be more than a `Vec` may hold,
/// as many as all: a `Vec` refuses that room, as it would refuse one more item if it held them.
fn room_after<const N: usize>(count: usize) -> usize
    ensures chunk { N ≤ result }
    ensures few { result ≤ most_in_all → count + N ≤ most_in_all }
{
    if count > MAX_ITEMS.saturating_sub(N) {
        return count.saturating_add(N);
    }
    N
}

/// An empty chunk behind the others, with room for all its items. `count`: how many items there are.
#[cold]
#[inline(never)]
fn push_segment<T: Drop, const N: usize>(
    chunks: &mut Vec<Segment<T>>,
    count: usize,
    alloc: Global,
) -> Result<(), AllocError>
    ensures begun { OnOk result (HasBegun N chunks.old.items chunks.new.items) }
    ensures few { OnOk result (count + N ≤ most_in_all) }
    ensures kept { OnErr result (chunks.new.items ≡ chunks.old.items) }
{
    let items = Vec::with_capacity(alloc, room_after::<N>(count))?;
    chunks.push(Segment { items })?;
    Ok(())
}
