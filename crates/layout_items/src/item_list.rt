//! Items while they are made.

ghost use Rattle.std.specs.Prelude.{◌≡◌, ◌≢◌, ◌≤◌, ◌<◌, ◌+◌, ◌^◌, ◌++◌, ◌∷◌, [], List, Some, None, Ok, Err, IfOk, MatchResult};
ghost use Rattle.layout_items.specs.declared.item.Item.{Item};
ghost use Rattle.layout_items.specs.Passes.{sizes, size_of};

use crate::item::Item;
use crate::layout_error::LayoutError;
use std::alloc::Global;

/// What the items of a list may take in all: far more than those of a text do.
const MAX_SIZE: usize = 281_474_976_710_656;

/// Items, one behind the other. No call fails: once memory is refused, or there is more than fits, the list notes that, nothing more is added,
/// and `lay_out` refuses in the end.
#[derive(Drop)]
pub struct ItemList<'t> {
    items: Vec<Item<'t>>,
    size: usize,
    refused: Option<LayoutError>,
    ghost measured: { size ≡ sizes items.items },
    ghost few: { size ≤ 2 ^ 48 },
}

impl<'t> ItemList<'t> {
    /// No items; no memory.
    pub fn new(alloc: Global) -> ItemList<'t>
        ensures items { result.items.items ≡ [] }
        ensures refused { result.refused ≡ None }
    {
        ItemList {
            items: Vec::new(alloc),
            size: 0,
            refused: None,
        }
    }

    /// One more item behind the others.
    pub fn push(&mut self, item: Item<'t>)
        ensures items { self.new.refused ≡ None → self.new.items.items ≡ self.old.items.items ++ item.entry ∷ [] }
        ensures refused { self.old.refused ≢ None → self.new.refused ≡ self.old.refused }
        ensures few { self.old.refused ≡ None → self.new.refused ≡ Some LayoutError.TooLong → 2 ^ 48 < sizes self.old.items.items + size_of item.entry }
    {
        if self.refused.is_some() {
            return;
        }
        let size = size_of(item);
        if size > MAX_SIZE - self.size {
            self.refused = Some(LayoutError::TooLong);
            return;
        }
        match self.items.push(item) {
            Ok(()) => self.size += size,
            Err(_) => self.refused = Some(LayoutError::OutOfMemory),
        }
    }

    /// All items, if none was refused.
    ///
    /// # Errors
    /// The first refusal.
    pub(crate) fn items(&self) -> Result<&[Item<'t>], LayoutError>
        ensures items { IfOk result (λ items. items.now ≡ self.now.items.items) }
        ensures few { IfOk result (λ items. sizes items.now ≤ 2 ^ 48) }
        ensures refused { MatchResult result (λ _. self.now.refused ≡ None) (λ e. self.now.refused ≡ Some e) }
    {
        match self.refused {
            Some(error) => Err(error),
            None => Ok(&self.items),
        }
    }
}

/// What an item takes.
fn size_of(item: Item<'_>) -> usize
    ensures value { result ≡ size_of item.entry }
    ensures few { result < 2 ^ 48 }
{
    item.flat_columns() + item.first_columns() + 1
}
