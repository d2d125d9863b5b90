//! Names with values.

ghost use Rattle.std.specs.Prelude.{◌≡◌, IfOk, OnOk, None};
ghost use Rattle.name_tables.specs.Tables.{Agree, with_value};
ghost use Rattle.early_errors.specs.Walk.{look};

use std::alloc::{AllocError, Global};
use std::collections::BTreeMap;
use std::mem;

/// What names stand for: a name stands for a value or for none. A tree by the order of bytes, not a hash table: who writes the
/// text chooses the names, and could choose them to collide; and names come scope by scope, so no key can be drawn from them first.
#[derive(Drop)]
pub(crate) struct Table<'t, V> {
    entries: BTreeMap<&'t str, Option<V>>,
}

impl<'t, V: Copy> Table<'t, V> {
    /// No name stands for anything.
    pub(crate) fn new(alloc: Global) -> Table<'t, V>
        ensures { Agree (look result) (λ _. None) }
    {
        Table {
            entries: BTreeMap::new(alloc),
        }
    }

    /// Lets no name stand for anything; answers the table as it was.
    pub(crate) fn take(&mut self, alloc: Global) -> Table<'t, V>
        ensures before { result ≡ self.old }
        ensures after { Agree (look self.new) (λ _. None) }
    {
        mem::replace(self, Table::new(alloc))
    }

    /// Lets names stand for what they stand for in another table.
    pub(crate) fn put(&mut self, table: Table<'t, V>)
        ensures { self.new ≡ table.entry }
    {
        *self = table;
    }

    /// What a name stands for.
    pub(crate) fn value(&self, name: &str) -> Option<V>
        ensures { result ≡ look self.now name.now }
    {
        match self.entries.get(name) {
            Some(value) => *value,
            None => None,
        }
    }

    /// Lets a name stand for something else; answers what it stood for.
    pub(crate) fn replace(
        &mut self,
        name: &'t str,
        value: Option<V>,
    ) -> Result<Option<V>, AllocError>
        ensures before { IfOk result (λ o. o ≡ look self.old name.now) }
        ensures after { OnOk result (Agree (look self.new) (with_value (look self.old) name.now value)) }
    {
        match self.entries.insert(name, value)? {
            Some(before) => Ok(before),
            None => Ok(None),
        }
    }
}
