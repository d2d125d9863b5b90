//! Tables of names.

ghost use Rattle.std.specs.Prelude.{◌≡◌, IfOk, OnErr, OnOk, None};
ghost use Rattle.std.specs.Bool.{OnFalse, OnTrue};
ghost use Rattle.indexmap.specs.IndexMap.{hasher_of};
ghost use Rattle.name_tables.specs.Tables.{Agree, value_at, with_value};

use crate::key::HashKey;
use indexmap::IndexMap;
use std::alloc::{AllocError, Global};

/// What names stand for: a name stands for a value or for none. Names stand in the order in which they came, and none is taken
/// out, so each keeps its place.
#[derive(Drop)]
pub struct NameTable<'t, V> {
    entries: IndexMap<&'t str, Option<V>, HashKey>,
}

/// A name that was saved: what it stood for then, and its place in the table.
#[derive(Clone, Copy)]
pub struct SavedName<'t, V> {
    name: &'t str,
    place: usize,
    pub value: Option<V>,
}

impl<'t, V: Copy> NameTable<'t, V> {
    /// No name stands for anything; names are hashed under this key.
    pub fn new(alloc: Global, key: HashKey) -> NameTable<'t, V>
        ensures empty { Agree (value_at result) (λ _. None) }
        ensures hasher { hasher_of result.entries ≡ key }
    {
        NameTable {
            entries: IndexMap::with_hasher(alloc, key),
        }
    }

    /// What a name stands for.
    pub fn value(&self, name: &str) -> Option<V>
        ensures { result ≡ value_at self.now name.now }
    {
        match self.entries.get(name) {
            Some(value) => *value,
            None => None,
        }
    }

    /// Saves a name: answers what it stands for, with its place, so that it isn't looked up again by `set`.
    pub fn save(&mut self, name: &'t str) -> Result<SavedName<'t, V>, AllocError>
        ensures name { IfOk result (λ s. s.name.now ≡ name.now) }
        ensures value { IfOk result (λ s. s.value ≡ value_at self.old name.now) }
        ensures same { OnOk result (Agree (value_at self.new) (value_at self.old)) }
        ensures err { OnErr result (Agree (value_at self.new) (value_at self.old)) }
    {
        let (place, before) = self.entries.insert_full(name, None)?;
        let Some(value) = before else {
            return Ok(SavedName {
                name,
                place,
                value: None,
            });
        };
        self.entries[place] = value;
        Ok(SavedName { name, place, value })
    }

    /// Lets a saved name stand for something else. It is looked up only where another name stands at its place, as in another
    /// table than the one that saved it.
    pub fn set(&mut self, saved: &SavedName<'t, V>, value: Option<V>) -> Result<(), AllocError>
        ensures ok { OnOk result (Agree (value_at self.new) (with_value (value_at self.old) saved.now.name.now value)) }
        ensures err { OnErr result (Agree (value_at self.new) (value_at self.old)) }
    {
        if self.write(saved, value) {
            return Ok(());
        }
        self.entries.insert(saved.name, value)?;
        Ok(())
    }

    /// Writes at a name's place, if the name stands there.
    fn write(&mut self, saved: &SavedName<'t, V>, value: Option<V>) -> bool
        ensures written { OnTrue result (Agree (value_at self.new) (with_value (value_at self.old) saved.now.name.now value)) }
        ensures same { OnFalse result (self.new ≡ self.old) }
    {
        if saved.place >= self.entries.len() {
            return false;
        }
        let Some((name, _)) = self.entries.get_index(saved.place) else {
            return false;
        };
        if *name != saved.name {
            return false;
        }
        self.entries[saved.place] = value;
        true
    }
}
