//! Sets of names.

ghost use Rattle.std.specs.Prelude.{◌≡◌, ◌||◌, ℕ, List, false, not, IfOk, OnErr, OnOk};
ghost use Rattle.std.specs.Str.{bytes_eq};
ghost use Rattle.indexmap.specs.IndexSet.{hasher_of};
ghost use Rattle.name_tables.specs.Sets.{contains};

use crate::key::HashKey;
use indexmap::IndexSet;
use std::alloc::{AllocError, Global};

/// Names, each once, in the order in which they came.
#[derive(Drop)]
pub struct NameSet<'t> {
    names: IndexSet<&'t str, HashKey>,
}

impl<'t> NameSet<'t> {
    /// No names; those that come are hashed under this key.
    pub fn new(alloc: Global, key: HashKey) -> NameSet<'t>
        ensures empty { (w : List ℕ) → contains result w ≡ false }
        ensures hasher { hasher_of result.names ≡ key }
    {
        NameSet {
            names: IndexSet::with_hasher(alloc, key),
        }
    }

    /// Puts a name in; answers whether it is new.
    pub fn insert(&mut self, name: &'t str) -> Result<bool, AllocError>
        ensures new { IfOk result (λ b. b ≡ not (contains self.old name.now)) }
        ensures after { OnOk result ((w : List ℕ) → contains self.new w ≡ (bytes_eq w name.now || contains self.old w)) }
        ensures err { OnErr result ((w : List ℕ) → contains self.new w ≡ contains self.old w) }
    {
        let is_new = self.names.insert(name)?;
        Ok(is_new)
    }

    /// Whether a name is among them.
    pub fn contains(&self, name: &str) -> bool
        ensures { result ≡ contains self.now name.now }
    {
        self.names.contains(name)
    }
}
