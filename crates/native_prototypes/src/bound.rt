//! The names of references that mean a binding.

ghost use Rattle.std.specs.Prelude.{◌≡◌, ◌&&◌, ◌||◌, ℕ, List, is_some, IfOk, OnOk};
ghost use Rattle.std.specs.Str.{bytes_eq};
ghost use Rattle.name_tables.specs.Sets.{contains};
ghost use Rattle.native_prototypes.specs.Sets.{is_meant};

use name_tables::{HashKey, KeyBuilder, NameSet};
use scopes::Reference;
use std::alloc::{AllocError, Global};

/// The key of sets of names of references, drawn from them.
fn key_of(references: &[Reference]) -> HashKey {
    let mut builder = KeyBuilder::new();
    for reference in references {
        builder.add(reference.name);
    }
    builder.build()
}

/// The names of references that mean a binding.
pub(crate) fn bound_names<'t>(
    alloc: Global,
    references: &[Reference<'t>],
) -> Result<NameSet<'t>, AllocError>
    ensures { IfOk result (λ names. (w : List ℕ) → contains names w ≡ is_meant references.now w) }
{
    let mut names = NameSet::new(alloc, key_of(references));
    for reference in references {
        put_bound(reference, &mut names)?;
    }
    Ok(names)
}

/// Puts the name of a reference in, if it means a binding.
fn put_bound<'t>(reference: &Reference<'t>, names: &mut NameSet<'t>) -> Result<(), AllocError>
    ensures { OnOk result ((w : List ℕ) → contains names.new w ≡ ((is_some reference.now.meaning && bytes_eq w reference.now.name.now) || contains names.old w)) }
{
    if reference.meaning.is_none() {
        return Ok(());
    }
    names.insert(reference.name)?;
    Ok(())
}
