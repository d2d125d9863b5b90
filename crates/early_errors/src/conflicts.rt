//! Names that clash with names.

ghost use Rattle.std.specs.Prelude.{◌≡◌, ℕ, List, [], ◌∷◌, false, filter, IfOk, OnOk};
ghost use Rattle.language.specs.Vocabulary.{among};
ghost use Rattle.early_errors.specs.Early.{each};
ghost use Rattle.name_tables.specs.Sets.{contains};
ghost use Rattle.early_errors.specs.Names.{has_name, places, shared, twice};
ghost use Rattle.early_errors.specs.Strict.{is_restricted};
ghost use Rattle.name_tables.specs.Tables.{Agree};
ghost use Rattle.early_errors.specs.Walk.{after, all_named, clashing, hits, look, sooner, stands, undone};

use crate::EarlyError;
use crate::found::{FirstError, earlier_error, with_error};
use crate::names::NamePlace;
use crate::table::Table;
use name_tables::{HashKey, KeyBuilder, NameSet};
use std::alloc::{AllocError, Global};

/// So few names are compared one by one: a set of them would cost more.
const FEW: usize = 32;

/// For each name, the least error that it would clash with.
pub(crate) type VarConflicts<'t> = Table<'t, (u8, usize)>;

/// What a name stood for before.
#[derive(Clone, Copy)]
pub(crate) struct Saved<'t> {
    name: &'t str,
    value: FirstError,
}

/// Whether the name is `eval` or `arguments`.
pub(crate) fn is_restricted(name: &str) -> bool
    ensures { result ≡ among name.now ("eval" ∷ "arguments" ∷ []) }
{
    name == "eval" || name == "arguments"
}

/// `eval` and `arguments` among the names.
pub(crate) fn restricted(names: &[NamePlace], found: FirstError) -> FirstError
    ensures { result ≡ after found (each EarlyError.EvalOrArguments (places (filter is_restricted (all_named names.now)))) }
{
    let mut found = found;
    for named in names {
        if is_restricted(named.name) {
            found = with_error(found, EarlyError::EvalOrArguments, named.start);
        }
    }
    found
}

/// Whether a name is among the names.
fn is_among(names: &[NamePlace], name: &str) -> bool
    ensures { result ≡ has_name name.now (all_named names.now) }
{
    for other in names {
        if name == other.name {
            return true;
        }
    }
    false
}

/// The key of a set of these names, drawn from them.
fn key_of(names: &[NamePlace]) -> HashKey {
    let mut builder = KeyBuilder::new();
    for named in names {
        builder.add(named.name);
    }
    builder.build()
}

/// The second and later of each name.
pub(crate) fn repeated<'t>(
    alloc: Global,
    names: &[NamePlace<'t>],
    error: EarlyError,
    found: FirstError,
) -> Result<FirstError, AllocError>
    ensures { IfOk result (λ r. r ≡ after found (each error (places (twice (all_named names.now))))) }
{
    if names.len() <= FEW {
        return Ok(repeated_of_few(names, error, found));
    }
    let mut seen = NameSet::new(alloc, key_of(names));
    repeated_after(names, &mut seen, error, found)
}

/// The second and later of each name, of few names.
fn repeated_of_few(names: &[NamePlace], error: EarlyError, found: FirstError) -> FirstError
    ensures { result ≡ after found (each error (places (twice (all_named names.now)))) }
{
    let mut found = found;
    for index in 0..names.len() {
        let named = names[index];
        if is_among(&names[..index], named.name) {
            found = with_error(found, error, named.start);
        }
    }
    found
}

/// The second and later of each name, with a set for the names that were seen.
fn repeated_after<'t>(
    names: &[NamePlace<'t>],
    seen: &mut NameSet<'t>,
    error: EarlyError,
    found: FirstError,
) -> Result<FirstError, AllocError>
    requires { (w : List ℕ) → contains seen.now w ≡ false }
    ensures { IfOk result (λ r. r ≡ after found (each error (places (twice (all_named names.now))))) }
{
    let mut found = found;
    for named in names {
        if !seen.insert(named.name)? {
            found = with_error(found, error, named.start);
        }
    }
    Ok(found)
}

/// Those of the first names that are among the second.
pub(crate) fn shared<'t>(
    alloc: Global,
    names: &[NamePlace],
    others: &[NamePlace<'t>],
    error: EarlyError,
    found: FirstError,
) -> Result<FirstError, AllocError>
    ensures { IfOk result (λ r. r ≡ after found (each error (places (shared (all_named names.now) (all_named others.now))))) }
{
    if names.len() <= FEW || others.len() <= FEW {
        return Ok(shared_of_few(names, others, error, found));
    }
    let mut there = NameSet::new(alloc, key_of(others));
    shared_by(names, others, &mut there, error, found)
}

/// Those of the first names that are among the second, where one of the two are few.
fn shared_of_few(
    names: &[NamePlace],
    others: &[NamePlace],
    error: EarlyError,
    found: FirstError,
) -> FirstError
    ensures { result ≡ after found (each error (places (shared (all_named names.now) (all_named others.now)))) }
{
    let mut found = found;
    for named in names {
        if is_among(others, named.name) {
            found = with_error(found, error, named.start);
        }
    }
    found
}

/// Those of the first names that are among the second, with a set for the second names.
fn shared_by<'t>(
    names: &[NamePlace],
    others: &[NamePlace<'t>],
    there: &mut NameSet<'t>,
    error: EarlyError,
    found: FirstError,
) -> Result<FirstError, AllocError>
    requires { (w : List ℕ) → contains there.now w ≡ false }
    ensures { IfOk result (λ r. r ≡ after found (each error (places (shared (all_named names.now) (all_named others.now))))) }
{
    for named in others {
        there.insert(named.name)?;
    }
    Ok(held(names, there, error, found))
}

/// Those of the names that are in a set.
fn held(names: &[NamePlace], there: &NameSet, error: EarlyError, found: FirstError) -> FirstError
    ensures { result ≡ after found (each error (places (filter (λ x. contains there.now x.0) (all_named names.now)))) }
{
    let mut found = found;
    for named in names {
        if there.contains(named.name) {
            found = with_error(found, error, named.start);
        }
    }
    found
}

/// Those of the names that are in a table.
pub(crate) fn reported<V: Copy>(
    names: &[NamePlace],
    there: &Table<V>,
    error: EarlyError,
    found: FirstError,
) -> FirstError
    ensures { result ≡ after found (each error (places (filter (stands (look there.now)) (all_named names.now)))) }
{
    let mut found = found;
    for named in names {
        if there.value(named.name).is_some() {
            found = with_error(found, error, named.start);
        }
    }
    found
}

/// The errors that the names would clash with.
pub(crate) fn hits(clashes: &VarConflicts, names: &[NamePlace], found: FirstError) -> FirstError
    ensures { result ≡ sooner found (hits (look clashes.now) (all_named names.now)) }
{
    let mut found = found;
    for named in names {
        found = earlier_error(found, clashes.value(named.name));
    }
    found
}

/// Lets names clash from here on, each with an error at its place; pushes what stood there before.
pub(crate) fn open_scope<'t>(
    clashes: &mut VarConflicts<'t>,
    names: &[NamePlace<'t>],
    error: EarlyError,
    saved: &mut Vec<Saved<'t>>,
) -> Result<(), AllocError>
    ensures entered { OnOk result (Agree (look clashes.new) (clashing (look clashes.old) error (all_named names.now))) }
    ensures kept { OnOk result (Agree (undone (look clashes.new) saved.new.items) (undone (look clashes.old) saved.old.items)) }
{
    for named in names {
        let value = clashes.value(named.name);
        clashes.replace(named.name, with_error(value, error, named.start))?;
        saved.push(Saved {
            name: named.name,
            value,
        })?;
    }
    Ok(())
}

/// Lets names clash as before; pops what stood there.
pub(crate) fn close_scope<'t>(
    clashes: &mut VarConflicts<'t>,
    saved: &mut Vec<Saved<'t>>,
) -> Result<(), AllocError>
    ensures { OnOk result (Agree (look clashes.new) (undone (look clashes.old) saved.old.items)) }
{
    while let Some(last) = saved.pop() {
        clashes.replace(last.name, last.value)?;
    }
    Ok(())
}
