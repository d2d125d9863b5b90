//! The table of meanings, as scopes are opened and closed.

ghost use Rattle.std.specs.Prelude.{◌≡◌, [], ◌∷◌, ◌++◌, List, OnOk};
ghost use Rattle.scopes.specs.Found.{Frame, added, again, collected, redeclarations};
ghost use Rattle.scopes.specs.Shown.{Below, Meant, all_declared, all_shown, declared_shown, exported_at, frame, is_of};
ghost use Rattle.name_tables.specs.Tables.{Agree, value_at, undone};

use crate::binding::Binding;
use crate::names::Declared;
use name_tables::{NameTable, SavedName};
use std::alloc::AllocError;

/// For each name, what it means here: the number of the scope that declares it, and the place among its bindings.
pub(crate) type Meanings<'t> = NameTable<'t, (usize, usize)>;

/// What a name meant before.
pub(crate) type Before<'t> = SavedName<'t, (usize, usize)>;

/// Whether a meaning lies in the scope of this number.
fn is_of(meaning: Option<(usize, usize)>, number: usize) -> bool
    ensures { result ≡ is_of meaning number }
{
    match meaning {
        Some((scope, _)) => scope == number,
        None => false,
    }
}

/// Declares a name in the scope of this number, unless it stands there already.
fn declare<'t>(
    declared: Declared<'t>,
    number: usize,
    meanings: &mut Meanings<'t>,
    bindings: &mut Vec<Binding<'t>>,
    redeclared: &mut Vec<Binding<'t>>,
    saved: &mut Vec<Before<'t>>,
) -> Result<(), AllocError>
    ensures redeclared { OnOk result ((fs : List Frame) → Meant (value_at meanings.old) (frame number (all_shown bindings.old.items) ∷ fs) → Below number fs → all_shown redeclared.new.items ≡ all_shown redeclared.old.items ++ again (all_shown bindings.old.items) (declared_shown declared.entry)) }
    ensures bindings { OnOk result ((fs : List Frame) → Meant (value_at meanings.old) (frame number (all_shown bindings.old.items) ∷ fs) → Below number fs → all_shown bindings.new.items ≡ added fs (all_shown bindings.old.items) (declared_shown declared.entry)) }
    ensures meanings { OnOk result ((fs : List Frame) → Meant (value_at meanings.old) (frame number (all_shown bindings.old.items) ∷ fs) → Below number fs → Meant (value_at meanings.new) (frame number (all_shown bindings.new.items) ∷ fs)) }
    ensures kept { OnOk result (Agree (undone (value_at meanings.new) saved.new.items) (undone (value_at meanings.old) saved.old.items)) }
{
    let before = meanings.save(declared.name)?;
    let meaning = before.value;
    if is_of(meaning, number) {
        push_redeclared(declared, redeclared)?;
        if declared.how.exported {
            export_binding(meaning, bindings);
        }
        return Ok(());
    }
    meanings.set(&before, Some((number, bindings.len())))?;
    saved.push(before)?;
    bindings.push(Binding {
        name: declared.name,
        kind: declared.how.kind,
        start: declared.start,
        end: declared.end,
        settled: declared.how.settled,
        shadows: meaning.is_some(),
        exported: declared.how.exported,
    })?;
    Ok(())
}

/// Appends a declaration of a name that the scope declares already.
fn push_redeclared<'t>(
    declared: Declared<'t>,
    redeclared: &mut Vec<Binding<'t>>,
) -> Result<(), AllocError>
    ensures { OnOk result (all_shown redeclared.new.items ≡ all_shown redeclared.old.items ++ declared_shown declared.entry ∷ []) }
{
    redeclared.push(Binding {
        name: declared.name,
        kind: declared.how.kind,
        start: declared.start,
        end: declared.end,
        settled: declared.how.settled,
        shadows: false,
        exported: declared.how.exported,
    })?;
    Ok(())
}

/// Notes that a binding of this scope, which stands there already, is exported.
fn export_binding(meaning: Option<(usize, usize)>, bindings: &mut Vec<Binding>)
    ensures { all_shown bindings.new.items ≡ exported_at meaning (all_shown bindings.old.items) }
{
    let Some((_, place)) = meaning else {
        return;
    };
    if place < bindings.len() {
        bindings[place].exported = true;
    }
}

/// Declares names in a new scope of this number.
pub(crate) fn open_scope<'t>(
    names: &[Declared<'t>],
    number: usize,
    meanings: &mut Meanings<'t>,
    bindings: &mut Vec<Binding<'t>>,
    redeclared: &mut Vec<Binding<'t>>,
    saved: &mut Vec<Before<'t>>,
) -> Result<(), AllocError>
    requires bindings { bindings.now.items ≡ [] }
    requires redeclared { redeclared.now.items ≡ [] }
    ensures redeclared { OnOk result ((fs : List Frame) → Meant (value_at meanings.old) fs → Below number fs → all_shown redeclared.new.items ≡ redeclarations fs [] (all_declared names.now)) }
    ensures bindings { OnOk result ((fs : List Frame) → Meant (value_at meanings.old) fs → Below number fs → all_shown bindings.new.items ≡ collected fs [] (all_declared names.now)) }
    ensures meanings { OnOk result ((fs : List Frame) → Meant (value_at meanings.old) fs → Below number fs → Meant (value_at meanings.new) (frame number (collected fs [] (all_declared names.now)) ∷ fs)) }
    ensures kept { OnOk result (Agree (undone (value_at meanings.new) saved.new.items) (undone (value_at meanings.old) saved.old.items)) }
{
    for name in names {
        declare(*name, number, meanings, bindings, redeclared, saved)?;
    }
    Ok(())
}

/// Lets names mean what they meant before.
pub(crate) fn close_scope<'t>(
    meanings: &mut Meanings<'t>,
    saved: &mut Vec<Before<'t>>,
) -> Result<(), AllocError>
    ensures { OnOk result (Agree (value_at meanings.new) (undone (value_at meanings.old) saved.old.items)) }
{
    while let Some(last) = saved.pop() {
        meanings.set(&last, last.value)?;
    }
    Ok(())
}
