//! The names that a module exports, as they are compared: by the values of names and strings (ECMA-262, 13th edition, 16.2.3.4).

ghost use Rattle.std.specs.Prelude.{◌≡◌, ◌++◌, ◌∷◌, [], map, option_map, IfOk, OnOk};
ghost use Rattle.name_tables.specs.BoundNames.{each_part};
ghost use Rattle.tree.specs.Tree.{parts_drop, parts_of};
ghost use Rattle.tree.specs.Node.{node_tree};
ghost use Rattle.early_errors.specs.Early.{each};
ghost use Rattle.early_errors.specs.ExportsRead.{all_exported, module_names_at, own_names, units_of_name};
ghost use Rattle.early_errors.specs.Modules.{declaration_exports, exported_names, in_units, specifier_name};
ghost use Rattle.early_errors.specs.Names.{places, twice};
ghost use Rattle.name_tables.specs.PatternParts.{at_part};
ghost use Rattle.early_errors.specs.Walk.{after, all_named};

use crate::EarlyError;
use crate::classes::is_quoted;
use crate::found::{FirstError, with_error_if};
use crate::names::{NamePlace, push_declared, push_part_names};
use name_tables::last_part;
use std::alloc::{AllocError, Global};
use std::collections::BTreeMap;
use tokens::quoted_units;
use tree::{Kind, Node};

/// A name that is exported: the UTF-16 units of its value, and its place.
#[derive(Drop)]
pub(crate) struct ExportedName {
    units: Vec<u16>,
    start: usize,
}

/// Pushes the names that an item exports.
pub(crate) fn push_exported(
    alloc: Global,
    item: Option<Node>,
    names: &mut Vec<ExportedName>,
) -> Result<(), AllocError>
    ensures { OnOk result (all_exported names.new.items ≡ all_exported names.old.items ++ at_part exported_names (option_map node_tree item.entry)) }
{
    let Some(item) = item else {
        return Ok(());
    };
    match item.kind() {
        Kind::ExportNamedDeclaration => match item.part(0) {
            Some(declaration) => push_declaration(alloc, declaration, names),
            None => push_specifiers(alloc, item, names),
        },
        Kind::ExportDefaultDeclaration => { push_name(alloc, "default", item.span().start, names) }
        Kind::ExportAllDeclaration => push_module_name(alloc, item.part(0), names),
        _ => Ok(()),
    }
}

/// Pushes the names of a declaration that is exported.
fn push_declaration<'t>(
    alloc: Global,
    declaration: Node<'t, '_>,
    names: &mut Vec<ExportedName>,
) -> Result<(), AllocError>
    ensures { OnOk result (all_exported names.new.items ≡ all_exported names.old.items ++ declaration_exports (node_tree declaration.entry)) }
{
    let mut declared = Vec::new(alloc);
    push_names_of(alloc, declaration, &mut declared, names)
}

/// Pushes the names of a declaration that is exported, with room for the names as they are declared.
fn push_names_of<'t>(
    alloc: Global,
    declaration: Node<'t, '_>,
    declared: &mut Vec<NamePlace<'t>>,
    names: &mut Vec<ExportedName>,
) -> Result<(), AllocError>
    requires { declared.now.items ≡ [] }
    ensures { OnOk result (all_exported names.new.items ≡ all_exported names.old.items ++ declaration_exports (node_tree declaration.entry)) }
{
    push_own_names(declaration, declared)?;
    push_as_exported(alloc, declared.as_slice(), names)
}

/// Pushes the names that a declaration declares, as they are declared.
fn push_own_names<'t>(
    declaration: Node<'t, '_>,
    declared: &mut Vec<NamePlace<'t>>,
) -> Result<(), AllocError>
    ensures { OnOk result (all_named declared.new.items ≡ all_named declared.old.items ++ own_names (node_tree declaration.entry)) }
{
    match declaration.kind() {
        Kind::VariableDeclaration => push_declared(declaration, declared),
        _ => push_part_names(declaration.part(0), declared),
    }
}

/// Pushes declared names as they are exported.
fn push_as_exported(
    alloc: Global,
    declared: &[NamePlace],
    names: &mut Vec<ExportedName>,
) -> Result<(), AllocError>
    ensures { OnOk result (all_exported names.new.items ≡ all_exported names.old.items ++ map in_units (all_named declared.now)) }
{
    for named in declared {
        push_name(alloc, named.name, named.start, names)?;
    }
    Ok(())
}

/// Pushes the names that the specifiers of an export give: the last part of each.
fn push_specifiers(
    alloc: Global,
    export: Node,
    names: &mut Vec<ExportedName>,
) -> Result<(), AllocError>
    ensures { OnOk result (all_exported names.new.items ≡ all_exported names.old.items ++ each_part specifier_name (parts_drop 1 (parts_of (node_tree export.entry)))) }
{
    for index in 1..export.part_count() {
        push_specifier(alloc, export.part(index), names)?;
    }
    Ok(())
}

/// Pushes the name that a specifier gives; a source gives none.
fn push_specifier(
    alloc: Global,
    specifier: Option<Node>,
    names: &mut Vec<ExportedName>,
) -> Result<(), AllocError>
    ensures { OnOk result (all_exported names.new.items ≡ all_exported names.old.items ++ at_part specifier_name (option_map node_tree specifier.entry)) }
{
    let Some(specifier) = specifier else {
        return Ok(());
    };
    match specifier.kind() {
        Kind::ExportSpecifier => push_module_name(alloc, last_part(specifier), names),
        _ => Ok(()),
    }
}

/// Pushes a name or a string.
fn push_module_name(
    alloc: Global,
    name: Option<Node>,
    names: &mut Vec<ExportedName>,
) -> Result<(), AllocError>
    ensures { OnOk result (all_exported names.new.items ≡ all_exported names.old.items ++ module_names_at (option_map node_tree name.entry)) }
{
    let Some(name) = name else {
        return Ok(());
    };
    let start = name.span().start;
    if !is_quoted(name) {
        return push_name(alloc, name.text(), start, names);
    }
    let units = quoted_units(alloc, name.text())?;
    names.push(ExportedName { units, start })?;
    Ok(())
}

/// Pushes a name, as the string would be that has it between quotes.
fn push_name(
    alloc: Global,
    name: &str,
    start: usize,
    names: &mut Vec<ExportedName>,
) -> Result<(), AllocError>
    ensures { OnOk result (all_exported names.new.items ≡ all_exported names.old.items ++ (units_of_name name.now, start) ∷ []) }
{
    let units = name_units(alloc, name)?;
    names.push(ExportedName { units, start })?;
    Ok(())
}

/// The units of a name, as of the string that has it between quotes.
fn name_units(alloc: Global, name: &str) -> Result<Vec<u16>, AllocError>
    ensures { IfOk result (λ v. v.items ≡ units_of_name name.now) }
{
    let mut quoted = String::with_capacity(alloc, name.len() + 2)?;
    quoted.push('\'')?;
    quoted.push_str(name)?;
    quoted.push('\'')?;
    quoted_units(alloc, quoted.as_str())
}

/// The second and later of each name.
pub(crate) fn repeated_exports(
    alloc: Global,
    names: &[ExportedName],
    found: FirstError,
) -> Result<FirstError, AllocError>
    ensures { IfOk result (λ e. e ≡ after found (each EarlyError.DuplicateExport (places (twice (all_exported names.now))))) }
{
    let mut seen = BTreeMap::new(alloc);
    repeated_after(names, &mut seen, found)
}

/// The second and later of each exported name, with room for the names that were seen.
fn repeated_after<'n>(
    names: &'n [ExportedName],
    seen: &mut BTreeMap<&'n [u16], ()>,
    found: FirstError,
) -> Result<FirstError, AllocError>
    requires { seen.now.entries ≡ [] }
    ensures { IfOk result (λ e. e ≡ after found (each EarlyError.DuplicateExport (places (twice (all_exported names.now))))) }
{
    let mut found = found;
    for index in 0..names.len() {
        let named = &names[index];
        let before = seen.insert(named.units.as_slice(), ())?;
        found = with_error_if(
            before.is_some(),
            found,
            EarlyError::DuplicateExport,
            named.start,
        );
    }
    Ok(found)
}
