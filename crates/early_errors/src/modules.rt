//! The names that a module imports and exports (ECMA-262, 13th edition, 16.2).

ghost use Rattle.std.specs.Prelude.{◌≡◌, ◌||◌, ℕ, List, [], is_some, option_map, IfOk, OnOk, None};
ghost use Rattle.early_errors.specs.Names.{has_name};
ghost use Rattle.tree.specs.Node.{node_tree};
ghost use Rattle.tree.specs.Tree.{kind_of, parts_of};
ghost use Rattle.name_tables.specs.BoundNames.{each_part};
ghost use Rattle.name_tables.specs.Tables.{Agree};
ghost use Rattle.early_errors.specs.Early.{each, own_errors};
ghost use Rattle.std.specs.Bool.{OnFalse};
ghost use Rattle.early_errors.specs.ExportsRead.{exports_own, first_at, first_parts, is_export_at, is_named_export, undeclared};
ghost use Rattle.early_errors.specs.Modules.{duplicate_export, exported_names, is_high, is_low, is_no_name, is_well_formed, locals, lone_parts, string_of, undeclared_export};
ghost use Rattle.early_errors.specs.Owns.{own_of};
ghost use Rattle.early_errors.specs.Walk.{after, all_named, look};
ghost use Rattle.early_errors.specs.declared.own.OwnErrors.{OwnErrors};

use crate::EarlyError;
use crate::classes::is_quoted;
use crate::conflicts::restricted;
use crate::exported_names::{ExportedName, push_exported, repeated_exports};
use crate::found::{FirstError, with_error_if};
use crate::literals::{both, either};
use crate::names::{NamePlace, push_lexical_part, push_lexical_parts};
use crate::table::Table;
use crate::vars::push_vars;
use grammar::is_reserved;
use std::alloc::{AllocError, Global};
use tokens::quoted_units;
use tree::{Kind, Node};

/// `eval` and `arguments` as names that an import binds (16.2.2.1).
pub(crate) fn import_errors(
    alloc: Global,
    import: Node,
    found: FirstError,
) -> Result<FirstError, AllocError>
    requires { own_of (kind_of (node_tree import)) ≡ OwnErrors.Import }
    ensures { IfOk result (λ e. (z : _) → e ≡ after found (own_errors z (node_tree import.entry))) }
{
    let mut names = Vec::new(alloc);
    push_lexical_part(false, Some(import), &mut names)?;
    Ok(restricted(names.as_slice(), found))
}

/// Strings with a lone surrogate among the first so many parts of a node, which name an import or export (16.2.2).
pub(crate) fn lone_surrogates(
    alloc: Global,
    node: Node,
    count: usize,
    found: FirstError,
) -> Result<FirstError, AllocError>
    ensures { IfOk result (λ e. e ≡ after found (each EarlyError.LoneSurrogate (lone_parts (first_parts count (parts_of (node_tree node.entry)))))) }
{
    let mut found = found;
    for index in 0..count {
        if let Some(name) = node.part(index) {
            let is_lone = has_lone_surrogate(alloc, name)?;
            found = with_error_if(is_lone, found, EarlyError::LoneSurrogate, name.span().start);
        }
    }
    Ok(found)
}

/// Whether a node is a string with a lone surrogate.
fn has_lone_surrogate(alloc: Global, name: Node) -> Result<bool, AllocError>
    ensures { IfOk result (λ b. b ≡ string_of (node_tree name.entry)) }
{
    if !is_quoted(name) {
        return Ok(false);
    }
    let units = quoted_units(alloc, name.text())?;
    Ok(!is_well_formed(units.as_slice()))
}

/// Whether each half of a surrogate pair among the units has its other half.
fn is_well_formed(units: &[u16]) -> bool
    ensures { result ≡ is_well_formed units.now }
{
    let mut awaits_low = false;
    for unit in units {
        if is_low(*unit) != awaits_low {
            return false;
        }
        awaits_low = is_high(*unit);
    }
    !awaits_low
}

/// Whether a unit is the second half of a surrogate pair.
fn is_low(unit: u16) -> bool
    ensures { result ≡ is_low unit }
{
    both(unit >= 0xDC00u16, unit <= 0xDFFFu16)
}

/// Whether a unit is the first half of a surrogate pair.
fn is_high(unit: u16) -> bool
    ensures { result ≡ is_high unit }
{
    both(unit >= 0xD800u16, unit <= 0xDBFFu16)
}

/// Whether an export names things of the module itself: it has neither a declaration nor a source.
fn exports_own_names(export: Node) -> bool
    ensures { result ≡ exports_own (node_tree export.entry) }
{
    if !is_named_export(export.kind()) {
        return false;
    }
    let count = export.part_count();
    if count < 2 {
        return false;
    }
    both(export.part(0).is_none(), export.part(count - 1).is_none())
}

/// Whether the kind is that of an export with a declaration or with specifiers.
fn is_named_export(kind: Kind) -> bool
    ensures { result ≡ is_named_export kind }
{
    match kind {
        Kind::ExportNamedDeclaration => true,
        _ => false,
    }
}

/// The name of the module that a specifier exports.
fn local_of<'t, 's>(specifier: Option<Node<'t, 's>>) -> Option<Node<'t, 's>>
    ensures { option_map node_tree result ≡ first_at (option_map node_tree specifier.entry) }
{
    match specifier {
        Some(specifier) => specifier.part(0),
        None => None,
    }
}

/// Whether a name that is exported can't be one of the module: it is a string, or a reserved word, `await` included (16.2.3.1).
fn is_no_name(local: Node) -> bool
    ensures { result ≡ is_no_name (node_tree local.entry) }
{
    if !local.kind().is_identifier() {
        return true;
    }
    either(is_reserved(local.text()), local.text() == "await")
}

/// Strings and reserved words that are exported as names of the module.
pub(crate) fn export_errors(export: Node, found: FirstError) -> FirstError
    requires { own_of (kind_of (node_tree export)) ≡ OwnErrors.Export }
    ensures { (z : _) → result ≡ after found (own_errors z (node_tree export.entry)) }
{
    if !exports_own_names(export) {
        return found;
    }
    let mut found = found;
    for index in 1..export.part_count() {
        if let Some(local) = local_of(export.part(index)) {
            let is_wrong = is_no_name(local);
            found = with_error_if(
                is_wrong,
                found,
                EarlyError::ExportOfNoName,
                local.span().start,
            );
        }
    }
    found
}

/// The errors of a Program's exports: a name that is exported twice, and one that the module doesn't declare (16.2.1.1).
pub(crate) fn exports_errors(
    alloc: Global,
    program: Node,
    found: FirstError,
) -> Result<FirstError, AllocError>
    requires { own_of (kind_of (node_tree program)) ≡ OwnErrors.Exports }
    ensures { IfOk result (λ e. e ≡ after (after found (each EarlyError.DuplicateExport (duplicate_export (node_tree program.entry)))) (each EarlyError.UndeclaredExport (undeclared_export (node_tree program.entry)))) }
{
    if !has_exports(program) {
        return Ok(found);
    }
    let mut exported = Vec::new(alloc);
    let found = duplicate_exports(alloc, program, &mut exported, found)?;
    if !has_own_exports(program) {
        return Ok(found);
    }
    let mut declared = Vec::new(alloc);
    let mut there = Table::new(alloc);
    undeclared_exports(program, &mut declared, &mut there, found)
}

/// Whether an item of a Program is an export.
fn has_exports(program: Node) -> bool
    ensures names { OnFalse result (each_part exported_names (parts_of (node_tree program.entry)) ≡ []) }
    ensures locals { OnFalse result (each_part locals (parts_of (node_tree program.entry)) ≡ []) }
{
    for index in 0..program.part_count() {
        if is_export(program.part(index)) {
            return true;
        }
    }
    false
}

/// Whether an item is an export.
fn is_export(item: Option<Node>) -> bool
    ensures { result ≡ is_export_at (option_map node_tree item.entry) }
{
    let Some(item) = item else {
        return false;
    };
    matches!(
        item.kind(),
        Kind::ExportNamedDeclaration | Kind::ExportDefaultDeclaration | Kind::ExportAllDeclaration
    )
}

/// Whether an item of a Program exports names of the module.
fn has_own_exports(program: Node) -> bool
    ensures { OnFalse result (each_part locals (parts_of (node_tree program.entry)) ≡ []) }
{
    for index in 0..program.part_count() {
        if let Some(item) = program.part(index) {
            if exports_own_names(item) {
                return true;
            }
        }
    }
    false
}

/// The second and later of each name that is exported, with room for the names.
fn duplicate_exports(
    alloc: Global,
    program: Node,
    exported: &mut Vec<ExportedName>,
    found: FirstError,
) -> Result<FirstError, AllocError>
    requires kind { own_of (kind_of (node_tree program)) ≡ OwnErrors.Exports }
    requires exported { exported.now.items ≡ [] }
    ensures { IfOk result (λ e. e ≡ after found (each EarlyError.DuplicateExport (duplicate_export (node_tree program.entry)))) }
{
    for index in 0..program.part_count() {
        push_exported(alloc, program.part(index), exported)?;
    }
    repeated_exports(alloc, exported.as_slice(), found)
}

/// The names that are exported and not declared, with room for those that are.
fn undeclared_exports<'t>(
    program: Node<'t, '_>,
    declared: &mut Vec<NamePlace<'t>>,
    there: &mut Table<'t, ()>,
    found: FirstError,
) -> Result<FirstError, AllocError>
    requires kind { own_of (kind_of (node_tree program)) ≡ OwnErrors.Exports }
    requires declared { declared.now.items ≡ [] }
    requires there { Agree (look there.now) (λ _. None) }
    ensures { IfOk result (λ e. e ≡ after found (each EarlyError.UndeclaredExport (undeclared_export (node_tree program.entry)))) }
{
    push_lexical_parts(true, program, declared)?;
    push_vars(program, declared)?;
    note_names(declared.as_slice(), there)?;
    Ok(undeclared_items(program, there, found))
}

/// Lets names stand in a table.
fn note_names<'t>(names: &[NamePlace<'t>], there: &mut Table<'t, ()>) -> Result<(), AllocError>
    ensures { OnOk result ((w : List ℕ) → is_some (look there.new w) ≡ (has_name w (all_named names.now) || is_some (look there.old w))) }
{
    for named in names {
        there.replace(named.name, Some(()))?;
    }
    Ok(())
}

/// The names that are exported and not declared, by a table of those that are declared.
fn undeclared_items(program: Node, there: &Table<()>, found: FirstError) -> FirstError
    ensures { result ≡ after found (each EarlyError.UndeclaredExport (undeclared (look there.now) (each_part locals (parts_of (node_tree program.entry))))) }
{
    let mut found = found;
    for index in 0..program.part_count() {
        if let Some(item) = program.part(index) {
            found = undeclared_locals(item, there, found);
        }
    }
    found
}

/// The names of one item that are exported and not declared.
fn undeclared_locals(item: Node, there: &Table<()>, found: FirstError) -> FirstError
    ensures { result ≡ after found (each EarlyError.UndeclaredExport (undeclared (look there.now) (locals (node_tree item.entry)))) }
{
    if !exports_own_names(item) {
        return found;
    }
    let mut found = found;
    for index in 1..item.part_count() {
        if let Some(local) = local_of(item.part(index)) {
            let is_wrong = both(!is_no_name(local), there.value(local.text()).is_none());
            found = with_error_if(
                is_wrong,
                found,
                EarlyError::UndeclaredExport,
                local.span().start,
            );
        }
    }
    found
}
