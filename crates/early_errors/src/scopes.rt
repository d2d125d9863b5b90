//! Names that clash: of a Program, a body, a block or a switch; of a catch clause; of a `for` head.

ghost use Rattle.std.specs.Prelude.{◌≡◌, ◌-◌, ◌++◌, true, cond, option_map, IfOk, OnOk};
ghost use Rattle.tree.specs.Node.{node_tree};
ghost use Rattle.tree.specs.Tree.{part_at, part_count, parts_of};
ghost use Rattle.early_errors.specs.Early.{each};
ghost use Rattle.name_tables.specs.PatternParts.{at_part};
ghost use Rattle.name_tables.specs.BoundNames.{each_part};
ghost use Rattle.early_errors.specs.Names.{body_items, function_names, lexical_names, places, shared, twice};
ghost use Rattle.early_errors.specs.Owns.{block_at, body_place, found_of_scope, is_block, items_at, names_of_scope, place_of_scope, declares_function, scope_error, scope_kind};
ghost use Rattle.early_errors.specs.Scopes.{without_initializer};
ghost use Rattle.early_errors.specs.Walk.{after, all_named, listed};

use crate::EarlyError;
use crate::conflicts::{repeated, shared};
use crate::found::{FirstError, with_place};
use crate::names::{NamePlace, push_cases, push_lexical_part, push_lexical_parts, push_part_names};
use name_tables::last_part;
use std::alloc::{AllocError, Global};
use tree::{Kind, Node};

/// What makes a scope.
#[derive(Clone, Copy)]
pub(crate) enum ScopeKind {
    /// A script, the body of a function, or a static block: functions are var names there (ECMA-262 13.2.7).
    TopLevel,
    Block,
    Switch,
    Catch,
    For,
    ForEach,
    Nothing,
}

/// The scope that a node of this kind makes, for names that clash; `in_module`: the tree is a module, where functions are lexical
/// names; `is_body`: a block is the body of a function.
pub(crate) fn scope_kind(kind: Kind, in_module: bool, is_body: bool) -> ScopeKind
    ensures { result ≡ scope_kind kind in_module is_body }
{
    match kind {
        Kind::Program => top_level_if(!in_module),
        Kind::StaticBlock => ScopeKind::TopLevel,
        Kind::BlockStatement => top_level_if(is_body),
        Kind::SwitchStatement => ScopeKind::Switch,
        Kind::CatchClause => ScopeKind::Catch,
        Kind::ForStatement => ScopeKind::For,
        Kind::ForInStatement | Kind::ForOfStatement => ScopeKind::ForEach,
        _ => ScopeKind::Nothing,
    }
}

/// A block, or the top level of a script or function.
fn top_level_if(is_one: bool) -> ScopeKind
    ensures { result ≡ cond is_one ScopeKind.TopLevel ScopeKind.Block }
{
    if is_one {
        ScopeKind::TopLevel
    } else {
        ScopeKind::Block
    }
}

/// Pushes the names that clash with each `var` of the same name in a node's parts from a place on.
pub(crate) fn push_scope<'t>(
    kind: ScopeKind,
    node: Node<'t, '_>,
    names: &mut Vec<NamePlace<'t>>,
) -> Result<(), AllocError>
    ensures { OnOk result (all_named names.new.items ≡ all_named names.old.items ++ names_of_scope kind (parts_of (node_tree node.entry))) }
{
    match kind {
        ScopeKind::TopLevel => push_lexical_parts(false, node, names),
        ScopeKind::Block => push_lexical_parts(true, node, names),
        ScopeKind::Switch => push_cases(node, names),
        ScopeKind::Catch => push_part_names(node.part(0), names),
        ScopeKind::For | ScopeKind::ForEach => push_lexical_part(false, node.part(0), names),
        ScopeKind::Nothing => Ok(()),
    }
}

/// The error of such a clash, which stands at the name.
pub(crate) fn scope_error(kind: ScopeKind) -> EarlyError
    ensures { result ≡ scope_error kind }
{
    match kind {
        ScopeKind::Catch => EarlyError::CatchParameterConflict,
        ScopeKind::For | ScopeKind::ForEach => EarlyError::ForNameIsVar,
        _ => EarlyError::LexicalNameIsVar,
    }
}

/// The place from which on the names clash.
pub(crate) fn place_of_scope(kind: ScopeKind, node: Node) -> usize
    ensures { result ≡ place_of_scope kind (parts_of (node_tree node.entry)) }
{
    match kind {
        ScopeKind::Switch => 1,
        ScopeKind::Catch => body_place(node),
        ScopeKind::For => 3,
        ScopeKind::ForEach => 2,
        _ => 0,
    }
}

/// The last part where that is a block.
pub(crate) fn body_of<'t, 's>(node: Node<'t, 's>) -> Option<Node<'t, 's>>
    ensures { option_map node_tree result ≡ block_at (part_at (parts_of (node_tree node.entry)) (part_count (parts_of (node_tree node.entry)) - 1)) }
{
    let Some(body) = last_part(node) else {
        return None;
    };
    if is_block(body.kind()) {
        Some(body)
    } else {
        None
    }
}

/// Whether the kind is that of a block.
fn is_block(kind: Kind) -> bool
    ensures { result ≡ is_block kind }
{
    match kind {
        Kind::BlockStatement => true,
        _ => false,
    }
}

/// The place of the last part where that is a block, else a place behind all parts.
fn body_place(node: Node) -> usize
    ensures { result ≡ body_place (parts_of (node_tree node.entry)) }
{
    let count = node.part_count();
    if body_of(node).is_some() && count > 0 {
        count - 1
    } else {
        count
    }
}

/// Names of a scope, given, that stand twice, or clash with names of the scope other than those of `var`s inside.
pub(crate) fn scope_errors(
    alloc: Global,
    kind: ScopeKind,
    node: Node,
    names: &[NamePlace],
    found: FirstError,
) -> Result<FirstError, AllocError>
    ensures { IfOk result (λ r. r ≡ after found (found_of_scope kind (parts_of (node_tree node.entry)) (all_named names.now))) }
{
    match kind {
        ScopeKind::TopLevel => top_errors(alloc, node, names, found),
        ScopeKind::Block | ScopeKind::Switch => {
            repeated(alloc, names, EarlyError::DuplicateLexicalName, found)
        }
        ScopeKind::Catch => catch_errors(alloc, node, names, found),
        _ => Ok(found),
    }
}

/// At the top of a Program or body: functions are var names there.
fn top_errors(
    alloc: Global,
    node: Node,
    names: &[NamePlace],
    found: FirstError,
) -> Result<FirstError, AllocError>
    ensures { IfOk result (λ r. r ≡ after (after found (each EarlyError.DuplicateLexicalName (places (twice (all_named names.now))))) (each EarlyError.LexicalNameIsVar (places (shared (all_named names.now) (each_part function_names (parts_of (node_tree node.entry))))))) }
{
    if names.is_empty() {
        return Ok(found);
    }
    let found = repeated(alloc, names, EarlyError::DuplicateLexicalName, found)?;
    let mut functions = Vec::new(alloc);
    push_functions(node, &mut functions)?;
    shared(
        alloc,
        names,
        functions.as_slice(),
        EarlyError::LexicalNameIsVar,
        found,
    )
}

/// Adds the names of all functions among these items.
fn push_functions<'t>(node: Node<'t, '_>, names: &mut Vec<NamePlace<'t>>) -> Result<(), AllocError>
    ensures { OnOk result (all_named names.new.items ≡ all_named names.old.items ++ each_part function_names (parts_of (node_tree node.entry))) }
{
    for index in 0..node.part_count() {
        push_function(node.part(index), names)?;
    }
    Ok(())
}

/// Adds the name of an item that is a function declaration.
fn push_function<'t>(
    item: Option<Node<'t, '_>>,
    names: &mut Vec<NamePlace<'t>>,
) -> Result<(), AllocError>
    ensures { OnOk result (all_named names.new.items ≡ all_named names.old.items ++ at_part function_names (option_map node_tree item.entry)) }
{
    let Some(item) = item else {
        return Ok(());
    };
    if is_function(item.kind()) {
        push_part_names(item.part(0), names)
    } else {
        Ok(())
    }
}

/// Whether the kind is that of a function declaration.
fn is_function(kind: Kind) -> bool
    ensures { result ≡ declares_function kind }
{
    match kind {
        Kind::FunctionDeclaration => true,
        _ => false,
    }
}

/// The errors of a `catch`: a parameter's name twice, or declared in its block too (13.15.1).
fn catch_errors(
    alloc: Global,
    node: Node,
    names: &[NamePlace],
    found: FirstError,
) -> Result<FirstError, AllocError>
    ensures { IfOk result (λ r. r ≡ after (after found (each EarlyError.CatchParameterConflict (places (twice (all_named names.now))))) (each EarlyError.CatchParameterConflict (places (shared (all_named names.now) (each_part (lexical_names true) (body_items (parts_of (node_tree node.entry)))))))) }
{
    let error = EarlyError::CatchParameterConflict;
    let found = repeated(alloc, names, error, found)?;
    let mut lexical = Vec::new(alloc);
    push_body(body_of(node), &mut lexical)?;
    shared(alloc, names, lexical.as_slice(), error, found)
}

/// Adds the names that a block declares lexically.
fn push_body<'t>(
    body: Option<Node<'t, '_>>,
    names: &mut Vec<NamePlace<'t>>,
) -> Result<(), AllocError>
    ensures { OnOk result (all_named names.new.items ≡ all_named names.old.items ++ each_part (lexical_names true) (items_at (option_map node_tree body.entry))) }
{
    match body {
        Some(body) => push_lexical_parts(true, body, names),
        None => Ok(()),
    }
}

/// The declarators without initializer.
pub(crate) fn without_initializer(node: Node, found: FirstError) -> FirstError
    ensures { result ≡ after found (each EarlyError.ConstWithoutInitializer (each_part without_initializer (parts_of (node_tree node.entry)))) }
{
    let mut found = found;
    for index in 0..node.part_count() {
        let place = bare_place(node.part(index));
        found = with_place(found, EarlyError::ConstWithoutInitializer, place);
    }
    found
}

/// The place of a declarator without initializer.
fn bare_place(declarator: Option<Node>) -> Option<usize>
    ensures { listed result ≡ at_part without_initializer (option_map node_tree declarator.entry) }
{
    let Some(declarator) = declarator else {
        return None;
    };
    match declarator.part(1) {
        Some(_) => None,
        None => Some(declarator.span().start),
    }
}
