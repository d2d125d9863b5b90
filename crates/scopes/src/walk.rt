//! The walk over a tree.

ghost use Rattle.std.specs.Prelude.{◌≡◌, ℕ, ◌∷◌, ◌++◌, ◌-◌, [], List, length, map, IfOk, OnOk, Some, None, cond};
ghost use Rattle.tree.specs.Node.{node_tree};
ghost use Rattle.tree.specs.Tree.{flags_of, kind_of, parts_drop, parts_of, part_count, text_of};
ghost use Rattle.scopes.specs.Found.{Frame, all_parts, at_place, collected, enter, found_in, in_scope, joined, opened, own_reference, parts_from, round_others};
ghost use Rattle.scopes.specs.Openings.{scope_round_all, scope_round_others};
ghost use Rattle.scopes.specs.Shown.{Knows, all_declared, frame, reference_shown};
ghost use Rattle.scopes.specs.Walks.{all_within, inside_of, may_make_scope, parts_within, reference_at, round, seen, within_node};
ghost use Rattle.name_tables.specs.Tables.{Agree, value_at, undone};

use crate::binding::{Reference, Scope};
use crate::identifier_use::{
    IdentifierUse, does_read, does_write, has_arguments, is_called, is_constructed, is_reference,
    is_typeof_operand, part_role, part_roles, role_by,
};
use crate::meanings::{Before, Meanings, close_scope, open_scope};
use crate::names::Declared;
use crate::scope_names::{push_round_all, push_round_others};
use std::alloc::{AllocError, Global};
use tree::{Kind, Node};

/// What the walk has found, and what it needs to go on.
#[derive(Drop)]
pub(crate) struct Walk<'t> {
    pub(crate) alloc: Global,
    pub(crate) scopes: Vec<Scope<'t>>,
    pub(crate) references: Vec<Reference<'t>>,
    /// What names mean here.
    pub(crate) meanings: Meanings<'t>,
    /// Room for the names of one scope.
    pub(crate) names: Vec<Declared<'t>>,
}

/// What stands round a node: the nearest scope; whether the node stands in a function that isn't an arrow, and so has an
/// `arguments` of its own; what the node is to its parent.
#[derive(Clone, Copy)]
pub(crate) struct Context {
    pub(crate) scope: Option<usize>,
    pub(crate) in_function: bool,
    pub(crate) role: IdentifierUse,
}

/// Round the part at a place.
fn at_place(node: Node, around: Context, index: usize) -> Context
    ensures round { (fs : List Frame) → round result fs ≡ at_place (inside_of around.role (node_tree node.entry)) (round around fs) index }
    ensures scope { result.scope ≡ around.scope }
{
    Context {
        role: part_role(around.role, node, index),
        ..around
    }
}

/// Round the parts behind the first.
fn round_others(node: Node, around: Context) -> Context
    ensures round { (fs : List Frame) → round result fs ≡ round_others (inside_of around.role (node_tree node.entry)) (round around fs) }
    ensures scope { result.scope ≡ around.scope }
    ensures role { result.role ≡ around.role }
{
    Context {
        in_function: around.in_function || has_arguments(node.kind()),
        ..around
    }
}

/// Whether a node is a reference.
fn refers(node: Node, around: Context) -> bool
    ensures { (fs : List Frame) → own_reference (round around fs) (node_tree node.entry) ≡ cond result (reference_at (round around fs) (node_tree node.entry) ∷ []) [] }
{
    match node.kind() {
        Kind::Identifier => {
            is_reference(around.role) && !(around.in_function && node.text() == "arguments")
        }
        _ => false,
    }
}

/// Pushes the reference that a node is, if it is one.
#[inline(always)]
fn refer<'t>(
    node: Node<'t, '_>,
    around: Context,
    meanings: &Meanings<'t>,
    references: &mut Vec<Reference<'t>>,
) -> Result<(), AllocError>
    ensures { OnOk result ((n : _) → (fs : List Frame) → Knows (value_at meanings.now) n around.scope fs → map reference_shown references.new.items ≡ map reference_shown references.old.items ++ own_reference (round around fs) (node_tree node.entry)) }
{
    if refers(node, around) {
        push_reference(node, around, meanings, references)
    } else {
        Ok(())
    }
}

/// Pushes the reference that an identifier makes.
#[inline(never)]
fn push_reference<'t>(
    node: Node<'t, '_>,
    around: Context,
    meanings: &Meanings<'t>,
    references: &mut Vec<Reference<'t>>,
) -> Result<(), AllocError>
    ensures { OnOk result ((n : _) → (fs : List Frame) → Knows (value_at meanings.now) n around.scope fs → map reference_shown references.new.items ≡ map reference_shown references.old.items ++ reference_at (round around fs) (node_tree node.entry) ∷ []) }
{
    let name = node.text();
    let span = node.span();
    references.push(Reference {
        name,
        scope: around.scope.unwrap_or(0),
        reads: does_read(around.role),
        writes: does_write(around.role),
        start: span.start,
        end: span.end,
        typeof_operand: is_typeof_operand(around.role),
        called: is_called(around.role),
        constructed: is_constructed(around.role),
        meaning: meanings.value(name),
    })?;
    Ok(())
}

/// Whether nodes of this kind may make a scope, or have an `arguments` of their own.
fn may_make_scope(kind: Kind) -> bool
    ensures { result ≡ may_make_scope kind }
{
    match kind {
        Kind::Program
        | Kind::StaticBlock
        | Kind::BlockStatement
        | Kind::SwitchStatement
        | Kind::CatchClause
        | Kind::ForStatement
        | Kind::ForInStatement
        | Kind::ForOfStatement
        | Kind::FunctionDeclaration
        | Kind::FunctionExpression
        | Kind::ArrowFunctionExpression
        | Kind::ClassDeclaration
        | Kind::ClassExpression => true,
        _ => false,
    }
}

/// Opens a scope of the names that were gathered; answers what stands round the nodes in it.
fn open<'t>(
    around: Context,
    saved: &mut Vec<Before<'t>>,
    walk: &mut Walk<'t>,
) -> Result<Context, AllocError>
    requires { saved.now.items ≡ [] }
    ensures found { OnOk result ((fs : List Frame) → Knows (value_at walk.old.meanings) (length walk.old.scopes.items) around.scope fs → seen walk.new ≡ joined (seen walk.old) (opened (round around fs) (all_declared walk.old.names.items))) }
    ensures known { IfOk result (λ inner. (fs : List Frame) → Knows (value_at walk.old.meanings) (length walk.old.scopes.items) around.scope fs → Knows (value_at walk.new.meanings) (length walk.new.scopes.items) inner.scope (frame (length walk.old.scopes.items) (collected fs [] (all_declared walk.old.names.items)) ∷ fs)) }
    ensures inner { IfOk result (λ inner. (fs : List Frame) → round inner (frame (length walk.old.scopes.items) (collected fs [] (all_declared walk.old.names.items)) ∷ fs) ≡ enter (round around fs) (length walk.old.scopes.items) (all_declared walk.old.names.items)) }
    ensures role { IfOk result (λ inner. inner.role ≡ around.role) }
    ensures kept { OnOk result (Agree (undone (value_at walk.new.meanings) saved.new.items) (value_at walk.old.meanings)) }
{
    let number = walk.scopes.len();
    let mut bindings = Vec::new(walk.alloc);
    let mut redeclared = Vec::new(walk.alloc);
    open_scope(
        walk.names.as_slice(),
        number,
        &mut walk.meanings,
        &mut bindings,
        &mut redeclared,
        saved,
    )?;
    walk.scopes.push(Scope {
        parent: around.scope,
        bindings,
        redeclared,
    })?;
    Ok(Context {
        scope: Some(number),
        ..around
    })
}

/// Finds what is in a node and below it. It is put into the loop over parts, so that a node without parts costs no call.
#[cycle(walk)]
#[tactic(auto, using(tree::proofs::PartWalk::part_steps))]
#[inline(always)]
pub(crate) fn walk_node<'t>(
    node: Node<'t, '_>,
    around: Context,
    walk: &mut Walk<'t>,
) -> Result<(), AllocError>
    ensures found { OnOk result ((fs : List Frame) → Knows (value_at walk.old.meanings) (length walk.old.scopes.items) around.scope fs → seen walk.new ≡ joined (seen walk.old) (found_in (round around fs) (length walk.old.scopes.items) (node_tree node.entry))) }
    ensures meanings { OnOk result (Agree (value_at walk.new.meanings) (value_at walk.old.meanings)) }
{
    refer(node, around, &walk.meanings, &mut walk.references)?;
    if may_make_scope(node.kind()) {
        return walk_scopes(node, around, walk);
    }
    if node.part_count() == 0 {
        return Ok(());
    }
    walk_parts(node, 0, around, walk)
}

/// Finds what is in the parts of a node, in the scopes that it makes round them.
#[cycle(walk)]
#[tactic(auto, using(tree::proofs::PartWalk::part_steps))]
#[inline(never)]
fn walk_scopes<'t>(
    node: Node<'t, '_>,
    around: Context,
    walk: &mut Walk<'t>,
) -> Result<(), AllocError>
    ensures found { OnOk result ((fs : List Frame) → Knows (value_at walk.old.meanings) (length walk.old.scopes.items) around.scope fs → seen walk.new ≡ joined (seen walk.old) (within_node (round around fs) (length walk.old.scopes.items) (node_tree node.entry))) }
    ensures meanings { OnOk result (Agree (value_at walk.new.meanings) (value_at walk.old.meanings)) }
{
    walk.names.clear();
    if push_round_all(around.role, node, &mut walk.names)? {
        walk_in_scope(node, around, false, walk)
    } else {
        walk_all(node, around, walk)
    }
}

/// Finds what is in a node's parts: in the first, and in the others within their scope.
#[cycle(walk)]
#[tactic(auto, using(tree::proofs::PartWalk::part_steps))]
fn walk_all<'t>(node: Node<'t, '_>, around: Context, walk: &mut Walk<'t>) -> Result<(), AllocError>
    ensures found { OnOk result ((fs : List Frame) → Knows (value_at walk.old.meanings) (length walk.old.scopes.items) around.scope fs → seen walk.new ≡ joined (seen walk.old) (all_within around.role (node_tree node.entry) (round around fs) (length walk.old.scopes.items))) }
    ensures meanings { OnOk result (Agree (value_at walk.new.meanings) (value_at walk.old.meanings)) }
{
    if let Some(part) = node.part(0) {
        walk_node(part, at_place(node, around, 0), walk)?;
    }
    let others = round_others(node, around);
    walk.names.clear();
    if push_round_others(node, &mut walk.names)? {
        walk_in_scope(node, others, true, walk)
    } else {
        walk_parts(node, 1, others, walk)
    }
}

/// Finds what is in a node's parts from a place on.
#[cycle(walk)]
#[tactic(auto, using(tree::proofs::PartWalk::part_steps))]
fn walk_parts<'t>(
    node: Node<'t, '_>,
    from: usize,
    around: Context,
    walk: &mut Walk<'t>,
) -> Result<(), AllocError>
    ensures found { OnOk result ((fs : List Frame) → Knows (value_at walk.old.meanings) (length walk.old.scopes.items) around.scope fs → seen walk.new ≡ joined (seen walk.old) (parts_from (inside_of around.role (node_tree node.entry)) (round around fs) from (length walk.old.scopes.items) (parts_drop from (parts_of (node_tree node.entry))))) }
    ensures meanings { OnOk result (Agree (value_at walk.new.meanings) (value_at walk.old.meanings)) }
{
    let parts = node.parts();
    let roles = part_roles(around.role, node);
    let last = parts.len().saturating_sub(1);
    for index in from..parts.len() {
        if let Some(part) = parts.get(index) {
            let role = role_by(roles, around.role, last, index);
            walk_node(part, Context { role, ..around }, walk)?;
        }
    }
    Ok(())
}

/// Finds what is in a node's parts, or in those behind the first, in a scope of the names that were gathered.
#[cycle(walk)]
#[tactic(auto, using(tree::proofs::PartWalk::part_steps))]
fn walk_in_scope<'t>(
    node: Node<'t, '_>,
    around: Context,
    others: bool,
    walk: &mut Walk<'t>,
) -> Result<(), AllocError>
    ensures found { OnOk result ((fs : List Frame) → Knows (value_at walk.old.meanings) (length walk.old.scopes.items) around.scope fs → seen walk.new ≡ joined (seen walk.old) (in_scope (Some (all_declared walk.old.names.items)) (round around fs) (length walk.old.scopes.items) (parts_within others around.role (node_tree node.entry)))) }
    ensures meanings { OnOk result (Agree (value_at walk.new.meanings) (value_at walk.old.meanings)) }
{
    let mut saved = Vec::new(walk.alloc);
    walk_opened(node, around, others, &mut saved, walk)
}

/// Walks a scope, with room for what names meant before.
#[cycle(walk)]
#[tactic(auto, using(tree::proofs::PartWalk::part_steps))]
fn walk_opened<'t>(
    node: Node<'t, '_>,
    around: Context,
    others: bool,
    saved: &mut Vec<Before<'t>>,
    walk: &mut Walk<'t>,
) -> Result<(), AllocError>
    requires { saved.now.items ≡ [] }
    ensures found { OnOk result ((fs : List Frame) → Knows (value_at walk.old.meanings) (length walk.old.scopes.items) around.scope fs → seen walk.new ≡ joined (seen walk.old) (in_scope (Some (all_declared walk.old.names.items)) (round around fs) (length walk.old.scopes.items) (parts_within others around.role (node_tree node.entry)))) }
    ensures meanings { OnOk result (Agree (value_at walk.new.meanings) (value_at walk.old.meanings)) }
{
    let inner = open(around, saved, walk)?;
    if others {
        walk_parts(node, 1, inner, walk)?;
    } else {
        walk_all(node, inner, walk)?;
    }
    close_scope(&mut walk.meanings, saved)
}
