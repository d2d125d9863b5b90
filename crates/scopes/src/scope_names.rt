//! The names that a scope declares.

ghost use Rattle.std.specs.Prelude.{◌≡◌, ◌++◌, [], cond, option_map, IfOk, OnOk, Some, None};
ghost use Rattle.tree.specs.Node.{node_tree};
ghost use Rattle.tree.specs.Tree.{kind_of, parts_drop, parts_of};
ghost use Rattle.name_tables.specs.PatternParts.{at_part};
ghost use Rattle.name_tables.specs.BoundNames.{each_part};
ghost use Rattle.scopes.specs.Bindings.{lexical};
ghost use Rattle.scopes.specs.Openings.{body_names, function_names, is_lexical, item_names, opens_all, opens_others, scope_names, scope_round_all, scope_round_others};
ghost use Rattle.scopes.specs.Roles.{is_body};
ghost use Rattle.scopes.specs.declared.names.DeclaredIn.TheVariants.{Statement};
ghost use Rattle.scopes.specs.Shown.{all_declared};

use crate::binding::BindingKind;
use crate::identifier_use::{IdentifierUse, is_body};
use crate::names::{
    Declared, DeclaredIn, push_block, push_cases, push_lexical, push_names, push_parameters,
    push_vars, stands_in,
};
use name_tables::declaration_of;
use std::alloc::AllocError;
use tree::{Kind, Node};

/// Kinds of scopes.
#[derive(Clone, Copy)]
pub(crate) enum ScopeKind {
    /// The items of a Program or of a static block.
    Items,
    /// A function, whose parameters begin at this place.
    Function(usize),
    /// The names of its first part, as a pattern.
    FirstPart(BindingKind),
    Block,
    /// A loop, whose first part may be a `let` or `const` declaration.
    For(DeclaredIn),
    Switch,
    NoScope,
}

/// The scope that a node makes round all its parts.
fn opens_all(role: IdentifierUse, kind: Kind) -> ScopeKind
    ensures { result ≡ opens_all role kind }
{
    match kind {
        Kind::Program | Kind::StaticBlock => ScopeKind::Items,
        Kind::ArrowFunctionExpression => ScopeKind::Function(0),
        Kind::FunctionExpression => ScopeKind::FirstPart(BindingKind::FunctionName),
        Kind::BlockStatement => {
            if is_body(role) {
                ScopeKind::NoScope
            } else {
                ScopeKind::Block
            }
        }
        Kind::CatchClause => ScopeKind::FirstPart(BindingKind::Catch),
        Kind::ForStatement => ScopeKind::For(DeclaredIn::ForHead),
        Kind::ForInStatement | Kind::ForOfStatement => ScopeKind::For(DeclaredIn::ForInOfHead),
        _ => ScopeKind::NoScope,
    }
}

/// The scope that a node makes round all its parts but the first.
fn opens_others(kind: Kind) -> ScopeKind
    ensures { result ≡ opens_others kind }
{
    match kind {
        Kind::FunctionDeclaration | Kind::FunctionExpression => ScopeKind::Function(1),
        Kind::ClassDeclaration | Kind::ClassExpression => ScopeKind::FirstPart(
            BindingKind::ClassName,
        ),
        Kind::SwitchStatement => ScopeKind::Switch,
        _ => ScopeKind::NoScope,
    }
}

/// Pushes the names of the scope that a node makes round all its parts; answers whether it makes one.
pub(crate) fn push_round_all<'t>(
    role: IdentifierUse,
    node: Node<'t, '_>,
    names: &mut Vec<Declared<'t>>,
) -> Result<bool, AllocError>
    requires { names.now.items ≡ [] }
    ensures { IfOk result (λ b. scope_round_all role (kind_of (node_tree node.entry)) (parts_of (node_tree node.entry)) ≡ cond b (Some (all_declared names.new.items)) None) }
{
    push_scope(opens_all(role, node.kind()), node, names)
}

/// Pushes the names of the scope that a node makes round all its parts but the first; answers whether it makes one.
pub(crate) fn push_round_others<'t>(
    node: Node<'t, '_>,
    names: &mut Vec<Declared<'t>>,
) -> Result<bool, AllocError>
    requires { names.now.items ≡ [] }
    ensures { IfOk result (λ b. scope_round_others (kind_of (node_tree node.entry)) (parts_of (node_tree node.entry)) ≡ cond b (Some (all_declared names.new.items)) None) }
{
    push_scope(opens_others(node.kind()), node, names)
}

/// Adds the names of the scope that `opens` says; answers whether there is one.
fn push_scope<'t>(
    opens: ScopeKind,
    node: Node<'t, '_>,
    names: &mut Vec<Declared<'t>>,
) -> Result<bool, AllocError>
    requires { names.now.items ≡ [] }
    ensures { IfOk result (λ b. scope_names opens (parts_of (node_tree node.entry)) ≡ cond b (Some (all_declared names.new.items)) None) }
{
    match opens {
        ScopeKind::Items => push_items(node, names)?,
        ScopeKind::Function(from) => push_function(node, from, names)?,
        ScopeKind::FirstPart(kind) => return push_first(node, kind, names),
        ScopeKind::Block => push_block(node, names)?,
        ScopeKind::For(head) => return push_head(node, head, names),
        ScopeKind::Switch => push_cases(node, names)?,
        ScopeKind::NoScope => return Ok(false),
    }
    Ok(true)
}

/// Adds the names of the first part, as a pattern; answers whether there is one.
fn push_first<'t>(
    node: Node<'t, '_>,
    kind: BindingKind,
    names: &mut Vec<Declared<'t>>,
) -> Result<bool, AllocError>
    requires { names.now.items ≡ [] }
    ensures { IfOk result (λ b. scope_names (ScopeKind.FirstPart kind) (parts_of (node_tree node.entry)) ≡ cond b (Some (all_declared names.new.items)) None) }
{
    let Some(part) = node.part(0) else {
        return Ok(false);
    };
    push_names(part, kind, names)?;
    Ok(true)
}

/// Whether the node is a `let` or `const` declaration.
fn is_lexical(item: Node) -> bool
    ensures { result ≡ is_lexical (node_tree item.entry) }
{
    match item.kind() {
        Kind::VariableDeclaration => item.text() != "var",
        _ => false,
    }
}

/// Adds the names of a loop's `let` or `const` declaration; answers whether there is one.
fn push_head<'t>(
    node: Node<'t, '_>,
    head: DeclaredIn,
    names: &mut Vec<Declared<'t>>,
) -> Result<bool, AllocError>
    requires { names.now.items ≡ [] }
    ensures { IfOk result (λ b. scope_names (ScopeKind.For head) (parts_of (node_tree node.entry)) ≡ cond b (Some (all_declared names.new.items)) None) }
{
    let Some(part) = node.part(0) else {
        return Ok(false);
    };
    if !is_lexical(part) {
        return Ok(false);
    }
    push_lexical(head, part, names)?;
    Ok(true)
}

/// Pushes what the items of a Program, a function's body or a static block declare there.
fn push_items<'t>(node: Node<'t, '_>, names: &mut Vec<Declared<'t>>) -> Result<(), AllocError>
    ensures { OnOk result (all_declared names.new.items ≡ all_declared names.old.items ++ each_part item_names (parts_of (node_tree node.entry))) }
{
    for index in 0..node.part_count() {
        push_item(node.part(index), names)?;
    }
    Ok(())
}

/// Adds what an item declares in a script or a function's body: lexically, and by `var`.
fn push_item<'t>(
    item: Option<Node<'t, '_>>,
    names: &mut Vec<Declared<'t>>,
) -> Result<(), AllocError>
    ensures { OnOk result (all_declared names.new.items ≡ all_declared names.old.items ++ at_part item_names (option_map node_tree item.entry)) }
{
    let Some(item) = item else {
        return Ok(());
    };
    let head = stands_in(item);
    push_lexical(head, item, names)?;
    push_vars(head, declaration_of(item), names)
}

/// Pushes the names of a function: its parameters, from a place on, and what its body declares.
fn push_function<'t>(
    node: Node<'t, '_>,
    from: usize,
    names: &mut Vec<Declared<'t>>,
) -> Result<(), AllocError>
    ensures { OnOk result (all_declared names.new.items ≡ all_declared names.old.items ++ function_names (parts_drop from (parts_of (node_tree node.entry)))) }
{
    let count = node.part_count();
    if count <= from {
        return Ok(());
    }
    push_parameters(node, from, names)?;
    push_body(node.part(count - 1), names)
}

/// Adds what a function's body declares; an expression declares nothing.
fn push_body<'t>(
    body: Option<Node<'t, '_>>,
    names: &mut Vec<Declared<'t>>,
) -> Result<(), AllocError>
    ensures { OnOk result (all_declared names.new.items ≡ all_declared names.old.items ++ at_part body_names (option_map node_tree body.entry)) }
{
    let Some(body) = body else {
        return Ok(());
    };
    match body.kind() {
        Kind::BlockStatement => push_items(body, names),
        _ => Ok(()),
    }
}
