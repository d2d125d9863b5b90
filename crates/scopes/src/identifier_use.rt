//! How identifiers are used.

ghost use Rattle.std.specs.Prelude.{◌≡◌, ◌-◌, is_some};
ghost use Rattle.tree.specs.Node.{node_tree};
ghost use Rattle.tree.specs.Tree.{flags_of, kind_of, part_at, part_count, parts_of, text_of};
ghost use Rattle.scopes.specs.Openings.{has_arguments};
ghost use Rattle.scopes.specs.Roles.{is_called, is_constructed, is_typeof_operand, does_read, does_write, exported_role, first_else, is_body, is_reference, key_role, operand_role, part_role, part_roles, role_by, target_role};

use name_tables::last_part;
use tree::{Flags, Kind, Node};

/// What a node is to its parent: how an identifier that stands there is used.
#[derive(Clone, Copy, Debug, PartialEq, Eq)]
pub enum IdentifierUse {
    /// An expression.
    Read,
    /// A target of `=`, of a pattern, or of a for-in or for-of head.
    Write,
    /// A target of any other assignment operator, of `++` or of `--`.
    ReadWrite,
    /// The operand of `typeof`.
    Typeof,
    /// The callee of a call.
    Called,
    /// The callee of `new`.
    Constructed,
    /// No reference: a name that is bound, a key, a label; a pattern that binds.
    NoReference,
    /// The body of a function: a block, or an expression that is read.
    Body,
}

/// The role of the first part, or that of the others.
fn first_else(index: usize, first: IdentifierUse, others: IdentifierUse) -> IdentifierUse
    ensures { result ≡ first_else index first others }
{
    if index == 0 { first } else { others }
}

/// The role of a key: read if it is computed, else no reference.
fn key_role(flags: Flags) -> IdentifierUse
    ensures { result ≡ key_role flags }
{
    if flags.computed {
        IdentifierUse::Read
    } else {
        IdentifierUse::NoReference
    }
}

/// The role of an assignment's target: written by `=`, read and written by other operators.
fn target_role(operator: &str) -> IdentifierUse
    ensures { result ≡ target_role operator.now }
{
    if operator == "=" {
        IdentifierUse::Write
    } else {
        IdentifierUse::ReadWrite
    }
}

/// The role of a unary operator's operand: that of `typeof`, or read.
fn operand_role(operator: &str) -> IdentifierUse
    ensures { result ≡ operand_role operator.now }
{
    if operator == "typeof" {
        IdentifierUse::Typeof
    } else {
        IdentifierUse::Read
    }
}

/// The role of what an export names: read, but no reference where it comes from another module.
fn exported_role(export: Node) -> IdentifierUse
    ensures { result ≡ exported_role (is_some (part_at (parts_of (node_tree export.entry)) (part_count (parts_of (node_tree export.entry)) - 1))) }
{
    match last_part(export) {
        Some(_) => IdentifierUse::NoReference,
        None => IdentifierUse::Read,
    }
}

/// The roles of a node's parts.
#[derive(Clone, Copy)]
pub(crate) enum PartRoles {
    /// That of the node.
    Same,
    /// This of all.
    All(IdentifierUse),
    /// One of the first, another of all others.
    First(IdentifierUse, IdentifierUse),
    /// Bound names, and a body behind them.
    Function,
}

/// What each part of a node of this role is to it.
#[inline(always)]
pub(crate) fn part_roles(role: IdentifierUse, node: Node) -> PartRoles
    ensures { result ≡ part_roles role (kind_of (node_tree node.entry)) (text_of (node_tree node.entry)) (flags_of (node_tree node.entry)) (is_some (part_at (parts_of (node_tree node.entry)) (part_count (parts_of (node_tree node.entry)) - 1))) }
{
    match node.kind() {
        Kind::ArrayPattern | Kind::ObjectPattern | Kind::RestElement => PartRoles::Same,
        Kind::AssignmentPattern => PartRoles::First(role, IdentifierUse::Read),
        Kind::Property => PartRoles::First(key_role(node.flags()), role),
        Kind::MethodDefinition | Kind::PropertyDefinition => PartRoles::First(
            key_role(node.flags()),
            IdentifierUse::Read,
        ),
        Kind::FunctionExpression | Kind::FunctionDeclaration | Kind::ArrowFunctionExpression =>
            PartRoles::Function,
        Kind::ClassExpression
        | Kind::ClassDeclaration
        | Kind::LabeledStatement
        | Kind::CatchClause
        | Kind::VariableDeclarator => PartRoles::First(
            IdentifierUse::NoReference,
            IdentifierUse::Read,
        ),
        Kind::MetaProperty
        | Kind::BreakStatement
        | Kind::ContinueStatement
        | Kind::ImportSpecifier
        | Kind::ImportDefaultSpecifier
        | Kind::ImportNamespaceSpecifier
        | Kind::ExportAllDeclaration => PartRoles::All(IdentifierUse::NoReference),
        Kind::ExportNamedDeclaration => PartRoles::All(exported_role(node)),
        Kind::ExportSpecifier => PartRoles::First(role, IdentifierUse::NoReference),
        Kind::MemberExpression => PartRoles::First(IdentifierUse::Read, key_role(node.flags())),
        Kind::CallExpression => PartRoles::First(IdentifierUse::Called, IdentifierUse::Read),
        Kind::NewExpression => PartRoles::First(IdentifierUse::Constructed, IdentifierUse::Read),
        Kind::UpdateExpression => PartRoles::All(IdentifierUse::ReadWrite),
        Kind::UnaryExpression => PartRoles::All(operand_role(node.text())),
        Kind::AssignmentExpression => PartRoles::First(
            target_role(node.text()),
            IdentifierUse::Read,
        ),
        Kind::ForInStatement | Kind::ForOfStatement => PartRoles::First(
            IdentifierUse::Write,
            IdentifierUse::Read,
        ),
        _ => PartRoles::All(IdentifierUse::Read),
    }
}

/// The role of the part at a place.
pub(crate) fn role_by(
    parts: PartRoles,
    role: IdentifierUse,
    last: usize,
    index: usize,
) -> IdentifierUse
    ensures { result ≡ role_by parts role last index }
{
    match parts {
        PartRoles::Same => role,
        PartRoles::All(all) => all,
        PartRoles::First(first, others) => first_else(index, first, others),
        PartRoles::Function => {
            if index == last {
                IdentifierUse::Body
            } else {
                IdentifierUse::NoReference
            }
        }
    }
}

/// The role of the part at a place, of a node of this role.
pub(crate) fn part_role(role: IdentifierUse, node: Node, index: usize) -> IdentifierUse
    ensures { result ≡ part_role role (kind_of (node_tree node.entry)) (text_of (node_tree node.entry)) (flags_of (node_tree node.entry)) (is_some (part_at (parts_of (node_tree node.entry)) (part_count (parts_of (node_tree node.entry)) - 1))) (part_count (parts_of (node_tree node.entry)) - 1) index }
{
    let last = node.part_count().saturating_sub(1);
    role_by(part_roles(role, node), role, last, index)
}

/// Whether an identifier in this role is a reference.
pub(crate) fn is_reference(role: IdentifierUse) -> bool
    ensures { result ≡ is_reference role }
{
    match role {
        IdentifierUse::NoReference => false,
        _ => true,
    }
}

/// Whether a reference in this role reads.
pub(crate) fn does_read(role: IdentifierUse) -> bool
    ensures { result ≡ does_read role }
{
    match role {
        IdentifierUse::Write => false,
        _ => true,
    }
}

/// Whether a reference in this role writes.
pub(crate) fn does_write(role: IdentifierUse) -> bool
    ensures { result ≡ does_write role }
{
    match role {
        IdentifierUse::Write | IdentifierUse::ReadWrite => true,
        _ => false,
    }
}

/// Whether the role is that of the operand of `typeof`.
pub(crate) fn is_typeof_operand(role: IdentifierUse) -> bool
    ensures { result ≡ is_typeof_operand role }
{
    match role {
        IdentifierUse::Typeof => true,
        _ => false,
    }
}

/// Whether the role is that of a call's callee.
pub(crate) fn is_called(role: IdentifierUse) -> bool
    ensures { result ≡ is_called role }
{
    match role {
        IdentifierUse::Called => true,
        _ => false,
    }
}

/// Whether the role is that of the callee of `new`.
pub(crate) fn is_constructed(role: IdentifierUse) -> bool
    ensures { result ≡ is_constructed role }
{
    match role {
        IdentifierUse::Constructed => true,
        _ => false,
    }
}

/// Whether the role is that of a function's body.
pub(crate) fn is_body(role: IdentifierUse) -> bool
    ensures { result ≡ is_body role }
{
    match role {
        IdentifierUse::Body => true,
        _ => false,
    }
}

/// Whether a node of this kind is a function that has `arguments` of its own.
pub(crate) fn has_arguments(kind: Kind) -> bool
    ensures { result ≡ has_arguments kind }
{
    match kind {
        Kind::FunctionExpression | Kind::FunctionDeclaration => true,
        _ => false,
    }
}
