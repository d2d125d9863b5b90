//! Where nodes stand, as far as it says which of them have rows.

ghost use Rattle.std.specs.Prelude.{◌≡◌, ℕ, ◌+◌, ◌<◌, ◌≤◌, length};
ghost use Rattle.std.specs.List.{slice_get};
ghost use Rattle.tree.specs.Flat.{AreLinked, run_of};
ghost use Rattle.tree.specs.Standing.{Stands, held_number};
ghost use Rattle.tree.specs.Tree.{Tree};
ghost use Rattle.tree.specs.NodeUses.{has_row as has_row_at, part_use as part_standing_at, property_use as keyed_at, key_use as key_at, value_use as value_at, member_use as selected_at, callee_use as linked_at, first_else as head_at, child_place as inner_at, looks as looks_at, contains_optional as chains_tree};

use crate::flat_list::section;
use crate::flat_node::{FlatNode, FlatNodes, NodeNumber};
use crate::kind::{Flags, Form, Kind};
use crate::part_number::PartNumber;

/// Where a node stands, as far as it says which nodes have rows.
#[derive(Clone, Copy, Debug, PartialEq, Eq)]
pub enum NodeUse {
    /// An expression is evaluated here.
    Evaluated,
    /// A part of a chain above its base.
    ChainPart,
    /// A target or a pattern is assigned to here.
    Assigned,
    /// A name or a pattern binds here.
    Bound,
    /// Nothing here has a row.
    NotEvaluated,
}

/// A node round a part.
#[derive(Clone, Copy)]
pub struct ParentUse {
    pub node_use: NodeUse,
    pub kind: Kind,
    pub flags: Flags,
}

/// A part of a node: its place, whether it is the last, its kind, and whether it begins with a part of a chain behind `?.`.
#[derive(Clone, Copy)]
pub struct ChildPlace {
    pub index: usize,
    pub is_last: bool,
    pub kind: Kind,
    pub is_chained: bool,
}

/// Whether a node of this kind has a row where it stands.
#[inline(always)]
pub(crate) fn has_row(node_use: NodeUse, kind: Kind) -> bool
    ensures { result ≡ has_row_at node_use kind }
{
    match node_use {
        NodeUse::Evaluated => kind.is_expression(),
        NodeUse::Assigned => kind.is_target(),
        NodeUse::ChainPart | NodeUse::Bound | NodeUse::NotEvaluated => false,
    }
}

/// A part of a node, at its place among so many. Below which `?.` stand is looked at where a chain may end alone, so each part of a
/// chain is passed once.
#[inline(always)]
pub(crate) fn child_place(
    nodes: &FlatNodes<'_>,
    pool: &[PartNumber],
    around: ParentUse,
    count: usize,
    index: usize,
    number: usize,
) -> ChildPlace
    requires inside { index < count }
    requires there { number < length nodes.now.items }
    requires linked { AreLinked pool.now 0 nodes.now.items }
    ensures { (first : ℕ) (t : Tree) → Stands pool.now nodes.now.items first number t → result ≡ inner_at around count index t }
{
    let part = &nodes[number];
    ChildPlace {
        index,
        is_last: index + 1 == count,
        kind: part.kind,
        is_chained: looks_below(around, index) && contains_optional(nodes, pool, number),
    }
}

/// Whether a chain goes on or ends at what is below.
fn looks_below(around: ParentUse, index: usize) -> bool
    ensures { result ≡ looks_at around index }
{
    let flags = around.flags;
    match around.node_use {
        NodeUse::ChainPart => flags.optional && index == 0,
        _ => false,
    }
}

/// Whether a `?.` stands in a member or a call, or in what it is of.
fn contains_optional(nodes: &FlatNodes<'_>, pool: &[PartNumber], number: usize) -> bool
    requires there { number < length nodes.now.items }
    requires linked { AreLinked pool.now 0 nodes.now.items }
    ensures { (first : ℕ) (t : Tree) → Stands pool.now nodes.now.items first number t → result ≡ chains_tree t }
{
    let node = &nodes[number];
    if !node.kind.is_chain_part() {
        return false;
    }
    let flags = node.flags.flags();
    if flags.optional {
        return true;
    }
    match first_part(pool, node) {
        Some(part) => contains_optional(nodes, pool, part.number as usize),
        None => false,
    }
}

/// The first part of a node; none for a gap, and where there are none.
#[inline(always)]
fn first_part(pool: &[PartNumber], node: &FlatNode<'_>) -> Option<NodeNumber>
    requires { node.now.first + node.now.count ≤ length pool.now }
    ensures { result ≡ held_number (slice_get (run_of pool.now node.now) 0) }
{
    let parts = section(pool, node.first as usize, node.count as usize);
    match parts.first() {
        Some(part) => part.number(),
        None => None,
    }
}

/// Where a part of a node stands.
pub(crate) fn part_use(around: ParentUse, part: ChildPlace) -> NodeUse
    ensures { result ≡ part_standing_at around part }
{
    let ParentUse {
        node_use,
        kind,
        flags,
    } = around;
    match kind {
        Kind::Property | Kind::MethodDefinition => property_use(node_use, flags, part.index),
        Kind::PropertyDefinition => first_else(part.index, key_use(flags), NodeUse::Evaluated),
        Kind::MemberExpression => member_use(around, part),
        Kind::CallExpression => callee_use(around, part),
        Kind::ChainExpression => NodeUse::ChainPart,
        Kind::TaggedTemplateExpression => first_else(
            part.index,
            NodeUse::Evaluated,
            NodeUse::NotEvaluated,
        ),
        Kind::MetaProperty
        | Kind::LabeledStatement
        | Kind::BreakStatement
        | Kind::ContinueStatement
        | Kind::ImportDeclaration
        | Kind::ImportSpecifier
        | Kind::ImportDefaultSpecifier
        | Kind::ImportNamespaceSpecifier
        | Kind::ExportNamedDeclaration
        | Kind::ExportSpecifier
        | Kind::ExportAllDeclaration => NodeUse::NotEvaluated,
        Kind::FunctionExpression | Kind::FunctionDeclaration => {
            if part.is_last {
                return NodeUse::NotEvaluated;
            }
            first_else(part.index, NodeUse::NotEvaluated, NodeUse::Bound)
        }
        Kind::ArrowFunctionExpression => {
            if !part.is_last {
                return NodeUse::Bound;
            }
            if flags.expression {
                return NodeUse::Evaluated;
            }
            NodeUse::NotEvaluated
        }
        Kind::ClassExpression | Kind::ClassDeclaration => {
            if part.index == 1 {
                return NodeUse::Evaluated;
            }
            NodeUse::NotEvaluated
        }
        Kind::CatchClause => first_else(part.index, NodeUse::Bound, NodeUse::NotEvaluated),
        Kind::VariableDeclarator => first_else(part.index, NodeUse::Bound, NodeUse::Evaluated),
        Kind::ExpressionStatement => {
            if flags.directive {
                return NodeUse::NotEvaluated;
            }
            NodeUse::Evaluated
        }
        Kind::ArrayPattern | Kind::ObjectPattern | Kind::RestElement => node_use,
        Kind::AssignmentPattern => first_else(part.index, node_use, NodeUse::Evaluated),
        Kind::AssignmentExpression | Kind::ForInStatement | Kind::ForOfStatement => {
            if part.kind.is_pattern() {
                return first_else(part.index, NodeUse::Assigned, NodeUse::Evaluated);
            }
            NodeUse::Evaluated
        }
        _ => NodeUse::Evaluated,
    }
}

/// One standing for the first part, one for the others.
fn first_else(index: usize, first: NodeUse, others: NodeUse) -> NodeUse
    ensures { result ≡ head_at index first others }
{
    if index == 0 {
        return first;
    }
    others
}

/// The key and the value of a property or a method.
fn property_use(node_use: NodeUse, flags: Flags, index: usize) -> NodeUse
    ensures { result ≡ keyed_at node_use flags index }
{
    if index != 0 {
        return value_use(node_use, flags.form);
    }
    key_use(flags)
}

/// The key of a property, a method or a field: it is evaluated if it is computed.
fn key_use(flags: Flags) -> NodeUse
    ensures { result ≡ key_at flags }
{
    if flags.computed {
        return NodeUse::Evaluated;
    }
    NodeUse::NotEvaluated
}

/// The use of a property's value, by the use of the property and its form.
fn value_use(node_use: NodeUse, form: Form) -> NodeUse
    ensures { result ≡ value_at node_use form }
{
    match form {
        Form::Init => {
            match node_use {
                NodeUse::Assigned => NodeUse::Assigned,
                NodeUse::Bound => NodeUse::Bound,
                NodeUse::NotEvaluated => NodeUse::NotEvaluated,
                NodeUse::Evaluated | NodeUse::ChainPart => NodeUse::Evaluated,
            }
        }
        _ => NodeUse::NotEvaluated,
    }
}

/// The object and the property of a member.
fn member_use(around: ParentUse, part: ChildPlace) -> NodeUse
    ensures { result ≡ selected_at around part }
{
    if part.index == 0 {
        return callee_use(around, part);
    }
    let flags = around.flags;
    if flags.computed {
        return NodeUse::Evaluated;
    }
    NodeUse::NotEvaluated
}

/// What a member or a call is of: a further part of the chain, or its base.
fn callee_use(around: ParentUse, part: ChildPlace) -> NodeUse
    ensures { result ≡ linked_at around part }
{
    let flags = around.flags;
    match around.node_use {
        NodeUse::ChainPart => {
            if part.index == 0 && (!flags.optional || part.is_chained) {
                return NodeUse::ChainPart;
            }
            NodeUse::Evaluated
        }
        _ => NodeUse::Evaluated,
    }
}
