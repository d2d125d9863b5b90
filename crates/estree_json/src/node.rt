//! The value of a tree, node by node.

ghost use Rattle.std.specs.Prelude.{◌≡◌, ◌≤◌, ◌-◌, Some, IfOk, OnOk, option_map, take, drop};
ghost use Rattle.serde_json.specs.Data.{array};
ghost use Rattle.serde_json.specs.View.{view, items_of, members_view};
ghost use Rattle.tree.specs.Node.{node_tree};
ghost use Rattle.tree.specs.Tree.{part_count, parts_of};
ghost use Rattle.estree_json.specs.Json.{first_or_null, odd_ones, node_json, parts_json, json_of};
ghost use Rattle.estree_json.specs.Table.{value_of, put_line as with_line, subject_of, from as parts_from};

use crate::fields::{is_set, method_kind, property_kind, source_type};
use crate::table::{Member, member_table};
use crate::values::{directive_value, literal_regex, literal_value, template_value, text_value};
use serde_json::{Map, Value};
use std::alloc::{AllocError, Global};
use tree::{Node, Program};

/// The value of a script, as ESTree has it: an object for each node, with its `type`, its place in bytes (`start`, `end`) and the fields
/// of its type, keys in byte order. What is missing is null. Steps and memory grow with the tree.
///
/// # Errors
///
/// `AllocError` where memory is refused.
pub fn to_value(alloc: Global, program: &Program) -> Result<Value, AllocError>
    ensures { IfOk result (λ v. view v ≡ json_of program.now) }
{
    node_value(alloc, program.root(), true)
}

/// The object of a node; `is_last` says whether it is the last part of the node that it is in.
#[cycle(value)]
fn node_value(alloc: Global, node: Node, is_last: bool) -> Result<Value, AllocError>
    ensures { IfOk result (λ v. view v ≡ node_json is_last (node_tree node.entry)) }
{
    let mut members = Map::new(alloc);
    for line in member_table(node.kind()) {
        put_member(&mut members, alloc, node, is_last, line)?;
    }
    Ok(Value::Object(members))
}

/// One more member of a node's object, or none.
#[cycle(value)]
fn put_member(
    members: &mut Map<String, Value>,
    alloc: Global,
    node: Node,
    is_last: bool,
    line: &Member,
) -> Result<(), AllocError>
    ensures { OnOk result (members_view members.new.entries ≡ with_line (subject_of is_last (node_tree node.entry)) line.now (members_view members.old.entries)) }
{
    match member_value(alloc, node, is_last, line)? {
        Some(value) => serde_json::put(members, alloc, line.key(), value),
        None => Ok(()),
    }
}

/// The value of a member, none where the node has no such member.
#[cycle(value)]
fn member_value(
    alloc: Global,
    node: Node,
    is_last: bool,
    line: &Member,
) -> Result<Option<Value>, AllocError>
    ensures { IfOk result (λ o. option_map view o ≡ value_of (subject_of is_last (node_tree node.entry)) line.now) }
{
    match line {
        Member::Type => text_value(alloc, node.kind().type_name()),
        Member::Start => Ok(Some(Value::from(node.span().start))),
        Member::End => Ok(Some(Value::from(node.span().end))),
        Member::Part(_, index) => Ok(Some(part_value(alloc, node, *index)?)),
        Member::List(_, from, behind) => {
            let to = node.part_count().saturating_sub(*behind);
            list_value(alloc, node, *from, to)
        }
        Member::PartFromEnd(_, from, behind) => {
            let index = node.part_count().saturating_sub(*behind);
            Ok(Some(part_value(alloc, node, index.max(*from))?))
        }
        Member::EveryOther(_, from) => every_other_value(alloc, node, *from),
        Member::Null(_) => Ok(Some(Value::Null)),
        Member::Text(_) => text_value(alloc, node.text()),
        Member::Boolean(_, flag) => Ok(Some(Value::Bool(is_set(flag, node)))),
        Member::SourceType => text_value(alloc, source_type(node.text())),
        Member::PropertyKind => text_value(alloc, property_kind(node.flags().form)),
        Member::MethodKind => text_value(alloc, method_kind(node.flags().form)),
        Member::Directive => directive_value(alloc, node),
        Member::LiteralValue => literal_value(alloc, node.text()),
        Member::LiteralRegex => literal_regex(alloc, node.text()),
        Member::TemplateValue => template_value(alloc, node.text()),
        Member::Tail => Ok(Some(Value::Bool(is_last))),
    }
}

/// The parts from one on, up to another.
#[cycle(value)]
fn list_value(
    alloc: Global,
    node: Node,
    from: usize,
    to: usize,
) -> Result<Option<Value>, AllocError>
    requires { to ≤ part_count (parts_of (node_tree node)) }
    ensures { IfOk result (λ o. option_map view o ≡ Some (array (items_of (take (to - from) (drop from (parts_json (parts_of (node_tree node.entry)))))))) }
{
    let mut items = Vec::with_capacity(alloc, to.saturating_sub(from))?;
    for index in from..to {
        let value = part_value(alloc, node, index)?;
        items.push(value)?;
    }
    Ok(Some(Value::Array(items)))
}

/// Every other part, from one on.
#[cycle(value)]
fn every_other_value(alloc: Global, node: Node, from: usize) -> Result<Option<Value>, AllocError>
    ensures { IfOk result (λ o. option_map view o ≡ Some (array (items_of (odd_ones (drop from (parts_json (parts_of (node_tree node.entry)))))))) }
{
    let mut items = Vec::new(alloc);
    let mut takes = true;
    for index in from..node.part_count() {
        if takes {
            let value = part_value(alloc, node, index)?;
            items.push(value)?;
        }
        takes = !takes;
    }
    Ok(Some(Value::Array(items)))
}

/// A part, null where it is missing.
#[cycle(value)]
fn part_value(alloc: Global, node: Node, index: usize) -> Result<Value, AllocError>
    ensures { IfOk result (λ v. view v ≡ first_or_null (parts_from index (parts_json (parts_of (node_tree node.entry))))) }
{
    match node.part(index) {
        Some(part) => node_value(alloc, part, node.part_count().saturating_sub(1) == index),
        None => Ok(Value::Null),
    }
}
