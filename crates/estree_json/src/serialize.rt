//! What a node sends to a serializer: the walk hands on an `Estree`, the node with its allocator and whether it is the last part.

ghost use Rattle.std.specs.Prelude.{◌≤◌, ◌-◌, OnOk, take, drop};
ghost use Rattle.serde_json.specs.Data.{array, member};
ghost use Rattle.serde_json.specs.View.{items_of};
ghost use Rattle.tree.specs.Tree.{part_count, parts_of};
ghost use Rattle.tree.specs.Node.{node_tree};
ghost use Rattle.estree_json.specs.Json.{first_or_null, odd_ones, node_json, parts_json};
ghost use Rattle.estree_json.specs.Table.{by_line, subject_of, from as parts_from};
ghost use Rattle.estree_json.specs.Sent.{Adds, Sends};

use crate::estree::Estree;
use crate::events::{
    SerializeRefused, begin_array, begin_object, end_array, end_object, serialize_key,
    serialize_null,
};
use crate::fields::{is_set, method_kind, property_kind, source_type};
use crate::identifier::serialize_identifier;
use crate::member::{
    boolean_member, directive_member, end_member, literal_member, null_member, regex_member,
    start_member, template_member, text_member, type_member,
};
use crate::table::{Member, member_table};
use serde::Serializer;
use std::ops::Range;
use tree::Kind;

/// The object of a node.
#[cycle(send)]
pub(crate) fn serialize_node<S: Serializer>(
    out: &mut S,
    error: &mut S::Error,
    estree: Estree,
) -> Result<(), SerializeRefused>
    ensures { OnOk result (Sends (node_json estree.entry.is_last (node_tree estree.entry.node)) (S.written out.old) (S.written out.new)) }
{
    if estree.node.kind() == Kind::Identifier {
        return serialize_identifier(out, error, estree.node);
    }
    begin_object(out, error)?;
    for line in member_table(estree.node.kind()) {
        serialize_member(out, error, estree, line)?;
    }
    end_object(out, error)
}

/// One member of a node's object, or none.
#[cycle(send)]
fn serialize_member<S: Serializer>(
    out: &mut S,
    error: &mut S::Error,
    estree: Estree,
    line: &Member,
) -> Result<(), SerializeRefused>
    ensures { OnOk result (Adds (by_line (subject_of estree.entry.is_last (node_tree estree.entry.node)) line.now) (S.written out.old) (S.written out.new)) }
{
    let node = estree.node;
    match line {
        Member::Type => type_member(out, error, node.kind()),
        Member::Start => start_member(out, error, node.span().start),
        Member::End => end_member(out, error, node.span().end),
        Member::Part(name, index) => part_member(out, error, estree, name, *index),
        Member::List(name, from, behind) => {
            let to = node.part_count().saturating_sub(*behind);
            list_member(out, error, estree, name, *from..to)
        }
        Member::PartFromEnd(name, from, behind) => {
            let index = node.part_count().saturating_sub(*behind);
            part_member(out, error, estree, name, index.max(*from))
        }
        Member::EveryOther(name, from) => every_other_member(out, error, estree, name, *from),
        Member::Null(name) => null_member(out, error, name),
        Member::Text(name) => text_member(out, error, name, node.text()),
        Member::Boolean(name, flag) => boolean_member(out, error, name, is_set(flag, node)),
        Member::SourceType => text_member(out, error, "sourceType", source_type(node.text())),
        Member::PropertyKind => text_member(out, error, "kind", property_kind(node.flags().form)),
        Member::MethodKind => text_member(out, error, "kind", method_kind(node.flags().form)),
        Member::Directive => directive_member(out, error, node),
        Member::LiteralValue => literal_member(out, error, estree.alloc, node.text()),
        Member::LiteralRegex => regex_member(out, error, node.text()),
        Member::TemplateValue => template_member(out, error, estree.alloc, node.text()),
        Member::Tail => boolean_member(out, error, "tail", estree.is_last),
    }
}

/// A member of a part.
#[cycle(send)]
fn part_member<S: Serializer>(
    out: &mut S,
    error: &mut S::Error,
    estree: Estree,
    name: &str,
    index: usize,
) -> Result<(), SerializeRefused>
    ensures { OnOk result (Adds (member name.now (first_or_null (parts_from index (parts_json (parts_of (node_tree estree.entry.node)))))) (S.written out.old) (S.written out.new)) }
{
    serialize_key(out, error, name)?;
    serialize_part(out, error, estree, index)
}

/// A member of these parts.
#[cycle(send)]
fn list_member<S: Serializer>(
    out: &mut S,
    error: &mut S::Error,
    estree: Estree,
    name: &str,
    parts: Range<usize>,
) -> Result<(), SerializeRefused>
    requires { parts.end ≤ part_count (parts_of (node_tree estree.node)) }
    ensures { OnOk result (Adds (member name.now (array (items_of (take (parts.end - parts.start) (drop parts.start (parts_json (parts_of (node_tree estree.entry.node)))))))) (S.written out.old) (S.written out.new)) }
{
    serialize_key(out, error, name)?;
    begin_array(out, error, parts.end.saturating_sub(parts.start))?;
    for index in parts.start..parts.end {
        serialize_part(out, error, estree, index)?;
    }
    end_array(out, error)
}

/// A member of every other part, from one on.
#[cycle(send)]
fn every_other_member<S: Serializer>(
    out: &mut S,
    error: &mut S::Error,
    estree: Estree,
    name: &str,
    from: usize,
) -> Result<(), SerializeRefused>
    ensures { OnOk result (Adds (member name.now (array (items_of (odd_ones (drop from (parts_json (parts_of (node_tree estree.entry.node)))))))) (S.written out.old) (S.written out.new)) }
{
    serialize_key(out, error, name)?;
    let count = estree.node.part_count();
    begin_array(out, error, count.saturating_sub(from).div_ceil(2))?;
    let mut takes = true;
    for index in from..count {
        if takes {
            serialize_part(out, error, estree, index)?;
        }
        takes = !takes;
    }
    end_array(out, error)
}

/// A part, null where it is missing.
#[cycle(send)]
fn serialize_part<S: Serializer>(
    out: &mut S,
    error: &mut S::Error,
    estree: Estree,
    index: usize,
) -> Result<(), SerializeRefused>
    ensures { OnOk result (Sends (first_or_null (parts_from index (parts_json (parts_of (node_tree estree.entry.node))))) (S.written out.old) (S.written out.new)) }
{
    match estree.node.part(index) {
        Some(node) => {
            let is_last = estree.node.part_count().saturating_sub(1) == index;
            let part = Estree {
                node,
                is_last,
                ..estree
            };
            serialize_node(out, error, part)
        }
        None => serialize_null(out, error),
    }
}
