//! The object of an identifier: there are more of them than of any other, so its members are sent without a look at the table.

ghost use Rattle.std.specs.Prelude.{◌≡◌, OnOk};
ghost use Rattle.tree.specs.Tree.{kind_of};
ghost use Rattle.tree.specs.Node.{node_tree};
ghost use Rattle.tree.specs.declared.kind.Kind.TheVariants.{Identifier};
ghost use Rattle.estree_json.specs.Json.{node_json};
ghost use Rattle.estree_json.specs.Sent.{Sends};

use crate::events::{SerializeRefused, begin_object, end_object};
use crate::member::{end_member, start_member, text_member, type_member};
use serde::Serializer;
use tree::{Kind, Node};

/// The object of an identifier.
pub(crate) fn serialize_identifier<S: Serializer>(
    out: &mut S,
    error: &mut S::Error,
    node: Node,
) -> Result<(), SerializeRefused>
    requires { kind_of (node_tree node) ≡ Identifier }
    ensures { (is_last : _) → OnOk result (Sends (node_json is_last (node_tree node.entry)) (S.written out.old) (S.written out.new)) }
{
    let span = node.span();
    begin_object(out, error)?;
    end_member(out, error, span.end)?;
    text_member(out, error, "name", node.text())?;
    start_member(out, error, span.start)?;
    type_member(out, error, Kind::Identifier)?;
    end_object(out, error)
}
