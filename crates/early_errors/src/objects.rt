//! `__proto__` in objects.

ghost use Rattle.std.specs.Prelude.{◌≡◌, [], option_map};
ghost use Rattle.std.specs.Bool.{OnFalse};
ghost use Rattle.tree.specs.Node.{node_tree};
ghost use Rattle.tree.specs.Tree.{kind_of, parts_of};
ghost use Rattle.name_tables.specs.BoundNames.{each_part};
ghost use Rattle.name_tables.specs.PatternParts.{at_part};
ghost use Rattle.early_errors.specs.Classes.{after_first};
ghost use Rattle.early_errors.specs.Early.{each, own_errors};
ghost use Rattle.early_errors.specs.Objects.{has_value, is_proto, proto_places};
ghost use Rattle.early_errors.specs.Owns.{own_of};
ghost use Rattle.early_errors.specs.Walk.{after, listed};
ghost use Rattle.early_errors.specs.declared.own.OwnErrors.{OwnErrors};

use crate::EarlyError;
use crate::classes::says;
use crate::found::{FirstError, with_error_if};
use crate::literals::both;
use tree::{Form, Kind, Node};

/// A second or later `__proto__: v` of one object, in the language of 2022 (ECMA-262, 13th edition, 13.2.5.1).
pub(crate) fn object_errors(object: Node, is_2022: bool, found: FirstError) -> FirstError
    requires { own_of (kind_of (node_tree object)) ≡ OwnErrors.Object }
    ensures { (z : _) → z.of_2022 ≡ is_2022 → result ≡ after found (own_errors z (node_tree object.entry)) }
{
    if is_2022 {
        proto_errors(object, found)
    } else {
        found
    }
}

/// Each `__proto__: v` of an object but the first.
fn proto_errors(object: Node, found: FirstError) -> FirstError
    ensures { result ≡ after found (each EarlyError.DuplicateProto (after_first (each_part proto_places (parts_of (node_tree object.entry))))) }
{
    let mut found = found;
    let mut has_one = false;
    for index in 0..object.part_count() {
        if let Some(at) = proto_place(object.part(index)) {
            found = with_error_if(has_one, found, EarlyError::DuplicateProto, at);
            has_one = true;
        }
    }
    found
}

/// The place of the key of a property `__proto__: v`.
fn proto_place(property: Option<Node>) -> Option<usize>
    ensures { listed result ≡ at_part proto_places (option_map node_tree property.entry) }
{
    let Some(property) = property else {
        return None;
    };
    if !is_proto(property) {
        return None;
    }
    match property.part(0) {
        Some(key) => Some(key.span().start),
        None => None,
    }
}

/// Whether an object has a property `__proto__: v`.
pub(crate) fn has_proto(object: Node) -> bool
    ensures { OnFalse result (each_part proto_places (parts_of (node_tree object.entry)) ≡ []) }
{
    for index in 0..object.part_count() {
        if may_be_proto(object.part(index)) {
            return true;
        }
    }
    false
}

/// Whether there is a property, and it is `__proto__: v`.
fn may_be_proto(property: Option<Node>) -> bool
    ensures { OnFalse result (at_part proto_places (option_map node_tree property.entry) ≡ []) }
{
    match property {
        Some(property) => is_proto(property),
        None => false,
    }
}

/// Whether a property is `__proto__: v`.
fn is_proto(property: Node) -> bool
    ensures { result ≡ is_proto (node_tree property.entry) }
{
    let is_computed = property.flags().computed;
    both(
        says(property.part(0), is_computed, "__proto__"),
        has_value(property),
    )
}

/// Whether a node is a property with a key and a value: no shorthand, method, getter or setter.
fn has_value(property: Node) -> bool
    ensures { result ≡ has_value (node_tree property.entry) }
{
    match property.kind() {
        Kind::Property => matches!(property.flags().form, Form::Init),
        _ => false,
    }
}
