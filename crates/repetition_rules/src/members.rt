//! What is compared in a node, part by part: properties, members, cases.

ghost use Rattle.std.specs.Prelude.{◌≡◌, ◌++◌, option_map, string_bytes, IfOk, OnOk};
ghost use Rattle.tree.specs.Node.{node_tree};
ghost use Rattle.repetition_rules.specs.Members.{case, is_constructor, is_getter, is_init, is_member, is_setter, keyed, kept, member, property, sets_prototype, test_label};

use crate::entry::Entry;
use crate::labels::{key_label, side};
use crate::written::{has_code, written};
use std::alloc::{AllocError, Global};
use tree::{Flags, Form, Kind, Node};

/// Appends a property of an object.
pub(crate) fn push_property(
    alloc: Global,
    part: Node,
    out: &mut Vec<Entry>,
) -> Result<(), AllocError>
    ensures { OnOk result (out.new.items ≡ out.old.items ++ property (node_tree part.entry)) }
{
    match part.kind() {
        Kind::Property => {
            let flags = part.flags();
            let label = key_label(alloc, "", flags.computed, part.part(0))?;
            push_keyed(kept(flags, label), part, out)
        },
        _ => Ok(()),
    }
}

/// A label of a property, unless it sets the prototype.
fn kept(flags: Flags, label: Option<String>) -> Option<String>
    ensures { option_map string_bytes result ≡ kept flags (option_map string_bytes label) }
{
    let Some(label) = label else {
        return None;
    };
    if sets_prototype(flags, label.as_str()) {
        None
    } else {
        Some(label)
    }
}

/// Whether a property with this label sets the prototype.
fn sets_prototype(flags: Flags, label: &str) -> bool
    ensures { result ≡ sets_prototype flags label.now }
{
    !flags.computed && is_init(flags.form) && label == "=__proto__"
}

/// Appends a member of a class, but for its constructor.
pub(crate) fn push_member(alloc: Global, part: Node, out: &mut Vec<Entry>) -> Result<(), AllocError>
    ensures { OnOk result (out.new.items ≡ out.old.items ++ member (node_tree part.entry)) }
{
    let flags = part.flags();
    if !is_member(part.kind()) || is_constructor(flags.form) {
        return Ok(());
    }
    let label = key_label(alloc, side(flags.is_static), flags.computed, part.part(0))?;
    push_keyed(label, part, out)
}

/// Appends what stands under a label.
fn push_keyed(label: Option<String>, part: Node, out: &mut Vec<Entry>) -> Result<(), AllocError>
    ensures { OnOk result (out.new.items ≡ out.old.items ++ keyed (option_map string_bytes label) (node_tree part.entry)) }
{
    let Some(label) = label else {
        return Ok(());
    };
    let form = part.flags().form;
    out.push(Entry::new(label, !is_setter(form), !is_getter(form), part.span()))?;
    Ok(())
}

/// Appends a case.
pub(crate) fn push_case(alloc: Global, part: Node, out: &mut Vec<Entry>) -> Result<(), AllocError>
    ensures { OnOk result (out.new.items ≡ out.old.items ++ case (node_tree part.entry)) }
{
    match part.kind() {
        Kind::SwitchCase => {
            let label = test_label(alloc, part.part(0))?;
            push_keyed(label, part, out)
        },
        _ => Ok(()),
    }
}

/// What a test is compared by, if there is one, and no function nor class in it.
fn test_label(alloc: Global, test: Option<Node>) -> Result<Option<String>, AllocError>
    ensures { IfOk result (λ o. option_map string_bytes o ≡ test_label (option_map node_tree test.entry)) }
{
    let Some(test) = test else {
        return Ok(None);
    };
    if has_code(test) {
        return Ok(None);
    }
    let label = written(alloc, test)?;
    Ok(Some(label))
}

/// Whether it is the kind of a method or of a field.
fn is_member(kind: Kind) -> bool
    ensures { result ≡ is_member kind }
{
    matches!(kind, Kind::MethodDefinition | Kind::PropertyDefinition)
}

/// Whether it is the form of a property with a key and a value.
fn is_init(form: Form) -> bool
    ensures { result ≡ is_init form }
{
    matches!(form, Form::Init)
}

/// Whether it is the form of a getter.
fn is_getter(form: Form) -> bool
    ensures { result ≡ is_getter form }
{
    matches!(form, Form::Get)
}

/// Whether it is the form of a setter.
fn is_setter(form: Form) -> bool
    ensures { result ≡ is_setter form }
{
    matches!(form, Form::Set)
}

/// Whether it is the form of a constructor.
fn is_constructor(form: Form) -> bool
    ensures { result ≡ is_constructor form }
{
    matches!(form, Form::Constructor)
}
