//! What members of a node come from: its flags, its form and the text of its first part.

ghost use Rattle.std.specs.Prelude.{◌≡◌};
ghost use Rattle.tree.specs.Node.{node_tree};
ghost use Rattle.tree.specs.Tree.{parts_of};
ghost use Rattle.estree_json.specs.Fields.{first_text as text_of_first, property_kind as kind_of_property, method_kind as kind_of_method, source_type};
ghost use Rattle.estree_json.specs.Json.{label_of};
ghost use Rattle.estree_json.specs.Table.{flag_of};

use crate::table::FlagSource;
use tree::{Form, Node};

/// Whether a node is what is asked.
pub(crate) fn is_set(flag: &FlagSource, node: Node) -> bool
    ensures { result ≡ flag_of flag.now (label_of (node_tree node.entry)) }
{
    let flags = node.flags();
    match flag {
        FlagSource::Always => true,
        FlagSource::Async => flags.form.is_async(),
        FlagSource::Computed => flags.computed,
        FlagSource::Expression => flags.expression,
        FlagSource::Generator => flags.form.is_generator(),
        FlagSource::Method => flags.form == Form::Method,
        FlagSource::Optional => flags.optional,
        FlagSource::Prefix => flags.prefix,
        FlagSource::Shorthand => flags.form == Form::Shorthand,
        FlagSource::Static => flags.is_static,
    }
}

/// The text of the first part.
pub(crate) fn first_text<'t>(node: Node<'t, '_>) -> &'t str
    ensures { result.now ≡ text_of_first (parts_of (node_tree node.entry)) }
{
    match node.part(0) {
        Some(part) => part.text(),
        None => "",
    }
}

/// `sourceType` of a Program, by its text.
pub(crate) fn source_type(text: &str) -> &'static str
    ensures { result.now ≡ source_type text.now }
{
    if text == "module" {
        return "module";
    }
    "script"
}

/// `kind` of a property.
pub(crate) fn property_kind(form: Form) -> &'static str
    ensures { result.now ≡ kind_of_property form }
{
    match form {
        Form::Get => "get",
        Form::Set => "set",
        _ => "init",
    }
}

/// `kind` of a method.
pub(crate) fn method_kind(form: Form) -> &'static str
    ensures { result.now ≡ kind_of_method form }
{
    match form {
        Form::Get => "get",
        Form::Set => "set",
        Form::Constructor => "constructor",
        _ => "method",
    }
}
