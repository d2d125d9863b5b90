//! The outlines of members, functions of methods, and class bodies (ECMA-262 14.3, 14.6).

ghost use Rattle.std.specs.Prelude.{◌≡◌, ◌&&◌, option_map};
ghost use Rattle.spellings.specs.Expressions.{only_if};
ghost use Rattle.tree.specs.Node.{node_tree};
ghost use Rattle.tree.specs.Tree.{kind_of, text_of, flags_of, parts_of};
ghost use Rattle.spellings.specs.Entries.{around};
ghost use Rattle.spellings.specs.Others.{class_body_outline as outline_of_class_body, getter_outline as outline_of_getter, set_at as outline_set_at, setter_outline as outline_of_setter, plain_method_outline as outline_of_plain_method, form_method_outline as outline_of_form_method, method_outline as outline_of_method, is_constructor as makes_constructor, method_keyed as outline_of_method_keyed, fits_form as form_fits, class_key, class_keyed as outline_of_class_keyed, field_outline as outline_of_field, method_definition_outline as outline_of_method_definition, member_outline as outline_of_member};
ghost use Rattle.tree.specs.Uses.{is_init};
ghost use Rattle.language.specs.Expressions.{method_of as position_form};
ghost use Rattle.language.specs.Grammar.{is_function_at as form_fits_position};
ghost use Rattle.spelling_table.specs.Productions.{outline_of};

use crate::expressions::{is_function_form, kind_at};
use crate::parts::{PartAt, part_at, part_text};
use crate::properties::{keyed_production, value_form};
use crate::words::names_constructor;
use spelling_table::{ASSIGNMENT, Position, Production, with_default};
use tree::{Flags, Form, Kind, Node};

/// The production of a ClassBody (14.6); none for other kinds.
pub(crate) fn class_body_production(kind: Kind) -> Option<Production>
    ensures { option_map outline_of result ≡ outline_of_class_body kind }
{
    match kind {
        Kind::ClassBody => Some(Production::ClassBody),
        _ => None,
    }
}

/// The function of a method, from its `(`.
pub(crate) fn method_production(node: Node, form: Form) -> Option<Production>
    ensures { option_map outline_of result ≡ outline_of_method form (kind_of (node_tree node.entry)) (flags_of (node_tree node.entry)) (around (parts_of (node_tree node.entry))) }
{
    match node.kind() {
        Kind::FunctionExpression => {
            if !is_function_at(form, node.flags().form) {
                return None;
            }
            form_method_production(node, form)
        }
        _ => None,
    }
}

/// Whether the function at a method's position may have the form: that of a getter, a setter or a plain method is neither async nor a
/// generator.
fn is_function_at(method: Form, own: Form) -> bool
    ensures { result ≡ form_fits_position method own }
{
    match method {
        Form::Generator => matches!(own, Form::Generator),
        Form::Async => matches!(own, Form::Async),
        Form::AsyncGenerator => matches!(own, Form::AsyncGenerator),
        _ => is_plain(own),
    }
}

/// The production of the function of a getter, a setter or another method, by its parts (14.3).
fn form_method_production(node: Node, form: Form) -> Option<Production>
    ensures { option_map outline_of result ≡ outline_of_form_method form (around (parts_of (node_tree node.entry))) }
{
    let (first, second) = (part_at(node, 0), part_at(node, 1));
    let (third, fourth) = (part_at(node, 2), part_at(node, 3));
    match form {
        Form::Get => getter_production(first, second, third),
        Form::Set => setter_production(first, second, third, fourth),
        _ => plain_method_production(first),
    }
}

/// The production of a getter's function: its body alone (14.3).
fn getter_production(name: PartAt, body: PartAt, other: PartAt) -> Option<Production>
    ensures { option_map outline_of result ≡ outline_of_getter name body other }
{
    match (name, body, other) {
        (PartAt::Gap, PartAt::Part(_), PartAt::Past) => Some(Production::Single(Position::Body)),
        _ => None,
    }
}

/// The production of a setter's function: one parameter, which is no rest, and its body (14.3).
fn setter_production(name: PartAt, value: PartAt, body: PartAt, other: PartAt) -> Option<Production>
    ensures { option_map outline_of result ≡ outline_of_setter name value body other }
{
    match (name, value, body, other) {
        (PartAt::Gap, PartAt::Part(kind), PartAt::Part(_), PartAt::Past) => {
            if kind.is_rest() {
                return None;
            }
            set_at(with_default(true, kind))
        }
        _ => None,
    }
}

/// The production of a setter's function, by its parameter's position; none if there is none.
fn set_at(value: Option<Position>) -> Option<Production>
    ensures { option_map outline_of result ≡ outline_set_at value }
{
    match value {
        Some(value) => Some(Production::Setter(value)),
        None => None,
    }
}

/// The production of a method's function (14.3), which has no name.
fn plain_method_production(name: PartAt) -> Option<Production>
    ensures { option_map outline_of result ≡ outline_of_plain_method name }
{
    match name {
        PartAt::Gap => Some(Production::Method),
        PartAt::Past | PartAt::Part(_) => None,
    }
}

/// A member of a class.
pub(crate) fn member_production(node: Node) -> Option<Production>
    ensures { option_map outline_of result ≡ outline_of_member (kind_of (node_tree node.entry)) (flags_of (node_tree node.entry)) (around (parts_of (node_tree node.entry))) }
{
    match node.kind() {
        Kind::MethodDefinition => method_definition_production(node),
        Kind::PropertyDefinition => field_production(
            node.flags().computed,
            part_at(node, 0),
            part_at(node, 1),
            part_at(node, 2),
        ),
        Kind::StaticBlock => Some(Production::Items { returns: false }),
        _ => None,
    }
}

/// A method, a getter, a setter or the constructor.
fn method_definition_production(node: Node) -> Option<Production>
    ensures { option_map outline_of result ≡ outline_of_method_definition (flags_of (node_tree node.entry)) (around (parts_of (node_tree node.entry))) }
{
    class_method_production(
        node.flags(),
        kind_at(part_at(node, 0)),
        part_text(node, 0),
        value_form(node),
    )
}

/// The production of a class's method, by the flags, the kind and the text of the key, and the form of the function.
fn class_method_production(flags: Flags, key: Kind, text: &str, value: Form) -> Option<Production>
    ensures { option_map outline_of result ≡ only_if (form_fits (makes_constructor flags key text.now && is_init value) flags.form) (outline_of_method_keyed flags.computed flags.form value key) }
{
    if !fits_form(is_constructor_method(flags, key, text, value), flags.form) {
        return None;
    }
    method_keyed(flags.computed, flags.form, value, key)
}

/// Whether such a member with a function of this form is the constructor: that is neither async nor a generator.
fn is_constructor_method(flags: Flags, key: Kind, text: &str, value: Form) -> bool
    ensures { result ≡ (makes_constructor flags key text.now && is_init value) }
{
    is_constructor(flags, key, text) && is_plain(value)
}

/// Whether a function is neither async nor a generator.
fn is_plain(form: Form) -> bool
    ensures { result ≡ is_init form }
{
    matches!(form, Form::Init)
}

/// A field, by whether its key is computed, and what stands at the places of its key and its value.
fn field_production(computed: bool, key: PartAt, value: PartAt, other: PartAt) -> Option<Production>
    ensures { option_map outline_of result ≡ outline_of_field computed key value other }
{
    match (key, value, other) {
        (PartAt::Part(key), PartAt::Gap, PartAt::Past) => {
            Some(Production::Single(key_position(computed, key)))
        }
        (PartAt::Part(key), PartAt::Part(_), PartAt::Past) => {
            class_keyed(computed, key, ASSIGNMENT)
        }
        _ => None,
    }
}

/// The position of a class element's key, of this kind.
fn key_position(computed: bool, key: Kind) -> Position
    ensures { result ≡ class_key computed key }
{
    if computed {
        return ASSIGNMENT;
    }
    if key.is_private() {
        Position::PrivateName
    } else {
        Position::PropertyName
    }
}

/// The key of a class element, and what stands behind it at a position.
fn class_keyed(computed: bool, key: Kind, value: Position) -> Option<Production>
    ensures { option_map outline_of result ≡ outline_of_class_keyed computed key value }
{
    if key.is_private() && !computed {
        return Some(Production::PrivateKeyed(value));
    }
    keyed_production(computed, value)
}

/// Whether such a member is the constructor, by its key.
fn is_constructor(flags: Flags, key: Kind, text: &str) -> bool
    ensures { result ≡ makes_constructor flags key text.now }
{
    !flags.computed && !flags.is_static && names_constructor(key, text)
}

/// Whether a member may have this form, by whether its key makes it the constructor.
fn fits_form(constructs: bool, form: Form) -> bool
    ensures { result ≡ form_fits constructs form }
{
    match form {
        Form::Constructor => constructs,
        Form::Method => !constructs,
        Form::Get | Form::Set => true,
        Form::Init | Form::Shorthand => false,
        Form::Generator | Form::Async | Form::AsyncGenerator => false,
    }
}

/// A member's key, of this kind, and its function, by the form of the member and that of the function.
fn method_keyed(computed: bool, form: Form, value: Form, key: Kind) -> Option<Production>
    ensures { option_map outline_of result ≡ outline_of_method_keyed computed form value key }
{
    match form {
        Form::Get | Form::Set => class_keyed(computed, key, Position::Method(form)),
        _ => {
            if !is_function_form(value) {
                return None;
            }
            class_keyed(computed, key, Position::Method(method_of(value)))
        }
    }
}

/// The form of a method's position, by that of its function: that of a plain one is `Method`.
pub(crate) fn method_of(value: Form) -> Form
    ensures { result ≡ position_form value }
{
    match value {
        Form::Init => Form::Method,
        form => form,
    }
}
