//! The outlines of properties, patterns and what stands in them (ECMA-262 12.2.6, 12.15.5, 13.3.3).

ghost use Rattle.std.specs.Prelude.{◌≡◌, option_map};
ghost use Rattle.tree.specs.Node.{node_tree};
ghost use Rattle.tree.specs.Tree.{flags_of, kind_of, parts_of};
ghost use Rattle.language.specs.Expressions.{value_form};
ghost use Rattle.spellings.specs.Others.{spread_outline as outline_of_spread, keyed_outline as outline_keyed, echo_outline as outline_of_echo, form_outline as outline_of_form, property_outline as outline_of_property, keyed_at as outline_keyed_at, shorthand_outline as outline_of_shorthand, pattern_form_outline as outline_of_pattern_form, pattern_property_outline as outline_of_pattern_property, pattern_outline as outline_of_pattern, defaulted as outline_defaulted, element_outline as outline_of_element, one_at as outline_one_at, rest_outline as outline_of_rest};
ghost use Rattle.spelling_table.specs.Productions.{outline_of};

use crate::expressions::is_function_form;
use crate::members::method_of;
use spelling_table::{ASSIGNMENT, Position, Production, bound, with_default};
use tree::{Flags, Form, Kind, Node};

/// The production of a spread (12.2.5, 12.2.6); none for other kinds.
pub(crate) fn spread_production(kind: Kind) -> Option<Production>
    ensures { option_map outline_of result ≡ outline_of_spread kind }
{
    match kind {
        Kind::SpreadElement => Some(Production::Single(ASSIGNMENT)),
        _ => None,
    }
}

/// A key, and what stands behind it at a position.
pub(crate) fn keyed_production(computed: bool, value: Position) -> Option<Production>
    ensures { option_map outline_of result ≡ outline_keyed computed value }
{
    Some(Production::Keyed {
        is_computed: computed,
        value,
    })
}

/// A shorthand key, and its value at a position.
fn shorthand_key_production(computed: bool, value: Position) -> Option<Production>
    ensures { option_map outline_of result ≡ outline_of_echo computed value }
{
    if computed {
        return None;
    }
    Some(Production::ShorthandProperty(value))
}

/// The form of the second part, a method's function.
#[inline(always)]
pub fn value_form(node: Node) -> Form
    ensures { result ≡ value_form (parts_of (node_tree node.entry)) }
{
    match (node.part(0), node.part(1)) {
        (Some(_), Some(value)) => value.flags().form,
        _ => Form::Init,
    }
}

/// A property of an object.
pub(crate) fn property_production(node: Node) -> Option<Production>
    ensures { option_map outline_of result ≡ outline_of_property (kind_of (node_tree node.entry)) (flags_of (node_tree node.entry)) (value_form (parts_of (node_tree node.entry))) }
{
    match node.kind() {
        Kind::Property => {
            let flags = node.flags();
            form_production(flags.computed, flags.form, value_form(node))
        }
        _ => None,
    }
}

/// The production of an object's property, by its form and that of its value (12.2.6); none for a constructor, and for the forms of
/// functions.
fn form_production(computed: bool, form: Form, value: Form) -> Option<Production>
    ensures { option_map outline_of result ≡ outline_of_form computed form value }
{
    match form {
        Form::Init => keyed_production(computed, ASSIGNMENT),
        Form::Get | Form::Set => keyed_production(computed, Position::Method(form)),
        Form::Method => {
            if !is_function_form(value) {
                return None;
            }
            keyed_production(computed, Position::Method(method_of(value)))
        }
        Form::Shorthand => shorthand_key_production(computed, Position::Name),
        Form::Constructor | Form::Generator | Form::Async | Form::AsyncGenerator => None,
    }
}

/// A property of an object pattern, by the kind of its value.
pub(crate) fn pattern_property_production(
    binds: bool,
    kind: Kind,
    flags: Flags,
    value: Kind,
) -> Option<Production>
    ensures { option_map outline_of result ≡ outline_of_pattern_property binds kind flags value }
{
    match kind {
        Kind::Property => pattern_form_production(binds, flags.computed, flags.form, value),
        _ => None,
    }
}

/// The production of an object pattern's property, by its form and the kind of its value (13.3.3, 12.15.5).
fn pattern_form_production(
    binds: bool,
    computed: bool,
    form: Form,
    value: Kind,
) -> Option<Production>
    ensures { option_map outline_of result ≡ outline_of_pattern_form binds computed form value }
{
    match form {
        Form::Init => keyed_at(computed, with_default(binds, value)),
        Form::Shorthand => shorthand_production(computed, value),
        _ => None,
    }
}

/// The production of a property with a key, by its value's position; none if there is none.
fn keyed_at(computed: bool, value: Option<Position>) -> Option<Production>
    ensures { option_map outline_of result ≡ outline_keyed_at computed value }
{
    match value {
        Some(value) => keyed_production(computed, value),
        None => None,
    }
}

/// The production of a shorthand property in a pattern: a name, or a name with a default.
fn shorthand_production(computed: bool, value: Kind) -> Option<Production>
    ensures { option_map outline_of result ≡ outline_of_shorthand computed value }
{
    match value {
        Kind::Identifier => shorthand_key_production(computed, Position::Name),
        Kind::AssignmentPattern => shorthand_key_production(
            computed,
            Position::Element { binds: true },
        ),
        _ => None,
    }
}

/// The production of an array or object pattern; none for other kinds.
pub(crate) fn pattern_production(binds: bool, kind: Kind) -> Option<Production>
    ensures { option_map outline_of result ≡ outline_of_pattern binds kind }
{
    match kind {
        Kind::ArrayPattern => Some(Production::ArrayPattern { binds }),
        Kind::ObjectPattern => Some(Production::ObjectPattern { binds }),
        _ => None,
    }
}

/// What has a default, by the kind of what is bound or assigned.
pub(crate) fn element_production(binds: bool, kind: Kind, target: Kind) -> Option<Production>
    ensures { option_map outline_of result ≡ outline_of_element binds kind target }
{
    match kind {
        Kind::AssignmentPattern => defaulted(bound(binds, target)),
        _ => None,
    }
}

/// The production of a target with a default, by the target's position; none if there is none.
fn defaulted(target: Option<Position>) -> Option<Production>
    ensures { option_map outline_of result ≡ outline_defaulted target }
{
    match target {
        Some(target) => Some(Production::WithDefault(target)),
        None => None,
    }
}

/// A rest, by the kind of what is bound or assigned; that of an object is no pattern.
pub(crate) fn rest_production(
    binds: bool,
    of_object: bool,
    kind: Kind,
    target: Kind,
) -> Option<Production>
    ensures { option_map outline_of result ≡ outline_of_rest binds of_object kind target }
{
    match kind {
        Kind::RestElement => {
            if of_object && target.is_pattern() {
                return None;
            }
            one_at(bound(binds, target))
        }
        _ => None,
    }
}

/// The production of a node with one part, by the part's position; none if there is none.
fn one_at(position: Option<Position>) -> Option<Production>
    ensures { option_map outline_of result ≡ outline_one_at position }
{
    match position {
        Some(position) => Some(Production::Single(position)),
        None => None,
    }
}
