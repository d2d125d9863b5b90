//! The tests of rules on expressions, members and properties that take more than a line.

ghost use Rattle.std.specs.Prelude.{◌≡◌, option_map};
ghost use Rattle.tree.specs.Node.{node_tree};
ghost use Rattle.node_rules.specs.ExpressionTests.{adds_texts, are_joined, callee_of, calls_has_own, coercion_words, end_of_sum, finds_place, has_nothing, has_one, is_any_object, is_bare_body, is_caller, is_coercion, is_head, is_init, is_key_named, is_lonely_if, is_long_property, is_negated_side, is_one_line, is_parse_int, is_plus_nothing, is_power, is_times_one, is_unary_coercion, is_unnamed_function, is_used, is_wrapper, keeps_key, keeps_name, lacks_radix, may_rename, second_of, start_of_sum, without_default};

use crate::around::Around;
use crate::kind_sets::{
    is_assignment, is_binary, is_block, is_do, is_function_expression, is_if, is_literal_kind,
    is_object_pattern, is_plain_call, is_property, is_spread, is_unary_kind,
    is_variable_declaration, takes_effect,
};
use crate::tests::{first_of, is_empty_object};
use crate::value_search::is_sum;
use crate::values::{is_empty_text, is_numeric, is_radix, is_text};
use crate::words::{
    is_identifier, is_member, is_name, is_string, is_unary, kind_at, object_of, span_at, text_at,
};
use tree::{Form, Kind, Node};

/// Whether a declaration in the head of a `for` stands here.
fn is_head(around: Around, node: Node) -> bool
    ensures { result ≡ is_head around (node_tree node.entry) }
{
    is_variable_declaration(node.kind()) && around.place == 0 && !is_do(around.parent)
}

/// Whether the body of an `if`, `else` or loop stands here, which is no block; `else if` aside.
pub(crate) fn is_bare_body(around: Around, node: Node) -> bool
    ensures { result ≡ is_bare_body around (node_tree node.entry) }
{
    (around.parent.is_loop() && !is_head(around, node))
        || (is_if(around.parent) && !(is_if(node.kind()) && around.place == 2))
}

/// Whether a member is `arguments.callee` or `arguments.caller`.
pub(crate) fn is_caller(node: Node) -> bool
    ensures { result ≡ is_caller (node_tree node.entry) }
{
    is_name(node.part(0), "arguments")
        && !node.flags().computed
        && (is_name(node.part(1), "callee") || is_name(node.part(1), "caller"))
}

/// Whether a part makes a string, number or boolean an object.
pub(crate) fn is_wrapper(part: Option<Node>) -> bool
    ensures { result ≡ is_wrapper (option_map node_tree part.entry) }
{
    is_name(part, "String") || is_name(part, "Number") || is_name(part, "Boolean")
}

/// Whether the left side of `in` or `instanceof` has a `!`, and no parenthesis stands before it.
pub(crate) fn is_negated_side(node: Node) -> bool
    ensures { result ≡ is_negated_side (node_tree node.entry) }
{
    (node.text() == "in" || node.text() == "instanceof")
        && is_unary(node.part(0), "!")
        && span_at(node, node.part(0)).start == node.span().start
}

/// Whether a part is an expression that has an effect by itself.
pub(crate) fn is_used(part: Option<Node>) -> bool
    ensures { result ≡ is_used (option_map node_tree part.entry) }
{
    takes_effect(kind_at(part)) || is_unary(part, "delete") || is_unary(part, "void")
}

/// A block's second statement.
pub(crate) fn second_of<'t, 's>(block: Option<Node<'t, 's>>) -> Option<Node<'t, 's>>
    ensures { option_map node_tree result ≡ second_of (option_map node_tree block.entry) }
{
    let Some(node) = block else {
        return None;
    };
    node.part(1)
}

/// Whether an `else` is a block with an `if` alone in it.
pub(crate) fn is_lonely_if(node: Node) -> bool
    ensures { result ≡ is_lonely_if (node_tree node.entry) }
{
    let other = node.part(2);
    is_block(kind_at(other)) && is_if(kind_at(first_of(other))) && second_of(other).is_none()
}

/// Whether a key is a name: itself, or as a string.
fn is_key_named(key: Option<Node>, name: &str) -> bool
    ensures { result ≡ is_key_named name.now (option_map node_tree key.entry) }
{
    if name.is_empty() {
        return false;
    }
    is_name(key, name) || is_string(key, name)
}

/// Whether it is the form of a plain property.
fn is_init(form: Form) -> bool
    ensures { result ≡ is_init form }
{
    matches!(form, Form::Init)
}

/// Whether a key stands in no brackets, and a value is one name with it.
fn keeps_key(node: Node, value: Option<Node>) -> bool
    ensures { result ≡ keeps_key (node_tree node.entry) (option_map node_tree value.entry) }
{
    !node.flags().computed && is_identifier(value) && is_key_named(node.part(0), text_at(value))
}

/// Whether a part is a function expression without a name.
fn is_unnamed_function(part: Option<Node>) -> bool
    ensures { result ≡ is_unnamed_function (option_map node_tree part.entry) }
{
    let Some(node) = part else {
        return false;
    };
    is_function_expression(node.kind()) && node.part(0).is_none()
}

/// Whether a property of an object could be a shorthand or a method.
pub(crate) fn is_long_property(node: Node) -> bool
    ensures { result ≡ is_long_property (node_tree node.entry) }
{
    is_init(node.flags().form)
        && (is_unnamed_function(node.part(1)) || keeps_key(node, node.part(1)))
}

/// What a property of a pattern binds or assigns, its default aside.
fn without_default<'t, 's>(part: Option<Node<'t, 's>>) -> Option<Node<'t, 's>>
    ensures { option_map node_tree result ≡ without_default (option_map node_tree part.entry) }
{
    let Some(node) = part else {
        return None;
    };
    match node.kind() {
        Kind::AssignmentPattern => node.part(0),
        _ => part,
    }
}

/// Whether a node of this kind in one of that kind is a property of a pattern, or a specifier.
pub(crate) fn may_rename(parent: Kind, kind: Kind) -> bool
    ensures { result ≡ may_rename parent kind }
{
    is_object_pattern(parent) || !is_property(kind)
}

/// Whether a node has two names, and both are one.
pub(crate) fn keeps_name(node: Node) -> bool
    ensures { result ≡ keeps_name (node_tree node.entry) }
{
    is_init(node.flags().form) && keeps_key(node, without_default(node.part(1)))
}

/// Whether a part is the name `parseInt`, or the member `parseInt` of `Number`.
pub(crate) fn is_parse_int(part: Option<Node>) -> bool
    ensures { result ≡ is_parse_int (option_map node_tree part.entry) }
{
    is_name(part, "parseInt") || (is_name(object_of(part), "Number") && is_member(part, "parseInt"))
}

/// Whether a call has a second argument that is no radix, or none behind a first that is no spread one.
pub(crate) fn lacks_radix(node: Node) -> bool
    ensures { result ≡ lacks_radix (node_tree node.entry) }
{
    let radix = node.part(2);
    !is_spread(kind_at(node.part(1)))
        && (radix.is_none()
            || is_name(radix, "undefined")
            || (is_literal_kind(kind_at(radix)) && !is_radix(text_at(radix))))
}

/// Whether one part is the number 1, and the other no number yet.
fn is_times_one(one: Option<Node>, other: Option<Node>) -> bool
    ensures { result ≡ is_times_one (option_map node_tree one.entry) (option_map node_tree other.entry) }
{
    is_literal_kind(kind_at(one))
        && text_at(one) == "1"
        && !is_numeric(other)
        && !is_binary(kind_at(other))
}

/// Whether one part is a text with nothing in it, and the other no text yet.
fn is_plus_nothing(one: Option<Node>, other: Option<Node>) -> bool
    ensures { result ≡ is_plus_nothing (option_map node_tree one.entry) (option_map node_tree other.entry) }
{
    is_empty_text(one) && !is_text(other)
}

/// What a call calls.
pub(crate) fn callee_of<'t, 's>(part: Option<Node<'t, 's>>) -> Option<Node<'t, 's>>
    ensures { option_map node_tree result ≡ callee_of (option_map node_tree part.entry) }
{
    let Some(node) = part else {
        return None;
    };
    if is_plain_call(node.kind()) {
        node.part(0)
    } else {
        None
    }
}

/// Whether a part searches for a place, which is -1 where there is none.
fn finds_place(part: Option<Node>) -> bool
    ensures { result ≡ finds_place (option_map node_tree part.entry) }
{
    is_member(callee_of(part), "indexOf") || is_member(callee_of(part), "lastIndexOf")
}

/// Whether a unary operator makes a boolean or a number, or is the complement of a place.
fn is_unary_coercion(node: Node) -> bool
    ensures { result ≡ is_unary_coercion (node_tree node.entry) }
{
    (node.text() == "!" && is_unary(node.part(0), "!"))
        || (node.text() == "+" && !is_numeric(node.part(0)))
        || (node.text() == "~" && finds_place(node.part(0)))
}

/// Whether a product has 1 on one side.
fn has_one(node: Node) -> bool
    ensures { result ≡ has_one (node_tree node.entry) }
{
    node.text() == "*"
        && (is_times_one(node.part(0), node.part(1)) || is_times_one(node.part(1), node.part(0)))
}

/// Whether a sum has a text with nothing in it on one side.
fn has_nothing(node: Node) -> bool
    ensures { result ≡ has_nothing (node_tree node.entry) }
{
    node.text() == "+"
        && (is_plus_nothing(node.part(0), node.part(1))
            || is_plus_nothing(node.part(1), node.part(0)))
}

/// Whether an operator makes a boolean, a number or a string of what it is used on, and does nothing else.
pub(crate) fn is_coercion(node: Node) -> bool
    ensures { result ≡ is_coercion (node_tree node.entry) }
{
    if is_unary_kind(node.kind()) {
        is_unary_coercion(node)
    } else if is_assignment(node.kind()) {
        node.text() == "+=" && is_empty_text(node.part(1))
    } else {
        has_one(node) || has_nothing(node)
    }
}

/// Whether a part is `Math.pow`.
pub(crate) fn is_power(part: Option<Node>) -> bool
    ensures { result ≡ is_power (option_map node_tree part.entry) }
{
    is_name(object_of(part), "Math") && is_member(part, "pow")
}

/// Whether a part is `{}`, `Object` or `Object.prototype`.
fn is_any_object(part: Option<Node>) -> bool
    ensures { result ≡ is_any_object (option_map node_tree part.entry) }
{
    is_empty_object(part)
        || is_name(part, "Object")
        || (is_name(object_of(part), "Object") && is_member(part, "prototype"))
}

/// Whether a part is the member `call` of their `hasOwnProperty`.
pub(crate) fn calls_has_own(part: Option<Node>) -> bool
    ensures { result ≡ calls_has_own (option_map node_tree part.entry) }
{
    is_member(part, "call")
        && is_member(object_of(part), "hasOwnProperty")
        && is_any_object(object_of(object_of(part)))
}

/// The right side of a sum; what is no sum is itself.
fn end_of_sum<'t, 's>(part: Option<Node<'t, 's>>) -> Option<Node<'t, 's>>
    ensures { option_map node_tree result ≡ end_of_sum (option_map node_tree part.entry) }
{
    let Some(node) = part else {
        return None;
    };
    if is_sum(node) { node.part(1) } else { part }
}

/// The left side of a sum; what is no sum is itself.
pub(crate) fn start_of_sum<'t, 's>(part: Option<Node<'t, 's>>) -> Option<Node<'t, 's>>
    ensures { option_map node_tree result ≡ start_of_sum (option_map node_tree part.entry) }
{
    let Some(node) = part else {
        return None;
    };
    if is_sum(node) { node.part(0) } else { part }
}

/// Whether no line ends in a part of the text.
fn is_one_line(source: &str, from: usize, to: usize) -> bool
    ensures { result ≡ is_one_line source.now from to }
{
    let bytes = source.as_bytes();
    let end = bytes.len().min(to);
    let start = end.min(from);
    !(bytes[start..end].contains(&b'\n') || bytes[start..end].contains(&b'\r'))
}

/// Whether two parts are texts, and on one line.
fn are_joined(source: &str, node: Node, one: Option<Node>, other: Option<Node>) -> bool
    ensures { result ≡ are_joined source.now (node_tree node.entry) (option_map node_tree one.entry) (option_map node_tree other.entry) }
{
    is_text(one)
        && is_text(other)
        && is_one_line(source, span_at(node, one).end, span_at(node, other).start)
}

/// Whether a text is added to another on the same line.
pub(crate) fn adds_texts(source: &str, node: Node) -> bool
    ensures { result ≡ adds_texts source.now (node_tree node.entry) }
{
    is_sum(node)
        && are_joined(
            source,
            node,
            end_of_sum(node.part(0)),
            start_of_sum(node.part(1)),
        )
}

/// What to use in its place.
pub(crate) fn coercion_words(node: Node) -> &'static str
    ensures { result.now ≡ coercion_words (node_tree node.entry) }
{
    if is_unary_kind(node.kind()) {
        if node.text() == "!" {
            "use Boolean(..)"
        } else if node.text() == "+" {
            "use Number(..)"
        } else {
            "compare it with -1"
        }
    } else if node.text() == "*" {
        "use Number(..)"
    } else {
        "use String(..)"
    }
}
