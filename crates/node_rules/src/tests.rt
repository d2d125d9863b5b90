//! The tests of rules on nodes that take more than a line.

ghost use Rattle.std.specs.Prelude.{◌≡◌, ◌<◌, length, cond, option_map, None};
ghost use Rattle.tree.specs.Node.{node_tree};
ghost use Rattle.tree.specs.Tree.{part_at, parts_of};
ghost use Rattle.language.specs.FirstPart.{others};
ghost use Rattle.node_rules.specs.Words.{is_empty};
ghost use Rattle.node_rules.specs.Tests.{adds_away, has_comment, calls_boolean, compares_nan, first_of, has_statements, is_builtin_test, is_cast, is_double_not, is_empty_node, is_empty_object, is_lexical, is_literal, is_minus_zero, is_nan_value, is_never_typeof, is_outermost, is_typeof_value, leaves_bound, moves, never_yields, only_throws, runs_away, says_text, steps_away, tested, throws_name};

use crate::around::Around;
use crate::kind_sets::{is_binary, is_object, is_switch};
use crate::node_rule::NodeOptions;
use crate::search::{Search, Sought, has_sought};
use crate::values::{is_plain_template, is_template_of};
use crate::words::{
    is_comparison, is_identifier, is_member, is_name, is_positive, is_string, is_unary, is_zero,
    object_of, operand, span_of, text_at,
};
use tree::{Kind, Node, Span};

/// Whether a text has a comment in an empty block of this span.
fn has_comment(source: &str, span: Span) -> bool
    ensures { result ≡ has_comment source.now span.start span.end }
{
    let bytes = source.as_bytes();
    let end = bytes.len().min(span.end);
    let start = end.min(span.start);
    bytes[start..end].contains(&b'/')
}

/// Whether a node has no parts.
#[tactic(auto, using(crate::proofs::PartCounts::part_counts))]
pub(crate) fn is_empty(node: Node) -> bool
    ensures { result ≡ is_empty (parts_of (node_tree node.entry)) }
{
    node.part_count() == 0
}

/// Whether a node has no parts but the first.
#[tactic(auto, using(crate::proofs::PartCounts::part_counts))]
fn has_no_others(node: Node) -> bool
    ensures { result ≡ is_empty (others (parts_of (node_tree node.entry))) }
{
    node.part_count() < 2
}

/// Whether a node is a switch without cases, or a block without statements that is no function's body, and that the settings don't let be
/// for a comment in it.
pub(crate) fn is_empty_node(options: NodeOptions, source: &str, around: Around, node: Node) -> bool
    ensures { result ≡ is_empty_node options source.now around (node_tree node.entry) }
{
    if is_switch(node.kind()) {
        has_no_others(node)
    } else {
        is_empty(node)
            && !(around.parent.is_function()
                || (options.allow_comments && has_comment(source, span_of(node))))
    }
}

/// Whether a part is minus zero.
pub(crate) fn is_minus_zero(part: Option<Node>) -> bool
    ensures { result ≡ is_minus_zero (option_map node_tree part.entry) }
{
    is_zero(operand(part, "-"))
}

/// Whether a part is `NaN`, or the member `NaN` of `Number`.
fn is_nan(part: Option<Node>) -> bool
    ensures { result ≡ is_nan_value (option_map node_tree part.entry) }
{
    is_name(part, "NaN") || (is_name(object_of(part), "Number") && is_member(part, "NaN"))
}

/// Whether a node compares with it, switches over it, or is a case of it.
pub(crate) fn compares_nan(node: Node) -> bool
    ensures { result ≡ compares_nan (node_tree node.entry) }
{
    if is_binary(node.kind()) {
        is_comparison(node.text()) && (is_nan(node.part(0)) || is_nan(node.part(1)))
    } else {
        is_nan(node.part(0))
    }
}

/// Whether a part is a string of this value, which isn't empty, or a template without substitutions of this raw text.
fn says_text(part: Option<Node>, value: &str) -> bool
    requires { 0 < length value.now }
    ensures { result ≡ says_text value.now (option_map node_tree part.entry) }
{
    is_string(part, value) || is_template_of(part, value)
}

/// Whether a part is one of the strings that `typeof` gives.
fn is_typeof_value(part: Option<Node>) -> bool
    ensures { result ≡ is_typeof_value (option_map node_tree part.entry) }
{
    says_text(part, "undefined")
        || says_text(part, "object")
        || says_text(part, "boolean")
        || says_text(part, "number")
        || says_text(part, "bigint")
        || says_text(part, "string")
        || says_text(part, "symbol")
        || says_text(part, "function")
}

/// Whether a part is a literal.
fn is_literal(part: Option<Node>) -> bool
    ensures { result ≡ is_literal (option_map node_tree part.entry) }
{
    let Some(node) = part else {
        return false;
    };
    matches!(node.kind(), Kind::Literal)
}

/// Whether one part is a `typeof`, and the other a literal, or a template without substitutions and escapes, that it never is.
pub(crate) fn is_never_typeof(one: Option<Node>, other: Option<Node>) -> bool
    ensures { result ≡ is_never_typeof (option_map node_tree one.entry) (option_map node_tree other.entry) }
{
    is_unary(one, "typeof")
        && (is_literal(other) || is_plain_template(other))
        && !is_typeof_value(other)
}

/// Whether a part is one of the members of Object.prototype that tell what an object has.
pub(crate) fn is_builtin_test(part: Option<Node>) -> bool
    ensures { result ≡ is_builtin_test (option_map node_tree part.entry) }
{
    is_member(part, "hasOwnProperty")
        || is_member(part, "isPrototypeOf")
        || is_member(part, "propertyIsEnumerable")
}

/// Whether a part is a `throw` of this name.
fn throws_name(part: Option<Node>, name: &str) -> bool
    ensures { result ≡ throws_name name.now (option_map node_tree part.entry) }
{
    let Some(node) = part else {
        return false;
    };
    match node.kind() {
        Kind::ThrowStatement => is_name(node.part(0), name),
        _ => false,
    }
}

/// The first statement of a block.
pub(crate) fn first_of<'t, 's>(block: Option<Node<'t, 's>>) -> Option<Node<'t, 's>>
    ensures { option_map node_tree result ≡ first_of (option_map node_tree block.entry) }
{
    let Some(node) = block else {
        return None;
    };
    node.part(0)
}

/// Whether a part is a `catch` that binds a name and throws it at once.
pub(crate) fn only_throws(part: Option<Node>) -> bool
    ensures { result ≡ only_throws (option_map node_tree part.entry) }
{
    let Some(node) = part else {
        return false;
    };
    match node.kind() {
        Kind::CatchClause => is_identifier(node.part(0))
            && throws_name(first_of(node.part(1)), text_at(node.part(0))),
        _ => false,
    }
}

/// Whether a part is `{}`.
pub(crate) fn is_empty_object(part: Option<Node>) -> bool
    ensures { result ≡ is_empty_object (option_map node_tree part.entry) }
{
    let Some(node) = part else {
        return false;
    };
    is_object(node.kind()) && is_empty(node)
}

/// Whether a declaration is one that a scope keeps: all but `var`.
pub(crate) fn is_lexical(node: Node) -> bool
    ensures { result ≡ is_lexical (node_tree node.entry) }
{
    match node.kind() {
        Kind::VariableDeclaration => node.text() != "var",
        _ => true,
    }
}

/// Whether a function declaration stands as an item of a script, of a function's body or of a static block, or is exported.
pub(crate) fn is_outermost(parent: Kind, grandparent: Kind) -> bool
    ensures { result ≡ is_outermost parent grandparent }
{
    match parent {
        Kind::Program
        | Kind::StaticBlock
        | Kind::ExportNamedDeclaration
        | Kind::ExportDefaultDeclaration => true,
        Kind::BlockStatement => grandparent.is_function(),
        _ => false,
    }
}

/// Whether a block has statements.
pub(crate) fn has_statements(block: Option<Node>) -> bool
    ensures { result ≡ has_statements (option_map node_tree block.entry) }
{
    let Some(node) = block else {
        return false;
    };
    !is_empty(node)
}

/// Whether a generator does something, and yields nothing.
pub(crate) fn never_yields(node: Node) -> bool
    ensures { result ≡ never_yields (node_tree node.entry) }
{
    let search = Search {
        sought: Sought::Yield,
        label: "",
    };
    let body = node.parts().last();
    node.flags().form.is_generator() && has_statements(body) && !has_sought(search, body)
}

/// What ToBoolean is made of anyway.
pub(crate) fn tested<'t, 's>(node: Node<'t, 's>) -> Option<Node<'t, 's>>
    ensures { option_map node_tree result ≡ tested (node_tree node.entry) }
{
    match node.kind() {
        Kind::IfStatement | Kind::WhileStatement | Kind::ConditionalExpression => node.part(0),
        Kind::DoWhileStatement | Kind::ForStatement => node.part(1),
        Kind::UnaryExpression => part_if(node.text() == "!", node, 0),
        Kind::CallExpression | Kind::NewExpression => part_if(
            is_name(node.part(0), "Boolean"),
            node,
            1,
        ),
        _ => None,
    }
}

/// The part at a place, if that is wanted.
fn part_if<'t, 's>(wanted: bool, node: Node<'t, 's>, index: usize) -> Option<Node<'t, 's>>
    ensures { option_map node_tree result ≡ cond wanted (part_at (parts_of (node_tree node.entry)) index) None }
{
    if wanted { node.part(index) } else { None }
}

/// Whether a part is `!!` of something.
fn is_double_not(part: Option<Node>) -> bool
    ensures { result ≡ is_double_not (option_map node_tree part.entry) }
{
    is_unary(operand(part, "!"), "!")
}

/// Whether a part is a call of `Boolean`.
fn calls_boolean(part: Option<Node>) -> bool
    ensures { result ≡ calls_boolean (option_map node_tree part.entry) }
{
    let Some(node) = part else {
        return false;
    };
    match node.kind() {
        Kind::CallExpression => is_name(node.part(0), "Boolean"),
        _ => false,
    }
}

/// Whether a node makes a boolean of what is made one for it.
pub(crate) fn is_cast(node: Node) -> bool
    ensures { result ≡ is_cast (node_tree node.entry) }
{
    let part = tested(node);
    is_double_not(part) || calls_boolean(part)
}

/// Whether an update takes a name down, or up.
pub(crate) fn moves(down: bool, name: &str, update: Option<Node>) -> bool
    ensures { result ≡ moves down name.now (option_map node_tree update.entry) }
{
    let Some(node) = update else {
        return false;
    };
    match node.kind() {
        Kind::UpdateExpression => is_name(node.part(0), name) && steps_away(down, node.text()),
        Kind::AssignmentExpression => is_name(node.part(0), name)
            && adds_away(down, node.text(), node.part(1)),
        _ => false,
    }
}

/// Whether `--` takes a number down, or `++` up.
fn steps_away(down: bool, operator: &str) -> bool
    ensures { result ≡ steps_away down operator.now }
{
    if down {
        operator == "--"
    } else {
        operator == "++"
    }
}

/// Whether an assignment takes a number away, or adds one.
fn adds_away(down: bool, operator: &str, by: Option<Node>) -> bool
    ensures { result ≡ adds_away down operator.now (option_map node_tree by.entry) }
{
    if down {
        (operator == "-=" && is_positive(by)) || (operator == "+=" && is_positive(operand(by, "-")))
    } else {
        (operator == "+=" && is_positive(by)) || (operator == "-=" && is_positive(operand(by, "-")))
    }
}

/// Whether a test wants a name to be below, or above, a bound, and the update takes it away from there.
pub(crate) fn runs_away(test: Option<Node>, update: Option<Node>) -> bool
    ensures { result ≡ runs_away (option_map node_tree test.entry) (option_map node_tree update.entry) }
{
    let Some(node) = test else {
        return false;
    };
    match node.kind() {
        Kind::BinaryExpression => is_identifier(node.part(0))
            && leaves_bound(node.text(), text_at(node.part(0)), update),
        _ => false,
    }
}

/// The same of a comparison with a name on its left.
fn leaves_bound(operator: &str, name: &str, update: Option<Node>) -> bool
    ensures { result ≡ leaves_bound operator.now name.now (option_map node_tree update.entry) }
{
    ((operator == "<" || operator == "<=") && moves(true, name, update))
        || ((operator == ">" || operator == ">=") && moves(false, name, update))
}
