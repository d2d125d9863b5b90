//! The tests of rules on members of classes that take more than a line.

ghost use Rattle.std.specs.Prelude.{◌≡◌, option_map};
ghost use Rattle.tree.specs.Node.{node_tree};
ghost use Rattle.tree.specs.Tree.{parts_of};
ghost use Rattle.node_rules.specs.ClassTests.{are_handed_on, body_of, collected, does_as_none, each_is_handed_on, hands_on, is_constructor, is_handed_on, is_same_name, is_useless_constructor, only_expression, only_hands_on, spread, spreads_arguments};

use crate::around::Around;
use crate::expression_tests::{callee_of, second_of};
use crate::kind_sets::{is_expression_statement, is_super};
use crate::part_test::{PartTest, any_part};
use crate::tests::{first_of, has_statements};
use crate::words::{is_identifier, is_name, kind_at, text_at};
use tree::{Form, Kind, Node};

/// Whether it is the form of a constructor.
fn is_constructor(form: Form) -> bool
    ensures { result ≡ is_constructor form }
{
    matches!(form, Form::Constructor)
}

/// What a function's body is.
fn body_of<'t, 's>(part: Option<Node<'t, 's>>) -> Option<Node<'t, 's>>
    ensures { option_map node_tree result ≡ body_of (option_map node_tree part.entry) }
{
    let Some(function) = part else {
        return None;
    };
    function.parts().last()
}

/// The expression of a block that has nothing else in it.
fn only_expression<'t, 's>(block: Option<Node<'t, 's>>) -> Option<Node<'t, 's>>
    ensures { option_map node_tree result ≡ only_expression (option_map node_tree block.entry) }
{
    let statement = first_of(block);
    if is_expression_statement(kind_at(statement)) && second_of(block).is_none() {
        first_of(statement)
    } else {
        None
    }
}

/// What a rest parameter collects.
fn collected<'t, 's>(part: Option<Node<'t, 's>>) -> Option<Node<'t, 's>>
    ensures { option_map node_tree result ≡ collected (option_map node_tree part.entry) }
{
    let Some(node) = part else {
        return None;
    };
    match node.kind() {
        Kind::RestElement => node.part(0),
        _ => None,
    }
}

/// What is spread.
fn spread<'t, 's>(part: Option<Node<'t, 's>>) -> Option<Node<'t, 's>>
    ensures { option_map node_tree result ≡ spread (option_map node_tree part.entry) }
{
    let Some(node) = part else {
        return None;
    };
    match node.kind() {
        Kind::SpreadElement => node.part(0),
        _ => None,
    }
}

/// Whether two parts are one name.
fn is_same_name(one: Option<Node>, other: Option<Node>) -> bool
    ensures { result ≡ is_same_name (option_map node_tree one.entry) (option_map node_tree other.entry) }
{
    is_identifier(one) && is_name(other, text_at(one))
}

/// Whether an argument is a parameter, or what a rest parameter collects, spread; or whether it is the `super` before the arguments.
fn is_handed_on(parameter: Option<Node>, argument: Option<Node>) -> bool
    ensures { result ≡ is_handed_on (option_map node_tree parameter.entry) (option_map node_tree argument.entry) }
{
    is_super(kind_at(argument))
        || is_same_name(parameter, argument)
        || is_same_name(collected(parameter), spread(argument))
}

/// Whether each argument of a call is a parameter of a function, in order.
fn each_is_handed_on(function: Node, call: Node) -> bool
    ensures { result ≡ each_is_handed_on (parts_of (node_tree function.entry)) (parts_of (node_tree call.entry)) }
{
    let parameters = function.parts();
    let arguments = call.parts();
    for index in 0..arguments.len() {
        let parameter = parameters.get(index);
        let argument = arguments.get(index);
        if !is_handed_on(parameter, argument) {
            return false;
        }
    }
    true
}

/// Whether the arguments of a call are all parameters of a function, in order.
fn are_handed_on(function: Node, call: Node) -> bool
    ensures { result ≡ are_handed_on (node_tree function.entry) (node_tree call.entry) }
{
    function.part_count().saturating_sub(call.part_count()) == 1
        && each_is_handed_on(function, call)
}

/// Whether the one argument is `...arguments`, and no parameter is a pattern or has a default.
fn spreads_arguments(function: Node, call: Node) -> bool
    ensures { result ≡ spreads_arguments (node_tree function.entry) (node_tree call.entry) }
{
    is_name(spread(call.part(1)), "arguments")
        && call.part(2).is_none()
        && !any_part(PartTest::IsPattern, function)
}

/// Whether what a function does is a call of `super` with what it was called with.
fn hands_on(function: Node, part: Option<Node>) -> bool
    ensures { result ≡ hands_on (node_tree function.entry) (option_map node_tree part.entry) }
{
    let Some(call) = part else {
        return false;
    };
    is_super(kind_at(callee_of(part)))
        && (spreads_arguments(function, call) || are_handed_on(function, call))
}

/// Whether that is all that it does.
fn only_hands_on(part: Option<Node>) -> bool
    ensures { result ≡ only_hands_on (option_map node_tree part.entry) }
{
    let Some(function) = part else {
        return false;
    };
    hands_on(function, only_expression(function.parts().last()))
}

/// Whether a constructor does what is done without it.
pub(crate) fn is_useless_constructor(around: Around, node: Node) -> bool
    ensures { result ≡ is_useless_constructor around (node_tree node.entry) }
{
    is_constructor(node.flags().form) && does_as_none(around.remark.is_heir(), node.part(1))
}

/// Whether a function does what is done without a constructor, in a class with `extends` or without.
fn does_as_none(is_heir: bool, function: Option<Node>) -> bool
    ensures { result ≡ does_as_none is_heir (option_map node_tree function.entry) }
{
    if is_heir {
        only_hands_on(function)
    } else {
        !has_statements(body_of(function))
    }
}
