//! Functions and classes.

ghost use Rattle.std.specs.Prelude.{◌≡◌, option_map};
ghost use Rattle.tree.specs.Tree.{kind_of};
ghost use Rattle.tree.specs.Node.{node_tree};
ghost use Rattle.typed_nodes.specs.Functions.{function_of, function_by, function_seen, class_of, class_by, class_seen};
ghost use Rattle.tree.specs.declared.kind.Kind.TheVariants.{ArrowFunctionExpression, FunctionExpression};

use crate::arity::is_whole;
use tree::{Kind, Node, NodeList};

/// A function: a declaration, an expression or an arrow.
#[derive(Clone, Copy)]
pub struct Function<'t, 's> {
    /// Its name; a declaration has one, unless it is exported by default; an arrow has none.
    pub id: Option<Node<'t, 's>>,
    /// Patterns, the last perhaps a rest element.
    pub params: NodeList<'t, 's>,
    /// A block, or an arrow's expression.
    pub body: Node<'t, 's>,
    pub is_arrow: bool,
    /// Whether the body is an expression.
    pub expression: bool,
    pub generator: bool,
    pub is_async: bool,
}

/// A class: a declaration or an expression.
#[derive(Clone, Copy)]
pub struct Class<'t, 's> {
    /// Its name; a declaration has one, unless it is exported by default.
    pub id: Option<Node<'t, 's>>,
    /// What stands behind `extends`.
    pub super_class: Option<Node<'t, 's>>,
    /// A ClassBody.
    pub body: Node<'t, 's>,
}

impl<'t, 's> Function<'t, 's> {
    /// The node as a function; none where it is of another kind, or hasn't the parts of its kind.
    pub fn of(node: Node<'t, 's>) -> Option<Function<'t, 's>>
        ensures { option_map function_seen result ≡ function_of (node_tree node.entry) }
    {
        if is_whole(node) {
            return any_function(node);
        }
        None
    }
}

impl<'t, 's> Class<'t, 's> {
    /// The node as a class; none where it is of another kind, or hasn't the parts of its kind.
    pub fn of(node: Node<'t, 's>) -> Option<Class<'t, 's>>
        ensures { option_map class_seen result ≡ class_of (node_tree node.entry) }
    {
        if is_whole(node) {
            return any_class(node);
        }
        None
    }
}

/// The function that the node is, whatever parts it has; none if one is missing that it must have.
fn any_function<'t, 's>(node: Node<'t, 's>) -> Option<Function<'t, 's>>
    ensures { option_map function_seen result ≡ function_by (kind_of (node_tree node.entry)) (node_tree node.entry) }
{
    match node.kind() {
        Kind::FunctionDeclaration | Kind::FunctionExpression => plain_function(node),
        Kind::ArrowFunctionExpression => arrow(node),
        _ => None,
    }
}

/// The function with the word `function` that the node is; none without a body.
fn plain_function<'t, 's>(node: Node<'t, 's>) -> Option<Function<'t, 's>>
    ensures { option_map function_seen result ≡ function_by FunctionExpression (node_tree node.entry) }
{
    let params = node.parts().skip(1);
    let body = params.last()?;
    let flags = node.flags();
    Some(Function {
        id: node.part(0),
        params: params.without_last(),
        body,
        is_arrow: false,
        expression: false,
        generator: flags.form.is_generator(),
        is_async: flags.form.is_async(),
    })
}

/// The arrow function that the node is; none without a body.
fn arrow<'t, 's>(node: Node<'t, 's>) -> Option<Function<'t, 's>>
    ensures { option_map function_seen result ≡ function_by ArrowFunctionExpression (node_tree node.entry) }
{
    let params = node.parts();
    let body = params.last()?;
    let flags = node.flags();
    Some(Function {
        id: None,
        params: params.without_last(),
        body,
        is_arrow: true,
        expression: flags.expression,
        generator: flags.form.is_generator(),
        is_async: flags.form.is_async(),
    })
}

/// The class that the node is, whatever parts it has; none if one is missing that it must have.
fn any_class<'t, 's>(node: Node<'t, 's>) -> Option<Class<'t, 's>>
    ensures { option_map class_seen result ≡ class_by (kind_of (node_tree node.entry)) (node_tree node.entry) }
{
    match (node.kind(), node.part(2)) {
        (Kind::ClassDeclaration | Kind::ClassExpression, Some(body)) => Some(Class {
            id: node.part(0),
            super_class: node.part(1),
            body,
        }),
        _ => None,
    }
}
