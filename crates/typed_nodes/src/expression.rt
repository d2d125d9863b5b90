//! Expressions.

ghost use Rattle.std.specs.Prelude.{◌≡◌, Some, option_map};
ghost use Rattle.tree.specs.Tree.{kind_of};
ghost use Rattle.tree.specs.Node.{node_tree};
ghost use Rattle.tree.specs.Fields.{field};
ghost use Rattle.typed_nodes.specs.Expressions.{expression_of, expression_by, member_by, paired_by, operands_by, expression_seen};

use crate::arity::is_whole;
use crate::function::{Class, Function};
use tree::{Kind, Node, NodeList};

/// An expression.
#[derive(Clone, Copy)]
pub enum Expression<'t, 's> {
    Identifier {
        name: &'t str,
    },
    Literal {
        raw: &'t str,
    },
    This,
    /// Expressions, spread elements and, for holes, gaps.
    Array {
        elements: NodeList<'t, 's>,
    },
    /// Properties and spread elements.
    Object {
        properties: NodeList<'t, 's>,
    },
    Function(Function<'t, 's>),
    ArrowFunction(Function<'t, 's>),
    Class(Class<'t, 's>),
    /// Template elements (`quasis`) at the even places, `expressions` between them.
    TemplateLiteral {
        turns: NodeList<'t, 's>,
    },
    TaggedTemplate {
        tag: Node<'t, 's>,
        quasi: Node<'t, 's>,
    },
    /// The object is an expression or `super`.
    Member {
        object: Node<'t, 's>,
        property: Node<'t, 's>,
        computed: bool,
        optional: bool,
    },
    /// The callee is an expression or `super`; arguments are expressions and spread elements.
    Call {
        callee: Node<'t, 's>,
        arguments: NodeList<'t, 's>,
        optional: bool,
    },
    New {
        callee: Node<'t, 's>,
        arguments: NodeList<'t, 's>,
    },
    MetaProperty {
        meta: Node<'t, 's>,
        property: Node<'t, 's>,
    },
    Import {
        source: Node<'t, 's>,
    },
    /// A member or a call.
    Chain {
        expression: Node<'t, 's>,
    },
    Update {
        operator: &'t str,
        prefix: bool,
        argument: Node<'t, 's>,
    },
    Unary {
        operator: &'t str,
        argument: Node<'t, 's>,
    },
    Await {
        argument: Node<'t, 's>,
    },
    Binary {
        operator: &'t str,
        left: Node<'t, 's>,
        right: Node<'t, 's>,
    },
    Logical {
        operator: &'t str,
        left: Node<'t, 's>,
        right: Node<'t, 's>,
    },
    Conditional {
        test: Node<'t, 's>,
        consequent: Node<'t, 's>,
        alternate: Node<'t, 's>,
    },
    /// The left side is a pattern.
    Assignment {
        operator: &'t str,
        left: Node<'t, 's>,
        right: Node<'t, 's>,
    },
    Sequence {
        expressions: NodeList<'t, 's>,
    },
    Yield {
        argument: Option<Node<'t, 's>>,
        delegate: bool,
    },
}

impl<'t, 's> Expression<'t, 's> {
    /// The node as an expression; none where it is of another kind, or hasn't the parts of its kind.
    pub fn of(node: Node<'t, 's>) -> Option<Expression<'t, 's>>
        ensures { option_map expression_seen result ≡ expression_of (node_tree node.entry) }
    {
        if is_whole(node) {
            return any_expression(node);
        }
        None
    }
}

/// Names, literals, functions and lists, and all else.
fn any_expression<'t, 's>(node: Node<'t, 's>) -> Option<Expression<'t, 's>>
    ensures { option_map expression_seen result ≡ expression_by (kind_of (node_tree node.entry)) (node_tree node.entry) }
{
    match node.kind() {
        Kind::Identifier => Some(Expression::Identifier { name: node.text() }),
        Kind::Literal => Some(Expression::Literal { raw: node.text() }),
        Kind::ThisExpression => Some(Expression::This),
        Kind::ArrayExpression => Some(Expression::Array {
            elements: node.parts(),
        }),
        Kind::ObjectExpression => Some(Expression::Object {
            properties: node.parts(),
        }),
        Kind::FunctionExpression => Some(Expression::Function(Function::of(node)?)),
        Kind::ArrowFunctionExpression => Some(Expression::ArrowFunction(Function::of(node)?)),
        Kind::ClassExpression => Some(Expression::Class(Class::of(node)?)),
        Kind::TemplateLiteral => Some(Expression::TemplateLiteral {
            turns: node.parts(),
        }),
        Kind::SequenceExpression => Some(Expression::Sequence {
            expressions: node.parts(),
        }),
        Kind::YieldExpression => {
            let flags = node.flags();
            Some(Expression::Yield {
                argument: node.part(0),
                delegate: flags.form.is_generator(),
            })
        }
        Kind::CallExpression
        | Kind::NewExpression
        | Kind::ImportExpression
        | Kind::ChainExpression
        | Kind::UpdateExpression
        | Kind::UnaryExpression
        | Kind::AwaitExpression
        | Kind::TaggedTemplateExpression
        | Kind::MemberExpression
        | Kind::MetaProperty
        | Kind::ConditionalExpression
        | Kind::BinaryExpression
        | Kind::LogicalExpression
        | Kind::AssignmentExpression => headed(node),
        _ => None,
    }
}

/// Expressions whose first part must be there.
fn headed<'t, 's>(node: Node<'t, 's>) -> Option<Expression<'t, 's>>
    ensures { option_map expression_seen result ≡ member_by (kind_of (node_tree node.entry)) (node_tree node.entry) }
{
    let first = node.part(0)?;
    let operator = node.text();
    let flags = node.flags();
    match node.kind() {
        Kind::CallExpression => Some(Expression::Call {
            callee: first,
            arguments: node.parts().skip(1),
            optional: flags.optional,
        }),
        Kind::NewExpression => {
            let arguments = node.parts().skip(1);
            Some(Expression::New {
                callee: first,
                arguments,
            })
        }
        Kind::ImportExpression => Some(Expression::Import { source: first }),
        Kind::ChainExpression => Some(Expression::Chain { expression: first }),
        Kind::UpdateExpression => Some(Expression::Update {
            operator,
            prefix: flags.prefix,
            argument: first,
        }),
        Kind::UnaryExpression => Some(Expression::Unary {
            operator,
            argument: first,
        }),
        Kind::AwaitExpression => Some(Expression::Await { argument: first }),
        Kind::TaggedTemplateExpression
        | Kind::MemberExpression
        | Kind::MetaProperty
        | Kind::ConditionalExpression
        | Kind::BinaryExpression
        | Kind::LogicalExpression
        | Kind::AssignmentExpression => paired(node, first),
        _ => None,
    }
}

/// Expressions whose second part must be there too.
fn paired<'t, 's>(node: Node<'t, 's>, first: Node<'t, 's>) -> Option<Expression<'t, 's>>
    requires { Some (node_tree first) ≡ field 0 (node_tree node) }
    ensures { option_map expression_seen result ≡ paired_by (kind_of (node_tree node.entry)) (node_tree node.entry) }
{
    let second = node.part(1)?;
    let flags = node.flags();
    match node.kind() {
        Kind::TaggedTemplateExpression => Some(Expression::TaggedTemplate {
            tag: first,
            quasi: second,
        }),
        Kind::MemberExpression => Some(Expression::Member {
            object: first,
            property: second,
            computed: flags.computed,
            optional: flags.optional,
        }),
        Kind::MetaProperty => Some(Expression::MetaProperty {
            meta: first,
            property: second,
        }),
        Kind::ConditionalExpression => {
            let alternate = node.part(2)?;
            Some(Expression::Conditional {
                test: first,
                consequent: second,
                alternate,
            })
        }
        Kind::BinaryExpression | Kind::LogicalExpression | Kind::AssignmentExpression => {
            operands(node, first, second)
        }
        _ => None,
    }
}

/// Operations with two operands.
fn operands<'t, 's>(
    node: Node<'t, 's>,
    left: Node<'t, 's>,
    right: Node<'t, 's>,
) -> Option<Expression<'t, 's>>
    requires first { Some (node_tree left) ≡ field 0 (node_tree node) }
    requires second { Some (node_tree right) ≡ field 1 (node_tree node) }
    ensures { option_map expression_seen result ≡ operands_by (kind_of (node_tree node.entry)) (node_tree node.entry) }
{
    let operator = node.text();
    match node.kind() {
        Kind::BinaryExpression => Some(Expression::Binary {
            operator,
            left,
            right,
        }),
        Kind::LogicalExpression => Some(Expression::Logical {
            operator,
            left,
            right,
        }),
        Kind::AssignmentExpression => Some(Expression::Assignment {
            operator,
            left,
            right,
        }),
        _ => None,
    }
}
