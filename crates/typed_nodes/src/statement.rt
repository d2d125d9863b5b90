//! Statements and declarations.

ghost use Rattle.std.specs.Prelude.{◌≡◌, Some, option_map};
ghost use Rattle.tree.specs.Tree.{kind_of};
ghost use Rattle.tree.specs.Node.{node_tree};
ghost use Rattle.tree.specs.Fields.{field};
ghost use Rattle.typed_nodes.specs.Statements.{statement_of, statement_by, choice_by, loop_by, headed_by, paired_by, for_each_by, statement_seen};
ghost use Rattle.tree.specs.declared.kind.Kind.TheVariants.{TryStatement, ForStatement};

use crate::arity::is_whole;
use crate::function::{Class, Function};
use tree::{Kind, Node, NodeList};

/// A statement or a declaration.
#[derive(Clone, Copy)]
pub enum Statement<'t, 's> {
    Expression {
        expression: Node<'t, 's>,
        /// Whether it is a directive.
        directive: bool,
    },
    Block {
        body: NodeList<'t, 's>,
    },
    Empty,
    Debugger,
    Return {
        argument: Option<Node<'t, 's>>,
    },
    Throw {
        argument: Node<'t, 's>,
    },
    Break {
        label: Option<Node<'t, 's>>,
    },
    Continue {
        label: Option<Node<'t, 's>>,
    },
    Labeled {
        label: Node<'t, 's>,
        body: Node<'t, 's>,
    },
    If {
        test: Node<'t, 's>,
        consequent: Node<'t, 's>,
        alternate: Option<Node<'t, 's>>,
    },
    Switch {
        discriminant: Node<'t, 's>,
        cases: NodeList<'t, 's>,
    },
    /// One of handler and finalizer is there, or both are.
    Try {
        block: Node<'t, 's>,
        handler: Option<Node<'t, 's>>,
        finalizer: Option<Node<'t, 's>>,
    },
    While {
        test: Node<'t, 's>,
        body: Node<'t, 's>,
    },
    DoWhile {
        body: Node<'t, 's>,
        test: Node<'t, 's>,
    },
    /// `init` is a declaration or an expression.
    For {
        init: Option<Node<'t, 's>>,
        test: Option<Node<'t, 's>>,
        update: Option<Node<'t, 's>>,
        body: Node<'t, 's>,
    },
    /// The left side is a declaration or a pattern.
    ForIn {
        left: Node<'t, 's>,
        right: Node<'t, 's>,
        body: Node<'t, 's>,
    },
    /// The left side is a declaration or a pattern.
    ForOf {
        left: Node<'t, 's>,
        right: Node<'t, 's>,
        body: Node<'t, 's>,
        is_await: bool,
    },
    VariableDeclaration {
        /// `var`, `let` or `const`.
        kind: &'t str,
        declarations: NodeList<'t, 's>,
    },
    FunctionDeclaration(Function<'t, 's>),
    ClassDeclaration(Class<'t, 's>),
}

impl<'t, 's> Statement<'t, 's> {
    /// The node as a statement or a declaration; none where it is of another kind, or hasn't the parts of its kind.
    pub fn of(node: Node<'t, 's>) -> Option<Statement<'t, 's>>
        ensures { option_map statement_seen result ≡ statement_of (node_tree node.entry) }
    {
        if is_whole(node) {
            return any_statement(node);
        }
        None
    }
}

/// Statements of which no part must be there, declarations, and all else.
fn any_statement<'t, 's>(node: Node<'t, 's>) -> Option<Statement<'t, 's>>
    ensures { option_map statement_seen result ≡ statement_by (kind_of (node_tree node.entry)) (node_tree node.entry) }
{
    match node.kind() {
        Kind::BlockStatement => Some(Statement::Block { body: node.parts() }),
        Kind::EmptyStatement => Some(Statement::Empty),
        Kind::DebuggerStatement => Some(Statement::Debugger),
        Kind::ReturnStatement => Some(Statement::Return {
            argument: node.part(0),
        }),
        Kind::BreakStatement => Some(Statement::Break {
            label: node.part(0),
        }),
        Kind::ContinueStatement => Some(Statement::Continue {
            label: node.part(0),
        }),
        Kind::VariableDeclaration => Some(Statement::VariableDeclaration {
            kind: node.text(),
            declarations: node.parts(),
        }),
        Kind::FunctionDeclaration => Some(Statement::FunctionDeclaration(Function::of(node)?)),
        Kind::ClassDeclaration => Some(Statement::ClassDeclaration(Class::of(node)?)),
        Kind::ForStatement => for_each_step(node),
        Kind::ExpressionStatement
        | Kind::ThrowStatement
        | Kind::SwitchStatement
        | Kind::TryStatement
        | Kind::LabeledStatement
        | Kind::IfStatement
        | Kind::WhileStatement
        | Kind::DoWhileStatement
        | Kind::ForInStatement
        | Kind::ForOfStatement => headed(node),
        _ => None,
    }
}

/// The `for` with semicolons that the node is; none without a body.
fn for_each_step<'t, 's>(node: Node<'t, 's>) -> Option<Statement<'t, 's>>
    ensures { option_map statement_seen result ≡ loop_by ForStatement (node_tree node.entry) }
{
    let body = node.part(3)?;
    Some(Statement::For {
        init: node.part(0),
        test: node.part(1),
        update: node.part(2),
        body,
    })
}

/// Statements whose first part must be there.
fn headed<'t, 's>(node: Node<'t, 's>) -> Option<Statement<'t, 's>>
    ensures { option_map statement_seen result ≡ headed_by (kind_of (node_tree node.entry)) (node_tree node.entry) }
{
    let first = node.part(0)?;
    match node.kind() {
        Kind::ExpressionStatement => {
            let flags = node.flags();
            let directive = flags.directive;
            Some(Statement::Expression {
                expression: first,
                directive,
            })
        }
        Kind::ThrowStatement => Some(Statement::Throw { argument: first }),
        Kind::SwitchStatement => Some(Statement::Switch {
            discriminant: first,
            cases: node.parts().skip(1),
        }),
        Kind::TryStatement => tried(node, first),
        Kind::LabeledStatement
        | Kind::IfStatement
        | Kind::WhileStatement
        | Kind::DoWhileStatement
        | Kind::ForInStatement
        | Kind::ForOfStatement => paired(node, first),
        _ => None,
    }
}

/// The `try` that the node is, with this block; none without a handler and a finalizer.
fn tried<'t, 's>(node: Node<'t, 's>, block: Node<'t, 's>) -> Option<Statement<'t, 's>>
    requires { Some (node_tree block) ≡ field 0 (node_tree node) }
    ensures { option_map statement_seen result ≡ choice_by TryStatement (node_tree node.entry) }
{
    match (node.part(1), node.part(2)) {
        (None, None) => None,
        (handler, finalizer) => Some(Statement::Try {
            block,
            handler,
            finalizer,
        }),
    }
}

/// Statements whose second part must be there too.
fn paired<'t, 's>(node: Node<'t, 's>, first: Node<'t, 's>) -> Option<Statement<'t, 's>>
    requires { Some (node_tree first) ≡ field 0 (node_tree node) }
    ensures { option_map statement_seen result ≡ paired_by (kind_of (node_tree node.entry)) (node_tree node.entry) }
{
    let second = node.part(1)?;
    match node.kind() {
        Kind::LabeledStatement => Some(Statement::Labeled {
            label: first,
            body: second,
        }),
        Kind::IfStatement => {
            let alternate = node.part(2);
            Some(Statement::If {
                test: first,
                consequent: second,
                alternate,
            })
        }
        Kind::WhileStatement => Some(Statement::While {
            test: first,
            body: second,
        }),
        Kind::DoWhileStatement => Some(Statement::DoWhile {
            body: first,
            test: second,
        }),
        Kind::ForInStatement | Kind::ForOfStatement => for_each(node, first, second),
        _ => None,
    }
}

/// Loops with `in` and `of`.
fn for_each<'t, 's>(
    node: Node<'t, 's>,
    left: Node<'t, 's>,
    right: Node<'t, 's>,
) -> Option<Statement<'t, 's>>
    requires first { Some (node_tree left) ≡ field 0 (node_tree node) }
    requires second { Some (node_tree right) ≡ field 1 (node_tree node) }
    ensures { option_map statement_seen result ≡ for_each_by (kind_of (node_tree node.entry)) (node_tree node.entry) }
{
    let body = node.part(2)?;
    let flags = node.flags();
    match node.kind() {
        Kind::ForInStatement => Some(Statement::ForIn { left, right, body }),
        Kind::ForOfStatement => Some(Statement::ForOf {
            left,
            right,
            body,
            is_await: flags.form.is_async(),
        }),
        _ => None,
    }
}
