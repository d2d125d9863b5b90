//! Sets of kinds: at which kinds rules look, and which they ask of what stands round a node.

ghost use Rattle.std.specs.Prelude.{◌≡◌};
ghost use Rattle.node_rules.specs.KindSets.{compares, declares, destructures, ends_jumps, gets_value, has_body, has_default, has_statement_list, is_array, is_assignment, is_await, is_binary, is_binary_operation, is_block, is_call, is_case, is_chain, is_conditional, is_continue, is_debugger, is_declarator, is_do, is_empty_statement, is_expression_statement, is_for, is_function_declaration, is_function_expression, is_if, is_labelled, is_literal_kind, is_logical, is_member_expression, is_method, is_name_kind, is_new, is_object, is_object_pattern, is_operation, is_own_function, is_plain_call, is_property, is_return, is_short_body, is_spread, is_static_block, is_super, is_switch, is_template, is_test_of_statement, is_this, is_throw, is_try, is_unary_kind, is_update, is_variable_declaration, jumps, makes_boolean, makes_object, may_be_error, may_have_label, needs_object, renames, takes_effect};

use tree::Kind;

/// Whether it is the kind of an array.
pub(crate) fn is_array(kind: Kind) -> bool
    ensures { result ≡ is_array kind }
{
    matches!(kind, Kind::ArrayExpression)
}

/// Whether it is the kind of an assignment.
pub(crate) fn is_assignment(kind: Kind) -> bool
    ensures { result ≡ is_assignment kind }
{
    matches!(kind, Kind::AssignmentExpression)
}

/// Whether it is the kind of `await`.
pub(crate) fn is_await(kind: Kind) -> bool
    ensures { result ≡ is_await kind }
{
    matches!(kind, Kind::AwaitExpression)
}

/// Whether it is the kind of a binary operator.
pub(crate) fn is_binary(kind: Kind) -> bool
    ensures { result ≡ is_binary kind }
{
    matches!(kind, Kind::BinaryExpression)
}

/// Whether it is the kind of an operator with two sides.
pub(crate) fn is_binary_operation(kind: Kind) -> bool
    ensures { result ≡ is_binary_operation kind }
{
    matches!(kind, Kind::BinaryExpression | Kind::LogicalExpression)
}

/// Whether it is the kind of a block.
pub(crate) fn is_block(kind: Kind) -> bool
    ensures { result ≡ is_block kind }
{
    matches!(kind, Kind::BlockStatement)
}

/// Whether it is the kind of a call, or `new`.
pub(crate) fn is_call(kind: Kind) -> bool
    ensures { result ≡ is_call kind }
{
    matches!(kind, Kind::CallExpression | Kind::NewExpression)
}

/// Whether it is the kind of a case.
pub(crate) fn is_case(kind: Kind) -> bool
    ensures { result ≡ is_case kind }
{
    matches!(kind, Kind::SwitchCase)
}

/// Whether it is the kind of a chain, `?.`.
pub(crate) fn is_chain(kind: Kind) -> bool
    ensures { result ≡ is_chain kind }
{
    matches!(kind, Kind::ChainExpression)
}

/// Whether it is the kind of `?:`.
pub(crate) fn is_conditional(kind: Kind) -> bool
    ensures { result ≡ is_conditional kind }
{
    matches!(kind, Kind::ConditionalExpression)
}

/// Whether it is the kind of `continue`.
pub(crate) fn is_continue(kind: Kind) -> bool
    ensures { result ≡ is_continue kind }
{
    matches!(kind, Kind::ContinueStatement)
}

/// Whether it is the kind of `debugger`.
pub(crate) fn is_debugger(kind: Kind) -> bool
    ensures { result ≡ is_debugger kind }
{
    matches!(kind, Kind::DebuggerStatement)
}

/// Whether it is the kind of a `do`.
pub(crate) fn is_do(kind: Kind) -> bool
    ensures { result ≡ is_do kind }
{
    matches!(kind, Kind::DoWhileStatement)
}

/// Whether it is the kind of an empty statement.
pub(crate) fn is_empty_statement(kind: Kind) -> bool
    ensures { result ≡ is_empty_statement kind }
{
    matches!(kind, Kind::EmptyStatement)
}

/// Whether it is the kind of an expression as a statement.
pub(crate) fn is_expression_statement(kind: Kind) -> bool
    ensures { result ≡ is_expression_statement kind }
{
    matches!(kind, Kind::ExpressionStatement)
}

/// Whether it is the kind of `for` with two semicolons.
pub(crate) fn is_for(kind: Kind) -> bool
    ensures { result ≡ is_for kind }
{
    matches!(kind, Kind::ForStatement)
}

/// Whether it is the kind of a function expression.
pub(crate) fn is_function_expression(kind: Kind) -> bool
    ensures { result ≡ is_function_expression kind }
{
    matches!(kind, Kind::FunctionExpression)
}

/// Whether it is the kind of a function declaration.
pub(crate) fn is_function_declaration(kind: Kind) -> bool
    ensures { result ≡ is_function_declaration kind }
{
    matches!(kind, Kind::FunctionDeclaration)
}

/// Whether it is the kind of `if`.
pub(crate) fn is_if(kind: Kind) -> bool
    ensures { result ≡ is_if kind }
{
    matches!(kind, Kind::IfStatement)
}

/// Whether it is the kind of a statement with a label.
pub(crate) fn is_labelled(kind: Kind) -> bool
    ensures { result ≡ is_labelled kind }
{
    matches!(kind, Kind::LabeledStatement)
}

/// Whether it is the kind of an operator that may leave its right side out.
pub(crate) fn is_logical(kind: Kind) -> bool
    ensures { result ≡ is_logical kind }
{
    matches!(kind, Kind::LogicalExpression)
}

/// Whether it is the kind of a literal.
pub(crate) fn is_literal_kind(kind: Kind) -> bool
    ensures { result ≡ is_literal_kind kind }
{
    matches!(kind, Kind::Literal)
}

/// Whether it is the kind of a member.
pub(crate) fn is_member_expression(kind: Kind) -> bool
    ensures { result ≡ is_member_expression kind }
{
    matches!(kind, Kind::MemberExpression)
}

/// Whether it is the kind of a name.
pub(crate) fn is_name_kind(kind: Kind) -> bool
    ensures { result ≡ is_name_kind kind }
{
    matches!(kind, Kind::Identifier)
}

/// Whether it is the kind of `new`.
pub(crate) fn is_new(kind: Kind) -> bool
    ensures { result ≡ is_new kind }
{
    matches!(kind, Kind::NewExpression)
}

/// Whether it is the kind of an object.
pub(crate) fn is_object(kind: Kind) -> bool
    ensures { result ≡ is_object kind }
{
    matches!(kind, Kind::ObjectExpression)
}

/// Whether it is the kind of a pattern of an object.
pub(crate) fn is_object_pattern(kind: Kind) -> bool
    ensures { result ≡ is_object_pattern kind }
{
    matches!(kind, Kind::ObjectPattern)
}

/// Whether it is the kind of a call without `new`.
pub(crate) fn is_plain_call(kind: Kind) -> bool
    ensures { result ≡ is_plain_call kind }
{
    matches!(kind, Kind::CallExpression)
}

/// Whether it is the kind of a property.
pub(crate) fn is_property(kind: Kind) -> bool
    ensures { result ≡ is_property kind }
{
    matches!(kind, Kind::Property)
}

/// Whether it is the kind of `return`.
pub(crate) fn is_return(kind: Kind) -> bool
    ensures { result ≡ is_return kind }
{
    matches!(kind, Kind::ReturnStatement)
}

/// Whether it is the kind of a spread argument.
pub(crate) fn is_spread(kind: Kind) -> bool
    ensures { result ≡ is_spread kind }
{
    matches!(kind, Kind::SpreadElement)
}

/// Whether it is the kind of a static block.
pub(crate) fn is_static_block(kind: Kind) -> bool
    ensures { result ≡ is_static_block kind }
{
    matches!(kind, Kind::StaticBlock)
}

/// Whether it is the kind of `super`.
pub(crate) fn is_super(kind: Kind) -> bool
    ensures { result ≡ is_super kind }
{
    matches!(kind, Kind::Super)
}

/// Whether it is the kind of a switch.
pub(crate) fn is_switch(kind: Kind) -> bool
    ensures { result ≡ is_switch kind }
{
    matches!(kind, Kind::SwitchStatement)
}

/// Whether it is the kind of a template.
pub(crate) fn is_template(kind: Kind) -> bool
    ensures { result ≡ is_template kind }
{
    matches!(kind, Kind::TemplateLiteral)
}

/// Whether it is the kind of `this`.
pub(crate) fn is_this(kind: Kind) -> bool
    ensures { result ≡ is_this kind }
{
    matches!(kind, Kind::ThisExpression)
}

/// Whether it is the kind of `throw`.
pub(crate) fn is_throw(kind: Kind) -> bool
    ensures { result ≡ is_throw kind }
{
    matches!(kind, Kind::ThrowStatement)
}

/// Whether it is the kind of `try`.
pub(crate) fn is_try(kind: Kind) -> bool
    ensures { result ≡ is_try kind }
{
    matches!(kind, Kind::TryStatement)
}

/// Whether it is the kind of a pattern with a default.
pub(crate) fn has_default(kind: Kind) -> bool
    ensures { result ≡ has_default kind }
{
    matches!(kind, Kind::AssignmentPattern)
}

/// Whether it is the kind of one variable of a declaration.
pub(crate) fn is_declarator(kind: Kind) -> bool
    ensures { result ≡ is_declarator kind }
{
    matches!(kind, Kind::VariableDeclarator)
}

/// Whether it is the kind of a method of a class.
pub(crate) fn is_method(kind: Kind) -> bool
    ensures { result ≡ is_method kind }
{
    matches!(kind, Kind::MethodDefinition)
}

/// Whether it is the kind of a unary operator.
pub(crate) fn is_unary_kind(kind: Kind) -> bool
    ensures { result ≡ is_unary_kind kind }
{
    matches!(kind, Kind::UnaryExpression)
}

/// Whether it is the kind of `++` or `--`.
pub(crate) fn is_update(kind: Kind) -> bool
    ensures { result ≡ is_update kind }
{
    matches!(kind, Kind::UpdateExpression)
}

/// Whether it is the kind of a declaration of variables.
pub(crate) fn is_variable_declaration(kind: Kind) -> bool
    ensures { result ≡ is_variable_declaration kind }
{
    matches!(kind, Kind::VariableDeclaration)
}

/// Whether it is the kind of what compares two values: a binary operator, a switch, a case.
pub(crate) fn compares(kind: Kind) -> bool
    ensures { result ≡ compares kind }
{
    matches!(
        kind,
        Kind::BinaryExpression | Kind::SwitchStatement | Kind::SwitchCase
    )
}

/// Whether it is the kind of a declaration.
pub(crate) fn declares(kind: Kind) -> bool
    ensures { result ≡ declares kind }
{
    matches!(
        kind,
        Kind::VariableDeclaration | Kind::FunctionDeclaration | Kind::ClassDeclaration
    )
}

/// Whether it is the kind of a pattern with parts.
pub(crate) fn destructures(kind: Kind) -> bool
    ensures { result ≡ destructures kind }
{
    matches!(kind, Kind::ArrayPattern | Kind::ObjectPattern)
}

/// Whether it is the kind of what no jump leaves: a function, a class, a static block.
pub(crate) fn ends_jumps(kind: Kind) -> bool
    ensures { result ≡ ends_jumps kind }
{
    matches!(
        kind,
        Kind::FunctionExpression
            | Kind::FunctionDeclaration
            | Kind::ArrowFunctionExpression
            | Kind::ClassExpression
            | Kind::ClassDeclaration
            | Kind::StaticBlock
    )
}

/// Whether it is the kind of what gives its second part to its first: an assignment, a declarator, a field.
pub(crate) fn gets_value(kind: Kind) -> bool
    ensures { result ≡ gets_value kind }
{
    matches!(
        kind,
        Kind::AssignmentExpression | Kind::VariableDeclarator | Kind::PropertyDefinition
    )
}

/// Whether it is the kind of statements that have one as their body.
pub(crate) fn has_body(kind: Kind) -> bool
    ensures { result ≡ has_body kind }
{
    matches!(
        kind,
        Kind::ForStatement
            | Kind::ForInStatement
            | Kind::ForOfStatement
            | Kind::WhileStatement
            | Kind::DoWhileStatement
            | Kind::IfStatement
            | Kind::LabeledStatement
    )
}

/// Whether it is the kind of a block, or a switch.
pub(crate) fn has_statement_list(kind: Kind) -> bool
    ensures { result ≡ has_statement_list kind }
{
    matches!(kind, Kind::BlockStatement | Kind::SwitchStatement)
}

/// Whether it is the kind of an operator that may turn a value into another type.
pub(crate) fn is_operation(kind: Kind) -> bool
    ensures { result ≡ is_operation kind }
{
    matches!(
        kind,
        Kind::UnaryExpression | Kind::BinaryExpression | Kind::AssignmentExpression
    )
}

/// Whether it is the kind of a function with its own `this`.
pub(crate) fn is_own_function(kind: Kind) -> bool
    ensures { result ≡ is_own_function kind }
{
    matches!(kind, Kind::FunctionExpression | Kind::FunctionDeclaration)
}

/// Whether it is the kind of a test of `if`, `?:` or a loop.
pub(crate) fn is_test_of_statement(kind: Kind) -> bool
    ensures { result ≡ is_test_of_statement kind }
{
    matches!(
        kind,
        Kind::IfStatement
            | Kind::WhileStatement
            | Kind::DoWhileStatement
            | Kind::ForStatement
            | Kind::ConditionalExpression
    )
}

/// Whether it is the kind of a statement, but a block, that may be the body of another.
pub(crate) fn is_short_body(kind: Kind) -> bool
    ensures { result ≡ is_short_body kind }
{
    matches!(
        kind,
        Kind::ExpressionStatement
            | Kind::EmptyStatement
            | Kind::DebuggerStatement
            | Kind::ReturnStatement
            | Kind::ThrowStatement
            | Kind::BreakStatement
            | Kind::ContinueStatement
            | Kind::LabeledStatement
            | Kind::IfStatement
            | Kind::SwitchStatement
            | Kind::TryStatement
            | Kind::WhileStatement
            | Kind::DoWhileStatement
            | Kind::ForStatement
            | Kind::ForInStatement
            | Kind::ForOfStatement
            | Kind::VariableDeclaration
    )
}

/// Whether it is the kind of a jump, or `throw`.
pub(crate) fn jumps(kind: Kind) -> bool
    ensures { result ≡ jumps kind }
{
    matches!(
        kind,
        Kind::ReturnStatement
            | Kind::ThrowStatement
            | Kind::BreakStatement
            | Kind::ContinueStatement
    )
}

/// Whether it is the kind of what makes a new object, an array, a function or a class.
pub(crate) fn makes_object(kind: Kind) -> bool
    ensures { result ≡ makes_object kind }
{
    matches!(
        kind,
        Kind::ArrayExpression
            | Kind::ObjectExpression
            | Kind::FunctionExpression
            | Kind::ArrowFunctionExpression
            | Kind::ClassExpression
    )
}

/// Whether it is the kind of what may make a boolean of a part.
pub(crate) fn makes_boolean(kind: Kind) -> bool
    ensures { result ≡ makes_boolean kind }
{
    matches!(
        kind,
        Kind::IfStatement
            | Kind::WhileStatement
            | Kind::ConditionalExpression
            | Kind::DoWhileStatement
            | Kind::ForStatement
            | Kind::UnaryExpression
            | Kind::CallExpression
            | Kind::NewExpression
    )
}

/// Whether it is the kind of expressions whose value may be an Error.
pub(crate) fn may_be_error(kind: Kind) -> bool
    ensures { result ≡ may_be_error kind }
{
    matches!(
        kind,
        Kind::Identifier
            | Kind::CallExpression
            | Kind::NewExpression
            | Kind::MemberExpression
            | Kind::TaggedTemplateExpression
            | Kind::YieldExpression
            | Kind::AwaitExpression
            | Kind::ChainExpression
            | Kind::ImportExpression
            | Kind::ThisExpression
            | Kind::MetaProperty
    )
}

/// Whether it is the kind of a statement with a label of its own or of another.
pub(crate) fn may_have_label(kind: Kind) -> bool
    ensures { result ≡ may_have_label kind }
{
    matches!(
        kind,
        Kind::LabeledStatement | Kind::BreakStatement | Kind::ContinueStatement
    )
}

/// Whether it is the kind of what throws where a part is undefined.
pub(crate) fn needs_object(kind: Kind) -> bool
    ensures { result ≡ needs_object kind }
{
    matches!(
        kind,
        Kind::CallExpression
            | Kind::NewExpression
            | Kind::MemberExpression
            | Kind::TaggedTemplateExpression
            | Kind::SpreadElement
            | Kind::ClassDeclaration
            | Kind::ClassExpression
            | Kind::ForOfStatement
            | Kind::BinaryExpression
            | Kind::AssignmentExpression
            | Kind::VariableDeclarator
            | Kind::AssignmentPattern
    )
}

/// Whether it is the kind of what may have two names.
pub(crate) fn renames(kind: Kind) -> bool
    ensures { result ≡ renames kind }
{
    matches!(
        kind,
        Kind::Property | Kind::ImportSpecifier | Kind::ExportSpecifier
    )
}

/// Whether it is the kind of expressions that a statement may be for their effect.
pub(crate) fn takes_effect(kind: Kind) -> bool
    ensures { result ≡ takes_effect kind }
{
    matches!(
        kind,
        Kind::AssignmentExpression
            | Kind::CallExpression
            | Kind::NewExpression
            | Kind::UpdateExpression
            | Kind::YieldExpression
            | Kind::AwaitExpression
            | Kind::ImportExpression
    )
}
