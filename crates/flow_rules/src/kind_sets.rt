//! Sets of kinds of nodes.

ghost use Rattle.std.specs.Prelude.{◌≡◌, ◌||◌};
ghost use Rattle.flow_rules.specs.KindSets.{has_own_this, is_block, is_break, is_call, is_case, is_catch, is_class, is_class_body, is_code, is_conditional, is_continue, is_if, is_list, is_logical, is_member, is_member_expression, is_method, is_own_function, is_return, is_switch, is_this, is_try};

use tree::Kind;

/// Whether it is the kind of a function with its own `this`: no arrow.
pub(crate) fn is_own_function(kind: Kind) -> bool
    ensures { result ≡ is_own_function kind }
{
    matches!(kind, Kind::FunctionDeclaration | Kind::FunctionExpression)
}

/// Whether it is the kind of a class.
pub(crate) fn is_class(kind: Kind) -> bool
    ensures { result ≡ is_class kind }
{
    matches!(kind, Kind::ClassDeclaration | Kind::ClassExpression)
}

/// Whether it is the kind of what stands between the braces of a class.
pub(crate) fn is_class_body(kind: Kind) -> bool
    ensures { result ≡ is_class_body kind }
{
    matches!(kind, Kind::ClassBody)
}

/// Whether it is the kind of a method of a class.
pub(crate) fn is_method(kind: Kind) -> bool
    ensures { result ≡ is_method kind }
{
    matches!(kind, Kind::MethodDefinition)
}

/// Whether it is the kind of members that may be getters.
pub(crate) fn is_member(kind: Kind) -> bool
    ensures { result ≡ is_member kind }
{
    matches!(kind, Kind::MethodDefinition | Kind::Property)
}

/// Whether `this` in it is another than round it, functions aside.
pub(crate) fn has_own_this(kind: Kind) -> bool
    ensures { result ≡ has_own_this kind }
{
    matches!(kind, Kind::PropertyDefinition | Kind::StaticBlock)
}

/// Whether it is the kind of what has a list of statements.
pub(crate) fn is_list(kind: Kind) -> bool
    ensures { result ≡ is_list kind }
{
    matches!(
        kind,
        Kind::Program | Kind::BlockStatement | Kind::StaticBlock | Kind::SwitchCase
    )
}

/// Whether it is the kind of a block.
pub(crate) fn is_block(kind: Kind) -> bool
    ensures { result ≡ is_block kind }
{
    matches!(kind, Kind::BlockStatement)
}

/// Whether it is the kind of an `if`.
pub(crate) fn is_if(kind: Kind) -> bool
    ensures { result ≡ is_if kind }
{
    matches!(kind, Kind::IfStatement)
}

/// Whether it is the kind of a `switch`.
pub(crate) fn is_switch(kind: Kind) -> bool
    ensures { result ≡ is_switch kind }
{
    matches!(kind, Kind::SwitchStatement)
}

/// Whether it is the kind of a case.
pub(crate) fn is_case(kind: Kind) -> bool
    ensures { result ≡ is_case kind }
{
    matches!(kind, Kind::SwitchCase)
}

/// Whether it is the kind of a `try`.
pub(crate) fn is_try(kind: Kind) -> bool
    ensures { result ≡ is_try kind }
{
    matches!(kind, Kind::TryStatement)
}

/// Whether it is the kind of a `catch`.
pub(crate) fn is_catch(kind: Kind) -> bool
    ensures { result ≡ is_catch kind }
{
    matches!(kind, Kind::CatchClause)
}

/// Whether it is the kind of a `break`.
pub(crate) fn is_break(kind: Kind) -> bool
    ensures { result ≡ is_break kind }
{
    matches!(kind, Kind::BreakStatement)
}

/// Whether it is the kind of a `continue`.
pub(crate) fn is_continue(kind: Kind) -> bool
    ensures { result ≡ is_continue kind }
{
    matches!(kind, Kind::ContinueStatement)
}

/// Whether it is the kind of a `return`.
pub(crate) fn is_return(kind: Kind) -> bool
    ensures { result ≡ is_return kind }
{
    matches!(kind, Kind::ReturnStatement)
}

/// Whether it is the kind of a call.
pub(crate) fn is_call(kind: Kind) -> bool
    ensures { result ≡ is_call kind }
{
    matches!(kind, Kind::CallExpression)
}

/// Whether it is the kind of a member that is read or written.
pub(crate) fn is_member_expression(kind: Kind) -> bool
    ensures { result ≡ is_member_expression kind }
{
    matches!(kind, Kind::MemberExpression)
}

/// Whether it is the kind of `&&`, `||` or `??`.
pub(crate) fn is_logical(kind: Kind) -> bool
    ensures { result ≡ is_logical kind }
{
    matches!(kind, Kind::LogicalExpression)
}

/// Whether it is the kind of `? :`.
pub(crate) fn is_conditional(kind: Kind) -> bool
    ensures { result ≡ is_conditional kind }
{
    matches!(kind, Kind::ConditionalExpression)
}

/// Whether it is the kind of `this`.
pub(crate) fn is_this(kind: Kind) -> bool
    ensures { result ≡ is_this kind }
{
    matches!(kind, Kind::ThisExpression)
}

/// Whether it is the kind of a function or of the body of a class, which no jump leaves.
pub(crate) fn is_code(kind: Kind) -> bool
    ensures { result ≡ is_code kind }
{
    kind.is_function() || is_class_body(kind)
}
