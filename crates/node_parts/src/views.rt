//! Nodes as what they are.

ghost use Rattle.std.specs.Prelude.{◌+◌, ◌<◌, IfSome};
ghost use Rattle.node_parts.specs.Sizes.{size, optional_size, list_size, function_size, class_size, statement_size, expression_size, pattern_size, module_size};

use tree::Node;
use typed_nodes::{
    CatchClause, Class, ClassBody, Expression, Function, MethodDefinition, ModuleItem, Pattern,
    Property, PropertyDefinition, SpreadElement, Statement, StaticBlock, SwitchCase,
    VariableDeclarator,
};

/// The node as a statement or a declaration.
pub fn statement_of<'t, 's>(node: Node<'t, 's>) -> Option<Statement<'t, 's>>
    ensures { IfSome result (λ view. statement_size view < size node.entry) }
{
    Statement::of(node)
}

/// The node as an expression.
pub fn expression_of<'t, 's>(node: Node<'t, 's>) -> Option<Expression<'t, 's>>
    ensures { IfSome result (λ view. expression_size view < size node.entry) }
{
    Expression::of(node)
}

/// The node as a pattern or a target.
pub fn pattern_of<'t, 's>(node: Node<'t, 's>) -> Option<Pattern<'t, 's>>
    ensures { IfSome result (λ view. pattern_size view < size node.entry) }
{
    Pattern::of(node)
}

/// The node as an import or an export.
pub fn module_item_of<'t, 's>(node: Node<'t, 's>) -> Option<ModuleItem<'t, 's>>
    ensures { IfSome result (λ view. module_size view < size node.entry) }
{
    ModuleItem::of(node)
}

/// The node as a function.
pub fn function_of<'t, 's>(node: Node<'t, 's>) -> Option<Function<'t, 's>>
    ensures { IfSome result (λ view. function_size view < size node.entry) }
{
    Function::of(node)
}

/// The node as a class.
pub fn class_of<'t, 's>(node: Node<'t, 's>) -> Option<Class<'t, 's>>
    ensures { IfSome result (λ view. class_size view < size node.entry) }
{
    Class::of(node)
}

/// The node as the body of a class.
pub fn class_body_of<'t, 's>(node: Node<'t, 's>) -> Option<ClassBody<'t, 's>>
    ensures { IfSome result (λ view. list_size view.body < size node.entry) }
{
    ClassBody::of(node)
}

/// The node as a static block.
pub fn static_block_of<'t, 's>(node: Node<'t, 's>) -> Option<StaticBlock<'t, 's>>
    ensures { IfSome result (λ view. list_size view.body < size node.entry) }
{
    StaticBlock::of(node)
}

/// The node as a method of a class.
pub fn method_of<'t, 's>(node: Node<'t, 's>) -> Option<MethodDefinition<'t, 's>>
    ensures { IfSome result (λ view. size view.key + size view.value < size node.entry) }
{
    MethodDefinition::of(node)
}

/// The node as a field of a class.
pub fn property_definition_of<'t, 's>(node: Node<'t, 's>) -> Option<PropertyDefinition<'t, 's>>
    ensures { IfSome result (λ view. size view.key + optional_size view.value < size node.entry) }
{
    PropertyDefinition::of(node)
}

/// The node as a property.
pub fn property_of<'t, 's>(node: Node<'t, 's>) -> Option<Property<'t, 's>>
    ensures { IfSome result (λ view. size view.key + size view.value < size node.entry) }
{
    Property::of(node)
}

/// The node as a spread element.
pub fn spread_of<'t, 's>(node: Node<'t, 's>) -> Option<SpreadElement<'t, 's>>
    ensures { IfSome result (λ view. size view.argument < size node.entry) }
{
    SpreadElement::of(node)
}

/// The node as a declarator.
pub fn declarator_of<'t, 's>(node: Node<'t, 's>) -> Option<VariableDeclarator<'t, 's>>
    ensures { IfSome result (λ view. size view.id + optional_size view.init < size node.entry) }
{
    VariableDeclarator::of(node)
}

/// The node as a case of a `switch`.
pub fn case_of<'t, 's>(node: Node<'t, 's>) -> Option<SwitchCase<'t, 's>>
    ensures { IfSome result (λ view. optional_size view.test + list_size view.consequent < size node.entry) }
{
    SwitchCase::of(node)
}

/// The node as what a `catch` has.
pub fn catch_of<'t, 's>(node: Node<'t, 's>) -> Option<CatchClause<'t, 's>>
    ensures { IfSome result (λ view. optional_size view.param + size view.body < size node.entry) }
{
    CatchClause::of(node)
}
