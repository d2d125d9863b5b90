//! Which views a node has, and the fields of one of each.

use crate::print::word;
use std::alloc::AllocError;
use tree::Node;
use typed_nodes::{
    Class, Expression, Function, ModuleItem, Pattern, PrivateIdentifier, PropertyDefinition,
    Specifier, Statement, StaticBlock,
};

/// Whether a node is an expression, a pattern and a statement.
fn push_seen(node: Node, out: &mut String) -> Result<(), AllocError> {
    let expression = Expression::of(node).is_some();
    let pattern = Pattern::of(node).is_some();
    let statement = Statement::of(node).is_some();
    write!(out, "{:?}", (expression, pattern, statement))
}

/// Whether a node is an expression, a pattern and a statement, and whether it is a function and a class.
fn push_all_seen(node: Node, out: &mut String) -> Result<(), AllocError> {
    push_seen(node, out)?;
    let found = (Function::of(node).is_some(), Class::of(node).is_some());
    write!(out, "{found:?}")
}

/// The text of a part that may be missing.
fn name<'t>(part: Option<Node<'t, '_>>) -> &'t str {
    match part {
        Some(part) => part.text(),
        None => "_",
    }
}

/// Three parts by their texts, and two flags.
fn push_fields(
    parts: (Option<Node>, Option<Node>, Option<Node>),
    flags: (bool, bool),
    out: &mut String,
) -> Result<(), AllocError> {
    let (first, second, third) = parts;
    write!(out, "{:?}", (name(first), name(second), name(third), flags))
}

/// The views of a node, or the fields of one.
pub(crate) fn push_views(call: &str, node: Node, out: &mut String) -> Result<(), AllocError> {
    match call {
        "function" => push_function(node, out),
        "class" => push_class(node, out),
        "call" => push_call(node, out),
        "target" => push_target(node, out),
        "if" => push_if(node, out),
        "forms" => push_forms(node, out),
        "yield" => push_yield(node, out),
        "element" => push_element(node, out),
        "module item" => push_module_item(node, out),
        "specifier" => push_specifier(node, out),
        _ => push_all_seen(node, out),
    }
}

/// Its name, the last of its parameters and its body; whether it is an arrow, and whether the body is an expression.
fn push_function(node: Node, out: &mut String) -> Result<(), AllocError> {
    match Function::of(node) {
        Some(view) => {
            let parts = (view.id, view.params.last(), Some(view.body));
            push_fields(parts, (view.is_arrow, view.expression), out)
        }
        None => Ok(()),
    }
}

/// Its name, what stands behind `extends`, and its body.
fn push_class(node: Node, out: &mut String) -> Result<(), AllocError> {
    match Class::of(node) {
        Some(view) => {
            let parts = (view.id, view.super_class, Some(view.body));
            push_fields(parts, (false, false), out)
        }
        None => Ok(()),
    }
}

/// What is called, its first two arguments, and whether it is optional.
fn push_call(node: Node, out: &mut String) -> Result<(), AllocError> {
    match Expression::of(node) {
        Some(
            Expression::Call {
                callee,
                arguments,
                optional,
            },
        ) => {
            let parts = (Some(callee), arguments.get(0), arguments.get(1));
            push_fields(parts, (optional, false), out)
        }
        _ => Ok(()),
    }
}

/// The object and the property of a member that is assigned to, and whether it is computed.
fn push_target(node: Node, out: &mut String) -> Result<(), AllocError> {
    match Pattern::of(node) {
        Some(
            Pattern::Member {
                object,
                property,
                computed,
            },
        ) => push_fields((Some(object), Some(property), None), (computed, false), out),
        _ => Ok(()),
    }
}

/// The test and both branches.
fn push_if(node: Node, out: &mut String) -> Result<(), AllocError> {
    match Statement::of(node) {
        Some(
            Statement::If {
                test,
                consequent,
                alternate,
            },
        ) => push_fields(
            (Some(test), Some(consequent), alternate),
            (false, false),
            out,
        ),
        _ => Ok(()),
    }
}

/// Whether a function is a generator, and whether it is async; or whether a `for` over a list awaits its values.
fn push_forms(node: Node, out: &mut String) -> Result<(), AllocError> {
    match (Function::of(node), Statement::of(node)) {
        (Some(view), _) => write!(out, "{:?}", (view.generator, view.is_async)),
        (_, Some(Statement::ForOf { is_await, .. })) => write!(out, "{is_await}"),
        _ => Ok(()),
    }
}

/// What a `yield` gives or an `await` waits for, and whether it is `yield*`.
fn push_yield(node: Node, out: &mut String) -> Result<(), AllocError> {
    match Expression::of(node) {
        Some(Expression::Yield { argument, delegate }) => {
            push_fields((argument, None, None), (delegate, false), out)
        }
        Some(Expression::Await { argument }) => {
            push_fields((Some(argument), None, None), (false, false), out)
        }
        _ => Ok(()),
    }
}

/// The key and the value of a field, and whether it is static and computed; the last item of a static block; a private name.
fn push_element(node: Node, out: &mut String) -> Result<(), AllocError> {
    if let Some(view) = PropertyDefinition::of(node) {
        let parts = (Some(view.key), view.value, None);
        return push_fields(parts, (view.is_static, view.computed), out);
    }
    if let Some(view) = StaticBlock::of(node) {
        return push_fields((view.body.last(), None, None), (false, false), out);
    }
    match PrivateIdentifier::of(node) {
        Some(view) => out.push_str(view.name),
        None => Ok(()),
    }
}

/// What is declared or the name behind `as`, the last specifier, and the name of the module.
fn push_module_item(node: Node, out: &mut String) -> Result<(), AllocError> {
    let parts = match ModuleItem::of(node) {
        Some(ModuleItem::Import { specifiers, source }) => (None, specifiers.last(), Some(source)),
        Some(
            ModuleItem::ExportNamed {
                declaration,
                specifiers,
                source,
            },
        ) => (declaration, specifiers.last(), source),
        Some(ModuleItem::ExportDefault { declaration }) => (Some(declaration), None, None),
        Some(ModuleItem::ExportAll { exported, source }) => (exported, None, Some(source)),
        None => return Ok(()),
    };
    push_fields(parts, (false, false), out)
}

/// Both names of a specifier, the one on its left side first.
fn push_specifier(node: Node, out: &mut String) -> Result<(), AllocError> {
    let parts = match Specifier::of(node) {
        Some(Specifier::Import { imported, local }) => (Some(imported), Some(local), None),
        Some(Specifier::ImportDefault { local }) => (None, Some(local), None),
        Some(Specifier::ImportNamespace { local }) => (None, Some(local), None),
        Some(Specifier::Export { local, exported }) => (Some(local), Some(exported), None),
        None => return Ok(()),
    };
    push_fields(parts, (false, false), out)
}
