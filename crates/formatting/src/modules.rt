//! Imports and exports.

use crate::expressions::expression;
use crate::statements::statement;
use item_builder::Builder;
use layout_choices::{braces, from, import};
use node_parts::module_item_of;
use tree::{Kind, Node};
use typed_nodes::ModuleItem;

#[cycle(items)]
pub(crate) fn module_item<'t>(b: &mut Builder<'t>, node: Node<'_, '_>) {
    match module_item_of(node) {
        Some(ModuleItem::Import { specifiers, .. }) => import(b, specifiers),
        Some(
            ModuleItem::ExportNamed {
                declaration,
                specifiers,
                source,
            },
        ) => {
            b.token("export");
            b.space();
            if let Some(declared) = declaration {
                statement(b, declared);
                return;
            }
            braces(b, specifiers);
            if source.is_some() {
                from(b);
            }
            b.semicolon();
        }
        Some(ModuleItem::ExportDefault { declaration }) => export_default(b, declaration),
        Some(ModuleItem::ExportAll { exported, .. }) => {
            b.token("export");
            b.space();
            b.token("*");
            if exported.is_some() {
                b.space();
                b.token("as");
                b.space();
                b.any_token();
            }
            from(b);
            b.semicolon();
        }
        None => b.lose(),
    }
}

#[cycle(items)]
fn export_default<'t>(b: &mut Builder<'t>, node: Node<'_, '_>) {
    b.token("export");
    b.space();
    b.token("default");
    b.space();
    if matches!(
        node.kind(),
        Kind::FunctionDeclaration | Kind::ClassDeclaration
    ) {
        statement(b, node);
        return;
    }
    expression(b, node);
    b.semicolon();
}
