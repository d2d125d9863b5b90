//! Imports and exports.

ghost use Rattle.std.specs.Prelude.{◌≡◌, option_map};
ghost use Rattle.tree.specs.Tree.{kind_of};
ghost use Rattle.tree.specs.Node.{node_tree};
ghost use Rattle.typed_nodes.specs.Modules.{module_item_of, module_item_by, module_item_seen, specifier_of, specifier_by, specifier_seen};

use crate::arity::is_whole;
use tree::{Kind, Node, NodeList};

/// An import or an export: an item of a module.
#[derive(Clone, Copy)]
pub enum ModuleItem<'t, 's> {
    Import {
        /// Specifiers; those of `import "a"` are none.
        specifiers: NodeList<'t, 's>,
        source: Node<'t, 's>,
    },
    /// A declaration, or specifiers.
    ExportNamed {
        declaration: Option<Node<'t, 's>>,
        specifiers: NodeList<'t, 's>,
        source: Option<Node<'t, 's>>,
    },
    /// A function or a class, whose name may be missing, or an expression.
    ExportDefault {
        declaration: Node<'t, 's>,
    },
    ExportAll {
        /// The name behind `as`.
        exported: Option<Node<'t, 's>>,
        source: Node<'t, 's>,
    },
}

/// What an import binds, or an export names.
#[derive(Clone, Copy)]
pub enum Specifier<'t, 's> {
    /// Where one name stands, it is both.
    Import {
        imported: Node<'t, 's>,
        local: Node<'t, 's>,
    },
    ImportDefault {
        local: Node<'t, 's>,
    },
    ImportNamespace {
        local: Node<'t, 's>,
    },
    /// Where one name stands, it is both.
    Export {
        local: Node<'t, 's>,
        exported: Node<'t, 's>,
    },
}

impl<'t, 's> ModuleItem<'t, 's> {
    /// The node as an import or an export; none where it is of another kind, or hasn't the parts of its kind.
    pub fn of(node: Node<'t, 's>) -> Option<ModuleItem<'t, 's>>
        ensures { option_map module_item_seen result ≡ module_item_of (node_tree node.entry) }
    {
        if is_whole(node) {
            return any_module_item(node);
        }
        None
    }
}

impl<'t, 's> Specifier<'t, 's> {
    /// The node as a specifier; none where it is of another kind, or hasn't the parts of its kind.
    pub fn of(node: Node<'t, 's>) -> Option<Specifier<'t, 's>>
        ensures { option_map specifier_seen result ≡ specifier_of (node_tree node.entry) }
    {
        if is_whole(node) {
            return any_specifier(node);
        }
        None
    }
}

/// The import or export that the node is, whatever parts it has; none if one is missing that it must have.
fn any_module_item<'t, 's>(node: Node<'t, 's>) -> Option<ModuleItem<'t, 's>>
    ensures { option_map module_item_seen result ≡ module_item_by (kind_of (node_tree node.entry)) (node_tree node.entry) }
{
    let parts = node.parts();
    let behind = parts.skip(1);
    match (node.kind(), node.part(0), node.part(1), parts.last()) {
        (Kind::ImportDeclaration, _, _, Some(source)) => Some(ModuleItem::Import {
            specifiers: parts.without_last(),
            source,
        }),
        (Kind::ExportNamedDeclaration, declaration, _, _) => Some(ModuleItem::ExportNamed {
            declaration,
            specifiers: behind.without_last(),
            source: behind.last(),
        }),
        (Kind::ExportDefaultDeclaration, Some(declaration), _, _) => {
            Some(ModuleItem::ExportDefault { declaration })
        }
        (Kind::ExportAllDeclaration, exported, Some(source), _) => {
            Some(ModuleItem::ExportAll { exported, source })
        }
        _ => None,
    }
}

/// The specifier that the node is, whatever parts it has; none if the first is missing.
fn any_specifier<'t, 's>(node: Node<'t, 's>) -> Option<Specifier<'t, 's>>
    ensures { option_map specifier_seen result ≡ specifier_by (kind_of (node_tree node.entry)) (node_tree node.entry) }
{
    let first = node.part(0)?;
    let second = match node.part(1) {
        Some(second) => second,
        None => first,
    };
    match node.kind() {
        Kind::ImportSpecifier => Some(Specifier::Import {
            imported: first,
            local: second,
        }),
        Kind::ImportDefaultSpecifier => Some(Specifier::ImportDefault { local: first }),
        Kind::ImportNamespaceSpecifier => Some(Specifier::ImportNamespace { local: first }),
        Kind::ExportSpecifier => Some(Specifier::Export {
            local: first,
            exported: second,
        }),
        _ => None,
    }
}
