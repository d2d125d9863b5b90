//! Elements of classes that are no methods, and private names.

ghost use Rattle.std.specs.Prelude.{◌≡◌, option_map};
ghost use Rattle.tree.specs.Node.{node_tree};
ghost use Rattle.typed_nodes.specs.ClassElements.{property_definition_of, property_definition_seen, static_block_of, static_block_seen, private_identifier_of, private_identifier_seen};

use crate::arity::is_whole;
use tree::{Kind, Node, NodeList};

/// A field of a class.
#[derive(Clone, Copy)]
pub struct PropertyDefinition<'t, 's> {
    pub key: Node<'t, 's>,
    pub value: Option<Node<'t, 's>>,
    pub is_static: bool,
    pub computed: bool,
}

impl<'t, 's> PropertyDefinition<'t, 's> {
    /// The node as a field; none where it is of another kind, or hasn't the parts of its kind.
    pub fn of(node: Node<'t, 's>) -> Option<PropertyDefinition<'t, 's>>
        ensures { option_map property_definition_seen result ≡ property_definition_of (node_tree node.entry) }
    {
        if !is_whole(node) {
            return None;
        }
        match (node.kind(), node.part(0)) {
            (Kind::PropertyDefinition, Some(key)) => {
                let flags = node.flags();
                Some(PropertyDefinition {
                    key,
                    value: node.part(1),
                    is_static: flags.is_static,
                    computed: flags.computed,
                })
            }
            _ => None,
        }
    }
}

/// A static block of a class.
#[derive(Clone, Copy)]
pub struct StaticBlock<'t, 's> {
    /// Statements and declarations.
    pub body: NodeList<'t, 's>,
}

impl<'t, 's> StaticBlock<'t, 's> {
    /// The node as a static block; none where it is of another kind, or hasn't the parts of its kind.
    pub fn of(node: Node<'t, 's>) -> Option<StaticBlock<'t, 's>>
        ensures { option_map static_block_seen result ≡ static_block_of (node_tree node.entry) }
    {
        if !is_whole(node) {
            return None;
        }
        match node.kind() {
            Kind::StaticBlock => { Some(StaticBlock { body: node.parts() }) }
            _ => None,
        }
    }
}

/// A private name: a key of a class, the property of a member, or the left side of `in`.
#[derive(Clone, Copy)]
pub struct PrivateIdentifier<'t> {
    /// Without `#`.
    pub name: &'t str,
}

impl<'t> PrivateIdentifier<'t> {
    /// The node as a private name; none where it is of another kind, or hasn't the parts of its kind.
    pub fn of(node: Node<'t, '_>) -> Option<PrivateIdentifier<'t>>
        ensures { option_map private_identifier_seen result ≡ private_identifier_of (node_tree node.entry) }
    {
        if !is_whole(node) {
            return None;
        }
        match node.kind() {
            Kind::PrivateIdentifier => { Some(PrivateIdentifier { name: node.text() }) }
            _ => None,
        }
    }
}
