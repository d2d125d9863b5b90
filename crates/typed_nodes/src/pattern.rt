//! Patterns and targets.

ghost use Rattle.std.specs.Prelude.{◌≡◌, option_map};
ghost use Rattle.tree.specs.Tree.{kind_of};
ghost use Rattle.tree.specs.Node.{node_tree};
ghost use Rattle.typed_nodes.specs.Patterns.{pattern_of, pattern_by, pattern_seen};

use crate::arity::is_whole;
use tree::{Kind, Node, NodeList};

/// A pattern, or a target in one.
#[derive(Clone, Copy)]
pub enum Pattern<'t, 's> {
    Identifier {
        name: &'t str,
    },
    /// The object is an expression or `super`; no target is in an optional chain.
    Member {
        object: Node<'t, 's>,
        property: Node<'t, 's>,
        computed: bool,
    },
    /// Patterns and, for holes, gaps.
    Array {
        elements: NodeList<'t, 's>,
    },
    /// Properties, the last perhaps a rest element.
    Object {
        properties: NodeList<'t, 's>,
    },
    /// A pattern with its default.
    Assignment {
        left: Node<'t, 's>,
        right: Node<'t, 's>,
    },
    Rest {
        argument: Node<'t, 's>,
    },
}

impl<'t, 's> Pattern<'t, 's> {
    /// The node as a pattern; none where it is of another kind, or hasn't the parts of its kind.
    pub fn of(node: Node<'t, 's>) -> Option<Pattern<'t, 's>>
        ensures { option_map pattern_seen result ≡ pattern_of (node_tree node.entry) }
    {
        if is_whole(node) {
            return any_pattern(node);
        }
        None
    }
}

/// The pattern that the node is, whatever parts it has; none if one is missing that it must have.
fn any_pattern<'t, 's>(node: Node<'t, 's>) -> Option<Pattern<'t, 's>>
    ensures { option_map pattern_seen result ≡ pattern_by (kind_of (node_tree node.entry)) (node_tree node.entry) }
{
    match (node.kind(), node.part(0), node.part(1)) {
        (Kind::Identifier, _, _) => Some(Pattern::Identifier { name: node.text() }),
        (Kind::MemberExpression, Some(object), Some(property)) => {
            let flags = node.flags();
            Some(Pattern::Member {
                object,
                property,
                computed: flags.computed,
            })
        }
        (Kind::ArrayPattern, _, _) => Some(Pattern::Array {
            elements: node.parts(),
        }),
        (Kind::ObjectPattern, _, _) => Some(Pattern::Object {
            properties: node.parts(),
        }),
        (Kind::AssignmentPattern, Some(left), Some(right)) => {
            Some(Pattern::Assignment { left, right })
        }
        (Kind::RestElement, Some(argument), _) => Some(Pattern::Rest { argument }),
        _ => None,
    }
}
