//! Parts of expressions and statements that are neither.

ghost use Rattle.std.specs.Prelude.{◌≡◌, option_map};
ghost use Rattle.tree.specs.Node.{node_tree};
ghost use Rattle.typed_nodes.specs.Pieces.{property_of, property_seen, spread_of, spread_seen, chunk_of, chunk_seen, members_of, members_seen, method_of, method_seen, declarator_of, declarator_seen, switch_case_of, switch_case_seen, catch_clause_of, catch_clause_seen};

use crate::arity::is_whole;
use tree::{Form, Kind, Node, NodeList};

/// A property of an object or of a pattern.
#[derive(Clone, Copy)]
pub struct Property<'t, 's> {
    pub key: Node<'t, 's>,
    /// An expression; in a pattern an element of one. In shorthand the name again, in a pattern perhaps with its default.
    pub value: Node<'t, 's>,
    /// `Init`, `Get`, `Set`, `Method` or `Shorthand`.
    pub form: Form,
    pub computed: bool,
}

impl<'t, 's> Property<'t, 's> {
    /// The node as a property; none where it is of another kind, or hasn't the parts of its kind.
    pub fn of(node: Node<'t, 's>) -> Option<Property<'t, 's>>
        ensures { option_map property_seen result ≡ property_of (node_tree node.entry) }
    {
        if !is_whole(node) {
            return None;
        }
        match (node.kind(), node.part(0), node.part(1)) {
            (Kind::Property, Some(key), Some(value)) => {
                let flags = node.flags();
                Some(Property {
                    key,
                    value,
                    form: flags.form,
                    computed: flags.computed,
                })
            }
            _ => None,
        }
    }
}

/// A spread element of an array, an object or arguments.
#[derive(Clone, Copy)]
pub struct SpreadElement<'t, 's> {
    pub argument: Node<'t, 's>,
}

impl<'t, 's> SpreadElement<'t, 's> {
    /// The node as a spread element; none where it is of another kind, or hasn't the parts of its kind.
    pub fn of(node: Node<'t, 's>) -> Option<SpreadElement<'t, 's>>
        ensures { option_map spread_seen result ≡ spread_of (node_tree node.entry) }
    {
        if !is_whole(node) {
            return None;
        }
        match (node.kind(), node.part(0)) {
            (Kind::SpreadElement, Some(argument)) => { Some(SpreadElement { argument }) }
            _ => None,
        }
    }
}

/// What stands between the substitutions of a template.
#[derive(Clone, Copy)]
pub struct TemplateElement<'t> {
    /// The raw value.
    pub raw: &'t str,
}

impl<'t> TemplateElement<'t> {
    /// The node as a part of a template; none where it is of another kind, or hasn't the parts of its kind.
    pub fn of(node: Node<'t, '_>) -> Option<TemplateElement<'t>>
        ensures { option_map chunk_seen result ≡ chunk_of (node_tree node.entry) }
    {
        if !is_whole(node) {
            return None;
        }
        match node.kind() {
            Kind::TemplateElement => { Some(TemplateElement { raw: node.text() }) }
            _ => None,
        }
    }
}

/// The members of a class.
#[derive(Clone, Copy)]
pub struct ClassBody<'t, 's> {
    /// Methods, fields and static blocks.
    pub body: NodeList<'t, 's>,
}

impl<'t, 's> ClassBody<'t, 's> {
    /// The node as the body of a class; none where it is of another kind, or hasn't the parts of its kind.
    pub fn of(node: Node<'t, 's>) -> Option<ClassBody<'t, 's>>
        ensures { option_map members_seen result ≡ members_of (node_tree node.entry) }
    {
        if !is_whole(node) {
            return None;
        }
        match node.kind() {
            Kind::ClassBody => { Some(ClassBody { body: node.parts() }) }
            _ => None,
        }
    }
}

/// A method of a class.
#[derive(Clone, Copy)]
pub struct MethodDefinition<'t, 's> {
    pub key: Node<'t, 's>,
    /// A FunctionExpression.
    pub value: Node<'t, 's>,
    /// `Get`, `Set`, `Method` or `Constructor`.
    pub form: Form,
    pub computed: bool,
    pub is_static: bool,
}

impl<'t, 's> MethodDefinition<'t, 's> {
    /// The node as a method; none where it is of another kind, or hasn't the parts of its kind.
    pub fn of(node: Node<'t, 's>) -> Option<MethodDefinition<'t, 's>>
        ensures { option_map method_seen result ≡ method_of (node_tree node.entry) }
    {
        if !is_whole(node) {
            return None;
        }
        match (node.kind(), node.part(0), node.part(1)) {
            (Kind::MethodDefinition, Some(key), Some(value)) => {
                let flags = node.flags();
                Some(MethodDefinition {
                    key,
                    value,
                    form: flags.form,
                    computed: flags.computed,
                    is_static: flags.is_static,
                })
            }
            _ => None,
        }
    }
}

/// What is declared, with its initialiser.
#[derive(Clone, Copy)]
pub struct VariableDeclarator<'t, 's> {
    /// A pattern.
    pub id: Node<'t, 's>,
    pub init: Option<Node<'t, 's>>,
}

impl<'t, 's> VariableDeclarator<'t, 's> {
    /// The node as what is declared; none where it is of another kind, or hasn't the parts of its kind.
    pub fn of(node: Node<'t, 's>) -> Option<VariableDeclarator<'t, 's>>
        ensures { option_map declarator_seen result ≡ declarator_of (node_tree node.entry) }
    {
        if !is_whole(node) {
            return None;
        }
        match (node.kind(), node.part(0), node.part(1)) {
            (Kind::VariableDeclarator, Some(id), init) => { Some(VariableDeclarator { id, init }) }
            _ => None,
        }
    }
}

/// A case of a `switch`.
#[derive(Clone, Copy)]
pub struct SwitchCase<'t, 's> {
    /// None for `default`.
    pub test: Option<Node<'t, 's>>,
    pub consequent: NodeList<'t, 's>,
}

impl<'t, 's> SwitchCase<'t, 's> {
    /// The node as a case; none where it is of another kind, or hasn't the parts of its kind.
    pub fn of(node: Node<'t, 's>) -> Option<SwitchCase<'t, 's>>
        ensures { option_map switch_case_seen result ≡ switch_case_of (node_tree node.entry) }
    {
        if !is_whole(node) {
            return None;
        }
        match node.kind() {
            Kind::SwitchCase => {
                Some(SwitchCase {
                    test: node.part(0),
                    consequent: node.parts().skip(1),
                })
            }
            _ => None,
        }
    }
}

/// The handler of a `try`.
#[derive(Clone, Copy)]
pub struct CatchClause<'t, 's> {
    /// A pattern.
    pub param: Option<Node<'t, 's>>,
    /// A BlockStatement.
    pub body: Node<'t, 's>,
}

impl<'t, 's> CatchClause<'t, 's> {
    /// The node as a handler; none where it is of another kind, or hasn't the parts of its kind.
    pub fn of(node: Node<'t, 's>) -> Option<CatchClause<'t, 's>>
        ensures { option_map catch_clause_seen result ≡ catch_clause_of (node_tree node.entry) }
    {
        if !is_whole(node) {
            return None;
        }
        match (node.kind(), node.part(0), node.part(1)) {
            (Kind::CatchClause, param, Some(body)) => { Some(CatchClause { param, body }) }
            _ => None,
        }
    }
}
