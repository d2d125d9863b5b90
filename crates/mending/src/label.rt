//! What changes make of a node that stays, with other words.

ghost use Rattle.std.specs.Prelude.{◌≡◌, ◌∷◌, [], IfSome, Some, true, codes};
ghost use Rattle.tree.specs.Node.{node_tree};
ghost use Rattle.tree.specs.Tree.{flags_of, text_of};
ghost use Rattle.mending.specs.declared.change.MendRule.TheVariants.{EqEqEq, NoUselessComputedKey, NoUselessRename, ObjectShorthand, PreferConst};
ghost use Rattle.mending.specs.Changes.{change, shortened};
ghost use Rattle.mending.specs.Making.{Leads, labelled};

use crate::asked::is_asked;
use crate::change::{Change, MendRule};
use crate::plan::rules_at;
use crate::tests::{is_literal, is_said_twice, is_text};
use crate::words::{is_string, kind_at, text_at};
use tree::{Flags, Form, Kind, Node};

/// What a node is but for its kind, and from which of its parts on they stay.
#[derive(Clone, Copy)]
pub(crate) struct Label<'t> {
    pub text: &'t str,
    pub flags: Flags,
    pub first: usize,
}

impl<'t> Label<'t> {
    /// A node's own.
    pub(crate) fn of(node: Node<'t, '_>) -> Label<'t>
        ensures text { result.text.now ≡ text_of (node_tree node.entry) }
        ensures flags { result.flags ≡ flags_of (node_tree node.entry) }
        ensures first { result.first ≡ 0 }
    {
        Label {
            text: node.text(),
            flags: node.flags(),
            first: 0,
        }
    }
}

/// The label of an equality whose sides are strings.
pub(crate) fn strict_label<'t>(node: Node<'t, '_>) -> Option<Label<'t>>
    ensures { IfSome result (λ label. Some (labelled (node_tree node.entry) label) ≡ change EqEqEq (node_tree node.entry)) }
{
    let Kind::BinaryExpression = node.kind() else {
        return None;
    };
    if !is_text(node.part(0)) || !is_text(node.part(1)) {
        return None;
    }
    let text = match node.text() {
        "==" => "===",
        "!=" => "!==",
        _ => return None,
    };
    Some(Label {
        text,
        flags: node.flags(),
        first: 0,
    })
}

/// The label of a `let`.
pub(crate) fn const_label<'t>(node: Node<'t, '_>) -> Option<Label<'t>>
    ensures { IfSome result (λ label. Some (labelled (node_tree node.entry) label) ≡ change PreferConst (node_tree node.entry)) }
{
    let Kind::VariableDeclaration = node.kind() else {
        return None;
    };
    if node.text() != "let" {
        return None;
    }
    Some(Label {
        text: "const",
        flags: node.flags(),
        first: 0,
    })
}

/// The label of a property with a literal in brackets.
pub(crate) fn key_label<'t>(node: Node<'t, '_>) -> Option<Label<'t>>
    ensures { IfSome result (λ label. Some (labelled (node_tree node.entry) label) ≡ change NoUselessComputedKey (node_tree node.entry)) }
{
    let Kind::Property = node.kind() else {
        return None;
    };
    let flags = node.flags();
    if !flags.computed || !is_literal(kind_at(node.part(0))) {
        return None;
    }
    if is_string(node.part(0), "__proto__") {
        return None;
    }
    Some(Label {
        text: node.text(),
        flags: Flags {
            computed: false,
            ..flags
        },
        first: 0,
    })
}

/// The label of a node that says one name twice.
fn short_label<'t>(node: Node<'t, '_>) -> Label<'t>
    ensures { labelled (node_tree node.entry) result ≡ shortened (node_tree node.entry) }
{
    let first = match node.kind() {
        Kind::Property => 0,
        _ => 1,
    };
    Label {
        text: node.text(),
        flags: Flags {
            form: Form::Shorthand,
            ..node.flags()
        },
        first,
    }
}

/// The label of a property of a pattern, or of a specifier, that says one name twice.
pub(crate) fn renamed_label<'t>(node: Node<'t, '_>) -> Option<Label<'t>>
    ensures { IfSome result (λ label. Some (labelled (node_tree node.entry) label) ≡ change NoUselessRename (node_tree node.entry)) }
{
    match node.kind() {
        Kind::Property | Kind::ImportSpecifier | Kind::ExportSpecifier => {}
        _ => return None,
    }
    if !is_said_twice(node) {
        return None;
    }
    Some(short_label(node))
}

/// The label of a property of an object that says one name twice.
pub(crate) fn shorthand_label<'t>(node: Node<'t, '_>) -> Option<Label<'t>>
    ensures { IfSome result (λ label. Some (labelled (node_tree node.entry) label) ≡ change ObjectShorthand (node_tree node.entry)) }
{
    let Kind::Property = node.kind() else {
        return None;
    };
    if !is_said_twice(node) || text_at(node.part(0)) == "__proto__" {
        return None;
    }
    Some(short_label(node))
}

/// The label that a rule's change gives a node.
pub(crate) fn label_by<'t>(rule: MendRule, node: Node<'t, '_>) -> Option<Label<'t>>
    ensures { IfSome result (λ label. Some (labelled (node_tree node.entry) label) ≡ change rule (node_tree node.entry)) }
{
    match rule {
        MendRule::EqEqEq => strict_label(node),
        MendRule::NoUselessComputedKey => key_label(node),
        MendRule::NoUselessRename => renamed_label(node),
        MendRule::ObjectShorthand => shorthand_label(node),
        MendRule::PreferConst => const_label(node),
        _ => None,
    }
}

/// The label that the changes give a node.
pub(crate) fn label_of<'t>(node: Node<'t, '_>, changes: &[Change]) -> Label<'t>
    ensures { Leads changes.now (node_tree node.entry) (labelled (node_tree node.entry) result) }
{
    for rule in rules_at(node.kind()) {
        if !is_asked(*rule, node, changes) {
            continue;
        }
        if let Some(label) = label_by(*rule, node) {
            return label;
        }
    }
    Label::of(node)
}
