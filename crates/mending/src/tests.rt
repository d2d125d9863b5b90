//! Tests of nodes that changes ask for.

ghost use Rattle.std.specs.Prelude.{◌≡◌, option_map, true};
ghost use Rattle.tree.specs.Node.{node_tree};
ghost use Rattle.mending.specs.Words.{has_bodies, has_statements, is_assignment, is_binary, is_block, is_identifier, is_if, is_init, is_literal, is_member, is_property, is_specifier, is_unary};
ghost use Rattle.mending.specs.Changes.{are_same_name, is_name_as_key, is_not, is_said_twice, is_text, without_default};

use crate::words::{inside, is_plain_name, is_quoted, kind_at, text_at};
use tree::{Flags, Form, Kind, Node};

/// Whether it is the kind of a node whose parts are a list of statements.
pub(crate) fn has_statements(kind: Kind) -> bool
    ensures { result ≡ has_statements kind }
{
    matches!(
        kind,
        Kind::Program | Kind::BlockStatement | Kind::StaticBlock | Kind::SwitchCase
    )
}

/// Whether it is the kind of a node that has statements as bodies.
pub(crate) fn has_bodies(kind: Kind) -> bool
    ensures { result ≡ has_bodies kind }
{
    matches!(
        kind,
        Kind::IfStatement
            | Kind::DoWhileStatement
            | Kind::WhileStatement
            | Kind::ForStatement
            | Kind::ForInStatement
            | Kind::ForOfStatement
    )
}

/// Whether it is the kind of a block.
pub(crate) fn is_block(kind: Kind) -> bool
    ensures { result ≡ is_block kind }
{
    matches!(kind, Kind::BlockStatement)
}

/// Whether it is the kind of a name.
pub(crate) fn is_identifier(kind: Kind) -> bool
    ensures { result ≡ is_identifier kind }
{
    matches!(kind, Kind::Identifier)
}

/// Whether it is the kind of a unary operator.
pub(crate) fn is_unary(kind: Kind) -> bool
    ensures { result ≡ is_unary kind }
{
    matches!(kind, Kind::UnaryExpression)
}

/// Whether it is the kind of an `if`.
pub(crate) fn is_if(kind: Kind) -> bool
    ensures { result ≡ is_if kind }
{
    matches!(kind, Kind::IfStatement)
}

/// Whether it is the kind of an assignment.
pub(crate) fn is_assignment(kind: Kind) -> bool
    ensures { result ≡ is_assignment kind }
{
    matches!(kind, Kind::AssignmentExpression)
}

/// Whether it is the kind of a member.
pub(crate) fn is_member(kind: Kind) -> bool
    ensures { result ≡ is_member kind }
{
    matches!(kind, Kind::MemberExpression)
}

/// Whether it is the kind of a binary operator.
pub(crate) fn is_binary(kind: Kind) -> bool
    ensures { result ≡ is_binary kind }
{
    matches!(kind, Kind::BinaryExpression)
}

/// Whether it is the kind of a literal.
pub(crate) fn is_literal(kind: Kind) -> bool
    ensures { result ≡ is_literal kind }
{
    matches!(kind, Kind::Literal)
}

/// Whether the value of a part is always a string.
pub(crate) fn is_text(part: Option<Node>) -> bool
    ensures { result ≡ is_text (option_map node_tree part.entry) }
{
    (is_unary(kind_at(part)) && text_at(part) == "typeof")
        || (is_literal(kind_at(part)) && is_quoted(text_at(part)))
}

/// Whether it is the plain form.
pub(crate) fn is_init(form: Form) -> bool
    ensures { result ≡ is_init form }
{
    matches!(form, Form::Init)
}

/// Whether a part is `!`.
pub(crate) fn is_not(part: Option<Node>) -> bool
    ensures { result ≡ is_not (option_map node_tree part.entry) }
{
    is_unary(kind_at(part)) && text_at(part) == "!"
}

/// What a property of a pattern binds or assigns, its default aside.
fn without_default<'t, 's>(part: Option<Node<'t, 's>>) -> Option<Node<'t, 's>>
    ensures { option_map node_tree result ≡ without_default (option_map node_tree part.entry) }
{
    let Some(node) = part else {
        return None;
    };
    match node.kind() {
        Kind::AssignmentPattern => node.part(0),
        _ => part,
    }
}

/// Whether two parts are one name.
pub(crate) fn are_same_name(one: Option<Node>, other: Option<Node>) -> bool
    ensures { result ≡ are_same_name (option_map node_tree one.entry) (option_map node_tree other.entry) }
{
    is_identifier(kind_at(one)) && is_identifier(kind_at(other)) && text_at(one) == text_at(other)
}

/// Whether a property or specifier says one name twice.
pub(crate) fn is_said_twice(node: Node) -> bool
    ensures { result ≡ is_said_twice (node_tree node.entry) }
{
    !node.flags().computed
        && is_init(node.flags().form)
        && are_same_name(node.part(0), without_default(node.part(1)))
}

/// Whether a key in brackets is a string that could stand behind a dot.
pub(crate) fn is_name_as_key(key: Node) -> bool
    ensures { result ≡ is_name_as_key (node_tree key.entry) }
{
    is_literal(key.kind()) && is_quoted(key.text()) && is_plain_name(inside(key.text()))
}

/// Whether two kinds are the same.
#[tactic(auto, using(tree::proofs::KindsEqual::kinds_equal))]
pub(crate) fn is_kind(kind: Kind, other: Kind) -> bool
    ensures { result ≡ true → kind ≡ other }
{
    kind == other
}

/// Whether flags are the same.
#[tactic(auto, using(tree::proofs::FlagsEqual::flags_equal))]
pub(crate) fn are_flags(flags: Flags, others: Flags) -> bool
    ensures { result ≡ true → flags ≡ others }
{
    flags == others
}
