//! Nodes of which rules say nothing, with all that stands in them: the walk passes them by.

ghost use Rattle.std.specs.Prelude.{◌≡◌, ◌&&◌, IsTrue};
ghost use Rattle.tree.specs.Node.{node_tree};
ghost use Rattle.flow_rules.specs.Plain.{is_calm, is_operation, is_piece, is_plain, is_plain_kind, is_silent, is_watched};

use crate::around::{Around, is_third};
use crate::flow::Flow;
use crate::flow_rule::{is_body, is_derived};
use crate::kind_sets::is_return;
use tree::{Kind, Node};

/// Whether it is the kind of a call, a member or an operation.
#[inline]
fn is_operation(kind: Kind) -> bool
    ensures { result ≡ is_operation kind }
{
    matches!(
        kind,
        Kind::MemberExpression
            | Kind::CallExpression
            | Kind::NewExpression
            | Kind::MetaProperty
            | Kind::ImportExpression
            | Kind::ChainExpression
            | Kind::TaggedTemplateExpression
            | Kind::UpdateExpression
            | Kind::UnaryExpression
            | Kind::AwaitExpression
            | Kind::BinaryExpression
            | Kind::LogicalExpression
            | Kind::ConditionalExpression
            | Kind::AssignmentExpression
            | Kind::SequenceExpression
            | Kind::YieldExpression
    )
}

/// Whether it is the kind of another expression but a function, a class and `super`, of a pattern, or of a statement made of such.
#[inline]
fn is_piece(kind: Kind) -> bool
    ensures { result ≡ is_piece kind }
{
    matches!(
        kind,
        Kind::Identifier
            | Kind::PrivateIdentifier
            | Kind::Literal
            | Kind::ThisExpression
            | Kind::ArrayExpression
            | Kind::ObjectExpression
            | Kind::Property
            | Kind::SpreadElement
            | Kind::TemplateLiteral
            | Kind::TemplateElement
            | Kind::ArrayPattern
            | Kind::ObjectPattern
            | Kind::AssignmentPattern
            | Kind::RestElement
            | Kind::ExpressionStatement
            | Kind::EmptyStatement
            | Kind::VariableDeclaration
            | Kind::VariableDeclarator
    )
}

/// Whether it is the kind of an expression, but of no function, no class and not `super`; of a pattern; or of a statement that is made of
/// these alone.
#[inline]
fn is_plain_kind(kind: Kind) -> bool
    ensures { result ≡ is_plain_kind kind }
{
    is_piece(kind) || is_operation(kind)
}

/// Whether a node is of such a kind, and all below it are.
#[tactic(auto, using(tree::proofs::PartWalk::part_steps))]
fn is_plain(node: Node) -> bool
    ensures { result ≡ is_plain (node_tree node.entry) }
{
    if !is_plain_kind(node.kind()) {
        return false;
    }
    for index in 0..node.part_count() {
        if let Some(part) = node.part(index) {
            if !is_plain(part) {
                return false;
            }
        }
    }
    true
}

/// Whether `this` is read too early where a node stands.
fn is_watched(around: Around) -> bool
    ensures { result ≡ is_watched around }
{
    is_derived(around.round.home) && !around.has_super
}

/// Whether nothing that stands round a node makes a rule look at it.
fn is_calm(around: Around) -> bool
    ensures { result ≡ is_calm around }
{
    (!around.stopped && !around.falls)
        && (!(around.chained && is_third(around.place)) && !is_watched(around))
}

/// Whether rules say nothing of a node and of all below it. Where that is false of a node, the walk goes on into its parts, and asks it anew
/// of those alone that have no parts, or stand in a node that isn't plain: so no node is looked at more than twice.
pub(crate) fn is_passed(around: Around, node: Node) -> bool
    ensures { IsTrue result → IsTrue (is_calm around && is_plain (node_tree node.entry)) }
{
    (node.part_count() == 0 || !is_plain_kind(around.round.parent))
        && (is_calm(around) && is_plain(node))
}

/// Whether rules say nothing of a node itself, as of most that the walk enters: nothing round it makes one look, and it is neither a `return`
/// nor the block of a function, nor does it end what it stands in.
#[inline]
pub(crate) fn is_silent(around: Around, flow: Flow, node: Node) -> bool
    ensures { result ≡ is_silent around flow (node_tree node.entry) }
{
    (flow.normal && is_calm(around)) && (!is_return(node.kind()) && !is_body(around, node))
}
