//! The symbol at which an expression stands by itself, without parentheses.

ghost use Rattle.std.specs.Prelude.{◌≡◌, not, ◌&&◌, option_map};
ghost use Rattle.tree.specs.Node.{node_tree};
ghost use Rattle.tree.specs.Tree.{text_of, flags_of, parts_of};
ghost use Rattle.language.specs.FirstPart.{lead, others};
ghost use Rattle.language.specs.Vocabulary.{is_update_operator as is_step_text, is_target as is_target_kind, is_assignment as is_assignment_text};
ghost use Rattle.language.specs.Expressions.{lead_is};
ghost use Rattle.language.specs.Pieces.{is_none};
ghost use Rattle.language.specs.Grammar.{rank_of};
ghost use Rattle.grammar.specs.Ranks.{rank_if, plain_rank, private_or_binary, is_yield_of, is_meta, is_assigned, is_text};

use crate::chain::has_optional;
use crate::literals::is_literal;
use crate::operators::{
    binary_rank, is_assignment, is_prefix_operator, is_update_operator, logical_rank,
};
use crate::words::is_reserved;
use language::Rank;
use tree::{Form, Kind, Node};

/// The tightest symbol that can spell the node without a pair round it; none where it is no expression.
pub fn rank_of(node: Node<'_, '_>) -> Option<Rank>
    ensures { result ≡ rank_of (node_tree node.entry) }
{
    let text = node.text();
    let kind = node.kind();
    match kind {
        Kind::Identifier => rank_if(!is_reserved(text), Rank::Primary),
        Kind::Literal => rank_if(is_literal(text), Rank::Primary),
        Kind::MemberExpression => rank_if(!node.flags().optional, Rank::Member),
        Kind::MetaProperty => rank_if(is_meta_property(node), Rank::Member),
        Kind::CallExpression => rank_if(!node.flags().optional, Rank::Call),
        Kind::ChainExpression => rank_if(has_optional(node.part(0)), Rank::LeftHandSide),
        Kind::UpdateExpression => rank_if(is_update(node), Rank::Update),
        Kind::UnaryExpression => rank_if(is_prefix_operator(text), Rank::Unary),
        Kind::BinaryExpression => binary_or_private(node, text),
        Kind::LogicalExpression => logical_rank(text),
        Kind::AssignmentExpression => rank_if(can_assign(node), Rank::Assignment),
        Kind::SequenceExpression => rank_if(node.part_count() > 1, Rank::Expression),
        Kind::YieldExpression => rank_if(is_yield(node), Rank::Assignment),
        _ => plain_rank(kind),
    }
}

/// The symbol of a kind that has one whatever the node's text, flags and parts are.
fn plain_rank(kind: Kind) -> Option<Rank>
    ensures { result ≡ plain_rank kind }
{
    match kind {
        Kind::ThisExpression
        | Kind::ArrayExpression
        | Kind::ObjectExpression
        | Kind::FunctionExpression
        | Kind::ClassExpression
        | Kind::TemplateLiteral => Some(Rank::Primary),
        Kind::TaggedTemplateExpression | Kind::NewExpression => Some(Rank::Member),
        Kind::ImportExpression => Some(Rank::Call),
        Kind::AwaitExpression => Some(Rank::Unary),
        Kind::ConditionalExpression => Some(Rank::Conditional),
        Kind::ArrowFunctionExpression => Some(Rank::Assignment),
        _ => None,
    }
}

/// This symbol if the condition holds, else none.
fn rank_if(holds: bool, rank: Rank) -> Option<Rank>
    ensures { result ≡ rank_if holds rank }
{
    if holds {
        return Some(rank);
    }
    None
}

/// The kind of the first part, that of the Program where there is none.
fn first_kind(node: Node<'_, '_>) -> Kind
    ensures { result ≡ lead (parts_of (node_tree node.entry)) }
{
    match node.part(0) {
        Some(part) => part.kind(),
        None => Kind::Program,
    }
}

/// Whether it is an update of a simple target.
fn is_update(node: Node<'_, '_>) -> bool
    ensures { result ≡ (is_step_text (text_of (node_tree node.entry)) && is_target_kind (lead (parts_of (node_tree node.entry)))) }
{
    is_update_operator(node.text()) && first_kind(node).is_target()
}

/// Whether it assigns to what its operator can assign to: a pattern behind `=` alone.
fn can_assign(node: Node<'_, '_>) -> bool
    ensures { result ≡ (is_assignment_text (text_of (node_tree node.entry)) && is_assigned (text_of (node_tree node.entry)) (lead (parts_of (node_tree node.entry)))) }
{
    let operator = node.text();
    let target = first_kind(node);
    is_assignment(operator) && (target.is_target() || operator == "=" && target.is_pattern())
}

/// The symbol of a binary expression: with a private name on its left only `in` makes one.
fn binary_or_private(node: Node<'_, '_>, operator: &str) -> Option<Rank>
    ensures { result ≡ private_or_binary (lead (parts_of (node_tree node.entry))) operator.now }
{
    if first_kind(node).is_private() {
        return rank_if(operator == "in", Rank::Relational);
    }
    binary_rank(operator)
}

/// Whether it is a `yield` with an operand or none, or a `yield*` with one.
fn is_yield(node: Node<'_, '_>) -> bool
    ensures { result ≡ is_yield_of (flags_of (node_tree node.entry)).form (parts_of (node_tree node.entry)) }
{
    let flags = node.flags();
    match flags.form {
        Form::Init => node.part_count() == 1,
        Form::Generator => node.part_count() == 1 && node.part(0).is_some(),
        _ => false,
    }
}

/// Whether it is `new.target` or `import.meta`.
fn is_meta_property(node: Node<'_, '_>) -> bool
    ensures { result ≡ is_meta (parts_of (node_tree node.entry)) }
{
    is_new_target(node) || is_text(node.part(0), "import") && is_text(node.part(1), "meta")
}

/// Whether it is `new.target`.
fn is_new_target(node: Node<'_, '_>) -> bool
    ensures { result ≡ (lead_is (parts_of (node_tree node.entry)) "new" && lead_is (others (parts_of (node_tree node.entry))) "target") }
{
    is_text(node.part(0), "new") && is_text(node.part(1), "target")
}

/// Whether the part is there and has this text.
fn is_text(part: Option<Node<'_, '_>>, word: &str) -> bool
    ensures { result ≡ is_text (option_map node_tree part.entry) word.now }
{
    match part {
        Some(part) => part.text() == word,
        None => false,
    }
}
