//! How many parts a node of each kind has.

ghost use Rattle.std.specs.Prelude.{◌≡◌};
ghost use Rattle.tree.specs.Node.{node_tree};
ghost use Rattle.typed_nodes.specs.Arity.{has_arity, has_pair, has_length, is_whole};

use tree::{Kind, Node};

/// Whether a node has as many parts as its kind has, gaps included.
pub(crate) fn is_whole(node: Node) -> bool
    ensures { result ≡ is_whole (node_tree node.entry) }
{
    has_arity(node.kind(), node.part_count())
}

/// Whether a node of this kind may have this many parts, gaps counted too.
fn has_arity(kind: Kind, count: usize) -> bool
    ensures { result ≡ has_arity kind count }
{
    match kind {
        Kind::Identifier
        | Kind::PrivateIdentifier
        | Kind::Literal
        | Kind::ThisExpression
        | Kind::Super
        | Kind::TemplateElement
        | Kind::EmptyStatement
        | Kind::DebuggerStatement => count == 0,
        _ => has_pair(kind, count),
    }
}

/// Whether so many parts suit a kind that isn't in the table above.
fn has_pair(kind: Kind, count: usize) -> bool
    ensures { result ≡ has_pair kind count }
{
    match kind {
        Kind::Property
        | Kind::MethodDefinition
        | Kind::PropertyDefinition
        | Kind::TaggedTemplateExpression
        | Kind::MemberExpression
        | Kind::MetaProperty
        | Kind::BinaryExpression
        | Kind::LogicalExpression
        | Kind::AssignmentExpression
        | Kind::AssignmentPattern
        | Kind::LabeledStatement
        | Kind::CatchClause
        | Kind::WhileStatement
        | Kind::DoWhileStatement
        | Kind::VariableDeclarator
        | Kind::ExportAllDeclaration => count == 2,
        Kind::ClassExpression
        | Kind::ConditionalExpression
        | Kind::IfStatement
        | Kind::TryStatement
        | Kind::ForInStatement
        | Kind::ForOfStatement
        | Kind::ClassDeclaration => count == 3,
        Kind::ForStatement => count == 4,
        _ => has_length(kind, count),
    }
}

/// Whether so many parts suit a kind with a list among its parts, or with one part.
fn has_length(kind: Kind, count: usize) -> bool
    ensures { result ≡ has_length kind count }
{
    match kind {
        Kind::ArrowFunctionExpression
        | Kind::CallExpression
        | Kind::NewExpression
        | Kind::SwitchStatement
        | Kind::SwitchCase
        | Kind::VariableDeclaration
        | Kind::ImportDeclaration => count >= 1,
        Kind::FunctionExpression
        | Kind::FunctionDeclaration
        | Kind::SequenceExpression
        | Kind::ExportNamedDeclaration => count >= 2,
        Kind::ImportSpecifier | Kind::ExportSpecifier => count >= 1 && count <= 2,
        Kind::TemplateLiteral => count % 2 == 1,
        Kind::Program
        | Kind::ArrayExpression
        | Kind::ObjectExpression
        | Kind::ClassBody
        | Kind::ArrayPattern
        | Kind::ObjectPattern
        | Kind::BlockStatement
        | Kind::StaticBlock => true,
        _ => count == 1,
    }
}
