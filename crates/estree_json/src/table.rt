//! The members of a node's object by its kind (ESTree, es5 to es2022), in the order of their keys: each line has the key and where
//! the value is.

ghost use Rattle.std.specs.Prelude.{◌≡◌};
ghost use Rattle.estree_json.specs.Table.{InOrder, PutsAll, key_of};

use self::Member::{
    Boolean, Directive, End, EveryOther, List, LiteralRegex, LiteralValue, MethodKind, Null, Part,
    PartFromEnd, PropertyKind, SourceType, Start, Tail, TemplateValue, Text, Type,
};
use tree::Kind;

/// What says yes or no of a node.
pub enum FlagSource {
    Always,
    Async,
    Computed,
    Expression,
    Generator,
    Method,
    Optional,
    Prefix,
    Shorthand,
    Static,
}

/// A member, by its key and where its value is. Parts are counted from 0 in source order.
pub enum Member {
    /// The node's type.
    Type,
    /// Where it begins.
    Start,
    /// Where it ends.
    End,
    /// A part, null where it is missing.
    Part(&'static str, usize),
    /// An array of the parts from one on, all but the last so many.
    List(&'static str, usize, usize),
    /// The part behind such an array.
    PartFromEnd(&'static str, usize, usize),
    /// An array of every other part, from one on.
    EveryOther(&'static str, usize),
    /// Null.
    Null(&'static str),
    /// The node's text.
    Text(&'static str),
    /// Yes or no.
    Boolean(&'static str, FlagSource),
    /// `sourceType`.
    SourceType,
    /// `kind` of a property.
    PropertyKind,
    /// `kind` of a method.
    MethodKind,
    /// The text of a directive, where the statement is one.
    Directive,
    /// `value` of a literal, where it has one.
    LiteralValue,
    /// `regex` of a literal, where it is a regular expression.
    LiteralRegex,
    /// `value` of a template's part.
    TemplateValue,
    /// Whether it is the last part of its template.
    Tail,
}

impl Member {
    /// The key.
    pub(crate) fn key(&self) -> &'static str
        ensures { result.now ≡ key_of self.now }
    {
        match self {
            Type => "type",
            Start => "start",
            End => "end",
            Part(key, _)
            | List(key, _, _)
            | PartFromEnd(key, _, _)
            | EveryOther(key, _)
            | Null(key)
            | Text(key)
            | Boolean(key, _) => key,
            SourceType => "sourceType",
            PropertyKind | MethodKind => "kind",
            Directive => "directive",
            LiteralValue | TemplateValue => "value",
            LiteralRegex => "regex",
            Tail => "tail",
        }
    }
}

/// The members of a node of a kind: what stands in the text one after the other, and what an object holds once each is put into it.
#[tactic(auto, unfolding(crate::proofs::Lines::lines_computed))]
pub(crate) fn member_table(kind: Kind) -> &'static [Member]
    ensures in_order { InOrder kind result.now }
    ensures put { PutsAll kind result.now }
{
    match kind {
        Kind::Identifier | Kind::PrivateIdentifier => &[End, Text("name"), Start, Type],
        Kind::Literal => &[End, Text("raw"), LiteralRegex, Start, Type, LiteralValue],
        Kind::TemplateLiteral => &[
            End,
            EveryOther("expressions", 1),
            EveryOther("quasis", 0),
            Start,
            Type,
        ],
        Kind::TemplateElement => &[End, Start, Tail, Type, TemplateValue],
        Kind::FunctionDeclaration | Kind::FunctionExpression => &[
            Boolean("async", FlagSource::Async),
            PartFromEnd("body", 1, 1),
            End,
            Boolean("generator", FlagSource::Generator),
            Part("id", 0),
            List("params", 1, 1),
            Start,
            Type,
        ],
        Kind::ArrowFunctionExpression => &[
            Boolean("async", FlagSource::Async),
            PartFromEnd("body", 0, 1),
            End,
            Boolean("expression", FlagSource::Expression),
            Boolean("generator", FlagSource::Generator),
            Null("id"),
            List("params", 0, 1),
            Start,
            Type,
        ],
        Kind::ClassDeclaration | Kind::ClassExpression => &[
            Part("body", 2),
            End,
            Part("id", 0),
            Start,
            Part("superClass", 1),
            Type,
        ],
        Kind::ClassBody | Kind::StaticBlock => &[List("body", 0, 0), End, Start, Type],
        Kind::PropertyDefinition => &[
            Boolean("computed", FlagSource::Computed),
            End,
            Part("key", 0),
            Start,
            Boolean("static", FlagSource::Static),
            Type,
            Part("value", 1),
        ],
        Kind::MethodDefinition => &[
            Boolean("computed", FlagSource::Computed),
            End,
            Part("key", 0),
            MethodKind,
            Start,
            Boolean("static", FlagSource::Static),
            Type,
            Part("value", 1),
        ],
        Kind::Property => &[
            Boolean("computed", FlagSource::Computed),
            End,
            Part("key", 0),
            PropertyKind,
            Boolean("method", FlagSource::Method),
            Boolean("shorthand", FlagSource::Shorthand),
            Start,
            Type,
            Part("value", 1),
        ],
        Kind::ArrayExpression | Kind::ArrayPattern => &[List("elements", 0, 0), End, Start, Type],
        Kind::ObjectExpression | Kind::ObjectPattern => &[
            End,
            List("properties", 0, 0),
            Start,
            Type,
        ],
        Kind::SpreadElement | Kind::RestElement | Kind::AwaitExpression => &[
            Part("argument", 0),
            End,
            Start,
            Type,
        ],
        Kind::YieldExpression => &[
            Part("argument", 0),
            Boolean("delegate", FlagSource::Generator),
            End,
            Start,
            Type,
        ],
        Kind::AssignmentPattern => &[End, Part("left", 0), Part("right", 1), Start, Type],
        Kind::SequenceExpression => &[End, List("expressions", 0, 0), Start, Type],
        Kind::ConditionalExpression => &[
            Part("alternate", 2),
            Part("consequent", 1),
            End,
            Start,
            Part("test", 0),
            Type,
        ],
        Kind::UnaryExpression => &[
            Part("argument", 0),
            End,
            Text("operator"),
            Boolean("prefix", FlagSource::Always),
            Start,
            Type,
        ],
        Kind::UpdateExpression => &[
            Part("argument", 0),
            End,
            Text("operator"),
            Boolean("prefix", FlagSource::Prefix),
            Start,
            Type,
        ],
        Kind::BinaryExpression | Kind::LogicalExpression | Kind::AssignmentExpression => &[
            End,
            Part("left", 0),
            Text("operator"),
            Part("right", 1),
            Start,
            Type,
        ],
        Kind::ChainExpression => &[End, Part("expression", 0), Start, Type],
        Kind::CallExpression => &[
            List("arguments", 1, 0),
            Part("callee", 0),
            End,
            Boolean("optional", FlagSource::Optional),
            Start,
            Type,
        ],
        Kind::NewExpression => &[List("arguments", 1, 0), Part("callee", 0), End, Start, Type],
        Kind::ImportExpression => &[End, Part("source", 0), Start, Type],
        Kind::MemberExpression => &[
            Boolean("computed", FlagSource::Computed),
            End,
            Part("object", 0),
            Boolean("optional", FlagSource::Optional),
            Part("property", 1),
            Start,
            Type,
        ],
        Kind::MetaProperty => &[End, Part("meta", 0), Part("property", 1), Start, Type],
        Kind::TaggedTemplateExpression => &[End, Part("quasi", 1), Start, Part("tag", 0), Type],
        Kind::Program => &[List("body", 0, 0), End, SourceType, Start, Type],
        Kind::ImportDeclaration => &[
            End,
            PartFromEnd("source", 0, 1),
            List("specifiers", 0, 1),
            Start,
            Type,
        ],
        Kind::ImportSpecifier => &[
            End,
            Part("imported", 0),
            PartFromEnd("local", 0, 1),
            Start,
            Type,
        ],
        Kind::ImportDefaultSpecifier | Kind::ImportNamespaceSpecifier => &[
            End,
            Part("local", 0),
            Start,
            Type,
        ],
        Kind::ExportNamedDeclaration => &[
            Part("declaration", 0),
            End,
            PartFromEnd("source", 1, 1),
            List("specifiers", 1, 1),
            Start,
            Type,
        ],
        Kind::ExportDefaultDeclaration => &[Part("declaration", 0), End, Start, Type],
        Kind::ExportAllDeclaration => &[End, Part("exported", 0), Part("source", 1), Start, Type],
        Kind::ExportSpecifier => &[
            End,
            PartFromEnd("exported", 0, 1),
            Part("local", 0),
            Start,
            Type,
        ],
        Kind::ExpressionStatement => &[Directive, End, Part("expression", 0), Start, Type],
        Kind::BlockStatement => &[List("body", 0, 0), End, Start, Type],
        Kind::ReturnStatement | Kind::ThrowStatement => &[Part("argument", 0), End, Start, Type],
        Kind::BreakStatement | Kind::ContinueStatement => &[End, Part("label", 0), Start, Type],
        Kind::LabeledStatement => &[Part("body", 1), End, Part("label", 0), Start, Type],
        Kind::IfStatement => &[
            Part("alternate", 2),
            Part("consequent", 1),
            End,
            Start,
            Part("test", 0),
            Type,
        ],
        Kind::SwitchStatement => &[
            List("cases", 1, 0),
            Part("discriminant", 0),
            End,
            Start,
            Type,
        ],
        Kind::SwitchCase => &[List("consequent", 1, 0), End, Start, Part("test", 0), Type],
        Kind::TryStatement => &[
            Part("block", 0),
            End,
            Part("finalizer", 2),
            Part("handler", 1),
            Start,
            Type,
        ],
        Kind::CatchClause => &[Part("body", 1), End, Part("param", 0), Start, Type],
        Kind::WhileStatement => &[Part("body", 1), End, Start, Part("test", 0), Type],
        Kind::DoWhileStatement => &[Part("body", 0), End, Start, Part("test", 1), Type],
        Kind::ForStatement => &[
            Part("body", 3),
            End,
            Part("init", 0),
            Start,
            Part("test", 1),
            Type,
            Part("update", 2),
        ],
        Kind::ForInStatement => &[
            Part("body", 2),
            End,
            Part("left", 0),
            Part("right", 1),
            Start,
            Type,
        ],
        Kind::ForOfStatement => &[
            Boolean("await", FlagSource::Async),
            Part("body", 2),
            End,
            Part("left", 0),
            Part("right", 1),
            Start,
            Type,
        ],
        Kind::VariableDeclaration => &[List("declarations", 0, 0), End, Text("kind"), Start, Type],
        Kind::VariableDeclarator => &[End, Part("id", 0), Part("init", 1), Start, Type],
        Kind::ThisExpression | Kind::Super | Kind::EmptyStatement | Kind::DebuggerStatement => &[
            End, Start, Type,
        ],
    }
}
