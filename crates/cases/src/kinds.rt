//! Kinds and flags by their words.

use tree::{Flags, Form, Kind};

/// The kinds of the base profile by their names.
static KINDS: [(&str, Kind); 57] = [
    ("Program", Kind::Program),
    ("Identifier", Kind::Identifier),
    ("Literal", Kind::Literal),
    ("ThisExpression", Kind::ThisExpression),
    ("Super", Kind::Super),
    ("ArrayExpression", Kind::ArrayExpression),
    ("ObjectExpression", Kind::ObjectExpression),
    ("Property", Kind::Property),
    ("SpreadElement", Kind::SpreadElement),
    ("FunctionExpression", Kind::FunctionExpression),
    ("ArrowFunctionExpression", Kind::ArrowFunctionExpression),
    ("ClassExpression", Kind::ClassExpression),
    ("ClassBody", Kind::ClassBody),
    ("MethodDefinition", Kind::MethodDefinition),
    ("TemplateLiteral", Kind::TemplateLiteral),
    ("TemplateElement", Kind::TemplateElement),
    ("TaggedTemplateExpression", Kind::TaggedTemplateExpression),
    ("MemberExpression", Kind::MemberExpression),
    ("CallExpression", Kind::CallExpression),
    ("NewExpression", Kind::NewExpression),
    ("MetaProperty", Kind::MetaProperty),
    ("ImportExpression", Kind::ImportExpression),
    ("ChainExpression", Kind::ChainExpression),
    ("UpdateExpression", Kind::UpdateExpression),
    ("UnaryExpression", Kind::UnaryExpression),
    ("BinaryExpression", Kind::BinaryExpression),
    ("LogicalExpression", Kind::LogicalExpression),
    ("ConditionalExpression", Kind::ConditionalExpression),
    ("AssignmentExpression", Kind::AssignmentExpression),
    ("SequenceExpression", Kind::SequenceExpression),
    ("ArrayPattern", Kind::ArrayPattern),
    ("ObjectPattern", Kind::ObjectPattern),
    ("AssignmentPattern", Kind::AssignmentPattern),
    ("RestElement", Kind::RestElement),
    ("ExpressionStatement", Kind::ExpressionStatement),
    ("BlockStatement", Kind::BlockStatement),
    ("EmptyStatement", Kind::EmptyStatement),
    ("DebuggerStatement", Kind::DebuggerStatement),
    ("ReturnStatement", Kind::ReturnStatement),
    ("ThrowStatement", Kind::ThrowStatement),
    ("BreakStatement", Kind::BreakStatement),
    ("ContinueStatement", Kind::ContinueStatement),
    ("LabeledStatement", Kind::LabeledStatement),
    ("IfStatement", Kind::IfStatement),
    ("SwitchStatement", Kind::SwitchStatement),
    ("SwitchCase", Kind::SwitchCase),
    ("TryStatement", Kind::TryStatement),
    ("CatchClause", Kind::CatchClause),
    ("WhileStatement", Kind::WhileStatement),
    ("DoWhileStatement", Kind::DoWhileStatement),
    ("ForStatement", Kind::ForStatement),
    ("ForInStatement", Kind::ForInStatement),
    ("ForOfStatement", Kind::ForOfStatement),
    ("VariableDeclaration", Kind::VariableDeclaration),
    ("VariableDeclarator", Kind::VariableDeclarator),
    ("FunctionDeclaration", Kind::FunctionDeclaration),
    ("ClassDeclaration", Kind::ClassDeclaration),
];

/// The other kinds by their names.
static KINDS_OF_2022: [(&str, Kind); 13] = [
    ("PrivateIdentifier", Kind::PrivateIdentifier),
    ("PropertyDefinition", Kind::PropertyDefinition),
    ("StaticBlock", Kind::StaticBlock),
    ("AwaitExpression", Kind::AwaitExpression),
    ("YieldExpression", Kind::YieldExpression),
    ("ImportDeclaration", Kind::ImportDeclaration),
    ("ImportSpecifier", Kind::ImportSpecifier),
    ("ImportDefaultSpecifier", Kind::ImportDefaultSpecifier),
    ("ImportNamespaceSpecifier", Kind::ImportNamespaceSpecifier),
    ("ExportNamedDeclaration", Kind::ExportNamedDeclaration),
    ("ExportDefaultDeclaration", Kind::ExportDefaultDeclaration),
    ("ExportAllDeclaration", Kind::ExportAllDeclaration),
    ("ExportSpecifier", Kind::ExportSpecifier),
];

/// The kind of this name; Program for all others.
pub(crate) fn kind(name: &str) -> Kind {
    for (each, kind) in &KINDS {
        if *each == name {
            return *kind;
        }
    }
    for (each, kind) in &KINDS_OF_2022 {
        if *each == name {
            return *kind;
        }
    }
    Kind::Program
}

/// Sets the flag of this word.
pub(crate) fn set_flag(flags: &mut Flags, word: &str) {
    match word {
        "#computed" => flags.computed = true,
        "#optional" => flags.optional = true,
        "#static" => flags.is_static = true,
        "#prefix" => flags.prefix = true,
        "#directive" => flags.directive = true,
        "#expression" => flags.expression = true,
        _ => flags.form = form(word),
    }
}

/// The form that a word names.
fn form(word: &str) -> Form {
    match word {
        "#get" => Form::Get,
        "#set" => Form::Set,
        "#method" => Form::Method,
        "#shorthand" => Form::Shorthand,
        "#constructor" => Form::Constructor,
        "#generator" => Form::Generator,
        "#async" => Form::Async,
        "#async-generator" => Form::AsyncGenerator,
        _ => Form::Init,
    }
}
