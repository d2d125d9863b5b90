//! What stands round the parts of a node, by its site and its kind. Where more than these decides, a function of the kind's family does.

ghost use Rattle.std.specs.Prelude.{◌≡◌, [], ◌∷◌};
ghost use Rattle.tree.specs.Node.{node_tree};
ghost use Rattle.tree.specs.Tree.{kind_of, text_of, flags_of, parts_of};
ghost use Rattle.printer.specs.Bits.{shape_of, fused_shape};
ghost use Rattle.printer.specs.Shapes.{for_of_shape, function_bits, function_list_shape, shape_on, shape_by_kind, yield_shape};
ghost use Rattle.printer.specs.Sites.{is_word};

use crate::blocks::{braced, case_frame, catch_frame, static_block_frame, switch_frame};
use crate::definitions::{
    arrow_frame, class_frame, class_member_frame, field_frame, is_single, property_frame,
};
use crate::expressions::{call_frame, is_open_number, member_frame, unary_frame, update_frame};
use crate::fragments::{
    Fragment, Frame, ListLayout, arguments_frame, asking_frame, front_frame, list_frame,
};
use crate::modules::{
    NAMESPACE, ONE_NAME, alias_frame, default_frame, export_all_frame, export_frame, import_frame,
    is_default_declaration,
};
use crate::part_sites::PartSites;
use crate::shared_fragments::{
    BRACKET, CLOSE, CLOSE_SPACE, COLON, END_BRACKET, FOR, OPEN, OWN, SEMICOLON, has_part, is_filled,
};
use crate::site::{Site, is_plain_site};
use crate::statements::{
    break_frame, continue_frame, declarator_frame, for_frame, if_frame, return_frame, try_frame,
};
use spellings::value_form;
use tree::{Form, Kind, Node};

/// The operator, which is the node's text, between spaces.
const INFIX: &[Fragment] = &[Fragment::Space, Fragment::NodeText, Fragment::Space];

/// ` = `.
const EQUALS: &[Fragment] = &[Fragment::Token(" = ")];

/// `...`.
const DOTS: &[Fragment] = &[Fragment::Token("...")];

/// `function `.
const FUNCTION: &[Fragment] = &[Fragment::Token("function ")];

/// The declaration's word, which is the node's text, and a space.
const DECLARATION: &[Fragment] = &[Fragment::NodeText, Fragment::Space];

/// `while (`.
const WHILE: &[Fragment] = &[Fragment::Token("while (")];

/// ` in `.
const IN: &[Fragment] = &[Fragment::Token(" in ")];

/// ` of `.
const OF: &[Fragment] = &[Fragment::Token(" of ")];

/// Parameters in their parentheses, and a body, behind a part that stands behind these pieces.
macro_rules! function_frame {
    ($front:expr) => {
        Frame {
            front: &[$front],
            opener: OPEN,
            series: ListLayout::Parameters,
            closer: &[],
            sites: PartSites::AllPlain,
        }
    };
}

/// The frame of a node that is written as nothing.
static NOTHING: Frame = front_frame!(&[], &[]);

/// The frame of a template's only part.
static ONLY_CHUNK: Frame = front_frame!(
    &[],
    &[Fragment::TemplateElement {
        is_first: true,
        is_last: true,
    }]
);

/// The frame of a template's first part, if others follow.
static FIRST_CHUNK: Frame = front_frame!(
    &[],
    &[Fragment::TemplateElement {
        is_first: true,
        is_last: false,
    }]
);

/// The frame of a template's last part, if others precede it.
static LAST_CHUNK: Frame = front_frame!(
    &[],
    &[Fragment::TemplateElement {
        is_first: false,
        is_last: true,
    }]
);

/// The frame of a template's part between others.
static INNER_CHUNK: Frame = front_frame!(
    &[],
    &[Fragment::TemplateElement {
        is_first: false,
        is_last: false,
    }]
);

/// The frame of a method's function: its parameters and its body, without a word.
static METHOD: Frame = function_frame!(&[]);

/// The frame of a declaration in the head of a `for`, without a semicolon.
static HEAD: Frame = list_frame!(DECLARATION, Commas, &[]);

/// The frame of a node that is its own text.
static WORD: Frame = front_frame!(&[], OWN);

/// The frame of `this`.
static THIS: Frame = front_frame!(&[], &[Fragment::Token("this")]);

/// The frame of `super`.
static SUPER: Frame = front_frame!(&[], &[Fragment::Token("super")]);

/// The frame of an array: its elements with commas between them, in brackets.
static ARRAY: Frame = list_frame!(BRACKET, Commas, END_BRACKET);

/// The frame of an object: its properties with commas between them, in braces.
static OBJECT: Frame = list_frame!(&[Fragment::Token("{")], Commas, &[Fragment::Token("}")]);

/// The frame of a template: its parts with nothing between them.
static TEMPLATE: Frame = Frame {
    front: &[],
    opener: &[],
    series: ListLayout::Joined,
    closer: &[],
    sites: PartSites::TemplateParts,
};

/// The frame of a spread or a rest: `...` before its part.
static SPREAD: Frame = front_frame!(&[DOTS], &[]);

/// The frame of a target with its default.
static DEFAULTED: Frame = front_frame!(&[&[], EQUALS], &[]);

/// The frame of a tagged template: the tag, then the template.
static TAGGED: Frame = front_frame!(&[&[], &[]], &[]);

/// The frame of an optional chain: its part alone.
static CHAIN: Frame = front_frame!(&[&[]], &[]);

/// The frame of `import(…)`.
static IMPORT: Frame = front_frame!(&[&[Fragment::Token("import(")]], CLOSE);

/// The frame of `new.target`.
static META_PROPERTY: Frame = front_frame!(&[&[], &[Fragment::Token(".")]], &[]);

/// The frame of an infix operator between its operands.
static BINARY: Frame = front_frame!(&[&[], INFIX], &[]);

/// The frame of a conditional expression.
static CONDITIONAL: Frame = front_frame!(
    &[&[], &[Fragment::Token(" ? ")], &[Fragment::Token(" : ")],],
    &[]
);

/// The frame of a sequence: its expressions with commas between them.
static SEQUENCE: Frame = list_frame!(&[], Commas, &[]);

/// The frame of `new` with its arguments.
static NEW: Frame = arguments_frame!(&[&[Fragment::Token("new ")]], OPEN);

/// The frame of a function with its word: its name, if any, its parameters and its body.
static NAMED_FUNCTION: Frame = function_frame!(FUNCTION);

/// The frame of a generator function.
static GENERATOR: Frame = function_frame!(&[Fragment::Token("function* ")]);

/// The frame of an async function.
static ASYNC_FUNCTION: Frame = function_frame!(&[Fragment::Token("async function ")]);

/// The frame of an async generator function.
static ASYNC_GENERATOR: Frame = function_frame!(&[Fragment::Token("async function* ")]);

/// The frame of a private name.
static PRIVATE_NAME: Frame = front_frame!(&[], &[Fragment::PrivateText]);

/// The frame of `await`.
static AWAIT: Frame = front_frame!(&[&[Fragment::Token("await ")]], &[]);

/// The frame of `yield` with an operand.
static YIELD: Frame = front_frame!(&[&[Fragment::Token("yield ")]], &[]);

/// The frame of `yield` without an operand.
static BARE_YIELD: Frame = front_frame!(&[&[Fragment::Token("yield")]], &[]);

/// The frame of `yield*`.
static DELEGATE: Frame = front_frame!(&[&[Fragment::Token("yield* ")]], &[]);

/// With nothing at its end.
static SCRIPT: Frame = list_frame!(&[], Feeds, &[Fragment::Token("")]);

/// The frame of a declaration that is a statement.
static VARIABLES: Frame = list_frame!(DECLARATION, Commas, SEMICOLON);

/// The frame of an expression statement.
static EXPRESSION: Frame = front_frame!(&[&[]], SEMICOLON);

/// The frame of an empty statement.
static EMPTY: Frame = front_frame!(&[], SEMICOLON);

/// The frame of `debugger`.
static DEBUGGER: Frame = front_frame!(&[], &[Fragment::Token("debugger;")]);

/// The frame of `throw`.
static THROW: Frame = front_frame!(&[&[Fragment::Token("throw ")]], SEMICOLON);

/// The frame of a statement with its label.
static LABELED: Frame = front_frame!(&[&[], COLON], &[]);

/// The frame of `while`.
static WHILE_LOOP: Frame = front_frame!(&[WHILE, CLOSE_SPACE], &[]);

/// The frame of `do … while`.
static DO_LOOP: Frame = front_frame!(
    &[&[Fragment::Token("do ")], &[Fragment::Token(" while (")],],
    &[Fragment::Token(");")]
);

/// The frame of for-in.
static FOR_IN: Frame = asking_frame!(LoopHead, &[FOR, IN, CLOSE_SPACE]);

/// The frame of for-of.
static FOR_OF: Frame = asking_frame!(LoopHead, &[FOR, OF, CLOSE_SPACE]);

/// The frame of `for await`.
static FOR_AWAIT: Frame = asking_frame!(
    LoopHead,
    &[&[Fragment::Token("for await (")], OF, CLOSE_SPACE]
);

/// What stands round the parts of a node at a site.
#[inline]
pub(crate) fn frame_of(node: Node, site: Site) -> &'static Frame
    ensures { shape_of result.now ≡ fused_shape (shape_on site (kind_of (node_tree node.entry)) (text_of (node_tree node.entry)) (flags_of (node_tree node.entry)) (parts_of (node_tree node.entry))) }
{
    match site {
        Site::ShorthandKey => &NOTHING,
        Site::OnlyTemplateElement => &ONLY_CHUNK,
        Site::FirstTemplateElement => &FIRST_CHUNK,
        Site::LastTemplateElement => &LAST_CHUNK,
        Site::InnerTemplateElement => &INNER_CHUNK,
        Site::Method => &METHOD,
        Site::ForDeclaration => &HEAD,
        Site::Plain => frame_by_kind(node),
    }
}

/// The frame at a plain site, by the node's kind. (A template's part always has a site of its own.)
fn frame_by_kind(node: Node) -> &'static Frame
    ensures { shape_of result.now ≡ fused_shape (shape_by_kind (kind_of (node_tree node.entry)) (text_of (node_tree node.entry)) (flags_of (node_tree node.entry)) (parts_of (node_tree node.entry))) }
{
    match node.kind() {
        Kind::Identifier | Kind::Literal | Kind::TemplateElement => &WORD,
        Kind::ThisExpression => &THIS,
        Kind::Super => &SUPER,
        Kind::ArrayExpression | Kind::ArrayPattern => &ARRAY,
        Kind::ObjectExpression | Kind::ObjectPattern => &OBJECT,
        Kind::TemplateLiteral => &TEMPLATE,
        Kind::SpreadElement | Kind::RestElement => &SPREAD,
        Kind::AssignmentPattern => &DEFAULTED,
        Kind::TaggedTemplateExpression => &TAGGED,
        Kind::ChainExpression => &CHAIN,
        Kind::ImportExpression => &IMPORT,
        Kind::MetaProperty => &META_PROPERTY,
        Kind::UpdateExpression => update_frame(node.flags().prefix),
        Kind::UnaryExpression => unary_frame(node.text()),
        Kind::BinaryExpression | Kind::LogicalExpression | Kind::AssignmentExpression => &BINARY,
        Kind::ConditionalExpression => &CONDITIONAL,
        Kind::SequenceExpression => &SEQUENCE,
        Kind::MemberExpression => member_frame(node.flags(), is_open_number(node)),
        Kind::CallExpression => call_frame(node.flags().optional),
        Kind::NewExpression => &NEW,
        Kind::FunctionExpression | Kind::FunctionDeclaration => function_frame(node.flags().form),
        Kind::ArrowFunctionExpression => {
            arrow_frame(node.flags().form.is_async(), is_single(node))
        }
        Kind::PrivateIdentifier => &PRIVATE_NAME,
        Kind::AwaitExpression => &AWAIT,
        Kind::YieldExpression => yield_frame(node.flags().form, has_part(node, 0)),
        Kind::ClassExpression | Kind::ClassDeclaration => {
            class_frame(has_part(node, 0), has_part(node, 1))
        }
        Kind::Property => property_frame(node.flags(), value_form(node)),
        Kind::MethodDefinition => class_member_frame(node.flags(), value_form(node)),
        Kind::PropertyDefinition => field_frame(node.flags(), has_part(node, 1)),
        Kind::StaticBlock => static_block_frame(is_filled(node, 0)),
        Kind::ImportDeclaration => import_frame(node),
        Kind::ImportDefaultSpecifier => &ONE_NAME,
        Kind::ImportNamespaceSpecifier => &NAMESPACE,
        Kind::ImportSpecifier | Kind::ExportSpecifier => alias_frame(has_part(node, 1)),
        Kind::ExportNamedDeclaration => {
            let last = node.part_count().saturating_sub(1);
            export_frame(has_part(node, 0), has_part(node, last))
        }
        Kind::ExportDefaultDeclaration => default_frame(is_default_declaration(node)),
        Kind::ExportAllDeclaration => export_all_frame(has_part(node, 0)),
        Kind::Program => &SCRIPT,
        Kind::BlockStatement | Kind::ClassBody => braced(is_filled(node, 0)),
        Kind::SwitchStatement => switch_frame(is_filled(node, 1)),
        Kind::SwitchCase => case_frame(has_part(node, 0)),
        Kind::CatchClause => catch_frame(has_part(node, 0)),
        Kind::VariableDeclaration => &VARIABLES,
        Kind::VariableDeclarator => declarator_frame(has_part(node, 1)),
        Kind::ExpressionStatement => &EXPRESSION,
        Kind::EmptyStatement => &EMPTY,
        Kind::DebuggerStatement => &DEBUGGER,
        Kind::ReturnStatement => return_frame(has_part(node, 0)),
        Kind::BreakStatement => break_frame(has_part(node, 0)),
        Kind::ContinueStatement => continue_frame(has_part(node, 0)),
        Kind::ThrowStatement => &THROW,
        Kind::IfStatement => if_frame(has_part(node, 2)),
        Kind::LabeledStatement => &LABELED,
        Kind::TryStatement => try_frame(has_part(node, 1), has_part(node, 2)),
        Kind::WhileStatement => &WHILE_LOOP,
        Kind::DoWhileStatement => &DO_LOOP,
        Kind::ForInStatement => &FOR_IN,
        Kind::ForOfStatement => for_of_frame(node.flags().form.is_async()),
        Kind::ForStatement => for_frame(has_part(node, 1), has_part(node, 2)),
    }
}

/// A function, by its form.
fn function_frame(form: Form) -> &'static Frame
    ensures { shape_of result.now ≡ fused_shape (function_list_shape (function_bits form ∷ [])) }
{
    match form {
        Form::Generator => &GENERATOR,
        Form::Async => &ASYNC_FUNCTION,
        Form::AsyncGenerator => &ASYNC_GENERATOR,
        _ => &NAMED_FUNCTION,
    }
}

/// A `yield`, by its form and whether it has an operand.
fn yield_frame(form: Form, has_operand: bool) -> &'static Frame
    ensures { shape_of result.now ≡ fused_shape (yield_shape form has_operand) }
{
    match (form, has_operand) {
        (Form::Generator, _) => &DELEGATE,
        (_, true) => &YIELD,
        (_, false) => &BARE_YIELD,
    }
}

/// A for-of, by whether it awaits.
fn for_of_frame(awaits: bool) -> &'static Frame
    ensures { shape_of result.now ≡ fused_shape (for_of_shape awaits) }
{
    if awaits { &FOR_AWAIT } else { &FOR_OF }
}

/// Whether a node is written as its own text: a name or a literal without parts, but where a template's part, a head, a method or a
/// shorthand property's key stands.
#[inline(always)]
pub(crate) fn is_own_text(node: Node, site: Site) -> bool
    ensures { result ≡ is_word site (kind_of (node_tree node.entry)) (parts_of (node_tree node.entry)) }
{
    match node.kind() {
        Kind::Identifier | Kind::Literal => node.part_count() == 0 && is_plain_site(site),
        _ => false,
    }
}
