//! Where errors of a node may be, whatever stands round it: what a walk can pass.

ghost use Rattle.std.specs.Prelude.{◌≡◌, Bool, false, [], filter, option_map};
ghost use Rattle.std.specs.Bool.{OnFalse, OnTrue};
ghost use Rattle.tree.specs.Node.{node_tree};
ghost use Rattle.tree.specs.Tree.{Tree, kind_of, parts_of, text_of};
ghost use Rattle.name_tables.specs.PatternParts.{at_part};
ghost use Rattle.name_tables.specs.BoundNames.{each_part};
ghost use Rattle.early_errors.specs.Names.{lexical_names, names_in};
ghost use Rattle.early_errors.specs.Passed.{BindsOne, AreFree, IsOpen, IsWhere, is_super_at, telling_of, telling_of_2022};
ghost use Rattle.early_errors.specs.Strict.{is_restricted};
ghost use Rattle.early_errors.specs.Walk.{names_at};
ghost use Rattle.early_errors.specs.Walks.{IsQuiet, IsSilent, is_quiet as says_nothing};

use crate::around::is_method;
use crate::conflicts::is_restricted;
use crate::literals::{begins_with_slash, either};
use crate::names::lexical_as;
use crate::objects::has_proto;
use crate::own::may_not_delete;
use name_tables::{Lexical, PatternNames, declaration_of, lexical_of, pattern_names_of};
use tree::{Kind, Node};

/// Where errors of a node may be.
#[derive(Clone, Copy)]
pub(crate) enum ErrorPlaces {
    Nowhere,
    InParts,
    Anywhere,
}

/// What of a node tells where its errors may be.
#[derive(Clone, Copy)]
pub(crate) enum SkipTest {
    Leaf,
    Kind,
    Member,
    Callee,
    Target,
    Operator,
    Form,
    Object,
    Items,
    Declaration,
    Nothing,
}

/// What of a node of this kind tells where its errors may be: mostly the kind alone, if such a node has no errors of its
/// own, makes no scope, and hands on what stands round it.
fn skip_test_of(kind: Kind) -> SkipTest
    ensures { result ≡ telling_of kind }
{
    match kind {
        Kind::Program
        | Kind::FunctionExpression
        | Kind::ArrowFunctionExpression
        | Kind::ClassExpression
        | Kind::ClassBody
        | Kind::MethodDefinition
        | Kind::TemplateLiteral
        | Kind::TaggedTemplateExpression
        | Kind::MetaProperty
        | Kind::BreakStatement
        | Kind::ContinueStatement
        | Kind::LabeledStatement
        | Kind::SwitchStatement
        | Kind::CatchClause
        | Kind::WhileStatement
        | Kind::DoWhileStatement
        | Kind::ForStatement
        | Kind::ForInStatement
        | Kind::ForOfStatement
        | Kind::FunctionDeclaration
        | Kind::ClassDeclaration => SkipTest::Nothing,
        Kind::Identifier | Kind::ThisExpression | Kind::Literal => SkipTest::Leaf,
        Kind::MemberExpression => SkipTest::Member,
        Kind::CallExpression => SkipTest::Callee,
        Kind::AssignmentExpression | Kind::UpdateExpression => SkipTest::Target,
        Kind::UnaryExpression => SkipTest::Operator,
        Kind::Property => SkipTest::Form,
        Kind::BlockStatement => SkipTest::Items,
        Kind::VariableDeclaration => SkipTest::Declaration,
        kind => skip_test_of_2022(kind),
    }
}

/// What tells where errors stand, of the kinds of the language of 2022.
fn skip_test_of_2022(kind: Kind) -> SkipTest
    ensures { result ≡ telling_of_2022 kind }
{
    match kind {
        Kind::PrivateIdentifier
        | Kind::YieldExpression
        | Kind::AwaitExpression
        | Kind::PropertyDefinition
        | Kind::StaticBlock
        | Kind::ImportDeclaration
        | Kind::ImportSpecifier
        | Kind::ExportSpecifier
        | Kind::ExportNamedDeclaration
        | Kind::ExportAllDeclaration => SkipTest::Nothing,
        Kind::ObjectExpression => SkipTest::Object,
        _ => SkipTest::Kind,
    }
}

/// Where errors of a node may be, whatever else stands round it; `no_arguments`: it stands in the value of a field or in a static block.
#[inline(always)]
pub(crate) fn error_places(node: Node, no_arguments: bool) -> ErrorPlaces
    ensures { IsWhere no_arguments result (node_tree node.entry) }
{
    match skip_test_of(node.kind()) {
        SkipTest::Leaf => nowhere_if(is_quiet(node, no_arguments)),
        SkipTest::Kind => ErrorPlaces::InParts,
        SkipTest::Nothing => ErrorPlaces::Anywhere,
        telling => where_by(telling, node, no_arguments),
    }
}

/// Where errors may stand, by what tells it of a node of its kind.
#[inline(never)]
fn where_by(telling: SkipTest, node: Node, no_arguments: bool) -> ErrorPlaces
    requires { telling ≡ telling_of (kind_of (node_tree node)) }
    ensures { IsWhere no_arguments result (node_tree node.entry) }
{
    match telling {
        SkipTest::Member => in_member(node, no_arguments),
        SkipTest::Callee => in_parts_unless(has_super(node.part(0))),
        SkipTest::Target => in_parts_unless(binds_restricted(node.part(0))),
        SkipTest::Operator => in_parts_unless(may_not_delete(node)),
        SkipTest::Form => in_parts_unless(either(no_arguments, is_method(node.flags().form))),
        SkipTest::Object => in_parts_unless(has_proto(node)),
        SkipTest::Items => in_parts_unless(declares_names(node)),
        SkipTest::Declaration => in_parts_unless(declares_more(node)),
        _ => ErrorPlaces::Anywhere,
    }
}

/// No errors anywhere if `is_quiet`, else they may be anywhere.
#[inline(always)]
fn nowhere_if(is_quiet: bool) -> ErrorPlaces
    ensures { (b : Bool) → (t : Tree) → OnTrue is_quiet (IsQuiet b t) → IsWhere b result t }
{
    if is_quiet {
        ErrorPlaces::Nowhere
    } else {
        ErrorPlaces::Anywhere
    }
}

/// Errors in the parts only, unless `is_special`: then they may be anywhere.
#[inline(always)]
fn in_parts_unless(is_special: bool) -> ErrorPlaces
    ensures { (b : Bool) → (t : Tree) → OnFalse is_special (IsOpen b t) → IsWhere b result t }
{
    if is_special {
        ErrorPlaces::Anywhere
    } else {
        ErrorPlaces::InParts
    }
}

/// Whether a node is a leaf that has no errors: a name, but `arguments` where that may not stand, `this`, or a literal but for a
/// regular expression.
#[inline(always)]
fn is_quiet(node: Node, no_arguments: bool) -> bool
    ensures { OnTrue result (IsQuiet no_arguments (node_tree node.entry)) }
{
    if node.part_count() > 0 {
        return false;
    }
    says_nothing(node, no_arguments)
}

/// Whether the kind and text are those of a leaf without errors.
#[inline(always)]
fn says_nothing(node: Node, no_arguments: bool) -> bool
    ensures { result ≡ says_nothing no_arguments (kind_of (node_tree node.entry)) (text_of (node_tree node.entry)) }
{
    match node.kind() {
        Kind::Identifier => !(no_arguments && node.text() == "arguments"),
        Kind::ThisExpression => true,
        Kind::Literal => !begins_with_slash(node.text()),
        _ => false,
    }
}

/// Whether a part that may be missing has no errors.
fn is_silent(part: Option<Node>, no_arguments: bool) -> bool
    ensures { OnTrue result (IsSilent no_arguments (option_map node_tree part.entry)) }
{
    match part {
        Some(part) => is_quiet(part, no_arguments),
        None => true,
    }
}

/// Where errors of a member expression may be: anywhere where `arguments` may not stand, since the name behind the `.` may.
fn in_member(node: Node, no_arguments: bool) -> ErrorPlaces
    requires { telling_of (kind_of (node_tree node)) ≡ SkipTest.Member }
    ensures { IsWhere no_arguments result (node_tree node.entry) }
{
    if no_arguments {
        return ErrorPlaces::Anywhere;
    }
    where_in_member(node)
}

/// Where errors may stand in a member, where `arguments` may stand: nowhere where both its parts are leaves without errors.
fn where_in_member(node: Node) -> ErrorPlaces
    requires { telling_of (kind_of (node_tree node)) ≡ SkipTest.Member }
    ensures { IsWhere false result (node_tree node.entry) }
{
    let head = node.part(0);
    if has_super(head) {
        return ErrorPlaces::Anywhere;
    }
    if node.part_count() > 2 {
        return ErrorPlaces::InParts;
    }
    if is_silent(head, false) && is_silent(node.part(1), false) {
        return ErrorPlaces::Nowhere;
    }
    ErrorPlaces::InParts
}

/// Whether a head is `super`.
fn has_super(head: Option<Node>) -> bool
    ensures { result ≡ is_super_at (option_map node_tree head.entry) }
{
    match head {
        Some(head) => head.kind().is_super(),
        None => false,
    }
}

/// Whether a target may name `eval` or `arguments`.
fn binds_restricted(target: Option<Node>) -> bool
    ensures { OnFalse result (filter is_restricted (names_at (option_map node_tree target.entry)) ≡ []) }
{
    match target {
        Some(target) => names_restricted(target),
        None => false,
    }
}

/// Whether a target may name `eval` or `arguments`.
fn names_restricted(target: Node) -> bool
    ensures { OnFalse result (filter is_restricted (names_in (node_tree target.entry)) ≡ []) }
{
    match pattern_names_of(target.kind()) {
        PatternNames::Nothing => false,
        PatternNames::Name => is_restricted(target.text()),
        _ => true,
    }
}

/// Whether a block may declare names but by `var`.
fn declares_names(block: Node) -> bool
    ensures { OnFalse result ((b : _) → each_part (lexical_names b) (parts_of (node_tree block.entry)) ≡ []) }
{
    for index in 0..block.part_count() {
        if declares(block.part(index)) {
            return true;
        }
    }
    false
}

/// Whether an item may declare names but by `var`.
fn declares(item: Option<Node>) -> bool
    ensures { OnFalse result ((b : _) → at_part (lexical_names b) (option_map node_tree item.entry) ≡ []) }
{
    match item {
        Some(item) => is_lexical(item),
        None => false,
    }
}

/// Whether an item, exported or not, may declare names lexically.
fn is_lexical(item: Node) -> bool
    ensures { OnFalse result ((b : _) → lexical_names b (node_tree item.entry) ≡ []) }
{
    match lexical_of(declaration_of(item), &lexical_as(true)) {
        Lexical::Nothing => false,
        _ => true,
    }
}

/// Whether a declaration is more than a `let` or `const` of one name, other than `eval` and `arguments`, with an initializer.
fn declares_more(declaration: Node) -> bool
    requires { telling_of (kind_of (node_tree declaration)) ≡ SkipTest.Declaration }
    ensures { OnFalse result ((b : Bool) → IsOpen b (node_tree declaration.entry)) }
{
    if declaration.text() == "var" {
        return true;
    }
    if declaration.part_count() > 1 {
        return true;
    }
    match declaration.part(0) {
        Some(declarator) => binds_more(declarator),
        None => true,
    }
}

/// Whether a declarator has no initializer, or binds more than one name other than `eval` and `arguments`.
fn binds_more(declarator: Node) -> bool
    ensures { OnFalse result (BindsOne (node_tree declarator.entry)) }
{
    let Some(_) = declarator.part(1) else {
        return true;
    };
    match declarator.part(0) {
        Some(target) => is_restricted_or_pattern(target),
        None => true,
    }
}

/// Whether a target is no name, or `eval` or `arguments`.
fn is_restricted_or_pattern(target: Node) -> bool
    ensures { OnFalse result (AreFree (names_in (node_tree target.entry))) }
{
    match pattern_names_of(target.kind()) {
        PatternNames::Name => is_restricted(target.text()),
        _ => true,
    }
}
