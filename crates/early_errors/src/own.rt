//! The errors of a node itself, but for those of names that clash with names of `var`s inside.

ghost use Rattle.std.specs.Prelude.{◌≡◌, ◌&&◌, true, false, not, IfOk};
ghost use Rattle.tree.specs.Node.{node_tree};
ghost use Rattle.tree.specs.Tree.{kind_of, parts_of, text_of};
ghost use Rattle.language.specs.FirstPart.{lead};
ghost use Rattle.language.specs.Vocabulary.{is, is_identifier};
ghost use Rattle.early_errors.specs.Early.{each, own_errors};
ghost use Rattle.name_tables.specs.BoundNames.{each_part};
ghost use Rattle.early_errors.specs.Names.{first_names, when};
ghost use Rattle.std.specs.Bool.{OnFalse};
ghost use Rattle.early_errors.specs.Knowing.{KnownRound};
ghost use Rattle.early_errors.specs.Owns.{Beside, doubled, named_errors, nameless, own_of, own_of_2022, plain_errors, round, sort_of, vars_of};
ghost use Rattle.early_errors.specs.PrivateNames.{private_operand};
ghost use Rattle.early_errors.specs.Scopes.{without_initializer};
ghost use Rattle.early_errors.specs.Walk.{after, all_named, hits, look, sooner};

use crate::EarlyError;
use crate::around::Context;
use crate::classes::{class_errors, member_errors, super_errors, target_errors};
use crate::conflicts::{VarConflicts, hits, repeated, reported, restricted};
use crate::fields::{field_errors, name_errors};
use crate::found::{FirstError, with_error_if};
use crate::functions::function_errors;
use crate::labels::{Labels, break_errors, continue_errors};
use crate::literals::{both, literal_errors, template_errors};
use crate::modules::{export_errors, exports_errors, import_errors, lone_surrogates};
use crate::names::{NamePlace, push_declared, push_part_names};
use crate::objects::object_errors;
use crate::private_names::{PrivateNames, is_private_member, undeclared_private_name};
use crate::profile::Language;
use crate::scopes::without_initializer;
use crate::yields::{await_errors, for_of_errors, yield_errors};
use std::alloc::{AllocError, Global};
use tree::{Kind, Node};

/// Which errors a node itself can have.
#[derive(Clone, Copy)]
pub(crate) enum OwnErrors {
    Variables,
    Function,
    FirstNames,
    Break,
    Continue,
    Label,
    ForOf,
    Delete,
    SuperProperty,
    SuperCall,
    Target,
    ClassElements,
    Member,
    Template,
    Literal,
    Name,
    PrivateName,
    Yield,
    Await,
    Field,
    Import,
    ModuleNames,
    ExportAll,
    Export,
    Exports,
    Object,
    Nothing,
}

/// Which errors a node of this kind itself can have.
fn own_of(kind: Kind) -> OwnErrors
    ensures { result ≡ own_of kind }
{
    match kind {
        Kind::VariableDeclaration => OwnErrors::Variables,
        Kind::FunctionDeclaration | Kind::FunctionExpression | Kind::ArrowFunctionExpression => {
            OwnErrors::Function
        }
        Kind::ClassDeclaration
        | Kind::ClassExpression
        | Kind::CatchClause
        | Kind::AssignmentExpression
        | Kind::UpdateExpression
        | Kind::ForInStatement => OwnErrors::FirstNames,
        Kind::ForOfStatement => OwnErrors::ForOf,
        Kind::BreakStatement => OwnErrors::Break,
        Kind::ContinueStatement => OwnErrors::Continue,
        Kind::LabeledStatement => OwnErrors::Label,
        Kind::UnaryExpression => OwnErrors::Delete,
        Kind::MemberExpression => OwnErrors::SuperProperty,
        Kind::CallExpression => OwnErrors::SuperCall,
        Kind::MetaProperty => OwnErrors::Target,
        Kind::ClassBody => OwnErrors::ClassElements,
        Kind::MethodDefinition => OwnErrors::Member,
        Kind::TemplateLiteral => OwnErrors::Template,
        Kind::Literal => OwnErrors::Literal,
        kind => own_of_2022(kind),
    }
}

/// The errors that a node has itself, of the kinds whose errors are those of the language of 2022.
fn own_of_2022(kind: Kind) -> OwnErrors
    ensures { result ≡ own_of_2022 kind }
{
    match kind {
        Kind::Identifier => OwnErrors::Name,
        Kind::PrivateIdentifier => OwnErrors::PrivateName,
        Kind::YieldExpression => OwnErrors::Yield,
        Kind::AwaitExpression => OwnErrors::Await,
        Kind::PropertyDefinition => OwnErrors::Field,
        Kind::ImportDeclaration => OwnErrors::Import,
        Kind::ImportSpecifier | Kind::ExportSpecifier => OwnErrors::ModuleNames,
        Kind::ExportAllDeclaration => OwnErrors::ExportAll,
        Kind::ExportNamedDeclaration => OwnErrors::Export,
        Kind::Program => OwnErrors::Exports,
        Kind::ObjectExpression => OwnErrors::Object,
        _ => OwnErrors::Nothing,
    }
}

/// What stands round a node: what holds there, the language, what a `var` of a name would clash with, labels, and private names.
#[derive(Clone, Copy)]
pub(crate) struct Surroundings<'w, 't> {
    pub(crate) around: Context,
    pub(crate) language: Language,
    pub(crate) vars: &'w VarConflicts<'t>,
    pub(crate) labels: &'w Labels<'t>,
    pub(crate) privates: &'w PrivateNames<'t>,
}

/// The errors of a node itself and of its `var`s, with room for names.
pub(crate) fn own_errors<'t>(
    alloc: Global,
    node: Node<'t, '_>,
    surroundings: Surroundings,
    names: &mut Vec<NamePlace<'t>>,
    found: FirstError,
) -> Result<FirstError, AllocError>
    ensures { IfOk result (λ e. (r : Beside) → KnownRound surroundings.entry r → e ≡ sooner (after found (plain_errors (round surroundings.entry.around r) (node_tree node.entry))) (hits (look surroundings.entry.vars.now) (vars_of (node_tree node.entry)))) }
{
    let own = own_of(node.kind());
    match sort_of(own) {
        OwnErrorInput::Variables => variable_errors(alloc, node, surroundings, names, found),
        OwnErrorInput::Parameters => function_errors(alloc, node, names, found),
        OwnErrorInput::Named => first_name_errors(node, own, surroundings, names, found),
        OwnErrorInput::Nameless => nameless_errors(alloc, node, own, surroundings, found),
    }
}

/// Which names a node's own errors depend on: those of declarators, of parameters, of the first part, or none.
#[derive(Clone, Copy)]
pub(crate) enum OwnErrorInput {
    Variables,
    Parameters,
    Named,
    Nameless,
}

/// Which names these errors depend on.
fn sort_of(own: OwnErrors) -> OwnErrorInput
    ensures { result ≡ sort_of own }
{
    match own {
        OwnErrors::Variables => OwnErrorInput::Variables,
        OwnErrors::Function => OwnErrorInput::Parameters,
        OwnErrors::FirstNames
        | OwnErrors::Break
        | OwnErrors::Continue
        | OwnErrors::Label
        | OwnErrors::ForOf => OwnErrorInput::Named,
        _ => OwnErrorInput::Nameless,
    }
}

/// The errors of a node whose names don't matter.
fn nameless_errors(
    alloc: Global,
    node: Node,
    own: OwnErrors,
    surroundings: Surroundings,
    found: FirstError,
) -> Result<FirstError, AllocError>
    requires own { own ≡ own_of (kind_of (node_tree node)) }
    requires sort { sort_of own ≡ OwnErrorInput.Nameless }
    ensures { IfOk result (λ e. (r : Beside) → KnownRound surroundings.entry r → e ≡ after found (nameless own (round surroundings.entry.around r) (node_tree node.entry))) }
{
    let around = surroundings.around;
    match own {
        OwnErrors::Member => Ok(member_errors(node, found)),
        OwnErrors::Template => template_errors(alloc, node, around, found),
        OwnErrors::Delete => Ok(delete_errors(node, found)),
        OwnErrors::SuperProperty => Ok(super_errors(
            node,
            around.super_property,
            EarlyError::SuperPropertyOutsideMethod,
            found,
        )),
        OwnErrors::SuperCall => Ok(super_errors(
            node,
            around.super_call,
            EarlyError::SuperCallOutsideConstructor,
            found,
        )),
        OwnErrors::Target => Ok(target_errors(node, around, surroundings.language, found)),
        OwnErrors::ClassElements => class_errors(alloc, node, found),
        OwnErrors::Literal => literal_errors(alloc, node, surroundings.language.is_2022, found),
        own => errors_of_2022(alloc, node, own, surroundings, found),
    }
}

/// The errors of a node of the kinds whose errors are those of the language of 2022.
fn errors_of_2022(
    alloc: Global,
    node: Node,
    own: OwnErrors,
    surroundings: Surroundings,
    found: FirstError,
) -> Result<FirstError, AllocError>
    requires { own ≡ own_of_2022 (kind_of (node_tree node)) }
    ensures { IfOk result (λ e. (r : Beside) → KnownRound surroundings.entry r → e ≡ after found (nameless own (round surroundings.entry.around r) (node_tree node.entry))) }
{
    let around = surroundings.around;
    match own {
        OwnErrors::Name => Ok(name_errors(node, around, found)),
        OwnErrors::PrivateName => Ok(undeclared_private_name(node, surroundings.privates, found)),
        OwnErrors::Yield => Ok(yield_errors(node, around, found)),
        OwnErrors::Await => Ok(await_errors(node, around, found)),
        OwnErrors::Field => Ok(field_errors(node, found)),
        OwnErrors::Import => import_errors(alloc, node, found),
        OwnErrors::ModuleNames => lone_surrogates(alloc, node, node.part_count(), found),
        OwnErrors::ExportAll => lone_surrogates(alloc, node, 1, found),
        OwnErrors::Export => Ok(export_errors(node, found)),
        OwnErrors::Exports => exports_errors(alloc, node, found),
        OwnErrors::Object => Ok(object_errors(node, surroundings.language.is_2022, found)),
        _ => Ok(found),
    }
}

/// The names of a declaration: those of a `var` clash with names of the scopes round it.
fn variable_errors<'t>(
    alloc: Global,
    node: Node<'t, '_>,
    surroundings: Surroundings,
    names: &mut Vec<NamePlace<'t>>,
    found: FirstError,
) -> Result<FirstError, AllocError>
    requires { own_of (kind_of (node_tree node)) ≡ OwnErrors.Variables }
    ensures { IfOk result (λ e. (r : Beside) → e ≡ sooner (after found (own_errors (round surroundings.entry.around r) (node_tree node.entry))) (hits (look surroundings.entry.vars.now) (vars_of (node_tree node.entry)))) }
{
    names.clear();
    push_declared(node, names)?;
    let declared = names.as_slice();
    let found = restricted(declared, found);
    declared_errors(alloc, node, surroundings, declared, found)
}

/// The errors of a declaration of these names.
fn declared_errors(
    alloc: Global,
    node: Node,
    surroundings: Surroundings,
    names: &[NamePlace],
    found: FirstError,
) -> Result<FirstError, AllocError>
    ensures var { IfOk result (λ r. is (text_of (node_tree node.entry)) "var" ≡ true → r ≡ sooner found (hits (look surroundings.entry.vars.now) (all_named names.now))) }
    ensures lexical { IfOk result (λ r. is (text_of (node_tree node.entry)) "var" ≡ false → r ≡ after (after found (doubled EarlyError.DuplicateLexicalName (all_named names.now))) (each EarlyError.ConstWithoutInitializer (when (is (text_of (node_tree node.entry)) "const" && not surroundings.entry.around.in_head) (each_part without_initializer (parts_of (node_tree node.entry)))))) }
{
    let word = node.text();
    if word == "var" {
        return Ok(hits(surroundings.vars, names, found));
    }
    let found = repeated(alloc, names, EarlyError::DuplicateLexicalName, found)?;
    if both(word == "const", !surroundings.around.in_head) {
        return Ok(without_initializer(node, found));
    }
    Ok(found)
}

/// The names of a node's first part: those that it binds or assigns, or labels.
fn first_name_errors<'t>(
    node: Node<'t, '_>,
    own: OwnErrors,
    surroundings: Surroundings,
    names: &mut Vec<NamePlace<'t>>,
    found: FirstError,
) -> Result<FirstError, AllocError>
    requires { own ≡ own_of (kind_of (node_tree node)) }
    ensures { IfOk result (λ e. (r : Beside) → KnownRound surroundings.entry r → e ≡ after found (named_errors own (round surroundings.entry.around r) (node_tree node.entry))) }
{
    names.clear();
    push_part_names(node.part(0), names)?;
    Ok(named_found(node, own, surroundings, names.as_slice(), found))
}

/// The errors of these names.
fn named_found(
    node: Node,
    own: OwnErrors,
    surroundings: Surroundings,
    names: &[NamePlace],
    found: FirstError,
) -> FirstError
    requires own { own ≡ own_of (kind_of (node_tree node)) }
    requires names { all_named names.now ≡ first_names (parts_of (node_tree node)) }
    ensures { (r : Beside) → KnownRound surroundings.entry r → result ≡ after found (named_errors own (round surroundings.entry.around r) (node_tree node.entry)) }
{
    let around = surroundings.around;
    let labels = surroundings.labels;
    match own {
        OwnErrors::Break => break_errors(node, around, labels, names, found),
        OwnErrors::Continue => continue_errors(node, around, labels, names, found),
        OwnErrors::Label => reported(names, labels, EarlyError::DuplicateLabel, found),
        OwnErrors::FirstNames => restricted(names, found),
        OwnErrors::ForOf => for_of_errors(
            node,
            around,
            surroundings.language,
            restricted(names, found),
        ),
        _ => found,
    }
}

/// `delete` of an identifier (ECMA-262 12.5.3.1) or of a private member (13th edition, 13.5.1.1), grouped or not.
fn delete_errors(node: Node, found: FirstError) -> FirstError
    requires { own_of (kind_of (node_tree node)) ≡ OwnErrors.Delete }
    ensures { (z : _) → result ≡ after found (own_errors z (node_tree node.entry)) }
{
    let start = node.span().start;
    let found = with_error_if(
        deletes_identifier(node),
        found,
        EarlyError::DeleteOfIdentifier,
        start,
    );
    with_error_if(
        deletes_private(node),
        found,
        EarlyError::DeleteOfPrivate,
        start,
    )
}

/// Whether the node may be a `delete` of what can't be deleted.
pub(crate) fn may_not_delete(node: Node) -> bool
    ensures identifier { OnFalse result ((is (text_of (node_tree node.entry)) "delete" && is_identifier (lead (parts_of (node_tree node.entry)))) ≡ false) }
    ensures member { OnFalse result ((is (text_of (node_tree node.entry)) "delete" && private_operand (parts_of (node_tree node.entry))) ≡ false) }
{
    deletes_identifier(node) || deletes_private(node)
}

/// Whether the node is `delete` of an identifier (12.5.3.1).
fn deletes_identifier(node: Node) -> bool
    ensures { result ≡ (is (text_of (node_tree node.entry)) "delete" && is_identifier (lead (parts_of (node_tree node.entry)))) }
{
    if node.text() != "delete" {
        return false;
    }
    match node.part(0) {
        Some(operand) => operand.kind().is_identifier(),
        None => false,
    }
}

/// Whether the node is `delete` of a private member (13th edition, 13.5.1.1).
fn deletes_private(node: Node) -> bool
    ensures { result ≡ (is (text_of (node_tree node.entry)) "delete" && private_operand (parts_of (node_tree node.entry))) }
{
    if node.text() != "delete" {
        return false;
    }
    match node.part(0) {
        Some(operand) => is_private_member(operand),
        None => false,
    }
}
