//! The outlines of imports and exports, and of their names (ECMA-262, 13th edition, 16.2).

ghost use Rattle.std.specs.Prelude.{◌≡◌, Some, cond, option_map};
ghost use Rattle.tree.specs.Node.{node_tree};
ghost use Rattle.tree.specs.Tree.{flags_of, kind_of, parts_of};
ghost use Rattle.language.specs.declared.Rank.TheVariants.{Primary};
ghost use Rattle.language.specs.declared.Start.TheVariants.{Any, Statement};
ghost use Rattle.language.specs.FirstPart.{goes_left as begins_with_first, is_braced as is_braced_kind, lead, others};
ghost use Rattle.language.specs.Statements.{is_one};
ghost use Rattle.spelling_table.specs.declared.outline.FixedSlots.TheVariants.{Zero};
ghost use Rattle.spelling_table.specs.declared.outline.ListSlots.TheVariants.{Specifiers};
ghost use Rattle.spelling_table.specs.Outlines.{lined, parts_after};
ghost use Rattle.spelling_table.specs.Productions.{outline_of};
ghost use Rattle.spellings.specs.Entries.{around, behind_default_fits as parts_behind_default_fit, export_fits as parts_of_export_fit, import_fits as parts_of_import_fit, is_export_specifier as is_of_export, is_import_specifier as is_of_import, part_begins_with_brace, specifiers_fit as specifiers_of_import_fit};
ghost use Rattle.spellings.specs.Expressions.{only_if};
ghost use Rattle.spellings.specs.Modules.{default_at, default_item_outline as outline_of_default_item, default_outline as outline_of_default, export_all_outline as outline_of_export_all, export_outline as outline_of_export, exported_outline as outline_of_exported, imported_outline as outline_of_imported, is_exported_kind as may_be_exported, module_item_outline as outline_of_module_item, module_name_at, sole_outline as outline_of_sole, specifier_outline as outline_of_specifier};

use crate::expressions::{class_production, function_production, kind_at};
use crate::parts::{PartAt, part_at};
use language::{Rank, Start};
use spelling_table::{Position, Production};
use tree::{Flags, Form, Kind, Node};

/// An import or export among a module's items.
#[tactic(auto, using(crate::proofs::ModuleParts::braced_first))]
pub(crate) fn module_item_production(node: Node) -> Option<Production>
    ensures { option_map outline_of result ≡ outline_of_module_item (kind_of (node_tree node.entry)) (around (parts_of (node_tree node.entry))) }
{
    let (first, second, third) = (part_at(node, 0), part_at(node, 1), part_at(node, 2));
    match node.kind() {
        Kind::ImportDeclaration => import_production(import_fits(node)),
        Kind::ExportNamedDeclaration => export_production(first, second, third, export_fits(node)),
        Kind::ExportDefaultDeclaration => {
            default_production(first, second, begins_with_brace(node.part(0)))
        }
        Kind::ExportAllDeclaration => export_all_production(first, second, third),
        _ => None,
    }
}

/// An import, by whether its parts are in order.
fn import_production(fits: bool) -> Option<Production>
    ensures { option_map outline_of result ≡ only_if fits (Some (lined Primary Zero Specifiers 0)) }
{
    if !fits {
        return None;
    }
    Some(Production::ImportList)
}

/// Whether the parts of an import are in order, by the kind of the first.
fn import_fits(import: Node) -> bool
    ensures { result ≡ parts_of_import_fit (lead (parts_of (node_tree import.entry))) (parts_of (node_tree import.entry)) }
{
    let first = kind_at(part_at(import, 0));
    match first {
        Kind::Literal => is_last(import, 0),
        Kind::ImportNamespaceSpecifier => is_last(import, 1),
        Kind::ImportSpecifier => specifiers_fit(import, 0),
        Kind::ImportDefaultSpecifier => behind_default_fits(import),
        _ => false,
    }
}

/// Whether the parts behind a default name suit, by the kind of the second.
fn behind_default_fits(import: Node) -> bool
    ensures { result ≡ parts_behind_default_fit (lead (others (parts_of (node_tree import.entry)))) (others (parts_of (node_tree import.entry))) }
{
    let second = kind_at(part_at(import, 1));
    match second {
        Kind::Literal => is_last(import, 1),
        Kind::ImportNamespaceSpecifier => is_last(import, 2),
        Kind::ImportSpecifier => specifiers_fit(import, 1),
        _ => false,
    }
}

/// Whether a part stands at a place, and nothing behind it.
fn is_last(node: Node, index: usize) -> bool
    ensures { result ≡ is_one (parts_after index (parts_of (node_tree node.entry))) }
{
    let Some(_) = node.part(index) else {
        return false;
    };
    node.part_count() - index == 1
}

/// Whether the parts from a place on are specifiers of an import, and behind them one part more.
fn specifiers_fit(import: Node, from: usize) -> bool
    ensures { result ≡ specifiers_of_import_fit (parts_after from (parts_of (node_tree import.entry))) }
{
    let count = import.part_count();
    if count <= from {
        return false;
    }
    for index in from..count - 1 {
        if !is_import_specifier(kind_at(part_at(import, index))) {
            return false;
        }
    }
    match import.part(count - 1) {
        Some(_) => true,
        None => false,
    }
}

/// Whether a node of this kind is a name of an import.
fn is_import_specifier(kind: Kind) -> bool
    ensures { result ≡ is_of_import kind }
{
    matches!(kind, Kind::ImportSpecifier)
}

/// Whether a node of this kind is a name of an export.
fn is_export_specifier(kind: Kind) -> bool
    ensures { result ≡ is_of_export kind }
{
    matches!(kind, Kind::ExportSpecifier)
}

/// The export of a declaration, or of names, by what stands at its first three places, and whether the parts behind the first are in order.
fn export_production(first: PartAt, second: PartAt, third: PartAt, fits: bool) -> Option<Production>
    ensures { option_map outline_of result ≡ outline_of_export first second third fits }
{
    match (first, second, third) {
        (PartAt::Part(kind), PartAt::Gap, PartAt::Past) => {
            if !is_exported_kind(kind) {
                return None;
            }
            Some(Production::Single(Position::StatementListItem { returns: false }))
        }
        (PartAt::Gap, _, _) => {
            if !fits {
                return None;
            }
            Some(Production::ExportList)
        }
        _ => None,
    }
}

/// Whether a declaration of this kind may be exported by its names.
fn is_exported_kind(kind: Kind) -> bool
    ensures { result ≡ may_be_exported kind }
{
    match kind {
        Kind::FunctionDeclaration | Kind::ClassDeclaration | Kind::VariableDeclaration => true,
        _ => false,
    }
}

/// Whether the parts of an export behind the first are specifiers, and then a source or a gap.
fn export_fits(export: Node) -> bool
    ensures { result ≡ parts_of_export_fit (others (parts_of (node_tree export.entry))) }
{
    let count = export.part_count();
    if count < 2 {
        return false;
    }
    for index in 1..count - 1 {
        if !is_export_specifier(kind_at(part_at(export, index))) {
            return false;
        }
    }
    true
}

/// An export of an expression, a function or a class as the default, by whether it begins with `{`.
fn default_production(first: PartAt, second: PartAt, is_braced: bool) -> Option<Production>
    ensures { option_map outline_of result ≡ outline_of_default first second is_braced }
{
    match (first, second) {
        (PartAt::Part(kind), PartAt::Past) => {
            Some(Production::Single(default_position(kind, is_braced)))
        }
        _ => None,
    }
}

/// The position of what is exported so.
fn default_position(kind: Kind, is_braced: bool) -> Position
    ensures { result ≡ default_at kind is_braced }
{
    match kind {
        Kind::FunctionDeclaration | Kind::ClassDeclaration => Position::DefaultItem,
        _ => Position::Expression {
            rank: Rank::Assignment,
            has_in: true,
            start: default_start(is_braced),
        },
    }
}

/// Where an expression that is exported so begins: it may begin with `{`, if it does, and else with neither `function` nor `class`.
fn default_start(is_braced: bool) -> Start
    ensures { result ≡ cond is_braced Any Statement }
{
    if is_braced {
        Start::Any
    } else {
        Start::Statement
    }
}

/// Whether a part, groups aside, begins with `{`.
#[tactic(auto, using(tree::proofs::PartWalk::part_steps))]
fn begins_with_brace(part: Option<Node>) -> bool
    ensures { result ≡ part_begins_with_brace (option_map node_tree part.entry) }
{
    let Some(node) = part else {
        return false;
    };
    if !goes_left(node.kind(), node.flags()) {
        return is_braced(node.kind());
    }
    begins_with_brace(node.part(0))
}

/// Whether a node of this kind is braces round its parts.
fn is_braced(kind: Kind) -> bool
    ensures { result ≡ is_braced_kind kind }
{
    matches!(kind, Kind::ObjectExpression | Kind::ObjectPattern)
}

/// Whether a node of this kind begins with its first part.
fn goes_left(kind: Kind, flags: Flags) -> bool
    ensures { result ≡ begins_with_first kind flags }
{
    match kind {
        Kind::SequenceExpression
        | Kind::AssignmentExpression
        | Kind::ConditionalExpression
        | Kind::LogicalExpression
        | Kind::BinaryExpression
        | Kind::ChainExpression
        | Kind::CallExpression
        | Kind::MemberExpression
        | Kind::TaggedTemplateExpression => true,
        Kind::UpdateExpression => !flags.prefix,
        _ => false,
    }
}

/// An export of all names of another module.
fn export_all_production(first: PartAt, second: PartAt, third: PartAt) -> Option<Production>
    ensures { option_map outline_of result ≡ outline_of_export_all first second third }
{
    match (first, second, third) {
        (PartAt::Gap, PartAt::Part(_), PartAt::Past) => {
            Some(Production::Single(Position::DirectiveString))
        }
        (PartAt::Part(name), PartAt::Part(_), PartAt::Past) => {
            Some(Production::Pair(module_name_position(name), Position::DirectiveString))
        }
        _ => None,
    }
}

/// The position of a name or a string, of this kind.
fn module_name_position(kind: Kind) -> Position
    ensures { result ≡ module_name_at kind }
{
    if kind.is_identifier() {
        Position::IdentifierName
    } else {
        Position::DirectiveString
    }
}

/// A name of an import or export, with its alias.
pub(crate) fn specifier_production(node: Node) -> Option<Production>
    ensures { option_map outline_of result ≡ outline_of_specifier (kind_of (node_tree node.entry)) (flags_of (node_tree node.entry)) (around (parts_of (node_tree node.entry))) }
{
    let (first, second, third) = (part_at(node, 0), part_at(node, 1), part_at(node, 2));
    match node.kind() {
        Kind::ImportDefaultSpecifier | Kind::ImportNamespaceSpecifier => {
            sole_production(first, second, Position::Name)
        }
        Kind::ImportSpecifier => imported_production(node.flags().form, first, second, third),
        Kind::ExportSpecifier => exported_production(node.flags().form, first, second, third),
        _ => None,
    }
}

/// A node with one part, at a position.
fn sole_production(first: PartAt, second: PartAt, position: Position) -> Option<Production>
    ensures { option_map outline_of result ≡ outline_of_sole first second position }
{
    match (first, second) {
        (PartAt::Part(_), PartAt::Past) => Some(Production::Single(position)),
        _ => None,
    }
}

/// A name of an import, by its form and parts: the local one alone, or behind the other module's.
fn imported_production(
    form: Form,
    first: PartAt,
    second: PartAt,
    third: PartAt,
) -> Option<Production>
    ensures { option_map outline_of result ≡ outline_of_imported form first second third }
{
    match (form, first, second, third) {
        (Form::Shorthand, PartAt::Part(_), PartAt::Past, _) => {
            Some(Production::Single(Position::Name))
        }
        (Form::Init, PartAt::Part(name), PartAt::Part(_), PartAt::Past) => {
            Some(Production::Pair(module_name_position(name), Position::Name))
        }
        _ => None,
    }
}

/// A name of an export, by its form and parts.
fn exported_production(
    form: Form,
    first: PartAt,
    second: PartAt,
    third: PartAt,
) -> Option<Production>
    ensures { option_map outline_of result ≡ outline_of_exported form first second third }
{
    match (form, first, second, third) {
        (Form::Shorthand, PartAt::Part(name), PartAt::Past, _) => {
            Some(Production::Single(module_name_position(name)))
        }
        (Form::Init, PartAt::Part(local), PartAt::Part(exported), PartAt::Past) => {
            Some(Production::Pair(module_name_position(local), module_name_position(exported)))
        }
        _ => None,
    }
}

/// A function or class that is a default export: its name may be missing.
pub(crate) fn default_item_production(node: Node) -> Option<Production>
    ensures { option_map outline_of result ≡ outline_of_default_item (kind_of (node_tree node.entry)) (flags_of (node_tree node.entry)) (around (parts_of (node_tree node.entry))) }
{
    match node.kind() {
        Kind::FunctionDeclaration => function_production(node.flags().form, part_at(node, 0)),
        Kind::ClassDeclaration => class_production(part_at(node, 0), part_at(node, 1)),
        _ => None,
    }
}
