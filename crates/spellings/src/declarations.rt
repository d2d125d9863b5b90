//! The outlines of items, openings, bodies, declarations, cases and handlers (ECMA-262 13 to 15).

ghost use Rattle.std.specs.Prelude.{◌≡◌, option_map};
ghost use Rattle.tree.specs.Node.{node_tree};
ghost use Rattle.tree.specs.Tree.{kind_of, text_of, flags_of, parts_of};
ghost use Rattle.language.specs.Statements.{is_string_literal as is_string_of_kind};
ghost use Rattle.spellings.specs.Entries.{around};
ghost use Rattle.spellings.specs.Statements.{named_only as outline_named_only, is_declaring as is_word_of_declaration, item_outline as outline_of_item, opened_outline as outline_opened, opening_outline as outline_of_opening, block_outline as outline_of_block, body_outline as outline_of_body, script_outline as outline_of_script, program_outline as outline_of_program, is_one_part as is_one_of, head_outline as outline_of_head, initialised as outline_initialised, bare_name as outline_of_bare_name, declared_outline as outline_of_declared, declarator_outline as outline_of_declarator, tested_outline as outline_tested, case_outline as outline_of_case, caught as outline_caught, caught_outline as outline_of_caught, handler_outline as outline_of_handler};
ghost use Rattle.spelling_table.specs.Productions.{outline_of};

use crate::expressions::{class_production, function_production, kind_at};
use crate::parts::{PartAt, part_at, part_text};
use crate::statements::{EVALUATED, declaration_production, is_part, statement_production};
use crate::words::is_string_literal;
use language::{Rank, Start};
use spelling_table::{Position, Production, bound};
use tree::{Kind, Node};

/// A statement, or a declaration that is none; the flag allows `return`.
pub(crate) fn item_production(node: Node, returns: bool) -> Option<Production>
    ensures { option_map outline_of result ≡ outline_of_item returns (kind_of (node_tree node.entry)) (text_of (node_tree node.entry)) (flags_of (node_tree node.entry)) (around (parts_of (node_tree node.entry))) }
{
    let first = part_at(node, 0);
    match node.kind() {
        Kind::FunctionDeclaration => {
            named_only(first, function_production(node.flags().form, first))
        }
        Kind::ClassDeclaration => named_only(first, class_production(first, part_at(node, 1))),
        Kind::VariableDeclaration => declaration_production(is_declaring(node.text())),
        _ => statement_production(node, returns),
    }
}

/// What has to have a name.
fn named_only(name: PartAt, production: Option<Production>) -> Option<Production>
    ensures { option_map outline_of result ≡ outline_named_only name (option_map outline_of production) }
{
    match name {
        PartAt::Part(_) => production,
        PartAt::Past | PartAt::Gap => None,
    }
}

/// Whether the text is the word of a declaration.
fn is_declaring(word: &str) -> bool
    ensures { result ≡ is_word_of_declaration word.now }
{
    matches!(word, "var" | "let" | "const")
}

/// An item before which all are directives.
pub(crate) fn prologue_item_production(node: Node, returns: bool) -> Option<Production>
    ensures { option_map outline_of result ≡ outline_of_opening returns (kind_of (node_tree node.entry)) (text_of (node_tree node.entry)) (flags_of (node_tree node.entry)) (around (parts_of (node_tree node.entry))) }
{
    match node.kind() {
        Kind::ExpressionStatement => {
            let flags = node.flags();
            let is_string = is_string_literal(kind_at(part_at(node, 0)), part_text(node, 0));
            opened_production(flags.directive, is_string)
        }
        _ => item_production(node, returns),
    }
}

/// An expression as a statement: whether it is a directive, and whether it is a string.
fn opened_production(is_directive: bool, is_string: bool) -> Option<Production>
    ensures { option_map outline_of result ≡ outline_opened is_directive is_string }
{
    match (is_directive, is_string) {
        (true, true) => Some(Production::Single(Position::DirectiveString)),
        (true, false) => None,
        (false, true) => Some(Production::Single(Position::Expression {
            rank: Rank::Grouped,
            has_in: true,
            start: Start::Any,
        })),
        (false, false) => Some(Production::Single(EVALUATED)),
    }
}

/// The production of a Block (13.2); none for other kinds.
pub(crate) fn block_production(kind: Kind, returns: bool) -> Option<Production>
    ensures { option_map outline_of result ≡ outline_of_block returns kind }
{
    match kind {
        Kind::BlockStatement => Some(Production::Items { returns }),
        _ => None,
    }
}

/// A function's body.
pub(crate) fn body_production(kind: Kind) -> Option<Production>
    ensures { option_map outline_of result ≡ outline_of_body kind }
{
    match kind {
        Kind::BlockStatement => Some(Production::Prologue { returns: true }),
        _ => None,
    }
}

/// The production of a script (15.1) or a module (13th edition, 16.2), by the Program's text; none for other kinds.
pub(crate) fn script_production(kind: Kind, text: &str) -> Option<Production>
    ensures { option_map outline_of result ≡ outline_of_script kind text.now }
{
    match kind {
        Kind::Program => program_production(text),
        _ => None,
    }
}

/// The production of a Program of a language, by its text.
fn program_production(text: &str) -> Option<Production>
    ensures { option_map outline_of result ≡ outline_of_program text.now }
{
    if text.is_empty() || text == "2022" {
        return Some(Production::Prologue { returns: false });
    }
    if text == "module" {
        return Some(Production::Module);
    }
    None
}

/// A declaration in the head of a `for`.
pub(crate) fn for_declaration_production(node: Node, initialised: bool) -> Option<Production>
    ensures { option_map outline_of result ≡ outline_of_head initialised (kind_of (node_tree node.entry)) (text_of (node_tree node.entry)) (around (parts_of (node_tree node.entry))) }
{
    match node.kind() {
        Kind::VariableDeclaration => {
            if !is_declaring(node.text()) || (!initialised && !is_one_part(node)) {
                return None;
            }
            Some(Production::Declarators(Position::Declarator {
                has_in: false,
                initialised,
            }))
        }
        _ => None,
    }
}

/// Whether the node has exactly one part, and it isn't a gap.
fn is_one_part(node: Node) -> bool
    ensures { result ≡ is_one_of (around (parts_of (node_tree node.entry))) }
{
    is_part(part_at(node, 0)) && matches!(part_at(node, 1), PartAt::Past)
}

/// A declarator: its In, and whether it may have an initialiser.
pub(crate) fn declarator_production(
    node: Node,
    has_in: bool,
    initialised: bool,
) -> Option<Production>
    ensures { option_map outline_of result ≡ outline_of_declarator has_in initialised (kind_of (node_tree node.entry)) (around (parts_of (node_tree node.entry))) }
{
    match node.kind() {
        Kind::VariableDeclarator => {
            let (name, value) = (part_at(node, 0), part_at(node, 1));
            declared_production(has_in, initialised, name, value, part_at(node, 2))
        }
        _ => None,
    }
}

/// The production of a declarator, by its name, its initializer and what stands after them (13.3).
fn declared_production(
    has_in: bool,
    initialised: bool,
    name: PartAt,
    value: PartAt,
    other: PartAt,
) -> Option<Production>
    ensures { option_map outline_of result ≡ outline_of_declared has_in initialised name value other }
{
    match (name, value, other) {
        (PartAt::Part(kind), PartAt::Part(_), PartAt::Past) => {
            if !initialised {
                return None;
            }
            with_initialiser(has_in, bound(true, kind))
        }
        (PartAt::Part(kind), PartAt::Gap, PartAt::Past) => {
            if initialised && kind.is_pattern() {
                return None;
            }
            bare_name(bound(true, kind))
        }
        _ => None,
    }
}

/// The production of a declarator with an initializer, by its name's position; none if there is none.
fn with_initialiser(has_in: bool, name: Option<Position>) -> Option<Production>
    ensures { option_map outline_of result ≡ outline_initialised has_in name }
{
    match name {
        Some(name) => Some(Production::Initialised { name, has_in }),
        None => None,
    }
}

/// The production of a declarator without an initializer, by its name's position; none if there is none.
fn bare_name(name: Option<Position>) -> Option<Production>
    ensures { option_map outline_of result ≡ outline_of_bare_name name }
{
    match name {
        Some(name) => Some(Production::Single(name)),
        None => None,
    }
}

/// A case of a switch.
pub(crate) fn case_production(node: Node, returns: bool) -> Option<Production>
    ensures { option_map outline_of result ≡ outline_of_case returns (kind_of (node_tree node.entry)) (around (parts_of (node_tree node.entry))) }
{
    match node.kind() {
        Kind::SwitchCase => tested_production(returns, part_at(node, 0)),
        _ => None,
    }
}

/// The production of a statement with a test, by what stands at the place of its test.
fn tested_production(returns: bool, test: PartAt) -> Option<Production>
    ensures { option_map outline_of result ≡ outline_tested returns test }
{
    match test {
        PartAt::Past => None,
        PartAt::Gap => Some(Production::Case {
            has_test: false,
            returns,
        }),
        PartAt::Part(_) => Some(Production::Case {
            has_test: true,
            returns,
        }),
    }
}

/// What catches.
pub(crate) fn catch_clause_production(node: Node, returns: bool) -> Option<Production>
    ensures { option_map outline_of result ≡ outline_of_handler returns (kind_of (node_tree node.entry)) (around (parts_of (node_tree node.entry))) }
{
    match node.kind() {
        Kind::CatchClause => caught_production(returns, part_at(node, 0)),
        _ => None,
    }
}

/// The production of a `catch`, by what stands at the place of its parameter.
fn caught_production(returns: bool, parameter: PartAt) -> Option<Production>
    ensures { option_map outline_of result ≡ outline_of_caught returns parameter }
{
    match parameter {
        PartAt::Past => None,
        PartAt::Gap => Some(Production::Single(Position::Block { returns })),
        PartAt::Part(kind) => caught(returns, bound(true, kind)),
    }
}

/// The production of a Catch, by its parameter's position; none if there is none.
fn caught(returns: bool, parameter: Option<Position>) -> Option<Production>
    ensures { option_map outline_of result ≡ outline_caught returns parameter }
{
    match parameter {
        Some(parameter) => Some(Production::Catch { parameter, returns }),
        None => None,
    }
}
