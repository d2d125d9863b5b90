//! The outlines of statements (ECMA-262 13).

ghost use Rattle.std.specs.Prelude.{◌≡◌, option_map, cond, ◌||◌};
ghost use Rattle.tree.specs.Node.{node_tree};
ghost use Rattle.tree.specs.Tree.{kind_of, text_of, flags_of, parts_of};
ghost use Rattle.language.specs.Statements.{is_declaration as declares};
ghost use Rattle.spellings.specs.Entries.{around};
ghost use Rattle.spellings.specs.Statements.{declaration_outline as outline_of_declaration, expression_statement_outline as outline_of_expression_statement, if_outline as outline_of_if, for_outline as outline_of_for, left_at as position_of_left, each_outline as outline_of_each, word_outline as outline_of_word, return_outline as outline_of_return, switch_outline as outline_of_switch, try_outline as outline_of_try, loop_outline as outline_of_loop, branch_outline as outline_of_branch, statement_outline as outline_of_statement, is_part as is_part_entry};
ghost use Rattle.spellings.specs.Expressions.{is_arrow_form, is_past as is_past_entry, only_if};
ghost use Rattle.spelling_table.specs.Outlines.{assignment_at, whole_at};
ghost use Rattle.spelling_table.specs.Productions.{outline_of};
ghost use Rattle.spellings.specs.Statements.{init_of as init_at_entry};
ghost use Rattle.spelling_table.specs.declared.production.ForInit.TheVariants;

use crate::dangling::{dangles, has_two_defaults};
use crate::expressions::{is_arrow_form, kind_at};
use crate::parts::{PartAt, part_at};
use language::{Rank, Start};
use spelling_table::{ForInit, Position, Production, TryClauses, WHOLE, bound};
use tree::{Flags, Form, Kind, Node};

/// A statement; the flag allows `return`.
pub(crate) fn statement_production(node: Node, returns: bool) -> Option<Production>
    ensures { option_map outline_of result ≡ outline_of_statement returns (kind_of (node_tree node.entry)) (text_of (node_tree node.entry)) (flags_of (node_tree node.entry)) (around (parts_of (node_tree node.entry))) }
{
    match node.kind() {
        Kind::VariableDeclaration => declaration_production(node.text() == "var"),
        Kind::EmptyStatement => Some(Production::Leaf),
        Kind::ExpressionStatement => expression_statement_production(node.flags()),
        Kind::ContinueStatement => word_production(part_at(node, 0), Position::Name),
        Kind::BreakStatement => word_production(part_at(node, 0), Position::Name),
        Kind::ReturnStatement => return_production(returns, part_at(node, 0)),
        Kind::ThrowStatement => Some(Production::Single(WHOLE)),
        Kind::DebuggerStatement => Some(Production::Leaf),
        _ => branch_production(node, returns),
    }
}

/// Statements that hold others.
fn branch_production(node: Node, returns: bool) -> Option<Production>
    ensures { option_map outline_of result ≡ outline_of_branch returns (kind_of (node_tree node.entry)) (flags_of (node_tree node.entry)) (around (parts_of (node_tree node.entry))) }
{
    let (first, second) = (part_at(node, 0), part_at(node, 1));
    let (third, fourth) = (part_at(node, 2), part_at(node, 3));
    match node.kind() {
        Kind::BlockStatement => Some(Production::Items { returns }),
        Kind::IfStatement => {
            if_production(returns, dangles(node, 1), first, second, third, fourth)
        }
        Kind::LabeledStatement => Some(Production::Labeled { returns }),
        Kind::SwitchStatement => switch_production(returns, has_two_defaults(node)),
        Kind::TryStatement => try_production(returns, first, second, third, fourth),
        _ => loop_production(node, returns),
    }
}

/// Loops.
fn loop_production(node: Node, returns: bool) -> Option<Production>
    ensures { option_map outline_of result ≡ outline_of_loop returns (kind_of (node_tree node.entry)) (flags_of (node_tree node.entry)) (around (parts_of (node_tree node.entry))) }
{
    let (first, second) = (part_at(node, 0), part_at(node, 1));
    let left = left_at(kind_at(first));
    match node.kind() {
        Kind::DoWhileStatement => Some(Production::DoWhile { returns }),
        Kind::WhileStatement => Some(Production::While { returns }),
        Kind::ForStatement => for_production(returns, first, second, part_at(node, 2)),
        Kind::ForInStatement => each_production(returns, left, false),
        Kind::ForOfStatement => for_of_production(returns, node.flags().form, left),
        _ => None,
    }
}

/// A for-of, by its form and what stands on its left; none for the forms of other nodes.
fn for_of_production(returns: bool, form: Form, left: Option<Position>) -> Option<Production>
    ensures { option_map outline_of result ≡ only_if (is_arrow_form form) (outline_of_each returns left assignment_at) }
{
    if !is_arrow_form(form) {
        return None;
    }
    each_production(returns, left, true)
}

/// A declaration that ends with `;`, where its word may stand.
pub(crate) fn declaration_production(holds: bool) -> Option<Production>
    ensures { option_map outline_of result ≡ outline_of_declaration holds }
{
    if !holds {
        return None;
    }
    Some(Production::Declarators(Position::Declarator {
        has_in: true,
        initialised: true,
    }))
}

/// The position of an expression that is a statement.
pub(crate) const EVALUATED: Position = Position::Expression {
    rank: Rank::Expression,
    has_in: true,
    start: Start::Statement,
};

/// The production of an ExpressionStatement (13.5) that is no directive.
fn expression_statement_production(flags: Flags) -> Option<Production>
    ensures { option_map outline_of result ≡ outline_of_expression_statement flags }
{
    if flags.directive {
        return None;
    }
    Some(Production::Single(EVALUATED))
}

/// The production of an IfStatement (13.6); none if `else` would belong to a dangling `if` in its first branch.
fn if_production(
    returns: bool,
    dangling: bool,
    test: PartAt,
    consequent: PartAt,
    alternate: PartAt,
    other: PartAt,
) -> Option<Production>
    ensures { option_map outline_of result ≡ outline_of_if returns dangling test consequent alternate other }
{
    match (test, consequent, alternate, other) {
        (PartAt::Part(_), PartAt::Part(_), PartAt::Gap, PartAt::Past) => {
            Some(Production::If {
                has_else: false,
                returns,
            })
        }
        (PartAt::Part(_), PartAt::Part(_), PartAt::Part(_), PartAt::Past) => {
            if dangling {
                return None;
            }
            Some(Production::If {
                has_else: true,
                returns,
            })
        }
        _ => None,
    }
}

/// A `for`, by what stands at the places of its init, test and update.
fn for_production(returns: bool, init: PartAt, test: PartAt, update: PartAt) -> Option<Production>
    ensures { option_map outline_of result ≡ outline_of_for returns init test update }
{
    if is_short(init, test, update) {
        return None;
    }
    let has_test = is_part(test);
    let has_update = is_part(update);
    Some(Production::For {
        init: init_of(init),
        has_test,
        has_update,
        returns,
    })
}

/// Whether the parts end before one of these places.
fn is_short(init: PartAt, test: PartAt, update: PartAt) -> bool
    ensures { result ≡ (is_past_entry init || (is_past_entry test || is_past_entry update)) }
{
    is_past(init) || (is_past(test) || is_past(update))
}

/// Whether the node has no part there, not even a gap.
fn is_past(entry: PartAt) -> bool
    ensures { result ≡ is_past_entry entry }
{
    matches!(entry, PartAt::Past)
}

/// Whether a part is there, and it isn't a gap.
pub(crate) fn is_part(entry: PartAt) -> bool
    ensures { result ≡ is_part_entry entry }
{
    matches!(entry, PartAt::Part(_))
}

/// What stands first in the head of a `for`.
fn init_of(entry: PartAt) -> ForInit
    ensures { result ≡ init_at_entry entry }
{
    match entry {
        PartAt::Part(kind) => init_of_kind(kind),
        PartAt::Past | PartAt::Gap => ForInit::Nothing,
    }
}

/// What stands first in the head of a `for`, by its kind: a declaration or an expression.
fn init_of_kind(kind: Kind) -> ForInit
    ensures { result ≡ cond (declares kind) TheVariants.Declaration TheVariants.Value }
{
    if is_declaration(kind) {
        return ForInit::Declaration;
    }
    ForInit::Value
}

/// Whether the kind is that of a declaration of variables.
fn is_declaration(kind: Kind) -> bool
    ensures { result ≡ declares kind }
{
    matches!(kind, Kind::VariableDeclaration)
}

/// The left side in the head of a for-in or for-of.
fn left_at(kind: Kind) -> Option<Position>
    ensures { result ≡ position_of_left kind }
{
    if is_declaration(kind) {
        return Some(Position::ForDeclaration { initialised: false });
    }
    bound(false, kind)
}

/// A for-in or for-of, by the position of its left side.
fn each_production(returns: bool, left: Option<Position>, is_of: bool) -> Option<Production>
    ensures { option_map outline_of result ≡ outline_of_each returns left (cond is_of assignment_at whole_at) }
{
    match left {
        Some(left) => Some(Production::ForInOf {
            left,
            is_of,
            returns,
        }),
        None => None,
    }
}

/// A word, and perhaps what stands behind it at a position.
fn word_production(entry: PartAt, position: Position) -> Option<Production>
    ensures { option_map outline_of result ≡ outline_of_word entry position }
{
    match entry {
        PartAt::Past => None,
        PartAt::Gap => Some(Production::Leaf),
        PartAt::Part(_) => Some(Production::Single(position)),
    }
}

/// The production of a ReturnStatement (13.10); none where `return` isn't allowed.
fn return_production(returns: bool, value: PartAt) -> Option<Production>
    ensures { option_map outline_of result ≡ outline_of_return returns value }
{
    if returns {
        return word_production(value, WHOLE);
    }
    None
}

/// A switch, whether more than one case has no test.
fn switch_production(returns: bool, defaults_twice: bool) -> Option<Production>
    ensures { option_map outline_of result ≡ outline_of_switch returns defaults_twice }
{
    if defaults_twice {
        return None;
    }
    Some(Production::Switch { returns })
}

/// The production of a TryStatement (13.15), by its parts; none if they aren't those of one.
fn try_production(
    returns: bool,
    block: PartAt,
    handler: PartAt,
    finalizer: PartAt,
    other: PartAt,
) -> Option<Production>
    ensures { option_map outline_of result ≡ outline_of_try returns block handler finalizer other }
{
    let guards = match (block, handler, finalizer, other) {
        (PartAt::Part(_), PartAt::Part(_), PartAt::Gap, PartAt::Past) => TryClauses::Handler,
        (PartAt::Part(_), PartAt::Part(_), PartAt::Part(_), PartAt::Past) => TryClauses::Both,
        (PartAt::Part(_), PartAt::Gap, PartAt::Part(_), PartAt::Past) => TryClauses::Finalizer,
        _ => return None,
    };
    Some(Production::Try { guards, returns })
}
