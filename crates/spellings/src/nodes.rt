//! Which production spells a node at a position.

ghost use Rattle.std.specs.Prelude.{◌≡◌, true, option_map};
ghost use Rattle.tree.specs.Node.{node_tree};
ghost use Rattle.tree.specs.Tree.{kind_of, flags_of, parts_of};
ghost use Rattle.language.specs.Expressions.{has_optional as is_chained_tree};
ghost use Rattle.spellings.specs.Positions.{outline_at as outline_at_position};
ghost use Rattle.spellings.specs.Entries.{entry_at};
ghost use Rattle.spellings.specs.Expressions.{kind_at as kind_of_entry};
ghost use Rattle.spellings.specs.Others.{pattern_property_outline as outline_of_pattern_property, element_outline as outline_of_element, rest_outline as outline_of_rest};
ghost use Rattle.spelling_table.specs.Productions.{outline_of};

use crate::chain::chain_part_production;
use crate::declarations::{
    block_production, body_production, case_production, catch_clause_production,
    declarator_production, for_declaration_production, item_production, prologue_item_production,
    script_production,
};
use crate::expressions::{expression_production, kind_at};
use crate::leaves::{
    directive_string_production, is_chunk, key_production, leaf_if, name_production,
    quasi_production,
};
use crate::members::{class_body_production, member_production, method_production};
use crate::modules::{default_item_production, module_item_production, specifier_production};
use crate::parts::part_at;
use crate::properties::{
    element_production, pattern_production, pattern_property_production, property_production,
    rest_production, spread_production,
};
use crate::statements::statement_production;
use spelling_table::{Position, Production};
use tree::Node;

/// The production of a node at a position; none where the table has no way to spell it there. `in_chain`: the node is known to be part
/// of a chain, with a `?.` in it or below it.
#[inline(always)]
pub(crate) fn production_at(node: Node, position: Position, in_chain: bool) -> Option<Production>
    requires { in_chain ≡ true → is_chained_tree (node_tree node) ≡ true }
    ensures { option_map outline_of result ≡ outline_at_position position (node_tree node.entry) }
{
    let kind = node.kind();
    match position {
        Position::Expression { .. } => expression_production(node),
        Position::ChainPart { .. } => chain_part_production(node, in_chain),
        Position::Name => name_production(kind, node.text()),
        Position::IdentifierName | Position::ShorthandKey => leaf_if(kind.is_identifier()),
        Position::PropertyName => key_production(kind, node.text()),
        Position::Super => leaf_if(kind.is_super()),
        Position::DirectiveString => directive_string_production(kind, node.text()),
        Position::TaggedQuasi => quasi_production(kind),
        Position::TemplateElement { .. } => leaf_if(is_chunk(kind)),
        Position::Spread => spread_production(kind),
        Position::Property => property_production(node),
        Position::Pattern { binds, .. } => pattern_production(binds, kind),
        Position::PatternProperty { binds } => pattern_property_at(node, binds),
        Position::Element { binds } => element_at(node, binds),
        Position::Rest { binds, of_object } => rest_at(node, binds, of_object),
        Position::Method(form) => method_production(node, form),
        Position::Body => body_production(kind),
        Position::Statement { returns } => statement_production(node, returns),
        Position::StatementListItem { returns } => item_production(node, returns),
        Position::PrologueItem { returns } => prologue_item_production(node, returns),
        Position::Block { returns } => block_production(kind, returns),
        Position::ForDeclaration { initialised } => for_declaration_production(node, initialised),
        Position::Declarator {
            has_in,
            initialised,
        } => { declarator_production(node, has_in, initialised) }
        Position::SwitchCase { returns } => case_production(node, returns),
        Position::CatchClause { returns } => catch_clause_production(node, returns),
        Position::ClassBody => class_body_production(kind),
        Position::Member => member_production(node),
        Position::PrivateName => leaf_if(kind.is_private()),
        Position::ModuleItem => module_item_production(node),
        Position::Specifier => specifier_production(node),
        Position::DefaultItem => default_item_production(node),
        Position::Script => script_production(kind, node.text()),
    }
}

/// The production of an object pattern's property, by the kind of its value.
fn pattern_property_at(node: Node, binds: bool) -> Option<Production>
    ensures { option_map outline_of result ≡ outline_of_pattern_property binds (kind_of (node_tree node.entry)) (flags_of (node_tree node.entry)) (kind_of_entry (entry_at (parts_of (node_tree node.entry)) 1)) }
{
    let value = kind_at(part_at(node, 1));
    pattern_property_production(binds, node.kind(), node.flags(), value)
}

/// The production of an array pattern's element or a parameter, by the kind of its first part.
fn element_at(node: Node, binds: bool) -> Option<Production>
    ensures { option_map outline_of result ≡ outline_of_element binds (kind_of (node_tree node.entry)) (kind_of_entry (entry_at (parts_of (node_tree node.entry)) 0)) }
{
    element_production(binds, node.kind(), kind_at(part_at(node, 0)))
}

/// The production of a rest, by the kind of its part.
fn rest_at(node: Node, binds: bool, of_object: bool) -> Option<Production>
    ensures { option_map outline_of result ≡ outline_of_rest binds of_object (kind_of (node_tree node.entry)) (kind_of_entry (entry_at (parts_of (node_tree node.entry)) 0)) }
{
    rest_production(binds, of_object, node.kind(), kind_at(part_at(node, 0)))
}
