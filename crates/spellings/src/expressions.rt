//! The outlines of expressions (ECMA-262 12.1 to 12.16).

ghost use Rattle.std.specs.Prelude.{◌≡◌, option_map};
ghost use Rattle.tree.specs.Node.{node_tree};
ghost use Rattle.tree.specs.Uses.{is_function_form};
ghost use Rattle.tree.specs.Tree.{kind_of, text_of, flags_of, parts_of};
ghost use Rattle.grammar.specs.Operations.{operation_at};
ghost use Rattle.spellings.specs.Entries.{around};
ghost use Rattle.spellings.specs.Expressions.{expression_outline as outline_of_expression, definition_outline as outline_of_definition, reference_outline as outline_of_reference, operation_outline as outline_of_operation, identifier_outline as outline_of_identifier, literal_outline as outline_of_literal, function_outline as outline_of_function, named_function as outline_of_named_function, is_arrow_form, class_outline as outline_of_class, member_outline as outline_of_member, call_outline as outline_of_call, update_outline as outline_of_update, unary_outline as outline_of_unary, binary_outline as outline_of_binary, binary_by as outline_of_binary_by, logical_outline as outline_of_logical, assignment_outline as outline_of_assignment, kind_at as kind_of_entry, meta_outline as outline_of_meta, chain_outline as outline_of_chain, sequence_outline as outline_of_sequence, yield_outline as outline_of_yield, joined_outline as outline_joined, arrow_outline as outline_of_arrow};
ghost use Rattle.spelling_table.specs.Productions.{outline_of};

use crate::parts::{PartAt, part_at, part_text};
use grammar::{
    Operation, has_optional, is_assignment, is_literal, is_prefix_operator, is_reserved,
    is_update_operator, operation_of,
};
use language::Rank;
use spelling_table::Production;
use tree::{Flags, Form, Kind, Node};

/// The production of an expression; none where the table has no way to spell it.
pub(crate) fn expression_production(node: Node) -> Option<Production>
    ensures { option_map outline_of result ≡ outline_of_expression (kind_of (node_tree node.entry)) (text_of (node_tree node.entry)) (flags_of (node_tree node.entry)) (around (parts_of (node_tree node.entry))) }
{
    match node.kind() {
        Kind::Identifier => identifier_production(node.text()),
        Kind::Literal => literal_production(node.text()),
        Kind::ThisExpression => Some(Production::Leaf),
        Kind::ArrayExpression => Some(Production::Array),
        Kind::ObjectExpression => Some(Production::Object),
        Kind::TemplateLiteral => Some(Production::Template),
        _ => definition_production(node),
    }
}

/// Functions and classes.
fn definition_production(node: Node) -> Option<Production>
    ensures { option_map outline_of result ≡ outline_of_definition (kind_of (node_tree node.entry)) (text_of (node_tree node.entry)) (flags_of (node_tree node.entry)) (around (parts_of (node_tree node.entry))) }
{
    match node.kind() {
        Kind::FunctionExpression => function_production(node.flags().form, part_at(node, 0)),
        Kind::ClassExpression => class_production(part_at(node, 0), part_at(node, 1)),
        Kind::ArrowFunctionExpression => arrow_production(node.flags()),
        _ => reference_production(node),
    }
}

/// The production of an IdentifierReference (12.1); none for a reserved word.
fn identifier_production(name: &str) -> Option<Production>
    ensures { option_map outline_of result ≡ outline_of_identifier name.now }
{
    if is_reserved(name) {
        return None;
    }
    Some(Production::Leaf)
}

/// The production of a Literal (12.2.4); none if the text isn't one.
fn literal_production(raw: &str) -> Option<Production>
    ensures { option_map outline_of result ≡ outline_of_literal raw.now }
{
    if is_literal(raw) {
        return Some(Production::Leaf);
    }
    None
}

/// Whether the form is that of a function.
pub(crate) fn is_function_form(form: Form) -> bool
    ensures { result ≡ is_function_form form }
{
    match form {
        Form::Init | Form::Generator | Form::Async | Form::AsyncGenerator => true,
        _ => false,
    }
}

/// Whether the form is that of an arrow function, or of a for-of.
pub(crate) fn is_arrow_form(form: Form) -> bool
    ensures { result ≡ is_arrow_form form }
{
    match form {
        Form::Init | Form::Async => true,
        _ => false,
    }
}

/// A function, by its form and what stands at its name's place.
pub(crate) fn function_production(form: Form, name: PartAt) -> Option<Production>
    ensures { option_map outline_of result ≡ outline_of_function form name }
{
    if !is_function_form(form) {
        return None;
    }
    named_function(name)
}

/// The production of a named function, by what stands at its name's place.
fn named_function(name: PartAt) -> Option<Production>
    ensures { option_map outline_of result ≡ outline_of_named_function name }
{
    match name {
        PartAt::Past => None,
        PartAt::Gap => Some(Production::Function { is_named: false }),
        PartAt::Part(_) => Some(Production::Function { is_named: true }),
    }
}

/// A class, by what stands at the places of its name and of what it extends.
pub(crate) fn class_production(name: PartAt, heritage: PartAt) -> Option<Production>
    ensures { option_map outline_of result ≡ outline_of_class name heritage }
{
    let (is_named, extends) = match (name, heritage) {
        (PartAt::Past, _) | (_, PartAt::Past) => return None,
        (PartAt::Gap, PartAt::Gap) => (false, false),
        (PartAt::Gap, PartAt::Part(_)) => (false, true),
        (PartAt::Part(_), PartAt::Gap) => (true, false),
        (PartAt::Part(_), PartAt::Part(_)) => (true, true),
    };
    Some(Production::Class { is_named, extends })
}

/// The production of an ArrowFunction, by its flags (14.2); none for the forms of other functions.
fn arrow_production(flags: Flags) -> Option<Production>
    ensures { option_map outline_of result ≡ outline_of_arrow flags }
{
    if !is_arrow_form(flags.form) {
        return None;
    }
    Some(Production::Arrow {
        is_expression: flags.expression,
    })
}

/// What stands at a symbol from LeftHandSide to Member.
#[tactic(auto, using(grammar::proofs::ChainParts::chained_first))]
fn reference_production(node: Node) -> Option<Production>
    ensures { option_map outline_of result ≡ outline_of_reference (kind_of (node_tree node.entry)) (text_of (node_tree node.entry)) (flags_of (node_tree node.entry)) (around (parts_of (node_tree node.entry))) }
{
    match node.kind() {
        Kind::TaggedTemplateExpression => Some(Production::Tagged),
        Kind::MemberExpression => member_production(
            node.flags(),
            kind_at(part_at(node, 0)),
            kind_at(part_at(node, 1)),
        ),
        Kind::CallExpression => call_production(node.flags(), kind_at(part_at(node, 0))),
        Kind::NewExpression => Some(Production::New),
        Kind::MetaProperty => meta_production(part_text(node, 0), part_text(node, 1)),
        Kind::ImportExpression => Some(Production::Import),
        Kind::ChainExpression => chain_production(has_optional(node.part(0))),
        _ => operation_production(node),
    }
}

/// The kind that stands there, that of the Program where none does.
pub(crate) fn kind_at(entry: PartAt) -> Kind
    ensures { result ≡ kind_of_entry entry }
{
    match entry {
        PartAt::Part(kind) => kind,
        PartAt::Past | PartAt::Gap => Kind::Program,
    }
}

/// The production of a member outside a chain (12.3.2, 12.3.7), by the kinds of its object and its property; none for a link
/// with `?.`.
fn member_production(flags: Flags, object: Kind, property: Kind) -> Option<Production>
    ensures { option_map outline_of result ≡ outline_of_member flags object property }
{
    if flags.optional {
        return None;
    }
    let of_super = object.is_super();
    if property.is_private() && !flags.computed && !of_super {
        return Some(Production::PrivateMember);
    }
    Some(Production::Member {
        of_super,
        is_computed: flags.computed,
    })
}

/// The production of a call outside a chain (12.3.6, 12.3.7); none for a link with `?.`.
fn call_production(flags: Flags, callee: Kind) -> Option<Production>
    ensures { option_map outline_of result ≡ outline_of_call flags callee }
{
    if flags.optional {
        return None;
    }
    Some(Production::Call {
        of_super: callee.is_super(),
    })
}

/// The production of `new.target` (12.3.12) and `import.meta` (13th edition, 13.3.12); none for other names.
fn meta_production(meta: &str, property: &str) -> Option<Production>
    ensures { option_map outline_of result ≡ outline_of_meta meta.now property.now }
{
    if (meta == "new" && property == "target") || (meta == "import" && property == "meta") {
        return Some(Production::Meta);
    }
    None
}

/// The production of an optional chain (12.3.9); none if its part isn't chained.
fn chain_production(chained: bool) -> Option<Production>
    ensures { option_map outline_of result ≡ outline_of_chain chained }
{
    if chained {
        return Some(Production::Chain);
    }
    None
}

/// Operations.
fn operation_production(node: Node) -> Option<Production>
    ensures { option_map outline_of result ≡ outline_of_operation (kind_of (node_tree node.entry)) (text_of (node_tree node.entry)) (flags_of (node_tree node.entry)) (around (parts_of (node_tree node.entry))) }
{
    let text = node.text();
    match node.kind() {
        Kind::UpdateExpression => update_production(text, node.flags(), kind_at(part_at(node, 0))),
        Kind::UnaryExpression => unary_production(text),
        Kind::AwaitExpression => Some(Production::Unary),
        Kind::BinaryExpression => binary_by(text, kind_at(part_at(node, 0))),
        Kind::LogicalExpression => logical_production(text),
        Kind::ConditionalExpression => Some(Production::Conditional),
        Kind::YieldExpression => {
            yield_production(node.flags().form, part_at(node, 0), part_at(node, 1))
        }
        Kind::AssignmentExpression => assignment_production(text, kind_at(part_at(node, 0))),
        Kind::SequenceExpression => sequence_production(part_at(node, 1)),
        _ => None,
    }
}

/// The production of an UpdateExpression (12.4); none if the operand is no target or the text no such operator.
fn update_production(operator: &str, flags: Flags, operand: Kind) -> Option<Production>
    ensures { option_map outline_of result ≡ outline_of_update operator.now flags operand }
{
    if !is_update_operator(operator) || !operand.is_target() {
        return None;
    }
    Some(Production::Update {
        is_prefix: flags.prefix,
    })
}

/// The production of a UnaryExpression (12.5); none if the text isn't its operator.
fn unary_production(operator: &str) -> Option<Production>
    ensures { option_map outline_of result ≡ outline_of_unary operator.now }
{
    if !is_prefix_operator(operator) {
        return None;
    }
    Some(Production::Unary)
}

/// Two operands that an operator binds.
fn infix_production(operator: &str, own: Rank, right: Rank) -> Production
    ensures { outline_of result ≡ outline_joined operator.now own right }
{
    Production::Infix {
        own,
        right,
        needs_in: operator == "in",
    }
}

/// The production of a binary expression, by the kind of its left side: a private name stands before `in` alone (13th edition,
/// 13.10).
fn binary_by(operator: &str, left: Kind) -> Option<Production>
    ensures { option_map outline_of result ≡ outline_of_binary_by operator.now left }
{
    if !left.is_private() {
        return binary_production(operator);
    }
    if operator == "in" {
        Some(Production::PrivateIn)
    } else {
        None
    }
}

/// The production of a binary expression (12.6 to 12.12); none if the text isn't its operator.
fn binary_production(operator: &str) -> Option<Production>
    ensures { option_map outline_of result ≡ outline_of_binary operator.now (operation_at operator.now) }
{
    match operation_of(operator) {
        Operation::Binds {
            is_logical: false,
            own,
            right,
        } => Some(infix_production(operator, own, right)),
        Operation::Powers => Some(Production::Exponentiation),
        _ => None,
    }
}

/// The production of a logical expression (12.13); none if the text isn't its operator.
fn logical_production(operator: &str) -> Option<Production>
    ensures { option_map outline_of result ≡ outline_of_logical operator.now (operation_at operator.now) }
{
    match operation_of(operator) {
        Operation::Binds {
            is_logical: true,
            own,
            right,
        } => Some(infix_production(operator, own, right)),
        _ => None,
    }
}

/// The production of a YieldExpression (14.4): with one operand, or with none and no `*`.
fn yield_production(form: Form, operand: PartAt, further: PartAt) -> Option<Production>
    ensures { option_map outline_of result ≡ outline_of_yield form operand further }
{
    match (form, operand, further) {
        (Form::Init | Form::Generator, PartAt::Part(_), PartAt::Past) => {
            Some(Production::Yield { has_operand: true })
        }
        (Form::Init, PartAt::Gap, PartAt::Past) => Some(Production::Yield { has_operand: false }),
        _ => None,
    }
}

/// The production of an assignment (12.15); only `=` assigns to a pattern.
fn assignment_production(operator: &str, left: Kind) -> Option<Production>
    ensures { option_map outline_of result ≡ outline_of_assignment operator.now left }
{
    if !is_assignment(operator) {
        return None;
    }
    if left.is_target() {
        return Some(Production::Assignment { to_pattern: false });
    }
    if operator == "=" && left.is_pattern() {
        return Some(Production::Assignment { to_pattern: true });
    }
    None
}

/// A sequence, by what stands at the place of its second part.
fn sequence_production(second: PartAt) -> Option<Production>
    ensures { option_map outline_of result ≡ outline_of_sequence second }
{
    match second {
        PartAt::Past => None,
        PartAt::Gap | PartAt::Part(_) => Some(Production::Sequence),
    }
}
