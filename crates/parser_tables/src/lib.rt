#![tactic(auto)]

//! What a token begins and what it goes on with (ECMA-262 12 to 14), and the symbols of each statement.
//! - May touch: single tokens, and nodes that were read. It never moves the cursor: `recursive_descent` reads.
//! - Contract: each table answers what the definitions say of a token at a position, in both directions.
//! - Begin at: `expression_starts.rt`, `operators.rt`, `statements.rt`, `symbol_lists.rt`.

mod expression_context;
mod expression_starts;
mod functions_and_classes;
mod operand;
mod operators;
mod properties;
mod statements;
mod symbol_lists;
mod token_tests;

pub use expression_context::ExpressionContext;
pub use expression_starts::{
    ExpressionStart, continues_super, expression_start_of, finish_group, finish_list,
    grouping_pair, may_start, token_node_text, unclosed_pair,
};
pub use functions_and_classes::FunctionOrClass;
pub use operand::Operand;
pub use operators::{cannot_continue, infix_operator_of};
pub use properties::{is_constructor, method_form, property_flags, property_item};
pub use statements::{
    StatementContext, StatementKind, StatementListEnd, StatementStart, ends_statements,
    statement_start_of,
};
pub use symbol_lists::{
    PartialStatement, Symbol, begins_no_operand, body_symbols, case_symbols, ends_operand,
    fits_for_head, is_in_or_of, list_node_height, statement_symbols,
};
pub use token_tests::{is_template_head, span_of};
