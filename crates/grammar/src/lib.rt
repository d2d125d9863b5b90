#![tactic(auto)]

//! Words, operators, literals and kinds as the table of the grammar has them, and the symbol of each expression.
//! - May touch: one word, operator or node. It sees no text around it.
//! - Contract: `rank_of` answers the tightest symbol at which an expression stands without parentheses; none for other
//!   nodes.
//! - Begin at: `infix.rt`, the table of infix operators; `ranks.rt`, `precedence.rt`. Definitions:
//!   `specs/Infix.antt`; `specs/Vocabulary.antt` of `language`.

mod byte_text;
mod chain;
mod infix;
mod literals;
mod operators;
mod precedence;
mod ranks;
mod words;

pub use byte_text::first_byte;
pub use chain::has_optional;
pub use infix::{BinaryOperator, InfixOperator, infix_of_punctuator, infix_of_word};
pub use literals::{is_literal, literal_class};
pub use operators::{
    Operation, is_assignment, is_prefix_operator, is_update_operator, operation_of,
};
pub use precedence::{accepts_rank, precedence_of};
pub use ranks::rank_of;
pub use words::is_reserved;
