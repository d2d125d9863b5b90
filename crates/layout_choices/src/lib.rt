#![tactic(auto)]

//! How a part of a script is laid out, as far as its nodes and the comments before it say; and items in which no other node's stand.
//! - May touch: nodes, and a builder.
//! - Begin at: `call_arguments.rt`, arguments; `assigned_value.rt`, values.

mod assigned_value;
mod call_arguments;
mod elements;
mod operator_levels;
mod parameters;
mod parentheses;
mod specifiers;
mod statement_words;

pub use assigned_value::{Assigned, ValuePosition, value_position};
pub use call_arguments::{CallShape, call_shape, hug_of};
pub use elements::{
    element_line, has_several_parts, holds_object_pattern, is_object_pattern, is_short_key,
    start_of_group,
};
pub use operator_levels::are_one_level;
pub use parameters::{bare_parameter, has_plain_parameter, hugs_pattern, joined_end};
pub use parentheses::{
    closing_parentheses, is_integer, meta_property, opening_parentheses, static_word,
};
pub use specifiers::{braces, from, import};
pub use statement_words::{has_initialiser, is_complex, is_empty_statement, jump, word_behind};
