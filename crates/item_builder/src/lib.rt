#![tactic(auto)]

//! The items of a script, token by token: each with the comments before it, and what an expression is, as far as its layout depends on that.
//! - May touch: a text, its tokens and its nodes, and memory. It knows no statement, and where no group begins or ends but its own.
//! - Begin at: `builder.rt`, tokens with the comments before them; `kinds.rt` and `chain_survey.rt`, questions about nodes.

mod around;
mod brackets;
mod builder;
mod chain_survey;
mod comments;
mod gap;
mod gap_part;
mod kinds;
mod numbers;
mod options;
mod run;

pub use around::{Around, Hug};
pub use brackets::{empty_braces, empty_brackets};
pub use builder::Builder;
pub use chain_survey::{
    ChainShape, Link, Passed, Survey, chain_base_of, chain_shape, is_literal_member, is_member,
    link_before, merges_base, survey_of,
};
pub use kinds::{
    are_short, are_simple, could_hug, has_block_body, is_binary, is_function, is_inlined, is_kind,
    is_simple, is_string, is_test_name, sticks_to_arrow, template_begins_with_lines,
};
pub use numbers::{are_number_elements, are_numbers};
pub use options::{LastCommas, Options};
