//! Rules that ask for the value of a literal: what a number is rounded to, which characters a pattern matches.
//! - May touch: the nodes of a tree, and memory for reports and for the digits of a literal.
//! - Contract: `push_found` appends what each of the rules reports of each literal; by `together_is_alone` that is what each rule finds
//!   alone, in another order. A text is read once for each rule.
//! - Begin at: `value_rule.rt`, `ValueRule`, and `specs/Rows.antt` beside it.
#![tactic(auto)]

pub mod laws;
mod value_rule;
mod walk;

pub use value_rule::{VALUE_RULES, ValueRule};
pub use walk::push_found;
