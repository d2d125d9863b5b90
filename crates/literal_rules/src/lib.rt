//! Rules on the raw text of literals and of templates: escapes, patterns of regular expressions, texts that look like something else.
//! - May touch: the nodes of a tree, and memory for reports. It takes none for a literal.
//! - Contract: `push_found` appends what each of the rules reports of each node; by `together_is_alone` that is what each rule finds
//!   alone, in another order. A text is read once for each rule, byte by byte.
//! - Begin at: `literal_rule.rt`, `LiteralRule`, and `specs/Rows.antt` beside it; `text_state.rt` has how far a text has been read,
//!   `mark.rt` what is looked for in it, `escapes.rt` and `patterns.rt` the tests.
#![tactic(auto)]

mod bytes;
mod escapes;
pub mod laws;
mod literal_rule;
mod mark;
mod patterns;
mod text_state;
mod walk;

pub use literal_rule::{LITERAL_RULES, LiteralRule};
pub use walk::push_found;
