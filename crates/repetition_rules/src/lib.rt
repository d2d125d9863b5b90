//! Rules on what stands twice: keys of an object, members of a class, cases of a `switch`, tests of an `else if` chain.
//! - May touch: the nodes of a tree, and memory for labels, for sets of them and for reports.
//! - Contract: `push_found` appends what each of the rules reports of each node; by `together_is_alone` that is what each rule finds
//!   alone, in another order. A node is looked at in the time that its labels are long, however many there are.
//! - Begin at: `repetition_rule.rt`, `RepetitionRule`, and `specs/Rows.antt` beside it; `labels.rt` has what keys are compared by,
//!   `written.rt` what tests are compared by, `members.rt` what is compared, `again.rt` the sets; `else_if.rt` has chains.
#![tactic(auto)]

mod again;
mod conditions;
mod else_if;
mod entry;
mod labels;
pub mod laws;
mod members;
mod numbers;
mod repetition_rule;
mod walk;
mod written;

pub use repetition_rule::{REPETITION_RULES, RepetitionRule};
pub use walk::push_found;
