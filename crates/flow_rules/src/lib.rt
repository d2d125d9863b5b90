//! Rules that ask how statements complete: whether one can complete normally, and which jumps, returns and calls of `super` stand in it.
//! - May touch: the nodes of a tree, the text of the script between two cases, and memory for reports.
//! - Contract: `push_found` appends what the rules report of each node, by what stands round it and what leaves it; by
//!   `together_is_alone` that is what each rule finds alone, in another order. One walk looks at each node once or twice (`plain.rt`), but
//!   for the body of a labelled statement that ends with a jump, in which breaks of the label are looked for: a node stands in fewer of
//!   those than trees are high.
//! - Begin at: `flow_rule.rt`, `FlowRule`, and `specs/Rows.antt` beside it; `completion.rt`, `completes`, with `specs/Completion.antt`.
#![tactic(auto)]

mod around;
mod callbacks;
mod completion;
mod fallthrough;
mod flow;
mod flow_rule;
mod kind_sets;
mod label_search;
pub mod laws;
mod plain;
mod walk;

pub use flow_rule::{FLOW_RULES, FlowRule};
pub use walk::push_found;
