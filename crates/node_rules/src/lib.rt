//! Rules that look at single nodes: each a row of tables, a constant or a pure Boolean function in each.
//! - May touch: the nodes of a tree, and memory for reports and for one table a walk. No rule knows another.
//! - Contract: `push_found` appends what each of the rules reports of each node, in the order of the tree; by `together_is_alone` that is
//!   what each rule finds alone, in another order.
//! - Begin at: `node_rule.rt`, `NodeRule`, and `specs/Rows.antt` beside it; `tests.rt` has the tests; `walk.rt` the walk.
#![tactic(auto)]

mod around;
mod class_tests;
mod due_rules;
mod expression_tests;
mod kind_number;
mod kind_sets;
pub mod laws;
mod node_rule;
mod part_test;
mod paths;
mod search;
mod tests;
mod value_search;
mod value_tests;
mod values;
mod walk;
mod words;

pub use node_rule::{NODE_RULES, NodeOptions, NodeRule};
pub use walk::push_found;
