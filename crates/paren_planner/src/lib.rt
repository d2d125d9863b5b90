#![tactic(auto)]

//! The planner: which expressions are wrapped in a pair of parentheses, and which pairs of a text are extra.
//! - May touch: a finished tree, which it never changes, and memory for steps and rows.
//! - Contract: `plan`: no derivation of any text with the same tree has fewer pairs than the plan's total.
//! - Begin at: `planner.rt`, `plan`; `wraps.rt` for the wrapped nodes alone, or what a text's nodes cost; the walk in `step_walk.rt`, then
//!   `cost_pass.rt` and `wrap_pass.rt`; `extra.rt`.

mod cost_pass;
mod extra;
pub mod laws;
mod open_sums;
mod planner;
mod row_count;
mod step_walk;
mod steps;
mod text_costs;
mod text_pairs;
mod wrap_pass;
mod wrap_plan;
mod wraps;

pub use extra::extra_pairs;
pub use planner::{plan, plan_if_any};
pub use text_costs::TextCosts;
pub use wrap_plan::Plan;
pub use wraps::{costs_by_pairs, wraps_by_pairs};
