//! Rules that look at what stands between the tokens of a script: parentheses, line ends, white space, comments.
//! - May touch: the nodes of a tree, the script's text, and memory for reports. It makes no token.
//! - Contract: `push_found` appends what each of the rules reports, rule after rule; by `together_is_alone` that is what each rule finds
//!   alone. What stands between two parts of a node is read for each rule that asks for it, once, or twice where it
//!   has a character without which the rule finds nothing there (`quiet.rt`), and never beyond them.
//! - Begin at: `text_rule.rt`, `TextRule`, and `specs/Rows.antt` beside it; `reading.rt` has how characters are read, `gap.rt` what is asked
//!   of what stands between two places, `parts.rt` which parts of nodes are looked at, `spaces.rt` the text outside literals.
#![tactic(auto)]

mod gap;
pub mod laws;
mod pairs;
mod parts;
mod quiet;
mod reading;
mod spaces;
mod spot;
mod text_rule;
mod walk;

pub use gap::piece;
pub use spaces::{is_opaque, opening};
pub use spot::{Spot, spot_after};
pub use text_rule::{TEXT_RULES, TextRule};
pub use walk::push_found;
