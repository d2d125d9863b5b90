#![tactic(auto)]

//! Nodes made of their parts, with their heights, while a script is read.
//! - May touch: the tree that is built; no token, no memory of its own.
//! - Contract: `finish_node` refuses exactly a node that would be higher than the caller allows; what is made waits in the tree; no part is
//!   counted twice.
//! - Begin at: `measured_node.rt`, `finish_node`; `measured_parts.rt` for lists of parts; `node_summary.rt` for what is kept of a node.

mod measured_node;
mod measured_parts;
mod node_summary;

pub use measured_node::{MeasuredNode, finish_node, finish_plain};
pub use measured_parts::MeasuredParts;
