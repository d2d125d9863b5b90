#![tactic(auto)]

//! Which production spells a node at a position, and the slot of each of its parts; rows of grouping pairs.
//! - May touch: nodes. It is the one crate that goes from a node to the positions of its parts; memory for `pair_rows`
//!   alone.
//! - Contract: `node_production` answers the first way of the table there, for each symbol, In and start; none if
//!   there is none.
//! - Begin at: `spelled_node.rt`, `node_production`; `slot_cursor.rt`, `SlotCursor`; `pairs.rt`.

mod chain;
mod dangling;
mod declarations;
mod expressions;
mod lean;
mod leaves;
mod members;
mod modules;
mod nodes;
mod pairs;
mod parts;
mod properties;
mod slot_cursor;
mod spelled_node;
mod statements;
mod walk;
mod words;

pub use pairs::{PairRow, pair_rows};
pub use properties::value_form;
pub use slot_cursor::SlotCursor;
pub use spelled_node::{holds_chain, is_leaf, leads_chain, node_production};
