#![tactic(auto)]

//! The items of a script: its tokens and comments, the places where a line may end, and groups of these.
//! - May touch: a tree and a builder, which has the text and its tokens; and memory.
//! - Contract: no index is out of range, nothing overflows, and it ends: each call has fewer nodes, or comes later in the order of
//!   `proofs/+items/Invariants.antt`. What the items are no contract says.
//! - Begin at: `script.rt`, `items_of`; a file for each family.

mod arguments;
mod assignments;
mod chains;
mod classes;
mod expressions;
mod functions;
mod lists;
mod literals;
mod modules;
mod operators;
mod script;
mod statements;

pub use item_builder::{LastCommas, Options};
pub use script::items_of;
