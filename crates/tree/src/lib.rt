#![tactic(auto)]

//! The tree of a script, with ESTree's kinds of nodes: while a script is read (`TreeBuilder`), and finished (`Program`).
//! - May touch: nodes, their texts, places and parts, and memory. It knows no grammar.
//! - Contract: `TreeBuilder` shows the nodes that were added to it, and `Program::build` those that waited; each node holds its row.
//! - Begin at: `kind.rt`, `Kind`; then `tree_builder.rt`, and `node.rt`, by which the finished tree is read. Definitions:
//!   `specs/Tree.antt`.

mod build_error;
mod callee;
mod copy;
mod flag_bits;
mod flat_builder;
mod flat_list;
mod flat_node;
mod flat_ref;
mod flat_tree;
mod kind;
pub mod laws;
mod node;
mod node_list;
mod node_use;
mod part_access;
mod part_number;
mod patterns;
mod program;
mod row_count;
mod row_number;
mod row_numbers;
mod text_arena;
mod tree_builder;
mod walk;
mod witness;

pub use build_error::BuildError;
pub use copy::try_copy;
pub use kind::{Flags, Form, Kind, Pair, Span};
pub use node::Node;
pub use node_list::NodeList;
pub use program::Program;
pub use text_arena::TextArena;
pub use tree_builder::TreeBuilder;
pub use walk::{height, same_tree};
pub use witness::{Witness, Witnessing};
