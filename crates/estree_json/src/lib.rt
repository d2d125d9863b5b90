#![tactic(auto)]

//! The tree of a script as ESTree's JSON: as a text, as a value, and for serde.
//! - May touch: a tree, an allocator and a writer. The text is whole before its first byte is written.
//! - Contract: `to_value` answers the value that the definition gives the tree, and `tree_text` that value's text.
//! - Begin at: `table.rt`, `member_table`; `serialize.rt` and `estree.rt` for serde. Definitions: `specs/Fields.antt`.

mod estree;
mod events;
mod fields;
mod identifier;
mod member;
mod node;
mod serialize;
mod table;
mod text;
mod texts;
mod values;
mod write;

pub use estree::Estree;
pub use node::to_value;
pub use text::tree_text;
pub use write::write_tree;
