#![tactic(auto)]

//! The text of a tree in its one layout, with parentheses around the nodes that are wrapped.
//! - May touch: a finished tree, which nodes are wrapped, and a text or a writer. What was written is never changed.
//! - Contract: `print_text` answers the layout of a tree, and with the nodes of a plan wrapped its fixed text.
//! - Begin at: `output.rt`, `print`; the walk in `printer.rt`; `site.rt`, `frame.rt`, and a file for each family.

mod blocks;
mod definitions;
mod emitter;
mod expressions;
mod fragments;
mod frame;
mod modules;
mod output;
mod output_buffer;
mod part_sites;
mod printer;
mod shared_fragments;
mod site;
mod statements;

pub use output::print;
pub use printer::print_text;
