#![tactic(auto)]

//! A script's text without its unnecessary pairs of parentheses: all else stays as it is.
//! - May touch: a text, its tree and a plan, and memory. It parses nothing: `lint` reads again what it makes.
//! - Contract: `keeps` answers yes only if a text's tokens are kept in the other, each with the comments before it; `unwrapped`
//!   promises nothing.
//! - Begin at: `text.rt`, `unwrapped`; `choice.rt`, `writer.rt`; for the comparison `reading.rt` and `keeping.rt`.

mod changes;
mod choice;
mod comment;
mod cursor;
mod gap;
mod joint;
mod keeping;
mod lexeme;
mod lines;
mod moving;
mod note;
mod pair_walk;
mod reading;
mod text;
mod touching;
mod writer;

pub use changes::{Addition, Changes, Closing};
pub use choice::changes_of;
pub use comment::{CommentRow, push_comments};
pub use keeping::keeps;
pub use note::{Note, Reading, notes};
pub use reading::{ByteSpan, TokenRow, TreeReading, tree_reading};
pub use text::{PlannedScript, unwrapped};
pub use writer::rewritten;
