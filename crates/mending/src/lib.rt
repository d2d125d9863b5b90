#![tactic(auto)]

//! The safe changes that reports ask for: which there are, the text with them, and whether it has no others.
//! - May touch: a text, its tree and reports, and memory. It parses nothing: `lint` reads again what it makes.
//! - Contract: `mends` answers yes only if a tree is another but for changes at reported places, `keeps_comments` only if a text has the
//!   comments of another; `spliced` gives the text with just the edits. What changes are made it doesn't promise.
//! - Begin at: `change.rt`, `MendRule`; `mends.rt`. Definitions: `specs/Changes.antt` and `specs/Mends.antt`.

mod asked;
mod bytes;
mod change;
mod check;
mod comments;
mod edits;
mod label;
mod mends;
mod plan;
mod rebuilt;
mod replaced;
mod round;
mod splice;
mod tests;
mod words;
mod wrapped;

pub use change::{Change, MendRule};
pub use check::is_mended;
pub use round::{Round, round_of};
pub use splice::Edit;
