#![tactic(auto)]

//! Whether a formatted text keeps the tokens and comments of its text.
//! - May touch: two texts, their trees and readings, and memory. It parses and writes nothing.
//! - Contract: `retains` answers yes only if the formatted text `Retains` the tokens and comments.
//! - Begin at: `retaining.rt`, `retains`; `side.rt`; `comments.rt`.

mod comments;
mod free;
mod retaining;
mod side;
mod words;

pub use retaining::retains;
