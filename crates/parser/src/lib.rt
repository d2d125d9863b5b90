#![tactic(auto)]

//! Scripts from text (ECMA-262 12 to 15): the tree of a text with its grouping pairs, or how the text is refused.
//! - May touch: a checked text, by `read` of `recursive_descent`. It reads nothing itself.
//! - Contract: `parse`: what is answered is the one script that the text derives, and what is there within the limits
//!   is answered.
//! - Begin at: `script.rt`, `parse`. Definitions: `specs/Claims.antt` of `language`.

mod script;

pub use script::{Parsed, parse};
