#![tactic(auto)]

//! The tokens of a text (ECMA-262 11), by lexical goal, and the values of strings and templates.
//! - May touch: a checked text. `scan` takes no memory and keeps nothing from one call to the next.
//! - Contract: `scan` answers the token that a goal reads at a place, the longest of its class; a fault exactly if
//!   there is none.
//! - Begin at: `scanner.rt`, `scan`; then a file for each class, and `value.rt`. Definitions: `specs/Tokens.antt`.

mod ascii;
mod character;
mod escape;
mod laws;
mod name;
mod number;
mod plain;
mod punctuator;
mod regexp;
mod scanner;
mod string;
mod template;
mod token;
mod trivia;
mod value;

pub use character::{CharAt, char_at};
pub use laws::{at_most_one_token, readings_take_tokens};
pub use scanner::{ScanFault, scan};
pub use token::{Goal, Token, TokenClass};
pub use trivia::{Trivia, comment, hashbang_end};
pub use value::{quoted_units, string_is, string_units, template_value};
