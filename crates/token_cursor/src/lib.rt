#![tactic(auto)]

//! A place in a text, and the next token by goal; tests of it, missing semicolons, open parentheses.
//! - May touch: the text, by `scan`, and the number of open parentheses; no node. It never moves backwards.
//! - Contract: `peek` answers the token that a goal reads next, and a refusal leaves the cursor as it was.
//! - Begin at: `cursor.rt`, `Cursor`; tests of a token in `lookahead.rt`; `semicolon.rt` for where a statement ends.

mod cursor;
mod lookahead;
mod semicolon;
mod token_tests;

pub use cursor::Cursor;
pub use semicolon::{FieldKey, StatementEnd, field_key, goes_on};
pub use token_tests::{
    begins_key, is_declaration_word, is_identifier, is_identifier_name, is_key_class,
    is_name_token, is_private_name, is_punctuator,
};
