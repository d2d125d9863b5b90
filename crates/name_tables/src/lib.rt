//! Names of a script: those that a pattern binds and declarations declare; tables and sets of names.
//! - May touch: nodes and names, and memory. A name is never taken out of a table.
//! - Contract: tables and sets answer as lists of names do, whatever key they hash under; that is drawn from the
//!   script's names.
//! - Begin at: `bound.rt`, `push_names`; `declared.rt`; `table.rt`, `NameTable`; `key.rt` for the key.
#![tactic(auto)]

mod bound;
mod declared;
mod key;
mod set;
mod table;

pub use bound::{
    BoundName, PatternNames, last_part, pattern_names_of, push_names, push_part_names,
};
pub use declared::{
    DeclaratorAs, Lexical, LexicalAs, declaration_of, lexical_of, push_cases, push_declarators,
    push_lexical, push_lexical_part, push_lexical_parts, push_parameters,
};
pub use key::{HashKey, KeyBuilder};
pub use set::NameSet;
pub use table::{NameTable, SavedName};
