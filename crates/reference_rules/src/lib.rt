//! Rules that ask what a name means: row by row, and one pass over the references and declarations of a script for all that are on.
//! - May touch: the scopes of a script, and memory. It never looks at the tree, nor at settings.
//! - Contract: `push_found`: what is appended is just what the rows say of each reference and each declaration.
//! - Begin at: `reference_rule.rt`, the rows; `walk.rt`, `push_found`. Definitions: `specs/Rows.antt`, `specs/Found.antt`.
#![tactic(auto)]

mod built_in;
mod laws;
mod reference_rule;
mod tests;
mod walk;

pub use built_in::is_built_in_for;
pub use laws::together_is_alone;
pub use reference_rule::{Profile, REFERENCE_RULES, ReferenceRule};
pub use walk::push_found;
