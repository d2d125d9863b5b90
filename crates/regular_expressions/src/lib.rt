#![tactic(auto)]

//! The patterns of regular expressions (ECMA-262, 13th edition, 22.2.1), without Annex B.
//! - May touch: a literal's text; memory only for lookarounds and for names of groups.
//! - Contract: `first_fault` answers the place of the first fault of a literal's pattern, exactly if it has one. `pattern_of` and `class_atom`
//!   read a literal's pattern and the atoms of its classes, for those who ask what a pattern means.
//! - Groups may nest as deep as the text allows: they are counted, in one loop. It takes time linear in the text.
//! - Begin at: `literal.rt`, `first_fault`; then `term.rt`, `piece_at`. Definitions: `specs/Patterns.antt`, then `specs/Terms.antt`.

mod character;
mod class;
mod count;
mod early;
mod escape;
mod group;
mod hex;
mod literal;
mod name;
mod nested;
mod pattern;
mod piece;
mod property;
mod term;

pub use class::class_atom;
pub use count::{digits_end, number_within};
pub use escape::Valued;
pub use hex::{is_lead, is_trail};
pub use literal::{Pattern, first_fault, pattern_of};
