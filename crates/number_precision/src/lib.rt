//! What is lost of a number literal where its value is rounded to a Number.
//! - May touch: the text of a literal, and memory for its digits.
//! - Contract: `loses_precision` answers for each text of a NumericLiteral without a suffix, of any length; `specs/Precision.antt` says what
//!   it means. A literal's cost is linear in its length: beyond a hundred digits, or where the power of ten leaves the range of Numbers,
//!   nothing is computed.
//! - Begin at: `precision.rt`, `loses_precision`; `near.rt` compares a decimal literal with its Number in whole numbers (`big.rt`),
//!   `binary_literal.rt` counts binary digits.
#![tactic(auto)]

mod big;
mod binary;
mod binary_literal;
mod digits;
mod near;
mod precision;

pub use precision::loses_precision;
