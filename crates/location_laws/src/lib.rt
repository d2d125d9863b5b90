#![tactic(auto)]

//! Theorems: nodes, scopes, bindings and references of a script are in the order of their places in the text.
//! - May touch: nothing. Each contract is a theorem, and the body does nothing.
//! - Contract: `nodes_are_in_order`: parts are within their node, one after the other.
//! - Begin at: `specs/InOrder.antt` for what is said; `proofs/DerivedTreeOrder.antt` for why.

pub mod laws;
