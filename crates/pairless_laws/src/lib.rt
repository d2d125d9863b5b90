#![tactic(auto)]

//! Theorems: a node costs no pair if no grouping pair opens from the place where its text may begin up to its end.
//! - May touch: nothing. Each contract is a theorem, and the body does nothing.
//! - Contract: `pairless_cost_nothing`, for each script that some text derives.
//! - Begin at: `specs/Pairless.antt` for what is said; `proofs/PairlessNodes.antt` for why.

pub mod laws;
