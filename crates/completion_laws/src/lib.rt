#![tactic(auto)]

//! Theorems: in the evaluation of statements, by Completion Records, what can't complete normally, by `normal`, never does; what leaves a
//! statement stands in it, and no jump leaves a function; and what rules of `flow_rules` report, or don't, is so.
//! - May touch: nothing. Each contract is a theorem, and the body does nothing.
//! - Contract: `normal_alone_completes`, for each tree and label set.
//! - Begin at: `specs/Completions.antt` for what is said; `proofs/Leaving.antt` and `NormalCompletions.antt` for why.

pub mod laws;
