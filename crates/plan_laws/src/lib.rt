#![tactic(auto)]

//! Theorems about plans and cost tables: a plan's table is sound, passes the check, and is read back from its text.
//! - May touch: nothing. Planner and certificate don't know each other; the laws that speak of both are here.
//! - Contract: `plan_passes`: the check answers the number of pairs of the fixed text.
//! - Begin at: `laws.rt` for what is said; `proofs/PlanTables.antt` for why.

pub mod laws;
