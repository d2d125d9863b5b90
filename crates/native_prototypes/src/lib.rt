//! Assignments to members of built-in prototypes.
//! - May touch: the nodes of a tree, the references of its scopes, and memory for a set of names and for reports.
//! - Contract: `push_found` appends a report of each assignment to a member of `X.prototype`, where X is a built-in object with a capital and
//!   no reference of that name means a binding. One pass over the nodes looks at each of them once.
//! - Begin at: `walk.rt`, `push_found`, and `specs/Found.antt` beside it; `owners.rt` has what has the prototype.
#![tactic(auto)]

mod bound;
mod owners;
mod walk;

pub use walk::push_found;
