//! Private members of classes that nothing uses.
//! - May touch: the nodes of a tree, and memory for uses of private names, for sets of them and for reports.
//! - Contract: `push_found` appends a report of each private member of a class that nothing in the class reads, nor, if it is a getter or a
//!   setter, names. One walk looks at each node once; a use is handed on by each class round it that doesn't declare its name, and those
//!   are fewer than trees are high.
//! - Begin at: `standing.rt`, `Standing::at`, and `specs/Uses.antt` beside it; `walk.rt` has the walk, `members.rt` what it does with a class.
#![tactic(auto)]

mod members;
mod standing;
mod used;
mod walk;

pub use walk::push_found;
