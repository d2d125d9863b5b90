#![tactic(auto)]

//! What was read before it is known whether it is an expression, a target, a pattern or parameters (12.2, 12.15.5,
//! 14.2).
//! - May touch: nodes that were read, which become patterns in place; no token. It takes no memory for that.
//! - Contract: a cover becomes what its shape permits, and is else refused at the place that was handed in.
//! - Begin at: `cover.rt`, `Cover`; `shape.rt`, `CoverShape`; `list.rt` for lists, item by item.

mod cover;
mod list;
mod shape;

pub use cover::{Cover, to_parameters};
pub use list::{ListBuilder, ListItem, ListKind, ListSummary};
pub use shape::{CoverShape, TargetForm};
