#![tactic(auto)]

//! Which nodes of a script are wrapped, row by row (`Wraps`): what the planner says and the printer asks.
//! - May touch: memory, for one flag a row. It knows no tree, and not why a node is wrapped.
//! - Contract: a node is wrapped where its row has a flag that says so; behind the last flag none is.
//! - Begin at: `wraps.rt`, `Wraps::is_wrapped`; its definition is in `specs/Flags.antt`.

mod wraps;

pub use wraps::{WrapCursor, Wraps};
