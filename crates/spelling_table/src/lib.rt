#![tactic(auto)]

//! Each production of the table: what it requires of its node's position, and the slots of the node's parts.
//! - May touch: kinds, symbols and positions; no node, and no memory.
//! - Contract: `outline` and its partial forms (`requirements`, `first_slot`, `list_of`) say what the table says of a
//!   production.
//! - Begin at: `production.rt`, `Production`; then `production_outlines.rt`, `requirements.rt`, `first_slots.rt`, `list_slots.rt`.

mod first_slots;
mod list_slots;
mod outline;
mod position;
mod production;
mod production_outlines;
mod requirements;

pub use first_slots::{SlotIndex, first_slot, list_of};
pub use list_slots::{
    Next, bound, is_of_arguments, is_over, may_end, next_slot, skips_gap, steady_slot, takes_all,
    with_default,
};
pub use outline::{FirstToken, FixedSlots, ListSlots, Outline};
pub use position::{ASSIGNMENT, Position, Slot, WHOLE, resolve_slot};
pub use production::{ForInit, Production, TryClauses};
pub use requirements::{Requirements, admits, fits};
