#![tactic(auto)]

//! A list in segments of `N` items each (`SegmentedVec`): it grows without moving what it holds.
//! - May touch: memory, for one more segment at a time. It knows nothing of what the items are.
//! - Contract: it holds all items that were pushed, in their order, and is unchanged if memory is refused.
//! - Begin at: `segmented_vec.rt`, `push`; its model is in `specs/SegmentedVec.antt`.

mod segmented_vec;

pub use segmented_vec::SegmentedVec;
