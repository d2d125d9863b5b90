#![tactic(auto)]

//! Items and their layout: pieces of text, the places between them where a line may end, and groups of these, which stand on one line or end
//! a line at each of their own breaks.
//! - May touch: items, which are slices of a text, and memory for what groups need and for the layout. It knows nothing of what the text is.
//! - Contract: `lay_out` answers the layout of the items, of which there is just one (`laws::one_layout`).
//! - Begin at: `item.rt`, the items; `layout.rt`, `lay_out`; `specs/Layout.antt`, what a layout is.
//! - One pass back says what each group needs (`needs.rt`), one pass on writes (`output.rt`, `place.rt`): the time is linear in items and layout.

mod form;
mod gap;
mod item;
mod item_list;
pub mod laws;
mod layout;
mod layout_error;
mod needs;
mod output;
mod place;
mod style;
#[cfg(test)]
mod tests;

pub use item::Item;
pub use item_list::ItemList;
pub use layout::lay_out;
pub use layout_error::LayoutError;
pub use style::Style;
