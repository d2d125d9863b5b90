#![tactic(auto)]

//! Cost tables: least numbers of pairs by expression and context, in few bytes, and how costs add up.
//! - May touch: numbers, kinds and slots; no script: whoever walks over one hands in what each part costs.
//! - Contract: the table holds the rows and the total that were put in, unchanged if memory is refused.
//! - Begin at: `table.rt`, `CostTable`; `costs.rt` and `node_costs.rt` for the arithmetic.

mod costs;
mod node_costs;
mod packed_row;
mod packed_rows;
mod pair_count;
mod table;

pub use costs::{Costs, StartCosts};
pub use node_costs::{
    NodeCosts, added, fitting, is_free, is_plain_outline, least, slot_takes, uses, widest,
};
pub use pair_count::{exceeds, is_zero, sum};
pub use table::{CostTable, Row};
