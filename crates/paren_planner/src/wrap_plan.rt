//! Plans: which nodes are wrapped, and the table that shows it.

ghost use Rattle.std.specs.Prelude.{◌≡◌};
ghost use Rattle.wrap_flags.specs.Flags.{is_flagged};

use cost_table::CostTable;
use wrap_flags::Wraps;

/// Which nodes of a script are wrapped in a pair, by their row numbers, with the table of what each costs.
#[derive(Drop)]
pub struct Plan {
    pub(crate) table: CostTable,
    pub(crate) wraps: Wraps,
}

impl Plan {
    /// Whether the node of a row is wrapped in a pair, by the row's number, counted from 1.
    pub fn wrapped(&self, row: usize) -> bool
        ensures { result ≡ is_flagged self.now.wraps.flags.items row }
    {
        self.wraps.is_wrapped(row)
    }

    /// Which nodes are wrapped, without the table.
    pub fn wraps(&self) -> &Wraps
        ensures { result.now.flags.items ≡ self.now.wraps.flags.items }
    {
        &self.wraps
    }

    /// The number of wrapped nodes.
    pub fn total(&self) -> u32
        ensures { result ≡ self.now.table.total }
    {
        self.table.total()
    }

    /// What each row costs.
    pub fn table(&self) -> &CostTable
        ensures rows { result.now.rows.items ≡ self.now.table.rows.items }
        ensures total { result.now.total ≡ self.now.table.total }
    {
        &self.table
    }
}
