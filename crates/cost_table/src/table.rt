//! Cost tables.

ghost use Rattle.std.specs.Prelude.{◌≡◌, ◌-◌, ◌≤◌, true, Some, [], ◌∷◌, ◌++◌, length, map, reverse, slice_get, slice_index_or, OnOk, OnErr, IfSome};
ghost use Rattle.spelling_table.specs.Outlines.{role_of};
ghost use Rattle.cost_table.specs.Costs.{eight, of_cells};
ghost use Rattle.cost_table.specs.Packed.{free_shape, shaped};
ghost use Rattle.cost_table.specs.Rows.{row_with, shown};
ghost use Rattle.cost_table.specs.Weighed.{cost_of};

use crate::costs::Costs;
use crate::packed_row::CellShape;
use crate::packed_rows::PackedRows;
use language::Rank;
use spelling_table::Position;
use std::alloc::{AllocError, Global};
use tree::Kind;

/// A row: the node's kind, and what it costs. Tables keep rows packed.
#[derive(Clone, Copy)]
pub struct Row {
    pub kind: Kind,
    pub costs: Costs,
}

/// A row for each expression in source order, a node before its parts, and the total of all.
#[derive(Drop)]
pub struct CostTable {
    rows: PackedRows,
    total: u32,
}

impl CostTable {
    /// No rows; no memory.
    pub fn new(alloc: Global) -> CostTable
        ensures rows { result.rows.items ≡ [] }
        ensures total { result.total ≡ 0 }
    {
        CostTable {
            rows: PackedRows::new(alloc),
            total: 0u32,
        }
    }

    /// One more row behind the others; as it was where memory is refused.
    pub fn push_row(&mut self, kind: Kind, cells: [Option<u32>; 8]) -> Result<(), AllocError>
        ensures rows { OnOk result (self.new.rows.items ≡ self.old.rows.items ++ row_with kind (of_cells cells) ∷ []) }
        ensures kept { OnErr result (self.new.rows.items ≡ self.old.rows.items) }
        ensures total { self.new.total ≡ self.old.total }
    {
        self.push_costs(kind, &Costs::from_cells(cells))
    }

    /// Adds a row with any numbers.
    pub fn push_costs(&mut self, kind: Kind, costs: &Costs) -> Result<(), AllocError>
        ensures rows { OnOk result (self.new.rows.items ≡ self.old.rows.items ++ row_with kind costs.now ∷ []) }
        ensures kept { OnErr result (self.new.rows.items ≡ self.old.rows.items) }
        ensures total { self.new.total ≡ self.old.total }
    {
        self.rows.push(kind, costs)
    }

    /// Adds the row of a node at a symbol which costs nothing wherever it may stand: zeros there, and no number elsewhere.
    pub fn push_free(&mut self, kind: Kind, rank: Rank) -> Result<(), AllocError>
        ensures rows { OnOk result (self.new.rows.items ≡ self.old.rows.items ++ row_with kind (shaped (free_shape rank) 0) ∷ []) }
        ensures kept { OnErr result (self.new.rows.items ≡ self.old.rows.items) }
        ensures total { self.new.total ≡ self.old.total }
    {
        self.rows.push_shaped(kind, CellShape::free(rank), 0u32)
    }

    /// The number that counts for the node of a row at a position, by the row's index, counted from 0; none where there is no such row.
    pub fn cost_at(&self, index: usize, position: Position) -> Option<u32>
        ensures { IfSome (slice_get self.now.rows.items index) (λ r. result ≡ cost_of r.costs (role_of position)) }
    {
        self.rows.cost_at(index, position)
    }

    /// The rows the other way round.
    pub fn reverse_rows(&mut self)
        ensures rows { self.new.rows.items ≡ reverse self.old.rows.items }
        ensures total { self.new.total ≡ self.old.total }
    {
        self.rows.reverse_rows();
    }

    /// Sets the number of all pairs.
    pub fn set_total(&mut self, total: u32)
        ensures total { self.new.total ≡ total }
        ensures rows { self.new.rows.items ≡ self.old.rows.items }
    {
        self.total = total;
    }

    /// How many rows there are.
    pub fn row_count(&self) -> usize
        ensures { result ≡ length self.now.rows.items }
    {
        self.rows.len()
    }

    /// The row with a number, counted from 1: the node's kind and its cells.
    pub fn row(&self, number: usize) -> (Kind, [Option<u32>; 8])
        requires first { 1 ≤ number }
        requires last { number ≤ length self.now.rows.items }
        ensures kind { (r : _) → result.0 ≡ (slice_index_or self.now.rows.items (number - 1) r).kind }
        ensures cells { (r : _) → result.1 ≡ eight (slice_index_or self.now.rows.items (number - 1) r).costs }
    {
        let index = number - 1;
        self.rows.row(index)
    }

    /// Whether it is seen at once that there is a row of this kind, by its index, counted from 0, which says that a node at this symbol
    /// costs nothing wherever it may stand.
    pub fn is_free_row(&self, index: usize, kind: Kind, rank: Rank) -> bool
        ensures { result ≡ true → slice_get (map shown self.now.rows.items) index ≡ Some (kind, eight (shaped (free_shape rank) 0)) }
    {
        self.rows.is_free(index, kind, rank)
    }

    /// The number of all pairs of the script.
    pub fn total(&self) -> u32
        ensures { result ≡ self.now.total }
    {
        self.total
    }
}
