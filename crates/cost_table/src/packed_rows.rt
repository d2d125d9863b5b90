//! The rows of a table, packed.

ghost use Rattle.std.specs.Prelude.{◌≡◌, ◌+◌, ◌<◌, true, Some, [], ◌∷◌, ◌++◌, length, map, reverse, slice_get, slice_index_or, OnOk, OnErr, IfSome};
ghost use Rattle.spelling_table.specs.Outlines.{role_of};
ghost use Rattle.cost_table.specs.Costs.{eight};
ghost use Rattle.cost_table.specs.Packed.{free_shape, in_order, shaped};
ghost use Rattle.cost_table.specs.Rows.{row_with, shown};
ghost use Rattle.cost_table.specs.Weighed.{cost_of};

use crate::costs::Costs;
use crate::node_costs::cost_at;
use crate::packed_row::{CellShape, PackedRow, Place};
use language::Rank;
use segmented_vec::SegmentedVec;
use spelling_table::Position;
use std::alloc::{AllocError, Global};
use std::marker::Model;
use std::mem;
use tree::Kind;

/// Packed rows in segments of 1,024.
type Segments = SegmentedVec<PackedRow, 1024>;

/// Rows, of which few have numbers that don't fit a shape.
#[derive(Drop)]
pub struct PackedRows {
    /// The first rows, the last of them first.
    turned: Segments,
    /// Those behind them.
    packed: Segments,
    /// The numbers of those rows.
    apart: Vec<Costs>,
}

impl Model for PackedRows {
    ghost use Rattle.std.specs.Prelude.{length, map, All};
    ghost use Rattle.cost_table.specs.Packed.{RowList, in_order, unpacked, IsPacked};

    ghost Value = { RowList };

    ghost view = { λ a. record { items = map (unpacked a.apart.items) (in_order a.turned a.packed) } };

    ghost invariant = { λ a. All (IsPacked (length a.apart.items)) (in_order a.turned a.packed) };
}

impl PackedRows {
    /// None; no memory.
    pub(crate) fn new(alloc: Global) -> PackedRows
        ensures { result.items ≡ [] }
    {
        PackedRows {
            turned: Segments::new(alloc),
            packed: Segments::new(alloc),
            apart: Vec::new(alloc),
        }
    }

    /// One more row behind the others, which has one number wherever it has any; as it was where memory is refused.
    pub(crate) fn push_shaped(
        &mut self,
        kind: Kind,
        shape: CellShape,
        number: u32,
    ) -> Result<(), AllocError>
        ensures rows { OnOk result (self.new.items ≡ self.old.items ++ row_with kind (shaped shape number) ∷ []) }
        ensures kept { OnErr result (self.new.items ≡ self.old.items) }
    {
        self.packed.push(PackedRow::Same(kind, shape, number))?;
        Ok(())
    }

    /// Adds a row with any numbers.
    pub(crate) fn push(&mut self, kind: Kind, costs: &Costs) -> Result<(), AllocError>
        ensures rows { OnOk result (self.new.items ≡ self.old.items ++ row_with kind costs.now ∷ []) }
        ensures kept { OnErr result (self.new.items ≡ self.old.items) }
    {
        let number = costs.has_in.any.unwrap_or(0u32);
        if let Some(shape) = CellShape::of(costs, number) {
            return self.push_shaped(kind, shape, number);
        }
        self.push_apart(kind, costs)
    }

    /// Adds a row whose numbers don't fit a shape, with those numbers; unchanged if memory is refused.
    #[inline(never)]
    fn push_apart(&mut self, kind: Kind, costs: &Costs) -> Result<(), AllocError>
        ensures rows { OnOk result (self.new.items ≡ self.old.items ++ row_with kind costs.now ∷ []) }
        ensures kept { OnErr result (self.new.items ≡ self.old.items) }
    {
        let place = Place::of(self.apart.len());
        self.apart.push(*costs)?;
        self.packed.push(PackedRow::Apart(kind, place))?;
        Ok(())
    }

    /// The rows the other way round.
    pub(crate) fn reverse_rows(&mut self)
        ensures { self.new.items ≡ reverse self.old.items }
    {
        mem::swap(&mut self.turned, &mut self.packed);
    }

    /// How many rows there are.
    pub(crate) fn len(&self) -> usize
        ensures { result ≡ length self.now.items }
    {
        self.turned.len() + self.packed.len()
    }

    /// The kind of a row and its cells, by its index, counted from 0.
    pub(crate) fn row(&self, index: usize) -> (Kind, [Option<u32>; 8])
        requires { index < length self.now.items }
        ensures kind { (r : _) → result.0 ≡ (slice_index_or self.now.items index r).kind }
        ensures cells { (r : _) → result.1 ≡ eight (slice_index_or self.now.items index r).costs }
    {
        match *packed_at(&self.turned, &self.packed, index) {
            PackedRow::Same(kind, shape, number) => (kind, shape.cells(number)),
            PackedRow::Apart(kind, place) => (kind, self.apart[place.index()].cells()),
        }
    }

    /// Whether it is seen at once that there is a row of this kind, by its index, which says that a node at this symbol costs nothing
    /// wherever it may stand.
    pub(crate) fn is_free(&self, index: usize, kind: Kind, rank: Rank) -> bool
        ensures { result ≡ true → slice_get (map shown self.now.items) index ≡ Some (kind, eight (shaped (free_shape rank) 0)) }
    {
        if index >= self.len() {
            return false;
        }
        match *packed_at(&self.turned, &self.packed, index) {
            PackedRow::Same(own, shape, 0) => own == kind && shape.fills_row(rank),
            _ => false,
        }
    }

    /// The number that counts for a row at a position, by the row's index; none where there is no such row.
    pub(crate) fn cost_at(&self, index: usize, position: Position) -> Option<u32>
        ensures { IfSome (slice_get self.now.items index) (λ r. result ≡ cost_of r.costs (role_of position)) }
    {
        if index >= self.len() {
            return None;
        }
        match *packed_at(&self.turned, &self.packed, index) {
            PackedRow::Same(_, shape, number) => shape.cost_at(number, position),
            PackedRow::Apart(_, place) => cost_at(&self.apart[place.index()], position),
        }
    }
}

/// A packed row, by its index, counted from 0.
#[inline(always)]
fn packed_at<'a>(turned: &'a Segments, packed: &'a Segments, index: usize) -> &'a PackedRow
    requires { index < length turned.now + length packed.now }
    ensures { result.now ≡ slice_index_or (in_order turned.now packed.now) index result.now }
{
    let first = turned.len();
    if index < first {
        return turned.at(first - 1 - index);
    }
    packed.at(index - first)
}
