//! What the nodes cost that a walk by the pairs of the text doesn't pass.

ghost use Rattle.std.specs.Prelude.{◌≡◌};

use crate::steps::{NodeStep, Step, Steps};
use cost_table::CostTable;
use std::alloc::{AllocError, Global};

/// The rows from one number to before another: those of nodes that the walk passes, one behind the other.
#[derive(Clone, Copy)]
struct PassedRows {
    first: usize,
    end: usize,
    /// How many rows there are before them in the table.
    before: usize,
}

/// The fewest pairs that any text with a script's tree has, and what the nodes cost that a walk by the pairs of its own text doesn't pass.
#[derive(Drop)]
pub struct TextCosts {
    pub(crate) fewest: u32,
    pub(crate) table: CostTable,
    pub(crate) passed: PassedNodes,
}

impl TextCosts {
    /// The fewest pairs.
    pub fn fewest(&self) -> u32
        ensures { result ≡ self.now.fewest }
    {
        self.fewest
    }

    /// The cells of the node of a row, by the row's number, counted from 1; zeros where the walk passes the node.
    pub fn cells(&self, row: usize) -> [Option<u32>; 8] {
        let number = self.passed.number_in_table(row);
        if number < 1 || number > self.table.row_count() {
            return [Some(0u32); 8];
        }
        let (_, cells) = self.table.row(number);
        cells
    }
}

/// Which rows a table lacks since the walk passes their nodes.
#[derive(Drop)]
pub(crate) struct PassedNodes {
    rows: Vec<PassedRows>,
    /// The number of the next row, and that in the table.
    next: usize,
    next_in_table: usize,
}

impl PassedNodes {
    /// Those of a walk's steps.
    ///
    /// # Errors
    ///
    /// `AllocError` where memory is refused.
    pub(crate) fn of(alloc: Global, steps: &Steps) -> Result<PassedNodes, AllocError> {
        let mut passed = PassedNodes {
            rows: Vec::new(alloc),
            next: 1,
            next_in_table: 1,
        };
        for index in 0..steps.len() {
            passed.take(steps.at(index))?;
        }
        Ok(passed)
    }

    /// One step of the walk.
    fn take(&mut self, step: &Step) -> Result<(), AllocError> {
        match step {
            Step::Free(_, _) => self.keep_row(),
            Step::Passed(count) => return self.pass(*count as usize),
            Step::Leaf(visit) | Step::Enter(visit) => self.keep_row_of(visit),
            Step::Leave => {}
        }
        Ok(())
    }

    /// The table has the next row, if a node has one.
    fn keep_row_of(&mut self, visit: &NodeStep) {
        if visit.has_row() {
            self.keep_row();
        }
    }

    /// The table has the next row.
    fn keep_row(&mut self) {
        self.next = self.next.saturating_add(1);
        self.next_in_table = self.next_in_table.saturating_add(1);
    }

    /// The table lacks so many rows.
    fn pass(&mut self, count: usize) -> Result<(), AllocError> {
        let first = self.next;
        self.next = first.saturating_add(count);
        match self.rows.last_mut() {
            Some(last) if last.end == first => last.end = self.next,
            _ => self.rows.push(PassedRows {
                first,
                end: self.next,
                before: self.next_in_table,
            })?,
        }
        Ok(())
    }

    /// The number that a row has in the table; 0 where the table lacks it.
    fn number_in_table(&self, row: usize) -> usize {
        let rows = self.rows.as_slice();
        let index = rows.partition_point(|passed| passed.first <= row);
        if index == 0 {
            return row;
        }
        match rows.get(index - 1) {
            Some(last) if last.end <= row => (row - last.end).saturating_add(last.before),
            _ => 0,
        }
    }
}
