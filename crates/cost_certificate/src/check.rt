//! The check of a table.

ghost use Rattle.std.specs.Prelude.{◌≡◌, ◌≤◌, length, Err, IfOk};
ghost use Rattle.tree.specs.Tree.{SameTree};
ghost use Rattle.language.specs.Languages.{DerivesIn};
ghost use Rattle.language.specs.Pieces.{script};
ghost use Rattle.language.specs.RowPositions.{rows};
ghost use Rattle.cost_table.specs.Tables.{table_of};
ghost use Rattle.cost_certificate.specs.Checked.{Answers, PassesIfSound};
ghost use Rattle.cost_certificate.specs.Faults.{first_fault};

use crate::cells::is_above;
use crate::check_rows::check_node;
use cost_table::{CostTable, least};
use source_text::Reason;
use spelling_table::Position;
use tree::Program;

/// What is wrong with a table: the number of a row, counted from 1, or 0 for the total, and the reason.
#[derive(Clone, Copy, Debug, PartialEq, Eq)]
pub struct BadTable {
    pub row: u32,
    pub reason: Reason,
}

/// The total of a table that is sound for a script: a lower bound of the pairs of every text with the same tree, whoever made the
/// table. Steps grow with the tree; no memory.
///
/// # Errors
///
/// The fault of a table that isn't: the first row that is missing, left over or of another type, before all else; then the first row
/// with a cell that has no number where its bound is one, or with one above its bound; then a total above its bound.
pub fn check_table(program: &Program, table: &CostTable) -> Result<u32, BadTable>
    requires few { rows program.now script ≤ 16777216 }
    requires short { length table.now.rows.items ≤ 16777216 }
    ensures answer { Answers (first_fault (table_of table.now.rows.items table.now.total) program.now) table.now.total result }
    ensures sound { PassesIfSound (table_of table.now.rows.items table.now.total) program.now result }
    ensures bound { IfOk result (λ n. (language text m P : _) → SameTree m program.now → DerivesIn language text m P → n ≤ length P) }
{
    let judged = check_node(program.root(), Position::Script, false, table, 0);
    if let Some(index) = judged.passed.misshapen {
        return bad(index + 1, Reason::Shape);
    }
    if judged.passed.next < table.row_count() {
        return bad(judged.passed.next + 1, Reason::Shape);
    }
    if let Some(fault) = judged.passed.fault {
        return Err(fault);
    }
    let bound = least(judged.weighed.costs(), Position::Script);
    if is_above(Some(table.total()), bound) {
        return bad(0, Reason::Total);
    }
    Ok(table.total())
}

/// The refusal of a table at this row, for this reason.
fn bad(row: usize, reason: Reason) -> Result<u32, BadTable>
    requires { row ≤ 16777217 }
    ensures { result ≡ Err (record { row = row; reason = reason }) }
{
    Err(BadTable {
        row: row as u32,
        reason,
    })
}
