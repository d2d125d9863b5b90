//! A table's text, to a writer.

ghost use Rattle.std.specs.Prelude.{◌≡◌, ◌+◌, ◌<◌, ◌≤◌, ◌++◌, [], ◌∷◌, false, length, slice_index_or, cond, OnOk};
ghost use Rattle.std.specs.Fmt.{decimal};
ghost use Rattle.source_text.specs.Writing.{WritesText};
ghost use Rattle.cost_table.specs.Rows.{shown as shown_row};
ghost use Rattle.cost_table.specs.Tables.{table_of};
ghost use Rattle.cost_certificate.specs.Forms.{short, all_zero as is_all_zero, cell_text, cells_text, row_line, total_line, table_text};
ghost use Rattle.cost_certificate.specs.Listed.{listed};
ghost use Rattle.cost_certificate.specs.Sent.{MakesRoom, WritesOrFails};

use crate::types::{all_zero, type_name};
use cost_table::CostTable;
use source_text::{DeviceFault, Fault, MAX_PIECE, OutputBuffer, Sink, write_text};
use tree::Program;

/// More than any line has, with its line feed.
const ROOM: usize = 160;

/// Adds a number, which has at most ten digits.
fn push_number(piece: &mut OutputBuffer, number: u32)
    requires { length piece.old ≤ 4086 }
    ensures text { piece.new ≡ piece.old ++ decimal number }
    ensures short { length piece.new ≤ length piece.old + 10 }
{
    piece.push_number(number as usize);
}

/// Adds a cell, behind a space.
fn push_cell(piece: &mut OutputBuffer, cell: Option<u32>)
    requires { length piece.old ≤ 4085 }
    ensures text { piece.new ≡ piece.old ++ 32 ∷ cell_text cell }
    ensures short { length piece.new ≤ length piece.old + 11 }
{
    piece.push(b' ');
    match cell {
        Some(number) => push_number(piece, number),
        None => piece.push(b'-'),
    }
}

/// Adds the cells of a row.
fn push_cells(piece: &mut OutputBuffer, cells: [Option<u32>; 8])
    requires { length piece.old ≤ 4000 }
    ensures text { piece.new ≡ piece.old ++ cells_text (listed cells) }
    ensures short { length piece.new ≤ length piece.old + 88 }
{
    push_cell(piece, cells[0]);
    push_cell(piece, cells[1]);
    push_cell(piece, cells[2]);
    push_cell(piece, cells[3]);
    push_cell(piece, cells[4]);
    push_cell(piece, cells[5]);
    push_cell(piece, cells[6]);
    push_cell(piece, cells[7]);
}

/// Adds the cells of a row, unless all are zero.
fn push_some_cells(piece: &mut OutputBuffer, cells: [Option<u32>; 8])
    requires { length piece.old ≤ 4000 }
    ensures text { piece.new ≡ piece.old ++ cond (is_all_zero (listed cells)) [] (cells_text (listed cells)) }
    ensures short { length piece.new ≤ length piece.old + 88 }
{
    if all_zero(cells) {
        return;
    }
    push_cells(piece, cells);
}

/// Adds the line of the row with an index, counted from 0, with its line feed.
fn push_row(piece: &mut OutputBuffer, table: &CostTable, index: usize)
    requires room { length piece.old ≤ 3936 }
    requires within { index < length table.now.rows.items }
    requires few { index < 16777216 }
    ensures { (d : _) → piece.new ≡ piece.old ++ (row_line short (index + 1) (shown_row (slice_index_or table.now.rows.items index d)) ++ 10 ∷ []) }
{
    let (kind, cells) = table.row(index + 1);
    piece.push_number(index + 1);
    piece.push(b' ');
    piece.push_text(type_name(kind));
    push_some_cells(piece, cells);
    piece.push(b'\n');
}

/// Adds the line of the total, with its line feed.
fn push_total(piece: &mut OutputBuffer, total: u32)
    requires { length piece.old ≤ 3936 }
    ensures { piece.new ≡ piece.old ++ (total_line total ++ 10 ∷ []) }
{
    piece.push_text("total ");
    push_number(piece, total);
    piece.push(b'\n');
}

/// Writes the piece where it hasn't room for one more line, and empties it.
fn make_room<W: Sink>(piece: &mut OutputBuffer, writer: &mut W) -> Result<(), DeviceFault>
    requires ready { W.failed writer.old ≡ false }
    ensures written { MakesRoom (W.taken writer.old) (W.taken writer.new) piece.old piece.new result (W.failed writer.new) }
    ensures room { OnOk result (length piece.new ≤ 3936) }
{
    if piece.len() <= MAX_PIECE - ROOM {
        return Ok(());
    }
    if let Err(fault) = write_text(piece.as_bytes(), writer) {
        return Err(fault);
    }
    piece.clear();
    Ok(())
}

/// Writes the text of a table, as `write_table` does.
fn write_lines<W: Sink>(table: &CostTable, writer: &mut W) -> Result<(), DeviceFault>
    requires few { length table.now.rows.items ≤ 16777216 }
    requires ready { W.failed writer.old ≡ false }
    ensures { WritesText (table_text short (table_of table.now.rows.items table.now.total)) result (W.taken writer.old) (W.taken writer.new) (W.failed writer.new) }
{
    let mut piece = OutputBuffer::new();
    piece.push_text("jslint-cost 2\n");
    for index in 0..table.row_count() {
        if let Err(fault) = make_room(&mut piece, writer) {
            return Err(fault);
        }
        push_row(&mut piece, table, index);
    }
    if let Err(fault) = make_room(&mut piece, writer) {
        return Err(fault);
    }
    push_total(&mut piece, table.total());
    write_text(piece.as_bytes(), writer)
}

/// Writes the text of a script's table in format 2, which leaves out the cells of a row that has none but zeros, in pieces of at most
/// 4,096 bytes. It takes no memory. What was written is always a beginning of the text.
///
/// # Errors
///
/// `WriteFailed` where the writer fails, and nothing else; the writer is not asked again.
pub fn write_table<W: Sink>(
    _program: &Program,
    table: &CostTable,
    writer: &mut W,
) -> Result<(), Fault>
    requires few { length table.now.rows.items ≤ 16777216 }
    requires ready { W.failed writer.old ≡ false }
    ensures { WritesOrFails (table_text short (table_of table.now.rows.items table.now.total)) result (W.taken writer.old) (W.taken writer.new) (W.failed writer.new) }
{
    match write_lines(table, writer) {
        Ok(()) => Ok(()),
        Err(DeviceFault) => Err(Fault::WriteFailed),
    }
}
