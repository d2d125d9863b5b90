//! A table, from its text.

ghost use Rattle.std.specs.Prelude.{◌≡◌, ◌≤◌, ◌++◌, ◌∷◌, [], false, Err, IfOk, OnOk, length, option_map};
ghost use Rattle.source_text.specs.declared.fault.Fault.TheVariants.{BadTable};
ghost use Rattle.source_text.specs.declared.fault.Reason.TheVariants.{Form};
ghost use Rattle.cost_certificate.specs.Forms.{cells_in, is_number, is_short, number_of, read_text, row_in, total_in};
ghost use Rattle.cost_certificate.specs.Listed.{listed};
ghost use Rattle.cost_certificate.specs.Read.{IsHeader, LeavesOut, Reads};
ghost use Rattle.cost_certificate.specs.SaidRows.{said, said_row};
ghost use Rattle.cost_certificate.specs.Words.{format_of, words_after};

use crate::table_words::{
    Format, cell, kind_named, line_length, next_word, number, split_line, split_word, word_is,
};
use crate::types::all_zero;
use cost_table::CostTable;
use language::Rank;
use source_text::{Fault, Reason};
use std::alloc::{AllocError, Global};
use tree::Kind;

/// Whether a row ends where its cells would begin, and may.
fn leaves_out(text: &[u8], format: Format) -> bool
    ensures { LeavesOut text.now (format_of format) result }
{
    match format {
        Format::Full => false,
        Format::Short => text.is_empty(),
    }
}

/// Whether a row with these cells is written without them.
fn is_left_out(format: Format, cells: [Option<u32>; 8]) -> bool
    ensures { result ≡ is_short (format_of format) (listed cells) }
{
    match format {
        Format::Full => false,
        Format::Short => all_zero(cells),
    }
}

/// The eight cells that words say, each behind a space.
fn row_cells(text: &[u8], format: Format) -> Option<[Option<u32>; 8]>
    requires { LeavesOut text.now (format_of format) false }
    ensures { result ≡ cells_in (format_of format) (words_after text.now) }
{
    let mut cells = [None; 8];
    let mut rest = text;
    for index in 0..8usize {
        if rest.is_empty() {
            return None;
        }
        let (word, others) = next_word(rest);
        let Some(cell) = cell(word) else {
            return None;
        };
        cells[index] = cell;
        rest = others;
    }
    if !rest.is_empty() {
        return None;
    }
    if is_left_out(format, cells) {
        return None;
    }
    Some(cells)
}

/// Whether a word is this number.
fn is_numbered(word: &[u8], expected: u32) -> bool
    ensures { result ≡ is_number (number_of word.now) expected }
{
    match number(word) {
        Some(number) => number == expected,
        None => false,
    }
}

/// What a line says of a row.
#[derive(Clone, Copy)]
enum RowLine {
    /// The kind alone: all cells are zeros, and none is written.
    Zeros(Kind),
    /// The kind and the cells.
    Cells(Kind, [Option<u32>; 8]),
}

/// The row that a line is, with this number, by its first word and what stands behind that.
fn row(first: &[u8], rest: &[u8], expected: u32, format: Format) -> Option<RowLine>
    ensures { option_map said result ≡ row_in (format_of format) expected (first.now ∷ words_after rest.now) }
{
    if rest.is_empty() {
        return None;
    }
    if !is_numbered(first, expected) {
        return None;
    }
    let (second, rest) = next_word(rest);
    let Some(kind) = kind_named(second) else {
        return None;
    };
    if leaves_out(rest, format) {
        return Some(RowLine::Zeros(kind));
    }
    let Some(cells) = row_cells(rest, format) else {
        return None;
    };
    Some(RowLine::Cells(kind, cells))
}

/// Puts the row that a line says behind those of a table.
fn push_line(table: &mut CostTable, line: RowLine) -> Result<(), AllocError>
    ensures { OnOk result (table.new.rows.items ≡ table.old.rows.items ++ said_row line ∷ []) }
{
    match line {
        RowLine::Zeros(kind) => table.push_free(kind, Rank::Primary),
        RowLine::Cells(kind, cells) => table.push_row(kind, cells),
    }
}

/// The total that a line is, by its first word and what stands behind that.
fn total(first: &[u8], rest: &[u8]) -> Option<u32>
    ensures { result ≡ total_in (first.now ∷ words_after rest.now) }
{
    if !word_is(first, "total") {
        return None;
    }
    if rest.is_empty() {
        return None;
    }
    let (second, rest) = next_word(rest);
    if !rest.is_empty() {
        return None;
    }
    number(second)
}

/// The format that a first line says.
fn header(line: &[u8]) -> Option<Format>
    ensures { IsHeader line.now result }
{
    if word_is(line, "jslint-cost 1") {
        return Some(Format::Full);
    }
    if word_is(line, "jslint-cost 2") {
        return Some(Format::Short);
    }
    None
}

/// The refusal of a text that is no table, at this row.
fn bad(row: u32) -> Result<CostTable, Fault>
    ensures { result ≡ Err (BadTable row Form) }
{
    Err(Fault::BadTable(row, Reason::Form))
}

/// The table that a text is, in either format. One walk over the text; memory for the rows alone.
///
/// # Errors
///
/// The number of the first line, counted from 0, that is not of its form, with `Reason::Form`; out of memory.
pub fn read_table(alloc: Global, text: &[u8]) -> Result<CostTable, Fault>
    ensures table { Reads (read_text text.now) result }
    ensures few { IfOk result (λ table. length table.rows.items ≤ 16777216) }
{
    let mut table = CostTable::new(alloc);
    let Some(length) = line_length(text) else {
        return bad(0);
    };
    let (line, others) = split_line(text, length);
    let Some(format) = header(line) else {
        return bad(0);
    };
    let mut rest = others;
    let mut expected = 1u32;
    'lines: while let Some(length) = line_length(rest) {
        let (line, others) = split_line(rest, length);
        let (first, words) = split_word(line);
        if let Some(total) = total(first, words) {
            if !others.is_empty() {
                return bad(expected + 1);
            }
            table.set_total(total);
            return Ok(table);
        }
        let Some(found) = row(first, words, expected, format) else {
            return bad(expected);
        };
        push_line(&mut table, found)?;
        rest = others;
        expected += 1;
    }
    bad(expected)
}
