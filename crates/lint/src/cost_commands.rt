//! The commands `cost` and `verify`: the cost table of a script, and the check of a table from anyone.

ghost use Rattle.std.specs.Prelude.{◌≡◌, ◌≤◌, false, length, IfOk, string_bytes};
ghost use Rattle.commands.specs.declared.command.Command.TheVariants.{Cost, Verify};
ghost use Rattle.lint.specs.ReadScripts.{IsReading, IsScript};
ghost use Rattle.lint.specs.Outputs.{pairs_line as pairs_line_of};
ghost use Rattle.lint.specs.Steps.{Answers, AnswersAlone, IsWritable, ReadsTable};

use crate::answer::Answer;
use commands::read_up_to;
use cost_certificate::{BadTable, check_table, read_table};
use cost_table::CostTable;
use paren_planner::plan;
use parser::Parsed;
use source_text::{Fault, Feed};
use std::alloc::{AllocError, Global};
use std::fmt::Write;

/// The most bytes of a table that are taken: no table has so many.
const MAX_TABLE: usize = 2_147_483_648;

/// What `cost` answers: the script's cost table.
///
/// # Errors
///
/// `OutOfMemory`.
pub(crate) fn cost<'s>(alloc: Global, parsed: Parsed<'s>) -> Result<Answer<'s>, Fault>
    requires script { IsScript parsed.program parsed.pairs.items }
    ensures answer { (language : _) (text : _) → IsReading language text parsed.entry.program parsed.entry.pairs.items → AnswersAlone language Cost text parsed.entry.program parsed.entry.pairs.items result }
    ensures writable { IfOk result IsWritable }
{
    match plan(alloc, parsed.program()) {
        Ok(plan) => Ok(Answer::Table(parsed, plan)),
        Err(AllocError) => Err(Fault::OutOfMemory),
    }
}

/// The table of the second file, which is read to its end, or to one byte past the longest table.
///
/// # Errors
///
/// `BadTable` with the first line that is not of its form; `ReadFailed` where the reader fails; `OutOfMemory`.
fn read_second<S: Feed>(alloc: Global, second: &mut S) -> Result<CostTable, Fault>
    requires ready { S.failed second.old ≡ false }
    ensures table { ReadsTable (S.left second.old) result (S.failed second.new) }
    ensures few { IfOk result (λ table. length table.rows.items ≤ 16777216) }
{
    match read_up_to(alloc, second, MAX_TABLE) {
        Ok(bytes) => read_table(alloc, &bytes),
        Err(fault) => Err(fault),
    }
}

/// `pairs P least T` and a line feed.
fn pairs_line(alloc: Global, pairs: usize, least: u32) -> Result<String, AllocError>
    ensures { IfOk result (λ line. string_bytes line ≡ pairs_line_of pairs least) }
{
    let mut line = String::new(alloc);
    writeln!(line, "pairs {pairs} least {least}")?;
    Ok(line)
}

/// What `verify` answers: the number of the script's grouping pairs, and the total of the table of the second file, which is checked: no
/// text with the same tree has fewer pairs than that.
///
/// # Errors
///
/// `BadTable` with the row and the reason, where the second file is no table or one that isn't sound for the script; `ReadFailed` where
/// the reader fails; `OutOfMemory`.
pub(crate) fn verify<'s, S: Feed>(
    alloc: Global,
    parsed: &Parsed<'_>,
    second: &mut S,
) -> Result<Answer<'s>, Fault>
    requires script { IsScript parsed.now.program parsed.now.pairs.items }
    requires ready { S.failed second.old ≡ false }
    ensures answer { (finds language text : _) → Answers finds language Verify text parsed.now.program parsed.now.pairs.items (S.left second.old) result (S.failed second.new) }
    ensures writable { IfOk result IsWritable }
{
    let table = match read_second(alloc, second) {
        Ok(table) => table,
        Err(fault) => return Err(fault),
    };
    let least = match check_table(parsed.program(), &table) {
        Ok(least) => least,
        Err(BadTable { row, reason }) => return Err(Fault::BadTable(row, reason)),
    };
    match pairs_line(alloc, parsed.grouping_pairs().len(), least) {
        Ok(line) => Ok(Answer::Text(line, 0)),
        Err(AllocError) => Err(Fault::OutOfMemory),
    }
}
