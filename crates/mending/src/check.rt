//! The check of a text that a round has made.

ghost use Rattle.std.specs.Prelude.{◌≡◌, ◌≤◌, IfOk, length, true};
ghost use Rattle.mending.specs.Mends.{is_report_of, is_reported};
ghost use Rattle.mending.specs.Mended.{IsMended};
ghost use Rattle.mending.specs.Making.{are_reported};

use crate::change::Change;
use crate::comments::keeps_comments;
use crate::mends::mends;
use crate::round::Round;
use crate::splice::is_spliced;
use rule_words::Report;
use source_text::Source;
use std::alloc::{AllocError, Global};
use tree::{Pair, Program};

/// The number of the first report, of those in order of their places, that doesn't begin before a place.
fn first_report(reports: &[Report], start: usize) -> usize
    ensures { result ≤ length reports.now }
{
    let mut low = 0usize;
    let mut high = reports.len();
    while low < high {
        let middle = low + (high - low) / 2;
        if reports[middle].start() < start {
            low = middle + 1;
        } else {
            high = middle;
        }
    }
    low
}

/// Whether a report is of a change's rule and place.
fn is_report_of(report: &Report, change: Change) -> bool
    ensures { result ≡ is_report_of change.rule change.span report.now }
{
    report.rule() == change.rule.name()
        && report.start() == change.span.start
        && report.end() == change.span.end
}

/// Whether a change is at a place that its rule reports; the reports are in order of their places.
fn is_reported(reports: &[Report], change: Change) -> bool
    ensures { result ≡ true → is_reported reports.now change.rule change.span ≡ true }
{
    let first = first_report(reports, change.span.start);
    for index in first..reports.len() {
        if is_report_of(&reports[index], change) {
            return true;
        }
        if reports[index].start() > change.span.start {
            return false;
        }
    }
    false
}

/// Whether each change is at a place that its rule reports.
fn are_reported(reports: &[Report], changes: &[Change]) -> bool
    ensures { result ≡ true → are_reported reports.now changes.now ≡ true }
{
    for change in changes {
        if !is_reported(reports, *change) {
            return false;
        }
    }
    true
}

/// Whether the next text is what a round may make of a text by these reports. `again` is the script that was read of the next text, and
/// `pairs_again` are its grouping pairs. Steps and memory grow with both texts and trees.
///
/// # Errors
///
/// `AllocError` where memory is refused.
pub fn is_mended(
    alloc: Global,
    reports: &[Report],
    round: &Round,
    source: &Source<'_>,
    program: &Program<'_>,
    pairs: &[Pair],
    next: &Source<'_>,
    again: &Program<'_>,
    pairs_again: &[Pair],
) -> Result<bool, AllocError>
    ensures { IfOk result (λ is. is ≡ true → IsMended reports.now source.now program.now next.now again.now) }
{
    if !are_reported(reports, &round.changes) || !mends(program, again, &round.changes) {
        return Ok(false);
    }
    if !is_spliced(source.bytes(), &round.edits, next.bytes()) {
        return Ok(false);
    }
    keeps_comments(alloc, source, program, pairs, next, again, pairs_again)
}
