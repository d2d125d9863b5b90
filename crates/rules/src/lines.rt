//! The lines of reports.

ghost use Rattle.std.specs.Prelude.{◌≡◌, ◌++◌, IfOk, OnOk, string_bytes};
ghost use Rattle.std.specs.List.{list_all};
ghost use Rattle.rules.specs.Settings.{is_warning};
ghost use Rattle.rules.specs.Lines.{line_of, mark_of, report_lines as lines_of, report_status as status_of, span_line, span_lines as spans_of, unmarked};

use crate::settings::Settings;
use rule_words::Report;
use source_text::{LineWalker, Source};
use std::alloc::{AllocError, Global};
use std::fmt::Write;

/// The lines of reports under settings: each as `LINE:COLUMN RULE TEXT` and a line feed, in their order; behind the text of a warning stands
/// ` (warning)`. Line and column count from 1, columns in characters, and are those of the last place at or before the report's start.
/// Reports in order of their starts cost one walk over the text.
///
/// # Errors
///
/// `AllocError` where memory is refused.
pub fn report_lines(
    alloc: Global,
    settings: &Settings,
    source: &Source<'_>,
    reports: &[Report],
) -> Result<String, AllocError>
    ensures { IfOk result (λ lines. string_bytes lines ≡ lines_of settings.now source.now reports.now) }
{
    let mut lines = String::new(alloc);
    let mut here = LineWalker::first();
    for report in reports {
        let place = source.text().floor_char_boundary(report.start());
        here = here.resumed(place).moved(source, place);
        let is_warning = settings.is_warning(report.rule());
        let mark = mark_of(is_warning);
        push_line(here, report, mark, &mut lines)?;
    }
    Ok(lines)
}

/// What stands behind the text of a warning.
fn mark_of(is_warning: bool) -> &'static str
    ensures { result.now ≡ mark_of is_warning }
{
    if is_warning { " (warning)" } else { "" }
}

/// Appends the line of a report up to the end of its text.
fn push_unmarked(here: LineWalker, report: &Report, lines: &mut String) -> Result<(), AllocError>
    ensures { OnOk result (string_bytes lines.new ≡ string_bytes lines.old ++ unmarked (here.line, here.column) report.now) }
{
    let (rule, text) = (report.rule(), report.text());
    write!(lines, "{}:{} {rule} {text}", here.line, here.column)
}

/// Appends the line of a report, with a mark behind its text.
fn push_line(
    here: LineWalker,
    report: &Report,
    mark: &str,
    lines: &mut String,
) -> Result<(), AllocError>
    ensures { OnOk result (string_bytes lines.new ≡ string_bytes lines.old ++ line_of (here.line, here.column) report.now mark.now) }
{
    push_unmarked(here, report, lines)?;
    writeln!(lines, "{mark}")
}

/// The lines of reports with their spans: each as `START END RULE TEXT` and a line feed, in their order. Start and end are those of the
/// report, in bytes from 0.
///
/// # Errors
///
/// `AllocError` where memory is refused.
#[inline(never)]
pub fn span_lines(alloc: Global, reports: &[Report]) -> Result<String, AllocError>
    ensures { IfOk result (λ lines. string_bytes lines ≡ spans_of reports.now) }
{
    let mut lines = String::new(alloc);
    for report in reports {
        push_span_line(report, &mut lines)?;
    }
    Ok(lines)
}

/// Appends the line of a report with its span.
fn push_span_line(report: &Report, lines: &mut String) -> Result<(), AllocError>
    ensures { OnOk result (string_bytes lines.new ≡ string_bytes lines.old ++ span_line report.now) }
{
    let (start, end) = (report.start(), report.end());
    let (rule, text) = (report.rule(), report.text());
    writeln!(lines, "{start} {end} {rule} {text}")
}

/// Whether all reports are warnings.
fn all_warn(settings: &Settings, reports: &[Report]) -> bool
    ensures { result ≡ list_all (λ report. is_warning report.rule settings.now) reports.now }
{
    reports
        .iter()
        .all(|report| settings.is_warning(report.rule()))
}

/// The exit status of a check: 1 where there is a report that is no warning, else 0.
pub fn report_status(settings: &Settings, reports: &[Report]) -> u8
    ensures { result ≡ status_of settings.now reports.now }
{
    if all_warn(settings, reports) { 0 } else { 1 }
}
