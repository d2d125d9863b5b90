//! The reports of a script that are told.

ghost use Rattle.std.specs.Prelude.{◌≡◌, ◌++◌, cond, [], IfOk, OnOk};
ghost use Rattle.std.specs.List.Sorted.{IsPermutation, IsSorted};
ghost use Rattle.rule_words.specs.Order.{report_cmp};
ghost use Rattle.memchr.specs.Find.{matches};
ghost use Rattle.suppressions.specs.Left.{left, left_in, unused_in};
ghost use Rattle.suppressions.specs.Told.{is_some_place, mentions, told, told_unused};

use crate::directive::Reach;
use crate::left::{left_of, turned_off};
use crate::reading::suppressions_of;
use crate::terms::Terms;
use crate::unused::push_all_unused;
use memchr::memmem;
use name_tables::HashKey;
use rule_words::Report;
use source_text::Source;
use std::alloc::{AllocError, Global};
use tree::Program;

/// Whether bytes stand somewhere in a text.
fn occurs(text: &[u8], bytes: &[u8]) -> bool
    ensures { result ≡ is_some_place (matches text.now bytes.now 0) }
{
    memmem::find(text, bytes).is_some()
}

/// Whether a text has the beginning of a directive.
fn mentions(terms: Terms, text: &[u8]) -> bool
    ensures { result ≡ mentions terms text.now }
{
    occurs(text, b"jslint-disable") || (terms.takes_eslint && occurs(text, b"eslint-disable"))
}

/// A script, and how its comments are read.
#[derive(Clone, Copy)]
struct Script<'o, 's> {
    source: &'o Source<'s>,
    program: &'o Program<'s>,
    terms: Terms,
    hash: HashKey,
}

/// The reports that comments of one reach leave; what is told of the comments is appended to `unused`.
fn left_in(
    alloc: Global,
    script: Script<'_, '_>,
    reach: Reach,
    reports: Vec<Report>,
    unused: &mut Vec<Report>,
) -> Result<Vec<Report>, AllocError>
    ensures left { IfOk result (λ left. left.items ≡ left_in reach script.entry.terms.takes_eslint script.entry.source.now script.entry.program.now reports.items) }
    ensures unused { OnOk result (unused.new.items ≡ unused.old.items ++ cond script.entry.terms.tells_unused (unused_in reach script.entry.terms.takes_eslint script.entry.source.now script.entry.program.now reports.items) []) }
{
    let suppressions = suppressions_of(
        alloc,
        reach,
        script.terms.takes_eslint,
        script.source,
        script.program,
    )?;
    let offs = turned_off(
        alloc,
        script.hash,
        reach,
        script.source,
        &suppressions,
        &reports,
    )?;
    if script.terms.tells_unused {
        push_all_unused(alloc, &suppressions, &offs, unused)?;
    }
    let left = left_of(alloc, &offs, reports)?;
    Ok(left)
}

/// The reports of a script that comments leave, and those of suppressions that turn none off, in no order.
fn gathered(
    alloc: Global,
    script: Script<'_, '_>,
    reports: Vec<Report>,
) -> Result<Vec<Report>, AllocError>
    ensures { IfOk result (λ found. found.items ≡ left script.entry.terms.takes_eslint script.entry.source.now script.entry.program.now reports.items ++ told_unused script.entry.terms script.entry.source.now script.entry.program.now reports.items) }
{
    let mut unused = Vec::new(alloc);
    let regions = left_in(alloc, script, Reach::Region, reports, &mut unused)?;
    let lines = left_in(alloc, script, Reach::Line, regions, &mut unused)?;
    let mut left = left_in(alloc, script, Reach::NextLine, lines, &mut unused)?;
    left.append(&mut unused)?;
    Ok(left)
}

/// Of the reports of a script those that are told: all that no comment turns off and, if that is asked for, one for each rule that a comment
/// names in vain. They are sorted by start, rule name, end and text if the reports are.
///
/// # Errors
///
/// `AllocError` where memory is refused.
pub fn told_reports(
    alloc: Global,
    terms: Terms,
    source: &Source<'_>,
    program: &Program<'_>,
    reports: Vec<Report>,
) -> Result<Vec<Report>, AllocError>
    ensures found { IfOk result (λ found. IsPermutation (told terms source.now program.now reports.items) found.items) }
    ensures sorted { IfOk result (λ found. IsSorted report_cmp reports.items → IsSorted report_cmp found.items) }
{
    if !mentions(terms, source.bytes()) {
        return Ok(reports);
    }
    let script = Script {
        source,
        program,
        terms,
        hash: HashKey::drawn_from(program),
    };
    let mut found = gathered(alloc, script, reports)?;
    found.sort_by(|a, b| a.compare(b))?;
    Ok(found)
}
